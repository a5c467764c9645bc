// interpreter.rs, `eval_node`, `eval_switch`, `eval_call`, over the accepted bytes of a layout. Left before right, arguments
// before the type lookup.
#![tactic(auto)]

ghost use Rattle.std.specs.Prelude.{◌≡◌, ◌+◌, ◌≤◌};
ghost use Rattle.blocks.specs.Bytes.{le2};
ghost use Rattle.interpreter_values.specs.Remembered.{Kept};
ghost use Rattle.interpreter_eval.specs.Evaluates.{Ready, Evaluates};

use errors::{Answer, Reason, Refusal};
use interpreter_leaves::{Frame, Inputs};
use value::Value;

// What the node at an offset evaluates to, left in the caller's answer: a result of this size would be copied at each node that hands it on,
// and take stack for each, where a call that leaves it there can be the last and is a jump. Of the words from the frame's depth on, where the
// calls stand that were open, nothing is said but that those behind the sixteenth still remember the values.
#[cycle(eval)]
pub fn eval_node(inputs: &Inputs, at: usize, words: &mut [u64], f: Frame, answer: &mut Answer)
    requires { Ready inputs.now words.old f at }
    ensures kept { Kept inputs.now.values.now inputs.now.root.block f.depth words.old words.new }
    ensures evaluates { Evaluates inputs.now words.old f at answer.new }
{
    let inner = interpreter_leaves::unwrapped(inputs.layout, at);
    eval_kind(inputs, inner, words, f, answer)
}

// The same, by the node's kind.
#[cycle(eval)]
fn eval_kind(inputs: &Inputs, at: usize, words: &mut [u64], f: Frame, answer: &mut Answer)
    requires { Ready inputs.now words.old f at }
    ensures kept { Kept inputs.now.values.now inputs.now.root.block f.depth words.old words.new }
    ensures evaluates { Evaluates inputs.now words.old f at answer.new }
{
    let kind = wire::read2(inputs.layout, at + 4);
    match kind {
        128 => interpreter_leaves::counted(Value::of(0), answer),
        129 => interpreter_leaves::counted(interpreter_leaves::constant(inputs.layout, at), answer),
        130 => *answer = interpreter_leaves::field(inputs, at, words, f),
        131 => eval_align(inputs, at, words, f, answer),
        132 => eval_switch(inputs, at, words, f, answer),
        133 => eval_call(inputs, at, words, f, answer),
        144 => *answer = Err(f.refused(Reason::UnsupportedOperation, at, Value::of(0))),
        _ => eval_binary(inputs, at, words, f, answer),
    }
}

// An AlignUp node.
#[cycle(eval)]
fn eval_align(inputs: &Inputs, at: usize, words: &mut [u64], f: Frame, answer: &mut Answer)
    requires { Ready inputs.now words.old f at × (le2 inputs.now.layout.now (at + 4) ≡ 131) }
    ensures kept { Kept inputs.now.values.now inputs.now.root.block f.depth words.old words.new }
    ensures evaluates { Evaluates inputs.now words.old f at answer.new }
{
    let p = interpreter_context::first_part(inputs.layout, at);
    let q = interpreter_context::second_part(inputs.layout, at);
    eval_node(inputs, q, words, f, answer);
    let Ok(x) = *answer else {
        return;
    };
    let alignment = wire::read8(inputs.layout, p) as u64;
    f.lifted(at, interpreter_arithmetic::align_up(x, alignment), answer)
}

// A node that is the first operand of another: a constant is met so often that it is asked for at once.
#[cycle(eval)]
fn eval_operand(inputs: &Inputs, at: usize, words: &mut [u64], f: Frame, answer: &mut Answer)
    requires { Ready inputs.now words.old f at }
    ensures kept { Kept inputs.now.values.now inputs.now.root.block f.depth words.old words.new }
    ensures evaluates { Evaluates inputs.now words.old f at answer.new }
{
    let inner = interpreter_leaves::unwrapped(inputs.layout, at);
    if wire::read2(inputs.layout, inner + 4) == 129 {
        interpreter_leaves::counted(interpreter_leaves::constant(inputs.layout, inner), answer);
        return;
    }
    eval_node(inputs, inner, words, f, answer)
}

// A node of two operands, left before right.
#[cycle(eval)]
fn eval_binary(inputs: &Inputs, at: usize, words: &mut [u64], f: Frame, answer: &mut Answer)
    requires { Ready inputs.now words.old f at × ((134 ≤ le2 inputs.now.layout.now (at + 4)) × (le2 inputs.now.layout.now (at + 4) ≤ 143)) }
    ensures kept { Kept inputs.now.values.now inputs.now.root.block f.depth words.old words.new }
    ensures evaluates { Evaluates inputs.now words.old f at answer.new }
{
    let kind = wire::read2(inputs.layout, at + 4);
    let p = interpreter_context::first_part(inputs.layout, at);
    let q = interpreter_context::second_part(inputs.layout, at);
    eval_operand(inputs, p, words, f, answer);
    let Ok(x) = *answer else {
        return;
    };
    eval_node(inputs, q, words, f, answer);
    let Ok(y) = *answer else {
        return;
    };
    f.lifted(at, interpreter_arithmetic::operate(kind, x, y), answer)
}

// A Switch node.
#[cycle(eval)]
fn eval_switch(inputs: &Inputs, at: usize, words: &mut [u64], f: Frame, answer: &mut Answer)
    requires { Ready inputs.now words.old f at × (le2 inputs.now.layout.now (at + 4) ≡ 132) }
    ensures kept { Kept inputs.now.values.now inputs.now.root.block f.depth words.old words.new }
    ensures evaluates { Evaluates inputs.now words.old f at answer.new }
{
    let Some(v) = interpreter_leaves::tag(inputs, at, words, f) else {
        *answer = Err(f.missing(at));
        return;
    };
    let Some(q) = interpreter_leaves::selected(inputs.layout, at, v) else {
        *answer = Err(f.refused(Reason::InvalidTagValue, at, v));
        return;
    };
    eval_node(inputs, q, words, f, answer)
}

// A CallNested node: arguments, type lookup, then whether the call may open; its word holds where the call and the type stand.
#[cycle(eval)]
fn eval_call(inputs: &Inputs, at: usize, words: &mut [u64], f: Frame, answer: &mut Answer)
    requires { Ready inputs.now words.old f at × (le2 inputs.now.layout.now (at + 4) ≡ 133) }
    ensures kept { Kept inputs.now.values.now inputs.now.root.block f.depth words.old words.new }
    ensures evaluates { Evaluates inputs.now words.old f at answer.new }
{
    if let Err(refusal) = interpreter_leaves::collect_arguments(inputs, at, words, f) {
        *answer = Err(refusal);
        return;
    }
    let Some(callee) = interpreter_leaves::called(inputs.layout, at, words, f) else {
        *answer = Err(Refusal::plain(Reason::UnknownType));
        return;
    };
    if f.depth == 16 {
        *answer = Err(f.refused(Reason::TooManyCalls, at, Value::of(0)));
        return;
    }
    let top = interpreter_leaves::root(inputs.layout, callee.at);
    words[f.depth] = at as u64 + callee.at as u64 * 4294967296;
    let inner = Frame {
        depth: f.depth + 1,
        place: callee.place,
    };
    eval_node(inputs, top, words, inner, answer)
}
