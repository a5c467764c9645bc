// What evaluating asks of a node before it evaluates another: the answer of a node that has none inside, a switch's tag and
// the node that it selects, a call's arguments and the tree of its type.
#![tactic(auto)]

ghost use Rattle.std.specs.Prelude.{◌≡◌, ℕ, ◌+◌, ◌≤◌, length, Ok};
ghost use Rattle.errors.specs.Refusal.{done, MissingIrParameter};
ghost use Rattle.errors.specs.Meaning.{number_of as reason_number, refusal_of, outcome_of};
ghost use Rattle.blocks.specs.Bytes.{le2};
ghost use Rattle.blocks.specs.Tree.{Tree, text, body, part};
ghost use Rattle.blocks.specs.Read.{read_layout};
ghost use Rattle.ir.specs.Layout.{node_of, layout_of};
ghost use Rattle.accepted.specs.Accepted.{Accepted, tree, name_at};
ghost use Rattle.interpreter.specs.Eval.{Handlers, ParamMap, find, refusal_at, lift, eval_node};
ghost use Rattle.value.specs.Number.{number_of};
ghost use Rattle.interpreter_arithmetic.specs.Num.{result_of};
ghost use Rattle.lookup.specs.Found.{TreeFound};
ghost use Rattle.interpreter_values.specs.Remembered.{Kept};
ghost use Rattle.interpreter_context.specs.Names.{found_in};
ghost use Rattle.interpreter_context.specs.Context.{arguments_of, Here};
ghost use Rattle.interpreter_leaves.specs.Steps.{ContextOver, Rooted, Picked, Bound, FieldName, Unwrapped};

use errors::{Answer, Reason, Refusal};
use interpreter_context::Root;
use value::Value;
use wire::Position;

// What nodes are evaluated over, which no call changes: the bytes of an accepted layout and those of the values, and what the root's context
// is made of.
#[derive(Clone, Copy)]
pub struct Inputs<'a> {
    pub layout: &'a [u8],
    pub values: &'a [u8],
    pub root: Root,
}

// What a call changes for the nodes inside: how many calls are open, and the place of the type whose tree holds the node.
#[derive(Clone, Copy)]
pub struct Frame {
    pub depth: usize,
    pub place: usize,
}

impl Frame {
    // A refusal at an offset in the tree of the type at the frame's place.
    pub fn refused(self, reason: Reason, offset: usize, value: Value) -> Refusal
        ensures { refusal_of result ≡ refusal_at self.place offset (reason_number reason) (number_of value) }
    {
        Refusal {
            reason,
            place: self.place,
            offset,
            value,
        }
    }

    // The one where the name that a node or an argument asks for is not in the context.
    pub fn missing(self, offset: usize) -> Refusal
        ensures { refusal_of result ≡ refusal_at self.place offset MissingIrParameter 0 }
    {
        self.refused(Reason::MissingIrParameter, offset, Value::of(0))
    }

    // A result of arithmetic, at a node, left in an answer.
    pub fn lifted(self, at: usize, n: Result<Value, Reason>, answer: &mut Answer)
        ensures { outcome_of answer.new ≡ lift self.place at (result_of n) }
    {
        match n {
            Ok(value) => counted(value, answer),
            Err(reason) => *answer = Err(self.refused(reason, at, Value::of(0))),
        }
    }
}

// A count, left in an answer. Where that was a count, the count alone is written.
pub fn counted(value: Value, answer: &mut Answer)
    ensures { answer.new ≡ Ok value }
{
    match answer {
        Ok(count) => *count = value,
        Err(_) => *answer = Ok(value),
    }
}

// A Const node, which is never refused.
pub fn constant(s: &[u8], at: usize) -> Value
    requires { Accepted s.now 128 144 at × (le2 s.now (at + 4) ≡ 129) }
    ensures { (handle : Handlers) (p : ℕ) (γ : ParamMap) (a : Accepted s.now 128 144 at) → done (number_of result) ≡ eval_node handle p γ (node_of (tree a)) }
{
    let p = interpreter_context::first_part(s, at);
    Value::of(wire::read8(s, p) as u64)
}

// What the context of a frame has of the name at an offset of the layout.
fn found(inputs: &Inputs, name: usize, words: &mut [u64], f: Frame) -> Option<Value>
    requires { (name + 2 + le2 inputs.now.layout.now name ≤ length inputs.now.layout.now) × ((γ : ParamMap) × ContextOver inputs.now words.old f.depth γ) }
    ensures result_value { (γ : ParamMap) → ContextOver inputs.now words.old f.depth γ → found_in result ≡ find (name_at inputs.now.layout.now name) γ }
    ensures kept { Kept inputs.now.values.now inputs.now.root.block 16 words.old words.new }
{
    let root = inputs.root;
    interpreter_context::find(inputs.layout, name, inputs.values, root, words, f.depth)
}

// The offset of the name that a FieldRef node looks for.
fn field_name(s: &[u8], at: usize) -> usize
    requires { Accepted s.now 128 144 at × (le2 s.now (at + 4) ≡ 130) }
    ensures { FieldName s.now at result }
{
    let p = interpreter_context::first_part(s, at);
    let q = interpreter_context::second_part(s, at);
    if s[q] == 1 { q + 1 } else { p }
}

// A FieldRef node.
pub fn field(inputs: &Inputs, at: usize, words: &mut [u64], f: Frame) -> Answer
    requires { Accepted inputs.now.layout.now 128 144 at × (le2 inputs.now.layout.now (at + 4) ≡ 130) × ((γ : ParamMap) × ContextOver inputs.now words.old f.depth γ) }
    ensures tells { (handle : Handlers) (γ : ParamMap) → ContextOver inputs.now words.old f.depth γ → (a : Accepted inputs.now.layout.now 128 144 at) → outcome_of result ≡ eval_node handle f.place γ (node_of (tree a)) }
    ensures kept { Kept inputs.now.values.now inputs.now.root.block 16 words.old words.new }
{
    let name = field_name(inputs.layout, at);
    let Some(held) = found(inputs, name, words, f) else {
        return Err(f.missing(at));
    };
    Ok(held)
}

// The tag of a Switch node.
pub fn tag(inputs: &Inputs, at: usize, words: &mut [u64], f: Frame) -> Option<Value>
    requires { Accepted inputs.now.layout.now 128 144 at × (le2 inputs.now.layout.now (at + 4) ≡ 132) × ((γ : ParamMap) × ContextOver inputs.now words.old f.depth γ) }
    ensures result_value { (γ : ParamMap) → ContextOver inputs.now words.old f.depth γ → (a : Accepted inputs.now.layout.now 128 144 at) → found_in result ≡ find (text (part 2 (body (tree a)))) γ }
    ensures kept { Kept inputs.now.values.now inputs.now.root.block 16 words.old words.new }
{
    let p = interpreter_context::first_part(inputs.layout, at);
    found(inputs, p, words, f)
}

// The node of the first case of the tag's value, or else the default node, whose place is looked for only where no case has the value.
pub fn selected(s: &[u8], at: usize, tag: Value) -> Option<usize>
    requires { Accepted s.now 128 144 at × (le2 s.now (at + 4) ≡ 132) }
    ensures { (a : Accepted s.now 128 144 at) → Picked a (number_of tag) result }
{
    let wanted = tag.low();
    let list = interpreter_context::second_part(s, at);
    let mut p = list + 2;
    for _ in 0..wire::read2(s, list) {
        if wire::read8(s, p + 6) as u64 == wanted {
            return Some(p + 14);
        }
        p = p + 4 + wire::read4(s, p);
    }
    let d = interpreter_context::third_part(s, at);
    if s[d] == 1 { Some(d + 1) } else { None }
}

// Whether each argument's value is in the caller's context, or a refusal at the first whose value is not.
pub fn collect_arguments(
    inputs: &Inputs,
    at: usize,
    words: &mut [u64],
    f: Frame,
) -> Result<(), Refusal>
    requires { Accepted inputs.now.layout.now 128 144 at × (le2 inputs.now.layout.now (at + 4) ≡ 133) × ((γ : ParamMap) × ContextOver inputs.now words.old f.depth γ) × (f.depth ≤ 16) }
    ensures by_index { (γ : ParamMap) → ContextOver inputs.now words.old f.depth γ → (a : Accepted inputs.now.layout.now 128 144 at) → Bound f.place γ (arguments_of (tree a)) result }
    ensures kept { Kept inputs.now.values.now inputs.now.root.block 16 words.old words.new }
{
    let list = interpreter_context::second_part(inputs.layout, at);
    let mut p = list + 2;
    for _ in 0..wire::read2(inputs.layout, list) {
        let value = p + 8 + wire::read2(inputs.layout, p + 6);
        let Some(_) = found(inputs, value, words, f) else {
            return Err(f.missing(p));
        };
        p = p + 4 + wire::read4(inputs.layout, p);
    }
    Ok(())
}

// The tree of the type that a CallNested node calls. Where a call has opened the type that holds the node, the search begins there.
pub fn called(s: &[u8], at: usize, words: &[u64], f: Frame) -> Option<Position>
    requires { Accepted s.now 128 144 at × (le2 s.now (at + 4) ≡ 133) × ((t : Tree) × (read_layout s.now ≡ done t)) × Here s.now words.now f.depth f.place }
    ensures { (t : Tree) → read_layout s.now ≡ done t → (a : Accepted s.now 128 144 at) → TreeFound s.now (text (part 2 (body (tree a)))) (layout_of t) result }
{
    let name = wire::name_at(s, interpreter_context::first_part(s, at));
    if f.depth == 0 {
        return lookup::lookup_type(s, name);
    }
    let here = (words[f.depth - 1] / 4294967296) as usize;
    lookup::lookup_near(s, name, f.place, here)
}

// The root of a type tree.
pub fn root(s: &[u8], callee: usize) -> usize
    requires { Accepted s.now 161 161 callee }
    ensures { (t : Accepted s.now 161 161 callee) → Rooted t result }
{
    callee + 16 + wire::read2(s, callee + 6)
}

// The node at an offset, without the AlignUp nodes around it that change nothing: an alignment of 0 or 1 hands the count on.
pub fn unwrapped(s: &[u8], at: usize) -> usize
    requires { Accepted s.now 128 144 at }
    ensures { (a : Accepted s.now 128 144 at) → Unwrapped a result }
{
    let mut p = at;
    while wire::read2(s, p + 4) == 131 {
        if 1 < wire::read8(s, interpreter_context::first_part(s, p)) {
            return p;
        }
        p = interpreter_context::second_part(s, p);
    }
    p
}
