// Where the parts of an accepted node stand, and a value by its name, found through the open calls.
#![tactic(auto)]

ghost use Rattle.std.specs.Prelude.{◌≡◌, List, ◌∷◌, true, false, ◌+◌, ◌≤◌, ℕ, length, drop};
ghost use Rattle.std.proofs.Math.Option.{none};
ghost use Rattle.blocks.specs.declared.Part.{Part};
ghost use Rattle.blocks.specs.Bytes.{le2, le8};
ghost use Rattle.blocks.specs.Grammar.{parts_of};
ghost use Rattle.value.specs.Number.{number_of};
ghost use Rattle.ir_nodes.specs.Codes.{code_of};
ghost use Rattle.ir.specs.Layout.{argument_of};
ghost use Rattle.interpreter.specs.Eval.{ParamMap, find as finding};
ghost use Rattle.interpreter.specs.Validate.{with_buffer_size, values_of};
ghost use Rattle.accepted.specs.Accepted.{Accepted, Parts, tree, name_at};
ghost use Rattle.interpreter_values.specs.Remembered.{Remembered, Kept};
ghost use Rattle.interpreter_context.specs.Located.{Simple, Listing, Next, Located};
ghost use Rattle.interpreter_context.specs.Names.{chosen, last_argument, lists, callers_name, named, found_in};
ghost use Rattle.interpreter_context.specs.Context.{Pair, Context, arguments_of, parameters_of};

use value::Value;

// The offset behind a number, a text, an optional text or a node, by its code. It is small, and stands apart from `behind_list`, so that
// it is compiled into its callers: there a code is most often known.
fn behind(s: &[u8], at: usize, code: u32) -> usize
    requires { (p : Part) × (ps : List Part) × Simple p × (code ≡ code_of p) × Parts s.now (p ∷ ps) at }
    ensures { (p : Part) (ps : List Part) (c : Parts s.now (p ∷ ps) at) → Simple p → code ≡ code_of p → Next c result }
{
    if code == ir_nodes::NUMBER {
        return at + 8;
    }
    if code == ir_nodes::TEXT {
        return at + 2 + wire::read2(s, at);
    }
    if code == ir_nodes::OPT_TEXT {
        let b = s[at];
        if b == 1 {
            return at + 3 + wire::read2(s, at + 1);
        }
        return at + 1;
    }
    at + 4 + wire::read4(s, at)
}

// The offset behind a list of cases or arguments.
fn behind_list(s: &[u8], at: usize) -> usize
    requires { (p : Part) × (ps : List Part) × Listing p × Parts s.now (p ∷ ps) at }
    ensures { (p : Part) (ps : List Part) (c : Parts s.now (p ∷ ps) at) → Listing p → Next c result }
{
    let mut q = at + 2;
    for _ in 0..wire::read2(s, at) {
        q = q + 4 + wire::read4(s, q);
    }
    q
}

// The three that follow are no loop over a node's parts: in each the codes of the metadata are known when it is compiled.

// The offset of a node's first part behind its metadata.
#[tactic(auto, using(crate::proofs::Laws::kinds))]
pub fn first_part(s: &[u8], at: usize) -> usize
    requires { Accepted s.now 128 144 at }
    ensures { (a : Accepted s.now 128 144 at) (ps : List Part) → drop 2 (parts_of (le2 s.now (at + 4))) ≡ ps → Located a ps 2 result }
{
    let kind = wire::read2(s, at + 4);
    let p = behind(s, at + 6, ir_nodes::node_part(kind, 0));
    behind(s, p, ir_nodes::node_part(kind, 1))
}

// The offset of the part behind that.
#[tactic(auto, using(crate::proofs::Laws::kinds))]
pub fn second_part(s: &[u8], at: usize) -> usize
    requires { Accepted s.now 128 144 at × (3 ≤ length (parts_of (le2 s.now (at + 4)))) }
    ensures { (a : Accepted s.now 128 144 at) (ps : List Part) → drop 3 (parts_of (le2 s.now (at + 4))) ≡ ps → Located a ps 3 result }
{
    let kind = wire::read2(s, at + 4);
    behind(s, first_part(s, at), ir_nodes::node_part(kind, 2))
}

// The offset of the part behind that, which may be a list.
#[tactic(auto, using(crate::proofs::Laws::kinds))]
pub fn third_part(s: &[u8], at: usize) -> usize
    requires { Accepted s.now 128 144 at × (4 ≤ length (parts_of (le2 s.now (at + 4)))) }
    ensures { (a : Accepted s.now 128 144 at) (ps : List Part) → drop 4 (parts_of (le2 s.now (at + 4))) ≡ ps → Located a ps 4 result }
{
    let kind = wire::read2(s, at + 4);
    let p = second_part(s, at);
    let code = ir_nodes::node_part(kind, 3);
    if code == ir_nodes::CASES {
        return behind_list(s, p);
    }
    if code == ir_nodes::ARGUMENTS {
        return behind_list(s, p);
    }
    behind(s, p, code)
}

// A name's value in the context of an open call. A context is no map: it is found through the open calls, from the innermost
// to the root, whose values are those of a block 192.

// What the root's context is made of, which no call changes: the offset of the block of values, and the buffer length.
#[derive(Clone, Copy)]
pub struct Root {
    pub block: usize,
    pub len: u64,
}

// The argument's value name where the argument has this name, else what was found before.
fn later<'a>(s: &'a [u8], at: usize, name: &[u8], before: Option<&'a [u8]>) -> Option<&'a [u8]>
    requires { Accepted s.now 164 164 at }
    ensures { (a : Accepted s.now 164 164 at) → named result ≡ chosen name.now (argument_of (tree a)) (named before.entry) }
{
    if lookup::is_named(s, at + 6, name) {
        return Some(wire::name_at(s, wire::behind_name(s, at + 6)));
    }
    before
}

// The value name of the last argument of this name: a later one wins, so that the search goes to the end, other than wire's.
fn last_argument<'a>(s: &'a [u8], call: usize, name: &[u8]) -> Option<&'a [u8]>
    requires { Accepted s.now 128 144 call × (le2 s.now (call + 4) ≡ 133) }
    ensures { (a : Accepted s.now 128 144 call) → named result ≡ last_argument name.now (arguments_of (tree a)) none }
{
    let list = second_part(s, call);
    let mut at = list + 2;
    let mut last = None;
    for _ in 0..wire::read2(s, list) {
        last = later(s, at, name, last);
        at = at + 4 + wire::read4(s, at);
    }
    last
}

// Whether the parameters of a type tree list this name.
fn is_listed(s: &[u8], callee: usize, name: &[u8]) -> bool
    requires { Accepted s.now 161 161 callee }
    ensures { (t : Accepted s.now 161 161 callee) → result ≡ lists name.now (parameters_of (tree t)) }
{
    let root = callee + 16 + wire::read2(s, callee + 6);
    let list = root + 4 + wire::read4(s, root);
    wire::block_named(s, list + 2, wire::read2(s, list), name).is_some()
}

// The name under which the caller's context has what a called type knows by this name.
fn callers_name<'a>(s: &'a [u8], call: usize, callee: usize, name: &'a [u8]) -> Option<&'a [u8]>
    requires { Pair s.now call callee }
    ensures { (p : Pair s.now call callee) → named result ≡ callers_name name.now (arguments_of (tree p.call)) (parameters_of (tree p.type)) }
{
    match last_argument(s, call, name) {
        Some(value) => Some(value),
        None => is_listed(s, callee, name).then_some(name),
    }
}

// A value of a block 192, at its offset there.
fn value_at(values: &[u8], at: usize) -> Value
    requires { at + 8 ≤ length values.now }
    ensures { number_of result ≡ le8 values.now at }
{
    Value::of(wire::read8(values, at) as u64)
}

// What the root's context has of a name: a value, or the buffer length where no value has that name.
fn at_root(name: &[u8], values: &[u8], root: Root, words: &mut [u64]) -> Option<Value>
    requires { Accepted values.now 192 192 root.block × Remembered values.now root.block words.old }
    ensures result_value { (a : Accepted values.now 192 192 root.block) → found_in result ≡ finding name.now (with_buffer_size root.len (values_of (tree a))) }
    ensures kept { Kept values.now root.block 16 words.old words.new }
{
    match interpreter_values::value(values, root.block, words, name) {
        Some(o) => Some(value_at(values, o)),
        None => wire::same_name(name, b"__buffer_size").then_some(Value::of(root.len)),
    }
}

// A name's value in the context of the innermost of so many open calls. Of the words those of the open calls stay; behind them it may be
// remembered where the values stand.
pub fn find(
    s: &[u8],
    name: usize,
    values: &[u8],
    root: Root,
    words: &mut [u64],
    depth: usize,
) -> Option<Value>
    requires { (name + 2 + le2 s.now name ≤ length s.now) × ((γ : ParamMap) × Context s.now values.now root.block root.len words.old depth γ) }
    ensures result_value { (γ : ParamMap) → Context s.now values.now root.block root.len words.old depth γ → found_in result ≡ finding (name_at s.now name) γ }
    ensures kept { Kept values.now root.block 16 words.old words.new }
{
    let mut wanted = wire::name_at(s, name);
    for d in (0..depth).rev() {
        let word = words[d];
        let call = (word % 4294967296) as usize;
        let callee = (word / 4294967296) as usize;
        wanted = callers_name(s, call, callee, wanted)?;
    }
    at_root(wanted, values, root, words)
}
