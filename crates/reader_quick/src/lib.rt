// A quick reader of layouts, values and runs. It says only yes: where it does not, the reader puts the questions again, one by one.
#![tactic(auto)]

ghost use Rattle.std.specs.Prelude.{◌≡◌, true, [], ◌∷◌, ℕ, ◌+◌, ◌≤◌, ◌<◌, length, get_or, IfSome};
ghost use Rattle.blocks.specs.declared.Part.TheVariants.{OptText, Flag};
ghost use Rattle.blocks.specs.Bytes.{le2};
ghost use Rattle.blocks.specs.Read.{Earlier, Reader, in_order, read_text, read_number, read_flag, read_optional, read_list, read_part, read_parts, read_block, read_input};
ghost use Rattle.reader_leaf.specs.Answer.{read_of};
ghost use Rattle.reader_leaf.specs.Seen.{name_at, Fresh};
ghost use Rattle.ir_nodes.specs.Codes.{part_of};
ghost use Rattle.reader.specs.Input.{input_of};
ghost use Rattle.reader_quick.specs.Quick.{Reads, Sized, Begun, Body, Counted};

use errors::Unread;

// The digits of the parts that nodes have.
const TEXT: u64 = ir_nodes::TEXT as u64;

const NUMBER: u64 = ir_nodes::NUMBER as u64;

const OPT_TEXT: u64 = ir_nodes::OPT_TEXT as u64;

const NODE: u64 = ir_nodes::NODE as u64;

const OPT_NODE: u64 = ir_nodes::OPT_NODE as u64;

const CASES: u64 = ir_nodes::CASES as u64;

const ARGUMENTS: u64 = ir_nodes::ARGUMENTS as u64;

// The rows that are met most.
const CONST_ROW: u64 = ir_nodes::CONST_ROW;

const CALL_ROW: u64 = ir_nodes::CALL_ROW;

const FIELD_ROW: u64 = ir_nodes::FIELD_ROW;

// A question; nothing is said if its answer is "no".
fn ask(yes: bool) -> Option<()>
    ensures { IfSome result (λ _. yes ≡ true) }
{
    yes.then_some(())
}

// A name or a text. Inlined, as `pieces` is: a layout is read in less time so.
#[inline(always)]
#[tactic(auto, unfolding(reader_leaf::proofs::Compute::compute))]
fn text(s: &[u8], at: usize, end: usize) -> Option<usize>
    requires { (at ≤ end) × (end ≤ length s.now) }
    ensures read { (start : ℕ) → Reads result (read_text s.now start end at) }
    ensures inside { IfSome result (λ next. next ≤ end) }
{
    ask(at + 2 <= end)?;
    let from = at + 2;
    let to = from + wire::read2(s, at);
    ask(to <= end)?;
    ask(texts::is_text(&s[from..to]))?;
    Some(to)
}

#[tactic(auto, unfolding(reader_leaf::proofs::Compute::compute))]
fn number(s: &[u8], at: usize, end: usize) -> Option<usize>
    requires { (at ≤ end) × (end ≤ length s.now) }
    ensures read { (start : ℕ) → Reads result (read_number s.now start end at) }
    ensures inside { IfSome result (λ next. next ≤ end) }
{
    ask(at + 8 <= end)?;
    Some(at + 8)
}

#[tactic(auto, unfolding(reader_leaf::proofs::Compute::compute))]
fn flag(s: &[u8], at: usize, end: usize) -> Option<usize>
    requires { (at ≤ end) × (end ≤ length s.now) }
    ensures read { (start : ℕ) → Reads result (read_flag s.now start end at) }
    ensures inside { IfSome result (λ next. (next ≡ at + 1) × (next ≤ end) × (get_or s.now at 0 ≤ 1)) }
{
    ask(at + 1 <= end)?;
    ask(s[at] <= 1)?;
    Some(at + 1)
}

// A flag, and behind it a text if the flag is 1.
#[tactic(auto, using(reader_leaf::proofs::Laws::optionals))]
fn optional(s: &[u8], at: usize, end: usize) -> Option<usize>
    requires { (at ≤ end) × (end ≤ length s.now) }
    ensures read { (start : ℕ) → Reads result (read_optional (read_text s.now start end) 1 s.now start end at) }
    ensures inside { IfSome result (λ next. next ≤ end) }
{
    let next = flag(s, at, end)?;
    if s[at] == 0 {
        return Some(next);
    }
    text(s, next, end)
}

// A count, at most the limit.
#[tactic(auto, unfolding(reader_leaf::proofs::Compute::compute))]
fn counted(s: &[u8], limit: usize, at: usize, end: usize) -> Option<usize>
    requires { (at ≤ end) × (end ≤ length s.now) }
    ensures { IfSome result (λ n. Counted s.now limit at end n) }
{
    ask(at + 2 <= end)?;
    let n = wire::read2(s, at);
    ask(n <= limit)?;
    Some(n)
}

// Where the block at `at` ends, by its length.
fn sized(s: &[u8], at: usize, end: usize) -> Option<usize>
    requires { (at ≤ end) × (end ≤ length s.now) }
    ensures { IfSome result (λ stop. Sized s.now at end stop) }
{
    ask(at + 6 <= end)?;
    let n = wire::read4(s, at);
    ask(2 <= n)?;
    ask(at + 4 + n <= end)?;
    Some(at + 4 + n)
}

// The same of a block that has to be of one kind.
fn of_kind(s: &[u8], kind: usize, at: usize, end: usize) -> Option<usize>
    requires { (at ≤ end) × (end ≤ length s.now) }
    ensures { IfSome result (λ stop. (Sized s.now at end stop) × (le2 s.now (at + 4) ≡ kind)) }
{
    let stop = sized(s, at, end)?;
    ask(wire::read2(s, at + 4) == kind)?;
    Some(stop)
}

// What a parameter has behind its name: a description behind a flag, and a flag.
fn described(s: &[u8], at: usize, end: usize) -> Option<usize>
    requires { (at ≤ end) × (end ≤ length s.now) }
    ensures read { (rb : Reader) (e : Earlier) (start : ℕ) → Reads result (read_parts rb s.now e start end (OptText ∷ Flag ∷ []) at) }
    ensures inside { IfSome result (λ next. next ≤ end) }
{
    let i = optional(s, at, end)?;
    flag(s, i, end)
}

// A parameter (162) or an argument (164).
fn entry(s: &[u8], kind: usize, at: usize, end: usize) -> Option<usize>
    requires { (at ≤ end) × (end ≤ length s.now) }
    ensures read { (room : ℕ) (e : Earlier) → 0 < room → Reads result (read_block room s.now e kind kind at end) }
    ensures inside { IfSome result (λ next. next ≤ end) }
{
    let stop = of_kind(s, kind, at, end)?;
    let i = text(s, at + 6, stop)?;
    match kind {
        162 => {
            ask(described(s, i, stop)? == stop)?;
            Some(stop)
        }
        164 => {
            ask(text(s, i, stop)? == stop)?;
            Some(stop)
        }
        _ => None,
    }
}

// A count and parameters or arguments.
fn entries(s: &[u8], kind: usize, at: usize, end: usize) -> Option<usize>
    requires { (at ≤ end) × (end ≤ length s.now) }
    ensures read { (room start : ℕ) → 0 < room → Reads result (read_list (λ f a. read_block room s.now f kind kind a end) Earlier.any 512 s.now start end at) }
    ensures inside { IfSome result (λ next. next ≤ end) }
{
    let n = counted(s, 512, at, end)?;
    let mut i = at + 2;
    for _ in 0..n {
        i = entry(s, kind, i, end)?;
    }
    Some(i)
}

// A case of a switch: its number, its node and its parameters.
#[cycle(body_case_cases_leading_node_piece_pieces)]
fn case(s: &[u8], room: usize, at: usize, end: usize) -> Option<usize>
    requires { (at ≤ end) × (end ≤ length s.now) }
    ensures read { (e : Earlier) → Reads result (read_block room s.now e 163 163 at end) }
    ensures inside { IfSome result (λ next. next ≤ end) }
{
    let stop = of_kind(s, 163, at, end)?;
    ask(at + 14 <= stop)?;
    ask(2 <= room)?;
    let i = node(s, room - 1, at + 14, stop)?;
    ask(entries(s, 162, i, stop)? == stop)?;
    Some(stop)
}

// A count and cases.
#[cycle(body_case_cases_leading_node_piece_pieces)]
fn cases(s: &[u8], room: usize, at: usize, end: usize) -> Option<usize>
    requires { (at ≤ end) × (end ≤ length s.now) }
    ensures read { (start : ℕ) → Reads result (read_list (λ f a. read_block room s.now f 163 163 a end) Earlier.any 64 s.now start end at) }
    ensures inside { IfSome result (λ next. next ≤ end) }
{
    let n = counted(s, 64, at, end)?;
    let mut i = at + 2;
    for _ in 0..n {
        i = case(s, room, i, end)?;
    }
    Some(i)
}

// The part of a node that a digit of its row stands for.
#[cycle(body_case_cases_leading_node_piece_pieces)]
fn piece(s: &[u8], room: usize, digit: u64, at: usize, end: usize) -> Option<usize>
    requires { (at ≤ end) × (end ≤ length s.now) }
    ensures read { (e : Earlier) (start : ℕ) → Reads result (read_part (read_block room s.now) s.now e start end (part_of digit) at) }
    ensures inside { IfSome result (λ next. next ≤ end) }
{
    match digit {
        NUMBER => number(s, at, end),
        TEXT => text(s, at, end),
        OPT_TEXT => optional(s, at, end),
        NODE => node(s, room, at, end),
        CASES => cases(s, room, at, end),
        ARGUMENTS => {
            ask(0 < room)?;
            entries(s, 164, at, end)
        }
        OPT_NODE => {
            let next = flag(s, at, end)?;
            if s[at] == 0 {
                return Some(next);
            }
            node(s, room, next, end)
        }
        _ => None,
    }
}

// The offset behind a node's metadata, where the node ends at `stop`.
fn begun(s: &[u8], room: usize, at: usize, stop: usize) -> Option<usize>
    requires { (at ≤ stop) × (stop ≤ length s.now) }
    ensures begun { IfSome result (λ next. Begun s.now room at stop next) }
    ensures inside { IfSome result (λ next. next ≤ stop) }
{
    ask(at + 15 <= stop)?;
    let k = wire::read2(s, at + 4);
    ask(128 <= k)?;
    ask(k <= 144)?;
    ask(0 < room)?;
    optional(s, at + 14, stop)
}

// Whether a node at `at` would end at `stop`.
fn fills(s: &[u8], at: usize, stop: usize) -> bool
    requires { (at ≤ stop) × (stop ≤ length s.now) }
    ensures { result ≡ true → Sized s.now at stop stop }
{
    if stop < at + 15 {
        return false;
    }
    at + 4 + wire::read4(s, at) == stop
}

// The part of a digit before a node's last part: mostly it is a number or a node.
#[cycle(body_case_cases_leading_node_piece_pieces)]
fn leading(s: &[u8], room: usize, digit: u64, at: usize, end: usize) -> Option<usize>
    requires { (at ≤ end) × (end ≤ length s.now) }
    ensures read { (e : Earlier) (start : ℕ) → Reads result (read_part (read_block room s.now) s.now e start end (part_of digit) at) }
    ensures inside { IfSome result (λ next. next ≤ end) }
{
    match digit {
        NUMBER => number(s, at, end),
        NODE => node(s, room, at, end),
        _ => piece(s, room, digit, at, end),
    }
}

// The parts of a row, up to the end of their node.
#[cycle(body_case_cases_leading_node_piece_pieces)]
#[inline(always)]
fn pieces(s: &[u8], room: usize, row: u64, at: usize, stop: usize) -> Option<usize>
    requires { (at ≤ stop) × (stop ≤ length s.now) }
    ensures { IfSome result (λ next. (next ≡ stop) × Body room s.now row at stop) }
{
    let mut i = at;
    let mut digits = row;
    while digits != 0 {
        i = piece(s, room, digits % 32, i, stop)?;
        digits /= 32;
    }
    ask(i == stop)?;
    Some(stop)
}

// The same; the rows that are met most are not taken apart.
#[cycle(body_case_cases_leading_node_piece_pieces)]
fn body(s: &[u8], room: usize, row: u64, at: usize, stop: usize) -> Option<usize>
    requires { (at ≤ stop) × (stop ≤ length s.now) }
    ensures { IfSome result (λ next. (next ≡ stop) × Body room s.now row at stop) }
{
    match row {
        CONST_ROW => {
            ask(at + 8 == stop)?;
            Some(stop)
        }
        CALL_ROW => {
            let i = text(s, at, stop)?;
            ask(0 < room)?;
            ask(entries(s, 164, i, stop)? == stop)?;
            Some(stop)
        }
        FIELD_ROW => {
            let i = text(s, at, stop)?;
            ask(optional(s, i, stop)? == stop)?;
            Some(stop)
        }
        _ => pieces(s, room, row, at, stop),
    }
}

// A node: its metadata, and the parts behind it in its row. A node that is the last of two parts ends where this one does: the loop goes
// on with it, so that only what stands before it is a call deeper.
#[cycle(body_case_cases_leading_node_piece_pieces)]
fn node(s: &[u8], room: usize, at: usize, end: usize) -> Option<usize>
    requires { (at ≤ end) × (end ≤ length s.now) }
    ensures read { (e : Earlier) → Reads result (read_block room s.now e 128 144 at end) }
    ensures inside { IfSome result (λ next. next ≤ end) }
{
    let stop = sized(s, at, end)?;
    let mut i = begun(s, room, at, stop)?;
    let mut left = room - 1;
    let mut row = ir_nodes::node_row(wire::read2(s, at + 4)) / 1024;
    while row / 32 == NODE {
        let q = leading(s, left, row % 32, i, stop)?;
        ask(fills(s, q, stop))?;
        i = begun(s, left, q, stop)?;
        left -= 1;
        row = ir_nodes::node_row(wire::read2(s, q + 4)) / 1024;
    }
    body(s, left, row, i, stop)
}

// A type tree: its name, its alignment, its node and its parameters. Of the names before nothing is asked.
fn tree(s: &[u8], room: usize, at: usize, end: usize) -> Option<usize>
    requires { (at ≤ end) × (end ≤ length s.now) }
    ensures read { (e : Earlier) → in_order e (name_at s.now (at + 6)) ≡ true → Reads result (read_block room s.now e 161 161 at end) }
    ensures inside { IfSome result (λ next. next ≤ end) }
{
    let stop = of_kind(s, 161, at, end)?;
    ask(2 <= room)?;
    let i = number(s, text(s, at + 6, stop)?, stop)?;
    let j = node(s, room - 1, i, stop)?;
    ask(entries(s, 162, j, stop)? == stop)?;
    Some(stop)
}

// So many type trees behind their count at `at`. Whether their names are distinct is not asked.
fn each_tree(s: &[u8], room: usize, at: usize, count: usize, end: usize) -> Option<usize>
    requires { Counted s.now 256 at end count × (end ≤ length s.now) }
    ensures read { Fresh s.now (at + 2) count → (start : ℕ) → Reads result (read_list (λ f a. read_block room s.now f 161 161 a end) (Earlier.distinct []) 256 s.now start end at) }
    ensures inside { IfSome result (λ next. next ≤ end) }
{
    let mut i = at + 2;
    for _ in 0..count {
        i = tree(s, room, i, end)?;
    }
    Some(i)
}

// A count and type trees, their names distinct: that is asked last, as a layout may be refused in a tree.
fn trees(s: &[u8], room: usize, at: usize, end: usize) -> Option<usize>
    requires { (at ≤ end) × (end ≤ length s.now) }
    ensures read { (start : ℕ) → Reads result (read_list (λ f a. read_block room s.now f 161 161 a end) (Earlier.distinct []) 256 s.now start end at) }
    ensures inside { IfSome result (λ next. next ≤ end) }
{
    let n = counted(s, 256, at, end)?;
    let next = each_tree(s, room, at, n, end)?;
    ask(n <= reader_leaf::fresh(s, at, end))?;
    Some(next)
}

// A layout that ends where its input does: that is asked before a tree is read, since one with bytes behind it is refused.
fn layout(s: &[u8], room: usize, at: usize, end: usize) -> Option<usize>
    requires { (at ≤ end) × (end ≤ length s.now) }
    ensures { (e : Earlier) → Reads result (read_block room s.now e 160 160 at end) }
{
    let stop = of_kind(s, 160, at, end)?;
    ask(stop == end)?;
    ask(0 < room)?;
    ask(trees(s, room - 1, at + 6, stop)? == stop)?;
    Some(stop)
}

// A block of values.
fn values(s: &[u8], room: usize, at: usize, end: usize) -> Option<usize>
    requires { (at ≤ end) × (end ≤ length s.now) }
    ensures read { (e : Earlier) → Reads result (read_block room s.now e 192 192 at end) }
    ensures inside { IfSome result (λ next. next ≤ end) }
{
    let stop = of_kind(s, 192, at, end)?;
    ask(0 < room)?;
    ask(reader_leaf::entries(s, true, 512, at, at + 6, stop).ok()? == stop)?;
    Some(stop)
}

// A run: a type's name, a buffer length and values.
fn run(s: &[u8], room: usize, at: usize, end: usize) -> Option<usize>
    requires { (at ≤ end) × (end ≤ length s.now) }
    ensures { (e : Earlier) → Reads result (read_block room s.now e 193 193 at end) }
{
    let stop = of_kind(s, 193, at, end)?;
    ask(2 <= room)?;
    let i = number(s, text(s, at + 6, stop)?, stop)?;
    ask(values(s, room - 1, i, stop)? == stop)?;
    Some(stop)
}

// The end of the outermost block, if it is a layout, values or a run, as its kind says.
fn quickly(s: &[u8], room: usize, kind: usize) -> Option<usize>
    ensures { Reads result (read_block room s.now Earlier.any kind kind 0 (length s.now)) }
{
    let n = s.len();
    match kind {
        160 => layout(s, room, 0, n),
        192 => values(s, room, 0, n),
        193 => run(s, room, 0, n),
        _ => None,
    }
}

// An input: an outermost block of one kind, and nothing behind it. It is first tried quickly.
pub fn read_input(s: &[u8], room: usize, kind: usize) -> Result<usize, Unread>
    ensures { read_of result ≡ input_of (length s.now) (read_input room kind s.now) }
{
    if quickly(s, room, kind) == Some(s.len()) {
        return Ok(s.len());
    }
    reader::read_input(s, room, kind)
}
