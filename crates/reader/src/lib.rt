// Blocks: the reader of a whole input. It goes into blocks by recursion, and along lists and parts by loops.
#![tactic(auto)]

ghost use Rattle.std.specs.Prelude.{◌≡◌, ◌+◌, ◌≤◌, length, IfOk};
ghost use Rattle.blocks.specs.declared.Part.TheVariants.{Key};
ghost use Rattle.blocks.specs.Grammar.{parts_of};
ghost use Rattle.blocks.specs.Read.{read_list, read_part, read_parts, read_block, read_input};
ghost use Rattle.ir_nodes.specs.Codes.{part_of};
ghost use Rattle.reader_leaf.specs.Answer.{read_of, forget};
ghost use Rattle.reader_leaf.specs.Seen.{Valid, Here, earlier_of};
ghost use Rattle.reader.specs.Before.{Before};
ghost use Rattle.reader.specs.Input.{input_of};

use blocks::Part;
use errors::{Reason, Unread};
use reader_leaf::{Seen, ask};

// A count and blocks of a kind from lo to hi.
#[tactic(auto, using(crate::proofs::Lists::lists))]
#[cycle(block_list_parts_piece)]
fn list(
    s: &[u8],
    room: usize,
    seen: Seen,
    lo: u64,
    hi: u64,
    limit: u64,
    start: usize,
    at: usize,
    end: usize,
) -> Result<usize, Unread>
    requires { (at ≤ end) × (end ≤ length s.now) × (Before s.now seen lo hi (at + 2)) }
    ensures read { read_of result ≡ forget (read_list (λ f a. read_block room s.now f lo hi a end) (earlier_of s.now seen) limit s.now start end at) }
    ensures inside { IfOk result (λ next. next ≤ end) }
{
    let n = reader_leaf::counted(s, limit as usize, start, at, end)?;
    let mut i = at + 2;
    let mut before = seen;
    for _ in 0..n {
        let next = block(s, room, before, lo, hi, i, end)?;
        before = reader_leaf::grown(s, before, i);
        i = next;
    }
    Ok(i)
}

// The part of a block that a digit of its row stands for.
#[tactic(auto, using(reader_leaf::proofs::Laws::optionals), unfolding(blocks::specs::Read::read_part, reader_leaf::specs::Seen::earlier_of, reader_leaf::specs::Seen::names_before))]
#[cycle(block_list_parts_piece)]
fn piece(
    s: &[u8],
    room: usize,
    seen: Seen,
    digit: u64,
    start: usize,
    at: usize,
    end: usize,
) -> Result<usize, Unread>
    requires { (at ≤ end) × (end ≤ length s.now) × (Valid s.now seen) × (part_of digit ≡ Key → Here s.now seen at) }
    ensures read { read_of result ≡ forget (read_part (read_block room s.now) s.now (earlier_of s.now seen) start end (part_of digit) at) }
    ensures inside { IfOk result (λ next. next ≤ end) }
{
    let p = reader_grammar::part_of(digit);
    match p {
        Part::Block(lo, hi) => block(s, room, Seen::Nothing, lo, hi, at, end),
        Part::OptBlock(lo, hi) => {
            let next = reader_leaf::flag(s, start, at, end)?;
            if s[at] == 1 {
                block(s, room, Seen::Nothing, lo, hi, next, end)
            } else {
                Ok(next)
            }
        }
        Part::Blocks(lo, hi, limit) => list(s, room, Seen::Nothing, lo, hi, limit, start, at, end),
        Part::Ascending(lo, hi, limit) => {
            let none = Seen::Owners {
                first: at + 2,
                count: 0,
                last: 0,
                paths: 0,
            };
            list(s, room, none, lo, hi, limit, start, at, end)
        }
        Part::Distinct(lo, hi, limit) => {
            let first = at + 2;
            let none = Seen::Types {
                first,
                count: 0,
                fresh: reader_leaf::fresh(s, at, end),
            };
            list(s, room, none, lo, hi, limit, start, at, end)
        }
        // the others hold no block
        _ => reader_leaf::plain(s, seen, p, start, at, end),
    }
}

// All parts of a block of this kind.
#[tactic(auto, using(crate::proofs::Blocks::rows))]
#[cycle(block_list_parts_piece)]
fn parts(
    s: &[u8],
    room: usize,
    seen: Seen,
    kind: usize,
    start: usize,
    at: usize,
    end: usize,
) -> Result<usize, Unread>
    requires { (at ≤ end) × (end ≤ length s.now) × (Valid s.now seen) × (Here s.now seen at) }
    ensures read { read_of result ≡ forget (read_parts (read_block room s.now) s.now (earlier_of s.now seen) start end (parts_of kind) at) }
    ensures inside { IfOk result (λ next. next ≤ end) }
{
    let mut here = at;
    let mut row = reader_grammar::row(kind);
    while row != 0 {
        here = piece(s, room, seen, row % 32, start, here, end)?;
        row /= 32;
    }
    Ok(here)
}

// A block of a kind from lo to hi, with room for so many open blocks.
#[tactic(auto, using(crate::proofs::Blocks::steps), unfolding(errors::proofs::Compute::compute))]
#[cycle(block_list_parts_piece)]
fn block(
    s: &[u8],
    room: usize,
    seen: Seen,
    lo: u64,
    hi: u64,
    at: usize,
    end: usize,
) -> Result<usize, Unread>
    requires { (at ≤ end) × (end ≤ length s.now) × (Valid s.now seen) × (Here s.now seen (at + 6)) }
    ensures read { read_of result ≡ forget (read_block room s.now (earlier_of s.now seen) lo hi at end) }
    ensures inside { IfOk result (λ next. next ≤ end) }
{
    let head = reader_leaf::heading(s, lo as usize, hi as usize, at, end)?;
    ask(0 < room, Reason::TooMany, at)?;
    let next = parts(s, room - 1, seen, head.kind, at, at + 6, head.end)?;
    ask(next == head.end, Reason::Malformed, at)?;
    Ok(head.end)
}

// An input: an outermost block of one kind, and nothing behind it.
#[tactic(auto, using(crate::proofs::Input::steps), unfolding(errors::proofs::Compute::compute, reader_leaf::specs::Seen::earlier_of))]
pub fn read_input(s: &[u8], room: usize, kind: usize) -> Result<usize, Unread>
    ensures { read_of result ≡ input_of (length s.now) (read_input room kind s.now) }
{
    let n = s.len();
    let next = block(s, room, Seen::Nothing, kind as u64, kind as u64, 0, n)?;
    ask(next == n, Reason::Malformed, 0)?;
    Ok(n)
}
