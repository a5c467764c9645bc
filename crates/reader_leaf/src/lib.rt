// The parts of a block that hold no block, and a block's first six bytes.
#![tactic(auto)]

ghost use Rattle.std.specs.Prelude.{◌≡◌, true, false, not, ◌||◌, [], ◌+◌, ◌-◌, ◌≤◌, ◌<◌, ltb, leb, length, IfSome, IfOk, OnOk};
ghost use Rattle.errors.specs.Refusal.{unread, ask};
ghost use Rattle.errors.specs.Meaning.{number_of};
ghost use Rattle.blocks.specs.declared.Part.TheVariants.{Key};
ghost use Rattle.blocks.specs.Bytes.{le2, le4};
ghost use Rattle.blocks.specs.Name.{among};
ghost use Rattle.blocks.specs.Read.{Earlier, in_order, in_type, read_text, read_key, read_number, read_flag, read_optional, read_literal, read_count, read_list, read_header, Reader, read_part};
ghost use Rattle.reader_leaf.specs.Answer.{read_of, forget, head_of, count_of, announced, read_entry, TextIn};
ghost use Rattle.marks.specs.Table.{Linked};
ghost use Rattle.reader_leaf.specs.Mark.{mark_in};
ghost use Rattle.reader_leaf.specs.Seen.{name_at, NameIn, LastIn, last_name, behind, names_before, Fresh, Stand, Valid, Here, earlier_of, seen_paths, Plain, grown_of, Grows};

use blocks::Part;
use errors::{Reason, Unread};

// A block's kind and end.
#[derive(Clone, Copy)]
pub struct Head {
    pub kind: usize,
    pub end: usize,
}

// What question 6 asks of a block's name, and the blocks of its list before it.
#[derive(Clone, Copy)]
pub enum Seen {
    // nothing is asked
    Nothing,
    // the names ascend: the first block's offset, how many blocks, the offset of the last name (0 if there is none), how
    // many paths
    Owners {
        first: usize,
        count: usize,
        last: usize,
        paths: usize,
    },
    // the names are distinct: the first block's offset, how many blocks, and how many from the first on, read or not, are known to
    // have names of their own
    Types {
        first: usize,
        count: usize,
        fresh: usize,
    },
}

// A question, and the refusal of the block at an offset if its answer is "no".
#[tactic(auto, unfolding(crate::proofs::Compute::compute))]
pub fn ask(yes: bool, reason: Reason, offset: usize) -> Result<(), Unread>
    ensures { read_of result ≡ ask yes (unread (number_of reason) offset) }
{
    if yes {
        Ok(())
    } else {
        Err(Unread { reason, offset })
    }
}

// A name or a text.
#[tactic(auto, unfolding(crate::proofs::Compute::compute))]
fn text(s: &[u8], start: usize, at: usize, end: usize) -> Result<usize, Unread>
    requires { (at ≤ end) × (end ≤ length s.now) }
    ensures read { read_of result ≡ forget (read_text s.now start end at) }
    ensures inside { TextIn result s.now at end }
{
    ask(at + 2 <= end, Reason::Malformed, start)?;
    let from = at + 2;
    let to = from + wire::read2(s, at);
    ask(to <= end, Reason::Malformed, start)?;
    ask(texts::is_text(&s[from..to]), Reason::NotText, start)?;
    Ok(to)
}

#[tactic(auto, unfolding(crate::proofs::Compute::compute))]
fn number(s: &[u8], start: usize, at: usize, end: usize) -> Result<usize, Unread>
    requires { (at ≤ end) × (end ≤ length s.now) }
    ensures read { read_of result ≡ forget (read_number s.now start end at) }
    ensures inside { IfOk result (λ next. (next ≡ at + 8) × (next ≤ end)) }
{
    ask(at + 8 <= end, Reason::Malformed, start)?;
    Ok(at + 8)
}

#[tactic(auto, unfolding(crate::proofs::Compute::compute))]
pub fn flag(s: &[u8], start: usize, at: usize, end: usize) -> Result<usize, Unread>
    requires { (at ≤ end) × (end ≤ length s.now) }
    ensures read { read_of result ≡ forget (read_flag s.now start end at) }
    ensures inside { IfOk result (λ next. (next ≡ at + 1) × (next ≤ end)) }
{
    ask(at + 1 <= end, Reason::Malformed, start)?;
    ask(s[at] <= 1, Reason::OutOfRange, start)?;
    Ok(at + 1)
}

// A flag, and behind it a number or a text if the flag is `on`.
#[tactic(auto, using(crate::proofs::Laws::optionals))]
fn optional(
    s: &[u8],
    on: u8,
    numeric: bool,
    start: usize,
    at: usize,
    end: usize,
) -> Result<usize, Unread>
    requires { (at ≤ end) × (end ≤ length s.now) }
    ensures read { read_of result ≡ forget (read_optional (announced numeric s.now start end) on s.now start end at) }
    ensures inside { IfOk result (λ next. next ≤ end) }
{
    let next = flag(s, start, at, end)?;
    if s[at] != on {
        return Ok(next);
    }
    if numeric {
        number(s, start, next, end)
    } else {
        text(s, start, next, end)
    }
}

// Below the one, or not below the other.
fn outside(v: usize, low: usize, high: usize) -> bool
    ensures { result ≡ (ltb v low || leb high v) }
{
    v < low || high <= v
}

// Whether a literal's number is one of its type's.
#[tactic(auto, unfolding(crate::proofs::Compute::compute))]
fn in_type(code: u8, v: usize) -> bool
    ensures { result ≡ in_type code v }
{
    match code {
        0 => true,
        1 => v < 0x1_0000_0000,
        2 => v < 0x1_0000,
        3 => v < 0x100,
        4 => outside(v, 0x8000_0000_0000_0000, 0x8000_0000_0000_0000),
        5 => outside(v, 0x8000_0000, 0xFFFF_FFFF_8000_0000),
        6 => outside(v, 0x8000, 0xFFFF_FFFF_FFFF_8000),
        7 => outside(v, 0x80, 0xFFFF_FFFF_FFFF_FF80),
        _ => false,
    }
}

// A code and a number.
#[tactic(auto, unfolding(crate::proofs::Compute::compute))]
fn literal(s: &[u8], start: usize, at: usize, end: usize) -> Result<usize, Unread>
    requires { (at ≤ end) × (end ≤ length s.now) }
    ensures read { read_of result ≡ forget (read_literal s.now start end at) }
    ensures inside { IfOk result (λ next. next ≤ end) }
{
    ask(at + 1 <= end, Reason::Malformed, start)?;
    let code = s[at];
    ask(code <= 7, Reason::OutOfRange, start)?;
    let next = number(s, start, at + 1, end)?;
    let v = wire::read8(s, at + 1);
    ask(in_type(code, v), Reason::OutOfRange, start)?;
    Ok(next)
}

#[tactic(auto, unfolding(crate::proofs::Compute::compute))]
pub fn counted(s: &[u8], limit: usize, start: usize, at: usize, end: usize) -> Result<usize, Unread>
    requires { (at ≤ end) × (end ≤ length s.now) }
    ensures read { read_of result ≡ count_of (read_count limit s.now start end at) }
    ensures inside { OnOk result (at + 2 ≤ end) }
{
    ask(at + 2 <= end, Reason::Malformed, start)?;
    let n = wire::read2(s, at);
    ask(n <= limit, Reason::TooMany, start)?;
    Ok(n)
}

#[tactic(auto, unfolding(crate::proofs::Compute::compute))]
pub fn heading(s: &[u8], lo: usize, hi: usize, at: usize, end: usize) -> Result<Head, Unread>
    requires { (at ≤ end) × (end ≤ length s.now) }
    ensures read { read_of result ≡ head_of (read_header s.now lo hi at end) }
    ensures inside { IfOk result (λ head. (at + 6 ≤ head.end) × (head.end ≤ end)) }
{
    ask(at + 6 <= end, Reason::Malformed, at)?;
    let n = wire::read4(s, at);
    ask(2 <= n, Reason::Malformed, at)?;
    let stop = at + 4 + n;
    ask(stop <= end, Reason::Malformed, at)?;
    let kind = wire::read2(s, at + 4);
    ask(lo <= kind && kind <= hi, Reason::Malformed, at)?;
    Ok(Head { kind, end: stop })
}

// Whether the name at `at` ascends from the one at `last`, if there is one.
#[tactic(auto, using(crate::proofs::Laws::first_ascends, crate::proofs::Laws::next_ascends))]
fn ascends(s: &[u8], last: usize, at: usize) -> bool
    requires { (LastIn s.now last) × (NameIn s.now at) }
    ensures { result ≡ in_order (Earlier.ascending (last_name s.now last) 0) (name_at s.now at) }
{
    if last == 0 {
        return true;
    }
    wire::less_name(wire::name_at(s, last), wire::name_at(s, at))
}

// Whether the name at `at` is not among those with which these blocks begin.
fn differs(s: &[u8], first: usize, count: usize, at: usize) -> bool
    requires { (Stand s.now first count) × (NameIn s.now at) }
    ensures { result ≡ not (among (name_at s.now at) (names_before s.now first count)) }
{
    wire::block_named(s, first, count, wire::name_at(s, at)).is_none()
}

// Where the block at `at` ends, if block and name lie before `end`.
fn behind_block(s: &[u8], at: usize, end: usize) -> Option<usize>
    requires { (at ≤ end) × (end ≤ length s.now) }
    ensures { IfSome result (λ stop. (stop ≡ at + 4 + le4 s.now at) × (stop ≤ end) × NameIn s.now (at + 6)) }
{
    if end < at + 8 || end < at + 8 + wire::read2(s, at + 6) {
        return None;
    }
    let stop = at + 4 + wire::read4(s, at);
    if end < stop {
        return None;
    }
    Some(stop)
}

// How many of the n blocks from `first` on begin with a name that none before has, as far as they lie before `end`: each is compared
// with all before it.
fn fresh_compared(s: &[u8], first: usize, n: usize, end: usize) -> usize
    requires { (first ≤ end) × (end ≤ length s.now) }
    ensures { Fresh s.now first result }
{
    let mut at = first;
    for count in 0..n {
        let Some(next) = behind_block(s, at, end) else {
            return count;
        };
        if !differs(s, first, count, at + 6) {
            return count;
        }
        at = next;
    }
    n
}

// Whether none of these blocks, all of whose marks are in the table, begins with the name at `at`. Its mark is entered behind them. Where one
// of them may have its mark, it is compared only if all bytes are in the marks.
fn is_new(s: &[u8], table: &mut [u64], apart: usize, first: usize, count: usize, at: usize) -> bool
    requires { (Stand s.now first count) × (NameIn s.now at) × (count < 256) × (0 < apart) × (apart ≤ 32) × (Linked table.old (mark_in s.now apart first) count) × (127 + count < length table.old) }
    ensures count_value { result ≡ true → among (name_at s.now at) (names_before s.now first count) ≡ false }
    ensures linked { at ≡ behind s.now first count + 6 → Linked table.new (mark_in s.now apart first) (count + 1) }
{
    let m = name_marks::mark(wire::name_at(s, at), apart);
    let found = marks::last(table, m);
    marks::link(table, count, m);
    if found == 0 {
        return true;
    }
    if 8 < apart {
        return false;
    }
    differs(s, first, count, at)
}

// The same as `fresh_compared` for many, by marks with steps so far apart, in a table that has none before; it may stop earlier where not all
// bytes are in the marks.
fn fresh_linked(
    s: &[u8],
    table: &mut [u64],
    apart: usize,
    first: usize,
    n: usize,
    end: usize,
) -> usize
    requires { (first ≤ end) × (end ≤ length s.now) × (n ≤ 256) × (0 < apart) × (apart ≤ 32) × (Linked table.old (mark_in s.now apart first) 0) × (127 + n ≤ length table.old) }
    ensures { Fresh s.now first result }
{
    let mut at = first;
    for count in 0..n {
        let Some(next) = behind_block(s, at, end) else {
            return count;
        };
        if !is_new(s, table, apart, first, count, at + 6) {
            return count;
        }
        at = next;
    }
    n
}

// How many words the table of marks has for up to 32 blocks, and for up to 256.
const SMALL: usize = 159;

const LARGE: usize = 383;

// The same with a table of its own, of so many words.
#[tactic(auto, using(crate::proofs::Distinct::none_linked))]
fn fresh_marked<const WORDS: usize>(
    s: &[u8],
    apart: usize,
    first: usize,
    n: usize,
    end: usize,
) -> usize
    requires { (first ≤ end) × (end ≤ length s.now) × (n ≤ 256) × (0 < apart) × (apart ≤ 32) × (127 + n ≤ WORDS) × (WORDS < 1024) }
    ensures { Fresh s.now first result }
{
    let mut table = [0u64; WORDS];
    fresh_linked(s, &mut table, apart, first, n, end)
}

// Of the blocks behind their count at `at`, how many begin with a name that none before has. Nothing is said of more than 256, nor
// behind the first block that does not lie before `end`. To compare a few names takes less time than to clear a table of marks, and a small
// table takes less time than a large one. Of more than 32, some of the bytes mostly tell that the names are distinct; where they do not,
// all bytes are taken.
#[tactic(auto, using(crate::proofs::Distinct::fresh_few))]
pub fn fresh(s: &[u8], at: usize, end: usize) -> usize
    requires { (at ≤ end) × (end ≤ length s.now) }
    ensures { Fresh s.now (at + 2) result }
{
    if end < at + 2 {
        return 0;
    }
    let n = wire::read2(s, at);
    if n < 2 {
        return n;
    }
    let first = at + 2;
    if n < 6 {
        return fresh_compared(s, first, n, end);
    }
    if n <= 32 {
        return fresh_marked::<SMALL>(s, 8, first, n, end);
    }
    if 256 < n {
        return 0;
    }
    let known = fresh_marked::<LARGE>(s, 32, first, n, end);
    if n <= known {
        return known;
    }
    fresh_marked::<LARGE>(s, 8, first, n, end)
}

// A name that ascends from the one at `last`, if there is one.
#[tactic(auto, using(crate::proofs::Laws::keys))]
fn later_key(s: &[u8], last: usize, start: usize, at: usize, end: usize) -> Result<usize, Unread>
    requires { (at ≤ end) × (end ≤ length s.now) × (LastIn s.now last) }
    ensures read { read_of result ≡ forget (read_key s.now start end (Earlier.ascending (last_name s.now last) 0) at) }
    ensures inside { TextIn result s.now at end }
{
    let next = text(s, start, at, end)?;
    ask(ascends(s, last, at), Reason::Unordered, start)?;
    Ok(next)
}

// A name with which none of these blocks begins.
#[tactic(auto, using(crate::proofs::Laws::keys), unfolding(blocks::specs::Read::in_order))]
fn other_key(
    s: &[u8],
    first: usize,
    count: usize,
    start: usize,
    at: usize,
    end: usize,
) -> Result<usize, Unread>
    requires { (at ≤ end) × (end ≤ length s.now) × (Stand s.now first count) }
    ensures read { read_of result ≡ forget (read_key s.now start end (Earlier.distinct (names_before s.now first count)) at) }
    ensures inside { TextIn result s.now at end }
{
    let next = text(s, start, at, end)?;
    ask(differs(s, first, count, at), Reason::Unordered, start)?;
    Ok(next)
}

// A block's name, then question 6. Of a block that is known to have a name of its own nothing is asked.
#[tactic(auto, using(crate::proofs::Distinct::seen_keys), unfolding(crate::proofs::Compute::seen))]
fn key(s: &[u8], seen: Seen, start: usize, at: usize, end: usize) -> Result<usize, Unread>
    requires { (at ≤ end) × (end ≤ length s.now) × (Valid s.now seen) × (Here s.now seen at) }
    ensures read { read_of result ≡ forget (read_key s.now start end (earlier_of s.now seen) at) }
    ensures inside { TextIn result s.now at end }
{
    match seen {
        Seen::Nothing => text(s, start, at, end),
        Seen::Owners { last, .. } => later_key(s, last, start, at, end),
        Seen::Types {
            first,
            count,
            fresh,
        } => {
            if count < fresh {
                return text(s, start, at, end);
            }
            other_key(s, first, count, start, at, end)
        }
    }
}

// A count and names, of which nothing is asked.
#[tactic(auto, using(crate::proofs::Lists::listed))]
fn names(s: &[u8], limit: usize, start: usize, at: usize, end: usize) -> Result<usize, Unread>
    requires { (at ≤ end) × (end ≤ length s.now) }
    ensures read { read_of result ≡ forget (read_list (read_key s.now start end) Earlier.any limit s.now start end at) }
    ensures inside { IfOk result (λ next. next ≤ end) }
{
    let n = counted(s, limit, start, at, end)?;
    let mut i = at + 2;
    for _ in 0..n {
        i = text(s, start, i, end)?;
    }
    Ok(i)
}

// A name that ascends from the one at `last`, if there is one, and behind it a number if `pairs` is set.
#[tactic(auto, using(crate::proofs::Lists::entry_stop, crate::proofs::Lists::value_then), unfolding(crate::specs::Answer::read_entry))]
fn next_entry(
    s: &[u8],
    pairs: bool,
    last: usize,
    start: usize,
    at: usize,
    end: usize,
) -> Result<usize, Unread>
    requires { (at ≤ end) × (end ≤ length s.now) × (LastIn s.now last) }
    ensures read { read_of result ≡ forget (read_entry pairs s.now start end (Earlier.ascending (last_name s.now last) 0) at) }
    ensures inside { IfOk result (λ next. (at + 2 + le2 s.now at ≤ next) × (next ≤ end)) }
{
    let next = later_key(s, last, start, at, end)?;
    if pairs {
        // made anew, as in `plain`
        Ok(number(s, start, next, end)?)
    } else {
        Ok(next)
    }
}

// A count and names that ascend, each with a number behind it if `pairs` is set.
#[tactic(auto, using(crate::proofs::Lists::list_bad))]
pub fn entries(
    s: &[u8],
    pairs: bool,
    limit: usize,
    start: usize,
    at: usize,
    end: usize,
) -> Result<usize, Unread>
    requires { (at ≤ end) × (end ≤ length s.now) }
    ensures read { read_of result ≡ forget (read_list (read_entry pairs s.now start end) (Earlier.ascending [] 0) limit s.now start end at) }
    ensures inside { IfOk result (λ next. next ≤ end) }
{
    let n = counted(s, limit, start, at, end)?;
    let mut i = at + 2;
    let mut last = 0;
    for _ in 0..n {
        let next = next_entry(s, pairs, last, start, i, end)?;
        last = i;
        i = next;
    }
    Ok(i)
}

// How many more paths a references block may have.
#[tactic(auto, unfolding(crate::specs::Seen::seen_paths))]
fn remaining(limit: usize, seen: Seen) -> usize
    ensures { result ≡ limit - seen_paths seen }
{
    match seen {
        Seen::Owners { paths, .. } => limit.saturating_sub(paths),
        Seen::Nothing | Seen::Types { .. } => limit,
    }
}

// A part that holds no block.
#[tactic(auto, using(crate::proofs::Laws::paths_before_lem, crate::proofs::Laws::last_plain), unfolding(crate::proofs::Compute::plain))]
pub fn plain(
    s: &[u8],
    seen: Seen,
    p: Part,
    start: usize,
    at: usize,
    end: usize,
) -> Result<usize, Unread>
    requires { (at ≤ end) × (end ≤ length s.now) × (Valid s.now seen) × (Plain p) × (p ≡ Key → Here s.now seen at) }
    ensures read { (rb : Reader) → read_of result ≡ forget (read_part rb s.now (earlier_of s.now seen) start end p at) }
    ensures inside { IfOk result (λ next. next ≤ end) }
{
    // each result is taken apart and made anew: where they were passed on as they are, a set was read more slowly by a quarter
    match p {
        Part::Text => Ok(text(s, start, at, end)?),
        Part::Key => Ok(key(s, seen, start, at, end)?),
        Part::Flag => Ok(flag(s, start, at, end)?),
        Part::Size => Ok(optional(s, 0, true, start, at, end)?),
        Part::OptNumber => Ok(optional(s, 1, true, start, at, end)?),
        Part::OptText => Ok(optional(s, 1, false, start, at, end)?),
        Part::Literal => Ok(literal(s, start, at, end)?),
        Part::Names(limit) => Ok(names(s, limit as usize, start, at, end)?),
        Part::Paths(limit) => Ok(entries(
            s,
            false,
            remaining(limit as usize, seen),
            start,
            at,
            end,
        )?),
        Part::Values(limit) => Ok(entries(s, true, limit as usize, start, at, end)?),
        // what is left is a number
        _ => Ok(number(s, start, at, end)?),
    }
}

// What stands before the next block of a list, once the block at `at` is read.
#[tactic(auto, unfolding(crate::specs::Seen::grown_of, crate::specs::Seen::Grows))]
pub fn grown(s: &[u8], seen: Seen, at: usize) -> Seen
    requires { Grows s.now seen at }
    ensures { result ≡ grown_of s.now seen at }
{
    match seen {
        Seen::Nothing => Seen::Nothing,
        Seen::Owners {
            first,
            count,
            paths,
            ..
        } => {
            let name = at + 6;
            let m = wire::read2(s, wire::behind_name(s, name));
            Seen::Owners {
                first,
                count: count + 1,
                last: name,
                paths: paths + m,
            }
        }
        Seen::Types {
            first,
            count,
            fresh,
        } => Seen::Types {
            first,
            count: count + 1,
            fresh,
        },
    }
}
