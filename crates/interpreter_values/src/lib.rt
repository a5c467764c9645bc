// The values of a record by name. Where there are words for an index, and some names were asked for, each search that does not find a name in the
// index puts more entries into it. Who lends the words says by their number whether it is likely to pay.
#![tactic(auto)]

ghost use Rattle.std.specs.Prelude.{◌≡◌, true, List, ℕ, ◌+◌, ◌≤◌, ◌<◌, length, get_or, drop, MatchOption};
ghost use Rattle.blocks.specs.Bytes.{le2};
ghost use Rattle.marks.specs.Table.{Linked};
ghost use Rattle.interpreter.specs.Validate.{values_of};
ghost use Rattle.accepted.specs.Accepted.{Accepted, tree};
ghost use Rattle.lookup.specs.Found.{ValueFound, first_value};
ghost use Rattle.interpreter_values.specs.Entries.{entry_at, entry_mark, Offsets, First, Spans, Leaves};
ghost use Rattle.interpreter_values.specs.Remembered.{Indexed, Remembered, Kept};

// How many working words evaluating uses where it may remember values.
pub const WORDS: usize = 1168;

// The word that counts: the names asked for, up to FREE, and from then on the entries of the index besides.
const KNOWN: usize = 16;

// So many names are sought one by one before the index begins.
const FREE: u64 = 4;

// Where the index begins, with a table of the marks of the names.
const TABLE: usize = 17;

// Where the offsets of the entries begin, behind the table.
const OFFSETS: usize = 656;

// How many entries a search puts into the index.
const STEP: usize = 16;

// A block's bytes and its offset are no struct: that it was accepted has more than one proof, and an invariant may have only one.

// Entries of a block: from which place on, up to which, and the offset of the first of them.
#[derive(Clone, Copy)]
struct Span {
    from: usize,
    to: usize,
    at: usize,
}

// A value's offset, or the entries among which it is yet to be sought: the offset of the first, and how many.
#[derive(Clone, Copy)]
enum Sought {
    At(usize),
    Among(usize, usize),
}

// Nothing is remembered of any values.
pub fn forget(words: &mut [u64])
    requires { 16 ≤ length words.old }
    ensures { (s : List ℕ) (block : ℕ) → Remembered s block words.new }
{
    if KNOWN < words.len() {
        words[KNOWN] = 0;
    }
}

// The offset behind an entry: a name and a number.
fn behind_entry(values: &[u8], at: usize) -> usize
    requires { at + 2 + le2 values.now at + 8 ≤ length values.now }
    ensures { result ≡ at + 2 + le2 values.now at + 8 }
{
    wire::behind_name(values, at) + 8
}

// The offsets of these entries, each in its word.
fn note_offsets(values: &[u8], block: usize, span: Span, offsets: &mut [u64])
    requires { Accepted values.now 192 192 block × Spans values.now block span × (512 ≤ length offsets.old) }
    ensures { Offsets values.now (block + 6 + 2) span.from offsets.old → Offsets values.now (block + 6 + 2) span.to offsets.new }
{
    let mut at = span.at;
    for i in span.from..span.to {
        offsets[i] = at as u64;
        at = behind_entry(values, at);
    }
}

// The marks of their names, each in its slot of the table.
fn link_names(values: &[u8], block: usize, span: Span, table: &mut [u64])
    requires { Accepted values.now 192 192 block × Spans values.now block span × (639 ≤ length table.old) }
    ensures { Linked table.old (entry_mark values.now (block + 6 + 2)) span.from → Linked table.new (entry_mark values.now (block + 6 + 2)) span.to }
{
    let mut at = span.at;
    for i in span.from..span.to {
        marks::link(table, i, name_marks::sum_mark(wire::name_at(values, at)));
        at = behind_entry(values, at);
    }
}

// How many entries are in the index, which is made ready for the first.
fn begin(words: &mut [u64]) -> usize
    requires { (1168 ≤ length words.old) × (4 ≤ get_or words.old 16 0) }
    ensures by_index { (s : List ℕ) (block : ℕ) → Remembered s block words.old → Indexed s block result (drop 17 words.new) }
    ensures by_index_2 { (s : List ℕ) (block : ℕ) → Remembered s block words.old → Kept s block 16 words.old words.new }
{
    let m = (words[KNOWN] - FREE) as usize;
    if m == 0 {
        marks::clear(&mut words[TABLE..OFFSETS]);
    }
    m
}

// The offset of the entry at a place, where those before it are in the index.
fn entry_offset(values: &[u8], block: usize, words: &[u64], m: usize) -> usize
    requires { Accepted values.now 192 192 block × Indexed values.now block m (drop 17 words.now) }
    ensures { result ≡ entry_at values.now (block + 6 + 2) m }
{
    if m == 0 {
        return block + 6 + 2;
    }
    let word = OFFSETS + (m - 1);
    behind_entry(values, words[word] as usize)
}

// Puts the next entries into the index. The offset of the first of them.
fn extend(values: &[u8], block: usize, words: &mut [u64], m: usize) -> usize
    requires { Accepted values.now 192 192 block × Indexed values.now block m (drop 17 words.old) × (1168 ≤ length words.old) }
    ensures value { result ≡ entry_at values.now (block + 6 + 2) m }
    ensures kept { Kept values.now block 16 words.old words.new }
{
    let at = entry_offset(values, block, words, m);
    let left = wire::read2(values, block + 6) - m;
    let to = m + left.min(STEP);
    let span = Span { from: m, to, at };
    words[KNOWN] = to as u64 + FREE;
    note_offsets(values, block, span, &mut words[OFFSETS..WORDS]);
    link_names(values, block, span, &mut words[TABLE..OFFSETS]);
    at
}

// The place of the entry of a name among the m of the index. Those are asked that may have the name by their mark; the names of a block are
// distinct, so the one that has it is the first.
fn place(values: &[u8], block: usize, words: &[u64], m: usize, name: &[u8]) -> Option<usize>
    requires { Accepted values.now 192 192 block × Indexed values.now block m (drop 17 words.now) }
    ensures { MatchOption result (First values.now name.now (block + 6 + 2) m m) (λ k. (k < m) × First values.now name.now (block + 6 + 2) m k) }
{
    let mark = name_marks::sum_mark(name);
    let table = &words[TABLE..OFFSETS];
    let mut j = marks::last(table, mark);
    while 0 < j {
        let k = j - 1;
        let word = OFFSETS + k;
        if lookup::is_named(values, words[word] as usize, name) {
            return Some(k);
        }
        j = marks::before(table, mark, j);
    }
    None
}

// What the index says of a name's first value, behind which more entries are in it: where it is, or among which entries it is yet to be sought.
fn indexed(values: &[u8], block: usize, words: &mut [u64], name: &[u8]) -> Sought
    requires { Accepted values.now 192 192 block × Remembered values.now block words.old × (1168 ≤ length words.old) × (4 ≤ get_or words.old 16 0) }
    ensures leaves { Leaves values.now block name.now result }
    ensures kept { Kept values.now block 16 words.old words.new }
{
    let m = begin(words);
    if let Some(found) = place(values, block, words, m, name) {
        let word = OFFSETS + found;
        return Sought::At(wire::behind_name(values, words[word] as usize));
    }
    let at = extend(values, block, words, m);
    let n = wire::read2(values, block + 6);
    Sought::Among(at, n - m)
}

// Whether names are sought in the index: where there is room for it, and the first names were asked for, which are counted.
fn by_index(words: &mut [u64]) -> bool
    ensures in_bounds { result ≡ true → (1168 ≤ length words.new) × (4 ≤ get_or words.new 16 0) }
    ensures by_index { (s : List ℕ) (block : ℕ) → Remembered s block words.old → Kept s block 16 words.old words.new }
{
    if words.len() < WORDS {
        return false;
    }
    let asked = words[KNOWN];
    if FREE <= asked {
        return true;
    }
    words[KNOWN] = asked + 1;
    false
}

// The same as `indexed`, where the index may not be used: then all entries are left.
fn left_of(values: &[u8], block: usize, words: &mut [u64], name: &[u8]) -> Sought
    requires { Accepted values.now 192 192 block × Remembered values.now block words.old }
    ensures leaves { Leaves values.now block name.now result }
    ensures kept { Kept values.now block 16 words.old words.new }
{
    if by_index(words) {
        return indexed(values, block, words, name);
    }
    let n = wire::read2(values, block + 6);
    Sought::Among(block + 6 + 2, n)
}

// The first value of a name in an accepted block of values at an offset. The entries that are left are asked in one place, so that the loop is
// compiled into its caller.
pub fn value(values: &[u8], block: usize, words: &mut [u64], name: &[u8]) -> Option<usize>
    requires { Accepted values.now 192 192 block × Remembered values.now block words.old }
    ensures value { result ≡ first_value values.now name.now (le2 values.now (block + 6)) (block + 6 + 2) }
    ensures value_found { (a : Accepted values.now 192 192 block) → ValueFound values.now name.now (values_of (tree a)) result }
    ensures kept { Kept values.now block 16 words.old words.new }
{
    match left_of(values, block, words, name) {
        Sought::At(o) => Some(o),
        Sought::Among(at, left) => lookup::value_from(values, at, left, name),
    }
}
