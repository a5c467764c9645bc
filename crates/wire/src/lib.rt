// Numbers, texts, names and blocks in a slice of bytes: read, compared, written, cleared.
#![tactic(auto)]

ghost use Rattle.std.specs.Prelude.{min, ◌≡◌, cond, [], ◌∷◌, ◌+◌, ◌*◌, ◌^◌, ◌≤◌, ◌<◌, ◌-◌, length, drop, replicate};
ghost use Rattle.blocks.specs.Bytes.{le2, le4, le8, name_at, bytes};
ghost use Rattle.blocks.specs.Name.{same, less};
ghost use Rattle.blocks.specs.Blocks.{Stand};
ghost use Rattle.blocks.specs.Tree.{name, num};
ghost use Rattle.blocks.specs.Write.{write};
ghost use Rattle.wire.specs.Named.{BlockNamed};
ghost use Rattle.wire.specs.Order.{be, first_bytes};
ghost use Rattle.wire.specs.Poke.{Wrote, opened};

// Where a block stands among blocks that stand one behind the other: how many before it, and its offset.
#[derive(Clone, Copy)]
pub struct Position {
    pub place: usize,
    pub at: usize,
}

// The number of 2, 4 or 8 bytes at an offset, the low byte first. (A function for each, since the library has a type for each.)
#[tactic(auto, using(crate::proofs::Numbers::read_2))]
pub fn read2(s: &[u8], at: usize) -> usize
    requires { at + 2 ≤ length s.now }
    ensures { (result ≡ le2 s.now at) × (result < 65536) }
{
    usize::from(u16::from_le_bytes(s[at..at + 2].try_into().unwrap()))
}

#[tactic(auto, using(crate::proofs::Numbers::read_4))]
pub fn read4(s: &[u8], at: usize) -> usize
    requires { at + 4 ≤ length s.now }
    ensures { (result ≡ le4 s.now at) × (result < 4294967296) }
{
    u32::from_le_bytes(s[at..at + 4].try_into().unwrap()) as usize
}

#[tactic(auto, using(crate::proofs::Numbers::read_8))]
pub fn read8(s: &[u8], at: usize) -> usize
    requires { at + 8 ≤ length s.now }
    ensures { result ≡ le8 s.now at }
{
    usize::from_le_bytes(s[at..at + 8].try_into().unwrap())
}

// The name or text at an offset: "a 2-byte length and its bytes".
pub fn name_at(s: &[u8], at: usize) -> &[u8]
    requires { at + 2 + le2 s.now at ≤ length s.now }
    ensures { result.now ≡ name_at s.now at }
{
    let n = read2(s, at);
    let from = at + 2;
    let to = from + n;
    &s[from..to]
}

// The offset behind it.
pub fn behind_name(s: &[u8], at: usize) -> usize
    requires { at + 2 + le2 s.now at ≤ length s.now }
    ensures { result ≡ at + 2 + le2 s.now at }
{
    at + 2 + read2(s, at)
}

// Whether two names of eight bytes or more, as many in both, are the same: eight are compared at a step, the last first, since names
// that differ mostly do so at their end; then the first, and those between them from the end on. Some may be compared twice. (With a
// `for` over the eights names of 8 to 40 bytes that are the same took a fifth to a third longer; with the slices' `==`, up to a half.)
#[tactic(auto, using(crate::proofs::Names::same_not))]
fn same_long(a: &[u8], b: &[u8]) -> bool
    requires { (8 ≤ length a.now) × (length a.now ≡ length b.now) }
    ensures { result ≡ same a.now b.now }
{
    let mut i = a.len() - 8;
    if read8(a, i) != read8(b, i) {
        return false;
    }
    if read8(a, 0) != read8(b, 0) {
        return false;
    }
    while 16 < i {
        i -= 16;
        if read8(a, i + 8) != read8(b, i + 8) {
            return false;
        }
        if read8(a, i) != read8(b, i) {
            return false;
        }
    }
    if 8 < i {
        return read8(a, 8) == read8(b, 8);
    }
    true
}

// Names are compared by their bytes.
pub fn same_name(a: &[u8], b: &[u8]) -> bool
    ensures { result ≡ same a.now b.now }
{
    let n = a.len();
    if n != b.len() {
        return false;
    }
    if 8 <= n {
        return same_long(a, b);
    }
    if 4 <= n {
        if read4(a, n - 4) != read4(b, n - 4) {
            return false;
        }
        return read4(a, 0) == read4(b, 0);
    }
    if 2 <= n {
        if read2(a, n - 2) != read2(b, n - 2) {
            return false;
        }
        return read2(a, 0) == read2(b, 0);
    }
    if n == 1 {
        return a[0] == b[0];
    }
    true
}

// The same, the high byte first: by such numbers names are in byte order.
#[tactic(auto, using(crate::proofs::Numbers::big_2))]
fn big2(s: &[u8], at: usize) -> usize
    requires { at + 2 ≤ length s.now }
    ensures { (result ≡ be 2 s.now at) × (result < 65536) }
{
    usize::from(u16::from_be_bytes(s[at..at + 2].try_into().unwrap()))
}

#[tactic(auto, using(crate::proofs::Numbers::big_4))]
fn big4(s: &[u8], at: usize) -> usize
    requires { at + 4 ≤ length s.now }
    ensures { (result ≡ be 4 s.now at) × (result < 4294967296) }
{
    u32::from_be_bytes(s[at..at + 4].try_into().unwrap()) as usize
}

#[tactic(auto, using(crate::proofs::Numbers::big_8))]
fn big8(s: &[u8], at: usize) -> usize
    requires { at + 8 ≤ length s.now }
    ensures { result ≡ be 8 s.now at }
{
    usize::from_be_bytes(s[at..at + 8].try_into().unwrap())
}

// The first n bytes of a name, less than eight, as a number.
#[tactic(auto, using(crate::proofs::Order::firsts))]
fn first_bytes(s: &[u8], n: usize) -> usize
    requires { (n < 8) × (n ≤ length s.now) }
    ensures { result ≡ first_bytes s.now n }
{
    if 4 <= n {
        return big4(s, 0) * 4294967296 + big4(s, n - 4);
    }
    if 2 <= n {
        return big2(s, 0) * 65536 + big2(s, n - 2);
    }
    if n == 1 {
        return usize::from(s[0]);
    }
    0
}

// Whether a stands before b in byte order, where the shorter has n bytes, less than eight.
fn less_short(a: &[u8], b: &[u8], n: usize) -> bool
    requires { (n < 8) × (n ≡ min (length a.now) (length b.now)) }
    ensures { result ≡ less a.now b.now }
{
    (first_bytes(a, n), a.len()) < (first_bytes(b, n), b.len())
}

// The same where it has eight or more: eight are compared at a step. The last eight may be compared twice in part.
fn less_long(a: &[u8], b: &[u8], n: usize) -> bool
    requires { (8 ≤ n) × (n ≡ min (length a.now) (length b.now)) }
    ensures { result ≡ less a.now b.now }
{
    for i in 0..(n - 1) / 8 {
        let x = big8(a, 8 * i);
        let y = big8(b, 8 * i);
        if x != y {
            return x < y;
        }
    }
    (big8(a, n - 8), a.len()) < (big8(b, n - 8), b.len())
}

// Whether a stands before b in byte order. (The slices' `<` goes byte by byte: it took up to nine times as long.)
pub fn less_name(a: &[u8], b: &[u8]) -> bool
    ensures { result ≡ less a.now b.now }
{
    let n = a.len().min(b.len());
    if n < 8 {
        return less_short(a, b, n);
    }
    less_long(a, b, n)
}

// Of so many blocks, one behind the other from an offset on, the first that begins with this name.
#[tactic(auto, using(crate::proofs::Search::searches))]
pub fn block_named(s: &[u8], from: usize, count: usize, name: &[u8]) -> Option<Position>
    requires { Stand s.now from count }
    ensures { BlockNamed s.now name.now from count result }
{
    let mut at = from;
    for place in 0..count {
        if same_name(name, name_at(s, at + 6)) {
            return Some(Position { place, at });
        }
        at = at + 4 + read4(s, at);
    }
    None
}

// Bytes written into a slice of the caller, at a cursor that goes on counting where the slice is full. (Slice and cursor are not one
// value: the length of a block is written where it starts, once its body is.)

#[tactic(auto, using(crate::proofs::Laws::writes))]
pub fn put_byte(out: &mut [u8], at: usize, b: u8) -> usize
    requires { at < 2 ^ 62 }
    ensures wrote { Wrote out.old at (b ∷ []) out.new result }
    ensures value { result ≡ at + 1 }
{
    if at < out.len() {
        out[at] = b;
    }
    at + 1
}

// The low k bytes of v, the low byte first. (Not by `to_le_bytes`, which has eight: k may be more.)
pub fn put_le(out: &mut [u8], at: usize, k: usize, v: u64) -> usize
    requires { at + k < 2 ^ 62 }
    ensures wrote { Wrote out.old at (bytes k v) out.new result }
    ensures value { result ≡ at + k }
{
    let mut rest = v;
    for i in 0..k {
        put_byte(out, at + i, (rest % 256) as u8);
        rest = rest / 256;
    }
    at + k
}

// The bytes of s from i on. Behind the end of the slice they are only counted. (`copy_from_slice` would be a memmove, and of the C
// library the archive needs memset alone.)
pub fn put_from(out: &mut [u8], at: usize, s: &[u8], i: usize) -> usize
    requires { at + length s.now < 2 ^ 61 + i }
    ensures wrote { Wrote out.old at (drop i s.now) out.new result }
    ensures value { result ≡ at + (length s.now - i) }
{
    let rest = &s[i.min(s.len())..];
    let inside = rest.len().min(out.len().saturating_sub(at));
    for k in 0..inside {
        out[at + k] = rest[k];
    }
    at + rest.len()
}

// A name or a text: its length in two bytes, and its bytes.
pub fn put_name(out: &mut [u8], at: usize, s: &[u8]) -> usize
    requires { at + length s.now < 2 ^ 60 }
    ensures wrote { Wrote out.old at (write (name s.now)) out.new result }
    ensures value { result ≡ at + (2 + length s.now) }
{
    let p = put_le(out, at, 2, s.len() as u64);
    put_from(out, p, s, 0)
}

// A flag, in one byte.
pub fn put_flag(out: &mut [u8], at: usize, on: bool) -> usize
    requires { at < 2 ^ 62 }
    ensures wrote { Wrote out.old at (write (num 1 (cond on 1 0))) out.new result }
    ensures value { result ≡ at + 1 }
{
    put_byte(out, at, u8::from(on))
}

// A block of the kind, as far as its body; its length is written once the body is.
pub fn open_block(out: &mut [u8], at: usize, kind: u64) -> usize
    requires { at < 2 ^ 61 }
    ensures wrote { Wrote out.old at (opened kind) out.new result }
    ensures value { result ≡ at + 6 }
{
    let p = put_le(out, at, 4, 0);
    put_le(out, p, 2, kind)
}

// The length of the block that starts at `at` and ends at `end`.
pub fn close_block(out: &mut [u8], at: usize, end: usize) -> usize
    requires { (at + 4 ≤ end) × (end < 2 ^ 61) }
    ensures wrote { Wrote out.old at (bytes 4 (end - at - 4)) out.new result }
    ensures value { result ≡ at + 4 }
{
    put_le(out, at, 4, (end - at - 4) as u64)
}

// Every byte is 0 after it.
pub fn clear_bytes(out: &mut [u8])
    ensures { out.new ≡ replicate (length out.old) 0 }
{
    out.fill(0);
}

// The words' bits together: 0 only where every word is 0.
fn or_of(words: &[u64]) -> u64
    ensures { result ≡ 0 → words.now ≡ replicate (length words.now) 0 }
{
    let mut bits = 0;
    for word in words {
        bits |= *word;
    }
    bits
}

// The same, faster for many words: five fifths are read side by side, so that the processor fetches from five places at once.
fn or_of_fifths(words: &[u64]) -> u64
    ensures { result ≡ 0 → words.now ≡ replicate (length words.now) 0 }
{
    let fifth = words.len() / 5;
    let mut bits = 0;
    for i in 0..fifth {
        bits |= words[i]
            | words[fifth + i]
            | words[2 * fifth + i]
            | words[3 * fifth + i]
            | words[4 * fifth + i];
    }
    bits | or_of(&words[5 * fifth..])
}

// Every word is 0 after it. Most callers pass zeros, and these are read faster than they are written.
pub fn clear_words(words: &mut [u64])
    ensures { words.new ≡ replicate (length words.old) 0 }
{
    if or_of_fifths(words) != 0 {
        words.fill(0);
    }
}
