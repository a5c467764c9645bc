// The mark of a name: a number by which it is told from most others.
#![tactic(auto)]

ghost use Rattle.std.specs.Prelude.{◌≡◌, ◌<◌, ◌≤◌, length};
ghost use Rattle.name_marks.specs.Mark.{short_of, step, mark_of, sum_mark_of};

// A name of less than eight bytes as a number: its first bytes and its last.
#[tactic(auto, unfolding(crate::specs::Mark::short_of))]
fn short(name: &[u8]) -> usize
    requires { length name.now < 8 }
    ensures { result ≡ short_of name.now }
{
    let n = name.len();
    if 4 <= n {
        return wire::read4(name, 0) + 4294967296 * wire::read4(name, n - 4);
    }
    if 2 <= n {
        return wire::read2(name, 0) + 4294967296 * wire::read2(name, n - 2);
    }
    if n == 1 {
        return usize::from(name[0]);
    }
    0
}

// A mark with eight bytes more.
#[tactic(auto, unfolding(crate::specs::Mark::step))]
fn step(h: usize, x: usize) -> usize
    ensures { result ≡ step h x }
{
    let a = 4294967296 + h % 4294967296;
    let b = x % 2147483648;
    a * b + h / 4294967296 + x / 4294967296
}

// The mark of a name: eight bytes at each step, the steps so far apart; its last eight, which may be taken twice, and its length. The
// steps go by turns from two marks, so that a step need not wait for the one before it. (With `step_by` names of less than eight bytes
// took twice as long, longer ones 2 to 12 % longer.)
#[tactic(auto, unfolding(crate::specs::Mark::mark_of, crate::specs::Mark::short_mark))]
pub fn mark(name: &[u8], apart: usize) -> u64
    requires { (0 < apart) × (apart ≤ 32) }
    ensures { result ≡ mark_of apart name.now }
{
    let n = name.len();
    let mut h = 0;
    let mut g = 1640531527 + n;
    if n < 8 {
        return step(step(h, short(name)), g) as u64;
    }
    let mut i = 0;
    while i + 8 < n {
        let next = step(h, wire::read8(name, i));
        h = g;
        g = next;
        i += apart;
    }
    step(step(h, wire::read8(name, n - 8)), g) as u64
}

// The mark of a name by a sum: eight bytes at each step, added without carry beyond 64 bits; then its last eight, which may be taken
// twice, and its length by two steps. (With a `for` over the eights names of 8 to 20 bytes took a quarter longer. One form for `mark` and
// this would be no plainer: `short` and `step` are what they have in common, and each eight is taken in another way.)
#[tactic(auto, unfolding(crate::specs::Mark::sum_mark_of, crate::specs::Mark::short_mark))]
pub fn sum_mark(name: &[u8]) -> u64
    ensures { result ≡ sum_mark_of name.now }
{
    let n = name.len();
    let g = 1640531527 + n;
    if n < 8 {
        return step(step(0, short(name)), g) as u64;
    }
    let mut sum: usize = 0;
    let mut i = 0;
    while i + 8 < n {
        sum = sum.wrapping_add(wire::read8(name, i));
        i += 8;
    }
    step(step(sum, wire::read8(name, n - 8)), g) as u64
}
