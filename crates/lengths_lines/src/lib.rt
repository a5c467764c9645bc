// What the program `lengths` prints for one block, as bytes in a slice that the caller lends: numbers in decimal, the fill, a run's
// line, the line of a refused block.
#![tactic(auto)]

ghost use Rattle.std.specs.Prelude.{◌≡◌, [], ◌∷◌, ◌++◌, ◌+◌, ◌^◌, ◌≤◌, ◌<◌};
ghost use Rattle.errors.specs.Refusal.{plain};
ghost use Rattle.interpreter.specs.Validate.{validate_run};
ghost use Rattle.wire.specs.Poke.{Wrote};
ghost use Rattle.lengths_definition.specs.Lengths.{digits, decimal, nearest, fill, line, stopped, words, run_length, answer_lines};
ghost use Rattle.lengths_lines.specs.Lines.{IsLayout, Answered, AcceptedRun, bytes_of};

// The last number of a refusal that ends the output: 1 to 6 are of an input.
const LAST_OF_INPUT: u64 = 6;

// What was printed for a run block, and the cursor behind it.
#[derive(Clone, Copy)]
pub enum Printed {
    // the run's line: what follows it is read
    Line(usize),
    // the last line
    Last(usize),
}

// The whole number nearest to whole and rest of len parts; an exact half goes to the even neighbour. The rest is held against what is
// missing to the next whole number, so that nothing is doubled.
fn nearest(whole: u64, rest: u64, len: u64) -> u64
    requires { (whole < 2 ^ 63) × (rest < len) }
    ensures { result ≡ nearest whole rest len }
{
    let missing = len - rest;
    if rest < missing {
        return whole;
    }
    if missing < rest {
        return whole + 1;
    }
    whole + whole % 2
}

// A hundred times the count is added up without a product that could be too large: whole lengths are counted, and rest, below
// the length, is what is left.
fn long_fill(count: u64, len: u64) -> u64
    requires { (count ≤ len) × (0 < len) }
    ensures { result ≡ fill count len }
{
    let short = len - count;
    let mut whole: u64 = 0;
    let mut rest: u64 = 0;
    for _ in 0..100u64 {
        if rest < short {
            rest += count;
        } else {
            rest -= short;
            whole += 1;
        }
    }
    nearest(whole, rest, len)
}

// Below 2^56 the product is not too large.
fn fill(count: u64, len: u64) -> u64
    requires { count ≤ len }
    ensures { result ≡ fill count len }
{
    if len == 0 {
        return 0;
    }
    if len < 72057594037927936 {
        let hundred = 100 * count;
        return nearest(hundred / len, hundred % len, len);
    }
    long_fill(count, len)
}

// The last k digits of n, or all of them.
fn put_digits(out: &mut [u8], at: usize, k: usize, n: u64) -> usize
    requires { at + k < 2 ^ 61 }
    ensures wrote { Wrote out.old at (digits k n) out.new result }
    ensures upper_bound { result ≤ at + k }
{
    if k == 0 {
        return at;
    }
    if n < 10 {
        return wire::put_byte(out, at, (0x30 + n) as u8);
    }
    let p = put_digits(out, at, k - 1, n / 10);
    wire::put_byte(out, p, (0x30 + n % 10) as u8)
}

fn put_decimal(out: &mut [u8], at: usize, n: u64) -> usize
    requires { at < 2 ^ 60 }
    ensures wrote { Wrote out.old at (decimal n) out.new result }
    ensures upper_bound { result ≤ at + 20 }
{
    put_digits(out, at, 20, n)
}

// A number and the byte behind it.
fn put_number(out: &mut [u8], at: usize, n: u64, behind: u8) -> usize
    requires { at < 2 ^ 60 }
    ensures wrote { Wrote out.old at (decimal n ++ (behind ∷ [])) out.new result }
    ensures upper_bound { result ≤ at + 21 }
{
    let p = put_decimal(out, at, n);
    wire::put_byte(out, p, behind)
}

fn put_line(out: &mut [u8], at: usize, run: u64, number: u64, value: u64, fill: u64) -> usize
    requires { at < 2 ^ 59 }
    ensures wrote { Wrote out.old at (line run number value fill) out.new result }
    ensures upper_bound { result ≤ at + 84 }
{
    let p = put_number(out, at, run, b' ');
    let q = put_number(out, p, number, b' ');
    let r = put_number(out, q, value, b' ');
    put_number(out, r, fill, b'\n')
}

pub fn put_stopped(out: &mut [u8], at: usize, number: u64) -> usize
    requires { at < 2 ^ 59 }
    ensures wrote { Wrote out.old at (stopped (plain number)) out.new result }
    ensures upper_bound { result ≤ at + 84 }
{
    let p = wire::put_byte(out, at, b'S');
    let q = wire::put_byte(out, p, b' ');
    put_number(out, q, number, b'\n')
}

// The buffer length of an accepted run block, which stands behind the type's name.
fn run_length(run: &[u8]) -> u64
    requires { AcceptedRun run.now }
    ensures { result ≡ run_length run.now }
{
    let n = wire::read2(run, 6);
    wire::read8(run, 8 + n) as u64
}

// A run's line, or the line with which the program ends, at a cursor: 84 bytes hold it. The layout is one that was read.
pub fn answer_at(run: u64, layout: &[u8], block: &[u8], out: &mut [u8], at: usize) -> Printed
    requires { IsLayout layout.now × (at < 2 ^ 59) }
    ensures answered { Answered (answer_lines run (run_length block.now) (validate_run words layout.now block.now)) out.old at out.new result }
    ensures result_bound { bytes_of result ≤ at + 84 }
{
    match interpreter_runs::answer_alone(layout, Ok(()), block) {
        Ok(count) => {
            let n = count.low();
            let len = run_length(block);
            let part = fill(n, len);
            Printed::Line(put_line(out, at, run, 0, n, part))
        }
        Err(r) => {
            let number = r.reason.number();
            if number <= LAST_OF_INPUT {
                return Printed::Last(put_stopped(out, at, number));
            }
            Printed::Line(put_line(out, at, run, number, r.value.low(), 0))
        }
    }
}
