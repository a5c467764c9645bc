// The program `lengths` between a read and a write: from the bytes that are there of its input to the bytes of as many of its lines
// as can be told. What is not used yet stays at the start of the input's buffer, where the next read goes on.
#![tactic(auto)]

ghost use Rattle.std.specs.Prelude.{◌≡◌, ◌+◌, ◌-◌, ◌^◌, ◌<◌, length, take, drop};
ghost use Rattle.lengths_lines.specs.Lines.{IsLayout};
ghost use Rattle.lengths_program.specs.Lines.{runs, left, is_ended};
ghost use Rattle.lengths_program.specs.Parts.{Finds, Room, Within, Ran, Begins};
ghost use Rattle.lengths_program.specs.Calls.{Given, IsStart, HasRead, IsEnded, Told};

use errors::Reason;
use lengths_lines::Printed;

// What stands at the start of the input that is there.
#[derive(Clone, Copy)]
enum Next {
    // a block of this length
    Block(usize),
    // a block that is refused for this reason
    Refused(Reason),
    // part of a block, of which more has to be read
    Part,
}

// How far the program has come.
#[derive(Clone, Copy)]
pub enum Stage {
    // the set comes next
    Set,
    // the run of this number comes next; the layout is so long
    Runs(u64, usize),
    // the last line was printed
    Ended,
}

// What the program keeps between two calls.
#[derive(Clone, Copy)]
pub struct State {
    pub stage: Stage,
    // so many bytes at the start of the input's buffer are yet to be used
    pub held: usize,
    // whether the input ends with them
    pub last: bool,
    // whether more input is wanted before the next call
    pub wants: bool,
    // so many bytes at the start of the output are lines that the call printed
    pub wrote: usize,
}

// The bytes of the input's buffer that are yet to be used, and whether the input ends with them.
#[derive(Clone, Copy)]
struct Span {
    from: usize,
    to: usize,
    last: bool,
}

// What the set came to.
#[derive(Clone, Copy)]
enum Begun {
    // its last bytes are not there
    Part,
    // it is refused: so many bytes were printed
    Ended(usize),
    // it takes so many bytes, and its layout is so long
    Built(usize, usize),
}

// What runs came to.
#[derive(Clone, Copy)]
enum Passed {
    // the last line was printed: so many bytes in all
    Ended(usize),
    // whether more input is wanted; the next run's number, how many bytes were used, how many printed
    More(bool, u64, usize, usize),
}

fn next_block(s: &[u8], last: bool) -> Next
    ensures { Finds s.now last result }
{
    if s.len() < 4 {
        if last {
            return Next::Refused(Reason::Malformed);
        }
        return Next::Part;
    }
    let n = 4 + wire::read4(s, 0);
    if 65536 < n {
        return Next::Refused(Reason::InputTooLong);
    }
    if n <= s.len() {
        return Next::Block(n);
    }
    if last {
        return Next::Refused(Reason::Malformed);
    }
    Next::Part
}

// The lines of the runs in s, as far as they are there and the output has room for a line: 84 bytes.
fn run_lines(first: u64, layout: &[u8], s: &[u8], last: bool, out: &mut [u8]) -> Passed
    requires { IsLayout layout.now × Room out.old }
    ensures { Ran first layout.now s.now last out.new result }
{
    let mut i = 0;
    let mut at = 0;
    let mut run = first;
    while i < s.len() {
        if out.len() - at < 84 {
            return Passed::More(false, run, i, at);
        }
        if u64::MAX <= run {
            return Passed::More(false, run, i, at);
        }
        match next_block(&s[i..], last) {
            Next::Part => return Passed::More(true, run, i, at),
            Next::Refused(q) => {
                return Passed::Ended(lengths_lines::put_stopped(out, at, q.number()));
            }
            Next::Block(n) => {
                let end = i + n;
                match lengths_lines::answer_at(run, layout, &s[i..end], out, at) {
                    Printed::Last(p) => return Passed::Ended(p),
                    Printed::Line(p) => {
                        at = p;
                    }
                }
                i = end;
                run += 1;
            }
        }
    }
    if last {
        return Passed::Ended(at);
    }
    Passed::More(true, run, i, at)
}

// The set at the start of s, and its layout; or the line with which the program ends.
fn begin(s: &[u8], last: bool, layout: &mut [u8], out: &mut [u8]) -> Begun
    requires { (length layout.old ≡ 65536) × Room out.old }
    ensures { Begins s.now last layout.new out.new result }
{
    match next_block(s, last) {
        Next::Part => Begun::Part,
        Next::Refused(q) => Begun::Ended(lengths_lines::put_stopped(out, 0, q.number())),
        Next::Block(n) => match builder_set::layout_of(&s[..n], layout) {
            Err(r) => Begun::Ended(lengths_lines::put_stopped(out, 0, r.reason.number())),
            Ok(m) => Begun::Built(n, m),
        },
    }
}

// The state before anything was read.
pub fn start() -> State
    ensures { IsStart result }
{
    State {
        stage: Stage::Set,
        held: 0,
        last: false,
        wants: true,
        wrote: 0,
    }
}

// So many bytes were read behind those that are held; none where the input has ended.
pub fn after_read(state: State, got: usize) -> State
    requires { state.held + got < 2 ^ 63 }
    ensures { HasRead state got result }
{
    State {
        stage: state.stage,
        held: state.held + got,
        last: got == 0,
        wants: false,
        wrote: 0,
    }
}

pub fn has_ended(state: State) -> bool
    ensures { result ≡ is_ended state.stage }
{
    matches!(state.stage, Stage::Ended)
}

// Moves the bytes from `from` to `to` to the start: how many they are. Bytes that stand there already are not copied onto themselves: a block that
// comes in many parts is asked for again after each.
fn keep(input: &mut [u8], from: usize, to: usize) -> usize
    requires { Within from to input.old }
    ensures { (result ≡ to - from) × (take result input.new ≡ take result (drop from input.old)) }
{
    if from != 0 {
        input.copy_within(from..to, 0);
    }
    to - from
}

// Nothing is left to be printed.
fn ended(last: bool, wrote: usize) -> State
    ensures { IsEnded last wrote result }
{
    State {
        stage: Stage::Ended,
        held: 0,
        last,
        wants: false,
        wrote,
    }
}

// Runs that begin inside the input's buffer.
fn go_on(run: u64, layout: &[u8], span: Span, input: &mut [u8], out: &mut [u8]) -> State
    requires { IsLayout layout.now × Room out.old × Within span.from span.to input.old }
    ensures { Told span.last (runs layout.now run) (take (span.to - span.from) (drop span.from input.old)) layout.now input.new out.new result }
{
    let from = span.from;
    let to = span.to;
    let last = span.last;
    match run_lines(run, layout, &input[from..to], last, out) {
        Passed::Ended(wrote) => ended(last, wrote),
        Passed::More(wants, next, used, wrote) => State {
            stage: Stage::Runs(next, layout.len()),
            held: keep(input, from + used, to),
            last,
            wants,
            wrote,
        },
    }
}

// Prints as many lines as can be told of what is held of the input: until it is used up, the output has no room for a line, or the
// last line was printed.
pub fn lines(state: State, input: &mut [u8], layout: &mut [u8], out: &mut [u8]) -> State
    requires { Given state input.old layout.old out.old }
    ensures { Told state.last (left state.stage layout.old) (take state.held input.old) layout.new input.new out.new result }
{
    let to = state.held;
    let last = state.last;
    let stage = state.stage;
    match stage {
        Stage::Ended => ended(last, 0),
        Stage::Runs(run, m) => {
            let span = Span { from: 0, to, last };
            go_on(run, &layout[..m], span, input, out)
        }
        Stage::Set => match begin(&input[..to], last, layout, out) {
            Begun::Part => State {
                stage,
                held: to,
                last,
                wants: true,
                wrote: 0,
            },
            Begun::Ended(wrote) => ended(last, wrote),
            Begun::Built(from, m) => {
                let span = Span { from, to, last };
                go_on(0, &layout[..m], span, input, out)
            }
        },
    }
}
