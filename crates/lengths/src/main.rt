// Reads a type set, then runs, from standard input, and prints a line per run. What is printed is told by `lengths_program`; here are
// only the reads and the writes.
#![tactic(auto)]

ghost use Rattle.std.specs.Prelude.{◌≡◌, ◌^◌, ◌≤◌, ◌<◌, length, take, IfOk, OnErr, OnOk};
ghost use Rattle.std.specs.Io.KnownBytes.{Appends};

use lengths_program::State;
use std::io;
use std::io::{Read, Write};

// Reads what is there behind the bytes that are held, if the program wants more.
fn read_more<R: Read>(reader: &mut R, state: State, input: &mut [u8]) -> io::Result<State>
    requires { (state.held ≤ length input.old) × (length input.old < 2 ^ 63) }
    ensures ok { IfOk result (λ next. (next.stage ≡ state.stage) × (next.held ≤ length input.new)) }
    ensures err { OnErr result (length input.new ≡ length input.old) }
{
    if !state.wants {
        return Ok(state);
    }
    let held = state.held;
    let got = reader.read(&mut input[held..])?;
    Ok(lengths_program::after_read(state, got))
}

// The lines that a call printed.
fn print<W: Write>(writer: &mut W, lines: &[u8], n: usize) -> io::Result<()>
    requires { n ≤ length lines.now }
    ensures { OnOk result (Appends (W.contents writer.old) (W.contents writer.new) (take n lines.now)) }
{
    writer.write_all(&lines[..n])
}

// Nothing says that the input ends, so the calls are counted.
fn main(rt: HostRuntime) -> io::Result<()> {
    let mut stdin = rt.stdin();
    let mut stdout = rt.stdout();
    let mut input = [0u8; 262144];
    let mut layout = [0u8; 65536];
    let mut out = [0u8; 131072];
    let mut state = lengths_program::start();
    for _ in 0..u64::MAX {
        let read = read_more(&mut stdin, state, &mut input)?;
        state = lengths_program::lines(read, &mut input, &mut layout, &mut out);
        print(&mut stdout, &out, state.wrote)?;
        if lengths_program::has_ended(state) {
            return Ok(());
        }
    }
    Ok(())
}
