// Reads a list of stored calls with their answers from standard input and holds the proved readers against those that reading
// decides, `build_set`, `validate` and `validate_run` against all of theirs, layouts byte for byte, and what `lengths` prints
// against its stored lines.
#![tactic(auto)]

ghost use Rattle.std.specs.Prelude.{◌≡◌, ◌+◌, ◌^◌, ◌≤◌, ◌<◌, length, take, IfOk, IfSome, OnErr};
ghost use Rattle.lengths_program.specs.Parts.{Room};

use errors::{Answer, Length, Reason, Words};
use lengths_program::State;
use std::io;
use std::io::{Read, Write};

// What one turn of the main loop came to.
#[derive(Clone, Copy)]
enum Turn {
    More,
    End,
    Bad,
}

// The tally has the refusals of reading and the answers of validations, each at its number from a place on, and behind them
// what else is counted.
const READINGS: usize = 0;

const ANSWERS: usize = 28;

const SETS: usize = 56;

const VALIDATIONS: usize = 57;

const RUNS: usize = 58;

const LENGTHS: usize = 59;

const DIFFER: usize = 60;

const RECORDS: usize = 61;

fn bump(tally: &mut [u64; 62], i: usize) {
    if let Some(n) = tally.get_mut(i) {
        *n = n.saturating_add(1);
    }
}

// How many of the words a record's call gets: as many as its first four bytes say, or all.
fn word_count(s: &[u8], words: &[u64]) -> usize
    ensures bound { result ≤ length words.now }
    ensures taken { result ≡ length (take result words.now) }
{
    if s.len() < 4 {
        return 0;
    }
    wire::read4(s, 0).min(words.len())
}

// Puts something into every word, so that a call has to clear them all.
fn fill_words(words: &mut [u64]) {
    words.fill(u64::MAX);
}

// Whether every word is zero. (It goes to the end in any case: then several are looked at in a step, wherever this is compiled into.)
fn is_clean(words: &[u64]) -> bool {
    let mut bits = 0;
    for word in words {
        bits |= *word;
    }
    bits == 0
}

// Where the part ends whose length stands at `at`, if it lies in s.
fn part_end(s: &[u8], at: usize) -> Option<usize>
    ensures { IfSome result (λ end. (at + 4 ≤ end) × (end ≤ length s.now)) }
{
    if s.len() < 4 {
        return None;
    }
    if s.len() - 4 < at {
        return None;
    }
    let n = wire::read4(s, at);
    let start = at + 4;
    if s.len() - start < n {
        return None;
    }
    Some(start + n)
}

// The numbers of reading.
fn of_reading(number: u64) -> bool {
    matches!(number, 1..=6 | 19)
}

// The four words of the answer that stands at `at`, which has fifteen bytes.
fn stored(s: &[u8], at: usize) -> Option<[u64; 4]> {
    if s.len() < 15 {
        return None;
    }
    if s.len() - 15 < at {
        return None;
    }
    let number = wire::read2(s, at) % 256;
    let place = wire::read2(s, at + 1);
    let offset = wire::read4(s, at + 3);
    let value = wire::read8(s, at + 7);
    Some([number as u64, place as u64, offset as u64, value as u64])
}

// Whether the answer of reading is the stored one, which stands at `at`.
fn is_read(got: Answer, s: &[u8], at: usize) -> bool {
    match (got, stored(s, at)) {
        (Ok(_), Some(words)) => !of_reading(words[0]),
        (Ok(_), None) => true,
        (Err(r), Some(words)) => words == r.words(),
        (Err(_), None) => false,
    }
}

// Whether the count or the refusal is the stored answer.
fn is_answer(got: Answer, s: &[u8], at: usize) -> bool {
    stored(s, at) == Some(got.words())
}

fn count_refused(tally: &mut [u64; 62], got: &Answer) {
    if let Err(r) = got {
        bump(tally, READINGS + r.reason.number() as usize);
    }
}

fn count_answer(tally: &mut [u64; 62], got: &Answer) {
    match got {
        Ok(_) => bump(tally, ANSWERS),
        Err(r) => bump(tally, ANSWERS + r.reason.number() as usize),
    }
}

// Puts something into every byte, so that it is seen which of them a call writes.
fn fill_bytes(out: &mut [u8]) {
    out.fill(0xA5);
}

// Whether every byte is this one.
fn is_all(out: &[u8], b: u8) -> bool {
    let mut others = 0;
    for byte in out {
        others |= *byte ^ b;
    }
    others == 0
}

// How much of the output a record's call gets: as many bytes as it says, or all.
fn output_length(s: &[u8], out: &[u8]) -> usize
    ensures bound { result ≤ length out.now }
    ensures taken { result ≡ length (take result out.now) }
{
    if s.len() < 8 {
        return 0;
    }
    wire::read4(s, 4).min(out.len())
}

// What a build left against the stored answer, which stands at `at`, and the stored layout: its bytes and those behind it, or
// zeros. A stored build has no length beside its layout.
fn is_built(got: Length, out: &[u8], s: &[u8], at: usize, layout: &[u8]) -> bool {
    match got {
        Ok(n) => {
            if out.len() < n {
                return false;
            }
            stored(s, at) == Some([0, 65535, 0, 0])
                && &out[..n] == layout
                && is_all(&out[n..], 0xA5)
        }
        Err(r) => stored(s, at) == Some(r.words()) && is_all(out, 0),
    }
}

// A build: working words, output length, set, answer, layout. Whether it is as stored; none where it is not a record, here and below.
fn hold_set(words: &mut [u64], tally: &mut [u64; 62], s: &[u8]) -> Option<bool> {
    let end = part_end(s, 8)?;
    let layout = end + 15;
    if part_end(s, layout)? != s.len() {
        return None;
    }
    let set = &s[12..end];
    fill_words(words);
    let read = reader_calls::read_set(words, set);
    count_refused(tally, &read);
    if !(is_clean(words) && is_read(read, s, end)) {
        return Some(false);
    }
    let mut all = [0u8; 131072];
    let n = output_length(s, &all);
    let out = &mut all[..n];
    fill_words(words);
    fill_bytes(out);
    let got = builder_set::build_set(set, out, words);
    let start = layout + 4;
    Some(is_clean(words) && is_built(got, out, s, end, &s[start..]))
}

// Of a layout and values or a run: 19 comes first, then 1 for the layout, 1 for the other, then the rest in this order.
fn first(a: Answer, b: Answer) -> Answer {
    match (a, b) {
        (Ok(_), _) => b,
        (Err(q), Err(r)) => {
            let before = q.reason == Reason::TooFewWords || q.reason == Reason::InputTooLong;
            if r.reason == Reason::InputTooLong && !before {
                return b;
            }
            a
        }
        (Err(_), Ok(_)) => a,
    }
}

// Values or a run, by the kind of the record.
fn read_input(words: &mut [u64], input: &[u8], kind: u8) -> Answer {
    if kind == 2 {
        return reader_calls::read_values(words, input);
    }
    reader_calls::read_run(words, input)
}

// Whether the readers give the answer at `at`, if it is one of reading, and leave the words clean.
fn same_reading(
    words: &mut [u64],
    tally: &mut [u64; 62],
    layout: &[u8],
    input: &[u8],
    kind: u8,
    s: &[u8],
    at: usize,
) -> bool {
    fill_words(words);
    let a = reader_calls::read_layout(words, layout);
    if !is_clean(words) {
        return false;
    }
    fill_words(words);
    let b = read_input(words, input, kind);
    let got = first(a, b);
    count_refused(tally, &got);
    is_clean(words) && is_read(got, s, at)
}

// Whether a validation gave the answer at `at` and left the words clean.
fn same_answer(words: &[u64], tally: &mut [u64; 62], got: Answer, s: &[u8], at: usize) -> bool {
    count_answer(tally, &got);
    is_clean(words) && is_answer(got, s, at)
}

// A validation: working words, buffer length, layout, asked name, values, answer.
fn hold_validation(words: &mut [u64], tally: &mut [u64; 62], s: &[u8]) -> Option<bool> {
    let layout_end = part_end(s, 12)?;
    let name_end = part_end(s, layout_end)?;
    let end = part_end(s, name_end)?;
    if end + 15 != s.len() {
        return None;
    }
    let name_start = layout_end + 4;
    let start = name_end + 4;
    let layout = &s[16..layout_end];
    let values = &s[start..end];
    let len = wire::read8(s, 4) as u64;
    let read = same_reading(words, tally, layout, values, 2, s, end);
    fill_words(words);
    let got = interpreter_validate::validate(words, layout, &s[name_start..name_end], values, len);
    Some(same_answer(words, tally, got, s, end) && read)
}

// A run: working words, layout, run, answer.
fn hold_run(words: &mut [u64], tally: &mut [u64; 62], s: &[u8]) -> Option<bool> {
    let layout_end = part_end(s, 4)?;
    let end = part_end(s, layout_end)?;
    if end + 15 != s.len() {
        return None;
    }
    let start = layout_end + 4;
    let layout = &s[8..layout_end];
    let run = &s[start..end];
    let read = same_reading(words, tally, layout, run, 4, s, end);
    fill_words(words);
    let got = interpreter_validate::validate_run(words, layout, run);
    Some(same_answer(words, tally, got, s, end) && read)
}

// What `lengths` leaves of an input of n bytes that is read at once.
fn printed(input: &mut [u8], n: usize, out: &mut [u8]) -> State
    requires { (n ≤ length input.old) × (length input.old < 2 ^ 62) × Room out.old }
    ensures { result.wrote ≤ length out.new }
{
    let mut layout = [0u8; 65536];
    let read = lengths_program::after_read(lengths_program::start(), n);
    let all = lengths_program::after_read(read, 0);
    lengths_program::lines(all, input, &mut layout, out)
}

// Lengths: standard input, standard output.
fn hold_lengths(s: &[u8]) -> Option<bool> {
    let end = part_end(s, 0)?;
    if part_end(s, end)? != s.len() {
        return None;
    }
    if 262144 < s.len() {
        return None;
    }
    let start = end + 4;
    let mut input = [0u8; 262144];
    let mut out = [0u8; 65536];
    wire::put_from(&mut input, 0, &s[4..end], 0);
    let state = printed(&mut input, end - 4, &mut out);
    let n = state.wrote;
    Some(lengths_program::has_ended(state) && &out[..n] == &s[start..])
}

// One record of the kind, counted.
fn hold_record(words: &mut [u64], tally: &mut [u64; 62], kind: u8, s: &[u8]) -> Option<bool> {
    let n = word_count(s, words);
    match kind {
        1 => {
            bump(tally, SETS);
            hold_set(&mut words[..n], tally, s)
        }
        2 => {
            bump(tally, VALIDATIONS);
            hold_validation(&mut words[..n], tally, s)
        }
        3 => {
            bump(tally, LENGTHS);
            hold_lengths(s)
        }
        4 => {
            bump(tally, RUNS);
            hold_run(&mut words[..n], tally, s)
        }
        _ => None,
    }
}

// Reads until s is full or the input ends: how many bytes it put at the start of s.
fn read_full<R: Read>(reader: &mut R, s: &mut [u8]) -> io::Result<usize>
    ensures ok { IfOk result (λ n. n ≤ length s.new) }
    ensures err { OnErr result (length s.new ≡ length s.old) }
{
    let mut done = 0;
    while done < s.len() {
        let got = reader.read(&mut s[done..])?;
        if got == 0 {
            break;
        }
        done += got;
    }
    Ok(done)
}

// Reads the body of a record of the kind, as long as s, and holds the record.
fn hold_body<R: Read>(
    reader: &mut R,
    s: &mut [u8],
    words: &mut [u64],
    tally: &mut [u64; 62],
    kind: u8,
) -> io::Result<Turn> {
    if read_full(reader, s)? < s.len() {
        return Ok(Turn::Bad);
    }
    match hold_record(words, tally, kind, s) {
        Some(true) => {}
        Some(false) => bump(tally, DIFFER),
        None => return Ok(Turn::Bad),
    }
    bump(tally, RECORDS);
    Ok(Turn::More)
}

// Reads the header of a record: kind, mark and length. Then the body, if it has room.
fn hold_next<R: Read>(
    reader: &mut R,
    body: &mut [u8],
    words: &mut [u64],
    tally: &mut [u64; 62],
) -> io::Result<Turn> {
    let mut header = [0u8; 6];
    let got = read_full(reader, &mut header)?;
    if got == 0 {
        return Ok(Turn::End);
    }
    if got < 6 {
        return Ok(Turn::Bad);
    }
    let length = wire::read4(&header, 2);
    if body.len() < length {
        return Ok(Turn::Bad);
    }
    hold_body(reader, &mut body[..length], words, tally, header[0])
}

// Whether the list was whole. Nothing says that the input ends, so the turns are counted.
fn hold_all<R: Read>(reader: &mut R, tally: &mut [u64; 62]) -> io::Result<bool> {
    let mut body = [0u8; 262144];
    let mut words = [0u64; 8192];
    for _ in 0..4000000000u64 {
        match hold_next(reader, &mut body, &mut words, tally)? {
            Turn::More => {}
            Turn::End => return Ok(true),
            Turn::Bad => return Ok(false),
        }
    }
    Ok(false)
}

// How often a number was met, if it was.
fn say_number<W: Write>(writer: &mut W, number: usize, count: u64) -> io::Result<()> {
    if count != 0 {
        write!(writer, " {number}:{count}")?;
    }
    Ok(())
}

// The counts of the numbers 0 to 27, which stand from a place of the tally on.
fn say_numbers<W: Write>(writer: &mut W, tally: &[u64; 62], from: usize) -> io::Result<()> {
    for (number, count) in tally.iter().skip(from).take(28).enumerate() {
        say_number(writer, number, *count)?;
    }
    Ok(())
}

fn report<W: Write>(writer: &mut W, tally: &[u64; 62]) -> io::Result<()> {
    write!(writer, "{} records: {} sets, ", tally[RECORDS], tally[SETS])?;
    write!(
        writer,
        "{} validations, {} runs, ",
        tally[VALIDATIONS], tally[RUNS]
    )?;
    write!(writer, "{} of lengths\nrefused by reading:", tally[LENGTHS])?;
    say_numbers(writer, tally, READINGS)?;
    write!(writer, "\nvalidated (0: accepted):")?;
    say_numbers(writer, tally, ANSWERS)?;
    write!(writer, "\n{} differ\n", tally[DIFFER])
}

fn main(rt: HostRuntime) -> io::Result<()> {
    let mut stdin = rt.stdin();
    let mut stdout = rt.stdout();
    let mut tally = [0u64; 62];
    if hold_all(&mut stdin, &mut tally)? {
        report(&mut stdout, &tally)
    } else {
        bump(&mut tally, RECORDS);
        write!(stdout, "bad list at record {}\n", tally[RECORDS])
    }
}
