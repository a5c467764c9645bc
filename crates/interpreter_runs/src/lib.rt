// Runs that stand one behind the other, over one layout, which is read once and not again for each run: the answers of
// `validate_run`, four words each.
#![tactic(auto)]

ghost use Rattle.std.specs.Prelude.{◌≡◌, [], ◌∷◌, ◌++◌, ◌+◌, ◌*◌, ◌≤◌, ◌<◌, length, drop};
ghost use Rattle.errors.specs.Refusal.{words_after};
ghost use Rattle.interpreter.specs.Validate.{validate_run};
ghost use Rattle.wire.specs.Poke.{Wrote};
ghost use Rattle.errors.specs.Meaning.{outcome_of};
ghost use Rattle.interpreter.specs.Runs.{validate_runs, given};
ghost use Rattle.errors.specs.Answer.{answer_words, all_answer_words};
ghost use Rattle.interpreter_runs.specs.Held.{Holds, Ends};

use errors::{Answer, Unread};

// The answer to a run. The questions of a call with the layout alone are answered.
fn answer(
    n: usize,
    layout: &[u8],
    first: Result<(), Unread>,
    run: &[u8],
    words: &mut [u64],
) -> Answer
    requires { Holds n layout.now first × (8192 ≤ n → 1168 ≤ length words.old) }
    ensures words_len_unchanged { length words.new ≡ length words.old }
    ensures result_value { outcome_of result ≡ validate_run n layout.now run.now }
{
    reader_calls::other_read(n, first, run, 193)?;
    interpreter_validate::run_lent(layout, run, words)
}

// The same with words of its own.
pub fn answer_alone(layout: &[u8], first: Result<(), Unread>, run: &[u8]) -> Answer
    requires { Holds 8192 layout.now first }
    ensures { outcome_of result ≡ validate_run 8192 layout.now run.now }
{
    let judged = reader_calls::other_read(8192, first, run, 193);
    interpreter_validate::run_counted(judged, layout, run)
}

// Where the run at i ends.
fn run_end(s: &[u8], i: usize) -> usize
    requires { i < length s.now }
    ensures { Ends s.now i result }
{
    let left = s.len() - i;
    if left < 4 {
        return s.len();
    }
    let n = wire::read4(s, i);
    if left - 4 < n {
        return s.len();
    }
    i + 4 + n
}

// Four words, and the cursor behind them.
fn put_four(out: &mut [u64], at: usize, number: u64, place: u64, offset: u64, value: u64) -> usize
    requires { at + 4 ≤ length out.old }
    ensures { Wrote out.old at (number ∷ place ∷ offset ∷ value ∷ []) out.new result }
{
    let b = at + 1;
    let c = at + 2;
    let d = at + 3;
    out[at] = number;
    out[b] = place;
    out[c] = offset;
    out[d] = value;
    at + 4
}

// The four words of an answer. Each case stores its own: by way of `words`, an array, a run takes longer.
fn put_answer(out: &mut [u64], at: usize, a: Answer) -> usize
    requires { at + 4 ≤ length out.old }
    ensures { Wrote out.old at (answer_words (outcome_of a)) out.new result }
{
    match a {
        Ok(n) => put_four(out, at, 0, 65535, 0, n.low()),
        Err(r) => put_four(
            out,
            at,
            r.reason.number(),
            r.place as u64,
            r.offset as u64,
            r.value.low(),
        ),
    }
}

// The answers to the runs in s, as far as there is room for them, and how many words they are.
fn answer_all(
    n: usize,
    layout: &[u8],
    first: Result<(), Unread>,
    s: &[u8],
    words: &mut [u64],
    out: &mut [u64],
) -> usize
    requires { Holds n layout.now first × (8192 ≤ n → 1168 ≤ length words.old) }
    ensures words_len_unchanged { length words.new ≡ length words.old }
    ensures wrote { Wrote out.old 0 (all_answer_words (given (length out.old) (validate_runs n layout.now s.now))) out.new result }
{
    let mut i = 0;
    let mut at = 0;
    while i < s.len() {
        if out.len() - at < 4 {
            return at;
        }
        let end = run_end(s, i);
        let a = answer(n, layout, first, &s[i..end], words);
        at = put_answer(out, at, a);
        i = end;
    }
    at
}

// How many runs have their answers in `answers`: those from the first on for which there is room.
pub fn validate_runs(words: &mut [u64], layout: &[u8], runs: &[u8], answers: &mut [u64]) -> usize
    ensures value { result ≡ length (given (length answers.old) (validate_runs (length words.old) layout.now runs.now)) }
    ensures answers_after { answers.new ≡ all_answer_words (given (length answers.old) (validate_runs (length words.old) layout.now runs.now)) ++ drop (4 * result) answers.old }
    ensures words_after { words.new ≡ words_after words.old }
{
    let n = words.len();
    let first = reader_calls::one_read(n, layout, 256, 160);
    let end = answer_all(n, layout, first, runs, words, answers);
    interpreter_validate::clear_used(words);
    end / 4
}
