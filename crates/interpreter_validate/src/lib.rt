// From the bytes of a layout, a type's name, the bytes of values and a buffer length to a byte count; or from a layout and a run, which has
// the other three. Whatever `validate` and `validate_run` answer, the working words are zero after.
#![tactic(auto)]

ghost use Rattle.std.specs.Prelude.{◌≡◌, ℕ, ◌+◌, ◌≤◌, length};
ghost use Rattle.errors.specs.Refusal.{words_after};
ghost use Rattle.errors.specs.Meaning.{outcome_of};
ghost use Rattle.value.specs.Number.{number_of};
ghost use Rattle.blocks.specs.Bytes.{le2, le4};
ghost use Rattle.interpreter.specs.Validate.{fits_buffer, validate, validate_run};
ghost use Rattle.interpreter_validate.specs.declared.Ask.TheVariants.{Values, Run};
ghost use Rattle.interpreter_validate.specs.Validator.{kind_of, call_of, Judged, Asked, Located, Given, Aimed, TypeAnswers, TreeAnswers, Answers, Called};
ghost use Rattle.interpreter_validate.specs.Validator.{AcceptedRun, RunRoot, words_for};

use errors::{Answer, Reason, Refusal, Unread};
use interpreter_context::Root;
use interpreter_leaves::{Frame, Inputs};
use value::Value;

// One word for each call that may be open.
const CALLS: usize = 16;

// These, the word that counts the names which were asked for, and some more, so that what lies behind them begins at a multiple of 64 bytes if
// the words do: else they are looked at more slowly.
const COUNTED: usize = 24;

// Behind them, the words of an index of the values.
const INDEX: usize = 1144;

// From how many values on it may pay to remember where they stand: with fewer, making the words for it is felt where they are not used.
const MANY: usize = 256;

// And from how many on that are asked for.
const ASKED: usize = 40;

// What is asked of a layout: the count of a type whose name is handed over, with values and a buffer length; or that of a run, which
// has all three.
#[derive(Clone, Copy)]
pub enum Ask {
    Values(u64),
    Run,
}

// The kind of the input that is read beside the layout.
fn kind(ask: Ask) -> usize
    ensures { result ≡ kind_of ask }
{
    match ask {
        Ask::Values(_) => 192,
        Ask::Run => 193,
    }
}

// 25, last: whether the count is at most the buffer length.
fn fitting(n: Value, place: usize, len: u64) -> Answer
    ensures { outcome_of result ≡ fits_buffer place len (number_of n) }
{
    if n.at_most(len) {
        return Ok(n);
    }
    Err(Refusal {
        reason: Reason::BufferTooSmall,
        place,
        offset: 0,
        value: n,
    })
}

// The tree of a type that is asked for, by its place in the layout and its offset there, and with what it is evaluated: the values at an
// offset and the buffer length.
#[derive(Clone, Copy)]
struct Target {
    place: usize,
    at: usize,
    block: usize,
    len: u64,
}

// The count of such a type.
fn evaluated_tree(layout: &[u8], values: &[u8], t: Target, words: &mut [u64]) -> Answer
    requires { Aimed layout.now values.now t × (16 ≤ length words.old) }
    ensures words_len_unchanged { length words.new ≡ length words.old }
    ensures tree_answers { TreeAnswers layout.now values.now t result }
{
    let root = Root {
        block: t.block,
        len: t.len,
    };
    let inputs = Inputs {
        layout,
        values,
        root,
    };
    let frame = Frame {
        depth: 0,
        place: t.place,
    };
    let top = interpreter_leaves::root(layout, t.at);
    interpreter_values::forget(words);
    let mut answer = Ok(Value::of(0));
    interpreter_eval::eval_node(&inputs, top, words, frame, &mut answer);
    fitting(answer?, t.place, t.len)
}

// How many words evaluating may use: one for each call that may be open, and where that is likely to pay, those in which it remembers
// values. It pays where there are many values, and the tree has as many bytes as one that asks for forty of them in a sum, each of which takes
// 22 bytes more there than in the list.
fn needed(layout: &[u8], values: &[u8], t: Target) -> usize
    requires { Aimed layout.now values.now t }
    ensures { result ≡ words_for (le4 layout.now t.at) (le4 values.now t.block) (le2 values.now (t.block + 6)) }
{
    let n = wire::read2(values, t.block + 6);
    if n < MANY {
        return CALLS;
    }
    let most = ASKED * (wire::read4(values, t.block) + 22 * n);
    if wire::read4(layout, t.at) * n < most {
        return CALLS;
    }
    interpreter_values::WORDS
}

// The count of such a type, with words of its own where values are remembered.
fn long_tree(layout: &[u8], values: &[u8], t: Target) -> Answer
    requires { Aimed layout.now values.now t }
    ensures { TreeAnswers layout.now values.now t result }
{
    let mut words = [0u64; 1168];
    evaluated_tree(layout, values, t, &mut words)
}

// The same with as many words as are needed.
fn tree_alone(layout: &[u8], values: &[u8], t: Target) -> Answer
    requires { Aimed layout.now values.now t }
    ensures { TreeAnswers layout.now values.now t result }
{
    if CALLS < needed(layout, values, t) {
        return long_tree(layout, values, t);
    }
    let mut calls = [0u64; 16];
    evaluated_tree(layout, values, t, &mut calls)
}

// The same with words that are lent, and are left as they are: who lends them clears them.
fn tree_lent(layout: &[u8], values: &[u8], t: Target, words: &mut [u64]) -> Answer
    requires { Aimed layout.now values.now t × (1168 ≤ length words.old) }
    ensures words_len_unchanged { length words.new ≡ length words.old }
    ensures tree_answers { TreeAnswers layout.now values.now t result }
{
    let n = needed(layout, values, t);
    evaluated_tree(layout, values, t, &mut words[..n])
}

// The count of a type of an accepted layout, with the accepted values at an offset.
fn type_alone(layout: &[u8], name: &[u8], values: &[u8], root: Root) -> Answer
    requires { Located layout.now values.now root.block }
    ensures { TypeAnswers layout.now name.now values.now root result }
{
    match lookup::lookup_type(layout, name) {
        None => Err(Refusal::plain(Reason::UnknownType)),
        Some(found) => {
            let t = Target {
                place: found.place,
                at: found.at,
                block: root.block,
                len: root.len,
            };
            tree_alone(layout, values, t)
        }
    }
}

// The same with words that are lent.
fn type_lent(layout: &[u8], name: &[u8], values: &[u8], root: Root, words: &mut [u64]) -> Answer
    requires { Located layout.now values.now root.block × (1168 ≤ length words.old) }
    ensures words_len_unchanged { length words.new ≡ length words.old }
    ensures type_answers { TypeAnswers layout.now name.now values.now root result }
{
    match lookup::lookup_type(layout, name) {
        None => Err(Refusal::plain(Reason::UnknownType)),
        Some(found) => {
            let t = Target {
                place: found.place,
                at: found.at,
                block: root.block,
                len: root.len,
            };
            tree_lent(layout, values, t, words)
        }
    }
}

// With what a run is evaluated: its buffer length stands behind its name, and its values behind that.
fn run_root(run: &[u8]) -> Root
    requires { AcceptedRun run.now }
    ensures { RunRoot run.now result }
{
    let at = wire::behind_name(run, 6);
    Root {
        block: at + 8,
        len: wire::read8(run, at) as u64,
    }
}

// The count of a run.
fn run_alone(layout: &[u8], run: &[u8]) -> Answer
    requires { Given Run layout.now run.now }
    ensures { Answers Run layout.now run.now run.now result }
{
    type_alone(layout, wire::name_at(run, 6), run, run_root(run))
}

// The same with words that are lent.
pub fn run_lent(layout: &[u8], run: &[u8], words: &mut [u64]) -> Answer
    requires { Given Run layout.now run.now × (1168 ≤ length words.old) }
    ensures words_len_unchanged { length words.new ≡ length words.old }
    ensures answers { Answers Run layout.now run.now run.now result }
{
    type_lent(layout, wire::name_at(run, 6), run, run_root(run), words)
}

// The answer to a call with values, where the questions before evaluating are answered.
fn counted(
    judged: Result<(), Unread>,
    layout: &[u8],
    name: &[u8],
    values: &[u8],
    len: u64,
    words: &mut [u64],
) -> Answer
    requires { (n : ℕ) × Asked (Values len) layout.now values.now judged words.old n }
    ensures words_len_unchanged { length words.new ≡ length words.old }
    ensures called { Called (Values len) layout.now name.now values.now judged words.old result }
{
    judged?;
    type_lent(layout, name, values, Root { block: 0, len }, words)
}

// The same with a run.
fn counted_run(judged: Result<(), Unread>, layout: &[u8], run: &[u8], words: &mut [u64]) -> Answer
    requires { (n : ℕ) × Asked Run layout.now run.now judged words.old n }
    ensures words_len_unchanged { length words.new ≡ length words.old }
    ensures called { Called Run layout.now run.now run.now judged words.old result }
{
    judged?;
    run_lent(layout, run, words)
}

// The same with either.
fn counted_for(
    ask: Ask,
    judged: Result<(), Unread>,
    layout: &[u8],
    name: &[u8],
    other: &[u8],
    words: &mut [u64],
) -> Answer
    requires { (n : ℕ) × Asked ask layout.now other.now judged words.old n }
    ensures words_len_unchanged { length words.new ≡ length words.old }
    ensures called { Called ask layout.now name.now other.now judged words.old result }
{
    match ask {
        Ask::Values(len) => counted(judged, layout, name, other, len, words),
        Ask::Run => counted_run(judged, layout, other, words),
    }
}

// Every word is 0 after it. Those of an index stand first, and are cleared apart from the others.
fn clear_index(words: &mut [u64])
    ensures { words.new ≡ words_after words.old }
{
    let n = reader_calls::used(words.len(), INDEX);
    wire::clear_words(&mut words[..n]);
    wire::clear_words(&mut words[n..]);
}

// Every word is 0 after it. Words that are zero are only looked at, so three parts are cleared one behind the other: that of the open calls
// and of the word that counts, which most records use, that of an index, which few do, and the others, which none does.
pub fn clear_used(words: &mut [u64])
    ensures { words.new ≡ words_after words.old }
{
    let calls = reader_calls::used(words.len(), COUNTED);
    wire::clear_words(&mut words[..calls]);
    clear_index(&mut words[calls..]);
}

// The answer to a call with the caller's words.
fn answer_with(words: &mut [u64], layout: &[u8], name: &[u8], other: &[u8], ask: Ask) -> Answer
    ensures result_value { outcome_of result ≡ call_of ask (length words.old) layout.now name.now other.now }
    ensures words_after { words.new ≡ words_after words.old }
{
    let judged = reader_calls::both_read(words.len(), layout, other, kind(ask));
    let a = counted_for(ask, judged, layout, name, other, words);
    clear_used(words);
    a
}

pub fn validate(words: &mut [u64], layout: &[u8], name: &[u8], values: &[u8], len: u64) -> Answer
    ensures result_value { outcome_of result ≡ validate (length words.old) layout.now name.now values.now len }
    ensures words_after { words.new ≡ words_after words.old }
{
    answer_with(words, layout, name, values, Ask::Values(len))
}

pub fn validate_run(words: &mut [u64], layout: &[u8], run: &[u8]) -> Answer
    ensures result_value { outcome_of result ≡ validate_run (length words.old) layout.now run.now }
    ensures words_after { words.new ≡ words_after words.old }
{
    answer_with(words, layout, run, run, Ask::Run)
}

// The same as `validate` and `validate_run` with working words of their own, of which they need one for each call that may be open, and more
// where values are remembered: the caller gives none, so that 19 is never answered and no word has to be cleared.
pub fn length_of(layout: &[u8], name: &[u8], values: &[u8], len: u64) -> Answer
    ensures { outcome_of result ≡ validate 8192 layout.now name.now values.now len }
{
    reader_calls::both_read(8192, layout, values, 192)?;
    type_alone(layout, name, values, Root { block: 0, len })
}

// The answer to a run with words of its own, where the questions before evaluating are answered.
pub fn run_counted(judged: Result<(), Unread>, layout: &[u8], run: &[u8]) -> Answer
    requires { (n : ℕ) × Judged Run layout.now run.now judged n }
    ensures { (n : ℕ) → Judged Run layout.now run.now judged n → outcome_of result ≡ validate_run n layout.now run.now }
{
    judged?;
    run_alone(layout, run)
}

pub fn length_of_run(layout: &[u8], run: &[u8]) -> Answer
    ensures { outcome_of result ≡ validate_run 8192 layout.now run.now }
{
    let judged = reader_calls::both_read(8192, layout, run, 193);
    run_counted(judged, layout, run)
}
