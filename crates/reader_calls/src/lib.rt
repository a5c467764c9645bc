// The questions with which a call begins: 19, 1 for each input, then the reading of each. And the calls that put no others: they
// read a set, a layout, values or a run, and whatever they answer, the working words are zero after.
#![tactic(auto)]

ghost use Rattle.std.specs.Prelude.{◌≡◌, List, ℕ, length};
ghost use Rattle.errors.specs.Refusal.{words_after};
ghost use Rattle.errors.specs.Answer.{read};
ghost use Rattle.errors.specs.Meaning.{outcome_of};
ghost use Rattle.blocks.specs.Read.{read_input, read_set, read_layout, read_values, read_run};
ghost use Rattle.reader_leaf.specs.Answer.{read_of};
ghost use Rattle.reader_calls.specs.Inputs.{asks, read_call, judge, passed, Least};

use errors::{Answer, Reason, Refusal, Unread};
use reader_leaf::ask;
use value::Value;

// 19, then 1 for an input.
#[tactic(auto, unfolding(crate::specs::Inputs::asks, errors::proofs::Compute::compute, blocks::specs::Read::small))]
pub fn asked(n: usize, s: &[u8]) -> Result<(), Unread>
    ensures { read_of result ≡ asks n s.now }
{
    ask(8192 <= n, Reason::TooFewWords, 0)?;
    ask(s.len() <= 65536, Reason::InputTooLong, 0)
}

// The reading of an input, of which nothing is kept.
fn read_through(s: &[u8], room: usize, kind: usize) -> Result<(), Unread>
    ensures { read_of result ≡ passed (read_input room kind s.now) }
{
    reader_quick::read_input(s, room, kind)?;
    Ok(())
}

// The questions of a call with one input.
pub fn one_read(n: usize, s: &[u8], room: usize, kind: usize) -> Result<(), Unread>
    ensures { read_of result ≡ passed (read_call (read_input room kind) n s.now) }
{
    asked(n, s)?;
    read_through(s, room, kind)
}

// The questions of a call with a layout and another input. 1 is asked of the other input first, which gives the same refusal.
pub fn both_read(n: usize, layout: &[u8], other: &[u8], kind: usize) -> Result<(), Unread>
    ensures { read_of result ≡ passed (judge n layout.now other.now kind) }
{
    asked(n, other)?;
    one_read(n, layout, 256, 160)?;
    read_through(other, 2, kind)
}

// The same, where those of the layout are answered.
pub fn other_read(
    n: usize,
    layout: Result<(), Unread>,
    input: &[u8],
    kind: usize,
) -> Result<(), Unread>
    ensures { (l : List ℕ) → read_of layout ≡ passed (read_call read_layout n l) → read_of result ≡ passed (judge n l input.now kind) }
{
    asked(n, input)?;
    layout?;
    read_through(input, 2, kind)
}

// How many of n working words a call uses that never needs more than `most`.
pub fn used(n: usize, most: usize) -> usize
    ensures { Least n most result }
{
    n.min(most)
}

// The call that reads an input of this kind, with so many blocks open together. An accepted reading has no count.
fn read_call(words: &mut [u64], s: &[u8], room: usize, kind: usize) -> Answer
    ensures result_value { outcome_of result ≡ read (read_call (read_input room kind) (length words.old) s.now) }
    ensures words_after { words.new ≡ words_after words.old }
{
    let n = words.len();
    wire::clear_words(words);
    one_read(n, s, room, kind)?;
    Ok(Value::of(0))
}

pub fn read_set(words: &mut [u64], set: &[u8]) -> Answer
    ensures result_value { outcome_of result ≡ read (read_call read_set (length words.old) set.now) }
    ensures words_after { words.new ≡ words_after words.old }
{
    read_call(words, set, 32, 36)
}

pub fn read_layout(words: &mut [u64], layout: &[u8]) -> Answer
    ensures result_value { outcome_of result ≡ read (read_call read_layout (length words.old) layout.now) }
    ensures words_after { words.new ≡ words_after words.old }
{
    read_call(words, layout, 256, 160)
}

pub fn read_values(words: &mut [u64], values: &[u8]) -> Answer
    ensures result_value { outcome_of result ≡ read (read_call read_values (length words.old) values.now) }
    ensures words_after { words.new ≡ words_after words.old }
{
    read_call(words, values, 2, 192)
}

pub fn read_run(words: &mut [u64], run: &[u8]) -> Answer
    ensures result_value { outcome_of result ≡ read (read_call read_run (length words.old) run.now) }
    ensures words_after { words.new ≡ words_after words.old }
{
    read_call(words, run, 2, 193)
}
