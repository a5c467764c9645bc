// The calls for C and Rust programs. A slice is passed as its first element's address and its length, an array by its address.
// The answer goes into the caller's four words: number (0 if accepted), place, offset, and value or count; where there are many,
// one behind the other.
#![tactic(auto)]

ghost use Rattle.std.specs.Prelude.{◌≡◌, ◌++◌, ◌*◌, length, drop};
ghost use Rattle.blocks.specs.Read.{read_set, read_layout, read_values, read_run};
ghost use Rattle.reader_calls.specs.Inputs.{read_call};
ghost use Rattle.interpreter.specs.Validate.{validate, validate_run};
ghost use Rattle.builder.specs.Build.{build_set, output_after};
ghost use Rattle.errors.specs.Refusal.{words_after};
ghost use Rattle.interpreter.specs.Runs.{validate_runs, given};
ghost use Rattle.errors.specs.Answer.{answer_words, all_answer_words, read, built};

use errors::Words;

// Whether a type set is read.
#[unsafe(no_mangle)]
pub extern "C" fn ciztarmo_read_set(words: &mut [u64], set: &[u8], answer: &mut [u64; 4])
    ensures answer_after { answer.new ≡ answer_words (read (read_call read_set (length words.old) set.now)) }
    ensures words_after { words.new ≡ words_after words.old }
{
    let a = reader_calls::read_set(words, set);
    *answer = a.words();
}

// Whether a layout is read.
#[unsafe(no_mangle)]
pub extern "C" fn ciztarmo_read_layout(words: &mut [u64], layout: &[u8], answer: &mut [u64; 4])
    ensures answer_after { answer.new ≡ answer_words (read (read_call read_layout (length words.old) layout.now)) }
    ensures words_after { words.new ≡ words_after words.old }
{
    let a = reader_calls::read_layout(words, layout);
    *answer = a.words();
}

// Whether values are read.
#[unsafe(no_mangle)]
pub extern "C" fn ciztarmo_read_values(words: &mut [u64], values: &[u8], answer: &mut [u64; 4])
    ensures answer_after { answer.new ≡ answer_words (read (read_call read_values (length words.old) values.now)) }
    ensures words_after { words.new ≡ words_after words.old }
{
    let a = reader_calls::read_values(words, values);
    *answer = a.words();
}

// Whether a run is read.
#[unsafe(no_mangle)]
pub extern "C" fn ciztarmo_read_run(words: &mut [u64], run: &[u8], answer: &mut [u64; 4])
    ensures answer_after { answer.new ≡ answer_words (read (read_call read_run (length words.old) run.now)) }
    ensures words_after { words.new ≡ words_after words.old }
{
    let a = reader_calls::read_run(words, run);
    *answer = a.words();
}

// The layout of a set's types, in set order, and its length.
#[unsafe(no_mangle)]
pub extern "C" fn ciztarmo_build_set(
    words: &mut [u64],
    set: &[u8],
    out: &mut [u8],
    answer: &mut [u64; 4],
)
    ensures answer_after { answer.new ≡ answer_words (built (build_set (length words.old) (length out.old) set.now)) }
    ensures out_after { out.new ≡ output_after out.old (build_set (length words.old) (length out.old) set.now) }
    ensures words_after { words.new ≡ words_after words.old }
{
    let a = builder_set::build_set(set, out, words);
    *answer = a.words();
}

// The same with no words of the caller: the call has those that it needs.
#[unsafe(no_mangle)]
pub extern "C" fn ciztarmo_layout_of(set: &[u8], out: &mut [u8], answer: &mut [u64; 4])
    ensures answer_after { answer.new ≡ answer_words (built (build_set 8192 (length out.old) set.now)) }
    ensures out_after { out.new ≡ output_after out.old (build_set 8192 (length out.old) set.now) }
{
    let a = builder_set::layout_of(set, out);
    *answer = a.words();
}

// The count of a type's bytes.
#[unsafe(no_mangle)]
pub extern "C" fn ciztarmo_validate(
    words: &mut [u64],
    layout: &[u8],
    name: &[u8],
    values: &[u8],
    len: u64,
    answer: &mut [u64; 4],
)
    ensures answer_after { answer.new ≡ answer_words (validate (length words.old) layout.now name.now values.now len) }
    ensures words_after { words.new ≡ words_after words.old }
{
    let a = interpreter_validate::validate(words, layout, name, values, len);
    *answer = a.words();
}

// The count of the bytes that a run asks for.
#[unsafe(no_mangle)]
pub extern "C" fn ciztarmo_validate_run(
    words: &mut [u64],
    layout: &[u8],
    run: &[u8],
    answer: &mut [u64; 4],
)
    ensures answer_after { answer.new ≡ answer_words (validate_run (length words.old) layout.now run.now) }
    ensures words_after { words.new ≡ words_after words.old }
{
    let a = interpreter_validate::validate_run(words, layout, run);
    *answer = a.words();
}

// The count of a type's bytes, with no words of the caller: the call has those that it needs.
#[unsafe(no_mangle)]
pub extern "C" fn ciztarmo_length_of(
    layout: &[u8],
    name: &[u8],
    values: &[u8],
    len: u64,
    answer: &mut [u64; 4],
)
    ensures { answer.new ≡ answer_words (validate 8192 layout.now name.now values.now len) }
{
    let a = interpreter_validate::length_of(layout, name, values, len);
    *answer = a.words();
}

// The count of the bytes that a run asks for, with no words of the caller.
#[unsafe(no_mangle)]
pub extern "C" fn ciztarmo_length_of_run(layout: &[u8], run: &[u8], answer: &mut [u64; 4])
    ensures { answer.new ≡ answer_words (validate_run 8192 layout.now run.now) }
{
    let a = interpreter_validate::length_of_run(layout, run);
    *answer = a.words();
}

// The counts of the bytes that runs, one behind the other, ask for, over one layout: how many runs have their answers in
// `answers`, four words each. Those from the first on have for which there is room.
#[unsafe(no_mangle)]
pub extern "C" fn ciztarmo_validate_runs(
    words: &mut [u64],
    layout: &[u8],
    runs: &[u8],
    answers: &mut [u64],
) -> usize
    ensures value { result ≡ length (given (length answers.old) (validate_runs (length words.old) layout.now runs.now)) }
    ensures answers_after { answers.new ≡ all_answer_words (given (length answers.old) (validate_runs (length words.old) layout.now runs.now)) ++ drop (4 * result) answers.old }
    ensures words_after { words.new ≡ words_after words.old }
{
    interpreter_runs::validate_runs(words, layout, runs, answers)
}
