// The call that builds every type of a set, in set order. Whatever is answered, the working words are zero after; a refusal
// leaves the output all zeros.
#![tactic(auto)]

ghost use Rattle.std.specs.Prelude.{◌≡◌, ◌+◌, ◌^◌, ◌≤◌, ◌<◌, length, IfOk};
ghost use Rattle.errors.specs.Refusal.{done, words_after};
ghost use Rattle.errors.specs.Answer.{built};
ghost use Rattle.errors.specs.Meaning.{number_of, refusal_of, length_of};
ghost use Rattle.answers.specs.Answers.{refusal_in};
ghost use Rattle.blocks.specs.Tree.{Tree};
ghost use Rattle.blocks.specs.Read.{read_set};
ghost use Rattle.resolved.specs.Set.{types_of};
ghost use Rattle.builder.specs.Build.{build_types, build_set, output_after};
ghost use Rattle.builder_set.specs.Sets.{Ready, BuildsTypes, holds_at, layout_of, Leaves};

use errors::{Length, Reason, Refusal};
use value::Value;

// A refusal of the type at a place.
fn of_type(place: usize, reason: Reason) -> Refusal
    ensures { refusal_of result ≡ refusal_in place (number_of reason) }
{
    Refusal {
        reason,
        place,
        offset: 0,
        value: Value::of(0),
    }
}

// The type trees of an accepted set, one behind the other: the cursor behind them.
fn build_types(s: &[u8], words: &mut [u64], out: &mut [u8], at: usize) -> Result<usize, Refusal>
    requires { Ready s.now words.old × (at < 2 ^ 54) }
    ensures at_le_at { IfOk result (λ end. (at ≤ end) × (end ≤ at + 2 ^ 50)) }
    ensures builds_types { (t : Tree) → read_set s.now ≡ done t → BuildsTypes out.old at out.new result (build_types (types_of t) 0 (types_of t)) }
{
    let mut from = 8;
    let mut p = at;
    for place in 0..wire::read2(s, 6) {
        match builder_type::build_type(s, words, from, out, p) {
            Ok(end) => p = end,
            Err(reason) => return Err(of_type(place, reason)),
        }
        from += 4 + wire::read4(s, from);
    }
    Ok(p)
}

// 18, after all types have built: whether the output and 65,536 both hold the layout, and it is read.
fn holds(out: &[u8], n: usize) -> bool
    ensures { result ≡ holds_at out.now n }
{
    if out.len() < n || 65536 < n {
        return false;
    }
    reader_quick::read_input(&out[..n], 256, 160).is_ok()
}

// The layout of an accepted set, at the start of the output.
fn build_layout(s: &[u8], words: &mut [u64], out: &mut [u8]) -> Length
    requires { Ready s.now words.old }
    ensures { (t : Tree) → read_set s.now ≡ done t → Leaves out.old out.new result (layout_of (length out.old) t) }
{
    let p = wire::open_block(out, 0, 160);
    let q = wire::put_le(out, p, 2, wire::read2(s, 6) as u64);
    let end = build_types(s, words, out, q)?;
    wire::close_block(out, 0, end);
    if holds(out, end) {
        Ok(end)
    } else {
        Err(Refusal::plain(Reason::OutputTooSmall))
    }
}

// The questions of a call with n working words, of which those for the registry are lent; then the layout.
fn built(n: usize, set: &[u8], out: &mut [u8], words: &mut [u64]) -> Length
    requires { 8192 ≤ n → 1663 ≤ length words.old }
    ensures { Leaves out.old out.new result (build_set n (length out.old) set.now) }
{
    reader_calls::one_read(n, set, 32, 36)?;
    build_layout(set, words, out)
}

// The same, and a refusal leaves the output all zeros.
fn settled(n: usize, set: &[u8], out: &mut [u8], words: &mut [u64]) -> Length
    requires { 8192 ≤ n → 1663 ≤ length words.old }
    ensures result_value { length_of result ≡ built (build_set n (length out.old) set.now) }
    ensures out_after { out.new ≡ output_after out.old (build_set n (length out.old) set.now) }
{
    let a = built(n, set, out, words);
    if a.is_err() {
        wire::clear_bytes(out);
    }
    a
}

// Builds every type of a set in set order: the layout at the start of the output, bytes behind it stay.
pub fn build_set(set: &[u8], out: &mut [u8], words: &mut [u64]) -> Length
    ensures result_value { length_of result ≡ built (build_set (length words.old) (length out.old) set.now) }
    ensures out_after { out.new ≡ output_after out.old (build_set (length words.old) (length out.old) set.now) }
    ensures words_after { words.new ≡ words_after words.old }
{
    let n = words.len();
    wire::clear_words(words);
    let registry = &mut words[..n.min(builder_registry::WORDS)];
    let a = settled(n, set, out, registry);
    wire::clear_words(registry);
    a
}

// The same with working words of its own, as many as the registry and its index take: the caller gives none, so that 19 is never
// answered and no word has to be cleared.
pub fn layout_of(set: &[u8], out: &mut [u8]) -> Length
    ensures result_value { length_of result ≡ built (build_set 8192 (length out.old) set.now) }
    ensures out_after { out.new ≡ output_after out.old (build_set 8192 (length out.old) set.now) }
{
    let mut registry = [0u64; builder_registry::WORDS];
    settled(8192, set, out, &mut registry)
}
