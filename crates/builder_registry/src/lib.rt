// builder.rs, `ParameterRegistry`, in working words.
#![tactic(auto)]

ghost use Rattle.std.specs.Prelude.{◌≡◌, true, false, List, ◌++◌, ℕ, ◌+◌, ◌^◌, ◌≤◌, ◌<◌, length, get_or, IfOk, IfSome};
ghost use Rattle.std.proofs.Math.Option.{some};
ghost use Rattle.blocks.specs.Name.{same, among};
ghost use Rattle.blocks.specs.Tree.{name};
ghost use Rattle.blocks.specs.Write.{write};
ghost use Rattle.accepted.specs.Accepted.{Accepted, tree};
ghost use Rattle.resolved_parts.specs.Types.{owners_of, texts_of, PathsAt};
ghost use Rattle.ir.specs.Layout.{parameter_tree, list_tree, entries_tree, optional_tree};
ghost use Rattle.wire.specs.Poke.{Wrote};
ghost use Rattle.marks.specs.Mark.{mark_of};
ghost use Rattle.builder.specs.Names.{qualify_parent_path, normalize_path};
ghost use Rattle.builder.specs.Registry.{enter, ensure, ensure_all, extend_with, lookup_name, owner_parameters, add_synthetic, mark_derived, keyed_by, entry_of as path_entry};
ghost use Rattle.builder.specs.Nodes.{lookup_qualified};
ghost use Rattle.builder_registry.specs.Word.{owner_at, path_at, made_of, derived_of, word_of, derived_word};
ghost use Rattle.builder_registry.specs.Words.{Indexed, Sought, Marked, Linking, AliasIs, owner_mark, alias_mark, alias_in, Standing, Kept, Tags, Looked, held, made_parameter, made_entry, entry_of, entries_of, entry_name};
ghost use Rattle.builder_registry.specs.Texts.{made_path, made_end, made_text, describing};
ghost use Rattle.builder_registry.specs.Place.{place_of, found_at, found_in, if_owned};
ghost use Rattle.builder_registry.specs.NameMarks.{OwnerMarked};

use errors::Reason;

// How many working words the registry and its index take.
pub const WORDS: usize = 1663;

// A parameter that the builder makes under an owner.
#[derive(Clone, Copy, PartialEq, Eq)]
pub enum Made {
    ComputedTag,
    Variant,
    PayloadSize,
}

// The entry whose name is meant, and how many entries the registry has.
#[derive(Clone, Copy)]
pub struct Tagged {
    pub at: usize,
    pub count: usize,
}

// What is searched for: among how many entries, the mark of the key, and the offset of the owner's name, where one is known.
#[derive(Clone, Copy)]
struct Search {
    count: usize,
    mark: u64,
    owner: Option<usize>,
}

// An owner: the offset of its name, and its mark.
#[derive(Clone, Copy)]
pub struct Owner {
    pub at: usize,
    pub mark: u64,
}

// By what an entry is linked: the mark of its owner, and that of its first key.
#[derive(Clone, Copy)]
struct Marks {
    owner: u64,
    key: u64,
}

// The name at an offset; empty where it does not lie inside the bytes, or is longer than any name of a set.
#[tactic(auto, using(crate::proofs::Keys::helds))]
fn held_at<'a>(s: &'a [u8], at: usize) -> &'a [u8]
    requires { at < 65536 }
    ensures result_value { result.now ≡ held s.now at }
    ensures result_len_bound { length result.now ≤ 255 }
{
    let from = at + 2;
    if s.len() < from {
        return &s[..0];
    }
    let n = wire::read2(s, at);
    let to = from + n;
    if s.len() < to {
        return &s[..0];
    }
    if 255 < n {
        return &s[..0];
    }
    &s[from..to]
}

// The mark of an owner, from which the marks of its keys start.
fn mark_of(owner: &[u8]) -> u64
    ensures { result ≡ owner_mark owner.now }
{
    marks::mark(marks::mark(0, owner), b"\0")
}

// The owner whose name stands at an offset, marked once for all its paths.
pub fn marked_owner(s: &[u8], at: usize) -> Owner
    requires { at < 65536 }
    ensures at_value { result.at ≡ at }
    ensures mark_value { result.mark ≡ owner_mark (held s.now at) }
{
    let mark = mark_of(held_at(s, at));
    Owner { at, mark }
}

// The fields of a word. No other function knows where a field stands in it.

// The offset of the owner's name.
#[tactic(auto, unfolding(crate::specs::Word::owner_at))]
fn owner_at(w: u64) -> usize
    ensures value { result ≡ owner_at w }
    ensures upper_bound { result < 65536 }
{
    (w % 65536) as usize
}

// The offset of the path's name.
#[tactic(auto, unfolding(crate::specs::Word::path_at))]
fn path_at(w: u64) -> usize
    ensures value { result ≡ path_at w }
    ensures upper_bound { result < 65536 }
{
    (w / 65536 % 65536) as usize
}

// Which made parameter it is, if no path was entered.
#[tactic(auto, unfolding(crate::specs::Word::made_of, crate::specs::Word::made_at))]
fn made_of(w: u64) -> Option<Made>
    ensures { result ≡ made_of w }
{
    match w / 4294967296 % 4 {
        0 => None,
        1 => Some(Made::ComputedTag),
        2 => Some(Made::Variant),
        _ => Some(Made::PayloadSize),
    }
}

// Whether it is derived.
#[tactic(auto, unfolding(crate::specs::Word::derived_of))]
fn is_derived(w: u64) -> bool
    ensures { result ≡ derived_of w }
{
    w / 17179869184 % 2 == 1
}

// The word of these fields, not derived.
#[tactic(auto, unfolding(crate::specs::Word::word_of))]
fn pack(owner: usize, path: usize, made: Option<Made>) -> u64
    requires { (owner < 65536) × (path < 65536) }
    ensures { result ≡ word_of owner path made }
{
    let code = match made {
        None => 0,
        Some(Made::ComputedTag) => 1,
        Some(Made::Variant) => 2,
        Some(Made::PayloadSize) => 3,
    };
    owner as u64 + 65536 * path as u64 + 4294967296 * code
}

// A word that is not derived, made a derived one.
#[tactic(auto, using(crate::proofs::Word::even), unfolding(crate::specs::Word::derived_word))]
fn derived_word(w: u64) -> u64
    requires { derived_of w ≡ false }
    ensures { result ≡ derived_word w }
{
    w + 17179869184
}

// The name of an entry's owner.
fn owner_of<'a>(s: &'a [u8], w: u64) -> &'a [u8]
    ensures result_value { result.now ≡ held s.now (owner_at w) }
    ensures result_len_bound { length result.now ≤ 255 }
{
    held_at(s, owner_at(w))
}

// The path of an entry that is no made one.
fn path_of<'a>(s: &'a [u8], w: u64) -> &'a [u8]
    ensures result_value { result.now ≡ held s.now (path_at w) }
    ensures result_len_bound { length result.now ≤ 255 }
{
    held_at(s, path_at(w))
}

impl Made {
    // Its path under an owner.
    fn path(self) -> &'static [u8]
        ensures { result.now ≡ made_path self }
    {
        match self {
            Made::ComputedTag => b"__computed_tag",
            Made::Variant => b"__variant",
            Made::PayloadSize => b"__payload_size",
        }
    }

    // What its name has behind the owner's.
    fn end(self) -> &'static [u8]
        ensures { result.now ≡ made_end self }
    {
        match self {
            Made::ComputedTag => b".computed_tag",
            Made::Variant => b".variant",
            Made::PayloadSize => b".payload_size",
        }
    }

    // Its description.
    fn description(self) -> &'static [u8]
        ensures { result.now ≡ made_text self }
    {
        match self {
            Made::ComputedTag => b"Computed enum tag expression",
            Made::Variant => b"Active union variant selector",
            Made::PayloadSize =>
                b"Runtime payload size (bytes) selecting size-discriminated variant",
        }
    }
}

// A key is given in two parts, one behind the other; the first is empty but where a path is qualified by the owner's parent.

// Whether a key is one of an entered path's: its normal path, or its alias. An alias stands behind `::`, so a path that has none
// before an end of the key's length is not searched for one.
#[tactic(auto, using(crate::proofs::Keys::entered_keys))]
fn path_has(owner: &[u8], entered: &[u8], head: &[u8], rest: &[u8]) -> bool
    ensures { result ≡ among (head.now ++ rest.now) (path_entry owner.now entered.now).keys }
{
    let normal = builder_names::normalize_path(owner, entered);
    if builder_names::same_behind(head, rest, normal) {
        return true;
    }
    if !builder_names::colons_before(entered, head, rest) {
        return false;
    }
    let a = builder_names::alias(entered, normal);
    if a.len() == 0 {
        return false;
    }
    builder_names::same_behind(head, rest, a)
}

// Whether it is that of a made parameter.
fn made_has(owner: &[u8], made: Made, head: &[u8], rest: &[u8]) -> bool
    ensures { result ≡ same (head.now ++ rest.now) (normalize_path owner.now (made_path made)) }
{
    builder_names::same_behind(
        head,
        rest,
        builder_names::normalize_path(owner, made.path()),
    )
}

// Whether the name at an offset is the owner's, where `mine` says it of the offset `known`, if that is one: most entries have the
// owner of the entry before them.
fn is_owner(s: &[u8], at: usize, known: Option<usize>, mine: bool, owner: &[u8]) -> bool
    requires { (at < 65536) × IfSome known (λ k. mine ≡ same owner.now (held s.now k)) }
    ensures { result ≡ same owner.now (held s.now at) }
{
    if known == Some(at) {
        return mine;
    }
    wire::same_name(owner, held_at(s, at))
}

// Whether an entry is the owner's, which is known, and has the key.
#[tactic(auto, using(crate::proofs::Keys::word_keys))]
fn has_key(s: &[u8], w: u64, mine: bool, owner: &[u8], head: &[u8], rest: &[u8]) -> bool
    requires { mine ≡ same owner.now (held s.now (owner_at w)) }
    ensures { result ≡ keyed_by owner.now (head.now ++ rest.now) (entry_of s.now w) }
{
    if !mine {
        return false;
    }
    match made_of(w) {
        None => path_has(owner, path_of(s, w), head, rest),
        Some(made) => made_has(owner, made, head, rest),
    }
}

// Whether an entry is the owner's and has the key; the owner's name stands at the offset `known`, if that is one.
fn is_keyed(s: &[u8], w: u64, known: Option<usize>, owner: &[u8], head: &[u8], rest: &[u8]) -> bool
    requires { IfSome known (λ k. true ≡ same owner.now (held s.now k)) }
    ensures { result ≡ keyed_by owner.now (head.now ++ rest.now) (entry_of s.now w) }
{
    let mine = is_owner(s, owner_at(w), known, true, owner);
    has_key(s, w, mine, owner, head, rest)
}

// The place of the first entry of the owner that has the key. Of the entries that may have it by their mark, from the last to the
// first, the earliest that has it is kept.
fn place(
    s: &[u8],
    words: &[u64],
    search: Search,
    owner: &[u8],
    head: &[u8],
    rest: &[u8],
) -> Option<usize>
    requires { Standing s.now words.now search.count × Sought s.now search.mark search.owner owner.now (head.now ++ rest.now) }
    ensures value { result ≡ found_at owner.now (head.now ++ rest.now) (entries_of s.now words.now search.count) }
    ensures upper_bound { IfSome result (λ i. i < search.count) }
{
    let entries = &words[..search.count];
    let table = &words[512..];
    let mut found = None;
    let mut j = marks::last(table, search.mark);
    while 0 < j {
        let e = (j - 1) / 2;
        if is_keyed(s, entries[e], search.owner, owner, head, rest) {
            found = Some(e);
        }
        j = marks::before(table, search.mark, j);
    }
    found
}

// The entry that names a path under an owner: the first that has the path's key.
pub fn lookup_name(s: &[u8], words: &[u64], n: usize, owner: &[u8], path: &[u8]) -> Option<usize>
    requires { Standing s.now words.now n }
    ensures looked { Looked s.now words.now n result (lookup_name owner.now path.now (entries_of s.now words.now n)) }
    ensures value { result ≡ found_in owner.now (some path.now) (entries_of s.now words.now n) }
{
    let key = builder_names::normalize_path(owner, path);
    let mark = marks::mark(mark_of(owner), key);
    let search = Search {
        count: n,
        mark,
        owner: None,
    };
    place(s, words, search, owner, b"", key)
}

// The same for the path qualified by the owner's parent.
pub fn lookup_qualified(
    s: &[u8],
    words: &[u64],
    n: usize,
    owner: &[u8],
    path: &[u8],
) -> Option<usize>
    requires { Standing s.now words.now n }
    ensures looked { Looked s.now words.now n result (lookup_qualified owner.now (qualify_parent_path owner.now path.now) (entries_of s.now words.now n)) }
    ensures value { result ≡ found_in owner.now (qualify_parent_path owner.now path.now) (entries_of s.now words.now n) }
{
    let key = builder_names::qualified_key(owner, path)?;
    let mark = marks::mark(marks::mark(mark_of(owner), key.head), key.rest);
    let search = Search {
        count: n,
        mark,
        owner: None,
    };
    place(s, words, search, owner, key.head, key.rest)
}

// The index of no entries.
pub fn begin(words: &mut [u64])
    requires { 1663 ≤ length words.old }
    ensures { (s : List ℕ) → Indexed s words.new 0 }
{
    marks::clear(&mut words[512..]);
}

// How many bytes an entry's name has.
#[tactic(auto, using(crate::proofs::Names::name_lengths))]
pub fn name_length(s: &[u8], w: u64) -> usize
    requires { length s.now ≤ 65536 }
    ensures value { result ≡ length (entry_name s.now w) }
    ensures upper_bound { result ≤ 511 }
{
    let o = owner_of(s, w);
    match made_of(w) {
        None => builder_names::canonical_length(o, path_of(s, w)),
        Some(made) => o.len() + made.end().len(),
    }
}

// The mark of the alias of a word's entry, behind n entries: left out where it has none, or one of these has it.
fn alias_mark(s: &[u8], words: &[u64], n: usize, w: u64, owner: u64) -> Option<u64>
    requires { Standing s.now words.now n × (owner ≡ owner_mark (held s.now (owner_at w))) }
    ensures { AliasIs (alias_mark (entries_of s.now words.now n) (held s.now (owner_at w)) (alias_in s.now w)) result }
{
    if made_of(w).is_some() {
        return None;
    }
    let at = owner_at(w);
    let o = held_at(s, at);
    let p = path_of(s, w);
    let a = builder_names::alias(p, builder_names::normalize_path(o, p));
    if a.len() == 0 {
        return None;
    }
    let mark = marks::mark(owner, a);
    let search = Search {
        count: n,
        mark,
        owner: Some(at),
    };
    if place(s, words, search, o, b"", a).is_some() {
        return None;
    }
    Some(mark)
}

// Entry n is linked by the marks of its keys; its alias may be left out.
fn link(words: &mut [u64], n: usize, key: u64, alias: Option<u64>)
    requires { (1663 ≤ length words.old) × (n < 512) }
    ensures { Linking words.old n key alias words.new }
{
    let table = &mut words[512..];
    let k = 2 * n;
    marks::link(table, k, key);
    if let Some(mark) = alias {
        marks::link(table, k + 1, mark);
    }
}

// A new entry, if its name is short and there is room.
fn enter(s: &[u8], words: &mut [u64], n: usize, w: u64, by: Marks) -> Result<usize, Reason>
    requires { Standing s.now words.old n × Marked s.now w by.owner by.key }
    ensures count_bound { IfOk result (λ k. k ≤ 512) }
    ensures kept { Kept s.now words.new result (enter (entry_of s.now w) (entries_of s.now words.old n)) }
    ensures count_value { IfOk result (λ k. (k ≡ n + 1) × (get_or words.new n 0 ≡ w)) }
{
    if 255 < name_length(s, w) {
        return Err(Reason::LimitExceeded);
    }
    if 512 <= n {
        return Err(Reason::LimitExceeded);
    }
    let alias = alias_mark(s, words, n, w, by.owner);
    words[n] = w;
    link(words, n, by.key, alias);
    Ok(n + 1)
}

// A path of an owner, whose name stands at an offset, entered if its key is new: how many entries there are then.
pub fn ensure(
    s: &[u8],
    words: &mut [u64],
    n: usize,
    owner: Owner,
    path: usize,
) -> Result<usize, Reason>
    requires { Standing s.now words.old n × (owner.at < 65536) × (owner.mark ≡ owner_mark (held s.now owner.at)) × (path < 65536) }
    ensures count_bound { IfOk result (λ k. k ≤ 512) }
    ensures kept { Kept s.now words.new result (ensure (held s.now owner.at) (held s.now path) (entries_of s.now words.old n)) }
{
    let at = owner.at;
    let o = held_at(s, at);
    let p = held_at(s, path);
    let key = builder_names::normalize_path(o, p);
    let mark = marks::mark(owner.mark, key);
    let search = Search {
        count: n,
        mark,
        owner: Some(at),
    };
    if place(s, words, search, o, b"", key).is_some() {
        return Ok(n);
    }
    let by = Marks {
        owner: owner.mark,
        key: mark,
    };
    enter(s, words, n, pack(at, path, None), by)
}

// Every path of the owner whose name stands at an offset. The paths stand behind their count.
fn ensure_all(
    s: &[u8],
    words: &mut [u64],
    n: usize,
    owner: usize,
    paths: usize,
) -> Result<usize, Reason>
    requires { Standing s.now words.old n × (owner < 65536) × PathsAt s.now paths }
    ensures count_bound { IfOk result (λ k. k ≤ 512) }
    ensures kept { (p : PathsAt s.now paths) → Kept s.now words.new result (ensure_all (held s.now owner) (texts_of p.list.got.0) (entries_of s.now words.old n)) }
{
    let marked = marked_owner(s, owner);
    let mut at = paths + 2;
    let mut count = n;
    for _ in 0..wire::read2(s, paths) {
        count = ensure(s, words, count, marked, at)?;
        at = resolved_parts::next_name(s, at);
    }
    Ok(count)
}

// Every path of every owner of a references block: how many entries there are then.
pub fn extend_with(
    s: &[u8],
    words: &mut [u64],
    n: usize,
    references: usize,
) -> Result<usize, Reason>
    requires { Standing s.now words.old n × Accepted s.now 32 32 references }
    ensures count_bound { IfOk result (λ k. k ≤ 512) }
    ensures kept { (a : Accepted s.now 32 32 references) → Kept s.now words.new result (extend_with (owners_of (tree a)) (entries_of s.now words.old n)) }
{
    let mut at = references + 6 + 2;
    let mut count = n;
    for _ in 0..wire::read2(s, references + 6) {
        let paths = resolved_parts::owner_paths(s, at);
        count = ensure_all(s, words, count, at + 6, paths)?;
        at = at + 4 + wire::read4(s, at);
    }
    Ok(count)
}

// The word of a made parameter; a computed tag is derived.
#[tactic(auto, using(crate::proofs::Changes::made_words))]
fn made_word(owner: usize, made: Made) -> u64
    requires { owner < 65536 }
    ensures { (s : List ℕ) → entry_of s result ≡ made_entry made (held s owner) }
{
    let w = pack(owner, 0, Some(made));
    if made == Made::ComputedTag {
        return derived_word(w);
    }
    w
}

// A parameter that the builder makes, under the owner whose name stands at this offset. The entry that is meant is the first that
// has its key, or the new one.
pub fn add_synthetic(
    s: &[u8],
    words: &mut [u64],
    n: usize,
    owner: usize,
    made: Made,
) -> Result<Tagged, Reason>
    requires { Standing s.now words.old n × (owner < 65536) }
    ensures count_bound { IfOk result (λ t. t.count ≤ 512) }
    ensures tags { Tags s.now words.new result (add_synthetic (held s.now owner) (made_path made) (made_parameter made (held s.now owner)) (entries_of s.now words.old n)) }
    ensures at_value { IfOk result (λ t. t.at ≡ place_of (held s.now owner) (normalize_path (held s.now owner) (made_path made)) (entries_of s.now words.old n)) }
{
    let o = held_at(s, owner);
    let key = builder_names::normalize_path(o, made.path());
    let owner_mark = mark_of(o);
    let mark = marks::mark(owner_mark, key);
    let search = Search {
        count: n,
        mark,
        owner: Some(owner),
    };
    if let Some(at) = place(s, words, search, o, b"", key) {
        return Ok(Tagged { at, count: n });
    }
    let by = Marks {
        owner: owner_mark,
        key: mark,
    };
    let count = enter(s, words, n, made_word(owner, made), by)?;
    Ok(Tagged { at: n, count })
}

// The entry that has the path's key becomes a derived one. The index stays.
pub fn mark_derived(s: &[u8], words: &mut [u64], n: usize, owner: &[u8], path: &[u8])
    requires { Standing s.now words.old n }
    ensures n_after { entries_of s.now words.new n ≡ mark_derived owner.now path.now (entries_of s.now words.old n) }
    ensures indexed { Indexed s.now words.new n }
{
    if let Some(i) = lookup_name(s, words, n, owner, path) {
        let w = words[i];
        if !is_derived(w) {
            words[i] = derived_word(w);
        }
    }
}

// An entry's name, written as a name.
pub fn put_entry_name(s: &[u8], w: u64, out: &mut [u8], at: usize) -> usize
    requires { (length s.now ≤ 65536) × (at < 2 ^ 59) }
    ensures wrote { Wrote out.old at (write (name (entry_name s.now w))) out.new result }
    ensures lower_bound { (at ≤ result) × (result ≤ at + 513) }
{
    let o = owner_of(s, w);
    match made_of(w) {
        None => builder_names::put_canonical_name(out, at, o, path_of(s, w)),
        Some(made) => {
            let p = wire::put_le(out, at, 2, name_length(s, w) as u64);
            let q = wire::put_from(out, p, o, 0);
            wire::put_from(out, q, made.end(), 0)
        }
    }
}

// The description of an entry, behind its flag.
fn put_description(out: &mut [u8], at: usize, made: Option<Made>) -> usize
    requires { at < 2 ^ 59 }
    ensures wrote { Wrote out.old at (write (optional_tree name (describing made))) out.new result }
    ensures lower_bound { (at ≤ result) × (result ≤ at + 83) }
{
    match made {
        None => wire::put_flag(out, at, false),
        Some(made) => {
            let p = wire::put_flag(out, at, true);
            wire::put_name(out, p, made.description())
        }
    }
}

// An entry's parameter, as a block 162.
pub fn put_parameter(s: &[u8], w: u64, out: &mut [u8], at: usize) -> usize
    requires { (length s.now ≤ 65536) × (at < 2 ^ 58) }
    ensures wrote { Wrote out.old at (write (parameter_tree (entry_of s.now w).parameter)) out.new result }
    ensures lower_bound { (at ≤ result) × (result ≤ at + 700) }
{
    let p = wire::open_block(out, at, 162);
    let q = put_entry_name(s, w, out, p);
    let u = put_description(out, q, made_of(w));
    let e = wire::put_flag(out, u, is_derived(w));
    wire::close_block(out, at, e);
    e
}

// The mark of an entry's name. With it go the offset of its owner's name, and that name's mark, from which it starts: mostly the
// next entry has the same owner. At an offset of 65,536 or more nothing is known.
#[derive(Clone, Copy)]
pub struct NameMark {
    pub mark: u64,
    pub owner: usize,
    pub start: u64,
}

// The mark of the owner's name at an offset, which may be known.
#[tactic(auto, using(crate::proofs::NameMarks::known_mark))]
fn mark_owner(s: &[u8], at: usize, known: Option<NameMark>) -> u64
    requires { (at < 65536) × IfSome known (OwnerMarked s.now) }
    ensures { result ≡ mark_of 0 (held s.now at) }
{
    if let Some(k) = known {
        if at == k.owner {
            return k.start;
        }
    }
    marks::mark(0, held_at(s, at))
}

// The mark of an entry's name, where the mark of the entry before it may be known.
#[tactic(auto, using(crate::proofs::NameMarks::name_marks))]
pub fn mark_name(s: &[u8], w: u64, known: Option<NameMark>) -> NameMark
    requires { IfSome known (OwnerMarked s.now) }
    ensures mark_value { result.mark ≡ mark_of 0 (entry_name s.now w) }
    ensures start_value { result.start ≡ mark_of 0 (held s.now result.owner) }
    ensures owner_marked { OwnerMarked s.now result }
{
    let owner = owner_at(w);
    let start = mark_owner(s, owner, known);
    let mark = match made_of(w) {
        None => builder_names::canonical_mark(start, held_at(s, owner), path_of(s, w)),
        Some(made) => marks::mark(start, made.end()),
    };
    NameMark { mark, owner, start }
}

// Where the parameters of an owner that were written end, and how many they are.
#[derive(Clone, Copy)]
struct Listed {
    end: usize,
    count: u64,
}

// An entry's parameter behind those written before, if it is the owner's.
fn put_one(s: &[u8], w: u64, mine: bool, out: &mut [u8], listed: Listed) -> Listed
    requires { (length s.now ≤ 65536) × (listed.end < 2 ^ 58) × (listed.count < 512) }
    ensures wrote { Wrote out.old listed.end (write (entries_tree parameter_tree (if_owned mine (entry_of s.now w)))) out.new result.end }
    ensures count_value { result.count ≡ listed.count + length (if_owned mine (entry_of s.now w)) }
    ensures end_le_end { (listed.end ≤ result.end) × (result.end ≤ listed.end + 700) × (result.count ≤ listed.count + 1) }
{
    if mine {
        let end = put_parameter(s, w, out, listed.end);
        let count = listed.count + 1;
        return Listed { end, count };
    }
    listed
}

// The parameters of an owner, and how many they are.
fn put_owned(s: &[u8], words: &[u64], n: usize, owner: &[u8], out: &mut [u8], at: usize) -> Listed
    requires { Standing s.now words.now n × (at < 2 ^ 57 + 2) }
    ensures wrote { Wrote out.old at (write (entries_tree parameter_tree (owner_parameters owner.now (entries_of s.now words.now n)))) out.new result.end }
    ensures count_value { result.count ≡ length (owner_parameters owner.now (entries_of s.now words.now n)) }
    ensures at_le_end { (at ≤ result.end) × (result.end ≤ at + 358400) }
{
    let mut known = None;
    let mut mine = false;
    let mut listed = Listed { end: at, count: 0 };
    for i in 0..n {
        let w = words[i];
        let o = owner_at(w);
        mine = is_owner(s, o, known, mine, owner);
        known = Some(o);
        listed = put_one(s, w, mine, out, listed);
    }
    listed
}

// The parameters of an owner, behind their count, which is written last.
pub fn put_owner_parameters(
    s: &[u8],
    words: &[u64],
    n: usize,
    owner: &[u8],
    out: &mut [u8],
    at: usize,
) -> usize
    requires { Standing s.now words.now n × (at < 2 ^ 57) }
    ensures wrote { Wrote out.old at (write (list_tree parameter_tree (owner_parameters owner.now (entries_of s.now words.now n)))) out.new result }
    ensures lower_bound { (at ≤ result) × (result ≤ at + 400000) }
{
    let listed = put_owned(s, words, n, owner, out, at + 2);
    wire::put_le(out, at, 2, listed.count);
    listed.end
}
