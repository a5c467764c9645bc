// builder.rs, `into_parameters` and `filter_jagged_element_parameters`: the parameters that a type lists.
#![tactic(auto)]

ghost use Rattle.std.specs.Prelude.{◌≡◌, false, not, ◌||◌, ◌+◌, ◌≤◌, ◌<◌, length, MatchOption};
ghost use Rattle.blocks.specs.Bytes.{le2};
ghost use Rattle.blocks.specs.Name.{same, among};
ghost use Rattle.blocks.specs.Tree.{Tree, cons, view};
ghost use Rattle.blocks.specs.Write.{write};
ghost use Rattle.accepted.specs.Accepted.{Accepted, tree};
ghost use Rattle.resolved.specs.Resolved.{kind_of, jagged_of, fields};
ghost use Rattle.resolved.specs.Set.{type_of, thing_of, fields_in};
ghost use Rattle.ir.specs.Layout.{parameter_tree, list_tree};
ghost use Rattle.builder.specs.Names.{replace_colons, split, before_element, or_else};
ghost use Rattle.builder.specs.Registry.{into_parameters};
ghost use Rattle.builder.specs.BuildType.{fields_of, has_jagged, is_jagged_element_parameter, filter_jagged_element_parameters};
ghost use Rattle.wire.specs.Poke.{Wrote};
ghost use Rattle.marks.specs.Table.{Linked};
ghost use Rattle.builder_registry.specs.Words.{entries_of, entry_name};
ghost use Rattle.builder_parameters.specs.Ready.{Ready, ReadyTable};
ghost use Rattle.std.proofs.Math.Option.{some, none};
ghost use Rattle.builder_parameters.specs.Listed.{name_in, names, lists, marks_of, Marking, Jagged, Asks};

// The name with `::` read as `.`, in a buffer with room for the name.
fn replace_colons<'a>(name: &[u8], out: &'a mut [u8]) -> &'a [u8]
    requires { (length name.now ≤ length out.old) × (length name.now < 65536) }
    ensures { result.now ≡ replace_colons name.now }
{
    let mut p = 0;
    let mut rest = name;
    while let Some((first, behind)) = rest.split_first() {
        match rest.strip_prefix(b"::") {
            Some(behind) => {
                p = wire::put_byte(out, p, b'.');
                rest = behind;
            }
            None => {
                p = wire::put_byte(out, p, *first);
                rest = behind;
            }
        }
    }
    &out[..p]
}

// The segment before the first segment `element`, if there is one.
fn before_element<'a>(name: &'a [u8]) -> Option<&'a [u8]>
    ensures { MatchOption result (before_element (split name.now) ≡ none) (λ r. before_element (split name.now) ≡ some r.now) }
{
    let mut before = None;
    for segment in name.split(|b| *b == b'.') {
        if wire::same_name(segment, b"element") {
            return before;
        }
        before = Some(segment);
    }
    None
}

// Whether a type is a jagged array.
fn is_jagged(s: &[u8], kind: usize) -> bool
    requires { Accepted s.now 1 7 kind }
    ensures { (a : Accepted s.now 1 7 kind) → result ≡ or_else false (jagged_of (kind_of (type_of (tree a)))) }
{
    wire::read2(s, kind + 4) == 5 && resolved_parts::array_parts(s, kind).jagged
}

// Whether a field is a jagged array of this name: what stands before the test of the fields behind it.
fn is_jagged_field(s: &[u8], at: usize, name: &[u8]) -> bool
    requires { Accepted s.now 33 33 at }
    ensures { (a : Accepted s.now 33 33 at) (u : Tree) → has_jagged name.now (fields (fields_in (view thing_of (cons (tree a) u)))) ≡ (result || has_jagged name.now (fields (fields_in (view thing_of u)))) }
{
    let field = resolved_parts::field_parts(s, at);
    wire::same_name(resolved_parts::name_at(s, at + 6), name) && is_jagged(s, field.kind)
}

// Whether a struct has a jagged array of this name.
fn has_jagged(s: &[u8], kind: usize, name: &[u8]) -> bool
    requires { Accepted s.now 1 7 kind × (le2 s.now (kind + 4) ≡ 2) }
    ensures { (a : Accepted s.now 1 7 kind) → result ≡ has_jagged name.now (fields_of (kind_of (type_of (tree a)))) }
{
    let list = resolved_parts::field_list(s, kind);
    let mut at = list.first;
    for _ in 0..list.count {
        if is_jagged_field(s, at, name) {
            return true;
        }
        at = at + 4 + wire::read4(s, at);
    }
    false
}

// Whether a type is a struct with a jagged array. If not, nothing is filtered. One function with `has_jagged` would be no plainer: its
// name would be an Option, to be asked at each field.
fn any_jagged(s: &[u8], kind: usize) -> bool
    requires { Accepted s.now 1 7 kind }
    ensures { Jagged s.now kind result }
{
    if wire::read2(s, kind + 4) != 2 {
        return false;
    }
    let list = resolved_parts::field_list(s, kind);
    let mut at = list.first;
    for _ in 0..list.count {
        let field = resolved_parts::field_parts(s, at);
        if is_jagged(s, field.kind) {
            return true;
        }
        at = at + 4 + wire::read4(s, at);
    }
    false
}

// An entry's name, in a buffer: it is written there behind its length.
fn name_of<'a>(s: &[u8], w: u64, buffer: &'a mut [u8; 520]) -> &'a [u8]
    requires { length s.now ≤ 65536 }
    ensures value { result.now ≡ entry_name s.now w }
    ensures upper_bound { length result.now ≤ 511 }
{
    let end = builder_registry::put_entry_name(s, w, buffer, 0);
    &buffer[2..end]
}

// Whether an entry's name is an element of a jagged array of the struct.
fn is_jagged_element(s: &[u8], w: u64, kind: usize) -> bool
    requires { (length s.now ≤ 65536) × Accepted s.now 1 7 kind × (le2 s.now (kind + 4) ≡ 2) }
    ensures { (x : Accepted s.now 1 7 kind) → result ≡ is_jagged_element_parameter (type_of (tree x)) (entry_name s.now w) }
{
    let mut a = [0u8; 520];
    let mut b = [0u8; 520];
    match before_element(replace_colons(name_of(s, w, &mut a), &mut b)) {
        Some(segment) => has_jagged(s, kind, segment),
        None => false,
    }
}

// Whether two entries have the same name: asked where their marks are alike.
fn same_names(s: &[u8], v: u64, w: u64) -> bool
    requires { length s.now ≤ 65536 }
    ensures { result ≡ same (entry_name s.now v) (entry_name s.now w) }
{
    let mut a = [0u8; 520];
    let mut b = [0u8; 520];
    wire::same_name(name_of(s, v, &mut a), name_of(s, w, &mut b))
}

// Whether none of the first i entries has the name of the entry at i: those are asked that may have its mark. The loop is the walk that
// `marks` describes, which goes by links and so is no `for`.
fn is_new(s: &[u8], words: &[u64], table: &[u64], i: usize, mark: u64) -> bool
    requires { Marking s.now words.now table.now i mark }
    ensures { result ≡ not (among (name_in s.now words.now i) (names s.now words.now i)) }
{
    let w = words[i];
    let mut j = marks::last(table, mark);
    while 0 < j {
        let k = j - 1;
        if same_names(s, w, words[k]) {
            return false;
        }
        j = marks::before(table, mark, j);
    }
    true
}

// What is listed: how many entries there are, the type, and whether it is a struct with a jagged array.
#[derive(Clone, Copy)]
struct Listing {
    n: usize,
    kind: usize,
    jagged: bool,
}

// Whether an entry is listed. It is linked behind the earlier ones.
fn is_listed(
    s: &[u8],
    words: &[u64],
    listing: Listing,
    i: usize,
    mark: u64,
    table: &mut [u64],
) -> bool
    requires { Asks s.now words.now table.old listing.kind listing.jagged i mark }
    ensures value { (x : Accepted s.now 1 7 listing.kind) → result ≡ lists (type_of (tree x)) s.now words.now i }
    ensures linked { Linked table.new (marks_of s.now words.now) (i + 1) }
{
    let new = is_new(s, words, table, i, mark);
    marks::link(table, i, mark);
    new && !(listing.jagged && is_jagged_element(s, words[i], listing.kind))
}

// The parameters of a type, behind their count, which is written last. The table is empty before.
fn put_listed(
    s: &[u8],
    words: &[u64],
    listing: Listing,
    table: &mut [u64],
    out: &mut [u8],
    at: usize,
) -> usize
    requires { ReadyTable s.now words.now table.old listing.n listing.kind listing.jagged at }
    ensures wrote { (a : Accepted s.now 1 7 listing.kind) → Wrote out.old at (write (list_tree parameter_tree (filter_jagged_element_parameters (type_of (tree a)) (into_parameters (entries_of s.now words.now listing.n))))) out.new result }
    ensures lower_bound { (at ≤ result) × (result ≤ at + 400000) }
{
    let mut known = None;
    let mut p = at + 2;
    let mut count = 0u64;
    for i in 0..listing.n {
        let w = words[i];
        let marked = builder_registry::mark_name(s, w, known);
        known = Some(marked);
        if is_listed(s, words, listing, i, marked.mark, table) {
            p = builder_registry::put_parameter(s, w, out, p);
            count += 1;
        }
    }
    wire::put_le(out, at, 2, count);
    p
}

// The parameters of the type at `kind`, behind their count. Few entries have a small table.
pub fn put_parameters(
    s: &[u8],
    words: &[u64],
    n: usize,
    kind: usize,
    out: &mut [u8],
    at: usize,
) -> usize
    requires { Ready s.now words.now n kind at }
    ensures wrote { (a : Accepted s.now 1 7 kind) → Wrote out.old at (write (list_tree parameter_tree (filter_jagged_element_parameters (type_of (tree a)) (into_parameters (entries_of s.now words.now n))))) out.new result }
    ensures lower_bound { (at ≤ result) × (result ≤ at + 400000) }
{
    let jagged = any_jagged(s, kind);
    let listing = Listing { n, kind, jagged };
    if n <= 64 {
        let mut table = [0u64; 191];
        return put_listed(s, words, listing, &mut table, out, at);
    }
    let mut table = [0u64; 639];
    put_listed(s, words, listing, &mut table, out, at)
}
