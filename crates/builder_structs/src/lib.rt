// builder.rs, `build_variable_struct`.
// The set, the words, the output and the counts in them stay parameters: a count or the cursor is another at each call, and a struct of
// them that is made anew for each is no plainer.
#![tactic(auto)]

ghost use Rattle.std.specs.Prelude.{◌≡◌, true, List, ◌+◌, ◌*◌, ◌^◌, ◌≤◌, ◌<◌, IfOk};
ghost use Rattle.errors.specs.Refusal.{done};
ghost use Rattle.blocks.specs.Tree.{Tree};
ghost use Rattle.blocks.specs.Read.{read_set};
ghost use Rattle.accepted.specs.Accepted.{Accepted, Listed, tree, name_at};
ghost use Rattle.resolved.specs.Resolved.{Owner, ResolvedTypeKind, Fields, head, kind_of};
ghost use Rattle.resolved.specs.Set.{type_of, types_of};
ghost use Rattle.builder.specs.Registry.{extend_with};
ghost use Rattle.builder.specs.Nodes.{build_field_refs, build_variable_field, build_field, build_variable_struct};
ghost use Rattle.resolved_parts.specs.Types.{PathsAt, owners_of, texts_of, offset_of};
ghost use Rattle.builder_registry.specs.Words.{Standing, Kept, entries_of};
ghost use Rattle.builder_nodes.specs.Built.{Builds, Within};
ghost use Rattle.builder_calls.specs.Ready.{Ready};
ghost use Rattle.builder_structs.specs.Fold.{summed};
ghost use Rattle.builder_structs.specs.Next.{pad_size, prefix_end, end_of, state_of, state_at, fields_of, next, nodes_of, count_of};
ghost use Rattle.builder_structs.specs.Field.{inner, with_align, sum_of, payload_of, EntersOwn};
ghost use Rattle.builder_structs.specs.Ready.{ReadyInner, ReadyArray, ReadyPaths, ReadyField, ReadyEnum, ReadyNext, ReadySum, Ran, Goes};

use builder_expressions::Nested;
use builder_nodes::Built;
use errors::Reason;
use resolved_parts::ListParts;

// A field: where the struct's references, the field's name and its type stand.
#[derive(Clone, Copy)]
struct Member {
    references: usize,
    name: usize,
    kind: usize,
}

// What is left of a struct: how many entries the registry has, the next field and how many are left, the end of the prefix,
// and whether that field's padding is made.
#[derive(Clone, Copy)]
pub struct Rest {
    pub count: usize,
    pub field: usize,
    pub left: usize,
    pub end: u64,
    pub half: bool,
}

// The next cursor, and what is left behind it.
#[derive(Clone, Copy)]
pub struct Run {
    pub at: usize,
    pub rest: Rest,
}

// A type's own references: how many entries there are then.
fn enter_own(s: &[u8], words: &mut [u64], n: usize, kind: usize) -> Result<usize, Reason>
    requires { Standing s.now words.old n × Accepted s.now 1 7 kind }
    ensures count_bound { IfOk result (λ k. k ≤ 512) }
    ensures kept { (a : Accepted s.now 1 7 kind) → Kept s.now words.new result (extend_with (head (type_of (tree a))).dynamic_params (entries_of s.now words.old n)) }
{
    let references = resolved_parts::type_head(s, kind).references;
    builder_registry::extend_with(s, words, n, references)
}

// What was built of a field, then its type's own references: "a field's own references enter after its node".
fn enter_behind(s: &[u8], words: &mut [u64], kind: usize, node: Built) -> Result<Built, Reason>
    requires { Standing s.now words.old node.count × Accepted s.now 1 7 kind }
    ensures at_value { IfOk result (λ b. (b.at ≡ node.at) × (b.count ≤ 512)) }
    ensures enters_own { (a : Accepted s.now 1 7 kind) → EntersOwn s.now words.old node (head (type_of (tree a))) words.new result }
{
    let count = enter_own(s, words, node.count, kind)?;
    Ok(Built { at: node.at, count })
}

// The sum of a field's paths.
fn put_sum(
    s: &[u8],
    words: &mut [u64],
    n: usize,
    f: Member,
    paths: usize,
    out: &mut [u8],
    at: usize,
) -> Result<Built, Reason>
    requires { ReadyPaths s.now words.old n f.name f.kind paths at }
    ensures within { IfOk result (Within at (2 ^ 28)) }
    ensures builds { (p : PathsAt s.now paths) (a : Accepted s.now 1 7 f.kind) → Builds s.now out.old at words.new out.new result (sum_of (name_at s.now f.name) (head (type_of (tree a))) (texts_of p.list.got.0) (entries_of s.now words.old n)) }
{
    let owner = resolved_parts::name_at(s, f.name);
    let node = builder_sums::sum_refs(s, words, n, owner, false, paths, out, at)?;
    enter_behind(s, words, f.kind, node)
}

// A field whose sum is that of the struct's references for it.
fn field_refs(
    s: &[u8],
    words: &mut [u64],
    n: usize,
    f: Member,
    out: &mut [u8],
    at: usize,
) -> Result<Built, Reason>
    requires { ReadyField s.now words.old n f.references f.name f.kind at }
    ensures within { IfOk result (Within at (2 ^ 28)) }
    ensures builds { (b : Accepted s.now 32 32 f.references) (a : Accepted s.now 1 7 f.kind) → Builds s.now out.old at words.new out.new result (build_field_refs (owners_of (tree b)) (name_at s.now f.name) (head (type_of (tree a))) (entries_of s.now words.old n)) }
{
    let owner = resolved_parts::name_at(s, f.name);
    match resolved_parts::get(s, f.references, owner) {
        Some(paths) => put_sum(s, words, n, f, paths, out, at),
        None => Err(Reason::MissingDynamicRefs),
    }
}

// The sum of the paths that end in `.payload_size`, aligned.
fn put_payload(
    s: &[u8],
    words: &[u64],
    n: usize,
    f: Member,
    paths: usize,
    out: &mut [u8],
    at: usize,
) -> Result<Built, Reason>
    requires { ReadyPaths s.now words.now n f.name f.kind paths at }
    ensures within { IfOk result (Within at (2 ^ 28)) }
    ensures builds { (p : PathsAt s.now paths) (a : Accepted s.now 1 7 f.kind) → Builds s.now out.old at words.now out.new result (payload_of (name_at s.now f.name) (head (type_of (tree a))) (texts_of p.list.got.0) (entries_of s.now words.now n)) }
{
    let owner = resolved_parts::name_at(s, f.name);
    let alignment = resolved_parts::type_head(s, f.kind).alignment;
    let p = builder_nodes::open_align(out, at, alignment);
    let node = builder_sums::sum_refs(s, words, n, owner, true, paths, out, p)?;
    wire::close_block(out, at, node.at);
    Ok(node)
}

// The node inside the AlignUp node of a field: the switch of an enum or of a size-discriminated union, behind which its own
// references enter, or the call of a type reference, which enters none.
fn inner_node(
    s: &[u8],
    words: &mut [u64],
    n: usize,
    kind: usize,
    out: &mut [u8],
    at: usize,
) -> Result<Built, Reason>
    requires { ReadyInner s.now words.old n kind at }
    ensures within { IfOk result (Within at (2 ^ 27)) }
    ensures builds { (t : Tree) (a : Accepted s.now 1 7 kind) → read_set s.now ≡ done t → Builds s.now out.old at words.new out.new result (inner (types_of t) (head (type_of (tree a))) (kind_of (type_of (tree a))) (entries_of s.now words.old n)) }
{
    match wire::read2(s, kind + 4) {
        // an enum
        4 => {
            let node = builder_switches::build_enum_node(s, words, n, kind, out, at)?;
            enter_behind(s, words, kind, node)
        }
        // a size-discriminated union
        6 => {
            let node = builder_switches::build_size_discriminated_union_node(
                s, words, n, kind, out, at,
            )?;
            enter_behind(s, words, kind, node)
        }
        // a type reference
        _ => builder_calls::build_typeref_node(s, words, n, kind, out, at),
    }
}

// That node, aligned.
fn field_aligned(
    s: &[u8],
    words: &mut [u64],
    n: usize,
    kind: usize,
    out: &mut [u8],
    at: usize,
) -> Result<Built, Reason>
    requires { ReadyInner s.now words.old n kind (at + 23) }
    ensures within { IfOk result (Within at (2 ^ 28)) }
    ensures builds { (t : Tree) (a : Accepted s.now 1 7 kind) → read_set s.now ≡ done t → Builds s.now out.old at words.new out.new result (with_align (head (type_of (tree a))).alignment (inner (types_of t) (head (type_of (tree a))) (kind_of (type_of (tree a)))) (entries_of s.now words.old n)) }
{
    let alignment = resolved_parts::type_head(s, kind).alignment;
    let p = builder_nodes::open_align(out, at, alignment);
    let node = inner_node(s, words, n, kind, out, p)?;
    wire::close_block(out, at, node.at);
    Ok(node)
}

// An enum: its payload, where the struct's references for it have one, else a switch.
fn field_enum(
    s: &[u8],
    words: &mut [u64],
    n: usize,
    f: Member,
    out: &mut [u8],
    at: usize,
) -> Result<Built, Reason>
    requires { ReadyEnum s.now words.old n f.references f.name f.kind at }
    ensures within { IfOk result (Within at (2 ^ 28)) }
    ensures builds { (t : Tree) (b : Accepted s.now 32 32 f.references) (a : Accepted s.now 1 7 f.kind) → read_set s.now ≡ done t → Builds s.now out.old at words.new out.new result (build_variable_field (types_of t) (owners_of (tree b)) (name_at s.now f.name) (head (type_of (tree a))) (kind_of (type_of (tree a))) (entries_of s.now words.old n)) }
{
    let owner = resolved_parts::name_at(s, f.name);
    match resolved_parts::get(s, f.references, owner) {
        Some(paths) if builder_sums::has_payload(s, paths) => {
            put_payload(s, words, n, f, paths, out, at)
        }
        _ => field_aligned(s, words, n, f.kind, out, at),
    }
}

// An array, under the field's name.
fn field_array(
    s: &[u8],
    words: &mut [u64],
    n: usize,
    f: Member,
    out: &mut [u8],
    at: usize,
) -> Result<Built, Reason>
    requires { ReadyArray s.now words.old n f.name f.kind at }
    ensures within { IfOk result (Within at (2 ^ 28)) }
    ensures builds { (t : Tree) (refs : List Owner) (a : Accepted s.now 1 7 f.kind) → read_set s.now ≡ done t → Builds s.now out.old at words.new out.new result (build_variable_field (types_of t) refs (name_at s.now f.name) (head (type_of (tree a))) (kind_of (type_of (tree a))) (entries_of s.now words.old n)) }
{
    let owner = resolved_parts::name_at(s, f.name);
    let array = Nested {
        offset: f.kind,
        depth: 0,
    };
    let node = builder_arrays::build_array_node_with_prefix(s, words, n, owner, array, out, at)?;
    enter_behind(s, words, f.kind, node)
}

// A field of variable size, by the kind of its type. Kinds stay the format's numbers: each is matched where it is read, and goes no further.
fn variable_field(
    s: &[u8],
    words: &mut [u64],
    n: usize,
    f: Member,
    out: &mut [u8],
    at: usize,
) -> Result<Built, Reason>
    requires { ReadyField s.now words.old n f.references f.name f.kind at }
    ensures within { IfOk result (Within at (2 ^ 28)) }
    ensures builds { (t : Tree) (b : Accepted s.now 32 32 f.references) (a : Accepted s.now 1 7 f.kind) → read_set s.now ≡ done t → Builds s.now out.old at words.new out.new result (build_variable_field (types_of t) (owners_of (tree b)) (name_at s.now f.name) (head (type_of (tree a))) (kind_of (type_of (tree a))) (entries_of s.now words.old n)) }
{
    match wire::read2(s, f.kind + 4) {
        // a primitive type, a struct, a union
        0..=3 => field_refs(s, words, n, f, out, at),
        // an enum
        4 => field_enum(s, words, n, f, out, at),
        // an array
        5 => field_array(s, words, n, f, out, at),
        // a size-discriminated union, a type reference
        _ => field_aligned(s, words, n, f.kind, out, at),
    }
}

// A field: of constant size it is a constant.
fn build_field(
    s: &[u8],
    words: &mut [u64],
    n: usize,
    f: Member,
    out: &mut [u8],
    at: usize,
) -> Result<Built, Reason>
    requires { ReadyField s.now words.old n f.references f.name f.kind at }
    ensures within { IfOk result (Within at (2 ^ 28)) }
    ensures builds { (t : Tree) (b : Accepted s.now 32 32 f.references) (a : Accepted s.now 1 7 f.kind) → read_set s.now ≡ done t → Builds s.now out.old at words.new out.new result (build_field (types_of t) (owners_of (tree b)) (name_at s.now f.name) (head (type_of (tree a))).size (head (type_of (tree a))) (kind_of (type_of (tree a))) (entries_of s.now words.old n)) }
{
    let t = resolved_parts::type_head(s, f.kind);
    let Some(size) = t.size else {
        return variable_field(s, words, n, f, out, at);
    };
    let count = enter_own(s, words, n, f.kind)?;
    let end = builder_nodes::put_const_or_zero(out, at, size, t.alignment);
    Ok(Built { at: end, count })
}

// How much padding stands before a field: 0 where there is none.
fn padding(offset: Option<u64>, end: u64) -> u64
    ensures { result ≡ pad_size end (offset_of offset) }
{
    match offset {
        Some(place) => place.saturating_sub(end),
        None => 0,
    }
}

// The end of the prefix behind a field, unless it is 2^64 or more: only a constant field with an offset moves it, back too.
fn prefix_after(s: &[u8], kind: usize, offset: Option<u64>, end: u64) -> Option<u64>
    requires { Accepted s.now 1 7 kind }
    ensures { (a : Accepted s.now 1 7 kind) → result ≡ end_of (prefix_end end (offset_of offset) (head (type_of (tree a))).size) }
{
    let Some(place) = offset else {
        return Some(end);
    };
    match resolved_parts::type_head(s, kind).size {
        Some(size) => place.checked_add(size),
        None => Some(end),
    }
}

// The node of the next field, whose padding is made.
fn field_node(
    s: &[u8],
    words: &mut [u64],
    references: usize,
    from: Rest,
    out: &mut [u8],
    at: usize,
) -> Result<Run, Reason>
    requires { ReadyNext s.now words.old references from at × (0 < from.left) }
    ensures goes { IfOk result (Goes s.now at (2 ^ 28)) }
    ensures ran { (t : Tree) (b : Accepted s.now 32 32 references) (l : Listed s.now 33 33 from.left from.field) → read_set s.now ≡ done t → Ran s.now out.old at words.new out.new result (next (types_of t) (owners_of (tree b)) (state_of (entries_of s.now words.old from.count) (fields_of l.got.0) from.end true)) }
{
    let field = from.field;
    let p = resolved_parts::field_parts(s, field);
    let end = prefix_after(s, p.kind, p.offset, from.end).ok_or(Reason::OffsetTooLarge)?;
    let f = Member {
        references,
        name: field + 6,
        kind: p.kind,
    };
    let node = build_field(s, words, from.count, f, out, at)?;
    let rest = Rest {
        count: node.count,
        field: field + 4 + wire::read4(s, field),
        left: from.left - 1,
        end,
        half: false,
    };
    Ok(Run { at: node.at, rest })
}

// The next node: the padding before a field, or the field.
fn child(
    s: &[u8],
    words: &mut [u64],
    references: usize,
    from: Rest,
    out: &mut [u8],
    at: usize,
) -> Result<Run, Reason>
    requires { ReadyNext s.now words.old references from at }
    ensures goes { IfOk result (Goes s.now at (2 ^ 28)) }
    ensures ran { (t : Tree) (b : Accepted s.now 32 32 references) (l : Listed s.now 33 33 from.left from.field) → read_set s.now ≡ done t → Ran s.now out.old at words.new out.new result (next (types_of t) (owners_of (tree b)) (state_at s.now words.old from l)) }
{
    if from.left == 0 {
        return Err(Reason::MissingDynamicRefs);
    }
    let f = resolved_parts::field_parts(s, from.field);
    let pad = padding(f.offset, from.end);
    if from.half || pad == 0 {
        return field_node(s, words, references, from, out, at);
    }
    let end = builder_nodes::put_const_or_zero(out, at, pad, 1);
    let rest = Rest { half: true, ..from };
    Ok(Run { at: end, rest })
}

// The sum of the next `k` nodes: that of the first, then the last.
fn sum(
    s: &[u8],
    words: &mut [u64],
    references: usize,
    from: Rest,
    k: usize,
    out: &mut [u8],
    at: usize,
) -> Result<Run, Reason>
    requires { ReadySum s.now words.old references from k at }
    ensures goes { IfOk result (Goes s.now at (2 ^ 29 * k)) }
    ensures ran { (t : Tree) (b : Accepted s.now 32 32 references) (l : Listed s.now 33 33 from.left from.field) → read_set s.now ≡ done t → Ran s.now out.old at words.new out.new result (summed (next (types_of t) (owners_of (tree b))) k (state_at s.now words.old from l)) }
{
    if k == 1 {
        return child(s, words, references, from, out, at);
    }
    let p = builder_nodes::open_add(out, at);
    let before = sum(s, words, references, from, k - 1, out, p)?;
    let last = child(s, words, references, before.rest, out, before.at)?;
    wire::close_block(out, at, last.at);
    Ok(last)
}

// How many nodes a field makes.
fn nodes_of(offset: Option<u64>, end: u64) -> usize
    ensures { (result ≤ 2) × (result ≡ nodes_of end (offset_of offset) 0) }
{
    if padding(offset, end) == 0 { 1 } else { 2 }
}

// How many nodes the fields make, as far as the end of the prefix stays below 2^64.
fn count_nodes(s: &[u8], list: ListParts) -> usize
    requires { Listed s.now 33 33 list.count list.first × (list.count ≤ 64) }
    ensures upper_bound { result ≤ 128 }
    ensures value { (l : Listed s.now 33 33 list.count list.first) → result ≡ count_of 0 (fields_of l.got.0) }
{
    let mut at = list.first;
    let mut so_far = 0;
    let mut n = 0;
    for _ in 0..list.count {
        let f = resolved_parts::field_parts(s, at);
        n += nodes_of(f.offset, so_far);
        let Some(after) = prefix_after(s, f.kind, f.offset, so_far) else {
            return n;
        };
        so_far = after;
        at = at + 4 + wire::read4(s, at);
    }
    n
}

// The sum of the fields and of the padding before them, aligned.
pub fn build_variable_struct(
    s: &[u8],
    words: &mut [u64],
    n: usize,
    kind: usize,
    out: &mut [u8],
    at: usize,
) -> Result<Built, Reason>
    requires ready { Ready s.now words.old n 2 kind at }
    requires at_bound { at < 2 ^ 55 }
    ensures within { IfOk result (Within at (2 ^ 40)) }
    ensures builds { (t : Tree) (a : Accepted s.now 1 7 kind) (fs : Fields) → read_set s.now ≡ done t → kind_of (type_of (tree a)) ≡ ResolvedTypeKind.Struct fs → Builds s.now out.old at words.new out.new result (build_variable_struct (types_of t) (head (type_of (tree a))) fs (entries_of s.now words.old n)) }
{
    let h = resolved_parts::type_head(s, kind);
    let list = resolved_parts::field_list(s, kind);
    let k = count_nodes(s, list);
    if k == 0 {
        return Err(Reason::MissingDynamicRefs);
    }
    let p = builder_nodes::open_align(out, at, h.alignment);
    let from = Rest {
        count: n,
        field: list.first,
        left: list.count,
        end: 0,
        half: false,
    };
    let last = sum(s, words, h.references, from, k, out, p)?;
    wire::close_block(out, at, last.at);
    Ok(Built {
        at: last.at,
        count: last.rest.count,
    })
}
