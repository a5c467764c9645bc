// builder.rs, enums, unions and size-discriminated unions: one switch over alternatives.
#![tactic(auto)]

ghost use Rattle.std.specs.Prelude.{◌≡◌, List, ◌+◌, ◌*◌, ◌^◌, ◌≤◌, IfOk, get_or};
ghost use Rattle.blocks.specs.Bytes.{le2, name_at};
ghost use Rattle.blocks.specs.Name.{Name};
ghost use Rattle.accepted.specs.Accepted.{Accepted, tree, Listed};
ghost use Rattle.expr.specs.Expr.{ExprKind, expr_of};
ghost use Rattle.resolved.specs.Resolved.{ResolvedTypeKind, Fields, Variants, head, kind_of};
ghost use Rattle.resolved.specs.Set.{type_of};
ghost use Rattle.builder.specs.Names.{join};
ghost use Rattle.builder.specs.Nodes.{mark_all, field_refs, tag_lookup, enum_tag_parameter, build_alternative, build_cases, build_switch, build_enum_node, build_union_node, build_size_discriminated_union_node};
ghost use Rattle.resolved_parts.specs.Types.{owners_of, sized};
ghost use Rattle.builder_registry.specs.Words.{Indexed, Looked, Tags, entries_of, entry_name};
ghost use Rattle.builder_nodes.specs.Built.{Builds, Within};
ghost use Rattle.builder_switches.specs.Cases.{block_of, alternatives, AltAt, Cases, CaseAt, Marking, Tagging, Choosing, Casing, Listed_cases, Switching};
ghost use Rattle.builder_switches.specs.Ready.{Ready};

use builder_nodes::Built;
use builder_registry::{Made, Tagged};
use errors::Reason;

// What the alternatives are: the fields of a union, the variants of an enum, those of a size-discriminated union.
#[derive(Clone, Copy)]
enum Kind {
    Union,
    Enum,
    Sized,
}

// A variant: where its name stands, its tag, its constant size (None where the size is variable), and the alignment.
#[derive(Clone, Copy)]
pub struct Choice {
    pub name: usize,
    pub tag: u64,
    pub size: Option<u64>,
    pub alignment: u64,
}

// An alternative: its kind, where its block stands, and its place in the list.
#[derive(Clone, Copy)]
struct Place {
    kind: Kind,
    block: usize,
    index: usize,
}

// A list of alternatives: their kind, how many there are, and where the first stands.
#[derive(Clone, Copy)]
struct Alternatives {
    kind: Kind,
    count: usize,
    first: usize,
}

// The entry of a field reference's path (65) is marked; without a segment there is none.
fn mark_path(s: &[u8], words: &mut [u64], n: usize, owner: &[u8], e: usize)
    requires { Marking s.now words.old n owner.now e × (le2 s.now (e + 4) ≡ 65) }
    ensures n_after { (a : Accepted s.now 64 91 e) → entries_of s.now words.new n ≡ mark_all owner.now (field_refs (expr_of (tree a))) (entries_of s.now words.old n) }
    ensures indexed { Indexed s.now words.new n }
{
    if builder_paths::no_segments(s, e) {
        return;
    }
    let m = builder_paths::joined_length(s, e, 0);
    if 511 < m {
        return;
    }
    let mut path = [0u8; 512];
    builder_paths::put_joined(s, e, 0, &mut path);
    builder_registry::mark_derived(s, words, n, owner, &path[..m]);
}

// `mark_expression_field_refs`; comparisons (83 to 91) are not walked.
fn mark_expression_field_refs(s: &[u8], words: &mut [u64], n: usize, owner: &[u8], e: usize)
    requires { Marking s.now words.old n owner.now e }
    ensures n_after { (a : Accepted s.now 64 91 e) → entries_of s.now words.new n ≡ mark_all owner.now (field_refs (expr_of (tree a))) (entries_of s.now words.old n) }
    ensures indexed { Indexed s.now words.new n }
{
    let k = wire::read2(s, e + 4);
    match k {
        65 => mark_path(s, words, n, owner, e),
        68..=78 => {
            mark_expression_field_refs(s, words, n, owner, e + 6);
            let u = wire::read4(s, e + 6);
            mark_expression_field_refs(s, words, n, owner, e + 10 + u);
        }
        79..=82 => mark_expression_field_refs(s, words, n, owner, e + 6),
        _ => {}
    }
}

// The entry of a field reference's path (65), found under the owner or under its parent.
fn tag_lookup(s: &[u8], words: &[u64], n: usize, owner: &[u8], e: usize) -> Option<usize>
    requires { Marking s.now words.now n owner.now e × (le2 s.now (e + 4) ≡ 65) }
    ensures { (a : Accepted s.now 64 91 e) (path : List Name) → expr_of (tree a) ≡ ExprKind.FieldRef path → Looked s.now words.now n result (tag_lookup owner.now (join path) (entries_of s.now words.now n)) }
{
    let m = builder_paths::joined_length(s, e, 0);
    if 511 < m {
        return None;
    }
    let mut path = [0u8; 512];
    builder_paths::put_joined(s, e, 0, &mut path);
    // no `or_else`: what its closure returns has no name in a proof
    match builder_registry::lookup_name(s, words, n, owner, &path[..m]) {
        Some(i) => Some(i),
        None => builder_registry::lookup_qualified(s, words, n, owner, &path[..m]),
    }
}

// `enum_tag_parameter`
fn enum_tag_parameter(
    s: &[u8],
    words: &mut [u64],
    n: usize,
    kind: usize,
    e: usize,
) -> Result<Tagged, Reason>
    requires { Tagging s.now words.old n kind e }
    ensures count_bound { IfOk result (λ t. t.count ≤ 512) }
    ensures tags { (a : Accepted s.now 64 91 e) → Tags s.now words.new result (enum_tag_parameter (name_at s.now (kind + 6)) (expr_of (tree a)) (entries_of s.now words.old n)) }
{
    let owner = resolved_parts::name_at(s, kind + 6);
    if wire::read2(s, e + 4) == 65 {
        let at = tag_lookup(s, words, n, owner, e).ok_or(Reason::MissingParameter)?;
        return Ok(Tagged { at, count: n });
    }
    mark_expression_field_refs(s, words, n, owner, e);
    builder_registry::add_synthetic(s, words, n, kind + 6, Made::ComputedTag)
}

// The variant that an alternative is.
fn alternative(s: &[u8], place: Place) -> Choice
    requires { Accepted s.now (block_of place.kind) (block_of place.kind) place.block }
    ensures { (c : Accepted s.now (block_of place.kind) (block_of place.kind) place.block) → AltAt place.kind c place.index result }
{
    let name = place.block + 6;
    match place.kind {
        Kind::Union => {
            let f = resolved_parts::field_parts(s, place.block);
            let h = resolved_parts::type_head(s, f.kind);
            Choice {
                name,
                tag: place.index as u64,
                size: h.size,
                alignment: h.alignment,
            }
        }
        Kind::Enum => {
            let v = resolved_parts::variant_parts(s, place.block, 34);
            let h = resolved_parts::type_head(s, v.kind);
            Choice {
                name,
                tag: v.number,
                size: h.size,
                alignment: h.alignment,
            }
        }
        Kind::Sized => {
            let v = resolved_parts::variant_parts(s, place.block, 35);
            let h = resolved_parts::type_head(s, v.kind);
            Choice {
                name,
                tag: v.number,
                size: Some(v.number),
                alignment: h.alignment,
            }
        }
    }
}

// The node of an alternative.
fn put_node(
    s: &[u8],
    words: &[u64],
    n: usize,
    references: usize,
    x: Choice,
    out: &mut [u8],
    at: usize,
) -> Result<Built, Reason>
    requires { Choosing s.now words.now n references x.name at }
    ensures within { IfOk result (Within at 131095) }
    ensures builds { (a : Accepted s.now 32 32 references) → Builds s.now out.old at words.now out.new result (build_alternative (owners_of (tree a)) (name_at s.now x.name) (sized x.size) x.alignment (entries_of s.now words.now n)) }
{
    match x.size {
        Some(size) => {
            let p = builder_nodes::put_const_or_zero(out, at, size, x.alignment);
            Ok(Built { at: p, count: n })
        }
        None => {
            let name = resolved_parts::name_at(s, x.name);
            let paths = resolved_parts::get(s, references, name).ok_or(Reason::MissingDynamicRefs)?;
            let p = builder_nodes::open_align(out, at, x.alignment);
            let sum = builder_sums::sum_refs(s, words, n, name, false, paths, out, p)?;
            wire::close_block(out, at, sum.at);
            Ok(sum)
        }
    }
}

// The case of an alternative.
fn put_case(
    s: &[u8],
    words: &[u64],
    n: usize,
    references: usize,
    place: Place,
    out: &mut [u8],
    at: usize,
) -> Result<Built, Reason>
    requires { Casing s.now words.now n references place.kind place.block at }
    ensures within { IfOk result (Within at 540000) }
    ensures case_at { (c : Accepted s.now (block_of place.kind) (block_of place.kind) place.block) (a : Accepted s.now 32 32 references) → CaseAt place.kind c place.index out.old at words.now out.new result (owners_of (tree a)) (entries_of s.now words.now n) }
{
    let x = alternative(s, place);
    let name = resolved_parts::name_at(s, x.name);
    let b = wire::open_block(out, at, 163);
    let p = wire::put_le(out, b, 8, x.tag);
    let node = put_node(s, words, n, references, x, out, p)?;
    let u = builder_registry::put_owner_parameters(s, words, node.count, name, out, node.at);
    wire::close_block(out, at, u);
    Ok(Built {
        at: u,
        count: node.count,
    })
}

// The cases of a list of alternatives.
fn put_cases(
    s: &[u8],
    words: &[u64],
    n: usize,
    references: usize,
    list: Alternatives,
    out: &mut [u8],
    at: usize,
) -> Result<Built, Reason>
    requires { Listed_cases s.now words.now n references list.kind list.count list.first at }
    ensures within { IfOk result (Within at (540000 * list.count)) }
    ensures cases { (l : Listed s.now (block_of list.kind) (block_of list.kind) list.count list.first) (a : Accepted s.now 32 32 references) → Cases s.now out.old at words.now out.new list.count result (build_cases (owners_of (tree a)) (alternatives list.kind 0 l.got.0) (entries_of s.now words.now n)) }
{
    let mut block = list.first;
    let mut built = Built { at, count: n };
    for index in 0..list.count {
        let place = Place {
            kind: list.kind,
            block,
            index,
        };
        built = put_case(s, words, built.count, references, place, out, built.at)?;
        block = block + 4 + wire::read4(s, block);
    }
    Ok(built)
}

// The switch over the alternatives of a type, by its tag.
fn put_switch(
    s: &[u8],
    words: &[u64],
    kind: usize,
    tag: Tagged,
    list: Alternatives,
    out: &mut [u8],
    at: usize,
) -> Result<Built, Reason>
    requires { Switching s.now words.now kind tag list.kind list.count list.first at }
    ensures within { IfOk result (Within at (2 ^ 27)) }
    ensures builds { (a : Accepted s.now 1 7 kind) (l : Listed s.now (block_of list.kind) (block_of list.kind) list.count list.first) → Builds s.now out.old at words.now out.new result (build_switch (head (type_of (tree a))) (entry_name s.now (get_or words.now tag.at 0)) (alternatives list.kind 0 l.got.0) (entries_of s.now words.now tag.count)) }
{
    let h = resolved_parts::type_head(s, kind);
    let b = builder_nodes::open_node(out, at, 132, h.alignment);
    let c = builder_nodes::put_entry_part(s, words[tag.at], out, b, 132, 2);
    let d = builder_nodes::put_count_part(out, c, 132, 3, list.count);
    let cases = put_cases(s, words, tag.count, h.references, list, out, d)?;
    let u = builder_nodes::put_no_node(out, cases.at, 132, 4);
    wire::close_block(out, at, u);
    Ok(Built {
        at: u,
        count: cases.count,
    })
}

// The three below share their first and last calls alone: one function of them would take the tag and the list as parameters, no plainer.

// An enum: its tag is found, found under its parent, or made.
pub fn build_enum_node(
    s: &[u8],
    words: &mut [u64],
    n: usize,
    kind: usize,
    out: &mut [u8],
    at: usize,
) -> Result<Built, Reason>
    requires { Ready s.now words.old n 4 kind at }
    ensures within { IfOk result (Within at (2 ^ 27)) }
    ensures builds { (a : Accepted s.now 1 7 kind) (e : ExprKind) (vs : Variants) → kind_of (type_of (tree a)) ≡ ResolvedTypeKind.Enum e vs → Builds s.now out.old at words.new out.new result (build_enum_node (head (type_of (tree a))) e vs (entries_of s.now words.old n)) }
{
    let h = resolved_parts::type_head(s, kind);
    let count = builder_registry::extend_with(s, words, n, h.references)?;
    let p = resolved_parts::enum_parts(s, kind);
    let tag = enum_tag_parameter(s, words, count, kind, p.tag)?;
    let variants = Alternatives {
        kind: Kind::Enum,
        count: p.count,
        first: p.first,
    };
    put_switch(s, words, kind, tag, variants, out, at)
}

// A union: the tag of a variant is its place.
pub fn build_union_node(
    s: &[u8],
    words: &mut [u64],
    n: usize,
    kind: usize,
    out: &mut [u8],
    at: usize,
) -> Result<Built, Reason>
    requires { Ready s.now words.old n 3 kind at }
    ensures within { IfOk result (Within at (2 ^ 27)) }
    ensures builds { (a : Accepted s.now 1 7 kind) (fs : Fields) → kind_of (type_of (tree a)) ≡ ResolvedTypeKind.Union fs → Builds s.now out.old at words.new out.new result (build_union_node (head (type_of (tree a))) fs (entries_of s.now words.old n)) }
{
    let h = resolved_parts::type_head(s, kind);
    let count = builder_registry::extend_with(s, words, n, h.references)?;
    let p = resolved_parts::field_list(s, kind);
    let tag = builder_registry::add_synthetic(s, words, count, kind + 6, Made::Variant)?;
    let fields = Alternatives {
        kind: Kind::Union,
        count: p.count,
        first: p.first,
    };
    put_switch(s, words, kind, tag, fields, out, at)
}

// A size-discriminated union: tag and size of a variant are its expected size.
pub fn build_size_discriminated_union_node(
    s: &[u8],
    words: &mut [u64],
    n: usize,
    kind: usize,
    out: &mut [u8],
    at: usize,
) -> Result<Built, Reason>
    requires { Ready s.now words.old n 6 kind at }
    ensures within { IfOk result (Within at (2 ^ 27)) }
    ensures builds { (a : Accepted s.now 1 7 kind) (vs : Variants) → kind_of (type_of (tree a)) ≡ ResolvedTypeKind.SizeDiscriminatedUnion vs → Builds s.now out.old at words.new out.new result (build_size_discriminated_union_node (head (type_of (tree a))) vs (entries_of s.now words.old n)) }
{
    let h = resolved_parts::type_head(s, kind);
    let count = builder_registry::extend_with(s, words, n, h.references)?;
    let p = resolved_parts::sized_list(s, kind);
    if p.count == 0 {
        return Err(Reason::UnsupportedSize);
    }
    let tag = builder_registry::add_synthetic(s, words, count, kind + 6, Made::PayloadSize)?;
    let list = Alternatives {
        kind: Kind::Sized,
        count: p.count,
        first: p.first,
    };
    put_switch(s, words, kind, tag, list, out, at)
}
