// The parts of the accepted types of a set.
// Each takes the set and an offset, not a struct that holds both: a caller has offsets, and would write the struct at every call.
#![tactic(auto)]

ghost use Rattle.std.specs.Prelude.{◌≡◌, ◌+◌, ◌≤◌, length};
ghost use Rattle.blocks.specs.Bytes.{le2};
ghost use Rattle.accepted.specs.Accepted.{Accepted, tree, name_at};
ghost use Rattle.resolved_parts.specs.Places.{name_end, alignment_at, head_end};
ghost use Rattle.resolved_parts.specs.Types.{Named, HeadAt, ArrayAt, EnumAt, FieldsAt, SizedAt, TargetAt, FieldAt, VariantAt, OwnerAt, PathsFound, paths_in, owners_of};

// What every type begins with: its constant size (None where the size is variable), the alignment, and the offset of its
// references block. Its name stands 6 bytes behind the type's start.
#[derive(Clone, Copy)]
pub struct TypeHead {
    pub size: Option<u64>,
    pub alignment: u64,
    pub references: usize,
}

// The jagged flag, and the offsets of the element type and of the size expression.
#[derive(Clone, Copy)]
pub struct ArrayParts {
    pub jagged: bool,
    pub element: usize,
    pub size: usize,
}

// The offset of the tag expression; how many variants, and the offset of the first.
#[derive(Clone, Copy)]
pub struct EnumParts {
    pub tag: usize,
    pub count: usize,
    pub first: usize,
}

// How many fields or variants, and the offset of the first.
#[derive(Clone, Copy)]
pub struct ListParts {
    pub count: usize,
    pub first: usize,
}

// The offset of a field, if it has one, and where its type stands. Its name stands 6 bytes behind its start.
#[derive(Clone, Copy)]
pub struct FieldParts {
    pub offset: Option<u64>,
    pub kind: usize,
}

// The tag or the expected size of a variant, and where its type stands. Its name stands 6 bytes behind its start.
#[derive(Clone, Copy)]
pub struct VariantParts {
    pub number: u64,
    pub kind: usize,
}

// The name at an offset, a part of the set: `wire::name_at`, but it asks for what the answers here say of names.
pub fn name_at<'a>(s: &'a [u8], at: usize) -> &'a [u8]
    requires { Named s.now at }
    ensures { result.now ≡ name_at s.now at }
{
    wire::name_at(s, at)
}

// The offset behind a name: where the next begins, in a list of names. `wire::behind_name`, named for a walk over such a list.
pub fn next_name(s: &[u8], at: usize) -> usize
    requires { at + 2 + le2 s.now at ≤ length s.now }
    ensures { result ≡ at + 2 + le2 s.now at }
{
    wire::behind_name(s, at)
}

// The offset behind the name that a block begins with.
fn behind_name(s: &[u8], at: usize) -> usize
    requires { name_end s.now at ≤ length s.now }
    ensures { result ≡ name_end s.now at }
{
    wire::behind_name(s, at + 6)
}

// The offset of a type's alignment, behind its size.
#[tactic(auto, using(crate::proofs::Head::insides), unfolding(crate::specs::Places::alignment_at))]
fn alignment_at(s: &[u8], at: usize) -> usize
    requires { Accepted s.now 1 7 at }
    ensures { result ≡ alignment_at s.now at }
{
    let p = behind_name(s, at);
    if s[p] == 0 {
        return p + 1 + 8;
    }
    p + 1
}

// The offset behind what every type begins with.
#[tactic(auto, using(crate::proofs::Head::insides), unfolding(crate::specs::Places::head_end))]
fn behind_head(s: &[u8], at: usize) -> usize
    requires { Accepted s.now 1 7 at }
    ensures { result ≡ head_end s.now at }
{
    let q = alignment_at(s, at) + 8;
    q + 4 + wire::read4(s, q)
}

#[tactic(auto, using(crate::proofs::Head::insides))]
pub fn type_head(s: &[u8], at: usize) -> TypeHead
    requires { Accepted s.now 1 7 at }
    ensures { (a : Accepted s.now 1 7 at) → HeadAt a result }
{
    let q = alignment_at(s, at);
    let references = q + 8;
    let p = behind_name(s, at);
    let size = if s[p] == 0 {
        Some(wire::read8(s, p + 1) as u64)
    } else {
        None
    };
    TypeHead {
        size,
        alignment: wire::read8(s, q) as u64,
        references,
    }
}

#[tactic(auto, using(crate::proofs::Each::array_inside))]
pub fn array_parts(s: &[u8], at: usize) -> ArrayParts
    requires { Accepted s.now 1 7 at × (le2 s.now (at + 4) ≡ 5) }
    ensures { (a : Accepted s.now 1 7 at) → ArrayAt a result }
{
    let q = behind_head(s, at);
    let element = q + 1;
    ArrayParts {
        jagged: s[q] == 1,
        element,
        size: element + 4 + wire::read4(s, element),
    }
}

#[tactic(auto, using(crate::proofs::Each::enum_inside))]
pub fn enum_parts(s: &[u8], at: usize) -> EnumParts
    requires { Accepted s.now 1 7 at × (le2 s.now (at + 4) ≡ 4) }
    ensures { (a : Accepted s.now 1 7 at) → EnumAt a result }
{
    let tag = behind_head(s, at);
    let list = tag + 4 + wire::read4(s, tag);
    let variants = list_at(s, list);
    EnumParts {
        tag,
        count: variants.count,
        first: variants.first,
    }
}

// The list whose count stands at an offset.
fn list_at(s: &[u8], at: usize) -> ListParts
    requires { at + 2 ≤ length s.now }
    ensures count { result.count ≡ le2 s.now at }
    ensures first { result.first ≡ at + 2 }
{
    ListParts {
        count: wire::read2(s, at),
        first: at + 2,
    }
}

// The fields of a struct (2), the variants of a union (3).
#[tactic(auto, using(crate::proofs::Each::fields_inside))]
pub fn field_list(s: &[u8], at: usize) -> ListParts
    requires { Accepted s.now 1 7 at × ((2 ≤ le2 s.now (at + 4)) × (le2 s.now (at + 4) ≤ 3)) }
    ensures { (a : Accepted s.now 1 7 at) → FieldsAt a result }
{
    list_at(s, behind_head(s, at))
}

// The variants of a size-discriminated union.
#[tactic(auto, using(crate::proofs::Each::sized_inside))]
pub fn sized_list(s: &[u8], at: usize) -> ListParts
    requires { Accepted s.now 1 7 at × (le2 s.now (at + 4) ≡ 6) }
    ensures { (a : Accepted s.now 1 7 at) → SizedAt a result }
{
    list_at(s, behind_head(s, at))
}

// Where the target name of a type reference stands.
pub fn target(s: &[u8], at: usize) -> usize
    requires { Accepted s.now 1 7 at × (le2 s.now (at + 4) ≡ 7) }
    ensures { (a : Accepted s.now 1 7 at) → TargetAt a result }
{
    behind_head(s, at)
}

#[tactic(auto, using(crate::proofs::Fields::field_insides))]
pub fn field_parts(s: &[u8], at: usize) -> FieldParts
    requires { Accepted s.now 33 33 at }
    ensures { (a : Accepted s.now 33 33 at) → FieldAt a result }
{
    let p = behind_name(s, at);
    if s[p] == 1 {
        let offset = wire::read8(s, p + 1) as u64;
        return FieldParts {
            offset: Some(offset),
            kind: p + 1 + 8,
        };
    }
    FieldParts {
        offset: None,
        kind: p + 1,
    }
}

// A variant of an enum (34) or of a size-discriminated union (35).
#[tactic(auto, using(crate::proofs::Fields::variant_inside))]
pub fn variant_parts(s: &[u8], at: usize, k: usize) -> VariantParts
    requires { Accepted s.now k k at × ((34 ≤ k) × (k ≤ 35)) }
    ensures { (a : Accepted s.now k k at) → VariantAt a result }
{
    let p = behind_name(s, at);
    VariantParts {
        number: wire::read8(s, p) as u64,
        kind: p + 8,
    }
}

// The offset of the count of an owner's paths.
#[tactic(auto, using(crate::proofs::Fields::owner_inside))]
pub fn owner_paths(s: &[u8], at: usize) -> usize
    requires { Accepted s.now 37 37 at }
    ensures { (a : Accepted s.now 37 37 at) → OwnerAt a result }
{
    behind_name(s, at)
}

// `dynamic_params.get(name)`: the paths of the first owner of the name in a references block.
pub fn get(s: &[u8], references: usize, name: &[u8]) -> Option<usize>
    requires { Accepted s.now 32 32 references }
    ensures paths_found { (a : Accepted s.now 32 32 references) → PathsFound s.now name.now (owners_of (tree a)) result }
    ensures value { result ≡ paths_in s.now name.now references }
{
    let owners = list_at(s, references + 6);
    let owner = wire::block_named(s, owners.first, owners.count, name)?;
    Some(owner_paths(s, owner.at))
}
