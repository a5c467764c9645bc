// builder.rs, `node_from_resolved` and `build_type`.
#![tactic(auto)]

ghost use Rattle.std.specs.Prelude.{◌≡◌, ◌+◌, ◌^◌, ◌≤◌, IfOk};
ghost use Rattle.errors.specs.Refusal.{done};
ghost use Rattle.blocks.specs.Tree.{Tree};
ghost use Rattle.blocks.specs.Read.{read_set};
ghost use Rattle.accepted.specs.Accepted.{Accepted, tree};
ghost use Rattle.resolved.specs.Set.{type_of, types_of};
ghost use Rattle.builder.specs.Nodes.{node_from_resolved};
ghost use Rattle.builder.specs.Build.{build_type};
ghost use Rattle.builder_registry.specs.Words.{entries_of};
ghost use Rattle.builder_nodes.specs.Built.{Builds, Within};
ghost use Rattle.builder_type.specs.Built.{Ready, ReadyWords, BuildsType};

use builder_nodes::Built;
use errors::Reason;

// The kind of a type reference.
const REFERENCE: usize = 7;

// The root node of the type at `kind`, by its kind, which stays the format's number: it is matched where it is read.
fn node_from_resolved(
    s: &[u8],
    words: &mut [u64],
    n: usize,
    kind: usize,
    out: &mut [u8],
    at: usize,
) -> Result<Built, Reason>
    requires { Ready s.now words.old n kind at }
    ensures within { IfOk result (Within at (2 ^ 41)) }
    ensures builds { (t : Tree) (a : Accepted s.now 1 7 kind) → read_set s.now ≡ done t → Builds s.now out.old at words.new out.new result (node_from_resolved (types_of t) (type_of (tree a)) (entries_of s.now words.old n)) }
{
    let k = wire::read2(s, kind + 4);
    if k == REFERENCE {
        return builder_calls::build_typeref_node(s, words, n, kind, out, at);
    }
    let head = resolved_parts::type_head(s, kind);
    if let Some(size) = head.size {
        let end = builder_nodes::put_const(out, at, size, head.alignment);
        return Ok(Built { at: end, count: n });
    }
    match k {
        2 => builder_structs::build_variable_struct(s, words, n, kind, out, at),
        3 => builder_switches::build_union_node(s, words, n, kind, out, at),
        4 => builder_switches::build_enum_node(s, words, n, kind, out, at),
        5 => builder_arrays::build_array_node(s, words, n, kind, out, at),
        6 => builder_switches::build_size_discriminated_union_node(s, words, n, kind, out, at),
        // a primitive type
        _ => Err(Reason::UnsupportedSize),
    }
}

// The type tree of the type at `kind`, from an empty registry, whatever the words hold before: the cursor behind it. Its root stands
// behind a name and a number. Nothing is said of the words after: the next type begins with an empty registry again.
pub fn build_type(
    s: &[u8],
    words: &mut [u64],
    kind: usize,
    out: &mut [u8],
    at: usize,
) -> Result<usize, Reason>
    requires { ReadyWords s.now words.old kind (at + 512) }
    ensures at_le_at { IfOk result (λ end. (at ≤ end) × (end ≤ at + 2 ^ 42)) }
    ensures builds_type { (t : Tree) (a : Accepted s.now 1 7 kind) → read_set s.now ≡ done t → BuildsType out.old at out.new result (build_type (types_of t) (type_of (tree a))) }
{
    let head = resolved_parts::type_head(s, kind);
    builder_registry::begin(words);
    let entered = builder_registry::extend_with(s, words, 0, head.references)?;
    let name = resolved_parts::name_at(s, kind + 6);
    let body = wire::open_block(out, at, 161);
    let aligned = wire::put_name(out, body, name);
    let start = wire::put_le(out, aligned, 8, head.alignment);
    let root = node_from_resolved(s, words, entered, kind, out, start)?;
    let end = builder_parameters::put_parameters(s, words, root.count, kind, out, root.at);
    wire::close_block(out, at, end);
    Ok(end)
}
