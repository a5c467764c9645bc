// builder.rs, `build_typeref_node` and `collect_callee_arguments`.
#![tactic(auto)]

ghost use Rattle.std.specs.Prelude.{◌≡◌, [], ◌∷◌, ◌+◌, ◌^◌, ◌≤◌, length, IfOk};
ghost use Rattle.errors.specs.Refusal.{done};
ghost use Rattle.blocks.specs.Bytes.{le4};
ghost use Rattle.blocks.specs.Name.{Name};
ghost use Rattle.blocks.specs.Tree.{Tree};
ghost use Rattle.blocks.specs.Read.{read_set};
ghost use Rattle.accepted.specs.Accepted.{Accepted, tree, name_at};
ghost use Rattle.resolved.specs.Resolved.{ResolvedTypeKind, head, kind_of};
ghost use Rattle.resolved.specs.Set.{type_of, types_of};
ghost use Rattle.builder.specs.Nodes.{collect_paths, collect_callee_arguments, build_typeref_node};
ghost use Rattle.resolved_parts.specs.Types.{PathsAt, owners_of, texts_of};
ghost use Rattle.builder_registry.specs.Words.{entries_of};
ghost use Rattle.builder_nodes.specs.Built.{Builds, Within};
ghost use Rattle.builder_calls.specs.Ready.{Ready};
ghost use Rattle.builder_calls.specs.Collected.{paths_in, Behind, Fills, ReadyPath, ReadyPaths, ReadyOwners, ReadyCall};
ghost use Rattle.builder_calls.specs.Call.{call_of};

use builder_nodes::Built;
use builder_registry::Owner;
use errors::Reason;

// Where collecting stands: the next cursor, how many entries the registry has, and how many arguments are there.
#[derive(Clone, Copy)]
pub struct Collected {
    pub at: usize,
    pub count: usize,
    pub made: usize,
}

// The type that is called: where it stands; and the alignment of the reference to it.
#[derive(Clone, Copy)]
struct Callee {
    offset: usize,
    alignment: u64,
}

// The offset behind a block: where the next begins, in a list of blocks.
fn next_block(s: &[u8], at: usize) -> usize
    requires { (at + 4 + le4 s.now at ≤ length s.now) × (length s.now ≤ 65536) }
    ensures { result ≡ at + 4 + le4 s.now at }
{
    at + 4 + wire::read4(s, at)
}

// How many paths the owners of a references block have.
fn count_paths(s: &[u8], references: usize) -> usize
    requires { Accepted s.now 32 32 references × (length s.now ≤ 65536) }
    ensures upper_bound { result ≤ 4096 }
    ensures value { (a : Accepted s.now 32 32 references) → result ≡ paths_in (owners_of (tree a)) }
{
    let mut at = references + 6 + 2;
    let mut n = 0;
    for _ in 0..wire::read2(s, references + 6) {
        n += wire::read2(s, resolved_parts::owner_paths(s, at));
        at = next_block(s, at);
    }
    n
}

// The argument of a path of an owner, whose names stand at these offsets.
fn put_argument(
    s: &[u8],
    words: &mut [u64],
    owner: Owner,
    path: usize,
    out: &mut [u8],
    c: Collected,
) -> Result<Collected, Reason>
    requires { ReadyPath s.now words.old owner.at owner.mark path c }
    ensures fills { IfOk result (Fills c) }
    ensures behind { Behind s.now out.old c words.old words.new out.new result (collect_paths (name_at s.now owner.at) (name_at s.now path ∷ [])) }
{
    let o = resolved_parts::name_at(s, owner.at);
    let p = resolved_parts::name_at(s, path);
    if 255 < builder_names::canonical_length(o, p) {
        return Err(Reason::LimitExceeded);
    }
    let count = builder_registry::ensure(s, words, c.count, owner, path)?;
    if 512 <= c.made {
        return Err(Reason::LimitExceeded);
    }
    let b = wire::open_block(out, c.at, 164);
    let u = builder_names::put_canonical_name(out, b, o, p);
    let at = builder_names::put_canonical_name(out, u, o, p);
    wire::close_block(out, c.at, at);
    Ok(Collected {
        at,
        count,
        made: c.made + 1,
    })
}

// The arguments of the paths of an owner, which stand behind their count.
fn put_arguments(
    s: &[u8],
    words: &mut [u64],
    owner: Owner,
    paths: usize,
    out: &mut [u8],
    c: Collected,
) -> Result<Collected, Reason>
    requires { ReadyPaths s.now words.old owner.at owner.mark paths c }
    ensures fills { IfOk result (Fills c) }
    ensures behind { (p : PathsAt s.now paths) → Behind s.now out.old c words.old words.new out.new result (collect_paths (name_at s.now owner.at) (texts_of p.list.got.0)) }
{
    let mut path = paths + 2;
    let mut collected = c;
    for _ in 0..wire::read2(s, paths) {
        collected = put_argument(s, words, owner, path, out, collected)?;
        path = resolved_parts::next_name(s, path);
    }
    Ok(collected)
}

// The arguments of the owners of a references block.
fn put_owners(
    s: &[u8],
    words: &mut [u64],
    references: usize,
    out: &mut [u8],
    c: Collected,
) -> Result<Collected, Reason>
    requires { ReadyOwners s.now words.old references c }
    ensures fills { IfOk result (Fills c) }
    ensures behind { (a : Accepted s.now 32 32 references) → Behind s.now out.old c words.old words.new out.new result (collect_callee_arguments (owners_of (tree a))) }
{
    let mut at = references + 6 + 2;
    let mut collected = c;
    for _ in 0..wire::read2(s, references + 6) {
        let paths = resolved_parts::owner_paths(s, at);
        let owner = builder_registry::marked_owner(s, at + 6);
        collected = put_arguments(s, words, owner, paths, out, collected)?;
        at = next_block(s, at);
    }
    Ok(collected)
}

// A call of a type, which has this name.
fn put_call(
    s: &[u8],
    words: &mut [u64],
    n: usize,
    callee: Callee,
    name: &[u8],
    out: &mut [u8],
    at: usize,
) -> Result<Built, Reason>
    requires { ReadyCall s.now words.old n callee.offset name.now at }
    ensures within { IfOk result (Within at (2 ^ 19)) }
    ensures builds { (a : Accepted s.now 1 7 callee.offset) → Builds s.now out.old at words.new out.new result (call_of (type_of (tree a)) name.now callee.alignment (entries_of s.now words.old n)) }
{
    let references = resolved_parts::type_head(s, callee.offset).references;
    let path_count = count_paths(s, references);
    let p = builder_nodes::open_node(out, at, 133, callee.alignment);
    let u = builder_nodes::put_text_part(out, p, 133, 2, name);
    let v = builder_nodes::put_count_part(out, u, 133, 3, path_count);
    let c = Collected {
        at: v,
        count: n,
        made: 0,
    };
    let r = put_owners(s, words, references, out, c)?;
    wire::close_block(out, at, r.at);
    Ok(Built {
        at: r.at,
        count: r.count,
    })
}

// A call of the target, with an argument for each path of its references.
pub fn build_typeref_node(
    s: &[u8],
    words: &mut [u64],
    n: usize,
    kind: usize,
    out: &mut [u8],
    at: usize,
) -> Result<Built, Reason>
    requires { Ready s.now words.old n 7 kind at }
    ensures within { IfOk result (Within at (2 ^ 19)) }
    ensures builds { (t : Tree) (a : Accepted s.now 1 7 kind) (target : Name) → read_set s.now ≡ done t → kind_of (type_of (tree a)) ≡ ResolvedTypeKind.TypeRef target → Builds s.now out.old at words.new out.new result (build_typeref_node (types_of t) (head (type_of (tree a))) target (entries_of s.now words.old n)) }
{
    let target = resolved_parts::target(s, kind);
    let name = resolved_parts::name_at(s, target);
    let alignment = resolved_parts::type_head(s, kind).alignment;
    let offset = lookup::get_type_info(s, name).ok_or(Reason::MissingType)?;
    let callee = Callee { offset, alignment };
    put_call(s, words, n, callee, name, out, at)
}
