// builder.rs, arrays: `build_array_node`, `build_array_node_with_prefix`, `select_array_owner`.
// The set, the words, the output and the counts in them stay parameters: a count or the cursor is another at each call, and a struct of
// them that is made anew for each is no plainer.
#![tactic(auto)]

ghost use Rattle.std.specs.Prelude.{◌≡◌, ◌+◌, ◌*◌, ◌^◌, ◌≤◌, ◌<◌, length, IfOk};
ghost use Rattle.std.proofs.Math.Option.{some};
ghost use Rattle.blocks.specs.Bytes.{le2, le4};
ghost use Rattle.accepted.specs.Accepted.{Accepted, tree};
ghost use Rattle.expr.specs.Expr.{expr_of};
ghost use Rattle.resolved.specs.Resolved.{Head, head, kind_of};
ghost use Rattle.resolved.specs.Set.{type_of};
ghost use Rattle.resolved_parts.specs.Types.{owners_of};
ghost use Rattle.builder.specs.Nodes.{select_array_owner, build_array_node, build_array_node_with_prefix};
ghost use Rattle.builder_registry.specs.Words.{entries_of};
ghost use Rattle.builder_paths.specs.Joined.{prefix_of};
ghost use Rattle.builder_nodes.specs.Built.{Builds, Within};
ghost use Rattle.builder_expressions.specs.Ready.{Ready as ReadyCount};
ghost use Rattle.builder_arrays.specs.Ready.{Ready, ReadyInside};
ghost use Rattle.builder_arrays.specs.Array.{Opened, counted, summed, Closed};
ghost use Rattle.builder_arrays.specs.Shapes.{ShapeAt};
ghost use Rattle.builder_arrays.specs.Owner.{SomeOwner, owner_under};

use builder_expressions::Nested;
use builder_nodes::Built;
use errors::Reason;

// An array: inside how many arrays it stands, whether it is a jagged one of variable elements, its alignment, the offset of its
// size expression, and the offset of its element. Of the element: its constant size (None where the size is variable), its
// alignment, and the offset of its references block.
#[derive(Clone, Copy)]
pub struct Shape {
    pub depth: usize,
    pub sums: bool,
    pub alignment: u64,
    pub size: usize,
    pub element: usize,
    pub constant: Option<u64>,
    pub inner: u64,
    pub references: usize,
}

// The shape of an array, from its head, its parts and its element's head.
fn read_shape(s: &[u8], array: Nested) -> Shape
    requires { Accepted s.now 1 7 array.offset × (le2 s.now (array.offset + 4) ≡ 5) }
    ensures { (a : Accepted s.now 1 7 array.offset) → ShapeAt a array.depth result }
{
    let head = resolved_parts::type_head(s, array.offset);
    let parts = resolved_parts::array_parts(s, array.offset);
    let inner = resolved_parts::type_head(s, parts.element);
    Shape {
        depth: array.depth,
        sums: parts.jagged && inner.size.is_none(),
        alignment: head.alignment,
        size: parts.size,
        element: parts.element,
        constant: inner.size,
        inner: inner.alignment,
        references: inner.references,
    }
}

// An AlignUp node and in it a node of this kind, both as far as their metadata: the count comes next.
fn open_array(out: &mut [u8], at: usize, kind: usize, alignment: u64) -> usize
    requires { (at < 2 ^ 59) × (128 ≤ kind) × (kind ≤ 144) }
    ensures opened { Opened out.old at kind alignment out.new result }
    ensures value { result ≡ at + 38 }
{
    let p = builder_nodes::open_align(out, at, alignment);
    builder_nodes::open_node(out, p, kind, alignment)
}

// The lengths of the two nodes that an array begins with.
fn close_array(out: &mut [u8], at: usize, end: usize)
    requires { (at + 38 ≤ end) × (end < 2 ^ 61) }
    ensures { Closed out.old at end out.new }
{
    wire::close_block(out, at + 23, end);
    wire::close_block(out, at, end);
}

// The count of an array; then the element's references enter.
fn build_counted(
    s: &[u8],
    words: &mut [u64],
    n: usize,
    owner: &[u8],
    p: Shape,
    out: &mut [u8],
    at: usize,
) -> Result<Built, Reason>
    requires { ReadyCount s.now words.old n owner.now p.depth p.size at × Accepted s.now 32 32 p.references }
    ensures within { IfOk result (Within at (1024 * (4 + le4 s.now p.size))) }
    ensures builds { (e : Accepted s.now 64 91 p.size) (f : Accepted s.now 32 32 p.references) → Builds s.now out.old at words.new out.new result (counted owner.now (prefix_of p.depth) (expr_of (tree e)) (owners_of (tree f)) (entries_of s.now words.old n)) }
{
    let e = Nested {
        offset: p.size,
        depth: p.depth,
    };
    let counted = builder_expressions::build_expr_ir(s, words, n, owner, e, out, at)?;
    let count = builder_registry::extend_with(s, words, counted.count, p.references)?;
    Ok(Built {
        at: counted.at,
        count,
    })
}

// A jagged array of variable elements: only of a type reference.
fn sum_over_array(
    s: &[u8],
    words: &[u64],
    n: usize,
    owner: &[u8],
    p: Shape,
    out: &mut [u8],
    at: usize,
) -> Result<Built, Reason>
    requires { ReadyCount s.now words.now n owner.now p.depth p.size (at + 38) × Accepted s.now 1 7 p.element }
    ensures within { IfOk result (Within at (2048 + 1024 * (4 + le4 s.now p.size))) }
    ensures builds { (e : Accepted s.now 64 91 p.size) (t : Accepted s.now 1 7 p.element) (h : Head) → h.alignment ≡ p.alignment → Builds s.now out.old at words.now out.new result (summed h owner.now (prefix_of p.depth) (expr_of (tree e)) (kind_of (type_of (tree t))) (entries_of s.now words.now n)) }
{
    let q = open_array(out, at, 144, p.alignment);
    let e = Nested {
        offset: p.size,
        depth: p.depth,
    };
    let counted = builder_expressions::build_expr_ir(s, words, n, owner, e, out, q)?;
    let element = p.element;
    if wire::read2(s, element + 4) != 7 {
        return Err(Reason::UnsupportedArrayElement);
    }
    let target = resolved_parts::name_at(s, resolved_parts::target(s, element));
    let u = builder_nodes::put_text_part(out, counted.at, 144, 3, target);
    let end = builder_nodes::put_text_part(out, u, 144, 4, owner);
    close_array(out, at, end);
    Ok(Built {
        at: end,
        count: counted.count,
    })
}

// An array: it calls itself on its element, which is shorter.
pub fn build_array_node_with_prefix(
    s: &[u8],
    words: &mut [u64],
    n: usize,
    owner: &[u8],
    array: Nested,
    out: &mut [u8],
    at: usize,
) -> Result<Built, Reason>
    requires { ReadyInside s.now words.old n owner.now array.depth array.offset at }
    ensures within { IfOk result (Within at (1024 * (4 + le4 s.now array.offset))) }
    ensures builds { (a : Accepted s.now 1 7 array.offset) → Builds s.now out.old at words.new out.new result (build_array_node_with_prefix owner.now (prefix_of array.depth) (type_of (tree a)) (entries_of s.now words.old n)) }
{
    let p = read_shape(s, array);
    if p.sums {
        return sum_over_array(s, words, n, owner, p, out, at);
    }
    let q = open_array(out, at, 136, p.alignment);
    let counted = build_counted(s, words, n, owner, p, out, q)?;
    match p.constant {
        Some(size) => {
            let end = builder_nodes::put_const(out, counted.at, size, p.inner);
            close_array(out, at, end);
            Ok(Built {
                at: end,
                count: counted.count,
            })
        }
        None => {
            if wire::read2(s, p.element + 4) != 5 {
                return Err(Reason::UnsupportedArrayElement);
            }
            let element = Nested {
                offset: p.element,
                depth: p.depth + 1,
            };
            let built = build_array_node_with_prefix(
                s,
                words,
                counted.count,
                owner,
                element,
                out,
                counted.at,
            )?;
            close_array(out, at, built.at);
            Ok(built)
        }
    }
}

// The owner under a key: the key where it is an owner, else the type's name where that is one, else the first owner.
fn owner_under<'a>(s: &'a [u8], references: usize, name: &'a [u8], key: &'a [u8]) -> &'a [u8]
    requires { SomeOwner s.now references × (length name.now ≤ 255) × (length key.now ≤ 255) }
    ensures result_len_bound { length result.now ≤ 255 }
    ensures result_value { (g : Accepted s.now 32 32 references) → result.now ≡ owner_under key.now name.now (owners_of (tree g)) }
{
    if resolved_parts::get(s, references, key).is_some() {
        return key;
    }
    if resolved_parts::get(s, references, name).is_some() {
        return name;
    }
    resolved_parts::name_at(s, references + 6 + 2 + 6)
}

// The owner of an array that is a root, from its name and its references, which have an owner: under the part of the name
// behind its last `::`, or under `array` where it has none.
fn select_array_owner<'a>(s: &'a [u8], references: usize, name: &'a [u8]) -> &'a [u8]
    requires { SomeOwner s.now references × (length name.now ≤ 255) }
    ensures result_len_bound { length result.now ≤ 255 }
    ensures g_value { (g : Accepted s.now 32 32 references) (h : Head) → h.name ≡ name.now → select_array_owner h (owners_of (tree g)) ≡ some result.now }
{
    match builder_names::last_colons(name) {
        Some(i) => {
            let behind = i + 2;
            owner_under(s, references, name, &name[behind..])
        }
        None => owner_under(s, references, name, b"array"),
    }
}

// An array as a root: its owner is selected from its own references.
pub fn build_array_node(
    s: &[u8],
    words: &mut [u64],
    n: usize,
    array: usize,
    out: &mut [u8],
    at: usize,
) -> Result<Built, Reason>
    requires { Ready s.now words.old n array at }
    ensures within { IfOk result (Within at (1024 * (4 + le4 s.now array))) }
    ensures builds { (a : Accepted s.now 1 7 array) → Builds s.now out.old at words.new out.new result (build_array_node (type_of (tree a)) (entries_of s.now words.old n)) }
{
    let references = resolved_parts::type_head(s, array).references;
    if wire::read2(s, references + 6) == 0 {
        return Err(Reason::MissingDynamicRefs);
    }
    let name = resolved_parts::name_at(s, array + 6);
    let owner = select_array_owner(s, references, name);
    let root = Nested {
        offset: array,
        depth: 0,
    };
    build_array_node_with_prefix(s, words, n, owner, root, out, at)
}
