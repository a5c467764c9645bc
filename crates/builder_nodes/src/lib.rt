// builder.rs, the small nodes: written into the output, by the table of the node kinds.
#![tactic(auto)]

ghost use Rattle.std.specs.Prelude.{◌≡◌, true, ◌++◌, ◌+◌, ◌^◌, ◌≤◌, ◌<◌, length};
ghost use Rattle.std.proofs.Math.Option.{some, none};
ghost use Rattle.blocks.specs.Tree.{name, num, nil, cons};
ghost use Rattle.blocks.specs.Write.{write};
ghost use Rattle.ir.specs.Ir.{IrNode, aligned, default_alignment, default_metadata, unplaced};
ghost use Rattle.ir_nodes.specs.Codes.{code_at};
ghost use Rattle.ir.specs.Layout.{node_tree, optional_tree};
ghost use Rattle.builder.specs.Nodes.{const_or_zero, ref_text, buffer_size};
ghost use Rattle.wire.specs.Poke.{Wrote};
ghost use Rattle.builder_registry.specs.Words.{entry_name};
ghost use Rattle.builder_nodes.specs.Built.{node_start, number_part, text_flag, count_part, no_node};

use ir_nodes::NodeMetadata;

// What a builder of a node answers, if it does not refuse: the next cursor, and how many entries the registry has.
#[derive(Clone, Copy)]
pub struct Built {
    pub at: usize,
    pub count: usize,
}

// A number, as part i of a node kind.
fn put_number_part(out: &mut [u8], at: usize, kind: usize, i: usize, v: u64) -> usize
    requires { (at < 2 ^ 61) × (128 ≤ kind) × (kind ≤ 144) × (i < 5) }
    ensures wrote { Wrote out.old at (number_part (code_at kind i) v) out.new result }
    ensures lower_bound { (at ≤ result) × (result ≤ at + 8) }
{
    if ir_nodes::node_part(kind, i) == ir_nodes::NUMBER {
        return wire::put_le(out, at, 8, v);
    }
    at
}

// The flag of a text, as part i of a node kind: whether it is there, where the part is optional.
fn put_text_flag(out: &mut [u8], at: usize, kind: usize, i: usize, there: bool) -> usize
    requires { (at < 2 ^ 61) × (128 ≤ kind) × (kind ≤ 144) × (i < 5) }
    ensures wrote { Wrote out.old at (text_flag there (code_at kind i)) out.new result }
    ensures lower_bound { (at ≤ result) × (result ≤ at + 1) }
{
    if ir_nodes::node_part(kind, i) == ir_nodes::OPT_TEXT {
        return wire::put_flag(out, at, there);
    }
    at
}

// A text, as part i of a node kind.
pub fn put_text_part(out: &mut [u8], at: usize, kind: usize, i: usize, text: &[u8]) -> usize
    requires { (at + length text.now < 2 ^ 59 + 2 ^ 58) × (128 ≤ kind) × (kind ≤ 144) × (i < 5) }
    ensures wrote { Wrote out.old at (text_flag true (code_at kind i) ++ write (name text.now)) out.new result }
    ensures lower_bound { (at ≤ result) × (result ≤ at + 3 + length text.now) }
{
    let p = put_text_flag(out, at, kind, i, true);
    wire::put_name(out, p, text)
}

// An entry's name, as part i of a node kind.
pub fn put_entry_part(s: &[u8], w: u64, out: &mut [u8], at: usize, kind: usize, i: usize) -> usize
    requires { (length s.now ≤ 65536) × (at + 1 < 2 ^ 59) × (128 ≤ kind) × (kind ≤ 144) × (i < 5) }
    ensures wrote { Wrote out.old at (text_flag true (code_at kind i) ++ write (name (entry_name s.now w))) out.new result }
    ensures lower_bound { (at ≤ result) × (result ≤ at + 514) }
{
    let q = put_text_flag(out, at, kind, i, true);
    builder_registry::put_entry_name(s, w, out, q)
}

// The count of a list, as part i of a node kind: its cases or arguments follow.
pub fn put_count_part(out: &mut [u8], at: usize, kind: usize, i: usize, count: usize) -> usize
    requires { (at < 2 ^ 61) × (128 ≤ kind) × (kind ≤ 144) × (i < 5) }
    ensures wrote { Wrote out.old at (count_part (code_at kind i) count) out.new result }
    ensures lower_bound { (at ≤ result) × (result ≤ at + 2) }
{
    let code = ir_nodes::node_part(kind, i);
    if code == ir_nodes::CASES || code == ir_nodes::ARGUMENTS {
        return wire::put_le(out, at, 2, count as u64);
    }
    at
}

// An optional node that is not there, as part i of a node kind.
pub fn put_no_node(out: &mut [u8], at: usize, kind: usize, i: usize) -> usize
    requires { (at < 2 ^ 61) × (128 ≤ kind) × (kind ≤ 144) × (i < 5) }
    ensures wrote { Wrote out.old at (no_node (code_at kind i)) out.new result }
    ensures lower_bound { (at ≤ result) × (result ≤ at + 1) }
{
    if ir_nodes::node_part(kind, i) == ir_nodes::OPT_NODE {
        return wire::put_flag(out, at, false);
    }
    at
}

// A node of a kind, as far as its metadata, with no size text. A part that is a node is that node's block, with nothing before
// it: the operands of AddChecked to RightShift, the node of AlignUp and the count of SumOverArray are put by what builds them.
pub fn open_node(out: &mut [u8], at: usize, kind: usize, alignment: u64) -> usize
    requires { (at < 2 ^ 60 + 64) × (128 ≤ kind) × (kind ≤ 144) }
    ensures wrote { Wrote out.old at (node_start kind alignment) out.new result }
    ensures value { result ≡ at + 15 }
{
    let meta = NodeMetadata::aligned(alignment);
    let p = wire::open_block(out, at, kind as u64);
    let q = put_number_part(out, p, kind, 0, meta.alignment);
    put_text_flag(out, q, kind, 1, false)
}

// `align_node`, as far as the node that it aligns.
pub fn open_align(out: &mut [u8], at: usize, alignment: u64) -> usize
    requires { at < 2 ^ 60 }
    ensures wrote { Wrote out.old at (node_start 131 alignment ++ write (num 8 alignment)) out.new result }
    ensures value { result ≡ at + 23 }
{
    let p = open_node(out, at, 131, alignment);
    put_number_part(out, p, 131, 2, alignment)
}

// An AddChecked node of the default alignment, as far as what it adds.
pub fn open_add(out: &mut [u8], at: usize) -> usize
    requires { at < 2 ^ 60 }
    ensures wrote { Wrote out.old at (node_start 134 default_alignment) out.new result }
    ensures value { result ≡ at + 15 }
{
    open_node(out, at, 134, NodeMetadata::default_alignment())
}

// A Const node, also where it stands in an AlignUp node.
pub fn put_const(out: &mut [u8], at: usize, value: u64, alignment: u64) -> usize
    requires { at < 2 ^ 60 + 64 }
    ensures wrote { Wrote out.old at (write (node_tree (IrNode.Const unplaced (aligned alignment) value))) out.new result }
    ensures value { result ≡ at + 23 }
{
    let p = open_node(out, at, 129, alignment);
    let q = put_number_part(out, p, 129, 2, value);
    wire::close_block(out, at, q);
    q
}

// `const_or_zero`
pub fn put_const_or_zero(out: &mut [u8], at: usize, value: u64, alignment: u64) -> usize
    requires { at < 2 ^ 60 }
    ensures wrote { Wrote out.old at (write (node_tree (const_or_zero value alignment))) out.new result }
    ensures lower_bound { (at ≤ result) × (result ≤ at + 46) }
{
    if value == 0 {
        let p = open_node(out, at, 128, alignment);
        wire::close_block(out, at, p);
        return p;
    }
    let p = open_align(out, at, alignment);
    let q = put_const(out, p, value, alignment);
    wire::close_block(out, at, q);
    q
}

// The parts of a FieldRef node behind its metadata: the path, and the entry's name as the parameter.
fn put_ref_parts(s: &[u8], w: u64, path: &[u8], out: &mut [u8], at: usize) -> usize
    requires { (length s.now ≤ 65536) × (at < 2 ^ 58 + 1024) × (length path.now ≤ 255) }
    ensures wrote { Wrote out.old at (write (cons (name path.now) (cons (optional_tree name (some (entry_name s.now w))) nil))) out.new result }
    ensures lower_bound { (at ≤ result) × (result ≤ at + 772) }
{
    let p = put_text_part(out, at, 130, 2, path);
    put_entry_part(s, w, out, p, 130, 3)
}

// The size text `owner:path` of a FieldRef node.
fn put_size_text(owner: &[u8], path: &[u8], out: &mut [u8], at: usize) -> usize
    requires { (at < 2 ^ 58 + 64) × (length owner.now + (1 + length path.now) ≤ 255) }
    ensures wrote { Wrote out.old at (write (optional_tree name (some (ref_text owner.now path.now)))) out.new result }
    ensures lower_bound { (at ≤ result) × (result ≤ at + 258) }
{
    let p = put_text_flag(out, at, 130, 1, true);
    let q = wire::put_le(out, p, 2, (owner.len() + 1 + path.len()) as u64);
    let u = wire::put_from(out, q, owner, 0);
    let v = wire::put_byte(out, u, 0x3A);
    wire::put_from(out, v, path, 0)
}

// A FieldRef node of a sum of references: its size text is `owner:path`, its parameter the entry's name.
pub fn put_size_ref(s: &[u8], w: u64, owner: &[u8], path: &[u8], out: &mut [u8], at: usize) -> usize
    requires { (length s.now ≤ 65536) × (at < 2 ^ 58) × (length owner.now + (1 + length path.now) ≤ 255) }
    ensures wrote { Wrote out.old at (write (node_tree (IrNode.FieldRef unplaced (record { alignment = default_alignment; size_expr = some (ref_text owner.now path.now) }) path.now (some (entry_name s.now w))))) out.new result }
    ensures lower_bound { (at ≤ result) × (result ≤ at + 1100) }
{
    let p = wire::open_block(out, at, 130);
    let q = put_number_part(out, p, 130, 0, NodeMetadata::default_alignment());
    let u = put_size_text(owner, path, out, q);
    let v = put_ref_parts(s, w, path, out, u);
    wire::close_block(out, at, v);
    v
}

// A FieldRef node of a size expression: its parameter is the entry's name.
pub fn put_path_ref(s: &[u8], w: u64, path: &[u8], out: &mut [u8], at: usize) -> usize
    requires { (length s.now ≤ 65536) × (at < 2 ^ 58) × (length path.now ≤ 255) }
    ensures wrote { Wrote out.old at (write (node_tree (IrNode.FieldRef unplaced default_metadata path.now (some (entry_name s.now w))))) out.new result }
    ensures lower_bound { (at ≤ result) × (result ≤ at + 1000) }
{
    let p = open_node(out, at, 130, NodeMetadata::default_alignment());
    let q = put_ref_parts(s, w, path, out, p);
    wire::close_block(out, at, q);
    q
}

// The FieldRef node of `__buffer_size`, which takes no parameter.
pub fn put_buffer_size(out: &mut [u8], at: usize) -> usize
    requires { at < 2 ^ 59 }
    ensures wrote { Wrote out.old at (write (node_tree (IrNode.FieldRef unplaced default_metadata buffer_size none))) out.new result }
    ensures value { result ≡ at + 31 }
{
    let p = open_node(out, at, 130, NodeMetadata::default_alignment());
    let q = put_text_part(out, p, 130, 2, b"__buffer_size");
    let u = put_text_flag(out, q, 130, 3, false);
    wire::close_block(out, at, u);
    u
}
