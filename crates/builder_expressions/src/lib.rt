// builder.rs, `build_expr_ir` and `build_binary_expr_ir`: the nodes of a size expression.
#![tactic(auto)]

ghost use Rattle.std.specs.Prelude.{◌≡◌, cond, List, ℕ, ◌+◌, ◌*◌, ◌^◌, ◌≤◌, ◌<◌, IfOk};
ghost use Rattle.std.proofs.Math.Option.{some, none};
ghost use Rattle.blocks.specs.Bytes.{le2, le4, le8};
ghost use Rattle.blocks.specs.Name.{Name};
ghost use Rattle.accepted.specs.Accepted.{Accepted, tree};
ghost use Rattle.expr.specs.Expr.{ExprKind, LiteralExpr, literal_to_u64, expr_of};
ghost use Rattle.builder.specs.Nodes.{build_path, build_expr_ir};
ghost use Rattle.builder_registry.specs.Words.{Standing, Indexed, entries_of};
ghost use Rattle.builder_paths.specs.Joined.{prefix_of};
ghost use Rattle.builder_nodes.specs.Built.{Builds, Within};
ghost use Rattle.builder_expressions.specs.Ready.{Ready};
ghost use Rattle.builder_expressions.specs.Operation.{Operation, Operates};

use builder_nodes::Built;
use errors::Reason;
use ir_nodes::NodeMetadata;

// What stands at an offset of the set, inside so many arrays.
#[derive(Clone, Copy)]
pub struct Nested {
    pub offset: usize,
    pub depth: usize,
}

// An expression of two operands, with the kind of its node.
#[derive(Clone, Copy)]
struct Binary {
    kind: usize,
    offset: usize,
    depth: usize,
}

// Whether a literal is negative: codes 4 to 7 are signed.
fn is_negative(s: &[u8], expr: usize) -> bool
    requires { Accepted s.now 64 91 expr × (le2 s.now (expr + 4) ≡ 64) }
    ensures { (a : Accepted s.now 64 91 expr) (l : LiteralExpr) → expr_of (tree a) ≡ ExprKind.Literal l → literal_to_u64 l ≡ cond result none (some (le8 s.now (expr + 7))) }
{
    4 <= s[expr + 6] && 9223372036854775808 <= wire::read8(s, expr + 7)
}

// A literal: a Const node, unless it is negative. The registry and its index stay as they are, whatever they hold.
fn build_literal(
    s: &[u8],
    n: usize,
    expr: usize,
    out: &mut [u8],
    at: usize,
) -> Result<Built, Reason>
    requires { Accepted s.now 64 91 expr × (le2 s.now (expr + 4) ≡ 64) × (n ≤ 512) × (at < 2 ^ 58) }
    ensures within { IfOk result (Within at 1000) }
    ensures builds { (owner prefix : Name) (ws : List ℕ) → Indexed s.now ws n → (a : Accepted s.now 64 91 expr) → Builds s.now out.old at ws out.new result (build_expr_ir owner prefix (expr_of (tree a)) (entries_of s.now ws n)) }
{
    if is_negative(s, expr) {
        return Err(Reason::UnsupportedExpression);
    }
    let v = wire::read8(s, expr + 7) as u64;
    let u = builder_nodes::put_const(out, at, v, NodeMetadata::default_alignment());
    Ok(Built { at: u, count: n })
}

// A FieldRef node of a path that the registry knows. A path is measured once it is found.
// Not inlined where the path is a buffer of the caller's own, as `builder_paths::put_joined`.
#[inline(never)]
fn build_path(
    s: &[u8],
    words: &[u64],
    n: usize,
    owner: &[u8],
    path: &[u8],
    out: &mut [u8],
    at: usize,
) -> Result<Built, Reason>
    requires { Standing s.now words.now n × (at < 2 ^ 58) }
    ensures within { IfOk result (Within at 1000) }
    ensures builds { Builds s.now out.old at words.now out.new result (build_path owner.now path.now (entries_of s.now words.now n)) }
{
    let i = builder_registry::lookup_name(s, words, n, owner, path).ok_or(
        Reason::MissingParameter,
    )?;
    if 255 < path.len() {
        return Err(Reason::LimitExceeded);
    }
    let u = builder_nodes::put_path_ref(s, words[i], path, out, at);
    Ok(Built { at: u, count: n })
}

// A field reference: `__buffer_size` takes no parameter, any other path is looked up. No path of the registry has more than
// 511 bytes.
fn build_field_ref(
    s: &[u8],
    words: &[u64],
    n: usize,
    owner: &[u8],
    e: Nested,
    out: &mut [u8],
    at: usize,
) -> Result<Built, Reason>
    requires { Ready s.now words.now n owner.now e.depth e.offset at × (le2 s.now (e.offset + 4) ≡ 65) }
    ensures within { IfOk result (Within at 1000) }
    ensures builds { (a : Accepted s.now 64 91 e.offset) → Builds s.now out.old at words.now out.new result (build_expr_ir owner.now (prefix_of e.depth) (expr_of (tree a)) (entries_of s.now words.now n)) }
{
    if builder_paths::is_buffer_size(s, e.offset) {
        let u = builder_nodes::put_buffer_size(out, at);
        return Ok(Built { at: u, count: n });
    }
    if 511 < builder_paths::joined_length(s, e.offset, e.depth) {
        return Err(Reason::MissingParameter);
    }
    let mut path = [0u8; 512];
    let end = builder_paths::put_joined(s, e.offset, e.depth, &mut path);
    build_path(s, words, n, owner, &path[..end], out, at)
}

// The node kind of an expression kind of two operands, if it becomes a node: kinds 68 to 72 and 74 to 78 do.
fn operation_kind(kind: usize) -> Option<usize>
    ensures { Operates kind result }
{
    match kind {
        68..=72 => Some(kind + 66),
        74..=78 => Some(kind + 65),
        _ => None,
    }
}

// The node of the expression e: a literal, a field reference, or a node of two operands; the rest are refused.
#[cycle(expressions)]
pub fn build_expr_ir(
    s: &[u8],
    words: &[u64],
    n: usize,
    owner: &[u8],
    e: Nested,
    out: &mut [u8],
    at: usize,
) -> Result<Built, Reason>
    requires { Ready s.now words.now n owner.now e.depth e.offset at }
    ensures within { IfOk result (Within at (1024 * (4 + le4 s.now e.offset))) }
    ensures builds { (a : Accepted s.now 64 91 e.offset) → Builds s.now out.old at words.now out.new result (build_expr_ir owner.now (prefix_of e.depth) (expr_of (tree a)) (entries_of s.now words.now n)) }
{
    let offset = e.offset;
    let depth = e.depth;
    match wire::read2(s, offset + 4) {
        64 => build_literal(s, n, offset, out, at),
        65 => build_field_ref(s, words, n, owner, e, out, at),
        k => {
            let kind = operation_kind(k).ok_or(Reason::UnsupportedExpression)?;
            let b = Binary {
                kind,
                offset,
                depth,
            };
            build_binary_expr_ir(s, words, n, owner, b, out, at)
        }
    }
}

// A node of two operands: left before right.
#[cycle(expressions)]
fn build_binary_expr_ir(
    s: &[u8],
    words: &[u64],
    n: usize,
    owner: &[u8],
    b: Binary,
    out: &mut [u8],
    at: usize,
) -> Result<Built, Reason>
    requires { Ready s.now words.now n owner.now b.depth b.offset at × Operation (le2 s.now (b.offset + 4)) b.kind }
    ensures within { IfOk result (Within at (1024 * (4 + le4 s.now b.offset))) }
    ensures builds { (a : Accepted s.now 64 91 b.offset) → Builds s.now out.old at words.now out.new result (build_expr_ir owner.now (prefix_of b.depth) (expr_of (tree a)) (entries_of s.now words.now n)) }
{
    let depth = b.depth;
    let first = b.offset + 6;
    let p = builder_nodes::open_node(out, at, b.kind, NodeMetadata::default_alignment());
    let one = Nested {
        offset: first,
        depth,
    };
    let left = build_expr_ir(s, words, n, owner, one, out, p)?;
    let second = b.offset + 10 + wire::read4(s, first);
    let two = Nested {
        offset: second,
        depth,
    };
    let right = build_expr_ir(s, words, left.count, owner, two, out, left.at)?;
    wire::close_block(out, at, right.at);
    Ok(right)
}
