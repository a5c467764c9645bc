// The path of a field reference (65), joined of its segments.
#![tactic(auto)]

ghost use Rattle.std.specs.Prelude.{◌≡◌, List, ◌+◌, ◌*◌, ◌≤◌, length};
ghost use Rattle.blocks.specs.Bytes.{le2};
ghost use Rattle.blocks.specs.Name.{Name, same};
ghost use Rattle.accepted.specs.Accepted.{Accepted, tree, name_at};
ghost use Rattle.expr.specs.Expr.{ExprKind, expr_of};
ghost use Rattle.resolved_parts.specs.Types.{Named};
ghost use Rattle.builder.specs.Names.{join};
ghost use Rattle.builder.specs.Nodes.{buffer_size};
ghost use Rattle.wire.specs.Poke.{Wrote};
ghost use Rattle.builder_paths.specs.Joined.{prefix_of, path_of, no_names, segment, Behind};

// What the name has behind a segment and its dot, if it begins with them. So many segments stand behind that one.
fn behind_segment<'a>(s: &[u8], at: usize, behind: usize, name: &'a [u8]) -> Option<&'a [u8]>
    requires { Named s.now at }
    ensures { Behind name.now (segment (behind + 1) (name_at s.now at)) result }
{
    let rest = name.strip_prefix(resolved_parts::name_at(s, at))?;
    if 0 < behind {
        return rest.strip_prefix(b".");
    }
    Some(rest)
}

// Whether the path is `__buffer_size`: the thirteen bytes are matched against the joined segments, which are not copied.
pub fn is_buffer_size(s: &[u8], at: usize) -> bool
    requires { Accepted s.now 64 91 at × (le2 s.now (at + 4) ≡ 65) }
    ensures { (a : Accepted s.now 64 91 at) (path : List Name) → expr_of (tree a) ≡ ExprKind.FieldRef path → result ≡ same (join path) buffer_size }
{
    let mut name: &[u8] = b"__buffer_size";
    let mut q = at + 8;
    for behind in (0..wire::read2(s, at + 6)).rev() {
        match behind_segment(s, q, behind, name) {
            Some(rest) => name = rest,
            None => return false,
        }
        q = resolved_parts::next_name(s, q);
    }
    name.is_empty()
}

// Whether the path has no segment.
pub fn no_segments(s: &[u8], at: usize) -> bool
    requires { Accepted s.now 64 91 at × (le2 s.now (at + 4) ≡ 65) }
    ensures { (a : Accepted s.now 64 91 at) (path : List Name) → expr_of (tree a) ≡ ExprKind.FieldRef path → result ≡ no_names path }
{
    wire::read2(s, at + 6) == 0
}

// How many bytes a segment and its dot have. So many segments stand behind it.
fn segment_length(s: &[u8], at: usize, behind: usize) -> usize
    requires { at + 2 + le2 s.now at ≤ length s.now }
    ensures { (result ≡ length (segment (behind + 1) (name_at s.now at))) × (result ≤ 1 + le2 s.now at) }
{
    let n = wire::read2(s, at);
    if 0 < behind {
        return n + 1;
    }
    n
}

// How many bytes the segments have, joined.
fn path_length(s: &[u8], at: usize) -> usize
    requires { Accepted s.now 64 91 at × (le2 s.now (at + 4) ≡ 65) × (length s.now ≤ 65536) }
    ensures value { (a : Accepted s.now 64 91 at) (path : List Name) → expr_of (tree a) ≡ ExprKind.FieldRef path → result ≡ length (join path) }
    ensures upper_bound { result ≤ 65536 }
{
    let mut q = at + 8;
    let mut n = 0;
    for behind in (0..wire::read2(s, at + 6)).rev() {
        n += segment_length(s, q, behind);
        q = resolved_parts::next_name(s, q);
    }
    n
}

// How many bytes the path has, inside so many arrays.
pub fn joined_length(s: &[u8], at: usize, depth: usize) -> usize
    requires { Accepted s.now 64 91 at × (le2 s.now (at + 4) ≡ 65) × (length s.now ≤ 65536) × (depth ≤ 65536) }
    ensures { (a : Accepted s.now 64 91 at) (path : List Name) → expr_of (tree a) ≡ ExprKind.FieldRef path → result ≡ length (path_of depth path) }
{
    let n = path_length(s, at);
    if depth == 0 {
        return n;
    }
    if n == 0 {
        return 8 * depth - 1;
    }
    8 * depth + n
}

// A segment and its dot. So many segments stand behind it.
fn put_segment(s: &[u8], at: usize, behind: usize, out: &mut [u8], p: usize) -> usize
    requires { Named s.now at × (length s.now ≤ 65536) × (p ≤ 1048576) }
    ensures wrote { Wrote out.old p (segment (behind + 1) (name_at s.now at)) out.new result }
    ensures upper_bound { result ≤ p + 1 + le2 s.now at }
{
    let e = wire::put_from(out, p, resolved_parts::name_at(s, at), 0);
    if 0 < behind {
        return wire::put_byte(out, e, b'.');
    }
    e
}

// The segments, joined.
fn put_path(s: &[u8], at: usize, out: &mut [u8], start: usize) -> usize
    requires { Accepted s.now 64 91 at × (le2 s.now (at + 4) ≡ 65) × (length s.now ≤ 65536) × (start ≤ 524288) }
    ensures { (a : Accepted s.now 64 91 at) (path : List Name) → expr_of (tree a) ≡ ExprKind.FieldRef path → Wrote out.old start (join path) out.new result }
{
    let mut q = at + 8;
    let mut p = start;
    for behind in (0..wire::read2(s, at + 6)).rev() {
        p = put_segment(s, q, behind, out, p);
        q = resolved_parts::next_name(s, q);
    }
    p
}

// So many times `element.`.
fn put_prefix(out: &mut [u8], depth: usize) -> usize
    requires { depth ≤ 65536 }
    ensures wrote { Wrote out.old 0 (prefix_of depth) out.new result }
    ensures value { result ≡ 8 * depth }
{
    let mut p = 0;
    for _ in 0..depth {
        p = wire::put_from(out, p, b"element.", 0);
    }
    p
}

// The path, inside so many arrays, written at the start of the output. Of an empty path the last dot before it is left out. (Inlined where the
// output is a buffer of the caller's own, the loop that writes a name would become a memcpy, and of the C library the archive needs memset alone.)
#[inline(never)]
pub fn put_joined(s: &[u8], at: usize, depth: usize, out: &mut [u8]) -> usize
    requires { Accepted s.now 64 91 at × (le2 s.now (at + 4) ≡ 65) × (length s.now ≤ 65536) × (depth ≤ 65536) }
    ensures { (a : Accepted s.now 64 91 at) (path : List Name) → expr_of (tree a) ≡ ExprKind.FieldRef path → Wrote out.old 0 (path_of depth path) out.new result }
{
    if depth == 0 {
        return put_path(s, at, out, 0);
    }
    if path_length(s, at) == 0 {
        let p = put_prefix(out, depth - 1);
        return wire::put_from(out, p, b"element", 0);
    }
    let p = put_prefix(out, depth);
    put_path(s, at, out, p)
}
