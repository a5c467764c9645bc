// The names of parameters, as parts of the caller's own paths.
#![tactic(auto)]

ghost use Rattle.std.specs.Prelude.{◌≡◌, true, ◌++◌, ℕ, ◌+◌, ◌≤◌, ◌<◌, ◌^◌, length, drop, MatchOption};
ghost use Rattle.blocks.specs.Name.{same};
ghost use Rattle.blocks.specs.Tree.{name};
ghost use Rattle.blocks.specs.Write.{write};
ghost use Rattle.wire.specs.Poke.{Wrote};
ghost use Rattle.marks.specs.Mark.{mark_of};
ghost use Rattle.builder.specs.Names.{normalize_path, canonical_name, rsplit_once, ends_with};
ghost use Rattle.builder_names.specs.Views.{Stripped, RestIs, colons, colons_before, place, Parts, alias_of, KeyIs};

// The key of a qualified path, in two parts: one of its owner, and one of the path.
#[derive(Clone, Copy)]
pub struct Key<'a> {
    pub head: &'a [u8],
    pub rest: &'a [u8],
}

// What stands behind the owner and a dot, if the path begins with them. Names are compared by `wire::same_name`, since they differ
// mostly at their end, which it reads first; that of a path without the dot is not compared.
#[tactic(auto, using(crate::proofs::Strip::strips))]
fn strip_owner<'a>(owner: &[u8], path: &'a [u8]) -> Option<&'a [u8]>
    ensures { Stripped owner.now path.now result }
{
    let n = owner.len();
    if n < path.len() && path[n] == b'.' && wire::same_name(&path[..n], owner) {
        return Some(&path[n + 1..]);
    }
    None
}

// The path without its owner: a part of the caller's path, empty where the path is the owner.
#[tactic(auto, using(crate::proofs::Strip::normals))]
pub fn normalize_path<'a>(owner: &[u8], path: &'a [u8]) -> &'a [u8]
    ensures { result.now ≡ normalize_path owner.now path.now }
{
    if wire::same_name(path, owner) {
        return b"";
    }
    strip_owner(owner, path).unwrap_or(path)
}

// What stands behind the owner and a dot in the canonical name, if the canonical name is not the owner.
#[tactic(auto, using(crate::proofs::Canonical::rests))]
fn rest_of<'a>(owner: &[u8], path: &'a [u8]) -> Option<&'a [u8]>
    ensures { MatchOption result (canonical_name owner.now path.now ≡ owner.now) (λ r. RestIs owner.now path.now r.now) }
{
    if path.is_empty() || wire::same_name(path, owner) {
        return None;
    }
    Some(strip_owner(owner, path).unwrap_or(path))
}

// How many bytes the canonical name has.
#[tactic(auto, using(crate::proofs::Canonical::length_rest))]
pub fn canonical_length(owner: &[u8], path: &[u8]) -> usize
    ensures { result ≡ length (canonical_name owner.now path.now) }
{
    let n = owner.len();
    match rest_of(owner, path) {
        Some(rest) => n + 1 + rest.len(),
        None => n,
    }
}

// The canonical name, written as a name.
#[tactic(auto, using(crate::proofs::Canonical::puts_rest))]
pub fn put_canonical_name(out: &mut [u8], at: usize, owner: &[u8], path: &[u8]) -> usize
    requires { at + length owner.now + length path.now < 2 ^ 60 }
    ensures wrote { Wrote out.old at (write (name (canonical_name owner.now path.now))) out.new result }
    ensures value { result ≡ at + (2 + length (canonical_name owner.now path.now)) }
{
    match rest_of(owner, path) {
        Some(rest) => {
            let n = owner.len() + 1 + rest.len();
            let p = wire::put_le(out, at, 2, n as u64);
            let q = wire::put_from(out, p, owner, 0);
            let u = wire::put_byte(out, q, b'.');
            wire::put_from(out, u, rest, 0)
        }
        None => wire::put_name(out, at, owner),
    }
}

// The mark of the canonical name, where h is that of its owner.
#[tactic(auto, using(crate::proofs::Canonical::mark_rest))]
pub fn canonical_mark(h: u64, owner: &[u8], path: &[u8]) -> u64
    ensures { (g : ℕ) → h ≡ mark_of g owner.now → result ≡ mark_of g (canonical_name owner.now path.now) }
{
    match rest_of(owner, path) {
        Some(rest) => {
            let dot = marks::mark(h, b".");
            marks::mark(dot, rest)
        }
        None => h,
    }
}

// Whether `::` stands at i.
#[tactic(auto, using(crate::proofs::Colons::colon_tests))]
pub fn colons_at(s: &[u8], i: usize) -> bool
    requires { i < length s.now }
    ensures value { result ≡ colons (drop i s.now) }
    ensures i_in_bounds { result ≡ true → i + 2 ≤ length s.now }
{
    i + 1 < s.len() && s[i] == b':' && s[i + 1] == b':'
}

// Where the last `::` of a name stands, if there is one.
#[tactic(auto, using(crate::proofs::Colons::splits))]
pub fn last_colons(name: &[u8]) -> Option<usize>
    ensures value { result ≡ place (rsplit_once name.now) }
    ensures parts { Parts name.now result }
{
    for i in (0..name.len()).rev() {
        if colons_at(name, i) {
            return Some(i);
        }
    }
    None
}

// Whether `::` stands in the path before an end as long as the head and the rest: if not, they are not its alias.
#[tactic(auto, using(crate::proofs::Colons::befores))]
pub fn colons_before(path: &[u8], head: &[u8], rest: &[u8]) -> bool
    ensures { result ≡ colons_before (length head.now + length rest.now) path.now }
{
    let n = head.len() + rest.len();
    n <= path.len() && 2 <= path.len() - n && colons_at(path, path.len() - n - 2)
}

// The alias of a path, what stands behind its last `::` unless that is the normal path; empty where there is none.
#[tactic(auto, using(crate::proofs::Colons::aliases))]
pub fn alias<'a>(path: &'a [u8], normal: &[u8]) -> &'a [u8]
    ensures { result.now ≡ alias_of path.now normal.now }
{
    match last_colons(path) {
        Some(i) => {
            let behind = &path[i + 2..];
            if wire::same_name(behind, normal) {
                return b"";
            }
            behind
        }
        None => b"",
    }
}

// Whether a name ends with another.
pub fn ends_with(name: &[u8], end: &[u8]) -> bool
    ensures { result ≡ ends_with end.now name.now }
{
    name.ends_with(end)
}

// Whether the head and the path are the name.
#[tactic(auto, using(crate::proofs::Qualified::behinds))]
pub fn same_behind(head: &[u8], path: &[u8], name: &[u8]) -> bool
    ensures { result ≡ same (head.now ++ path.now) name.now }
{
    let n = head.len();
    n <= name.len() && wire::same_name(&name[..n], head) && wire::same_name(path, &name[n..])
}

// The key of the path qualified by the owner's parent, if it has one. The parent and `::` are the key's head; they fall away where the
// path begins with the rest of the owner.
pub fn qualified_key<'a>(owner: &'a [u8], path: &'a [u8]) -> Option<Key<'a>>
    ensures { KeyIs owner.now path.now result }
{
    let i = last_colons(owner)?;
    let (parent, own) = owner.split_at(i + 2);
    if wire::same_name(path, own) {
        return Some(Key {
            head: b"",
            rest: b"",
        });
    }
    match strip_owner(own, path) {
        Some(rest) => Some(Key { head: b"", rest }),
        None => Some(Key {
            head: parent,
            rest: path,
        }),
    }
}
