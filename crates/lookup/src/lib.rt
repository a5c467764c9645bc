// Lookups by name in accepted bytes.
#![tactic(auto)]

ghost use Rattle.std.specs.Prelude.{◌≡◌, ◌+◌, ◌≤◌, length};
ghost use Rattle.errors.specs.Refusal.{done};
ghost use Rattle.blocks.specs.Bytes.{le2};
ghost use Rattle.blocks.specs.Name.{same};
ghost use Rattle.blocks.specs.Tree.{Tree};
ghost use Rattle.blocks.specs.Read.{read_set, read_layout};
ghost use Rattle.resolved.specs.Set.{types_of};
ghost use Rattle.ir.specs.Layout.{layout_of};
ghost use Rattle.accepted.specs.Accepted.{Entries, Item, name_at};
ghost use Rattle.lookup.specs.Named.{Placed};
ghost use Rattle.lookup.specs.Found.{TypeFound, TreeFound, first_value};

use wire::Position;

// Whether this name stands at an offset.
pub fn is_named(s: &[u8], at: usize, name: &[u8]) -> bool
    requires { at + 2 + le2 s.now at ≤ length s.now }
    ensures { result ≡ same name.now (name_at s.now at) }
{
    wire::same_name(name, wire::name_at(s, at))
}

// The offset of the type of a name in an accepted set.
pub fn get_type_info(set: &[u8], name: &[u8]) -> Option<usize>
    requires { (t : Tree) × (read_set set.now ≡ done t) }
    ensures { (t : Tree) → read_set set.now ≡ done t → TypeFound set.now name.now (types_of t) result }
{
    let found = wire::block_named(set, 8, wire::read2(set, 6), name)?;
    Some(found.at)
}

// The type tree of a name in an accepted layout.
pub fn lookup_type(layout: &[u8], name: &[u8]) -> Option<Position>
    requires { (t : Tree) × (read_layout layout.now ≡ done t) }
    ensures { (t : Tree) → read_layout layout.now ≡ done t → TreeFound layout.now name.now (layout_of t) result }
{
    wire::block_named(layout, 8, wire::read2(layout, 6), name)
}

// The same as `lookup_type`; the search begins at the type tree of a place and goes on from the first, because a type is mostly
// called by one that stands shortly before it. The names are distinct, so that it does not matter where it begins.
pub fn lookup_near(layout: &[u8], name: &[u8], place: usize, at: usize) -> Option<Position>
    requires { ((t : Tree) × (read_layout layout.now ≡ done t)) × Placed layout.now place at }
    ensures { (t : Tree) → read_layout layout.now ≡ done t → TreeFound layout.now name.now (layout_of t) result }
{
    match wire::block_named(layout, at, wire::read2(layout, 6) - place, name) {
        Some(found) => Some(Position {
            place: place + found.place,
            at: found.at,
        }),
        None => wire::block_named(layout, 8, place, name),
    }
}

// Of so many entries from an offset on, each a name and its number, the first value of a name. An entry has ten bytes beside its name; the next
// offset is one sum, so that a step takes as long as it takes to read a length.
pub fn value_from(s: &[u8], from: usize, count: usize, name: &[u8]) -> Option<usize>
    requires { Entries s.now Item.values count from }
    ensures { result ≡ first_value s.now name.now count from }
{
    let mut at = from;
    for _ in 0..count {
        if is_named(s, at, name) {
            return Some(wire::behind_name(s, at));
        }
        at = at + 10 + wire::read2(s, at);
    }
    None
}
