// Slots found by the marks of their names: a table in a slice of words. A client walks `j = last(table, mark)`, then, while 0 < j, asks
// slot j - 1 and goes on at `j = before(table, mark, j)`. (A slot is told as the table's words hold it, plus 1, and 0 for none: an
// Option would be made and taken apart at each step of the walk. The words may be a table of other marks too, and the contracts hold for
// each: an invariant of a struct of table and mark would say no more than that there is one.)
#![tactic(auto)]

ghost use Rattle.std.specs.Prelude.{◌≡◌, ℕ, ◌+◌, ◌-◌, ◌≤◌, ◌<◌, length};
ghost use Rattle.marks.specs.Mark.{step, mark_of};
ghost use Rattle.marks.specs.Table.{Linked, Table, Chain, Prior};

// The mark with a byte more.
#[tactic(auto, unfolding(crate::specs::Mark::step))]
fn step(h: u64, b: u8) -> u64
    ensures { result ≡ step h b }
{
    let b = u64::from(b);
    h % 4294967296 * (2654435769 + b) + h / 4294967296 + b
}

// The mark of a name behind bytes whose mark is h; 0 is the mark of none.
#[tactic(auto, unfolding(crate::specs::Mark::mark_of))]
pub fn mark(h: u64, name: &[u8]) -> u64
    ensures { result ≡ mark_of h name.now }
{
    let mut m = h;
    for b in name {
        m = step(m, *b);
    }
    m
}

// An empty table: no place has a slot.
pub fn clear(table: &mut [u64])
    requires { 127 ≤ length table.old }
    ensures { (f : ℕ → ℕ) → Linked table.new f 0 }
{
    table[..127].fill(0);
}

// The slot gets its mark, and the link to the last slot of its place; that place then leads to it.
pub fn link(table: &mut [u64], slot: usize, mark: u64)
    requires { (slot < 65536) × (127 + slot < length table.old) }
    ensures { (f : ℕ → ℕ) → Linked table.old f slot → f slot ≡ mark → Linked table.new f (slot + 1) }
{
    let p = (mark % 127) as usize;
    let w = mark % 281474976710656 * 65536 + table[p] % 65536;
    table[127 + slot] = w;
    table[p] = slot as u64 + 1;
}

// From slot j - 1 on back by the links: the first slot, plus 1, that may have the mark; 0 where there is none.
fn reach(table: &[u64], mark: u64, j: usize) -> usize
    requires { Chain table.now mark j }
    ensures { (c : Chain table.now mark j) → Prior c.table.marks mark j result }
{
    let mut i = j;
    while 0 < i {
        let w = table[126 + i];
        if w / 65536 == mark % 281474976710656 {
            return i;
        }
        i = (w % 65536) as usize;
    }
    0
}

// The last slot, plus 1, that may have the mark; 0 where there is none.
pub fn last(table: &[u64], mark: u64) -> usize
    requires { Table table.now }
    ensures { (t : Table table.now) → Prior t.marks mark t.count result }
{
    let p = (mark % 127) as usize;
    let head = table[p] as usize;
    reach(table, mark, head)
}

// The next slot, plus 1, before slot j - 1 that may have the mark; 0 where there is none.
pub fn before(table: &[u64], mark: u64, j: usize) -> usize
    requires { (0 < j) × Chain table.now mark j }
    ensures { (c : Chain table.now mark j) → Prior c.table.marks mark (j - 1) result }
{
    let link = (table[126 + j] % 65536) as usize;
    reach(table, mark, link)
}
