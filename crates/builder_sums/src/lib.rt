// builder.rs, `build_field_ref_nodes` and `combine_checked_add`: the sum of an owner's references.
#![tactic(auto)]

ghost use Rattle.std.specs.Prelude.{◌≡◌, [], ◌+◌, ◌*◌, ◌^◌, ◌≤◌, ◌<◌, length, take, get_or, IfOk};
ghost use Rattle.blocks.specs.Bytes.{name_at};
ghost use Rattle.builder.specs.Nodes.{payload_paths, sum_refs};
ghost use Rattle.resolved_parts.specs.Types.{Named, PathsAt, texts_of};
ghost use Rattle.builder_registry.specs.Words.{entries_of};
ghost use Rattle.builder_nodes.specs.Built.{Builds, Within};
ghost use Rattle.builder_sums.specs.Ready.{Ready, chosen, some_name};
ghost use Rattle.builder_sums.specs.Paths.{Reading, Summing, taken, picks, build_ref};

use builder_nodes::Built;
use errors::Reason;

// The paths that a sum takes: those of the list at `paths`, or only those of them that end in `.payload_size`.
#[derive(Clone, Copy)]
struct PathChoice {
    only: bool,
    paths: usize,
}

impl PathChoice {
    // Whether it takes the path at an offset.
    fn takes(self, s: &[u8], q: usize) -> bool
        requires { Named s.now q }
        ensures { result ≡ taken self.only (name_at s.now q) }
    {
        !self.only || builder_names::ends_with(resolved_parts::name_at(s, q), b".payload_size")
    }

    // How many paths it takes.
    fn count(self, s: &[u8]) -> usize
        requires { Reading s.now self.paths }
        ensures { (result ≡ length (picks s.now self.only self.paths)) × (result ≤ 64) }
    {
        let mut q = self.paths + 2;
        let mut m = 0;
        for _ in 0..wire::read2(s, self.paths) {
            m += usize::from(self.takes(s, q));
            q = resolved_parts::next_name(s, q);
        }
        m
    }

    // Where the path that it takes stands which has this number, counted from 0.
    fn nth(self, s: &[u8], i: usize) -> usize
        requires { Reading s.now self.paths × (i < length (picks s.now self.only self.paths)) }
        ensures { Named s.now result × (name_at s.now result ≡ get_or (picks s.now self.only self.paths) i []) }
    {
        let mut q = self.paths + 2;
        let mut j = i;
        for _ in 0..wire::read2(s, self.paths) {
            let w = usize::from(self.takes(s, q));
            if j < w {
                return q;
            }
            j -= w;
            q = resolved_parts::next_name(s, q);
        }
        q
    }
}

// Whether a path ends in `.payload_size`.
pub fn has_payload(s: &[u8], paths: usize) -> bool
    requires { PathsAt s.now paths }
    ensures { (p : PathsAt s.now paths) → result ≡ some_name (payload_paths (texts_of p.list.got.0)) }
{
    let chosen = PathChoice { only: true, paths };
    0 < chosen.count(s)
}

// The reference of the chosen path with this number.
fn put_ref(
    s: &[u8],
    words: &[u64],
    n: usize,
    owner: &[u8],
    chosen: PathChoice,
    i: usize,
    out: &mut [u8],
    at: usize,
) -> Result<Built, Reason>
    requires { Summing s.now words.now n owner.now chosen.paths × (i < length (picks s.now chosen.only chosen.paths)) × (at < 2 ^ 58) }
    ensures within { IfOk result (Within at 1100) }
    ensures builds { Builds s.now out.old at words.now out.new result (build_ref owner.now (get_or (picks s.now chosen.only chosen.paths) i []) (entries_of s.now words.now n)) }
{
    let path = resolved_parts::name_at(s, chosen.nth(s, i));
    let e = builder_registry::lookup_name(s, words, n, owner, path).ok_or(
        Reason::MissingParameter,
    )?;
    if 255 < owner.len() + (1 + path.len()) {
        return Err(Reason::LimitExceeded);
    }
    let r = builder_nodes::put_size_ref(s, words[e], owner, path, out, at);
    Ok(Built { at: r, count: n })
}

// The sum of the first k chosen paths, left-nested: the sum of one less stands in front of the last.
fn put_sum(
    s: &[u8],
    words: &[u64],
    n: usize,
    owner: &[u8],
    chosen: PathChoice,
    k: usize,
    out: &mut [u8],
    at: usize,
) -> Result<Built, Reason>
    requires { Summing s.now words.now n owner.now chosen.paths × (k ≤ length (picks s.now chosen.only chosen.paths)) × (0 < k) × (at + 1115 * k < 2 ^ 58) }
    ensures within { IfOk result (Within at (1115 * k)) }
    ensures builds { Builds s.now out.old at words.now out.new result (sum_refs owner.now (take k (picks s.now chosen.only chosen.paths)) (entries_of s.now words.now n)) }
{
    if k == 1 {
        return put_ref(s, words, n, owner, chosen, 0, out, at);
    }
    let p = builder_nodes::open_add(out, at);
    let l = put_sum(s, words, n, owner, chosen, k - 1, out, p)?;
    let m = put_ref(s, words, l.count, owner, chosen, k - 1, out, l.at)?;
    wire::close_block(out, at, m.at);
    Ok(m)
}

// The sum of the references of an owner; `only`: of those that end in `.payload_size`.
pub fn sum_refs(
    s: &[u8],
    words: &[u64],
    n: usize,
    owner: &[u8],
    only: bool,
    paths: usize,
    out: &mut [u8],
    at: usize,
) -> Result<Built, Reason>
    requires { Ready s.now words.now n owner.now paths at }
    ensures within { IfOk result (Within at (2 ^ 17)) }
    ensures builds { (p : PathsAt s.now paths) → Builds s.now out.old at words.now out.new result (sum_refs owner.now (chosen only (texts_of p.list.got.0)) (entries_of s.now words.now n)) }
{
    let chosen = PathChoice { only, paths };
    let k = chosen.count(s);
    if k == 0 {
        return Err(Reason::MissingDynamicRefs);
    }
    put_sum(s, words, n, owner, chosen, k, out, at)
}
