// Looks into a table of edges that spare a search: whether an edge may have a corner, and one look for an edge, without a branch.
#![tactic(auto)]

ghost use Rattle.std.specs.Prelude.{◌≡◌, not, false, ◌+◌, ◌-◌, ◌*◌, ◌<◌, ◌≤◌, eqb};
ghost use Rattle.base.specs.Bools.{one_if};
ghost use Rattle.base.specs.Places.{hasb};
ghost use Rattle.pairs.specs.Keys.{hereb, seek};
ghost use Rattle.edges.specs.Pairs.{sorted, isb};
ghost use Rattle.edges.specs.Table.{entries};
ghost use Rattle.probing.specs.Probed.{Probed, Unmet};

use pairs::PairTable;

// 1 where entry e is the pair, else 0. A product: `&&` would be a branch.
fn same_at<const N: usize, const H: usize>(
    table: &PairTable<N, H>,
    e: usize,
    x: u32,
    y: u32,
) -> usize
    requires { e < N }
    ensures { result ≡ one_if (hereb table.now.xs table.now.ys x y e) }
{
    usize::from(table.xs[e] == x) * usize::from(table.ys[e] == y)
}

// The entry k - 1 where there is one, else 0.
fn entry_or_first(there: usize, k: usize) -> usize
    requires { (there ≤ 1) × (there ≤ k) × (k < 65536) }
    ensures { (there ≡ 0 → result ≡ 0) × (there ≡ 1 → result + 1 ≡ k) }
{
    there * k - there
}

// 0 where there is no entry or it is the last one and another pair, 1 where it is the pair, else 2. An enum and an Option would be
// branches, which are slower here.
fn verdict(there: usize, same: usize, more: usize) -> usize
    requires { (there ≤ 1) × (same ≤ 1) × (more ≤ 1) }
    ensures { (there ≡ 0 → result ≡ 0) × (there ≡ 1 → same ≡ 1 → result ≡ 1) × (there ≡ 1 → same ≡ 0 → result ≡ 2 * more) }
{
    there * (same + 2 * (1 - same) * more)
}

// One look for the pair among the entries that are looked at: 0 where it is not there, 1 where it is, 2 where a search must tell. There
// is no branch in it: on large meshes a processor guesses wrong whether a bucket is empty.
fn probe_pair<const N: usize, const H: usize>(table: &PairTable<N, H>, x: u32, y: u32) -> usize
    requires { table.now.from < table.now.n }
    ensures { Probed (not (eqb (seek table.now.xs table.now.ys x y table.now.from (table.now.n - table.now.from)) 65535)) result }
{
    let b = pairs::bucket_of(H, x, y);
    let k = (table.heads[b] as usize + 1) % 65536;
    let there = usize::from(k > table.from);
    let e = entry_or_first(there, k);
    let same = same_at(table, e, x, y);
    let more = usize::from((table.links[e] as usize + 1) % 65536 > table.from);
    verdict(there, same, more)
}

// One look for the edge among the entries that are looked at: 0 where it is not there, 1 where it is, 2 where a search must tell.
pub fn probe<const N: usize, const H: usize>(table: &PairTable<N, H>, a: u16, b: u16) -> usize
    requires { table.now.from < table.now.n }
    ensures { Probed (hasb isb (entries table.now) (sorted (a, b))) result }
{
    let (low, high) = edges::sorted_ends(a, b);
    probe_pair(table, low, high)
}

// Whether an edge that is looked at may have the corner a. Where none may, none has.
pub fn may_meet<const N: usize, const H: usize>(table: &PairTable<N, H>, a: u16) -> bool
    ensures { result ≡ false → Unmet (entries table.now) a }
{
    table.may_have(u32::from(a))
}
