// A table of edges, each the pair of its two corner numbers, over `pairs`: the entries that are looked at are different edges in the
// order of their first appearance.
#![tactic(auto)]

ghost use Rattle.std.specs.Prelude.{◌≡◌};
ghost use Rattle.base.specs.Places.{hasb};
ghost use Rattle.edges.specs.Pairs.{sorted, isb};
ghost use Rattle.edges.specs.Table.{entries, Edges, Space, Inserted};

use pairs::PairTable;

// The two corners of an edge, the lower one first.
pub fn sorted_ends(a: u16, b: u16) -> (u32, u32)
    ensures { result ≡ sorted (a, b) }
{
    (u32::from(a.min(b)), u32::from(a.max(b)))
}

// Whether the edge stands among the entries that are looked at.
pub fn holds<const N: usize, const H: usize>(table: &PairTable<N, H>, a: u16, b: u16) -> bool
    ensures { result ≡ hasb isb (entries table.now) (sorted (a, b)) }
{
    let (low, high) = sorted_ends(a, b);
    table.find(low, high).is_some()
}

// Finds the edge among the entries that are looked at, or adds it behind them: the entry that it stands at.
pub fn insert<const N: usize, const H: usize>(table: &mut PairTable<N, H>, a: u16, b: u16) -> usize
    requires edges { Edges table.old }
    requires room { Space table.old 1 }
    ensures { Inserted table.old (a, b) table.new result }
{
    let (low, high) = sorted_ends(a, b);
    if let Some(at) = table.find(low, high) {
        return at;
    }
    let at = table.n;
    table.add(low, high);
    at
}
