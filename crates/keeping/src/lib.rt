// What each cell of an old table keeps after a step.
#![tactic(auto)]

ghost use Rattle.std.specs.Prelude.{◌≡◌, ◌≤◌, MatchResult};
ghost use Rattle.base.specs.Fours.{fours};
ghost use Rattle.keeping.specs.Marked.{Marked, Kept, Unkept};

use base::Refusal;
use flagging::OldTable;
use pairs::PairTable;

// Writes what each cell keeps: 64 where it will be red, else the pattern of its edges that cells of its level hold which will be. Gives
// whether a cell of level 10 will be red. Without room for six edges of each cell that will be red, what `kept` holds is free, and the
// refusal is 8 where a cell of level 10 will be, else 9. The table is for the work.
pub fn keep<const N: usize, const H: usize>(
    mesh: &[u16],
    n: usize,
    rows: &[u16],
    status: &[u8],
    marks: &[u8],
    kids: &[u16],
    kept: &mut [u8],
    table: &mut PairTable<N, H>,
) -> Result<bool, Refusal>
    requires marked { Marked n mesh.now rows.now status.now marks.now kids.now kept.old }
    requires small { N ≤ 65535 }
    requires empty { (table.old.from ≡ 0) × (table.old.n ≡ 0) }
    ensures { MatchResult result
        (λ high. Kept n (fours mesh.now) status.now marks.now kept.old kept.new high)
        (λ r. Unkept n (fours mesh.now) status.now marks.now N r) }
{
    let old = OldTable {
        rows,
        status,
        marks,
        kids,
    };
    old.treat_all(kept, table)
}
