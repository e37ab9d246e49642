// Status tables that are known to be sound, laid out level by level: nothing is examined.
#![tactic(auto)]

ghost use Rattle.std.specs.Prelude.{◌≡◌, T, length};
ghost use Rattle.base.specs.Fours.{fours};
ghost use Rattle.mesh.specs.Table.{soundb};
ghost use Rattle.tables.specs.Room.{TableRoom};
ghost use Rattle.tables.specs.Sound.{Mesh, LaidSound};

use cutting::Families;
use pairs::PairTable;
use tables::Sizes;

// The rows of a sound table over an accepted mesh of n corners, level by level; nothing is examined. The new corners become the entries of
// mids. Gives how many cells and levels there are.
pub fn lay<const M: usize, const K: usize>(
    mesh: &[u16],
    n: usize,
    status: &[u8],
    rows: &mut [u16],
    mids: &mut PairTable<M, K>,
    families: &Families,
) -> Sizes
    requires mesh { Mesh n mesh.now }
    requires sound { T (soundb n (fours mesh.now) status.now) }
    requires table_room { TableRoom status.now rows.old M }
    requires empty { (mids.old.from ≡ 0) × (mids.old.n ≡ 0) }
    ensures laid { LaidSound n (fours mesh.now) status.now rows.new mids.new.xs mids.new.ys result.cells result.levels mids.new.n }
    ensures coarse { result.coarse ≡ length (fours mesh.now) }
{
    let coarse = tables::lay_coarse(mesh, rows);
    let mut first = 0;
    let mut last = coarse;
    let mut level = 0;
    // No range: how many levels there are is found on the way.
    loop {
        let size = rows::level_size(status, first, last);
        if size == 0 {
            return Sizes {
                coarse,
                cells: last,
                levels: level + 1,
            };
        }
        let up = (level + 1) as u16;
        let next = growth::grow_level(rows, status, first, last, up, last, n, mids, families);
        first = last;
        last = next;
        level += 1;
    }
}
