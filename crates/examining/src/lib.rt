// Status tables over a coarse mesh: examined and laid out, with a table for the work that goes by the number of statuses. It is set to
// zero first, so a small table is built with a small one.
#![tactic(auto)]

ghost use Rattle.std.specs.Prelude.{◌≡◌, ◌*◌, ◌≤◌, IfOk, length};
ghost use Rattle.base.specs.Fours.{fours};
ghost use Rattle.base.specs.Limits.{most_cells};
ghost use Rattle.base.specs.Refuse.{answered};
ghost use Rattle.tables.specs.Checked.{Statuses};
ghost use Rattle.tables.specs.Room.{TableRoom};
ghost use Rattle.tables.specs.Sound.{Mesh, LaidSound, sound_answer};

use base::{MOST_CELLS, Refusal};
use pairs::PairTable;
use tables::Sizes;

// Builds and examines a table of few statuses, with a table for the work that has room for N red edges.
fn examine_within<const N: usize, const H: usize, const M: usize, const K: usize>(
    mesh: &[u16],
    n: usize,
    status: &[u8],
    rows: &mut [u16],
    mids: &mut PairTable<M, K>,
) -> Result<Sizes, Refusal>
    requires red_size { (1024 ≤ H) × (H ≤ 65536) × (N ≤ 65536) }
    requires red_room { 3 * length status.now ≤ 4 * N }
    requires mesh { Mesh n mesh.now }
    requires statuses { Statuses status.now }
    requires table_room { TableRoom status.now rows.old M }
    requires empty { (mids.old.from ≡ 0) × (mids.old.n ≡ 0) }
    ensures answer { answered result ≡ sound_answer n (fours mesh.now) status.now }
    ensures laid { IfOk result (λ s. LaidSound n (fours mesh.now) status.now rows.new mids.new.xs mids.new.ys s.cells s.levels mids.new.n
        × (s.coarse ≡ length (fours mesh.now))) }
{
    let mut red: PairTable<N, H> = PairTable {
        xs: [0; N],
        ys: [0; N],
        heads: [65535; H],
        links: [0; N],
        from: 0,
        n: 0,
    };
    tables::build(mesh, n, status, rows, mids, &mut red)
}

// Makes a table empty, but for one that is: the heads of a new one are written already.
fn empty<const M: usize, const K: usize>(table: &mut PairTable<M, K>)
    ensures { (table.new.from ≡ 0) × (table.new.n ≡ 0) }
{
    if table.n == 0 {
        return;
    }
    table.clear();
}

// Examines a status table over an accepted mesh of n corners: 6 where it is not sound. Where it is sound, the rows are those of its
// cells, and the entries of mids, whatever it held, are its new corners.
pub fn examine<const M: usize, const K: usize>(
    mesh: &[u16],
    n: usize,
    status: &[u8],
    rows: &mut [u16],
    mids: &mut PairTable<M, K>,
) -> Result<Sizes, Refusal>
    requires mesh { Mesh n mesh.now }
    requires table_room { length status.now ≤ most_cells → TableRoom status.now rows.old M }
    ensures answer { answered result ≡ sound_answer n (fours mesh.now) status.now }
    ensures laid { IfOk result (λ s. LaidSound n (fours mesh.now) status.now rows.new mids.new.xs mids.new.ys s.cells s.levels mids.new.n
        × (s.coarse ≡ length (fours mesh.now))) }
{
    empty(mids);
    if status.len() > MOST_CELLS || !rows::fits(status) {
        return Err(Refusal::Unsound);
    }
    if status.len() <= 128 {
        return examine_within::<96, 2048, M, K>(mesh, n, status, rows, mids);
    }
    if status.len() <= 512 {
        return examine_within::<384, 5120, M, K>(mesh, n, status, rows, mids);
    }
    examine_within::<3072, 5120, M, K>(mesh, n, status, rows, mids)
}
