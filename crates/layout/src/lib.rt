// A status table over a coarse mesh, laid out: the rows of its cells, the ends and the sums of its corners.
#![tactic(auto)]

ghost use Rattle.std.specs.Prelude.{◌≡◌, true, ◌++◌, ◌+◌, ◌*◌, ◌≤◌, length, take, drop};
ghost use Rattle.base.specs.Limits.{full_ends, full_rows, full_sums, most_cells, most_coarse_corners};
ghost use Rattle.mesh.specs.Coarse.{coarse_corner_count};
ghost use Rattle.corners.specs.Ends.{Ends, end_numbers};
ghost use Rattle.corners.specs.Sums.{Smalls, sum_numbers};
ghost use Rattle.layout.specs.Calls.{lentb, LaysOut};

use base::{FULL_ENDS, FULL_ROWS, FULL_SUMS, Refusal};
use opening::empty_table;
use pairs::PairTable;

// How many cells, corners and levels a table has.
#[derive(Clone, Copy)]
pub struct Sizes {
    pub cells: usize,
    pub corners: usize,
    pub levels: usize,
}

// Whether the lent tables are long enough.
#[tactic(auto, unfolding(crate::specs::Calls::lentb))]
fn lent(table: &[u16], ends: &[u16], sums: &[i32]) -> bool
    ensures { result ≡ lentb table.now ends.now sums.now }
{
    table.len() >= FULL_ROWS && ends.len() >= FULL_ENDS && sums.len() >= FULL_SUMS
}

// Writes the rows of a table, the ends and the sums of its corners.
fn write_out<const M: usize, const MH: usize>(
    positions: &[i32],
    rows: &[u16],
    mids: &PairTable<M, MH>,
    cells: usize,
    table: &mut [u16],
    ends: &mut [u16],
    sums: &mut [i32],
)
    requires cells_le_most_cells { (cells ≤ most_cells) × (mids.now.n ≤ cells) }
    requires corners { (coarse_corner_count positions.now ≤ most_coarse_corners) × Ends (coarse_corner_count positions.now) mids.now.xs mids.now.ys mids.now.n }
    requires smalls { Smalls 500000 positions.now }
    requires cells_in_bounds { 8 * cells ≤ length rows.now }
    requires full_rows_in_bounds { (full_rows ≤ length table.old) × (full_ends ≤ length ends.old) × (full_sums ≤ length sums.old) }
    ensures table_value { table.new ≡ take (8 * cells) rows.now ++ drop (8 * cells) table.old }
    ensures ends_value { ends.new ≡ end_numbers (coarse_corner_count positions.now) mids.now.xs mids.now.ys mids.now.n
        ++ drop (2 * (coarse_corner_count positions.now + mids.now.n)) ends.old }
    ensures sums_value { sums.new ≡ sum_numbers positions.now (coarse_corner_count positions.now) mids.now.xs mids.now.ys mids.now.n
        ++ drop (3 * (coarse_corner_count positions.now + mids.now.n)) sums.old }
{
    let n = positions.len() / 3;
    base::copy_front(rows, 8 * cells, table);
    corners::fill_ends(&mids.xs, &mids.ys, n, mids.n, ends);
    corners::fill_sums(positions, &mids.xs, &mids.ys, n, mids.n, sums);
}

// Lays a table out, with tables for the work of these sizes: they are set to zero first.
fn lay_out_in<const R: usize, const M: usize, const MH: usize>(
    positions: &[i32],
    cells: &[u16],
    status: &[u8],
    table: &mut [u16],
    ends: &mut [u16],
    sums: &mut [i32],
) -> Result<Sizes, Refusal>
    requires room { length status.now ≤ most_cells → (2048 ≤ R) × (8 * length status.now ≤ R) × (length status.now ≤ M) }
    requires sizes { (R ≤ 65536) × (M ≤ 65536) × (1024 ≤ MH) × (MH ≤ 65536) }
    requires lent { lentb table.old ends.old sums.old ≡ true }
    ensures { LaysOut positions.now cells.now status.now table.old ends.old sums.old result table.new ends.new sums.new }
{
    let mut rows = [0u16; R];
    let mut mids: PairTable<M, MH> = empty_table!(M, MH);
    let laid = opening::open(positions, cells, status, &mut rows, &mut mids)?;
    write_out(positions, &rows, &mids, laid.cells, table, ends, sums);
    Ok(Sizes {
        cells: laid.cells,
        corners: positions.len() / 3 + mids.n,
        levels: laid.levels,
    })
}

// Lays a table out: eight numbers a cell, the two ends and the three weighted sums of each corner. Refusals 15 and 1 to 6.
pub fn lay_out(
    positions: &[i32],
    cells: &[u16],
    status: &[u8],
    table: &mut [u16],
    ends: &mut [u16],
    sums: &mut [i32],
) -> Result<Sizes, Refusal>
    ensures { LaysOut positions.now cells.now status.now table.old ends.old sums.old result table.new ends.new sums.new }
{
    if !lent(table, ends, sums) {
        return Err(Refusal::Lent);
    }
    if status.len() > 512 {
        lay_out_in::<32768, 4096, 4096>(positions, cells, status, table, ends, sums)
    } else if status.len() > 128 {
        lay_out_in::<4096, 512, 4096>(positions, cells, status, table, ends, sums)
    } else {
        lay_out_in::<2048, 128, 1024>(positions, cells, status, table, ends, sums)
    }
}
