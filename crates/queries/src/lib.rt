// What is asked of a status table over a coarse mesh: a cell's ancestor, the counts of every level.
#![tactic(auto)]

ghost use Rattle.std.specs.Prelude.{◌≡◌, ◌*◌, ◌≤◌, IfOk, length, get_or};
ghost use Rattle.base.specs.Limits.{full_counts, most_cells};
ghost use Rattle.base.specs.Refuse.{answered, held_after};
ghost use Rattle.mesh.specs.Cells.{no_cell};
ghost use Rattle.mesh.specs.Counts.{count_table};
ghost use Rattle.mesh.specs.Answers.{levels_in, cells_in};
ghost use Rattle.ancestors.specs.Linked.{ancestor_of};
ghost use Rattle.queries.specs.Calls.{ancestor_answer, counts_answer};

use ancestors::Ancestor;
use base::{FULL_COUNTS, Refusal};
use opening::empty_table;
use pairs::PairTable;

// A cell's ancestor, with tables for the work of these sizes: they are set to zero first.
fn ancestor_in<const R: usize, const M: usize, const MH: usize>(
    positions: &[i32],
    cells: &[u16],
    status: &[u8],
    cell: usize,
) -> Result<Ancestor, Refusal>
    requires room { length status.now ≤ most_cells → (2048 ≤ R) × (8 * length status.now ≤ R) × (length status.now ≤ M) }
    requires sizes { (R ≤ 65536) × (M ≤ 65536) × (1024 ≤ MH) × (MH ≤ 65536) }
    ensures answer { answered result ≡ ancestor_answer positions.now cells.now status.now cell }
    ensures ancestor { IfOk result (λ a. a ≡ ancestor_of (get_or (cells_in positions.now cells.now status.now) cell no_cell)) }
{
    let mut rows = [0u16; R];
    let mut mids: PairTable<M, MH> = empty_table!(M, MH);
    let sizes = opening::open(positions, cells, status, &mut rows, &mut mids)?;
    if cell >= sizes.cells {
        return Err(Refusal::Marks);
    }
    Ok(ancestors::climb(&rows, cell))
}

// A cell's coarse ancestor and level. Refusals 1 to 6, then 7 where there is no such cell.
pub fn ancestor(
    positions: &[i32],
    cells: &[u16],
    status: &[u8],
    cell: usize,
) -> Result<Ancestor, Refusal>
    ensures answer { answered result ≡ ancestor_answer positions.now cells.now status.now cell }
    ensures ancestor { IfOk result (λ a. a ≡ ancestor_of (get_or (cells_in positions.now cells.now status.now) cell no_cell)) }
{
    if status.len() > 512 {
        ancestor_in::<32768, 4096, 4096>(positions, cells, status, cell)
    } else if status.len() > 128 {
        ancestor_in::<4096, 512, 4096>(positions, cells, status, cell)
    } else {
        ancestor_in::<2048, 128, 1024>(positions, cells, status, cell)
    }
}

// The counts of every level, with tables for the work of these sizes.
fn counts_in<const R: usize, const M: usize, const MH: usize>(
    positions: &[i32],
    cells: &[u16],
    status: &[u8],
    counts: &mut [u16],
) -> Result<usize, Refusal>
    requires room { length status.now ≤ most_cells → (2048 ≤ R) × (8 * length status.now ≤ R) × (length status.now ≤ M) }
    requires sizes { (R ≤ 65536) × (M ≤ 65536) × (1024 ≤ MH) × (MH ≤ 65536) }
    requires full_counts_in_bounds { full_counts ≤ length counts.old }
    ensures answer { answered result ≡ counts_answer positions.now cells.now status.now counts.old }
    ensures levels { IfOk result (λ n. n ≡ length (levels_in positions.now cells.now status.now)) }
    ensures counts_value { counts.new
        ≡ held_after (counts_answer positions.now cells.now status.now counts.old)
        (count_table (levels_in positions.now cells.now status.now))
        counts.old }
{
    let mut rows = [0u16; R];
    let mut mids: PairTable<M, MH> = empty_table!(M, MH);
    opening::open(positions, cells, status, &mut rows, &mut mids)?;
    Ok(counting::count_levels(status, cells.len() / 4, counts))
}

// The counts of every level, four numbers each: cells, red, green, leaf. Refusals 15 and 1 to 6.
pub fn counts(
    positions: &[i32],
    cells: &[u16],
    status: &[u8],
    counts: &mut [u16],
) -> Result<usize, Refusal>
    ensures answer { answered result ≡ counts_answer positions.now cells.now status.now counts.old }
    ensures levels { IfOk result (λ n. n ≡ length (levels_in positions.now cells.now status.now)) }
    ensures counts_value { counts.new
        ≡ held_after (counts_answer positions.now cells.now status.now counts.old)
        (count_table (levels_in positions.now cells.now status.now))
        counts.old }
{
    if counts.len() < FULL_COUNTS {
        return Err(Refusal::Lent);
    }
    if status.len() > 512 {
        counts_in::<32768, 4096, 4096>(positions, cells, status, counts)
    } else if status.len() > 128 {
        counts_in::<4096, 512, 4096>(positions, cells, status, counts)
    } else {
        counts_in::<2048, 128, 1024>(positions, cells, status, counts)
    }
}
