// One step of the multilevel red/green method.
#![tactic(auto)]

ghost use Rattle.std.specs.Prelude.{◌≡◌, ◌⊎◌, ◌*◌, ◌≤◌, ◌<◌, IfOk, length};
ghost use Rattle.base.specs.Fours.{fours};
ghost use Rattle.base.specs.Limits.{most_cells};
ghost use Rattle.base.specs.Refuse.{answered, held_after};
ghost use Rattle.mesh.specs.Coarse.{coarse_corner_count};
ghost use Rattle.mesh.specs.Answers.{markb, marksb, marked_answer, new_table};
ghost use Rattle.advance.specs.Advanced.{Advanced};
ghost use Rattle.step.specs.Calls.{step_answer};
ghost use Rattle.step.specs.Within.{begun_answer, Begun};

use advance::Work;
use base::{MOST_CELLS, Refusal};
use opening::empty_table;
use pairs::PairTable;

// Whether a mark may stand at a cell with this status.
#[tactic(auto, unfolding(mesh::specs::Answers::markb))]
fn mark_fits(status: u8, mark: u8) -> bool
    ensures { result ≡ markb status mark }
{
    mark <= 2 && (status == 0 || mark == 0)
}

// Whether the marks fit the table.
pub fn marks_fit(status: &[u8], marks: &[u8]) -> bool
    ensures { result ≡ marksb status.now marks.now }
{
    marks.len() == status.len() && (0..status.len()).all(|c| mark_fits(status[c], marks[c]))
}

// Opens the table and looks at the marks: refusals 1 to 7.
fn begin<const R: usize, const M: usize, const MH: usize>(
    positions: &[i32],
    cells: &[u16],
    status: &[u8],
    marks: &[u8],
    rows: &mut [u16; R],
) -> Result<(), Refusal>
    requires room { length status.now ≤ most_cells → (2048 ≤ R) × (8 * length status.now ≤ R) × (length status.now ≤ M) }
    requires sizes { (R ≤ 65536) × (M ≤ 65536) × (1024 ≤ MH) × (MH ≤ 65536) }
    ensures answer { answered result ≡ begun_answer positions.now cells.now status.now marks.now }
    ensures begun { IfOk result (λ _. Begun positions.now cells.now status.now marks.now rows.new) }
{
    let mut mids: PairTable<M, MH> = empty_table!(M, MH);
    opening::open(positions, cells, status, rows, &mut mids)?;
    if !marks_fit(status, marks) {
        return Err(Refusal::Marks);
    }
    Ok(())
}

// The step, with tables for the work of these sizes: they are set to zero first. Gives how many cells there are.
fn step_in<
    const R: usize,
    const M: usize,
    const MH: usize,
    const N: usize,
    const H: usize,
    const K: usize,
>(
    positions: &[i32],
    cells: &[u16],
    status: &[u8],
    marks: &[u8],
    new: &mut [u8; 4096],
) -> Result<usize, Refusal>
    requires room { length status.now ≤ most_cells → (2048 ≤ R) × (8 * length status.now ≤ R) × (length status.now ≤ M) }
    requires sizes { (R ≤ 65536) × (M ≤ 65536) × (1024 ≤ MH) × (MH ≤ 65536) }
    requires work_sizes { (N ≤ 65535) × (1024 ≤ H) × (H ≤ 65536) × (K ≤ 65536) }
    requires red_room { length status.now ≤ most_cells → ((3072 ≤ N) ⊎ (6 * length status.now ≤ N)) × (length status.now < K) }
    ensures answer { answered result ≡ marked_answer positions.now cells.now status.now marks.now }
    ensures made { IfOk result (λ k. Advanced (coarse_corner_count positions.now) cells.now status.now marks.now new.new k) }
{
    let mut rows = [0u16; R];
    begin::<R, M, MH>(positions, cells, status, marks, &mut rows)?;
    let mut work: Work<N, H, K> = Work {
        red: empty_table!(N, H),
        olds: [0; 4096],
        kids: [0; K],
        kept: [0; K],
    };
    advance::advance(
        cells,
        positions.len() / 3,
        &rows,
        status,
        marks,
        new,
        &mut work,
    )
}

// The step in tables for so many statuses.
fn make(
    positions: &[i32],
    cells: &[u16],
    status: &[u8],
    marks: &[u8],
    new: &mut [u8; 4096],
) -> Result<usize, Refusal>
    ensures answer { answered result ≡ marked_answer positions.now cells.now status.now marks.now }
    ensures made { IfOk result (λ k. Advanced (coarse_corner_count positions.now) cells.now status.now marks.now new.new k) }
{
    if status.len() > 512 {
        step_in::<32768, 4096, 4096, 3072, 5120, 4097>(positions, cells, status, marks, new)
    } else if status.len() > 128 {
        step_in::<4096, 512, 4096, 3072, 5120, 513>(positions, cells, status, marks, new)
    } else {
        step_in::<2048, 128, 1024, 768, 2048, 129>(positions, cells, status, marks, new)
    }
}

// One step: the new status table in the lent one, and how many cells it has. Refusals 15 and 1 to 9.
pub fn step(
    positions: &[i32],
    cells: &[u16],
    status: &[u8],
    marks: &[u8],
    table: &mut [u8],
) -> Result<usize, Refusal>
    ensures answer { answered result ≡ step_answer positions.now cells.now status.now marks.now table.old }
    ensures cells_made { IfOk result (λ k. k ≡ length (new_table (coarse_corner_count positions.now) (fours cells.now) status.now marks.now)) }
    ensures table_value { table.new
        ≡ held_after (step_answer positions.now cells.now status.now marks.now table.old)
        (new_table (coarse_corner_count positions.now) (fours cells.now) status.now marks.now)
        table.old }
{
    if table.len() < MOST_CELLS {
        return Err(Refusal::Lent);
    }
    let mut new = [0u8; 4096];
    let k = make(positions, cells, status, marks, &mut new)?;
    base::copy_front(&new, k, table);
    Ok(k)
}
