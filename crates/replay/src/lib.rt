// Jobs done again: the steps of a job in turn.
#![tactic(auto)]

ghost use Rattle.std.specs.Prelude.{◌≡◌, ◌++◌, ◌≤◌, T, IfOk, length, take, drop, replicate};
ghost use Rattle.base.specs.Fours.{fours};
ghost use Rattle.base.specs.Limits.{most_cells};
ghost use Rattle.base.specs.Refuse.{answered};
ghost use Rattle.mesh.specs.Coarse.{coarse_corner_count, mesh_answer};
ghost use Rattle.mesh.specs.Table.{soundb};
ghost use Rattle.mesh.specs.Answers.{new_table, limits_answer};
ghost use Rattle.tables.specs.Sound.{Mesh};
ghost use Rattle.archive.specs.Tables.{pairs, steps_from};
ghost use Rattle.replay.specs.Run.{one_table, rest_table, run_table, flat_answer, tables_answer};
ghost use Rattle.replay.specs.Scan.{mayb, Spread, Fitting};
ghost use Rattle.replay.specs.Going.{ReplayGoing, Came, marks_part, next_answer, Replayed};

use advance::Work;
use base::{MOST_COARSE_CELLS, Refusal};
use cutting::Families;
use opening::empty_table;
use pairs::PairTable;
use tables::Sizes;

// Tables for the work on steps, made once for all; they hold whatever they hold. `spread` has the marks of a step, one for each cell, and
// `new` the statuses that it gives.
#[derive(Drop)]
struct Tools {
    spread: [u8; 4096],
    new: [u8; 4096],
    work: Work<3072, 5120, 4097>,
    mids: PairTable<4096, 4096>,
    families: Families,
}

// Makes the first k bytes 0.
fn clear(out: &mut [u8], k: usize)
    requires { k ≤ length out.old }
    ensures { out.new ≡ replicate k 0 ++ drop k out.old }
{
    out[..k].fill(0);
}

// Whether a mark may stand at a cell, of k cells of which those below `next` are passed.
#[tactic(auto, unfolding(crate::specs::Scan::mayb))]
fn may_stand(cell: usize, mark: u8, next: usize, k: usize) -> bool
    ensures { result ≡ mayb k next cell mark }
{
    next <= cell && cell < k && 1 <= mark && mark <= 2
}

// The marks of a step as one byte a cell, of k cells. False where the marked cells do not ascend or are not cells, or a mark is not 1 or 2.
fn spread(marked: &[u16], marks: &[u8], k: usize, out: &mut [u8]) -> bool
    requires { (length marked.now ≡ length marks.now) × (k ≤ length out.old) }
    ensures { Spread k (pairs marked.now marks.now) out.new result }
{
    clear(out, k);
    let mut next = 0;
    for i in 0..marked.len() {
        let c = marked[i] as usize;
        if !may_stand(c, marks[i], next, k) {
            return false;
        }
        out[c] = marks[i];
        next = c + 1;
    }
    true
}

// The marks of a step as one byte a cell. False where they may not stand at the cells of the table.
fn examine_marks(marked: &[u16], marks: &[u8], status: &[u8], out: &mut [u8]) -> bool
    requires { (length marked.now ≡ length marks.now) × (length status.now ≤ length out.old) }
    ensures { Fitting status.now (pairs marked.now marks.now) out.new result }
{
    let k = status.len();
    spread(marked, marks, k, out) && step::marks_fit(status, &out[..k])
}

// Copies the new table, sound and of so many cells, into `table`, and lays out its rows.
fn settle(
    mesh: &[u16],
    n: usize,
    cells: usize,
    rows: &mut [u16; 32768],
    table: &mut [u8; 4096],
    tools: &mut Tools,
) -> Sizes
    requires mesh { Mesh n mesh.now }
    requires sound { T (soundb n (fours mesh.now) (take cells tools.old.new)) }
    requires few { cells ≤ most_cells }
    ensures { Came n mesh.now rows.new table.new result.cells result.levels (take cells tools.old.new) }
{
    base::copy_front(&tools.new, cells, table);
    tools.mids.clear();
    let laid = laying::lay(
        mesh,
        n,
        &table[..cells],
        rows,
        &mut tools.mids,
        &tools.families,
    );
    Sizes { cells, ..laid }
}

// The step on a sound table of so many cells with its rows, by the marks that are spread: the new table and its rows take the place of the
// old ones. Refusals 8 and 9.
fn make(
    mesh: &[u16],
    n: usize,
    cells: usize,
    rows: &mut [u16; 32768],
    table: &mut [u8; 4096],
    tools: &mut Tools,
) -> Result<Sizes, Refusal>
    requires { ReplayGoing n mesh.now rows.old table.old cells }
    ensures answer { answered result ≡ limits_answer n (fours mesh.now) (take cells table.old) (take cells tools.old.spread) }
    ensures came { IfOk result (λ s. Came n mesh.now rows.new table.new s.cells s.levels
        (new_table n (fours mesh.now) (take cells table.old) (take cells tools.old.spread))) }
{
    tools.work.red.clear();
    let made = advance::advance(
        mesh,
        n,
        rows,
        &table[..cells],
        &tools.spread[..cells],
        &mut tools.new,
        &mut tools.work,
    )?;
    Ok(settle(mesh, n, made, rows, table, tools))
}

// One step on a sound table with its rows: the step whose marks go from p up to e. Refusals 7 to 9.
fn next_step(
    mesh: &[u16],
    n: usize,
    marked: &[u16],
    marks: &[u8],
    p: usize,
    e: usize,
    cells: usize,
    rows: &mut [u16; 32768],
    table: &mut [u8; 4096],
    tools: &mut Tools,
) -> Result<Sizes, Refusal>
    requires going { ReplayGoing n mesh.now rows.old table.old cells }
    requires marked_len { length marked.now ≡ length marks.now }
    ensures answer { answered result ≡ next_answer n (fours mesh.now) (take cells table.old) p e (pairs marked.now marks.now) }
    ensures came { IfOk result (λ s. Came n mesh.now rows.new table.new s.cells s.levels
        (one_table n (fours mesh.now) (take cells table.old) (marks_part p e (pairs marked.now marks.now)))) }
{
    if e < p || e > marked.len() {
        return Err(Refusal::Marks);
    }
    if !examine_marks(
        &marked[p..e],
        &marks[p..e],
        &table[..cells],
        &mut tools.spread,
    ) {
        return Err(Refusal::Marks);
    }
    make(mesh, n, cells, rows, table, tools)
}

// A mesh at rest: each cell a leaf, with its rows. Refusals 1 to 5.
fn at_rest(
    positions: &[i32],
    cells: &[u16],
    rows: &mut [u16; 32768],
    table: &mut [u8; 4096],
) -> Result<Sizes, Refusal>
    ensures answer { answered result ≡ mesh_answer positions.now cells.now }
    ensures came { IfOk result (λ s. Came (coarse_corner_count positions.now) cells.now rows.new table.new s.cells s.levels
        (rest_table (fours cells.now))) }
{
    let k = (cells.len() / 4).min(MOST_COARSE_CELLS);
    clear(table, k);
    let mut mids: PairTable<4096, 4096> = empty_table!(4096, 4096);
    let laid = opening::open(positions, cells, &table[..k], rows, &mut mids)?;
    Ok(Sizes { cells: k, ..laid })
}

// The steps of a job in turn, on a sound table of these sizes with its rows. Refusals 7 to 9.
fn run_steps(
    mesh: &[u16],
    n: usize,
    marked: &[u16],
    marks: &[u8],
    ends: &[u16],
    first: Sizes,
    rows: &mut [u16; 32768],
    table: &mut [u8; 4096],
) -> Result<Sizes, Refusal>
    requires came { Came n mesh.now rows.old table.old first.cells first.levels (take first.cells table.old) }
    requires marked_len { length marked.now ≡ length marks.now }
    ensures answer { answered result ≡ flat_answer n (fours mesh.now) (take first.cells table.old) 0 (pairs marked.now marks.now) ends.now }
    ensures came { IfOk result (λ s. Came n mesh.now rows.new table.new s.cells s.levels
        (run_table n (fours mesh.now) (take first.cells table.old) (steps_from 0 (pairs marked.now marks.now) ends.now))) }
{
    let mut tools = Tools {
        spread: [0; 4096],
        new: [0; 4096],
        work: Work {
            red: empty_table!(3072, 5120),
            olds: [0; 4096],
            kids: [0; 4097],
            kept: [0; 4097],
        },
        mids: empty_table!(4096, 4096),
        families: Families::new(),
    };
    let mut now = first;
    let mut p = 0;
    for end in ends {
        let e = *end as usize;
        now = next_step(
            mesh, n, marked, marks, p, e, now.cells, rows, table, &mut tools,
        )?;
        p = e;
    }
    if p != marked.len() {
        return Err(Refusal::Marks);
    }
    Ok(now)
}

// The mesh, and then the steps of a job in turn, from its flat tables: the marked cells of all steps one after the other, their marks, and
// for each step how many marks stand up to its end. The table that they come to is in front of the lent one. Refusals 1 to 5 and 7 to 9.
pub fn run(
    positions: &[i32],
    cells: &[u16],
    marked: &[u16],
    marks: &[u8],
    ends: &[u16],
    table: &mut [u8; 4096],
) -> Result<Sizes, Refusal>
    ensures answer { answered result ≡ tables_answer positions.now cells.now marked.now marks.now ends.now }
    ensures replayed { IfOk result (λ s. Replayed positions.now cells.now marked.now marks.now ends.now table.new s.cells s.levels) }
{
    let mut rows = [0u16; 32768];
    let rest = at_rest(positions, cells, &mut rows, table)?;
    if marked.len() != marks.len() {
        return Err(Refusal::Marks);
    }
    run_steps(
        cells,
        positions.len() / 3,
        marked,
        marks,
        ends,
        rest,
        &mut rows,
        table,
    )
}
