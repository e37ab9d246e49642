// The calls for programs in other languages. Each function answers the refusal's number, 0 where the call is accepted, and hands its
// results back in lent tables and lent numbers. include/yuccadice.h says the same for C. Crate yuccadice_c exports them under these names.
#![tactic(auto, using(crate::proofs::Results::code_none, crate::proofs::Results::code_refused, crate::proofs::Results::value_new, crate::proofs::Results::value_old))]

ghost use Rattle.std.specs.Prelude.{◌≡◌, length, get_or};
ghost use Rattle.base.specs.Fours.{fours};
ghost use Rattle.cutting.specs.Answer.{cut_of};
ghost use Rattle.mesh.specs.Coarse.{coarse_corner_count, mesh_answer};
ghost use Rattle.mesh.specs.Counts.{count_table};
ghost use Rattle.mesh.specs.Layout.{cell_table, end_table, sum_table};
ghost use Rattle.ancestors.specs.Linked.{ancestor_of};
ghost use Rattle.mesh.specs.Cells.{no_cell};
ghost use Rattle.position.specs.Position.{corner_answer, point_of};
ghost use Rattle.base.specs.Refuse.{code_of, held_after, value_after};
ghost use Rattle.mesh.specs.Answers.{levels_in, cells_in, corners_in, table_answer, new_table};
ghost use Rattle.layout.specs.Calls.{layout_answer};
ghost use Rattle.queries.specs.Calls.{ancestor_answer, counts_answer};
ghost use Rattle.step.specs.Calls.{step_answer};
ghost use Rattle.archive.specs.Job.{job_bytes};
ghost use Rattle.archive.specs.Form.{job_of};
ghost use Rattle.archive.specs.Tables.{marked_of, marks_of, ends_of};
ghost use Rattle.archive.specs.Stored.{job_from};
ghost use Rattle.replay.specs.Run.{job_table};
ghost use Rattle.jobs.specs.Calls.{read_answer, write_answer, replay_answer, lengths_of, replay_size, job_counts};
ghost use Rattle.store.specs.Fields.{field, COARSE};
ghost use Rattle.split.specs.Split.{split_answer, split_after};
ghost use Rattle.store.specs.Fetch.{fetch_answer, fetch_bytes, fetch_after};
ghost use Rattle.store.specs.Hand.{hand_answer, hand_after};
ghost use Rattle.turns.specs.Start.{start_answer, start_after};
ghost use Rattle.partstep.specs.Step.{part_answer, part_after};
ghost use Rattle.held.specs.Held.{stage_answer, stage_of, progress_of, held_answer, held_in, held_rows};
ghost use Rattle.merge.specs.Merge.{stores_in, merge_answer, merge_table};
ghost use Rattle.yuccadice.specs.After.{
  cut_answer,
  fetched_code,
  fetched_length,
  progress_code,
  progress_stage,
  progress_round,
  progress_result,
};

use base::Refusal;
use held::Progress;

// The children of a cell by its pattern: four digits a child, 32 in all, zeros behind the last child. Refusals 15 and 6.
pub fn yd_cut(pattern: u8, digits: &mut [u8], count: &mut usize) -> u8
    ensures { let a = cut_answer pattern digits.old in
        (result ≡ code_of a)
        × (digits.new ≡ held_after a (cut_of pattern).digits digits.old)
        × (count.new ≡ value_after a (cut_of pattern).count count.old) }
{
    if digits.len() < 32 {
        return Refusal::Lent.number();
    }
    match cutting::cut(pattern) {
        Ok(family) => {
            base::copy_front(&family.digits, 32, digits);
            *count = usize::from(family.count);
            0
        }
        Err(refusal) => refusal.number(),
    }
}

// Whether a coarse mesh is accepted. Refusals 1 to 5.
pub fn yd_examine_mesh(positions: &[i32], cells: &[u16]) -> u8
    ensures { result ≡ code_of (mesh_answer positions.now cells.now) }
{
    base::code(coarse::examine_mesh(positions, cells))
}

// Whether a status table is accepted. Refusals 1 to 6.
pub fn yd_examine_table(positions: &[i32], cells: &[u16], status: &[u8]) -> u8
    ensures { result ≡ code_of (table_answer positions.now cells.now status.now) }
{
    base::code(opening::examine_table(positions, cells, status))
}

// Lays a table out: eight numbers a cell, the two ends and the three weighted sums of each corner. Refusals 15 and 1 to 6.
pub fn yd_lay_out(
    positions: &[i32],
    cells: &[u16],
    status: &[u8],
    table: &mut [u16],
    ends: &mut [u16],
    sums: &mut [i32],
    cell_count: &mut usize,
    corner_count: &mut usize,
    level_count: &mut usize,
) -> u8
    ensures { let ps = positions.now in let ts = cells.now in let ss = status.now in
        let a = layout_answer ps ts ss table.old ends.old sums.old in
        (result ≡ code_of a)
        × (table.new ≡ held_after a (cell_table (corners_in ps ts ss) (cells_in ps ts ss)) table.old)
        × (ends.new ≡ held_after a (end_table (corners_in ps ts ss)) ends.old)
        × (sums.new ≡ held_after a (sum_table ps (corners_in ps ts ss)) sums.old)
        × (cell_count.new ≡ value_after a (length (cells_in ps ts ss)) cell_count.old)
        × (corner_count.new ≡ value_after a (length (corners_in ps ts ss)) corner_count.old)
        × (level_count.new ≡ value_after a (length (levels_in ps ts ss)) level_count.old) }
{
    match layout::lay_out(positions, cells, status, table, ends, sums) {
        Ok(sizes) => {
            *cell_count = sizes.cells;
            *corner_count = sizes.corners;
            *level_count = sizes.levels;
            0
        }
        Err(refusal) => refusal.number(),
    }
}

// The position of a corner, from the table of sums of a layout. Refusals 15 and 7.
pub fn yd_position(
    sums: &[i32],
    corners: usize,
    corner: usize,
    x: &mut f64,
    y: &mut f64,
    z: &mut f64,
) -> u8
    ensures { let a = corner_answer sums.now corners corner in
        let p = point_of sums.now corner in
        (result ≡ code_of a)
        × (x.new ≡ value_after a p.x x.old)
        × (y.new ≡ value_after a p.y y.old)
        × (z.new ≡ value_after a p.z z.old) }
{
    match position::position_of(sums, corners, corner) {
        Ok(p) => {
            *x = p.x;
            *y = p.y;
            *z = p.z;
            0
        }
        Err(refusal) => refusal.number(),
    }
}

// A cell's coarse ancestor and its level. Refusals 1 to 7.
pub fn yd_ancestor(
    positions: &[i32],
    cells: &[u16],
    status: &[u8],
    cell: usize,
    coarse: &mut usize,
    level: &mut usize,
) -> u8
    ensures { let a = ancestor_answer positions.now cells.now status.now cell in
        let up = ancestor_of (get_or (cells_in positions.now cells.now status.now) cell no_cell) in
        (result ≡ code_of a)
        × (coarse.new ≡ value_after a up.coarse coarse.old)
        × (level.new ≡ value_after a up.level level.old) }
{
    match queries::ancestor(positions, cells, status, cell) {
        Ok(a) => {
            *coarse = a.coarse;
            *level = a.level;
            0
        }
        Err(refusal) => refusal.number(),
    }
}

// The counts of every level, four numbers each: cells, red, green, leaf. Refusals 15 and 1 to 6.
pub fn yd_counts(
    positions: &[i32],
    cells: &[u16],
    status: &[u8],
    counts: &mut [u16],
    level_count: &mut usize,
) -> u8
    ensures { let a = counts_answer positions.now cells.now status.now counts.old in
        let ls = levels_in positions.now cells.now status.now in
        (result ≡ code_of a)
        × (counts.new ≡ held_after a (count_table ls) counts.old)
        × (level_count.new ≡ value_after a (length ls) level_count.old) }
{
    match queries::counts(positions, cells, status, counts) {
        Ok(n) => {
            *level_count = n;
            0
        }
        Err(refusal) => refusal.number(),
    }
}

// One step: the new status table. Refusals 15 and 1 to 9.
pub fn yd_step(
    positions: &[i32],
    cells: &[u16],
    status: &[u8],
    marks: &[u8],
    table: &mut [u8],
    cell_count: &mut usize,
) -> u8
    ensures { let a = step_answer positions.now cells.now status.now marks.now table.old in
        let new = new_table (coarse_corner_count positions.now) (fours cells.now) status.now marks.now in
        (result ≡ code_of a)
        × (table.new ≡ held_after a new table.old)
        × (cell_count.new ≡ value_after a (length new) cell_count.old) }
{
    match step::step(positions, cells, status, marks, table) {
        Ok(n) => {
            *cell_count = n;
            0
        }
        Err(refusal) => refusal.number(),
    }
}

// The job of an archive: its mesh, the marked cells of all steps one after the other with their marks, and for each step how many marks
// stand up to its end. Refusals 15, 17, 1 to 5 and 7 to 9.
pub fn yd_read(
    bytes: &[u8],
    positions: &mut [i32],
    cells: &mut [u16],
    marked: &mut [u16],
    marks: &mut [u8],
    ends: &mut [u16],
    corner_count: &mut usize,
    cell_count: &mut usize,
    mark_count: &mut usize,
    step_count: &mut usize,
) -> u8
    ensures { let a = read_answer bytes.now positions.old cells.old marked.old marks.old ends.old in
        let j = job_of bytes.now in
        (result ≡ code_of a)
        × (positions.new ≡ held_after a j.positions positions.old)
        × (cells.new ≡ held_after a j.cells cells.old)
        × (marked.new ≡ held_after a (marked_of j.steps) marked.old)
        × (marks.new ≡ held_after a (marks_of j.steps) marks.old)
        × (ends.new ≡ held_after a (ends_of j.steps) ends.old)
        × (corner_count.new ≡ value_after a (lengths_of j).corners corner_count.old)
        × (cell_count.new ≡ value_after a (lengths_of j).cells cell_count.old)
        × (mark_count.new ≡ value_after a (lengths_of j).marks mark_count.old)
        × (step_count.new ≡ value_after a (lengths_of j).steps step_count.old) }
{
    match jobs::read(bytes, positions, cells, marked, marks, ends) {
        Ok(n) => {
            *corner_count = n.corners;
            *cell_count = n.cells;
            *mark_count = n.marks;
            *step_count = n.steps;
            0
        }
        Err(refusal) => refusal.number(),
    }
}

// The archive of a job. Refusals 15, 1 to 5, 7 to 9 and 17.
pub fn yd_write(
    positions: &[i32],
    cells: &[u16],
    marked: &[u16],
    marks: &[u8],
    ends: &[u16],
    bytes: &mut [u8],
    byte_count: &mut usize,
) -> u8
    ensures { let a = write_answer positions.now cells.now marked.now marks.now ends.now bytes.old in
        let new = job_bytes (job_from positions.now cells.now marked.now marks.now ends.now) in
        (result ≡ code_of a)
        × (bytes.new ≡ held_after a new bytes.old)
        × (byte_count.new ≡ value_after a (length new) byte_count.old) }
{
    match jobs::write(positions, cells, marked, marks, ends, bytes) {
        Ok(n) => {
            *byte_count = n;
            0
        }
        Err(refusal) => refusal.number(),
    }
}

// An archive's steps done again: the last status table and the counts of every level. Refusals 15, 17, 1 to 5 and 7 to 9.
pub fn yd_replay(
    bytes: &[u8],
    table: &mut [u8],
    counts: &mut [u16],
    cell_count: &mut usize,
    level_count: &mut usize,
) -> u8
    ensures { let a = replay_answer bytes.now table.old counts.old in
        let j = job_of bytes.now in
        (result ≡ code_of a)
        × (table.new ≡ held_after a (job_table j) table.old)
        × (counts.new ≡ held_after a (job_counts j) counts.old)
        × (cell_count.new ≡ value_after a (replay_size j).cells cell_count.old)
        × (level_count.new ≡ value_after a (replay_size j).levels level_count.old) }
{
    match jobs::replay(bytes, table, counts) {
        Ok(n) => {
            *cell_count = n.cells;
            *level_count = n.levels;
            0
        }
        Err(refusal) => refusal.number(),
    }
}

// Splits a status table over so many parts: their stores, one behind the other. Refusals 15, 1 to 6, 10 and 11.
pub fn yd_split(
    positions: &[i32],
    cells: &[u16],
    status: &[u8],
    parts: usize,
    owners: &[u8],
    stores: &mut [u16],
) -> u8
    ensures { (result ≡ code_of (split_answer positions.now cells.now status.now parts owners.now stores.old))
        × (stores.new ≡ split_after positions.now cells.now status.now parts owners.now stores.old) }
{
    base::code(divide::split(positions, cells, status, parts, owners, stores))
}

// Starts a part with a mark for each of its masters, in the order of cells. Refusals 15, 16 and 7.
pub fn yd_start(store: &mut [u16], marks: &[u8]) -> u8
    ensures { (result ≡ code_of (start_answer store.old marks.now))
        × (store.new ≡ start_after store.old marks.now) }
{
    base::code(turns::start(store, marks))
}

// Leads a part to its next round, once the ends of this one are taken from all others. Refusals 15 and 16.
pub fn yd_part_step(store: &mut [u16]) -> u8
    ensures { (result ≡ code_of (part_answer store.old)) × (store.new ≡ part_after store.old) }
{
    base::code(partstep::part_step(store))
}

// The next message that a part has written: its bytes and how many they are, 0 where there is none to send. Refusals 15 and 16.
pub fn yd_fetch(store: &mut [u16], bytes: &mut [u8], byte_count: &mut usize) -> u8
    ensures { let a = fetch_answer store.old bytes.old in
        (result ≡ fetched_code a)
        × (store.new ≡ fetch_after store.old bytes.old)
        × (bytes.new ≡ fetch_bytes store.old bytes.old)
        × (byte_count.new ≡ fetched_length byte_count.old a) }
{
    match mail::fetch(store, bytes) {
        Ok(length) => {
            *byte_count = length.unwrap_or(0);
            0
        }
        Err(refusal) => refusal.number(),
    }
}

// Hands a message over to a part. Refusals 15, 16 and 12 to 14.
pub fn yd_hand_over(store: &mut [u16], bytes: &[u8]) -> u8
    ensures { (result ≡ code_of (hand_answer store.old bytes.now))
        × (store.new ≡ hand_after store.old bytes.now) }
{
    base::code(mail::hand(store, bytes))
}

// How far a part is: 1 running with its round, 2 done with the number that its step ended with. Refusals 15 and 16.
pub fn yd_stage(store: &[u16], stage: &mut usize, round: &mut usize, res: &mut usize) -> u8
    ensures { let p = progress_of (stage_answer store.now) (stage_of store.now) in
        (result ≡ progress_code p)
        × (stage.new ≡ progress_stage stage.old p)
        × (round.new ≡ progress_round round.old p)
        × (res.new ≡ progress_result res.old p) }
{
    match held::stage(store) {
        Ok(Progress::Running(n)) => {
            *stage = 1;
            *round = n;
            *res = 0;
            0
        }
        Ok(Progress::Done) => {
            *stage = 2;
            *round = 0;
            *res = 0;
            0
        }
        Ok(Progress::Ended(limit)) => {
            *stage = 2;
            *round = 0;
            *res = usize::from(limit.number());
            0
        }
        Err(refusal) => refusal.number(),
    }
}

// The masters and ghosts of a done part, fourteen numbers each: 1 for a ghost, status, level, coarse cell, ten child numbers with zeros
// behind them. Refusals 15 and 16.
pub fn yd_held(store: &[u16], rows: &mut [u16], row_count: &mut usize) -> u8
    ensures { let a = held_answer store.now rows.old in
        (result ≡ code_of a)
        × (rows.new ≡ held_after a (held_rows store.now) rows.old)
        × (row_count.new ≡ value_after a (length (held_in store.now)) row_count.old) }
{
    match held::held(store, rows) {
        Ok(n) => {
            *row_count = n;
            0
        }
        Err(refusal) => refusal.number(),
    }
}

// The table that the masters of all done parts make. Refusals 15 and 16.
pub fn yd_merge(stores: &[u16], table: &mut [u8], cell_count: &mut usize) -> u8
    ensures { let a = merge_answer stores.now table.old in
        let new = merge_table (stores_in stores.now) (field stores.now COARSE) in
        (result ≡ code_of a)
        × (table.new ≡ held_after a new table.old)
        × (cell_count.new ≡ value_after a (length new) cell_count.old) }
{
    match merge::merge(stores, table) {
        Ok(n) => {
            *cell_count = n;
            0
        }
        Err(refusal) => refusal.number(),
    }
}
