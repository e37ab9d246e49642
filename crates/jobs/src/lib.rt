// The calls on archives of jobs.
#![tactic(auto)]

ghost use Rattle.std.specs.Prelude.{◌≡◌, ◌++◌, ◌+◌, ◌*◌, ◌≤◌, IfOk, leb, length, take, drop};
ghost use Rattle.base.specs.Limits.{full_counts, most_bytes, most_cells, most_coarse_cells, most_coarse_corners};
ghost use Rattle.counting.specs.Levels.{Levels, level_number, level_counts};
ghost use Rattle.base.specs.Refuse.{answered, held_after};
ghost use Rattle.archive.specs.Job.{job_bytes};
ghost use Rattle.archive.specs.Form.{job_of};
ghost use Rattle.archive.specs.Tables.{marked_of, marks_of, ends_of};
ghost use Rattle.archive.specs.Stored.{job_from};
ghost use Rattle.replay.specs.Run.{job_table};
ghost use Rattle.jobs.specs.Calls.{Reopened, archive_answer, replay_answer, replay_size, job_counts, roomb, read_answer};
ghost use Rattle.jobs.specs.Calls.{lengths_of, write_answer};
ghost use Rattle.jobs.specs.Listing.{listing_of};

use base::{
    FULL_COARSE, FULL_COUNTS, FULL_POSITIONS, MOST_BYTES, MOST_CELLS, MOST_COARSE_CELLS,
    MOST_COARSE_CORNERS, MOST_MARKS, Refusal,
};
use tables::Sizes;

// How many cells and levels a table has.
#[derive(Clone, Copy)]
pub struct Size {
    pub cells: usize,
    pub levels: usize,
}

// How many corners, cells, marks and steps a job has.
#[derive(Clone, Copy)]
pub struct Lengths {
    pub corners: usize,
    pub cells: usize,
    pub marks: usize,
    pub steps: usize,
}

// Replays an archive; its table is in front of the lent one. Refusals 17, 1 to 5 and 7 to 9.
fn reopen(bytes: &[u8], table: &mut [u8; 4096]) -> Result<Sizes, Refusal>
    ensures answer { answered result ≡ archive_answer bytes.now }
    ensures reopened { IfOk result (λ s. Reopened bytes.now table.new s.coarse s.cells s.levels) }
{
    let Some(form) = archive::examine_form(bytes) else {
        return Err(Refusal::Form); // no archive
    };
    if form.corners > MOST_COARSE_CORNERS || form.cells > MOST_COARSE_CELLS {
        return Err(Refusal::Counts);
    }
    let mut positions = [0i32; 1536];
    let mut cells = [0u16; 1024];
    let mut marked = [0u16; 16384];
    let mut marks = [0u8; 16384];
    let mut ends = [0u16; 65536];
    archive::load(
        bytes,
        form,
        &mut positions,
        &mut cells,
        &mut marked,
        &mut marks,
        &mut ends,
    );
    let laid = replay::run(
        &positions[..3 * form.corners],
        &cells[..4 * form.cells],
        &marked[..form.marks],
        &marks[..form.marks],
        &ends[..form.steps],
        table,
    )?;
    Ok(Sizes {
        coarse: form.cells,
        ..laid
    })
}

// Hands out the first k statuses of a new table over so many coarse cells, and the counts of its levels. Gives how many levels there are.
fn hand_out(
    new: &[u8; 4096],
    coarse: usize,
    k: usize,
    table: &mut [u8],
    counts: &mut [u16],
) -> usize
    requires k_le_most_cells { (k ≤ most_cells) × (k ≤ length table.old) × (full_counts ≤ length counts.old) }
    requires levels { Levels (take k new.now) coarse }
    ensures value { result ≡ level_number 12 0 coarse (take k new.now) }
    ensures table_value { table.new ≡ take k new.now ++ drop k table.old }
    ensures counts_value { counts.new ≡ level_counts 12 0 coarse (take k new.now) ++ drop (4 * result) counts.old }
{
    base::copy_front(new, k, table);
    counting::count_levels(&new[..k], coarse, counts)
}

// Replays an archive: its table in the one lent, and the counts of every level. Refusals 15, 17, 1 to 5 and 7 to 9.
pub fn replay(bytes: &[u8], table: &mut [u8], counts: &mut [u16]) -> Result<Size, Refusal>
    ensures answer { answered result ≡ replay_answer bytes.now table.old counts.old }
    ensures size { IfOk result (λ s. s ≡ replay_size (job_of bytes.now)) }
    ensures table_value { table.new ≡ held_after (replay_answer bytes.now table.old counts.old) (job_table (job_of bytes.now)) table.old }
    ensures counts_value { counts.new ≡ held_after (replay_answer bytes.now table.old counts.old) (job_counts (job_of bytes.now)) counts.old }
{
    if table.len() < MOST_CELLS || counts.len() < FULL_COUNTS {
        return Err(Refusal::Lent);
    }
    let mut new = [0u8; 4096];
    let laid = reopen(bytes, &mut new)?;
    hand_out(&new, laid.coarse, laid.cells, table, counts);
    Ok(Size {
        cells: laid.cells,
        levels: laid.levels,
    })
}

// Whether the tables lent for a job are long enough.
#[tactic(auto, unfolding(crate::specs::Calls::roomb))]
fn lent(positions: &[i32], cells: &[u16], marked: &[u16], marks: &[u8], ends: &[u16]) -> bool
    ensures { result ≡ roomb positions.now cells.now marked.now marks.now ends.now }
{
    positions.len() >= FULL_POSITIONS
        && cells.len() >= FULL_COARSE
        && marked.len() >= MOST_MARKS
        && marks.len() >= MOST_MARKS
        && ends.len() >= MOST_BYTES
}

// Reads an archive: its job in the lent tables, the marks of all steps one after the other and where each step ends. The archive is
// replayed beside them first. Refusals 15, 17, 1 to 5 and 7 to 9.
pub fn read(
    bytes: &[u8],
    positions: &mut [i32],
    cells: &mut [u16],
    marked: &mut [u16],
    marks: &mut [u8],
    ends: &mut [u16],
) -> Result<Lengths, Refusal>
    ensures answer { answered result ≡ read_answer bytes.now positions.old cells.old marked.old marks.old ends.old }
    ensures lengths { IfOk result (λ l. l ≡ lengths_of (job_of bytes.now)) }
    ensures tables { let a = read_answer bytes.now positions.old cells.old marked.old marks.old ends.old in
        let j = job_of bytes.now in
        (positions.new ≡ held_after a j.positions positions.old)
        × ((cells.new ≡ held_after a j.cells cells.old)
        × ((marked.new ≡ held_after a (marked_of j.steps) marked.old)
        × ((marks.new ≡ held_after a (marks_of j.steps) marks.old)
        × (ends.new ≡ held_after a (ends_of j.steps) ends.old)))) }
{
    if !lent(positions, cells, marked, marks, ends) {
        return Err(Refusal::Lent);
    }
    let mut table = [0u8; 4096];
    reopen(bytes, &mut table)?;
    let Some(form) = archive::examine_form(bytes) else {
        return Err(Refusal::Form);
    };
    archive::load(bytes, form, positions, cells, marked, marks, ends);
    Ok(Lengths {
        corners: form.corners,
        cells: form.cells,
        marks: form.marks,
        steps: form.steps,
    })
}

// Whether an archive with so many corners, cells, marks and steps has at most 65,536 bytes.
fn fits(corners: usize, cells: usize, marks: usize, steps: usize) -> bool
    requires { (corners ≤ most_coarse_corners) × (cells ≤ most_coarse_cells) }
    ensures { result ≡ leb (13 * corners + 9 * cells + 4 * marks + steps + 1) most_bytes }
{
    marks <= MOST_BYTES
        && steps <= MOST_BYTES
        && 13 * corners + 9 * cells + 4 * marks + steps + 1 <= MOST_BYTES
}

// Writes the archive of a job that is given by flat tables: the marked cells of all steps one after the other, their marks, and for each
// step how many marks stand up to its end. The archive is in front of the lent bytes. Refusals 15, 1 to 5, 7 to 9 and 17.
pub fn write(
    positions: &[i32],
    cells: &[u16],
    marked: &[u16],
    marks: &[u8],
    ends: &[u16],
    bytes: &mut [u8],
) -> Result<usize, Refusal>
    ensures answer { answered result ≡ write_answer positions.now cells.now marked.now marks.now ends.now bytes.old }
    ensures byte_count { IfOk result (λ n. n ≡ length (job_bytes (job_from positions.now cells.now marked.now marks.now ends.now))) }
    ensures bytes_value { bytes.new
        ≡ held_after
        (write_answer positions.now cells.now marked.now marks.now ends.now bytes.old)
        (job_bytes (job_from positions.now cells.now marked.now marks.now ends.now))
        bytes.old }
{
    if bytes.len() < MOST_BYTES {
        return Err(Refusal::Lent);
    }
    let mut table = [0u8; 4096];
    replay::run(positions, cells, marked, marks, ends, &mut table)?;
    if !fits(
        positions.len() / 3,
        cells.len() / 4,
        marked.len(),
        ends.len(),
    ) {
        return Err(Refusal::Form);
    }
    Ok(archive::store(positions, cells, marked, marks, ends, bytes))
}

// Lists an archive. Gives how many bytes the listing has.
pub fn list(bytes: &[u8], out: &mut [u8; 512]) -> usize
    ensures out_value { out.new ≡ listing_of bytes.now ++ drop (length (listing_of bytes.now)) out.old }
    ensures value { result ≡ length (listing_of bytes.now) }
{
    let mut table = [0u8; 4096];
    let mut counts = [0u16; 44];
    match replay(bytes, &mut table, &mut counts) {
        Ok(size) => listing::write_listing(&counts[..4 * size.levels], out),
        Err(refusal) => listing::write_refusal(refusal.number(), out),
    }
}

// Lists the first bytes of a slice, as many as count says, or all.
fn list_front(bytes: &[u8], count: usize, out: &mut [u8; 512]) -> usize
    ensures out_value { out.new
        ≡ listing_of (take count bytes.now) ++ drop (length (listing_of (take count bytes.now))) out.old }
    ensures value { result ≡ length (listing_of (take count bytes.now)) }
{
    let count = count.min(bytes.len());
    list(&bytes[..count], out)
}

// Lists what was read into a buffer: its first bytes, as many as count says, or all. The buffer takes one byte more than an archive
// may have, so that a longer input is refused; of another size it is no argument.
pub fn list_read(buffer: &[u8; 65537], count: usize, out: &mut [u8; 512]) -> usize
    ensures out_value { out.new
        ≡ listing_of (take count buffer.now) ++ drop (length (listing_of (take count buffer.now))) out.old }
    ensures value { result ≡ length (listing_of (take count buffer.now)) }
{
    list_front(buffer, count, out)
}
