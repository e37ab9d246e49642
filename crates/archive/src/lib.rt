// Archives of jobs (docs/METHOD.md, section 10).
#![tactic(auto)]

ghost use Rattle.std.specs.Prelude.{◌≡◌, [], ◌∷◌, ◌+◌, ◌*◌, ◌/◌, ◌%◌, ◌≤◌, ◌<◌, T, MatchOption, true, false, length, drop};
ghost use Rattle.std.proofs.lemmas.List.Edits.{sets};
ghost use Rattle.archive.specs.Job.{corner_bytes, cell_bytes, mark_bytes, job_bytes};
ghost use Rattle.archive.specs.Form.{startsb, whole, i32_at, corner_records, cell_records, formb, job_of};
ghost use Rattle.archive.specs.Tables.{marked_of, marks_of, ends_of, steps_of};
ghost use Rattle.archive.specs.Measure.{steps_bytes};
ghost use Rattle.archive.specs.Stored.{job_from, EndsRise, Storable};
ghost use Rattle.archive.specs.Loaded.{in_front, steps_at, StepsFit, LoadRoom, Loaded};
ghost use Rattle.archive.specs.Records.{records_in};
ghost use Rattle.archive.specs.Scan.{mark_recordb, endb, Scanned};
ghost use Rattle.archive.specs.Examined.{CountsOf};

use base::MOST_BYTES;

// The letters that the records begin with.
const CORNER: u8 = b'V';

const CELL: u8 = b'T';

const MARK: u8 = b'M';

const STEP: u8 = b'G';

const END: u8 = b'E';

// How many records of each kind an archive in the form has.
#[derive(Clone, Copy)]
pub struct Form {
    pub corners: usize,
    pub cells: usize,
    pub marks: usize,
    pub steps: usize,
}

// The marks and steps from a place to the end of an archive.
#[derive(Clone, Copy)]
struct Scan {
    marks: usize,
    steps: usize,
}

// Whether a record of so many bytes with this letter stands at a place.
fn starts(bytes: &[u8], at: usize, letter: u8, size: usize) -> bool
    requires { (at ≤ length bytes.now) × (1 ≤ size) }
    ensures { result ≡ startsb letter size (drop at bytes.now) }
{
    bytes.len() - at >= size && bytes[at] == letter
}

// The number of two bytes, least byte first.
fn number(bytes: &[u8], at: usize) -> u16
    requires { at + 2 ≤ length bytes.now }
    ensures { result ≡ whole 2 (drop at bytes.now) }
{
    u16::from_le_bytes([bytes[at], bytes[at + 1]])
}

// How many corners' records the bytes start with.
fn count_corners(bytes: &[u8]) -> usize
    ensures { result ≡ records_in 86 13 (length bytes.now) bytes.now }
{
    let (records, _) = bytes.as_chunks::<13>();
    records
        .iter()
        .take_while(|record| record[0] == CORNER)
        .count()
}

// How many cells' records the bytes start with.
fn count_cells(bytes: &[u8]) -> usize
    ensures { result ≡ records_in 84 9 (length bytes.now) bytes.now }
{
    let (records, _) = bytes.as_chunks::<9>();
    records
        .iter()
        .take_while(|record| record[0] == CELL)
        .count()
}

// Whether a mark stands at a place, on the cell least or a later one.
fn is_mark(bytes: &[u8], at: usize, least: usize) -> bool
    requires { at ≤ length bytes.now }
    ensures { result ≡ mark_recordb least (drop at bytes.now) }
{
    starts(bytes, at, MARK, 4)
        && (1..=2).contains(&bytes[at + 3])
        && least <= usize::from(number(bytes, at + 1))
}

// Whether the last record stands at a place, with no mark since the last step and nothing behind it.
fn is_end(bytes: &[u8], at: usize, least: usize) -> bool
    requires { at ≤ length bytes.now }
    ensures { result ≡ endb least (drop at bytes.now) }
{
    starts(bytes, at, END, 1) && least == 0 && bytes.len() - at == 1
}

// The marks and steps from a place on, if they end as they should. A mark is on the cell least or a later one.
fn scan_steps(bytes: &[u8], from: usize) -> Option<Scan>
    requires { from ≤ length bytes.now }
    ensures { MatchOption result (Scanned bytes.now from false 0 0) (λ s. Scanned bytes.now from true s.marks s.steps) }
{
    let mut at = from;
    let mut least = 0;
    let mut marks = 0;
    let mut steps = 0;
    while at < bytes.len() {
        if is_mark(bytes, at, least) {
            least = usize::from(number(bytes, at + 1)) + 1;
            at += 4;
            marks += 1;
            continue;
        }
        if !starts(bytes, at, STEP, 1) {
            return if is_end(bytes, at, least) {
                Some(Scan { marks, steps })
            } else {
                None
            };
        }
        least = 0;
        at += 1;
        steps += 1;
    }
    None
}

// How many records of each kind the bytes have, if they are an archive in the form.
pub fn examine_form(bytes: &[u8]) -> Option<Form>
    ensures { MatchOption result (formb bytes.now ≡ false) (λ form. (formb bytes.now ≡ true) × CountsOf bytes.now form) }
{
    if bytes.len() > MOST_BYTES {
        return None;
    }
    let corners = count_corners(bytes);
    let cells = count_cells(&bytes[13 * corners..]);
    let scan = scan_steps(bytes, 13 * corners + 9 * cells)?;
    Some(Form {
        corners,
        cells,
        marks: scan.marks,
        steps: scan.steps,
    })
}

// The i32 of four bytes, least byte first.
fn coordinate(bytes: &[u8], at: usize) -> i32
    requires { at + 4 ≤ length bytes.now }
    ensures { result ≡ i32_at bytes.now at }
{
    i32::from_le_bytes([bytes[at], bytes[at + 1], bytes[at + 2], bytes[at + 3]])
}

// The n numbers of the corners, three a record.
fn load_positions(bytes: &[u8], n: usize, positions: &mut [i32])
    requires n_value { n ≡ length (corner_records (length bytes.now) bytes.now).0 }
    requires n_in_bounds { n ≤ length positions.old }
    ensures { positions.new
        ≡ in_front (corner_records (length bytes.now) bytes.now).0 positions.old }
{
    for k in 0..n {
        positions[k] = coordinate(bytes, 13 * (k / 3) + 4 * (k % 3) + 1);
    }
}

// The n numbers of the cells, four a record, from a place on.
fn load_cells(bytes: &[u8], from: usize, n: usize, cells: &mut [u16])
    requires from_in_bounds { from ≤ length bytes.now }
    requires n_value { n ≡ length (cell_records (length bytes.now) (drop from bytes.now)).0 }
    requires n_in_bounds { n ≤ length cells.old }
    ensures { cells.new
        ≡ in_front (cell_records (length bytes.now) (drop from bytes.now)).0 cells.old }
{
    for k in 0..n {
        cells[k] = number(bytes, from + 9 * (k / 4) + 2 * (k % 4) + 1);
    }
}

// The steps from a place on.
fn load_steps(bytes: &[u8], from: usize, marked: &mut [u16], marks: &mut [u8], ends: &mut [u16])
    requires { StepsFit bytes.now from marked.old marks.old ends.old }
    ensures marked_value { marked.new ≡ in_front (marked_of (steps_at bytes.now from).steps) marked.old }
    ensures marks_value { marks.new ≡ in_front (marks_of (steps_at bytes.now from).steps) marks.old }
    ensures ends_value { ends.new ≡ in_front (ends_of (steps_at bytes.now from).steps) ends.old }
{
    let mut at = from;
    let mut m = 0;
    let mut s = 0;
    while bytes[at] != END {
        if bytes[at] == MARK {
            marked[m] = number(bytes, at + 1);
            marks[m] = bytes[at + 3];
            m += 1;
            at += 4;
            continue;
        }
        ends[s] = m as u16;
        s += 1;
        at += 1;
    }
}

// The job of an archive in the form, into tables that have room for it.
pub fn load(
    bytes: &[u8],
    form: Form,
    positions: &mut [i32],
    cells: &mut [u16],
    marked: &mut [u16],
    marks: &mut [u8],
    ends: &mut [u16],
)
    requires t { T (formb bytes.now) }
    requires counts_of { CountsOf bytes.now form }
    requires load_room { LoadRoom (job_of bytes.now) positions.old cells.old marked.old marks.old ends.old }
    ensures { Loaded (job_of bytes.now)
        positions.old cells.old marked.old marks.old ends.old
        positions.new cells.new marked.new marks.new ends.new }
{
    load_positions(bytes, 3 * form.corners, positions);
    load_cells(bytes, 13 * form.corners, 4 * form.cells, cells);
    load_steps(
        bytes,
        13 * form.corners + 9 * form.cells,
        marked,
        marks,
        ends,
    );
}

// Stores bytes from a place on.
fn put(out: &mut [u8], at: usize, part: &[u8])
    requires { at + length part.now ≤ length out.old }
    ensures { out.new ≡ sets out.old at part.now }
{
    out[at..at + part.len()].copy_from_slice(part);
}

// Stores a corner's record.
fn put_corner(out: &mut [u8], at: usize, x: i32, y: i32, z: i32)
    requires { at + 13 ≤ length out.old }
    ensures { out.new ≡ sets out.old at (corner_bytes (x ∷ y ∷ z ∷ [])) }
{
    out[at] = CORNER;
    put(out, at + 1, &x.to_le_bytes());
    put(out, at + 5, &y.to_le_bytes());
    put(out, at + 9, &z.to_le_bytes());
}

// Stores a cell's record.
fn put_cell(out: &mut [u8], at: usize, cell: &[u16; 4])
    requires { at + 9 ≤ length out.old }
    ensures { out.new ≡ sets out.old at (cell_bytes cell.now) }
{
    let [a, b, c, d] = *cell;
    out[at] = CELL;
    put(out, at + 1, &a.to_le_bytes());
    put(out, at + 3, &b.to_le_bytes());
    put(out, at + 5, &c.to_le_bytes());
    put(out, at + 7, &d.to_le_bytes());
}

// Stores a mark's record.
fn put_mark(out: &mut [u8], at: usize, cell: u16, mark: u8)
    requires { at + 4 ≤ length out.old }
    ensures { out.new ≡ sets out.old at (mark_bytes (cell, mark)) }
{
    out[at] = MARK;
    put(out, at + 1, &cell.to_le_bytes());
    out[at + 3] = mark;
}

// Stores the records of all corners.
fn store_corners(positions: &[i32], out: &mut [u8])
    requires positions_len { length positions.now % 3 ≡ 0 }
    requires positions_in_bounds { 13 * (length positions.now / 3) ≤ length out.old }
    ensures { out.new ≡ sets out.old 0 (corner_bytes positions.now) }
{
    let (corners, _) = positions.as_chunks::<3>();
    for (i, corner) in corners.iter().enumerate() {
        put_corner(out, 13 * i, corner[0], corner[1], corner[2]);
    }
}

// Stores the records of all cells from a place on.
fn store_cells(cells: &[u16], from: usize, out: &mut [u8])
    requires cells_len { length cells.now % 4 ≡ 0 }
    requires cells_in_bounds { from + 9 * (length cells.now / 4) ≤ length out.old }
    ensures { out.new ≡ sets out.old from (cell_bytes cells.now) }
{
    let (cells, _) = cells.as_chunks::<4>();
    for (i, cell) in cells.iter().enumerate() {
        put_cell(out, from + 9 * i, cell);
    }
}

// Stores the records of all steps and the end from a place on. The answer is the place behind them.
fn store_steps(marked: &[u16], marks: &[u8], ends: &[u16], from: usize, out: &mut [u8]) -> usize
    requires ends_rise { EndsRise marked.now marks.now ends.now }
    requires ends_in_bounds { from + length (steps_bytes (steps_of marked.now marks.now ends.now)) ≤ length out.old }
    ensures out_value { out.new
        ≡ sets out.old from (steps_bytes (steps_of marked.now marks.now ends.now)) }
    ensures value { result ≡ from + length (steps_bytes (steps_of marked.now marks.now ends.now)) }
{
    let mut at = from;
    let mut m = 0;
    for last in ends {
        let end = usize::from(*last);
        for k in m..end {
            put_mark(out, at, marked[k], marks[k]);
            at += 4;
        }
        m = end;
        out[at] = STEP;
        at += 1;
    }
    out[at] = END;
    at + 1
}

// The archive of the job of flat tables, in front of the bytes. The answer is its length.
pub fn store(
    positions: &[i32],
    cells: &[u16],
    marked: &[u16],
    marks: &[u8],
    ends: &[u16],
    bytes: &mut [u8],
) -> usize
    requires storable { Storable positions.now cells.now marked.now marks.now ends.now }
    requires ends_in_bounds { length (job_bytes (job_from positions.now cells.now marked.now marks.now ends.now)) ≤ length bytes.old }
    ensures bytes_value { bytes.new
        ≡ in_front (job_bytes (job_from positions.now cells.now marked.now marks.now ends.now))
        bytes.old }
    ensures value { result
        ≡ length (job_bytes (job_from positions.now cells.now marked.now marks.now ends.now)) }
{
    store_corners(positions, bytes);
    let from = 13 * (positions.len() / 3);
    store_cells(cells, from, bytes);
    store_steps(marked, marks, ends, from + 9 * (cells.len() / 4), bytes)
}
