// Runs the calls on archives over the cases of its input, and prints for each case its listing and lines of numbers.
// The input is made by independent/src/bin/archive_cases.rs, and so are the lines that are expected.
#![tactic(auto)]

use base::{MOST_COARSE_CELLS, MOST_COARSE_CORNERS, Refusal};
use jobs::{Lengths, Size};
use std::io;
use trial::{input, pattern};

// What an archive begins with.
#[derive(Clone, Copy)]
struct Archive {
    // Which lent table is short: 1 to 5 of those for reading, 6 and 7 of those for replaying, 0 none.
    short: usize,
    // How many bytes follow.
    bytes: usize,
}

// What a job to be written begins with.
#[derive(Clone, Copy)]
struct Job {
    // Whether the lent table is short.
    short: bool,
    // How many coordinates, corner numbers, marked cells, marks and ends of steps follow.
    positions: usize,
    cells: usize,
    marked: usize,
    marks: usize,
    ends: usize,
}

// The lists of a job.
#[derive(Clone, Copy)]
struct Lists<'a> {
    positions: &'a [i32],
    cells: &'a [u16],
    marked: &'a [u16],
    marks: &'a [u8],
    ends: &'a [u16],
}

#[derive(Clone, Copy)]
enum Case {
    Archive(Archive),
    Job(Job),
}

fn read_header(rt: &impl Input) -> Option<Case> {
    let mut bytes = [0u8; 24];
    if !input::read_all(rt, &mut bytes) {
        return None;
    }
    let short = input::number(&bytes, 1);
    match input::number(&bytes, 0) {
        1 => Some(Case::Archive(Archive {
            short,
            bytes: input::long(&bytes, 1),
        })),
        2 => Some(Case::Job(Job {
            short: short == 1,
            positions: input::long(&bytes, 1),
            cells: input::long(&bytes, 2),
            marked: input::long(&bytes, 3),
            marks: input::long(&bytes, 4),
            ends: input::long(&bytes, 5),
        })),
        _ => None,
    }
}

// This function's contract is short, so that the proofs above it are; so are those of the next two.
fn read(
    archive: &[u8],
    positions: &mut [i32],
    cells: &mut [u16],
    marked: &mut [u16],
    marks: &mut [u8],
    ends: &mut [u16],
) -> Result<Lengths, Refusal> {
    jobs::read(archive, positions, cells, marked, marks, ends)
}

fn write(lists: Lists, bytes: &mut [u8]) -> Result<usize, Refusal> {
    jobs::write(
        lists.positions,
        lists.cells,
        lists.marked,
        lists.marks,
        lists.ends,
        bytes,
    )
}

fn replay(archive: &[u8], table: &mut [u8], counts: &mut [u16]) -> Result<Size, Refusal> {
    jobs::replay(archive, table, counts)
}

fn try_list(rt: &impl Print, archive: &[u8]) -> io::Result<()> {
    let mut out = [0u8; 512];
    let n = jobs::list(archive, &mut out);
    rt.write_all(&out[..n])
}

// Writes a job into a table that holds a known pattern, lent short or not, and prints its line.
fn write_in(rt: &impl Print, lists: Lists, bytes: &mut [u8], short: bool) -> io::Result<()> {
    pattern::fill(bytes);
    let n = pattern::lent(bytes.len(), short);
    match write(lists, &mut bytes[..n]) {
        Ok(length) => print!(rt; "0 {length}")?,
        Err(refusal) => print!(rt; "{} 0", refusal.number())?,
    }
    println!(rt; " {}", pattern::checksum(bytes))
}

fn try_write(rt: &impl Print, lists: Lists, short: bool) -> io::Result<()> {
    let mut bytes = [0u8; 65536];
    write_in(rt, lists, &mut bytes, short)
}

// Writes the job of the first places of the given lists. False where one is too short.
fn write_front(rt: &impl Print, lists: Lists, job: Job) -> io::Result<bool> {
    let p = job.positions;
    let c = job.cells;
    let k = job.marked;
    let m = job.marks;
    let e = job.ends;
    if p > lists.positions.len()
        || c > lists.cells.len()
        || k > lists.marked.len()
        || m > lists.marks.len()
        || e > lists.ends.len()
    {
        return Ok(false);
    }
    let front = Lists {
        positions: &lists.positions[..p],
        cells: &lists.cells[..c],
        marked: &lists.marked[..k],
        marks: &lists.marks[..m],
        ends: &lists.ends[..e],
    };
    try_write(rt, front, job.short)?;
    Ok(true)
}

// Writes the job that was read.
fn write_back(rt: &impl Print, lists: Lists, lengths: Lengths) -> io::Result<()> {
    if lengths.corners > MOST_COARSE_CORNERS || lengths.cells > MOST_COARSE_CELLS {
        return Ok(());
    }
    let job = Job {
        short: false,
        positions: 3 * lengths.corners,
        cells: 4 * lengths.cells,
        marked: lengths.marks,
        marks: lengths.marks,
        ends: lengths.steps,
    };
    write_front(rt, lists, job)?;
    Ok(())
}

fn print_lengths(rt: &impl Print, reading: Result<Lengths, Refusal>) -> io::Result<()> {
    match reading {
        Ok(n) => print!(rt; "0 {} {} {} {}", n.corners, n.cells, n.marks, n.steps),
        Err(refusal) => print!(rt; "{} 0 0 0 0", refusal.number()),
    }
}

// Reads with one of the tables lent short, or none.
fn read_short(
    archive: &[u8],
    positions: &mut [i32],
    cells: &mut [u16],
    marked: &mut [u16],
    marks: &mut [u8],
    ends: &mut [u16],
    short: usize,
) -> Result<Lengths, Refusal> {
    let p = pattern::lent(positions.len(), short == 1);
    let c = pattern::lent(cells.len(), short == 2);
    let k = pattern::lent(marked.len(), short == 3);
    let m = pattern::lent(marks.len(), short == 4);
    let e = pattern::lent(ends.len(), short == 5);
    read(
        archive,
        &mut positions[..p],
        &mut cells[..c],
        &mut marked[..k],
        &mut marks[..m],
        &mut ends[..e],
    )
}

fn fill(
    positions: &mut [i32],
    cells: &mut [u16],
    marked: &mut [u16],
    marks: &mut [u8],
    ends: &mut [u16],
) {
    pattern::fill(positions);
    pattern::fill(cells);
    pattern::fill(marked);
    pattern::fill(marks);
    pattern::fill(ends);
}

// Prints the answer and checksums of the tables over their whole lengths, and writes what was read.
fn show_read(rt: &impl Print, reading: Result<Lengths, Refusal>, lists: Lists) -> io::Result<()> {
    print_lengths(rt, reading)?;
    print!(rt; " {}", pattern::checksum(lists.positions))?;
    print!(rt;
        " {} {}",
        pattern::checksum(lists.cells),
        pattern::checksum(lists.marked)
    )?;
    println!(rt;
        " {} {}",
        pattern::checksum(lists.marks),
        pattern::checksum(lists.ends)
    )?;
    match reading {
        Ok(lengths) => write_back(rt, lists, lengths),
        Err(_) => Ok(()),
    }
}

// Reads into tables that hold a known pattern.
fn read_in(
    rt: &impl Print,
    archive: &[u8],
    positions: &mut [i32],
    cells: &mut [u16],
    marked: &mut [u16],
    marks: &mut [u8],
    ends: &mut [u16],
    short: usize,
) -> io::Result<()> {
    fill(positions, cells, marked, marks, ends);
    let reading = read_short(archive, positions, cells, marked, marks, ends, short);
    let lists = Lists {
        positions,
        cells,
        marked,
        marks,
        ends,
    };
    show_read(rt, reading, lists)
}

fn try_read(rt: &impl Print, archive: &[u8], short: usize) -> io::Result<()> {
    let mut positions = [0i32; 1536];
    let mut cells = [0u16; 1024];
    let mut marked = [0u16; 16384];
    let mut marks = [0u8; 16384];
    let mut ends = [0u16; 65536];
    read_in(
        rt,
        archive,
        &mut positions,
        &mut cells,
        &mut marked,
        &mut marks,
        &mut ends,
        short,
    )
}

fn replay_short(
    archive: &[u8],
    table: &mut [u8],
    counts: &mut [u16],
    short: usize,
) -> Result<Size, Refusal> {
    let t = pattern::lent(table.len(), short == 6);
    let c = pattern::lent(counts.len(), short == 7);
    replay(archive, &mut table[..t], &mut counts[..c])
}

// Replays into tables that hold a known pattern, and prints the line.
fn replay_in(
    rt: &impl Print,
    archive: &[u8],
    table: &mut [u8],
    counts: &mut [u16],
    short: usize,
) -> io::Result<()> {
    pattern::fill(table);
    pattern::fill(counts);
    match replay_short(archive, table, counts, short) {
        Ok(size) => print!(rt; "0 {} {}", size.cells, size.levels)?,
        Err(refusal) => print!(rt; "{} 0 0", refusal.number())?,
    }
    println!(rt;
        " {} {}",
        pattern::checksum(table),
        pattern::checksum(counts)
    )
}

fn try_replay(rt: &impl Print, archive: &[u8], short: usize) -> io::Result<()> {
    let mut table = [0u8; 4096];
    let mut counts = [0u16; 44];
    replay_in(rt, archive, &mut table, &mut counts, short)
}

fn try_archive(rt: &impl Print, archive: &[u8], short: usize) -> io::Result<()> {
    try_list(rt, archive)?;
    try_read(rt, archive, short)?;
    try_replay(rt, archive, short)
}

// Reads the bytes of an archive and tries the calls on it. False where the input ends or the archive is too long for the
// program.
fn next_archive(rt: &(impl Input + Print), archive: Archive) -> io::Result<bool> {
    let mut bytes = [0u8; 70000];
    let n = archive.bytes;
    if !input::read_bytes(rt, &mut bytes, n) || n > bytes.len() {
        return Ok(false);
    }
    try_archive(rt, &bytes[..n], archive.short)?;
    Ok(true)
}

// Reads the lists of a job and writes it. False where the input ends or a list is too long for the program.
fn read_job(
    rt: &(impl Input + Print),
    room: &mut [u8],
    positions: &mut [i32],
    cells: &mut [u16],
    marked: &mut [u16],
    marks: &mut [u8],
    ends: &mut [u16],
    job: Job,
) -> io::Result<bool> {
    if !input::read_mesh(rt, room, positions, cells, job.positions, job.cells)
        || !input::read_list(rt, room, marked, job.marked)
        || !input::read_bytes(rt, marks, job.marks)
        || !input::read_list(rt, room, ends, job.ends)
    {
        return Ok(false);
    }
    let lists = Lists {
        positions,
        cells,
        marked,
        marks,
        ends,
    };
    write_front(rt, lists, job)
}

fn next_job(rt: &(impl Input + Print), job: Job) -> io::Result<bool> {
    let mut room = [0u8; 140000];
    let mut positions = [0i32; 2000];
    let mut cells = [0u16; 2000];
    let mut marked = [0u16; 20000];
    let mut marks = [0u8; 20000];
    let mut ends = [0u16; 70000];
    read_job(
        rt,
        &mut room,
        &mut positions,
        &mut cells,
        &mut marked,
        &mut marks,
        &mut ends,
        job,
    )
}

fn next_case(rt: &(impl Input + Print)) -> io::Result<bool> {
    match read_header(rt) {
        Some(Case::Archive(archive)) => next_archive(rt, archive),
        Some(Case::Job(job)) => next_job(rt, job),
        None => Ok(false),
    }
}

// A proved loop has to end, so the cases are counted.
fn main(rt: HostRuntime) -> io::Result<()> {
    for _ in 0..1000000 {
        if !next_case(&rt)? {
            return Ok(());
        }
    }
    Ok(())
}
