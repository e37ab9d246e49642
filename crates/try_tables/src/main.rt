// Runs the calls on status tables over the cases of its input, and prints a line of numbers for each case.
// The input is made by independent/src/bin/table_cases.rs, and so are the lines that are expected.
#![tactic(auto)]

mod print;

use base::{Refusal, code};
use layout::Sizes;
use position::Point;
use std::io;
use trial::{input, layouts, pattern};

// What a case begins with.
#[derive(Clone, Copy)]
struct Header {
    // How many coordinates, corner numbers and statuses follow.
    positions: usize,
    cells: usize,
    status: usize,
    // A cell and a corner to ask for.
    cell: usize,
    corner: usize,
    // Which lent table is short: 1 cells, 2 ends, 3 sums, 4 counts, 0 none.
    short: usize,
    // How often the cells are laid out.
    repeat: usize,
}

// A case: a mesh and a table, and what is asked of them.
#[derive(Clone, Copy)]
struct Case<'a> {
    positions: &'a [i32],
    cells: &'a [u16],
    status: &'a [u8],
    header: Header,
}

fn read_header(rt: &impl Input) -> Option<Header> {
    let mut bytes = [0u8; 14];
    if !input::read_all(rt, &mut bytes) || input::number(&bytes, 0) == 65535 {
        return None;
    }
    Some(Header {
        positions: input::number(&bytes, 0),
        cells: input::number(&bytes, 1),
        status: input::number(&bytes, 2),
        cell: input::number(&bytes, 3),
        corner: input::number(&bytes, 4),
        short: input::number(&bytes, 5),
        repeat: input::number(&bytes, 6),
    })
}

// The layout, made as often as asked.
fn lay_out(
    case: Case,
    table: &mut [u16],
    ends: &mut [u16],
    sums: &mut [i32],
) -> Result<Sizes, Refusal> {
    let mut laid = layouts::lay_out(case.positions, case.cells, case.status, table, ends, sums);
    for _ in 1..case.header.repeat {
        laid = layouts::lay_out(case.positions, case.cells, case.status, table, ends, sums);
    }
    laid
}

// The layout with one of the tables 1, 2, 3 lent short, or none.
fn lay_out_in(
    case: Case,
    table: &mut [u16],
    ends: &mut [u16],
    sums: &mut [i32],
) -> Result<Sizes, Refusal> {
    let t = pattern::lent(table.len(), case.header.short == 1);
    let e = pattern::lent(ends.len(), case.header.short == 2);
    let s = pattern::lent(sums.len(), case.header.short == 3);
    lay_out(case, &mut table[..t], &mut ends[..e], &mut sums[..s])
}

// The position of the corner asked for; table 3 may be lent short. Where nothing was laid out, any number of corners will do.
fn position_in(
    sums: &[i32],
    laid: Result<Sizes, Refusal>,
    header: Header,
) -> Result<Point, Refusal> {
    let corners = match laid {
        Ok(sizes) => sizes.corners,
        Err(_) => 65535,
    };
    let s = pattern::lent(sums.len(), header.short == 3);
    position::position_of(&sums[..s], corners, header.corner)
}

// Lays the cells out in tables that hold a known pattern, and prints what the tables hold then, over their whole lengths.
fn print_layout(
    rt: &impl Print,
    case: Case,
    table: &mut [u16],
    ends: &mut [u16],
    sums: &mut [i32],
) -> io::Result<()> {
    layouts::fill(table, ends, sums);
    let laid = lay_out_in(case, table, ends, sums);
    print!(rt; " {}", layouts::sum_up(laid, table, ends, sums))?;
    print::point(rt, position_in(sums, laid, case.header))
}

fn try_layout(rt: &impl Print, case: Case) -> io::Result<()> {
    let mut table = [0u16; 32768];
    let mut ends = [0u16; 32768];
    let mut sums = [0i32; 49152];
    print_layout(rt, case, &mut table, &mut ends, &mut sums)
}

// The counts with table 4 lent short, or not.
fn print_counts(rt: &impl Print, case: Case, counts: &mut [u16]) -> io::Result<()> {
    pattern::fill(counts);
    let n = pattern::lent(counts.len(), case.header.short == 4);
    let counted = queries::counts(case.positions, case.cells, case.status, &mut counts[..n]);
    print::levels(rt, counted)?;
    print!(rt; " {}", pattern::checksum(counts))
}

fn try_counts(rt: &impl Print, case: Case) -> io::Result<()> {
    let mut counts = [0u16; 44];
    print_counts(rt, case, &mut counts)
}

fn try_case(rt: &impl Print, case: Case) -> io::Result<()> {
    let mesh = code(coarse::examine_mesh(case.positions, case.cells));
    let table = code(opening::examine_table(case.positions, case.cells, case.status));
    print!(rt; "{mesh} {table}")?;
    try_layout(rt, case)?;
    let ancestor = queries::ancestor(case.positions, case.cells, case.status, case.header.cell);
    print::ancestor(rt, ancestor)?;
    try_counts(rt, case)?;
    println!(rt; "")
}

// A case whose lists are the first places of the given ones. False where one is too short.
fn try_front(
    rt: &impl Print,
    positions: &[i32],
    cells: &[u16],
    status: &[u8],
    header: Header,
) -> io::Result<bool> {
    let p = header.positions;
    let c = header.cells;
    let s = header.status;
    if p > positions.len() || c > cells.len() || s > status.len() {
        return Ok(false);
    }
    let case = Case {
        positions: &positions[..p],
        cells: &cells[..c],
        status: &status[..s],
        header,
    };
    try_case(rt, case)?;
    Ok(true)
}

// Reads what follows a header and tries that case. False where the input ends or a length is above the program's limits.
fn read_case(
    rt: &(impl Input + Print),
    room: &mut [u8],
    positions: &mut [i32],
    cells: &mut [u16],
    status: &mut [u8],
    header: Header,
) -> io::Result<bool> {
    if !input::read_mesh(rt, room, positions, cells, header.positions, header.cells)
        || !input::read_bytes(rt, status, header.status)
    {
        return Ok(false);
    }
    try_front(rt, positions, cells, status, header)
}

fn next_case(rt: &(impl Input + Print)) -> io::Result<bool> {
    let Some(header) = read_header(rt) else {
        return Ok(false);
    };
    let mut room = [0u8; 8000];
    let mut positions = [0i32; 2000];
    let mut cells = [0u16; 2000];
    let mut status = [0u8; 5000];
    read_case(
        rt,
        &mut room,
        &mut positions,
        &mut cells,
        &mut status,
        header,
    )
}

// A proved loop has to end, so the cases are counted.
fn main(rt: HostRuntime) -> io::Result<()> {
    for _ in 0..1000000 {
        if !next_case(&rt)? {
            return Ok(());
        }
    }
    Ok(())
}
