// Runs steps over the cases of its input, and prints a line of numbers for each step.
// The input is made by independent/src/bin/step_cases.rs, and so are the lines that are expected.
#![tactic(auto)]

use base::Refusal;
use std::io;
use trial::{input, layouts, pattern};

// What a case begins with.
#[derive(Clone, Copy)]
struct Header {
    // How many coordinates, corner numbers and statuses follow.
    positions: usize,
    cells: usize,
    status: usize,
    // How many steps follow these.
    steps: usize,
    // How often each step is made.
    repeat: usize,
}

#[derive(Clone, Copy)]
struct Mesh<'a> {
    positions: &'a [i32],
    cells: &'a [u16],
}

fn read_header(rt: &impl Input) -> Option<Header> {
    let mut bytes = [0u8; 10];
    if !input::read_all(rt, &mut bytes) || input::number(&bytes, 0) == 65535 {
        return None;
    }
    Some(Header {
        positions: input::number(&bytes, 0),
        cells: input::number(&bytes, 1),
        status: input::number(&bytes, 2),
        steps: input::number(&bytes, 3),
        repeat: input::number(&bytes, 4),
    })
}

// The step. This function's contract is short, so that the proofs above it are.
fn step_once(mesh: Mesh, status: &[u8], marks: &[u8], table: &mut [u8]) -> Result<usize, Refusal> {
    step::step(mesh.positions, mesh.cells, status, marks, table)
}

// The step, made as often as asked.
fn step_often(
    mesh: Mesh,
    status: &[u8],
    marks: &[u8],
    table: &mut [u8],
    repeat: usize,
) -> Result<usize, Refusal> {
    let mut stepped = step_once(mesh, status, marks, table);
    for _ in 1..repeat {
        stepped = step_once(mesh, status, marks, table);
    }
    stepped
}

fn print_stepped(rt: &impl Print, stepped: Result<usize, Refusal>) -> io::Result<()> {
    match stepped {
        Ok(cells) => print!(rt; "0 {cells}"),
        Err(refusal) => print!(rt; "{} 0", refusal.number()),
    }
}

fn lay_out_in(
    rt: &impl Print,
    mesh: Mesh,
    status: &[u8],
    table: &mut [u16],
    ends: &mut [u16],
    sums: &mut [i32],
) -> io::Result<()> {
    layouts::fill(table, ends, sums);
    let laid = layouts::lay_out(mesh.positions, mesh.cells, status, table, ends, sums);
    print!(rt; " {}", layouts::sum_up(laid, table, ends, sums))
}

// Prints the layout of a table that a step left.
fn print_layout(rt: &impl Print, mesh: Mesh, status: &[u8]) -> io::Result<()> {
    let mut table = [0u16; 32768];
    let mut ends = [0u16; 32768];
    let mut sums = [0i32; 49152];
    lay_out_in(rt, mesh, status, &mut table, &mut ends, &mut sums)
}

// Takes the first n places of the table that a step left as the statuses, and prints its layout.
fn take_over(
    rt: &impl Print,
    mesh: Mesh,
    status: &mut [u8],
    table: &[u8],
    n: usize,
) -> io::Result<()> {
    if n > table.len() || n > status.len() {
        return Ok(());
    }
    base::copy_front(table, n, status);
    print_layout(rt, mesh, &status[..n])
}

// Makes a step from the first places of status, in a table that holds a known pattern, and prints its line. The statuses after
// it stand in the first places again, or after a refused step the old; the answer is how many they are.
fn try_step(
    rt: &impl Print,
    mesh: Mesh,
    status: &mut [u8],
    count: usize,
    marks: &[u8],
    table: &mut [u8],
    short: bool,
    repeat: usize,
) -> io::Result<usize> {
    if count > status.len() {
        return Ok(count);
    }
    pattern::fill(table);
    let n = pattern::lent(table.len(), short);
    let stepped = step_often(mesh, &status[..count], marks, &mut table[..n], repeat);
    print_stepped(rt, stepped)?;
    print!(rt; " {}", pattern::checksum(table))?;
    if let Ok(cells) = stepped {
        take_over(rt, mesh, status, table, cells)?;
    }
    println!(rt; "")?;
    Ok(stepped.unwrap_or(count))
}

// Reads the marks of a step, and makes it.
fn next_step(
    rt: &(impl Input + Print),
    mesh: Mesh,
    status: &mut [u8],
    count: usize,
    marks: &mut [u8],
    table: &mut [u8],
    repeat: usize,
) -> io::Result<usize> {
    // How many marks follow, and whether the lent table is short.
    let mut bytes = [0u8; 4];
    if !input::read_all(rt, &mut bytes) {
        return Ok(count);
    }
    let n = input::number(&bytes, 0);
    let short = input::number(&bytes, 1) == 1;
    if !input::read_bytes(rt, marks, n) || n > marks.len() {
        return Ok(count);
    }
    try_step(rt, mesh, status, count, &marks[..n], table, short, repeat)
}

fn all_steps(
    rt: &(impl Input + Print),
    mesh: Mesh,
    status: &mut [u8],
    marks: &mut [u8],
    table: &mut [u8],
    header: Header,
) -> io::Result<()> {
    let mut count = header.status;
    for _ in 0..header.steps {
        count = next_step(rt, mesh, status, count, marks, table, header.repeat)?;
    }
    Ok(())
}

fn try_case(
    rt: &(impl Input + Print),
    mesh: Mesh,
    status: &mut [u8],
    header: Header,
) -> io::Result<()> {
    let mut marks = [0u8; 5000];
    let mut table = [0u8; 4096];
    all_steps(rt, mesh, status, &mut marks, &mut table, header)
}

// A case whose mesh is the first places of the given lists. False where one is too short.
fn try_front(
    rt: &(impl Input + Print),
    positions: &[i32],
    cells: &[u16],
    status: &mut [u8],
    header: Header,
) -> io::Result<bool> {
    let p = header.positions;
    let c = header.cells;
    if p > positions.len() || c > cells.len() {
        return Ok(false);
    }
    let mesh = Mesh {
        positions: &positions[..p],
        cells: &cells[..c],
    };
    try_case(rt, mesh, status, header)?;
    Ok(true)
}

// Reads what follows a header and tries that case. False where the input ends or a length is above the program's limits.
fn read_case(
    rt: &(impl Input + Print),
    room: &mut [u8],
    positions: &mut [i32],
    cells: &mut [u16],
    status: &mut [u8],
    header: Header,
) -> io::Result<bool> {
    if !input::read_mesh(rt, room, positions, cells, header.positions, header.cells)
        || !input::read_bytes(rt, status, header.status)
    {
        return Ok(false);
    }
    try_front(rt, positions, cells, status, header)
}

fn next_case(rt: &(impl Input + Print)) -> io::Result<bool> {
    let Some(header) = read_header(rt) else {
        return Ok(false);
    };
    let mut room = [0u8; 8000];
    let mut positions = [0i32; 2000];
    let mut cells = [0u16; 2000];
    let mut status = [0u8; 5000];
    read_case(
        rt,
        &mut room,
        &mut positions,
        &mut cells,
        &mut status,
        header,
    )
}

// A proved loop has to end, so the cases are counted.
fn main(rt: HostRuntime) -> io::Result<()> {
    for _ in 0..1000000 {
        if !next_case(&rt)? {
            return Ok(());
        }
    }
    Ok(())
}
