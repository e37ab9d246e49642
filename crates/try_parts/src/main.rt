// Splits meshes, carries the messages between the parts and merges them again, over the cases of its input, and prints a line of numbers
// for each call that is asked to be told. The input is made by independent/src/bin/part_cases.rs, and so are the lines that are expected.
#![tactic(auto)]

mod calls;
mod carrier;

use crate::calls::NONE;
use crate::carrier::Carrier;
use base::code;
use std::io;
use trial::{input, pattern};

// What a case begins with.
#[derive(Clone, Copy)]
struct Header {
    // How many coordinates, corner numbers, statuses and owners follow.
    positions: usize,
    cells: usize,
    status: usize,
    owners: usize,
    // How many parts there are.
    parts: usize,
    // Whether the table of stores is lent short.
    short: bool,
    // How many calls follow the lists.
    calls: usize,
}

// What a call does.
#[derive(Clone, Copy)]
enum What {
    Start,
    Step,
    Fetch,
    Next,
    Early,
    Again,
    Damaged,
    Hand,
    Stage,
    Held,
    Merge,
    MergeShort,
    Swap,
    Finish,
    Copy,
    Set,
}

// By its number in the input.
fn what_of(number: u8) -> Option<What> {
    match number {
        1 => Some(What::Start),
        2 => Some(What::Step),
        3 => Some(What::Fetch),
        4 => Some(What::Next),
        5 => Some(What::Early),
        6 => Some(What::Again),
        7 => Some(What::Damaged),
        8 => Some(What::Hand),
        9 => Some(What::Stage),
        10 => Some(What::Held),
        11 => Some(What::Merge),
        12 => Some(What::MergeShort),
        13 => Some(What::Swap),
        14 => Some(What::Finish),
        15 => Some(What::Copy),
        16 => Some(What::Set),
        _ => None,
    }
}

// A call on the stores.
#[derive(Clone, Copy)]
struct Call {
    // None where the input ends, or at a number that is no call's.
    what: Option<What>,
    // The store that it is on.
    at: u8,
    // Sender and receiver of a message.
    from: u8,
    to: u8,
    // Which message, how it is damaged, how many bytes follow, or where in the store.
    low: u8,
    high: u8,
    // The two answers that it may give.
    one: u8,
    other: u8,
    // Whether its line is printed, the store is compared with that before, and the store is lent short.
    told: bool,
    compared: bool,
    short: bool,
}

// What came of calls that have no line: how many answered otherwise than they may, and how many were refused and changed the store; each
// up to 255.
#[derive(Clone, Copy)]
struct Tally {
    wrong: u8,
    changed: u8,
}

fn read_header(rt: &impl Input) -> Option<Header> {
    let mut bytes = [0u8; 14];
    if !input::read_all(rt, &mut bytes) || input::number(&bytes, 0) == 65535 {
        return None;
    }
    Some(Header {
        positions: input::number(&bytes, 0),
        cells: input::number(&bytes, 1),
        status: input::number(&bytes, 2),
        owners: input::number(&bytes, 3),
        parts: input::number(&bytes, 4),
        short: input::number(&bytes, 5) == 1,
        calls: input::number(&bytes, 6),
    })
}

// Reads a call.
fn read_call(rt: &impl Input) -> Call {
    let mut bytes = [0u8; 10];
    let read = input::read_all(rt, &mut bytes);
    let flags = bytes[8];
    Call {
        what: if read { what_of(bytes[0]) } else { None },
        at: bytes[1],
        from: bytes[2],
        to: bytes[3],
        low: bytes[4],
        high: bytes[5],
        one: bytes[6],
        other: bytes[7],
        told: flags % 2 == 1,
        compared: flags / 2 % 2 == 1,
        short: flags / 4 % 2 == 1,
    }
}

fn start_with(rt: &impl Input, stores: &mut [u16], call: Call, marks: &mut [u8]) -> u8 {
    let n = usize::from(u16::from_le_bytes([call.low, call.high]));
    if !input::read_bytes(rt, marks, n) || n > marks.len() {
        return NONE;
    }
    calls::start(stores, call.at, &marks[..n], call.short)
}

// A start; its marks follow in the input.
fn start(rt: &impl Input, stores: &mut [u16], call: Call) -> u8 {
    let mut marks = [0u8; 5000];
    start_with(rt, stores, call, &mut marks)
}

fn hand_with(rt: &impl Input, stores: &mut [u16], call: Call, bytes: &mut [u8]) -> u8 {
    let n = usize::from(call.low);
    if !input::read_bytes(rt, bytes, n) {
        return NONE;
    }
    calls::hand_front(stores, call.at, bytes, n, call.short)
}

// Bytes handed over; they follow in the input.
fn hand(rt: &impl Input, stores: &mut [u16], call: Call) -> u8 {
    let mut bytes = [0u8; 255];
    hand_with(rt, stores, call, &mut bytes)
}

fn make(
    rt: &(impl Input + Print),
    stores: &mut [u16],
    carrier: &mut Carrier,
    call: Call,
) -> io::Result<u8> {
    let short = call.short;
    let Some(what) = call.what else {
        return Ok(NONE);
    };
    match what {
        What::Start => Ok(start(rt, stores, call)),
        What::Step => Ok(calls::step(stores, call.at, short)),
        What::Fetch => Ok(carrier.fetch(stores, call.at, short)),
        What::Next => Ok(carrier.next(stores, call.from, call.to, short)),
        What::Early => Ok(carrier.early(stores, call.from, call.to, call.low, call.at, short)),
        What::Again => Ok(carrier.again(stores, call.from, call.to, call.at, short)),
        What::Damaged => Ok(carrier.damaged(
            stores, call.from, call.to, call.low, call.high, short,
        )),
        What::Hand => Ok(hand(rt, stores, call)),
        What::Stage => Ok(calls::stage(stores, call.at, short)),
        What::Held => calls::held(rt, stores, call.at, short),
        What::Merge => calls::merge(rt, stores, short),
        What::MergeShort => calls::merge_short(rt, stores),
        What::Swap => {
            calls::swap(stores, call.from, call.to);
            Ok(0)
        },
        What::Finish => Ok(carrier.finish(stores, call.to)),
        What::Copy => {
            calls::copy(stores, call.from, call.to);
            Ok(0)
        },
        What::Set => {
            let offset = u32::from_le_bytes([call.low, call.high, call.to, 0]);
            let value = u16::from_le_bytes([call.one, call.other]);
            calls::set(stores, call.at, offset, value);
            Ok(0)
        },
    }
}

fn is_refusal(answer: u8) -> bool {
    answer != 0 && answer < calls::RUNNING
}

fn is_wrong(call: Call, answer: u8) -> bool {
    answer != NONE && answer != call.one && answer != call.other
}

// Prints a line, or counts.
fn tell(rt: &impl Print, call: Call, answer: u8, same: bool, tally: Tally) -> io::Result<Tally> {
    if call.told {
        println!(rt; "{answer} {}", u8::from(same))?;
        return Ok(tally);
    }
    let changed = !same && is_refusal(answer);
    Ok(Tally {
        wrong: tally.wrong.saturating_add(u8::from(is_wrong(call, answer))),
        changed: tally.changed.saturating_add(u8::from(changed)),
    })
}

fn sum_if(stores: &[u16], at: u8, compared: bool) -> u64 {
    if compared { calls::sum(stores, at) } else { 0 }
}

fn next_call(
    rt: &(impl Input + Print),
    stores: &mut [u16],
    carrier: &mut Carrier,
    tally: Tally,
) -> io::Result<Tally> {
    let call = read_call(rt);
    let before = sum_if(stores, call.at, call.compared);
    let answer = make(rt, stores, carrier, call)?;
    let after = sum_if(stores, call.at, call.compared);
    tell(rt, call, answer, before == after, tally)
}

// The n calls of a case, with nothing carried yet. Its tables and those of a split do not stand on the stack at the same time.
#[inline(never)]
fn exchange(rt: &(impl Input + Print), stores: &mut [u16], n: usize) -> io::Result<()> {
    let mut carrier = Carrier::new();
    let mut tally = Tally {
        wrong: 0,
        changed: 0,
    };
    for _ in 0..n {
        tally = next_call(rt, stores, &mut carrier, tally)?;
    }
    println!(rt; "{} {}", tally.wrong, tally.changed)
}

// A mesh and a table, and who owns what.
#[derive(Clone, Copy)]
struct Lists<'a> {
    positions: &'a [i32],
    cells: &'a [u16],
    status: &'a [u8],
    owners: &'a [u8],
}

// The split, with the table of stores lent short or not. This function's contract is short, so that the proofs above it are.
fn split(lists: Lists, parts: usize, stores: &mut [u16], short: bool) -> u8 {
    let n = pattern::lent(stores.len(), short);
    code(divide::split(
        lists.positions,
        lists.cells,
        lists.status,
        parts,
        lists.owners,
        &mut stores[..n],
    ))
}

// Splits, and prints the answer and whether a refusal left the stores of the first two parts as they were.
fn split_told(rt: &impl Print, lists: Lists, stores: &mut [u16], header: Header) -> io::Result<()> {
    let before = (calls::sum(stores, 0), calls::sum(stores, 1));
    let answer = split(lists, header.parts, stores, header.short);
    let same = before == (calls::sum(stores, 0), calls::sum(stores, 1));
    println!(rt; "{answer} {}", u8::from(answer != 0 && same))
}

// A case whose lists are the first places of the given ones. False where one is too short.
fn split_front(
    rt: &impl Print,
    lists: Lists,
    stores: &mut [u16],
    header: Header,
) -> io::Result<bool> {
    let p = header.positions;
    let c = header.cells;
    let s = header.status;
    let o = header.owners;
    if p > lists.positions.len()
        || c > lists.cells.len()
        || s > lists.status.len()
        || o > lists.owners.len()
    {
        return Ok(false);
    }
    let front = Lists {
        positions: &lists.positions[..p],
        cells: &lists.cells[..c],
        status: &lists.status[..s],
        owners: &lists.owners[..o],
    };
    split_told(rt, front, stores, header)?;
    Ok(true)
}

fn read_case(
    rt: &(impl Input + Print),
    room: &mut [u8],
    positions: &mut [i32],
    cells: &mut [u16],
    status: &mut [u8],
    owners: &mut [u8],
    stores: &mut [u16],
    header: Header,
) -> io::Result<bool> {
    if !input::read_mesh(rt, room, positions, cells, header.positions, header.cells)
        || !input::read_bytes(rt, status, header.status)
        || !input::read_bytes(rt, owners, header.owners)
    {
        return Ok(false);
    }
    let lists = Lists {
        positions,
        cells,
        status,
        owners,
    };
    split_front(rt, lists, stores, header)
}

// Reads what follows a header and splits. False where the input ends or a length is above the program's limits.
#[inline(never)]
fn split_case(rt: &(impl Input + Print), stores: &mut [u16], header: Header) -> io::Result<bool> {
    let mut room = [0u8; 8000];
    let mut positions = [0i32; 2000];
    let mut cells = [0u16; 2000];
    let mut status = [0u8; 5000];
    let mut owners = [0u8; 5000];
    read_case(
        rt,
        &mut room,
        &mut positions,
        &mut cells,
        &mut status,
        &mut owners,
        stores,
        header,
    )
}

fn next_case(rt: &(impl Input + Print), stores: &mut [u16]) -> io::Result<bool> {
    let Some(header) = read_header(rt) else {
        return Ok(false);
    };
    if !split_case(rt, stores, header)? {
        return Ok(false);
    }
    exchange(rt, stores, header.calls)?;
    Ok(true)
}

// A proved loop has to end, so the cases are counted.
fn all_cases(rt: &(impl Input + Print), stores: &mut [u16]) -> io::Result<()> {
    for _ in 0..1000000 {
        if !next_case(rt, stores)? {
            return Ok(());
        }
    }
    Ok(())
}

fn main(rt: HostRuntime) -> io::Result<()> {
    let mut stores = [0u16; 3623808];
    all_cases(&rt, &mut stores)
}
