// The calls on the stores of one split, by the store's place in the table. Each answers by a number, as the input does, which says which
// answers a call may give: 0, a refusal's number, or one of the numbers below. The contracts are short, so that the proofs above them are.
ghost use Rattle.std.specs.Prelude.{◌<◌, ◌≤◌, IfSome};

use base::{MOST_CELLS, Refusal, code};
use held::Progress;
use std::io;
use store::FULL;
use trial::pattern;

// There is nothing to give, to offer or to send.
pub const NONE: u8 = 99;

// A running store; a done one, and 8 or 9 more where it ended so.
pub const RUNNING: u8 = 20;

pub const DONE: u8 = 30;

// Where a store starts and ends in a table of so many numbers, lent short or not.
fn ends_of(length: usize, at: u8, short: bool) -> Option<(usize, usize)>
    ensures { IfSome result (λ r. (r.0 ≤ r.1) × (r.1 ≤ length)) }
{
    let from = FULL * usize::from(at);
    let to = from + pattern::lent(FULL, short);
    if to <= length { Some((from, to)) } else { None }
}

pub fn start(stores: &mut [u16], at: u8, marks: &[u8], short: bool) -> u8 {
    match ends_of(stores.len(), at, short) {
        Some((from, to)) => code(turns::start(&mut stores[from..to], marks)),
        None => NONE,
    }
}

pub fn step(stores: &mut [u16], at: u8, short: bool) -> u8 {
    match ends_of(stores.len(), at, short) {
        Some((from, to)) => code(partstep::part_step(&mut stores[from..to])),
        None => NONE,
    }
}

pub fn hand(stores: &mut [u16], at: u8, bytes: &[u8], short: bool) -> u8 {
    match ends_of(stores.len(), at, short) {
        Some((from, to)) => code(mail::hand(&mut stores[from..to], bytes)),
        None => NONE,
    }
}

// The first n bytes handed over.
pub fn hand_front(stores: &mut [u16], at: u8, bytes: &[u8], n: usize, short: bool) -> u8 {
    if n > bytes.len() {
        return NONE;
    }
    hand(stores, at, &bytes[..n], short)
}

// Fetches a message: its length, then its bytes.
pub fn fetch(stores: &mut [u16], at: u8, message: &mut [u8; 12], short: bool) -> u8 {
    let Some((from, to)) = ends_of(stores.len(), at, short) else {
        return NONE;
    };
    match mail::fetch(&mut stores[from..to], &mut message[1..10]) {
        Ok(Some(n)) => {
            message[0] = (n % 256) as u8;
            0
        },
        Ok(None) => {
            message[0] = 0;
            NONE
        },
        Err(refusal) => {
            message[0] = 0;
            refusal.number()
        },
    }
}

pub fn stage(stores: &[u16], at: u8, short: bool) -> u8 {
    let Some((from, to)) = ends_of(stores.len(), at, short) else {
        return NONE;
    };
    match held::stage(&stores[from..to]) {
        Ok(Progress::Running(_)) => RUNNING,
        Ok(Progress::Done) => DONE,
        Ok(Progress::Ended(Refusal::TooHigh)) => DONE + 8,
        Ok(Progress::Ended(_)) => DONE + 9,
        Err(refusal) => refusal.number(),
    }
}

// Whether the part is done.
pub fn is_done(stores: &[u16], at: u8) -> bool {
    stage(stores, at, false) >= DONE
}

fn square(x: u64) -> u64
    requires { x < 2147483647 }
    ensures { result < 4611686018427387904 }
{
    x * x
}

// A sum of rows that does not depend on their order: that of the squares of their checksums.
fn rows_sum(rows: &[[u16; 14]]) -> u64 {
    let mut sum = 0;
    for row in rows {
        sum = (sum % 2147483647 + square(pattern::checksum(row) % 2147483647)) % 2147483647;
    }
    sum
}

// Prints how many a part holds, how many of them are ghosts, and the sum of the rows.
fn print_rows(rt: &impl Print, rows: &[u16], n: usize) -> io::Result<u8> {
    let (rows, _) = rows.as_chunks::<14>();
    if n > MOST_CELLS || n > rows.len() {
        return Ok(NONE);
    }
    let rows = &rows[..n];
    let ghosts = rows.iter().filter(|row| row[0] == 1).count();
    println!(rt; "{n} {ghosts} {}", rows_sum(rows))?;
    Ok(0)
}

fn held_in(
    rt: &impl Print,
    stores: &[u16],
    at: u8,
    rows: &mut [u16],
    short: bool,
) -> io::Result<u8> {
    let Some((from, to)) = ends_of(stores.len(), at, short) else {
        return Ok(NONE);
    };
    match held::held(&stores[from..to], rows) {
        Ok(n) => print_rows(rt, rows, n),
        Err(refusal) => Ok(refusal.number()),
    }
}

// What a part holds; a line of it where the call is accepted.
pub fn held(rt: &impl Print, stores: &[u16], at: u8, short: bool) -> io::Result<u8> {
    let mut rows = [0u16; 57344];
    held_in(rt, stores, at, &mut rows, short)
}

fn merge_in(rt: &impl Print, stores: &[u16], table: &mut [u8], short: bool) -> io::Result<u8> {
    let n = pattern::lent(stores.len(), short);
    pattern::fill(table);
    let (cells, answer) = match merge::merge(&stores[..n], table) {
        Ok(cells) => (cells, 0),
        Err(refusal) => (0, refusal.number()),
    };
    println!(rt; "{cells} {}", pattern::checksum(table))?;
    Ok(answer)
}

// All stores merged; a line with how many cells there are, and a checksum of the whole lent table.
pub fn merge(rt: &impl Print, stores: &[u16], short: bool) -> io::Result<u8> {
    let mut table = [0u8; 4096];
    merge_in(rt, stores, &mut table, short)
}

// All stores merged, the table being lent short.
pub fn merge_short(rt: &impl Print, stores: &[u16]) -> io::Result<u8> {
    let mut table = [0u8; 4095];
    merge_in(rt, stores, &mut table, false)
}

// A checksum of a store.
pub fn sum(stores: &[u16], at: u8) -> u64 {
    match ends_of(stores.len(), at, false) {
        Some((from, to)) => pattern::checksum(&stores[from..to]),
        None => 0,
    }
}

// Sets a number of a store.
pub fn set(stores: &mut [u16], at: u8, offset: u32, value: u16) {
    let k = FULL * usize::from(at) + offset as usize;
    if k < stores.len() {
        stores[k] = value;
    }
}

// Two stores change their places.
pub fn swap(stores: &mut [u16], one: u8, other: u8) {
    let a = FULL * usize::from(one);
    let b = FULL * usize::from(other);
    for i in 0..FULL {
        if a + i < stores.len() && b + i < stores.len() {
            stores.swap(a + i, b + i);
        }
    }
}

// A store copied over another.
pub fn copy(stores: &mut [u16], one: u8, other: u8) {
    let a = FULL * usize::from(one);
    let b = FULL * usize::from(other);
    for i in 0..FULL {
        if a + i < stores.len() && b + i < stores.len() {
            stores[b + i] = stores[a + i];
        }
    }
}
