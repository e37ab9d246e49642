// How far a part's step is, and what a done store holds: read from this store alone.
#![tactic(auto)]

ghost use Rattle.std.specs.Prelude.{◌≡◌, ◌+◌, ◌*◌, ◌/◌, ◌^◌, ◌≤◌, ◌<◌, min, length};
ghost use Rattle.std.proofs.lemmas.List.Edits.{sets};
ghost use Rattle.base.specs.Limits.{top_level, most_cells};
ghost use Rattle.base.specs.Refuse.{held_after};
ghost use Rattle.store.specs.Fields.{field, full, ENTRIES};
ghost use Rattle.store.specs.Header.{headerb};
ghost use Rattle.store.specs.Places.{eights, path_of};
ghost use Rattle.held.specs.Held.{entry_in, held_in, entry_row, held_rows, held_answer, stage_answer, stage_of, progress_of, listed_of};
ghost use Rattle.held.specs.Held.{full_held};
ghost use Rattle.held.specs.Key.{Keyed};
ghost use Rattle.held.specs.Listed.{listed};
ghost use Rattle.held.specs.Progress.{progressed};

use base::{MOST_CELLS, Refusal, TOP_LEVEL};
use mail::header_fits;
use store::{
    ENTRIES, FULL, PLACE_DIGITS, PLACE_HEAD, PLACE_MORE, PLACE_STATUS, RESULT, ROUND, STAGE,
};

// The full length of the rows that `held` is lent: fourteen numbers each.
const FULL_HELD: usize = 14 * MOST_CELLS;

// How far a part's step is: in a round, done, or ended by a refusal that all parts come to.
#[derive(Clone, Copy, Debug, PartialEq, Eq)]
pub enum Progress {
    Running(usize),
    Done,
    Ended(Refusal),
}

// A place as a key: 256 times the level and the coarse cell; the child numbers, base 8.
#[derive(Clone, Copy)]
pub struct PathKey {
    pub head: u32,
    pub digits: u32,
}

// How far a part's step is. Refusals 15 and 16.
#[tactic(auto, using(crate::proofs::Stages::result_known),
// What it answers.
unfolding(crate::specs::Held::progress_of, crate::specs::Held::stage_answer, crate::specs::Held::stage_of, base::specs::Refuse::refuse))]
pub fn stage(store: &[u16]) -> Result<Progress, Refusal>
    ensures { progressed result ≡ progress_of (stage_answer store.now) (stage_of store.now) }
{
    if store.len() < FULL {
        return Err(Refusal::Lent);
    }
    if !header_fits(store) || store[STAGE] == 0 {
        return Err(Refusal::Store);
    }
    if store[STAGE] == 1 {
        Ok(Progress::Running(store[ROUND] as usize))
    } else if store[RESULT] == 0 {
        Ok(Progress::Done)
    } else if store[RESULT] == 8 {
        Ok(Progress::Ended(Refusal::TooHigh))
    } else {
        Ok(Progress::Ended(Refusal::TooMany))
    }
}

// 8 to a level.
#[tactic(auto, using(crate::specs::Key::power_is))]
pub fn power(level: usize) -> usize
    requires { level ≤ top_level }
    ensures { (result ≡ 2 ^ (3 * level)) × (result ≤ 1073741824) × (0 < result) }
{
    1 << (3 * level)
}

// The level of a place, at most 10.
fn level_of(head: usize) -> usize
    ensures { (result ≡ min (head / 256) top_level) × (result ≤ top_level) }
{
    TOP_LEVEL.min(head / 256)
}

// The key of a place.
fn key_from(head: usize, digits: usize, more: usize) -> PathKey
    requires { (head < 65536) × (digits < 65536) × (more < 65536) }
    ensures { Keyed (path_of (record { head = head; digits = digits; more = more })) result.head result.digits }
{
    let level = level_of(head);
    let most = power(level);
    let all = digits % 32768 + 32768 * (more % 32768);
    PathKey {
        head: (256 * level + head % 256) as u32,
        digits: (all % most) as u32,
    }
}

// The key of a master or ghost.
#[tactic(auto, unfolding(crate::specs::Held::entry_in))]
pub fn key_of(store: &[u16], j: usize) -> PathKey
    requires { (full ≤ length store.now) × (j < most_cells) }
    ensures { Keyed (entry_in store.now j).path result.head result.digits }
{
    key_from(
        store[PLACE_HEAD + j] as usize,
        store[PLACE_DIGITS + j] as usize,
        store[PLACE_MORE + j] as usize,
    )
}

// Whether an entry is a ghost.
#[tactic(auto, unfolding(crate::specs::Held::entry_in))]
pub fn is_ghost(store: &[u16], j: usize) -> bool
    requires { (full ≤ length store.now) × (j < most_cells) }
    ensures { result ≡ (entry_in store.now j).ghost }
{
    store[PLACE_STATUS + j] >= 128
}

// The status of an entry.
#[tactic(auto, unfolding(crate::specs::Held::entry_in))]
pub fn status_of(store: &[u16], j: usize) -> u8
    requires { (full ≤ length store.now) × (j < most_cells) }
    ensures { (result ≡ (entry_in store.now j).status) × (result < 128) }
{
    (store[PLACE_STATUS + j] % 128) as u8
}

// Writes the ten digits of a key.
fn write_digits(rows: &mut [u16], at: usize, digits: u32)
    requires { at + 10 ≤ length rows.old }
    ensures { rows.new ≡ sets rows.old at (eights 10 digits) }
{
    let mut rest = digits;
    for i in 0..10 {
        rows[at + i] = (rest % 8) as u16;
        rest /= 8;
    }
}

// Writes the row of an entry.
fn write_row(store: &[u16], rows: &mut [u16], j: usize)
    requires { (full ≤ length store.now) × (j < most_cells) × (full_held ≤ length rows.old) }
    ensures { rows.new ≡ sets rows.old (14 * j) (entry_row (entry_in store.now j)) }
{
    let at = 14 * j;
    let key = key_of(store, j);
    rows[at] = u16::from(is_ghost(store, j));
    rows[at + 1] = status_of(store, j) as u16;
    rows[at + 2] = (key.head / 256) as u16;
    rows[at + 3] = (key.head % 256) as u16;
    write_digits(rows, at + 4, key.digits);
}

// The masters and ghosts of a done store, fourteen numbers each: 1 for a ghost, status, level, coarse cell, ten child numbers with zeros
// behind them. Refusals 15 and 16.
#[tactic(auto, using(crate::proofs::Stages::entries_few, crate::proofs::Stages::rows_front, crate::proofs::Rows::length_held),
// What it answers, and what the rows then hold.
unfolding(crate::specs::Held::held_answer, crate::specs::Held::listed_of, base::specs::Refuse::refuse, base::specs::Refuse::held_after))]
pub fn held(store: &[u16], rows: &mut [u16]) -> Result<usize, Refusal>
    ensures answer { listed result ≡ listed_of (held_answer store.now rows.old) (length (held_in store.now)) }
    ensures rows_value { rows.new ≡ held_after (held_answer store.now rows.old) (held_rows store.now) rows.old }
{
    if store.len() < FULL || rows.len() < FULL_HELD {
        return Err(Refusal::Lent);
    }
    if !header_fits(store) || store[STAGE] != 2 {
        return Err(Refusal::Store);
    }
    Ok(write_rows(store, rows))
}

// Writes all rows, and gives their number.
fn write_rows(store: &[u16], rows: &mut [u16]) -> usize
    requires { (full ≤ length store.now) × (field store.now ENTRIES ≤ most_cells) × (full_held ≤ length rows.old) }
    ensures { (result ≡ field store.now ENTRIES) × (rows.new ≡ sets rows.old 0 (held_rows store.now)) }
{
    let count = store[ENTRIES] as usize;
    for j in 0..count {
        write_row(store, rows, j);
    }
    count
}
