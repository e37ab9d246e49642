// Merging all stores of a split: they are examined, and their masters put in the order of a table.
#![tactic(auto)]

ghost use Rattle.std.specs.Prelude.{◌≡◌, ◌++◌, ◌+◌, ◌*◌, ◌/◌, ◌≤◌, ◌<◌, T, false, eqb, length, take, drop};
ghost use Rattle.std.specs.Prelude.{IfOk, MatchOption, MatchResult};
ghost use Rattle.base.specs.Fours.{fours};
ghost use Rattle.base.specs.Limits.{most_cells, most_coarse_cells, most_coarse_corners, most_parts};
ghost use Rattle.base.specs.Lists.{allb, anyb};
ghost use Rattle.base.specs.Refuse.{answered, held_after};
ghost use Rattle.mesh.specs.Coarse.{cellsb};
ghost use Rattle.store.specs.Fields.{field, full, COARSE, CORNER, PART};
ghost use Rattle.store.specs.Stores.{store_in, stores_by};
ghost use Rattle.held.specs.Key.{Key};
ghost use Rattle.merge.specs.Merge.{stores_in, alikeb, everyb, ownsb, merge_table, merge_answer};
ghost use Rattle.merge.specs.Sweep.{Failed, Pushed};
ghost use Rattle.merge.specs.Steps.{Assembled, OwnedAt, Gathered, Ungathered, HandedOut, Withheld, FewEntries, entries_by};

mod masters;
mod row;

use base::{MOST_CELLS, MOST_PARTS, Refusal};
use held::power;
use mail::header_fits;
use masters::Masters;
use pairs::PairTable;
use row::Row;
use store::{COARSE, CORNER, CORNERS, FULL, OWNER, PART, PARTS, RESULT, STAGE};

// One of the stores.
pub(crate) fn store_at(stores: &[u16], j: usize) -> &[u16]
    requires { (most_parts * full ≤ length stores.now) × (j < most_parts) }
    ensures { (result.now ≡ store_in stores.now j) × (length result.now ≡ full) }
{
    let from = FULL * j;
    let to = from + FULL;
    &stores[from..to]
}

// Whether a store is done, and of the same parts, corners, coarse cells and result as the first.
#[tactic(auto, unfolding(crate::specs::Merge::alikeb))]
fn is_alike(stores: &[u16], j: usize) -> bool
    requires { (most_parts * full ≤ length stores.now) × (j < most_parts) }
    ensures { result ≡ alikeb stores.now (store_in stores.now j) }
{
    let store = store_at(stores, j);
    header_fits(store)
        && store[STAGE] == 2
        && store[PARTS] == stores[PARTS]
        && store[CORNERS] == stores[CORNERS]
        && store[COARSE] == stores[COARSE]
        && store[RESULT] == stores[RESULT]
}

// Whether all stores are so.
fn all_alike(stores: &[u16], parts: usize) -> bool
    requires { (most_parts * full ≤ length stores.now) × (parts ≤ most_parts) }
    ensures { result ≡ allb (alikeb stores.now) (stores_by stores.now parts) }
{
    (0..parts).all(|j| is_alike(stores, j))
}

// Whether a part is among the stores.
fn has_part(stores: &[u16], parts: usize, p: usize) -> bool
    requires { (most_parts * full ≤ length stores.now) × (parts ≤ most_parts) }
    ensures { result ≡ anyb (λ x. eqb (field x PART) p) (stores_by stores.now parts) }
{
    (0..parts).any(|j| stores[FULL * j + PART] as usize == p)
}

// Whether each part is.
fn has_all(stores: &[u16], parts: usize) -> bool
    requires { (most_parts * full ≤ length stores.now) × (parts ≤ most_parts) }
    ensures { result ≡ everyb (stores_by stores.now parts) }
{
    (1..parts + 1).all(|p| has_part(stores, parts, p))
}

// The first store that has a coarse cell as master.
fn owner_at(stores: &[u16], parts: usize, i: usize) -> Option<usize>
    requires { (most_parts * full ≤ length stores.now) × (parts ≤ most_parts) × (i < most_coarse_cells) }
    ensures { MatchOption result (anyb (ownsb i) (stores_by stores.now parts) ≡ false) (λ j. OwnedAt stores.now parts i j) }
{
    for j in 0..parts {
        let from = FULL * j;
        if stores[from + (OWNER + i)] == stores[from + PART] {
            return Some(j);
        }
    }
    None
}

// The corners of a coarse cell, as a store has them.
fn corners_of(stores: &[u16], j: usize, i: usize) -> [u16; 4]
    requires { (most_parts * full ≤ length stores.now) × (j < most_parts) × (i < most_coarse_cells) }
    ensures { result ≡ take 4 (drop (CORNER + 4 * i) (store_in stores.now j)) }
{
    let from = FULL * j + (CORNER + 4 * i);
    [
        stores[from],
        stores[from + 1],
        stores[from + 2],
        stores[from + 3],
    ]
}

// Gathers the corners of m coarse cells: each has a master, and corners in order, of n.
fn gather_corners(
    stores: &[u16],
    parts: usize,
    n: usize,
    m: usize,
    mesh: &mut [u16; 1024],
) -> Result<(), Refusal>
    requires { (most_parts * full ≤ length stores.now) × (parts ≤ most_parts) × (m ≤ most_coarse_cells) }
    ensures { MatchResult result (λ _. Gathered stores.now parts n m mesh.new)
        (λ r. (r ≡ Refusal.Store) × Ungathered stores.now parts n m) }
{
    for i in 0..m {
        let Some(j) = owner_at(stores, parts, i) else {
            return Err(Refusal::Store);
        };
        let cell = corners_of(stores, j, i);
        if !coarse::ascending(&cell, n) {
            return Err(Refusal::Store);
        }
        let at = 4 * i;
        mesh[at..at + 4].copy_from_slice(&cell);
    }
    Ok(())
}

// Puts the keys of a cell's children behind the row.
pub(crate) fn push(heads: &mut [u32], digits: &mut [u32], end: usize, x: u32, y: u32, size: usize)
    requires key { Key x y × (0 < size → x / 256 < 10) × (size ≤ 8) }
    requires room { (end + size ≤ length heads.old) × (end + size ≤ length digits.old) }
    ensures { Pushed heads.old digits.old end x y size heads.new digits.new }
{
    let most = power(x as usize / 256);
    for i in 0..size {
        heads[end + i] = x + 256;
        digits[end + i] = (y as usize + i * most) as u32;
    }
}

// The table that the masters of all stores make.
fn assemble(stores: &[u16], parts: usize, m: usize) -> Result<Row, Refusal>
    requires full_in_bounds { (most_parts * full ≤ length stores.now) × (parts ≤ most_parts) × (m ≤ most_coarse_cells) }
    requires few_entries { FewEntries stores.now parts }
    ensures { MatchResult result (λ row. Assembled stores.now parts m row)
        (λ r. (r ≡ Refusal.Store) × Failed (entries_by stores.now parts) m) }
{
    let mut masters = Masters::new();
    masters.load_stores(stores, parts)?;
    let row = Row::build(&masters, m)?;
    if row.known != masters.keys.n {
        return Err(Refusal::Store);
    }
    Ok(row)
}

// Copies so many statuses, one by one: a copy at once of what is lent calls memmove, which the library does not ask for otherwise.
fn copy_statuses(from: &[u8], n: usize, to: &mut [u8])
    requires { (n ≤ length from.now) × (n ≤ length to.old) }
    ensures { to.new ≡ take n from.now ++ drop n to.old }
{
    for i in 0..n {
        to[i] = from[i];
    }
}

// Examines the table over m coarse cells with n corners, and hands it out where it is sound: how many cells it has.
fn finish(
    mesh: &[u16; 1024],
    m: usize,
    n: usize,
    row: &Row,
    table: &mut [u8],
) -> Result<usize, Refusal>
    requires le_m { (1 ≤ m) × (m ≤ most_coarse_cells) × (n ≤ most_coarse_corners) × (most_cells ≤ length table.old) }
    requires cells { T (cellsb n (fours (take (4 * m) mesh.now))) }
    ensures { MatchResult result
        (λ k. (k ≡ row.now.known)
        × HandedOut n (fours (take (4 * m) mesh.now)) (take row.now.known row.now.statuses) table.old table.new)
        (λ r. (r ≡ Refusal.Store)
        × Withheld n (fours (take (4 * m) mesh.now)) (take row.now.known row.now.statuses) table.old table.new) }
{
    let k = row.known;
    let mut rows = [0; 32768];
    let mut mids: PairTable<4096, 4096> = PairTable {
        xs: [0; 4096],
        ys: [0; 4096],
        heads: [65535; 4096],
        links: [0; 4096],
        from: 0,
        n: 0,
    };
    if examining::examine(&mesh[..4 * m], n, &row.statuses[..k], &mut rows, &mut mids).is_err() {
        return Err(Refusal::Store);
    }
    copy_statuses(&row.statuses, k, table);
    Ok(k)
}

// Merges all stores of a split: the table that their masters make, as many statuses as are answered. Refusals 15, and 16 where they are
// not every part once, all done with the same result, or make no sound table.
pub fn merge(stores: &[u16], table: &mut [u8]) -> Result<usize, Refusal>
    ensures answer { answered result ≡ merge_answer stores.now table.old }
    ensures cells { IfOk result (λ k. k ≡ length (merge_table (stores_in stores.now) (field stores.now COARSE))) }
    ensures table_value { table.new
        ≡ held_after (merge_answer stores.now table.old) (merge_table (stores_in stores.now) (field stores.now COARSE)) table.old }
{
    if stores.len() < MOST_PARTS * FULL || table.len() < MOST_CELLS {
        return Err(Refusal::Lent);
    }
    if !header_fits(stores) {
        return Err(Refusal::Store);
    }
    let parts = stores[PARTS] as usize;
    if !all_alike(stores, parts) || !has_all(stores, parts) {
        return Err(Refusal::Store);
    }
    let n = stores[CORNERS] as usize;
    let m = stores[COARSE] as usize;
    let mut mesh = [0; 1024];
    gather_corners(stores, parts, n, m, &mut mesh)?;
    let row = assemble(stores, parts, m)?;
    finish(&mesh, m, n, &row, table)
}
