// The masters and ghosts of a part after the step, from its store alone: statuses, and places written one behind the other.
#![tactic(auto)]

ghost use Rattle.std.specs.Prelude.{◌≡◌, ℕ, Bool, true, false, MatchOption, map, ◌+◌, ◌≤◌, ◌<◌, length, get_or};
ghost use Rattle.base.specs.Limits.{most_cells};
ghost use Rattle.mesh.specs.Cells.{bits_of};
ghost use Rattle.mesh.specs.Table.{size_of};
ghost use Rattle.mesh.specs.Layout.{edge_numbers};
ghost use Rattle.store.specs.Fields.{field, full, CELLS, STATUS};
ghost use Rattle.store.specs.Places.{child_place};
ghost use Rattle.turns.specs.Loops.{each_from};
ghost use Rattle.turns.specs.Decide.{hit_of};
ghost use Rattle.places.specs.Status.{new_status, lastsb, remadeb, fresh_bits};
ghost use Rattle.places.specs.Fresh.{edge_has, edge_hit, kid_has, pair_has, fresh_by, KidsInside, EightAs, EightFew};
ghost use Rattle.places.specs.Put.{place_at, put, put_master, put_leaf, put_leaves, put_child, place_master, place_ghost, place_family};
ghost use Rattle.places.specs.Put.{place_cell, place_old};

use base::MOST_CELLS;
use cutting::Families;
use digits::{high_digit, low_digit};
use rows::size_of;
use store::{
    CELLS, CHILD, DIGITS, ENTRIES, FAMILY, HEAD, HIGH, MORE, OWNER, PARENT, PART, PLACE_DIGITS,
    PLACE_HEAD, PLACE_MORE, PLACE_STATUS, Place, RED, REGULAR, STATUS, TOTAL, TOTAL_MOST,
    child_place,
};
use turns::{edge_hit, kid_count};

// The pattern of the edges that pass a test, from the last edge to the first.
fn pattern<F: Fn(usize) -> bool>(test: F) -> u16
    requires { (e : ℕ) → e < 6 → F.pre test e }
    ensures pattern { (f : ℕ → Bool) → ((e : ℕ) (b : Bool) → e < 6 → F.post test e b → b ≡ f e) → result ≡ bits_of (map f edge_numbers) }
    ensures few { result ≤ 63 }
{
    let mut pattern: u16 = 0;
    for e in (0..6).rev() {
        pattern = u16::from(test(e)) + 2 * pattern;
    }
    pattern
}

// The pattern of a cell's edges that are hit.
fn hit_bits(store: &[u16], c: usize) -> u16
    requires { (full ≤ length store.now) × (c < most_cells) }
    ensures { (result ≡ bits_of (map (hit_of store.now c) edge_numbers)) × (result ≤ 63) }
{
    pattern(|e| edge_hit(store, c, e))
}

// The status of a cell after the step, if it stays.
#[tactic(auto, unfolding(crate::specs::Status::new_status))]
fn new_status(store: &[u16], c: usize) -> u16
    requires { (full ≤ length store.now) × (c < most_cells) }
    ensures { (result ≡ new_status store.now c) × (result ≤ 64) }
{
    if store[REGULAR + c] != 1 {
        0
    } else if store[RED + c] == 1 {
        64
    } else {
        hit_bits(store, c)
    }
}

// Whether a cell is there after the step.
#[tactic(auto, unfolding(crate::specs::Status::lastsb))]
fn stays(store: &[u16], c: usize) -> bool
    requires { (full ≤ length store.now) × (c < most_cells) }
    ensures { result ≡ lastsb store.now c }
{
    let parent = store[PARENT + c] as usize;
    store[HEAD + c] < 256
        || store[STATUS + c] != 0
        || (parent < MOST_CELLS && store[STATUS + parent] == 64 && store[RED + parent] == 1)
}

// The status of a cell that has a family here after the step which is not its old one.
#[tactic(auto, unfolding(crate::specs::Status::remadeb))]
fn remade(store: &[u16], c: usize) -> Option<u16>
    requires { (full ≤ length store.now) × (c < most_cells) }
    ensures { MatchOption result (remadeb store.now c ≡ false)
        (λ s. (remadeb store.now c ≡ true) × (s ≡ new_status store.now c) × (s ≤ 64)) }
{
    if store[FAMILY + c] != store[PART] || !stays(store, c) {
        return None;
    }
    let status = new_status(store, c);
    if status == 0 || (store[STATUS + c] == 64 && status == 64) {
        None
    } else {
        Some(status)
    }
}

// Whether an edge of a child joins the points with these digits.
#[tactic(auto, unfolding(crate::specs::Fresh::edge_has))]
fn edge_has(digits: &[u8; 32], j: usize, y: usize, ends: (u8, u8)) -> bool
    requires { (j < 8) × (y < 6) }
    ensures { result ≡ edge_has digits.now j ends.0 ends.1 y }
{
    ends == (low_digit(digits, j, y), high_digit(digits, j, y))
}

// Whether it does and is hit, where the child is the cell d.
#[tactic(auto, unfolding(crate::specs::Fresh::edge_hit))]
fn edge_both(store: &[u16], digits: &[u8; 32], d: usize, j: usize, y: usize, ends: (u8, u8)) -> bool
    requires { (full ≤ length store.now) × (d < most_cells) × (j < 8) × (y < 6) }
    ensures { result ≡ edge_hit store.now digits.now d ends.0 ends.1 j y }
{
    edge_has(digits, j, y, ends) && edge_hit(store, d, y)
}

// Whether the child j, which is the cell d, has such an edge that is hit.
fn kid_has(store: &[u16], digits: &[u8; 32], d: usize, j: usize, ends: (u8, u8)) -> bool
    requires { (full ≤ length store.now) × (d < most_cells) × (j < 8) }
    ensures { result ≡ kid_has store.now digits.now d ends.0 ends.1 j }
{
    (0..6).any(|y| edge_both(store, digits, d, j, y, ends))
}

// Whether one of the n children from `first` on has.
fn pair_has(store: &[u16], digits: &[u8; 32], first: usize, n: usize, ends: (u8, u8)) -> bool
    requires { (full ≤ length store.now) × (n ≤ 8) × KidsInside first n }
    ensures { result ≡ pair_has store.now digits.now first n ends.0 ends.1 }
{
    (0..n).any(|j| kid_has(store, digits, first + j, j, ends))
}

// The status of the new child i of a green cell that will be red, from the digits of both families.
fn fresh_one(store: &[u16], old: &[u8; 32], red: &[u8; 32], first: usize, n: usize, i: usize) -> u16
    requires { (full ≤ length store.now) × (n ≤ 8) × KidsInside first n × (i < 8) }
    ensures { result ≡ fresh_by store.now old.now red.now first n i }
{
    pattern(|y| {
        let ends = (low_digit(red, i, y), high_digit(red, i, y));
        pair_has(store, old, first, n, ends)
    })
}

// The statuses of all eight.
fn fresh_all(store: &[u16], old: &[u8; 32], red: &[u8; 32], first: usize, n: usize) -> [u16; 8]
    requires { (full ≤ length store.now) × (n ≤ 8) × KidsInside first n }
    ensures { EightAs (fresh_by store.now old.now red.now first n) result }
{
    let mut fresh = [0; 8];
    for i in 0..8 {
        fresh[i] = fresh_one(store, old, red, first, n, i);
    }
    fresh
}

// The statuses of the new children of a green cell that will be red.
fn fresh_of(store: &[u16], c: usize) -> [u16; 8]
    requires full_in_bounds { (full ≤ length store.now) × (field store.now CELLS ≤ most_cells) × (c < most_cells) }
    requires fact { field store.now (STATUS + c) ≡ 64 → ⊥ }
    ensures { EightAs (fresh_bits store.now c) result }
{
    let status = store[STATUS + c];
    if status > 63 {
        return [0; 8];
    }
    let first = store[CHILD + c] as usize;
    let families = Families::new();
    let own = families.cut(status as u8).unwrap();
    let red = families.cut(63).unwrap();
    fresh_all(store, &own.digits, &red.digits, first, kid_count(store, c))
}

// The place of a cell.
fn place_at(store: &[u16], c: usize) -> Place
    requires { (full ≤ length store.now) × (c < most_cells) }
    ensures { result ≡ place_at store.now c }
{
    Place {
        head: store[HEAD + c],
        digits: store[DIGITS + c],
        more: store[MORE + c],
    }
}

// Writes an entry, while there is room.
#[tactic(auto, unfolding(crate::specs::Put::put, crate::specs::Put::entry_set))]
fn put_entry(store: &mut [u16], p: Place, status: u16)
    requires { full ≤ length store.old }
    ensures { store.new ≡ put store.old p status }
{
    let n = store[ENTRIES] as usize;
    if n < MOST_CELLS {
        store[PLACE_HEAD + n] = p.head;
        store[PLACE_DIGITS + n] = p.digits;
        store[PLACE_MORE + n] = p.more;
        store[PLACE_STATUS + n] = status;
        store[ENTRIES] = (n + 1) as u16;
    }
}

// Writes a master, which also counts for the totals.
#[tactic(auto, unfolding(crate::specs::Put::put_master))]
fn put_master(store: &mut [u16], p: Place, status: u16)
    requires { full ≤ length store.old }
    ensures { store.new ≡ put_master store.old p status }
{
    store[TOTAL] = store[TOTAL].saturating_add(1).min(TOTAL_MOST);
    store[HIGH] = store[HIGH].max(p.head / 256);
    put_entry(store, p, status);
}

// Writes the child i of the cell at p, a leaf.
#[tactic(auto, unfolding(crate::specs::Put::put_leaf))]
fn put_leaf(store: &mut [u16], p: Place, i: usize)
    requires { (full ≤ length store.old) × (i < 8) }
    ensures { store.new ≡ put_leaf p store.old i }
{
    put_master(store, child_place(p, i as u16), 0);
}

// Writes the n children of the cell at p, all leaves.
fn put_leaves(store: &mut [u16], p: Place, n: usize)
    requires { (full ≤ length store.old) × (n ≤ 8) }
    ensures { store.new ≡ put_leaves p n store.old }
{
    for i in 0..n {
        put_leaf(store, p, i);
    }
}

// Writes the new child i of the cell at p, and its children where it is refined at once.
fn put_child(store: &mut [u16], p: Place, i: usize, status: u16)
    requires { (full ≤ length store.old) × (i < 8) × (status ≤ 64) }
    ensures { store.new ≡ put_leaves (child_place p i) (size_of status) (put_master store.old (child_place p i) status) }
{
    let child = child_place(p, i as u16);
    let n = size_of(status as u8);
    put_master(store, child, status);
    put_leaves(store, child, n);
}

// Writes the eight new children.
fn put_children(store: &mut [u16], p: Place, fresh: &[u16; 8])
    requires { (full ≤ length store.old) × EightFew fresh.now }
    ensures { store.new ≡ each_from (put_child p (λ i. get_or fresh.now i 0)) 8 0 store.old }
{
    for i in 0..8 {
        put_child(store, p, i, fresh[i]);
    }
}

// Writes the new family of a green cell that will be red.
fn place_fresh(store: &mut [u16], c: usize)
    requires full_in_bounds { (full ≤ length store.old) × (field store.old CELLS ≤ most_cells) × (c < most_cells) }
    requires fact { field store.old (STATUS + c) ≡ 64 → ⊥ }
    ensures { store.new ≡ each_from (put_child (place_at store.old c) (fresh_bits store.old c)) 8 0 store.old }
{
    let p = place_at(store, c);
    let fresh = fresh_of(store, c);
    put_children(store, p, &fresh);
}

// Writes a cell, if it is a master and stays.
#[tactic(auto, unfolding(crate::specs::Put::place_master))]
fn place_master(store: &mut [u16], c: usize)
    requires { (full ≤ length store.old) × (c < most_cells) }
    ensures { store.new ≡ place_master store.old c }
{
    if store[OWNER + c] == store[PART] && stays(store, c) {
        let status = new_status(store, c);
        put_master(store, place_at(store, c), status);
    }
}

// Writes a cell of another part whose family is here, if it is refined: 128 more for a ghost.
#[tactic(auto, unfolding(crate::specs::Put::place_ghost))]
fn place_ghost(store: &mut [u16], c: usize)
    requires { (full ≤ length store.old) × (c < most_cells) }
    ensures { store.new ≡ place_ghost store.old c }
{
    if store[OWNER + c] != store[PART] && store[FAMILY + c] == store[PART] {
        let status = new_status(store, c);
        if status != 0 {
            put_entry(store, place_at(store, c), 128 + status);
        }
    }
}

// Writes the new family of a cell, if it is here.
#[tactic(auto, unfolding(crate::specs::Put::place_family, crate::specs::Status::remadeb))]
fn place_family(store: &mut [u16], c: usize)
    requires { (full ≤ length store.old) × (field store.old CELLS ≤ most_cells) × (c < most_cells) }
    ensures { store.new ≡ place_family store.old c }
{
    if let Some(status) = remade(store, c) {
        if status == 64 && store[STATUS + c] != 0 {
            place_fresh(store, c);
        } else {
            put_leaves(store, place_at(store, c), size_of(status as u8));
        }
    }
}

// Writes what a cell gives.
#[tactic(auto, unfolding(crate::specs::Put::place_cell))]
fn place_cell(store: &mut [u16], c: usize)
    requires { (full ≤ length store.old) × (field store.old CELLS ≤ most_cells) × (c < most_cells) }
    ensures { store.new ≡ place_cell store.old c }
{
    place_master(store, c);
    place_ghost(store, c);
    place_family(store, c);
}

// Writes what all cells give.
pub fn place_cells(store: &mut [u16])
    requires { (full ≤ length store.old) × (field store.old CELLS ≤ most_cells) }
    ensures { store.new ≡ each_from place_cell (field store.old CELLS) 0 store.old }
{
    for c in 0..store[CELLS] as usize {
        place_cell(store, c);
    }
}

// Writes a master or ghost as it was.
#[tactic(auto, unfolding(crate::specs::Put::place_old))]
fn place_old(store: &mut [u16], c: usize)
    requires { (full ≤ length store.old) × (c < most_cells) }
    ensures { store.new ≡ place_old store.old c }
{
    let status = store[STATUS + c];
    let p = place_at(store, c);
    if store[OWNER + c] == store[PART] {
        put_entry(store, p, status);
    } else if store[FAMILY + c] == store[PART] {
        put_entry(store, p, status.wrapping_add(128));
    }
}

// Writes all masters and ghosts as they were.
pub fn place_olds(store: &mut [u16])
    requires { (full ≤ length store.old) × (field store.old CELLS ≤ most_cells) }
    ensures { store.new ≡ each_from place_old (field store.old CELLS) 0 store.old }
{
    for c in 0..store[CELLS] as usize {
        place_old(store, c);
    }
}
