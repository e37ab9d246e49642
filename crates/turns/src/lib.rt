// The turns of a part: its start, with the work on entering a round of marks: flags of the cells whose family it has, and the entries that
// it writes.
#![tactic(auto)]

ghost use Rattle.std.specs.Prelude.{◌≡◌, ◌+◌, ◌-◌, ◌*◌, ◌^◌, ◌≤◌, ◌<◌, length};
ghost use Rattle.base.specs.Limits.{most_levels, most_parts, top_level, most_cells, most_slots};
ghost use Rattle.base.specs.Refuse.{answered};
ghost use Rattle.store.specs.Fields.{field, full, CELLS, CHILD};
ghost use Rattle.turns.specs.Decide.{slot_at, hitb, hit_of, pull_of, pulled_kid, kid_count, busyb, ruleb, decide_one};
ghost use Rattle.turns.specs.Tally.{add_one, add_edge, tally_one};
ghost use Rattle.turns.specs.Post.{posted, besides, mark_one, count_one, others_of, post_end};
ghost use Rattle.turns.specs.Step.{slot_from, enter_counts};
ghost use Rattle.turns.specs.Usable.{Usable};
ghost use Rattle.turns.specs.Start.{mark_ok, mark_at, next_mark, marks_due, mark_set, marked_from, level_from, enter_marks, start_answer};
ghost use Rattle.turns.specs.Start.{start_after};

use base::{MOST_PARTS, MOST_SLOTS, Refusal};
use mail::header_fits;
use rows::size_of;
use std::ops::Range;
use store::{
    CELLS, CHILD, CODE, COUNT_CODE, FAMILY, FIRST_CELL, FIRST_SLOT, FULL, HOLDERS, INNER, LEVELS,
    MARK, MOST_ENTRIES, OWNER, PART, PARTS, RECEIVERS, RED, REGULAR, SLOT, STAGE, STATUS, SUM,
    VALUE, WRITTEN,
};

// The slot of an edge of a cell.
fn slot_of(store: &[u16], c: usize, e: usize) -> usize
    requires { (full ≤ length store.now) × (c < most_cells) × (e < 6) }
    ensures { result ≡ slot_at store.now c e }
{
    store[SLOT + (6 * c + e)] as usize
}

// Whether a cell one level up that will be red has the slot.
#[tactic(auto, unfolding(crate::specs::Decide::hitb))]
fn is_hit(store: &[u16], slot: usize) -> bool
    requires { full ≤ length store.now }
    ensures { result ≡ hitb store.now slot }
{
    slot < MOST_SLOTS && store[SUM + slot] != 0
}

// Whether an edge of a cell is hit.
#[tactic(auto, unfolding(crate::specs::Decide::hit_of))]
pub fn edge_hit(store: &[u16], c: usize, e: usize) -> bool
    requires { (full ≤ length store.now) × (c < most_cells) × (e < 6) }
    ensures { result ≡ hit_of store.now c e }
{
    is_hit(store, slot_of(store, c, e))
}

// Whether an edge is hit that is not also the parent's.
#[tactic(auto, unfolding(crate::specs::Decide::pull_of, store::specs::Fetch::bitb))]
fn is_pull(store: &[u16], c: usize, e: usize) -> bool
    requires { (full ≤ length store.now) × (c < most_cells) × (e < 6) }
    ensures { result ≡ pull_of store.now c e }
{
    (store[INNER + c] >> e) % 2 == 1 && edge_hit(store, c, e)
}

// Whether a cell is not a leaf that is marked for deletion and has no hit edge.
#[tactic(auto, unfolding(crate::specs::Decide::busyb, crate::specs::Decide::idle_kid))]
fn is_busy(store: &[u16], d: usize) -> bool
    requires { (full ≤ length store.now) × (d < most_cells) }
    ensures { result ≡ busyb store.now d }
{
    store[STATUS + d] != 0 || store[MARK + d] != 2 || (0..6).any(|e| edge_hit(store, d, e))
}

// Whether a green cell's child turns its parent red.
#[tactic(auto, unfolding(crate::specs::Decide::pulled_kid))]
fn is_pulled(store: &[u16], d: usize) -> bool
    requires { (full ≤ length store.now) × (d < most_cells) }
    ensures { result ≡ pulled_kid store.now d }
{
    store[MARK + d] == 1 || (0..6).any(|e| is_pull(store, d, e))
}

// How many children a cell has: as many as its status says, and none beyond the number of cells.
#[tactic(auto, unfolding(crate::specs::Decide::kid_count))]
pub fn kid_count(store: &[u16], c: usize) -> usize
    requires { (full ≤ length store.now) × (c < most_cells) }
    ensures { (result ≡ kid_count store.now c) × (result ≤ 8) }
{
    let status = store[STATUS + c];
    let size = if status <= 64 {
        size_of(status as u8)
    } else {
        0
    };
    let first = store[CHILD + c] as usize;
    let cells = store[CELLS] as usize;
    size.min(cells.saturating_sub(first))
}

// The children of a cell.
fn children(store: &[u16], c: usize) -> Range<usize>
    requires { (full ≤ length store.now) × (c < most_cells) }
    ensures { (result.start ≡ field store.now (CHILD + c)) × (result.end ≡ field store.now (CHILD + c) + kid_count store.now c) }
{
    let first = store[CHILD + c] as usize;
    first..first + kid_count(store, c)
}

// Whether a cell will be red.
#[tactic(auto, unfolding(crate::specs::Decide::ruleb))]
fn turns_red(store: &[u16], c: usize) -> bool
    requires { (full ≤ length store.now) × (field store.now CELLS ≤ most_cells) × (c < most_cells) }
    ensures { result ≡ ruleb store.now c }
{
    match store[STATUS + c] {
        0 => store[REGULAR + c] == 1 && store[MARK + c] == 1,
        64 => children(store, c).any(|d| is_busy(store, d)),
        _ => children(store, c).any(|d| is_pulled(store, d)),
    }
}

// Decides on a cell, if its family is here.
#[tactic(auto, unfolding(crate::specs::Decide::decide_one))]
fn decide_one(store: &mut [u16], c: usize)
    requires { (full ≤ length store.old) × (field store.old CELLS ≤ most_cells) × (c < most_cells) }
    ensures { store.new ≡ decide_one store.old c }
{
    if store[FAMILY + c] == store[PART] && turns_red(store, c) {
        store[RED + c] = 1;
    }
}

// Writes an entry behind the others, if it has receivers and there is room.
#[tactic(auto, unfolding(crate::specs::Post::posted, crate::specs::Post::entered))]
pub fn post(store: &mut [u16], code: u16, value: u16, mask: u16)
    requires { full ≤ length store.old }
    ensures { store.new ≡ posted store.old code value mask }
{
    let n = store[WRITTEN] as usize;
    if mask != 0 && n < MOST_ENTRIES {
        store[CODE + n] = code;
        store[VALUE + n] = value;
        store[RECEIVERS + n] = mask;
        store[WRITTEN] = (n + 1) as u16;
    }
}

// The bit of a part.
fn bit_of(part: usize) -> usize
    requires { (1 ≤ part) × (part ≤ most_parts) }
    ensures { (result ≡ 2 ^ (part - 1)) × (result < 65536) }
{
    1 << (part - 1)
}

// Writes the mark of a cell for its master, if it is a ghost.
#[tactic(auto, unfolding(crate::specs::Post::mark_one, crate::specs::Post::ghost_at))]
fn mark_one(store: &mut [u16], c: usize)
    requires { (full ≤ length store.old) × (c < most_cells) }
    ensures { store.new ≡ mark_one store.old c }
{
    let (part, owner) = (store[PART] as usize, store[OWNER + c] as usize);
    if store[FAMILY + c] as usize == part && owner != part && (1..=MOST_PARTS).contains(&owner) {
        let mask = bit_of(owner);
        let flag = store[RED + c];
        post(store, c as u16, flag, mask as u16);
    }
}

// All parts but the own one, as bits.
pub fn others_of(store: &[u16]) -> usize
    requires { Usable store.now }
    ensures { (result ≡ others_of store.now) × (result < 65536) }
{
    let parts = store[PARTS] as usize;
    let part = store[PART] as usize;
    let top = bit_of(parts);
    let own = bit_of(part);
    2 * top - 1 - own
}

// Writes the end of the round for all others.
#[tactic(auto, unfolding(crate::specs::Post::post_end))]
pub fn post_end(store: &mut [u16])
    requires { Usable store.old }
    ensures { store.new ≡ post_end store.old }
{
    let mask = others_of(store);
    post(store, 65535, 0, mask as u16);
}

// The first cell of a level, at most the number of cells.
#[tactic(auto, unfolding(crate::specs::Start::level_from))]
fn level_from(store: &[u16], k: usize) -> usize
    requires { Usable store.now × (k ≤ most_levels) }
    ensures { (result ≡ level_from store.now k) × (result ≤ most_cells) }
{
    let first = store[FIRST_CELL + k] as usize;
    let cells = store[CELLS] as usize;
    first.min(cells)
}

// Enters the round of marks of a level.
pub fn enter_marks(store: &mut [u16], k: usize)
    requires { Usable store.old × (k ≤ top_level) }
    ensures { store.new ≡ enter_marks store.old k }
{
    let first = level_from(store, k);
    let last = level_from(store, k + 1);
    for c in first..last {
        decide_one(store, c);
    }
    for c in first..last {
        mark_one(store, c);
    }
    post_end(store);
}

// Whether a mark is 0 to 2, and 0 on a refined cell.
#[tactic(auto, unfolding(crate::specs::Start::mark_ok))]
fn mark_fits(store: &[u16], c: usize, mark: u8) -> bool
    requires { (full ≤ length store.now) × (c < most_cells) }
    ensures { result ≡ mark_ok store.now c mark }
{
    mark <= 2 && (mark == 0 || store[STATUS + c] == 0)
}

// Whether the mark that is due fits a cell, if it is a master.
#[tactic(auto, unfolding(crate::specs::Start::mark_at, crate::specs::Start::ownb))]
fn is_marked(store: &[u16], marks: &[u8], c: usize, j: usize) -> bool
    requires { (full ≤ length store.now) × (c < most_cells) }
    ensures { result ≡ mark_at store.now marks.now c j }
{
    store[OWNER + c] != store[PART] || (j < marks.len() && mark_fits(store, c, marks[j]))
}

// The mark that is due behind a cell.
#[tactic(auto, unfolding(crate::specs::Start::next_mark, crate::specs::Start::ownb))]
fn next_mark(store: &[u16], c: usize, j: usize) -> usize
    requires { (full ≤ length store.now) × (c < most_cells) × (j < 65536) }
    ensures { result ≡ next_mark store.now c j }
{
    j + usize::from(store[OWNER + c] == store[PART])
}

// Whether the marks are one for each master, and fit.
fn marks_fit(store: &[u16], marks: &[u8]) -> bool
    requires { Usable store.now }
    ensures { result ≡ marks_due store.now marks.now (field store.now CELLS) 0 0 }
{
    let mut j = 0;
    for c in 0..store[CELLS] as usize {
        if !is_marked(store, marks, c, j) {
            return false;
        }
        j = next_mark(store, c, j);
    }
    marks.len() == j
}

// Stores the mark that is due, if a cell is a master.
#[tactic(auto, unfolding(crate::specs::Start::mark_set, crate::specs::Start::ownb))]
fn set_mark(store: &mut [u16], marks: &[u8], c: usize, j: usize)
    requires { (full ≤ length store.old) × (c < most_cells) }
    ensures { store.new ≡ mark_set store.old marks.now c j }
{
    if store[OWNER + c] == store[PART] && j < marks.len() {
        store[MARK + c] = marks[j] as u16;
    }
}

// Stores the marks of all masters.
fn set_marks(store: &mut [u16], marks: &[u8])
    requires { Usable store.old }
    ensures { store.new ≡ marked_from store.old marks.now (field store.old CELLS) 0 0 }
{
    let mut j = 0;
    for c in 0..store[CELLS] as usize {
        let next = next_mark(store, c, j);
        set_mark(store, marks, c, j);
        j = next;
    }
}

// Adds one to a slot.
#[tactic(auto, unfolding(crate::specs::Tally::add_one))]
fn add_one(store: &mut [u16], slot: usize)
    requires { full ≤ length store.old }
    ensures { store.new ≡ add_one store.old slot }
{
    if slot < MOST_SLOTS {
        store[SUM + slot] = store[SUM + slot].wrapping_add(1);
    }
}

// Adds one to the slot of an edge.
#[tactic(auto, unfolding(crate::specs::Tally::add_edge))]
fn add_edge(store: &mut [u16], c: usize, e: usize)
    requires { (full ≤ length store.old) × (c < most_cells) × (e < 6) }
    ensures { store.new ≡ add_edge c store.old e }
{
    let slot = slot_of(store, c, e);
    add_one(store, slot);
}

// Tallies a cell, if it is a master that will be red.
#[tactic(auto, unfolding(crate::specs::Tally::tally_one, crate::specs::Tally::talliedb))]
fn tally_one(store: &mut [u16], c: usize)
    requires { (full ≤ length store.old) × (c < most_cells) }
    ensures { store.new ≡ tally_one store.old c }
{
    if store[OWNER + c] == store[PART] && store[RED + c] == 1 {
        for e in 0..6 {
            add_edge(store, c, e);
        }
    }
}

// The receivers without the own part.
#[tactic(auto, using(crate::proofs::Counting::besides_room), unfolding(crate::specs::Post::besides, store::specs::Fetch::bitb))]
fn without_own(store: &[u16], mask: u16) -> u16
    requires { Usable store.now }
    ensures { result ≡ besides store.now mask }
{
    let part = store[PART] as usize;
    if (mask as usize >> (part - 1)) % 2 == 1 {
        (mask as usize - bit_of(part)) as u16
    } else {
        mask
    }
}

// Writes the count of a slot for its other holders, if it is not 0.
#[tactic(auto, unfolding(crate::specs::Post::count_one))]
fn count_one(store: &mut [u16], s: usize)
    requires { Usable store.old × (s < most_slots) }
    ensures { store.new ≡ count_one store.old s }
{
    let count = store[SUM + s];
    if count != 0 {
        let mask = without_own(store, store[HOLDERS + s]);
        post(store, (COUNT_CODE + s) as u16, count, mask);
    }
}

// The first slot of a level, at most 24,576.
#[tactic(auto, unfolding(crate::specs::Step::slot_from))]
fn slot_from(store: &[u16], k: usize) -> usize
    requires { Usable store.now × (k ≤ most_levels) }
    ensures { (result ≡ slot_from store.now k) × (result ≤ most_slots) }
{
    MOST_SLOTS.min(store[FIRST_SLOT + k] as usize)
}

// Enters the round of counts of a level.
pub fn enter_counts(store: &mut [u16], k: usize)
    requires { Usable store.old × (k ≤ top_level) }
    ensures { store.new ≡ enter_counts store.old k }
{
    let first = level_from(store, k);
    let last = level_from(store, k + 1);
    let from = slot_from(store, k);
    let to = slot_from(store, k + 1);
    for c in first..last {
        tally_one(store, c);
    }
    for s in from..to {
        count_one(store, s);
    }
    post_end(store);
}

// Starts a part with one mark for each of its masters.
#[tactic(auto, using(crate::proofs::Starting::usable_of, crate::proofs::Starting::begun_by),
// What it answers.
unfolding(crate::specs::Start::start_answer, base::specs::Refuse::refuse,
// What the store then holds.
crate::specs::Start::start_after, crate::specs::Start::started_in, crate::specs::Start::started_store))]
pub fn start(store: &mut [u16], marks: &[u8]) -> Result<(), Refusal>
    ensures answer { answered result ≡ start_answer store.old marks.now }
    ensures store_value { store.new ≡ start_after store.old marks.now }
{
    if store.len() < FULL {
        return Err(Refusal::Lent);
    }
    if !header_fits(store) || store[STAGE] != 0 {
        return Err(Refusal::Store);
    }
    if !marks_fit(store, marks) {
        return Err(Refusal::Marks);
    }
    let top = store[LEVELS] as usize - 1;
    set_marks(store, marks);
    store[STAGE] = 1;
    enter_marks(store, top);
    Ok(())
}
