// A part's store filled from the columns and slots of a table, region by region.
#![tactic(auto)]

ghost use Rattle.std.specs.Prelude.{◌≡◌, ◌++◌, ◌+◌, ◌*◌, ◌/◌, ◌≤◌, ◌<◌, length, drop};
ghost use Rattle.base.specs.Limits.{full_coarse, most_cells, most_slots};
ghost use Rattle.store.specs.Fields.{full, FRONT, FIRST_CELL, OWNER, SLOT, columns_length, firsts_length, flags_length, free_length};
ghost use Rattle.filling.specs.Regions.{Tabled, holdb, column_by, slot_by, holder_by, mask_by, corner_by};
ghost use Rattle.filling.specs.Regions.{zeros, tab, put_by, head_by, regions, SmallSlots};
ghost use Rattle.filling.specs.Passes.{Column, Six, Masked, AllBelow, Doubled};

use base::{FULL_COARSE, MOST_CELLS, MOST_PARTS, MOST_SLOTS};
use store::{CORNER, FIRST_CELL, FIRST_SLOT, FREE, HOLDERS, MARK, OWNER, SLOT, SUM};

// Writes the ten numbers of a cell.
fn put_column(region: &mut [u16], cols: &[u16; 40960], c: usize)
    requires { (length region.old ≡ columns_length) × (c < most_cells) }
    ensures { Column cols.now c 10 region.old region.new }
{
    for j in 0..10 {
        region[MOST_CELLS * j + c] = cols[MOST_CELLS * j + c];
    }
}

// Writes the six slots of a cell.
fn put_six(region: &mut [u16], slots: &[u16; 24576], c: usize)
    requires { (length region.old ≡ most_slots) × (c < most_cells) }
    ensures { Six slots.now c 6 region.old region.new }
{
    let at = 6 * c;
    region[at..at + 6].copy_from_slice(&slots[at..at + 6]);
}

// Writes what `masks` has at the six slots of a cell. (The three passes stay apart: one function with a closure is no plainer.)
fn put_masks(region: &mut [u16], slots: &[u16; 24576], masks: &[u16; 24576], c: usize)
    requires { (length region.old ≡ most_slots) × (c < most_cells) × SmallSlots slots.now (c + 1) }
    ensures { Masked slots.now masks.now c 6 region.old region.new }
{
    for e in 0..6 {
        let slot = slots[6 * c + e] as usize;
        region[slot] = masks[slot];
    }
}

// Doubles the masks and adds the flags.
fn add_bits(masks: &mut [u16; 24576], flags: &[u16; 24576])
    requires masks_room { AllBelow masks.old 32768 }
    requires flags_room { AllBelow flags.now 2 }
    ensures { Doubled most_slots masks.old flags.now masks.new }
{
    for s in 0..MOST_SLOTS {
        masks[s] = 2 * masks[s] + flags[s];
    }
}

// The cells of a table, by their columns, that a part holds as master or ghost.
#[derive(Clone, Copy)]
struct Share<'a> {
    part: u16,
    cells: usize,
    cols: &'a [u16; 40960],
    ghost few: { cells ≤ most_cells },
}

impl Share<'_> {
    // Whether the part holds a cell.
    fn holds(&self, c: usize) -> bool
        requires { c < most_cells }
        ensures { result ≡ holdb self.now.cols.now self.now.cells self.now.part c }
    {
        c < self.cells && (self.cols[c] == self.part || self.cols[MOST_CELLS + c] == self.part)
    }

    // Writes the columns of its cells.
    fn fill_columns(&self, region: &mut [u16])
        requires { length region.old ≡ columns_length }
        ensures { Tabled columns_length (column_by self.now.cols.now self.now.cells self.now.part) region.new }
    {
        region.fill(0);
        for c in 0..self.cells {
            if self.holds(c) {
                put_column(region, self.cols, c);
            }
        }
    }

    // Writes the slots of its cells.
    fn fill_slots(&self, region: &mut [u16], slots: &[u16; 24576])
        requires { length region.old ≡ most_slots }
        ensures { Tabled most_slots (slot_by self.now.cols.now self.now.cells self.now.part slots.now) region.new }
    {
        region.fill(0);
        for c in 0..self.cells {
            if self.holds(c) {
                put_six(region, slots, c);
            }
        }
    }

    // Writes what `masks` has at its slots.
    fn fill_holders(&self, region: &mut [u16], slots: &[u16; 24576], masks: &[u16; 24576])
        requires region_len { length region.old ≡ most_slots }
        requires small_slots { SmallSlots slots.now self.now.cells }
        ensures { Tabled most_slots (holder_by self.now.cols.now self.now.cells self.now.part slots.now masks.now) region.new }
    {
        region.fill(0);
        for c in 0..self.cells {
            if self.holds(c) {
                put_masks(region, slots, masks, c);
            }
        }
    }

    // The corner j of the coarse cells, if its cell is a master.
    fn corner_of(&self, mesh: &[u16], j: usize) -> u16
        requires { j < full_coarse }
        ensures { result ≡ corner_by self.now.cols.now mesh.now self.now.part j }
    {
        if j / 4 < mesh.len() / 4 && self.cols[j / 4] == self.part {
            mesh[j]
        } else {
            0
        }
    }

    // Writes the corners of its coarse masters.
    fn fill_corners(&self, region: &mut [u16], mesh: &[u16])
        requires { length region.old ≡ full_coarse }
        ensures { Tabled full_coarse (corner_by self.now.cols.now mesh.now self.now.part) region.new }
    {
        for j in 0..FULL_COARSE {
            region[j] = self.corner_of(mesh, j);
        }
    }
}

// Writes the parts that hold each slot, as bits.
pub fn fill_masks(masks: &mut [u16; 24576], cols: &[u16; 40960], cells: usize, slots: &[u16; 24576])
    requires { (cells ≤ most_cells) × SmallSlots slots.now cells }
    ensures { Tabled most_slots (mask_by cols.now cells slots.now) masks.new }
{
    masks.fill(0);
    let ones = [1; 24576];
    let mut flags = [0; 24576];
    for p in (0..MOST_PARTS).rev() {
        let share = Share {
            part: p as u16 + 1,
            cells,
            cols,
        };
        share.fill_holders(&mut flags, slots, &ones);
        add_bits(masks, &flags);
    }
}

// What the stores of all parts are written from: the coarse cells' corners, and of the table's cells the columns, the slots, the parts
// that hold each slot, and the first cell and the first slot of each level.
#[derive(Clone, Copy)]
pub struct Source<'a> {
    pub parts: u16,
    pub corners: u16,
    pub levels: u16,
    pub mesh: &'a [u16],
    pub cells: usize,
    pub firsts: &'a [u16; 12],
    pub starts: &'a [u16; 12],
    pub cols: &'a [u16; 40960],
    pub slots: &'a [u16; 24576],
    pub masks: &'a [u16; 24576],
    pub ghost few: { (cells ≤ most_cells) × (length mesh.now ≤ full_coarse) },
    pub ghost sized: { (length firsts.now ≡ firsts_length) × (length starts.now ≡ firsts_length) },
    pub ghost small_slots: { SmallSlots slots.now cells },
}

impl Source<'_> {
    // Writes the header.
    fn fill_head(&self, region: &mut [u16], part: u16)
        requires { length region.old ≡ FIRST_CELL }
        ensures { region.new
            ≡ head_by part self.now.parts self.now.corners (length self.now.mesh.now / 4) self.now.cells self.now.levels }
    {
        region.fill(0);
        region[1] = part;
        region[2] = self.parts;
        region[3] = self.corners;
        region[4] = (self.mesh.len() / 4) as u16;
        region[5] = self.cells as u16;
        region[6] = self.levels;
    }

    // Writes the numbers before the columns: the header, the first cell and the first slot of each level, and zeros.
    fn write_front(&self, store: &mut [u16], part: u16)
        requires { length store.old ≡ full }
        ensures { store.new
            ≡ put_by 0 OWNER store.old (head_by part self.now.parts self.now.corners (length self.now.mesh.now / 4) self.now.cells
            self.now.levels ++ self.now.firsts.now ++ self.now.starts.now ++ zeros free_length) }
    {
        self.fill_head(&mut store[..FIRST_CELL], part);
        let firsts = self.firsts;
        let starts = self.starts;
        store[FIRST_CELL..FIRST_SLOT].copy_from_slice(firsts);
        store[FIRST_SLOT..FREE].copy_from_slice(starts);
        store[FREE..OWNER].fill(0);
    }

    // Writes the columns of the cells that a part holds, no marks, and the corners of its coarse masters.
    fn write_columns(&self, store: &mut [u16], part: u16)
        requires { length store.old ≡ full }
        ensures { store.new
            ≡ put_by OWNER SLOT store.old (tab columns_length (column_by self.now.cols.now self.now.cells part) ++ zeros flags_length
            ++ tab full_coarse (corner_by self.now.cols.now self.now.mesh.now part)) }
    {
        let share = Share {
            part,
            cells: self.cells,
            cols: self.cols,
        };
        share.fill_columns(&mut store[OWNER..MARK]);
        store[MARK..CORNER].fill(0);
        share.fill_corners(&mut store[CORNER..SLOT], self.mesh);
    }

    // Writes the slots that a part holds, with their holders, and no sums.
    fn write_slots(&self, store: &mut [u16], part: u16)
        requires { length store.old ≡ full }
        ensures { store.new
            ≡ put_by SLOT FRONT store.old (tab most_slots (slot_by self.now.cols.now self.now.cells part self.now.slots.now)
            ++ tab most_slots (holder_by self.now.cols.now self.now.cells part self.now.slots.now self.now.masks.now) ++ zeros most_slots) }
    {
        let share = Share {
            part,
            cells: self.cells,
            cols: self.cols,
        };
        share.fill_slots(&mut store[SLOT..HOLDERS], self.slots);
        share.fill_holders(&mut store[HOLDERS..SUM], self.slots, self.masks);
        store[SUM..SUM + MOST_SLOTS].fill(0);
    }

    // Writes a part's store up to its entries.
    pub fn write_store(&self, store: &mut [u16], part: u16)
        requires { length store.old ≡ full }
        ensures { store.new
            ≡ regions self.now.cols.now self.now.mesh.now self.now.slots.now self.now.masks.now self.now.firsts.now self.now.starts.now
            self.now.cells part self.now.parts self.now.corners self.now.levels ++ drop FRONT store.old }
    {
        self.write_front(store, part);
        self.write_columns(store, part);
        self.write_slots(store, part);
    }
}
