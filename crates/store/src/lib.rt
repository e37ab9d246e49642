// A part's store and the calls that carry messages, as definitions on numbers: see specs/. Offsets of the store, places of
// messages and of cells.
#![tactic(auto)]

ghost use Rattle.std.specs.Prelude.{◌≡◌, ◌+◌, ◌*◌, ◌^◌, ◌%◌, ◌<◌};
ghost use Rattle.store.specs.Places.{child_place};

use base::{
    MOST_CELLS, MOST_COARSE_CELLS, MOST_COARSE_CORNERS, MOST_LEVELS, MOST_PARTS, MOST_SLOTS,
    TOO_MANY,
};

// The offsets and lengths of specs/Fields. A store stays one slice of numbers that is read by them: the C interface lends it so.
pub const FULL: usize = 226488;

pub const STAGE: usize = 0;

pub const PART: usize = 1;

pub const PARTS: usize = 2;

pub const CORNERS: usize = 3;

pub const COARSE: usize = 4;

pub const CELLS: usize = 5;

pub const LEVELS: usize = 6;

pub const ROUND: usize = 7;

pub const RESULT: usize = 8;

pub const ENTRIES: usize = 9;

pub const TOTAL: usize = 10;

pub const HIGH: usize = 11;

pub const CURSOR: usize = 12;

pub const BIT: usize = 13;

pub const WRITTEN: usize = 14;

pub const FIRST_CELL: usize = 16;

pub const FIRST_SLOT: usize = 28;

pub const FIRSTS_LENGTH: usize = MOST_LEVELS + 1;

pub const FREE: usize = 40;

pub const TAKEN: usize = 63;

pub const ENDED: usize = 79;

pub const GIVEN: usize = 96;

pub const OWNER: usize = 112;

pub const FREE_LENGTH: usize = OWNER - FREE;

pub const FAMILY: usize = 4208;

pub const STATUS: usize = 8304;

pub const REGULAR: usize = 12400;

pub const CHILD: usize = 16496;

pub const PARENT: usize = 20592;

pub const HEAD: usize = 24688;

pub const DIGITS: usize = 28784;

pub const MORE: usize = 32880;

pub const INNER: usize = 36976;

pub const COLUMNS_LENGTH: usize = 10 * MOST_CELLS;

pub const MARK: usize = 41072;

pub const RED: usize = 45168;

pub const FLAGS_LENGTH: usize = 2 * MOST_CELLS;

pub const CORNER: usize = 49264;

pub const SLOT: usize = 50288;

pub const HOLDERS: usize = 74864;

pub const SUM: usize = 99440;

pub const MOST_ENTRIES: usize = MOST_CELLS + MOST_SLOTS + 24;

pub const CODE: usize = 124016;

pub const VALUE: usize = 152712;

pub const RECEIVERS: usize = 181408;

pub const COUNT_CODE: usize = MOST_CELLS;

pub const TOTALS_CODE: usize = MOST_CELLS + MOST_SLOTS;

pub const END_CODE: usize = TOTALS_CODE + 256;

pub const PLACE_HEAD: usize = 210104;

pub const PLACE_DIGITS: usize = 214200;

pub const PLACE_MORE: usize = 218296;

pub const PLACE_STATUS: usize = 222392;

// The most that numbers of the header may be, and totals.
pub const PARTS_MOST: u16 = MOST_PARTS as u16;

pub const CORNERS_MOST: u16 = MOST_COARSE_CORNERS as u16;

pub const COARSE_MOST: u16 = MOST_COARSE_CELLS as u16;

pub const CELLS_MOST: u16 = MOST_CELLS as u16;

pub const LEVELS_MOST: u16 = MOST_LEVELS as u16;

pub const ENTRIES_MOST: u16 = MOST_CELLS as u16;

pub const TOTAL_MOST: u16 = TOO_MANY as u16;

// A written message: its entry and the receiver's bit.
#[derive(Clone, Copy)]
pub struct Spot {
    pub entry: usize,
    pub bit: usize,
}

// A cell's place under its coarse cell: 256 times its level and the coarse cell; child numbers 1 to 5, and 6 to 10, base 8.
#[derive(Clone, Copy)]
pub struct Place {
    pub head: u16,
    pub digits: u16,
    pub more: u16,
}

// A child number behind `level` others, five at most.
fn with_number(digits: u16, i: u16, level: usize) -> u16
    requires { level < 5 }
    ensures { result ≡ (digits + i * 2 ^ (3 * level)) % 65536 }
{
    ((digits as usize + ((i as usize) << (3 * level))) % 65536) as u16
}

// The place of a child.
pub fn child_place(p: Place, i: u16) -> Place
    ensures { result ≡ child_place p i }
{
    let level = p.head as usize / 256;
    let head = p.head.wrapping_add(256);
    if level < 5 {
        Place {
            head,
            digits: with_number(p.digits, i, level),
            ..p
        }
    } else if level < 10 {
        Place {
            head,
            more: with_number(p.more, i, level - 5),
            ..p
        }
    } else {
        Place { head, ..p }
    }
}
