// What every call answers, and copies.
#![tactic(auto)]

ghost use Rattle.std.specs.Prelude.{◌≡◌, ◌++◌, ◌≤◌, length, take, drop};
ghost use Rattle.base.specs.Refuse.{answered, code_of, number_of};

// The limits of specs/Limits.
pub const MOST_COARSE_CORNERS: usize = 512;

pub const MOST_COARSE_CELLS: usize = 256;

pub const MOST_CELLS: usize = 4096;

pub const MOST_CORNERS: usize = 16384;

pub const MOST_LEVELS: usize = 11;

pub const TOP_LEVEL: usize = 10;

pub const MOST_PARTS: usize = 16;

pub const MOST_SLOTS: usize = 6 * MOST_CELLS;

pub const TOO_MANY: usize = MOST_CELLS + 1;

pub const MOST_BYTES: usize = 65536;

pub const FULL_ROWS: usize = 8 * MOST_CELLS;

pub const FULL_ENDS: usize = 2 * MOST_CORNERS;

pub const FULL_SUMS: usize = 3 * MOST_CORNERS;

pub const FULL_COUNTS: usize = 4 * MOST_LEVELS;

pub const FULL_POSITIONS: usize = 3 * MOST_COARSE_CORNERS;

pub const FULL_COARSE: usize = 4 * MOST_COARSE_CELLS;

pub const MOST_MARKS: usize = 16384;

// Why a call refuses, by the numbers of rule 12.3.
#[derive(Clone, Copy, Debug, PartialEq, Eq)]
pub enum Refusal {
    // Counts of corners or cells, or lengths that are not by threes and fours.
    Counts = 1,
    // A coordinate out of range.
    Coordinate,
    // A cell's corner numbers.
    Corners,
    // A flat cell.
    Flat,
    // A cell twice, or a face in three cells.
    Repeated,
    // A status table that is not sound, or a pattern above 63.
    Unsound,
    // Marks that do not fit, or a cell or corner that is not there.
    Marks,
    // A cell of level 10 would be refined.
    TooHigh,
    // More than 4,096 cells would arise.
    TooMany,
    // The number of parts.
    Parts,
    // Owners that do not fit.
    Owners,
    // A message that is not for this store.
    Message,
    // A message that was taken before.
    Taken,
    // A message that is not the next one yet.
    Early,
    // A lent table is too short.
    Lent,
    // What a store says of itself.
    Store,
    // Bytes outside the form of archives.
    Form,
}

impl Refusal {
    pub fn number(self) -> u8
        ensures { result ≡ number_of self }
    {
        self as u8
    }
}

// The number of an answer: 0, or the refusal's.
pub fn code(answer: Result<(), Refusal>) -> u8
    ensures { result ≡ code_of (answered answer) }
{
    match answer {
        Ok(()) => 0,
        Err(refusal) => refusal.number(),
    }
}

// Copies the first n elements.
pub fn copy_front<T: Copy>(from: &[T], n: usize, to: &mut [T])
    requires { (n ≤ length from.now) × (n ≤ length to.old) }
    ensures { to.new ≡ take n from.now ++ drop n to.old }
{
    to[..n].copy_from_slice(&from[..n]);
}
