// The three tables of a layout: filled with a known pattern, laid out in, summed up.
ghost use Rattle.std.specs.Prelude.{◌≡◌, IfOk, length};
ghost use Rattle.base.specs.Refuse.{answered};
ghost use Rattle.layout.specs.Calls.{layout_answer, sizes_of};
ghost use Rattle.trial.specs.Layouts.{summary_of};
ghost use Rattle.trial.specs.Pattern.{tab_of, word_fill, signed_fill};

use crate::pattern;
use base::Refusal;
use layout::Sizes;
use std::fmt;

// A layout as a line of numbers.
#[derive(Clone, Copy)]
pub struct Summary {
    // The refusal's number, or 0.
    pub refusal: u64,
    // How many there are, or zeros beside a refusal.
    pub cells: u64,
    pub corners: u64,
    pub levels: u64,
    // Checksums of the tables over their whole lengths.
    pub table: u64,
    pub ends: u64,
    pub sums: u64,
}

impl fmt::Display for Summary {
    fn fmt<W: fmt::Write>(&self, f: &mut fmt::Formatter<W>) -> fmt::Result {
        write!(
            f,
            "{} {} {} {}",
            self.refusal, self.cells, self.corners, self.levels
        )?;
        write!(f, " {} {} {}", self.table, self.ends, self.sums)
    }
}

// The layout. This function's contract is short, so that the proofs above it are: it leaves out what the tables hold after.
pub fn lay_out(
    positions: &[i32],
    cells: &[u16],
    status: &[u8],
    table: &mut [u16],
    ends: &mut [u16],
    sums: &mut [i32],
) -> Result<Sizes, Refusal>
    ensures answer { answered result ≡ layout_answer positions.now cells.now status.now table.old ends.old sums.old }
    ensures sizes { IfOk result (λ s. s ≡ sizes_of positions.now cells.now status.now) }
{
    layout::lay_out(positions, cells, status, table, ends, sums)
}

// Fills all three.
pub fn fill(table: &mut [u16], ends: &mut [u16], sums: &mut [i32])
    ensures table_value { table.new ≡ tab_of word_fill (length table.old) }
    ensures ends_value { ends.new ≡ tab_of word_fill (length ends.old) }
    ensures sums_value { sums.new ≡ tab_of signed_fill (length sums.old) }
{
    pattern::fill(table);
    pattern::fill(ends);
    pattern::fill(sums);
}

// Sums up a layout's answer and what the tables hold.
pub fn sum_up(laid: Result<Sizes, Refusal>, table: &[u16], ends: &[u16], sums: &[i32]) -> Summary
    ensures { result ≡ summary_of laid table.now ends.now sums.now }
{
    let t = pattern::checksum(table);
    let e = pattern::checksum(ends);
    let s = pattern::checksum(sums);
    match laid {
        Ok(sizes) => Summary {
            refusal: 0,
            cells: sizes.cells as u64,
            corners: sizes.corners as u64,
            levels: sizes.levels as u64,
            table: t,
            ends: e,
            sums: s,
        },
        Err(refusal) => Summary {
            refusal: u64::from(refusal.number()),
            cells: 0,
            corners: 0,
            levels: 0,
            table: t,
            ends: e,
            sums: s,
        },
    }
}
