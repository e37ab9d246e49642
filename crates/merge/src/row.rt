// The cells of the table that masters make, found one by one in the order of the table.

ghost use Rattle.std.specs.Prelude.{◌≡◌, ◌≤◌, length};
ghost use Rattle.base.specs.Limits.{most_cells};
ghost use Rattle.merge.specs.Sweep.{KeyRow};

use crate::masters::Masters;
use crate::push;
use base::{MOST_CELLS, Refusal};

// The keys of the cells that are known, behind one another, and the statuses of the first of them. Keys are two arrays, as those of a pair
// table are: an array of pairs is no plainer beside it.
#[derive(Drop)]
pub struct Row {
    pub heads: [u32; 4096],
    pub digits: [u32; 4096],
    pub statuses: [u8; 4096],
    pub found: usize,
    pub known: usize,
    pub ghost sized: { (length heads ≡ most_cells) × (length digits ≡ most_cells) × (length statuses ≡ most_cells) },
    pub ghost behind: { (found ≤ known) × (known ≤ most_cells) },
    pub ghost keys: { KeyRow heads digits found known },
}

impl Row {
    ghost use Rattle.std.specs.Prelude.{◌<◌, MatchResult};
    ghost use Rattle.base.specs.Limits.{most_coarse_cells};
    ghost use Rattle.merge.specs.Sweep.{Seeded};
    ghost use Rattle.merge.specs.Steps.{Settled, Unsettled, Built, Unbuilt};

    // The coarse cells, with no status yet.
    fn coarse(m: usize) -> Row
        requires { m ≤ most_coarse_cells }
        ensures { (Seeded result.heads result.digits m) × (result.found ≡ 0) × (result.known ≡ m) }
    {
        let mut heads = [0; 4096];
        for i in 0..m {
            heads[i] = i as u32;
        }
        Row {
            heads,
            digits: [0; 4096],
            statuses: [0; 4096],
            found: 0,
            known: m,
        }
    }

    // Finds the status of the next cell, and puts its children behind the row.
    fn settle(&mut self, masters: &Masters) -> Result<(), Refusal>
        requires { self.old.found < self.old.known }
        ensures { MatchResult result (λ _. Settled masters.now self.old self.new)
            (λ r. (r ≡ Refusal.Store) × Unsettled masters.now self.old) }
    {
        let c = self.found;
        let end = self.known;
        let x = self.heads[c];
        let y = self.digits[c];
        let Some(at) = masters.keys.find(x, y) else {
            return Err(Refusal::Store);
        };
        let status = masters.statuses[at];
        if status > 64 {
            return Err(Refusal::Store);
        }
        let size = rows::size_of(status);
        if size > 0 && x >= 2560 {
            return Err(Refusal::Store);
        }
        if end + size > MOST_CELLS {
            return Err(Refusal::Store);
        }
        push(&mut self.heads, &mut self.digits, end, x, y, size);
        self.statuses[c] = status;
        self.known = end + size;
        self.found = c + 1;
        Ok(())
    }

    // The table that masters make over m coarse cells.
    pub fn build(masters: &Masters, m: usize) -> Result<Row, Refusal>
        requires { m ≤ most_coarse_cells }
        ensures { MatchResult result (λ row. Built masters.now m row) (λ r. (r ≡ Refusal.Store) × Unbuilt masters.now m) }
    {
        let mut row = Row::coarse(m);
        // A turn puts more behind the row, so no range goes over it.
        while row.found < row.known {
            row.settle(masters)?;
        }
        Ok(row)
    }
}
