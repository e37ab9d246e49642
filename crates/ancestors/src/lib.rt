// A cell's coarse ancestor and level, from a table of rows: column 1 is the parent.
#![tactic(auto)]

ghost use Rattle.std.specs.Prelude.{◌≡◌, ◌+◌};
ghost use Rattle.ancestors.specs.Climb.{Upward, climb_from};

#[derive(Clone, Copy)]
pub struct Ancestor {
    pub coarse: usize,
    pub level: usize,
}

// Stands for the parent of a coarse cell.
const NO_PARENT: u16 = 65535;

// From a cell to its parent, and on, until a cell has none. The number of turns is the cell's level; no other column is read.
pub fn climb(rows: &[u16], cell: usize) -> Ancestor
    requires { Upward rows.now (cell + 1) }
    ensures { result ≡ climb_from rows.now cell cell }
{
    let mut at = cell;
    let mut turns = 0;
    while rows[8 * at + 1] != NO_PARENT {
        at = rows[8 * at + 1] as usize;
        turns += 1;
    }
    Ancestor {
        coarse: at,
        level: turns,
    }
}
