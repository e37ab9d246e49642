// The table of cells over corner numbers: rows of eight, level, parent, child number, 1 where regular, four corners.
#![tactic(auto)]

ghost use Rattle.std.specs.Prelude.{◌≡◌, ◌+◌, ◌*◌, ◌≤◌, ◌<◌, ◌-◌, length, get_or, true, leb};
ghost use Rattle.base.specs.Limits.{most_cells};
ghost use Rattle.mesh.specs.Cells.{edge};
ghost use Rattle.rows.specs.Numbered.{cell_at, part};
ghost use Rattle.rows.specs.EdgeEnds.{lows, highs};
ghost use Rattle.base.specs.Lists.{allb};
ghost use Rattle.mesh.specs.Table.{size_of, sizes};

// The two ends of an edge, in the order of the cell's corners.
#[derive(Clone, Copy)]
pub struct Ends {
    pub a: u16,
    pub b: u16,
}

// The first corner of an edge. A constant list would be copied at each read (docs/SPEED.md); so it is for the second.
pub fn low_corner(e: usize) -> usize
    requires { e < 6 }
    ensures { (result ≡ get_or lows e 0) × (result < 4) }
{
    match e {
        0..=2 => 0,
        3 | 4 => 1,
        _ => 2,
    }
}

// The second corner of an edge.
pub fn high_corner(e: usize) -> usize
    requires { e < 6 }
    ensures { (result ≡ get_or highs e 0) × (result < 4) }
{
    match e {
        0..=2 => e + 1,
        3 | 4 => e - 1,
        _ => 3,
    }
}

pub fn edge_of(cells: &[u16], c: usize, e: usize) -> Ends
    requires { (8 * c + 8 ≤ length cells.now) × (e < 6) }
    ensures { (result.a, result.b) ≡ edge 0 (cell_at cells.now c) e }
{
    let a = 8 * c + 4 + low_corner(e);
    let b = 8 * c + 4 + high_corner(e);
    Ends {
        a: cells[a],
        b: cells[b],
    }
}

// Whether the cell is regular.
pub fn is_regular(cells: &[u16], c: usize) -> bool
    requires { 8 * c + 8 ≤ length cells.now }
    ensures { result ≡ (cell_at cells.now c).regular }
{
    cells[8 * c + 3] == 1
}

// Whether each status is one: 0 to 64.
pub fn fits(status: &[u8]) -> bool
    ensures { result ≡ allb (λ s. leb s 64) status.now }
{
    status.iter().all(|s| *s <= 64)
}

// The number of children of a cell with this status.
pub fn size_of(status: u8) -> usize
    requires { status ≤ 64 }
    ensures { (result ≡ size_of status) × (result ≤ 8) }
{
    match status {
        0 => 0,
        64 => 8,
        _ => usize::from(cutting::count(status)),
    }
}

// The number of children of the cells from first to last.
pub fn level_size(status: &[u8], first: usize, last: usize) -> usize
    requires first_le_last { (first ≤ last) × (last ≤ length status.now) × (length status.now ≤ most_cells) }
    requires status_value { allb (λ s. leb s 64) status.now ≡ true }
    ensures { result ≡ sizes (part status.now first (last - first)) }
{
    let mut n = 0;
    for c in first..last {
        n += size_of(status[c]);
    }
    n
}
