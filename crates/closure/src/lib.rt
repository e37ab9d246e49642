// The statuses of one level, where the edges of its red cells are listed: the pattern that each other cell is closed with.
#![tactic(auto)]

ghost use Rattle.std.specs.Prelude.{◌≡◌, false, [], ◌∷◌, ◌+◌, ◌*◌, ◌-◌, ◌≤◌, ◌<◌, length};
ghost use Rattle.base.specs.Places.{hasb};
ghost use Rattle.mesh.specs.Cells.{edge, bits_of};
ghost use Rattle.probing.specs.Probed.{Probed};
ghost use Rattle.edges.specs.Pairs.{isb, sorted};
ghost use Rattle.edges.specs.Table.{entries};
ghost use Rattle.rows.specs.Numbered.{cell_at, cells_at, part};
ghost use Rattle.redlist.specs.Ready.{Range};
ghost use Rattle.closure.specs.Near.{twob, Unlisted};
ghost use Rattle.closure.specs.Listed.{listed_pattern, listed_status, listed_closed};

use pairs::PairTable;
use rows::Ends;

// Whether an edge of a cell is listed. A cell is its place in the rows, one flat list of numbers, as the theorems speak of them.
pub fn is_held<const N: usize, const H: usize>(
    cells: &[u16],
    c: usize,
    e: usize,
    table: &PairTable<N, H>,
) -> bool
    requires rows { 8 * (c + 1) ≤ length cells.now }
    requires e_bound { e < 6 }
    ensures { result ≡ hasb isb (entries table.now) (sorted (edge 0 (cell_at cells.now c) e)) }
{
    let Ends { a, b } = rows::edge_of(cells, c, e);
    edges::holds(table, a, b)
}

// The pattern of six tests, that of the first edge first.
fn bits(a: bool, b: bool, c: bool, d: bool, e: bool, f: bool) -> u8
    ensures { result ≡ bits_of (a ∷ b ∷ c ∷ d ∷ e ∷ f ∷ []) }
{
    u8::from(a)
        + 2 * u8::from(b)
        + 4 * u8::from(c)
        + 8 * u8::from(d)
        + 16 * u8::from(e)
        + 32 * u8::from(f)
}

// Whether two of four tests pass.
fn two_of(p: bool, q: bool, r: bool, s: bool) -> bool
    ensures { result ≡ twob p q r s }
{
    u8::from(p) + u8::from(q) + u8::from(r) + u8::from(s) >= 2
}

// Whether an edge of the cell may be listed: two of its corners may be. Where it may not, none is. The scans ask before they call what
// searches: so the test is compiled into their loops, and most cells need no call.
pub fn is_near<const N: usize, const H: usize>(
    cells: &[u16],
    c: usize,
    table: &PairTable<N, H>,
) -> bool
    requires { 8 * (c + 1) ≤ length cells.now }
    ensures { result ≡ false → Unlisted (entries table.now) (cell_at cells.now c) }
{
    two_of(
        probing::may_meet(table, cells[8 * c + 4]),
        probing::may_meet(table, cells[8 * c + 5]),
        probing::may_meet(table, cells[8 * c + 6]),
        probing::may_meet(table, cells[8 * c + 7]),
    )
}

// The pattern of the cell's edges that are listed, by six searches. A loop over them is slower (docs/SPEED.md); so it is for the looks.
fn pattern_searched<const N: usize, const H: usize>(
    cells: &[u16],
    c: usize,
    table: &PairTable<N, H>,
) -> u8
    requires { 8 * (c + 1) ≤ length cells.now }
    ensures { result ≡ listed_pattern (entries table.now) (cell_at cells.now c) }
{
    bits(
        is_held(cells, c, 0, table),
        is_held(cells, c, 1, table),
        is_held(cells, c, 2, table),
        is_held(cells, c, 3, table),
        is_held(cells, c, 4, table),
        is_held(cells, c, 5, table),
    )
}

// Whether an edge of a cell is listed, by one look: 0 it is not, 1 it is, 2 it has to be searched.
fn probe_edge<const N: usize, const H: usize>(
    cells: &[u16],
    c: usize,
    e: usize,
    table: &PairTable<N, H>,
) -> usize
    requires rows { 8 * (c + 1) ≤ length cells.now }
    requires some { (table.now.from < table.now.n) × (e < 6) }
    ensures { Probed (hasb isb (entries table.now) (sorted (edge 0 (cell_at cells.now c) e))) result }
{
    let Ends { a, b } = rows::edge_of(cells, c, e);
    probing::probe(table, a, b)
}

// The pattern of the cell's edges that are listed, by six looks; searched where one of them does not decide. One branch for all six: with
// one for each, those of a large mesh are guessed wrong too often.
pub fn pattern_in<const N: usize, const H: usize>(
    cells: &[u16],
    c: usize,
    table: &PairTable<N, H>,
) -> u8
    requires rows { 8 * (c + 1) ≤ length cells.now }
    requires some { table.now.from < table.now.n }
    ensures { result ≡ listed_pattern (entries table.now) (cell_at cells.now c) }
{
    let p = probe_edge(cells, c, 0, table);
    let q = probe_edge(cells, c, 1, table);
    let r = probe_edge(cells, c, 2, table);
    let s = probe_edge(cells, c, 3, table);
    let t = probe_edge(cells, c, 4, table);
    let u = probe_edge(cells, c, 5, table);
    if p / 2 + q / 2 + r / 2 + s / 2 + t / 2 + u / 2 != 0 {
        return pattern_searched(cells, c, table);
    }
    (p + 2 * q + 4 * r + 8 * s + 16 * t + 32 * u) as u8
}

// The pattern of the cell's edges that are listed. On the highest level none is.
#[inline(always)]
pub fn pattern_of<const N: usize, const H: usize>(
    cells: &[u16],
    c: usize,
    table: &PairTable<N, H>,
) -> u8
    requires { 8 * (c + 1) ≤ length cells.now }
    ensures { result ≡ listed_pattern (entries table.now) (cell_at cells.now c) }
{
    if table.from == table.n || !is_near(cells, c, table) {
        return 0;
    }
    pattern_in(cells, c, table)
}

// The status of a cell that is red or not, where the edges of its level's red cells are listed.
fn status_of<const N: usize, const H: usize>(
    cells: &[u16],
    c: usize,
    red: bool,
    table: &PairTable<N, H>,
) -> u8
    requires { 8 * (c + 1) ≤ length cells.now }
    ensures { result ≡ listed_status (entries table.now) red (cell_at cells.now c) }
{
    if !rows::is_regular(cells, c) {
        return 0;
    }
    if red {
        return 64;
    }
    pattern_of(cells, c, table)
}

// Whether each cell from first to last has the status that the listed edges ask for.
pub fn closed_level<const N: usize, const H: usize>(
    cells: &[u16],
    status: &[u8],
    first: usize,
    last: usize,
    table: &PairTable<N, H>,
) -> bool
    requires range { Range status.now first last }
    requires rows { 8 * last ≤ length cells.now }
    ensures { result ≡ listed_closed (entries table.now) (cells_at cells.now first (last - first))
        (part status.now first (last - first)) }
{
    for c in first..last {
        if status[c] != status_of(cells, c, status[c] == 64, table) {
            return false;
        }
    }
    true
}
