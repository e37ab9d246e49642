// The third condition of soundness: an edge that a green cell's child has and the green cell has not is held by no red cell.
#![tactic(auto)]

ghost use Rattle.std.specs.Prelude.{◌≡◌, ◌||◌, not, true, false, ◌+◌, ◌*◌, ◌≤◌, ◌<◌, eqb, length, get_or};
ghost use Rattle.base.specs.Lists.{allb};
ghost use Rattle.base.specs.Places.{hasb};
ghost use Rattle.mesh.specs.Cells.{joinsb, heldb, edge, edges};
ghost use Rattle.rows.specs.Numbered.{cell_at};
ghost use Rattle.edges.specs.Pairs.{isb, sorted};
ghost use Rattle.edges.specs.Table.{entries};
ghost use Rattle.closure.specs.Listed.{listed_apart};
ghost use Rattle.separation.specs.Parents.{Parents, apart_all};
ghost use Rattle.separation.specs.Scan.{apart_test, free_test};

use pairs::PairTable;
use rows::Ends;

// Whether two edges have the same ends, straight or crossed.
fn joins(a: u16, b: u16, c: u16, d: u16) -> bool
    ensures { result ≡ joinsb eqb (a, b) (c, d) }
{
    (a, b) == (c, d) || (a, b) == (d, c)
}

// Whether an edge is one of the cell's six.
pub fn has_edge(cells: &[u16], g: usize, a: u16, b: u16) -> bool
    requires { 8 * g + 8 ≤ length cells.now }
    ensures { result ≡ heldb eqb (edges 0 (cell_at cells.now g)) (a, b) }
{
    for e in 0..6 {
        let own = rows::edge_of(cells, g, e);
        if joins(a, b, own.a, own.b) {
            return true;
        }
    }
    false
}

// The condition at edge e of the cell c, whose parent is g.
fn apart_edge<const N: usize, const H: usize>(
    cells: &[u16],
    c: usize,
    g: usize,
    e: usize,
    table: &PairTable<N, H>,
) -> bool
    requires rows { 8 * (c + 1) ≤ length cells.now }
    requires g_in_bounds { (8 * g + 8 ≤ length cells.now) × (e < 6) }
    ensures { result ≡ (heldb eqb (edges 0 (cell_at cells.now g)) (edge 0 (cell_at cells.now c) e) || not
        (hasb isb (entries table.now) (sorted (edge 0 (cell_at cells.now c) e)))) }
{
    let Ends { a, b } = rows::edge_of(cells, c, e);
    !edges::holds(table, a, b) || has_edge(cells, g, a, b)
}

// Whether no edge of the cell c is listed. A loop over the six is slower (docs/SPEED.md).
fn is_free<const N: usize, const H: usize>(cells: &[u16], c: usize, table: &PairTable<N, H>) -> bool
    requires { 8 * (c + 1) ≤ length cells.now }
    ensures { result ≡ true → allb (free_test (entries table.now)) (edges 0 (cell_at cells.now c)) ≡ true }
{
    if closure::is_held(cells, c, 0, table)
        || closure::is_held(cells, c, 1, table)
        || closure::is_held(cells, c, 2, table)
        || closure::is_held(cells, c, 3, table)
        || closure::is_held(cells, c, 4, table)
        || closure::is_held(cells, c, 5, table)
    {
        return false;
    }
    true
}

// The condition at each edge of the cell c, whose parent is g. In a sound table no edge is listed.
pub fn apart_child<const N: usize, const H: usize>(
    cells: &[u16],
    c: usize,
    g: usize,
    table: &PairTable<N, H>,
) -> bool
    requires rows { 8 * (c + 1) ≤ length cells.now }
    requires g_in_bounds { 8 * g + 8 ≤ length cells.now }
    ensures { result ≡ allb (apart_test (entries table.now) cells.now g) (edges 0 (cell_at cells.now c)) }
{
    if is_free(cells, c, table) {
        return true;
    }
    for e in 0..6 {
        if !apart_edge(cells, c, g, e, table) {
            return false;
        }
    }
    true
}

// The condition at the cell c. That no edge is near is asked here, so that it is compiled into the loop over the cells.
fn apart_cell<const N: usize, const H: usize>(
    cells: &[u16],
    c: usize,
    table: &PairTable<N, H>,
) -> bool
    requires rows { 8 * (c + 1) ≤ length cells.now }
    requires c_in_bounds { (cell_at cells.now c).regular ≡ false → 8 * get_or cells.now (8 * c + 1) 0 + 8 ≤ length cells.now }
    ensures { result ≡ listed_apart (entries table.now) cells.now (cell_at cells.now c) }
{
    if rows::is_regular(cells, c) || !closure::is_near(cells, c, table) {
        return true;
    }
    let g = cells[8 * c + 1] as usize;
    apart_child(cells, c, g, table)
}

// The condition at each of the cells below last.
pub fn apart<const N: usize, const H: usize>(
    cells: &[u16],
    last: usize,
    table: &PairTable<N, H>,
) -> bool
    requires rows { 8 * last ≤ length cells.now }
    requires parents { Parents cells.now last }
    ensures { result ≡ apart_all (entries table.now) cells.now last }
{
    for c in 0..last {
        if !apart_cell(cells, c, table) {
            return false;
        }
    }
    true
}
