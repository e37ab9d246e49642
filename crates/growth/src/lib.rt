// Laying out the children of one level of cells. The table of cells has rows of eight (crate rows). New corners are the
// entries of a table of edges (crate edges) in the order of their first appearance: entry j is the corner n + j.
#![tactic(auto)]

ghost use Rattle.std.specs.Prelude.{◌≡◌, [], ◌∷◌, map, ℕ, ◌+◌, ◌*◌, ◌-◌, ◌≤◌, ◌<◌, length, get_or};
ghost use Rattle.base.specs.Bools.{one_if};
ghost use Rattle.base.specs.Limits.{most_cells};
ghost use Rattle.cutting.specs.Rule.{split, family};
ghost use Rattle.mesh.specs.Cells.{pattern_of, edge};
ghost use Rattle.mesh.specs.Layout.{split_edges};
ghost use Rattle.edges.specs.Table.{entries, Edges, Inserted, Grown, Space};
ghost use Rattle.rows.specs.Numbered.{cell_at, child_rows};
ghost use Rattle.mesh.specs.Table.{size_of};
ghost use Rattle.growth.specs.Places.{middle_edge};
ghost use Rattle.growth.specs.Written.{written};
ghost use Rattle.growth.specs.Points.{split_at, low_corners, marked, four_at, Mids, PointsSet, ReadyToGrow};
ghost use Rattle.growth.specs.Level.{Laid, Roomy, Grows};

use cutting::Families;
use pairs::PairTable;

// The pattern that a refined cell is cut by: all edges where it is red.
fn pattern_of(status: u8) -> u8
    ensures { result ≡ pattern_of status }
{
    if status == 64 { 63 } else { status }
}

// Whether the pattern splits the edge.
fn is_split(pattern: u8, e: usize) -> bool
    requires { e < 6 }
    ensures { result ≡ split pattern e }
{
    (pattern >> e) % 2 == 1
}

const MIDDLE: [usize; 6] = [1, 2, 3, 5, 6, 8];

// The digit of an edge's midpoint.
fn middle_of(e: usize) -> usize
    requires { e < 6 }
    ensures { (result ≡ middle_edge e) × (result < 10) }
{
    let middle_edge = &MIDDLE;
    middle_edge[e]
}

// For each of the ten points of a cell the number of its lower corner: a corner has its own.
fn corners_of(cells: &[u16], c: usize) -> [u16; 10]
    requires { 8 * c + 8 ≤ length cells.now }
    ensures { result ≡ low_corners (cell_at cells.now c) }
{
    let at = 8 * c + 4;
    let p = cells[at];
    let q = cells[at + 1];
    let r = cells[at + 2];
    let s = cells[at + 3];
    [p, p, p, p, q, q, q, r, r, s]
}

// Writes a row of the table.
pub fn write_row(cells: &mut [u16], at: usize, row: [u16; 8])
    requires { 8 * at + 8 ≤ length cells.old }
    ensures { cells.new ≡ written cells.old (8 * at) row }
{
    cells[8 * at..8 * at + 8].copy_from_slice(&row);
}

// Adds an edge of a cell to the table of edges, where it is not in it: the entry that it stands at.
fn add_edge<const N: usize, const H: usize>(
    cells: &[u16],
    c: usize,
    e: usize,
    mids: &mut PairTable<N, H>,
) -> usize
    requires c_in_bounds { (8 * c + 8 ≤ length cells.now) × (e < 6) }
    requires edges { Edges mids.old }
    requires room { Space mids.old 1 }
    ensures { Inserted mids.old (edge 0 (cell_at cells.now c) e) mids.new result }
{
    let ends = rows::edge_of(cells, c, e);
    edges::insert(mids, ends.a, ends.b)
}

// Takes in one edge of a cell: where the pattern splits it, it goes into the table of edges, and its midpoint has a number.
fn split_edge<const N: usize, const H: usize>(
    cells: &[u16],
    c: usize,
    e: usize,
    pattern: u8,
    n: usize,
    points: &mut [u16; 10],
    mids: &mut PairTable<N, H>,
)
    requires c_in_bounds { (8 * c + 8 ≤ length cells.now) × (e < 6) × (n + mids.old.n < 65536) }
    requires mids { Mids mids.old }
    requires space { Space mids.old (length (split_at pattern (cell_at cells.now c) e)) }
    ensures grown { Grown mids.old (split_at pattern (cell_at cells.now c) e) mids.new }
    ensures points_value { points.new ≡ marked n (entries mids.new) (cell_at cells.now c) pattern e points.old }
{
    if is_split(pattern, e) {
        let at = add_edge(cells, c, e, mids);
        points[middle_of(e)] = (n + at) as u16;
    }
}

// The numbers of a cell's ten points; the edges that its status splits go into the table of edges, in edge order. A loop over the six is
// slower (docs/SPEED.md).
fn points_of<const N: usize, const H: usize>(
    cells: &[u16],
    c: usize,
    status: u8,
    n: usize,
    mids: &mut PairTable<N, H>,
) -> [u16; 10]
    requires { ReadyToGrow cells.now mids.old c status n }
    ensures grown { Grown mids.old (split_edges 0 (cell_at cells.now c) status) mids.new }
    ensures points_set { PointsSet n (entries mids.new) (cell_at cells.now c) (pattern_of status) result }
{
    let pattern = pattern_of(status);
    let mut points = corners_of(cells, c);
    split_edge(cells, c, 0, pattern, n, &mut points, mids);
    split_edge(cells, c, 1, pattern, n, &mut points, mids);
    split_edge(cells, c, 2, pattern, n, &mut points, mids);
    split_edge(cells, c, 3, pattern, n, &mut points, mids);
    split_edge(cells, c, 4, pattern, n, &mut points, mids);
    split_edge(cells, c, 5, pattern, n, &mut points, mids);
    points
}

// What the children of a cell have in common: their level, the cell's number, whether they are regular, and the numbers of its points.
#[derive(Clone, Copy)]
struct Parent {
    level: u16,
    number: u16,
    regular: bool,
    points: [u16; 10],
}

impl Parent {
    // The number of the point whose digit stands at a place of the family.
    fn point(&self, digits: &[u8; 32], j: usize) -> u16
        requires { (j < 32) × (get_or digits.now j 0 < 10) }
        ensures { result ≡ get_or self.now.points (get_or digits.now j 0) 0 }
    {
        self.points[digits[j] as usize]
    }

    // The row of child i of a family.
    fn child(&self, i: usize, digits: &[u8; 32]) -> [u16; 8]
        requires i_bound { i < 8 }
        requires by_index { (j : ℕ) → get_or digits.now j 0 < 10 }
        ensures { result ≡ self.now.level ∷ self.now.number ∷ i ∷ one_if self.now.regular
            ∷ map (λ d. get_or self.now.points d 0) (four_at digits.now (4 * i)) }
    {
        [
            self.level,
            self.number,
            i as u16,
            u16::from(self.regular),
            self.point(digits, 4 * i),
            self.point(digits, 4 * i + 1),
            self.point(digits, 4 * i + 2),
            self.point(digits, 4 * i + 3),
        ]
    }

    // Writes the rows of a family, from row `at` on. Gives the row behind them.
    fn write_children(
        &self,
        cells: &mut [u16],
        at: usize,
        pattern: u8,
        families: &Families,
    ) -> usize
        requires { (pattern < 64) × (8 * (at + length (family pattern)) ≤ length cells.old) }
        ensures value { result ≡ at + length (family pattern) }
        ensures cells_value { cells.new ≡ written cells.old (8 * at)
            (child_rows self.now.level self.now.number self.now.regular (λ d. get_or self.now.points d 0) 0 (family pattern)) }
    {
        let family = families.cut(pattern).unwrap();
        let count = usize::from(family.count);
        for i in 0..count {
            write_row(cells, at + i, self.child(i, &family.digits));
        }
        at + count
    }
}

// Writes the family of a cell from row `at` on, on level `level`; a leaf has none. Gives the row behind it.
fn refine<const N: usize, const H: usize>(
    cells: &mut [u16],
    c: usize,
    status: u8,
    level: u16,
    at: usize,
    n: usize,
    mids: &mut PairTable<N, H>,
    families: &Families,
) -> usize
    requires c_lt_at { (c < at) × (status ≤ 64) × (at + size_of status ≤ most_cells) × (8 * (at + size_of status) ≤ length cells.old) }
    requires ready_to_grow { ReadyToGrow cells.old mids.old c status n }
    ensures { Laid cells.old mids.old c status level at n cells.new mids.new result }
{
    if status == 0 {
        return at;
    }
    let parent = Parent {
        level,
        number: c as u16,
        regular: status == 64,
        points: points_of(cells, c, status, n, mids),
    };
    parent.write_children(cells, at, pattern_of(status), families)
}

// Writes the families of the cells `first` to `last` - 1, in cell order, from row `at` on, on level `level`. Gives the row behind them.
pub fn grow_level<const N: usize, const H: usize>(
    cells: &mut [u16],
    status: &[u8],
    first: usize,
    last: usize,
    level: u16,
    at: usize,
    n: usize,
    mids: &mut PairTable<N, H>,
    families: &Families,
) -> usize
    requires { Roomy cells.old mids.old status.now first last at n }
    ensures { Grows cells.old mids.old status.now first (last - first) level at n cells.new mids.new result }
{
    let mut next = at;
    for c in first..last {
        next = refine(cells, c, status[c], level, next, n, mids, families);
    }
    next
}
