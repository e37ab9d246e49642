// The refusals 1 to 5 of a coarse mesh (docs/METHOD.md, section 1).
#![tactic(auto)]

ghost use Rattle.std.specs.Prelude.{◌≡◌, not, All, ◌+◌, ◌*◌, ◌<◌, ◌≤◌, length};
ghost use Rattle.base.specs.Fours.{faces};
ghost use Rattle.base.specs.Refuse.{answered};
ghost use Rattle.cutting.specs.Rule.{zerob};
ghost use Rattle.mesh.specs.Coarse.{countsb, positionsb, cellb, cellsb, coordinate_at, determinant, solidb, twiceb, singleb, mesh_answer};
ghost use Rattle.coarse.specs.Cells.{Ranked, crowdedb};
ghost use Rattle.coarse.specs.Tally.{Fresh};
ghost use Rattle.coarse.specs.Volume.{Small, CornerThere, CornersThere, edge_vector, term_of};

mod tally;

use base::{MOST_COARSE_CELLS, MOST_COARSE_CORNERS, Refusal};
use pairs::PairTable;
use tally::Tally;

// A cell's corner numbers.
pub type Cell = [u16; 4];

// A face's corner numbers.
type Face = [u16; 3];

// Refusal 1: how many corners and cells.
fn counts_ok(positions: &[i32], cells: &[u16]) -> bool
    ensures { result ≡ countsb positions.now cells.now }
{
    positions.len() % 3 == 0
        && cells.len() % 4 == 0
        && (4..=MOST_COARSE_CORNERS).contains(&(positions.len() / 3))
        && (1..=MOST_COARSE_CELLS).contains(&(cells.len() / 4))
}

// Refusal 2: each number of a position.
fn positions_ok(positions: &[i32]) -> bool
    ensures { result ≡ positionsb positions.now }
{
    positions.iter().all(|z| z.unsigned_abs() <= 500000)
}

// Whether a cell's corner numbers rise, and are of so many corners.
pub fn ascending(q: &Cell, count: usize) -> bool
    ensures { result ≡ cellb count q.now }
{
    q[0] < q[1] && q[1] < q[2] && q[2] < q[3] && usize::from(q[3]) < count
}

// Refusal 3: each cell's corner numbers.
fn cells_ok(cells: &[Cell], count: usize) -> bool
    ensures { result ≡ cellsb count cells.now }
{
    cells.iter().all(|q| ascending(q, count))
}

// A coordinate of a corner.
fn coordinate_of(positions: &[i32], corner: u16, axis: usize) -> i64
    requires corner_there { CornerThere positions.now corner }
    requires axis_bound { axis < 3 }
    ensures { (result ≡ coordinate_at positions.now corner axis) × Small 500000 result }
{
    i64::from(positions[3 * usize::from(corner) + axis])
}

// A coordinate of the vector from corner a to corner b.
fn edge(positions: &[i32], a: u16, b: u16, axis: usize) -> i64
    requires corner_there { CornerThere positions.now a }
    requires corner_there_2 { CornerThere positions.now b }
    requires axis_bound { axis < 3 }
    ensures { (result ≡ edge_vector positions.now a b axis) × Small 1000000 result }
{
    coordinate_of(positions, b, axis) - coordinate_of(positions, a, axis)
}

// One of the three terms of the determinant: a coordinate of the vector to the cell's second corner times a minor of those to the others.
fn term(positions: &[i32], q: &Cell, i: usize, j: usize, k: usize) -> i64
    requires corners_there { CornersThere positions.now q.now }
    requires i_bound { (i < 3) × (j < 3) × (k < 3) }
    ensures { (result ≡ term_of positions.now q.now i j k) × Small 2000000000000000000 result }
{
    let s = edge(positions, q[0], q[2], j) * edge(positions, q[0], q[3], k);
    let t = edge(positions, q[0], q[2], k) * edge(positions, q[0], q[3], j);
    edge(positions, q[0], q[1], i) * (s - t)
}

// Whether a cell is not flat.
fn solid_cell(positions: &[i32], q: &Cell) -> bool
    requires { CornersThere positions.now q.now }
    ensures { result ≡ not (zerob (determinant positions.now q.now)) }
{
    let x = term(positions, q, 0, 1, 2);
    let y = term(positions, q, 1, 0, 2);
    let z = term(positions, q, 2, 0, 1);
    x - y + z != 0
}

// Refusal 4: no cell is flat.
fn solid(positions: &[i32], cells: &[Cell]) -> bool
    requires { All (CornersThere positions.now) cells.now }
    ensures { result ≡ solidb positions.now cells.now }
{
    cells.iter().all(|q| solid_cell(positions, q))
}

// Two corner numbers as one number of a key.
fn pair(a: u16, b: u16) -> u32
    ensures { result ≡ a * 512 + b }
{
    u32::from(a) * 512 + u32::from(b)
}

// No two cells have the same corners.
fn cells_differ<const N: usize>(cells: &[Cell], tally: &mut Tally<N>) -> bool
    requires ranked { Ranked cells.now }
    requires room { 4 * length cells.now ≤ N }
    requires fresh { Fresh tally.old }
    ensures { result ≡ not (twiceb cells.now) }
{
    for q in cells {
        if tally.count(pair(q[0], q[1]), pair(q[2], q[3])) > 1 {
            return false;
        }
    }
    true
}

// The faces of a cell: face n is without its corner n.
fn faces_of(q: &Cell) -> [Face; 4]
    ensures { result ≡ faces q.now }
{
    let [a, b, c, d] = *q;
    [[b, c, d], [a, c, d], [a, b, d], [a, b, c]]
}

// No face is in three cells. The tally is for the work, whatever it has counted.
fn faces_ok<const N: usize>(cells: &[Cell], tally: &mut Tally<N>) -> bool
    requires ranked { Ranked cells.now }
    requires room { 4 * length cells.now ≤ N }
    ensures { result ≡ not (crowdedb cells.now) }
{
    tally.clear();
    for q in cells {
        for f in faces_of(q) {
            if tally.count(pair(f[0], f[1]), u32::from(f[2])) > 2 {
                return false;
            }
        }
    }
    true
}

// Refusal 5, with a tally of this size: it is set to zero first.
fn single_in<const N: usize>(cells: &[Cell]) -> bool
    requires ranked { Ranked cells.now }
    requires room { (4 * length cells.now ≤ N) × (N ≤ 1024) }
    ensures { result ≡ singleb cells.now }
{
    let mut tally: Tally<N> = Tally {
        pairs: PairTable {
            xs: [0; N],
            ys: [0; N],
            heads: [65535; 1024],
            links: [0; N],
            from: 0,
            n: 0,
        },
        counts: [0; N],
    };
    cells_differ(cells, &mut tally) && faces_ok(cells, &mut tally)
}

// Refusal 5: no two cells with the same corners, no face in three cells.
fn single(cells: &[Cell]) -> bool
    requires { Ranked cells.now }
    ensures { result ≡ singleb cells.now }
{
    if cells.len() > 64 {
        single_in::<1024>(cells)
    } else if cells.len() > 16 {
        single_in::<256>(cells)
    } else {
        single_in::<64>(cells)
    }
}

// Whether a coarse mesh is accepted, and if not, why.
pub fn examine_mesh(positions: &[i32], cells: &[u16]) -> Result<(), Refusal>
    ensures { answered result ≡ mesh_answer positions.now cells.now }
{
    if !counts_ok(positions, cells) {
        return Err(Refusal::Counts);
    }
    if !positions_ok(positions) {
        return Err(Refusal::Coordinate);
    }
    let (cells, _) = cells.as_chunks::<4>();
    if !cells_ok(cells, positions.len() / 3) {
        return Err(Refusal::Corners);
    }
    if !solid(positions, cells) {
        return Err(Refusal::Flat);
    }
    if !single(cells) {
        return Err(Refusal::Repeated);
    }
    Ok(())
}
