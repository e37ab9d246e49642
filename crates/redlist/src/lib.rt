// The edges of a level's red cells, listed.
#![tactic(auto)]

ghost use Rattle.std.specs.Prelude.{[], ◌∷◌, ◌+◌, ◌*◌, ◌-◌, ◌<◌, length};
ghost use Rattle.mesh.specs.Cells.{edge, edges, red_edges};
ghost use Rattle.edges.specs.Table.{Grown};
ghost use Rattle.rows.specs.Numbered.{cell_at, cells_at, part};
ghost use Rattle.redlist.specs.Ready.{Ready, Range, red_of, red_count};

use pairs::PairTable;
use rows::Ends;

// Inserts one edge of a cell.
fn red_edge<const N: usize, const H: usize>(
    cells: &[u16],
    c: usize,
    e: usize,
    table: &mut PairTable<N, H>,
)
    requires ready { Ready cells.now (c + 1) table.old 1 }
    requires e_bound { e < 6 }
    ensures { Grown table.old (edge 0 (cell_at cells.now c) e ∷ []) table.new }
{
    let Ends { a, b } = rows::edge_of(cells, c, e);
    edges::insert(table, a, b);
}

// Inserts the six edges of a cell. A loop over them is slower by a half (docs/SPEED.md); so it is for the pattern of a cell (`closure`).
fn red_edges<const N: usize, const H: usize>(cells: &[u16], c: usize, table: &mut PairTable<N, H>)
    requires { Ready cells.now (c + 1) table.old 6 }
    ensures { Grown table.old (edges 0 (cell_at cells.now c)) table.new }
{
    red_edge(cells, c, 0, table);
    red_edge(cells, c, 1, table);
    red_edge(cells, c, 2, table);
    red_edge(cells, c, 3, table);
    red_edge(cells, c, 4, table);
    red_edge(cells, c, 5, table);
}

// Inserts the edges of a cell where its status is red.
fn red_cell<const N: usize, const H: usize>(
    cells: &[u16],
    status: u8,
    c: usize,
    table: &mut PairTable<N, H>,
)
    requires { Ready cells.now (c + 1) table.old (length (red_of status (cell_at cells.now c))) }
    ensures { Grown table.old (red_of status (cell_at cells.now c)) table.new }
{
    if status == 64 {
        red_edges(cells, c, table);
    }
}

// Inserts the edges of the red cells from first to last.
pub fn red_level<const N: usize, const H: usize>(
    cells: &[u16],
    status: &[u8],
    first: usize,
    last: usize,
    table: &mut PairTable<N, H>,
)
    requires range { Range status.now first last }
    requires ready { Ready cells.now last table.old (6 * red_count (part status.now first (last - first))) }
    ensures { Grown table.old
        (red_edges 0 (cells_at cells.now first (last - first)) (part status.now first (last - first))) table.new }
{
    for c in first..last {
        red_cell(cells, status[c], c, table);
    }
}
