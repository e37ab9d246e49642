// A status table over a coarse mesh, opened: the mesh examined, then the table.
#![tactic(auto)]

ghost use Rattle.std.specs.Prelude.{◌≡◌, ◌*◌, ◌≤◌, IfOk, length};
ghost use Rattle.base.specs.Limits.{most_cells};
ghost use Rattle.base.specs.Refuse.{answered};
ghost use Rattle.mesh.specs.Answers.{table_answer};
ghost use Rattle.tables.specs.Room.{TableRoom};
ghost use Rattle.opening.specs.Opened.{Fits};

use base::Refusal;
use pairs::PairTable;
use tables::Sizes;

// An empty table with room for N pairs and H heads, where it is written: what a function answers by value is made aside and copied.
#[macro_export]
macro_rules! empty_table {
    ($n:expr, $h:expr) => {
        pairs::PairTable {
            xs: [0; $n],
            ys: [0; $n],
            heads: [65535; $h],
            links: [0; $n],
            from: 0,
            n: 0,
        }
    };
}

// Examines a mesh and a table over it: refusals 1 to 6. What the two lent tables hold beside a refusal is free.
pub fn open<const M: usize, const MH: usize>(
    positions: &[i32],
    cells: &[u16],
    status: &[u8],
    rows: &mut [u16],
    mids: &mut PairTable<M, MH>,
) -> Result<Sizes, Refusal>
    requires { length status.now ≤ most_cells → TableRoom status.now rows.old M }
    ensures answer { answered result ≡ table_answer positions.now cells.now status.now }
    ensures fits { IfOk result (λ s. Fits positions.now cells.now status.now rows.new mids.new.xs mids.new.ys s.cells s.levels mids.new.n) }
{
    coarse::examine_mesh(positions, cells)?;
    examining::examine(cells, positions.len() / 3, status, rows, mids)
}

// Whether a mesh and a table over it are accepted, with tables for the work of these sizes: they are set to zero first.
fn examine_in<const R: usize, const M: usize, const MH: usize>(
    positions: &[i32],
    cells: &[u16],
    status: &[u8],
) -> Result<(), Refusal>
    requires room { length status.now ≤ most_cells → (2048 ≤ R) × (8 * length status.now ≤ R) × (length status.now ≤ M) }
    requires sizes { (R ≤ 65536) × (M ≤ 65536) × (1024 ≤ MH) × (MH ≤ 65536) }
    ensures { answered result ≡ table_answer positions.now cells.now status.now }
{
    let mut rows = [0u16; R];
    let mut mids: PairTable<M, MH> = empty_table!(M, MH);
    open(positions, cells, status, &mut rows, &mut mids)?;
    Ok(())
}

// Whether a mesh and a table over it are accepted, and if not, why: refusals 1 to 6.
pub fn examine_table(positions: &[i32], cells: &[u16], status: &[u8]) -> Result<(), Refusal>
    ensures { answered result ≡ table_answer positions.now cells.now status.now }
{
    if status.len() > 512 {
        examine_in::<32768, 4096, 4096>(positions, cells, status)
    } else if status.len() > 128 {
        examine_in::<4096, 512, 4096>(positions, cells, status)
    } else {
        examine_in::<2048, 128, 1024>(positions, cells, status)
    }
}
