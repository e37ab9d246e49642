// The work of one step of the multilevel red/green method: nothing is examined here.
#![tactic(auto)]

ghost use Rattle.std.specs.Prelude.{◌≡◌, ◌⊎◌, ◌*◌, ◌≤◌, ◌<◌, IfOk, length};
ghost use Rattle.base.specs.Fours.{fours};
ghost use Rattle.base.specs.Refuse.{answered};
ghost use Rattle.mesh.specs.Answers.{limits_answer};
ghost use Rattle.advance.specs.Advanced.{Held, Advanced};

use base::Refusal;
use pairs::PairTable;

// Tables for the work on fewer than K statuses: the edges of new red cells, the old numbers of new cells, the first child of each old cell
// and what it keeps. Made once, they serve any number of steps.
#[derive(Drop)]
pub struct Work<const N: usize, const H: usize, const K: usize> {
    pub red: PairTable<N, H>,
    pub olds: [u16; 4096],
    pub kids: [u16; K],
    pub kept: [u8; K],
}

impl<const N: usize, const H: usize, const K: usize> Work<N, H, K> {
    #[inline(never)]
    pub fn new() -> Self
        requires { (N ≤ 65536) × (1024 ≤ H) × (H ≤ 65536) × (K ≤ 65536) }
        ensures { (result.red.from ≡ 0) × (result.red.n ≡ 0) }
    {
        Work {
            red: PairTable::new(),
            olds: [0; 4096],
            kids: [0; K],
            kept: [0; K],
        }
    }
}

// The work of a step, on a sound table with its rows and marks that fit it: the new statuses in `table`, and how many there are. The table
// of red edges is empty, the other tables of the work hold whatever they hold. Refusals 8 and 9.
pub fn advance<const N: usize, const H: usize, const K: usize>(
    mesh: &[u16],
    n: usize,
    rows: &[u16],
    status: &[u8],
    marks: &[u8],
    table: &mut [u8; 4096],
    work: &mut Work<N, H, K>,
) -> Result<usize, Refusal>
    requires held { Held n mesh.now rows.now status.now }
    requires marks_len { length marks.now ≡ length status.now }
    requires red_room { (3072 ≤ N) ⊎ (6 * length status.now ≤ N) }
    requires work_room { (N ≤ 65535) × (length status.now < K) }
    requires empty { (work.old.red.from ≡ 0) × (work.old.red.n ≡ 0) }
    ensures answer { answered result ≡ limits_answer n (fours mesh.now) status.now marks.now }
    ensures made { IfOk result (λ k. Advanced n mesh.now status.now marks.now table.new k) }
{
    let coarse = mesh.len() / 4;
    firsts::first_children(status, coarse, &mut work.kids);
    let high = keeping::keep(
        mesh,
        n,
        rows,
        status,
        marks,
        &work.kids,
        &mut work.kept,
        &mut work.red,
    )?;
    if high {
        return Err(Refusal::TooHigh);
    }
    writing::write_table(
        status,
        &work.kids,
        &work.kept[..status.len()],
        coarse,
        table,
        &mut work.olds,
    )
}
