// Status tables over a coarse mesh: examined and laid out level by level, in tables that the caller lends.
#![tactic(auto)]

ghost use Rattle.std.specs.Prelude.{◌≡◌, ◌&&◌, ◌*◌, ◌≤◌, IfOk, MatchResult, eqb, length, take};
ghost use mathlib.Core.List.{flat_map};
ghost use Rattle.base.specs.Answer.{Accepted};
ghost use Rattle.base.specs.Fours.{fours};
ghost use Rattle.base.specs.Refuse.{answered, refuse};
ghost use Rattle.edges.specs.Table.{listed};
ghost use Rattle.separation.specs.Parents.{Parents, apart_all};
ghost use Rattle.tables.specs.Checked.{Statuses, Torn, Closed};
ghost use Rattle.tables.specs.Room.{TableRoom};
ghost use Rattle.tables.specs.Start.{Coarse, coarse_row};
ghost use Rattle.tables.specs.Sound.{Mesh, LaidSound, sound_answer};

use base::{Refusal, TOP_LEVEL};
use cutting::Families;
use pairs::PairTable;

// A table that is laid out: how many coarse cells, cells and levels it has. Its new corners are the entries of a table of edges beside it.
#[derive(Clone, Copy)]
pub struct Sizes {
    pub coarse: usize,
    pub cells: usize,
    pub levels: usize,
}

// Checks the level from first to last, and lists its red edges: 6 where it is not closed. Gives how many cells lie one level up.
fn check_level<const N: usize, const H: usize>(
    rows: &[u16],
    status: &[u8],
    first: usize,
    last: usize,
    red: &mut PairTable<N, H>,
) -> Result<usize, Refusal>
    requires statuses { Statuses status.now }
    requires reds { 4 * red.old.n ≤ 3 * last }
    requires first_le_last { first ≤ last }
    requires room { (8 * length status.now ≤ length rows.now) × (3 * length status.now ≤ 4 * N) }
    ensures { MatchResult result (λ size. Closed rows.now status.now first last red.old red.new size)
        (λ e. (e ≡ Refusal.Unsound) × Torn rows.now status.now first last) }
{
    if last > status.len() {
        return Err(Refusal::Unsound);
    }
    let size = rows::level_size(status, first, last);
    if size > status.len() - last {
        return Err(Refusal::Unsound);
    }
    red.start_level();
    redlist::red_level(rows, status, first, last, red);
    if !closure::closed_level(rows, status, first, last, red) {
        return Err(Refusal::Unsound);
    }
    Ok(size)
}

// Lays out the coarse cells. What the table holds behind their rows is free.
pub fn lay_coarse(mesh: &[u16], rows: &mut [u16]) -> usize
    requires { Coarse mesh.now × (2048 ≤ length rows.old) }
    ensures { (result ≡ length (fours mesh.now)) × (take (8 * result) rows.new ≡ flat_map coarse_row (fours mesh.now)) }
{
    let count = mesh.len() / 4;
    for c in 0..count {
        let i = 4 * c;
        let row = [
            0,
            65535,
            0,
            1,
            mesh[i],
            mesh[i + 1],
            mesh[i + 2],
            mesh[i + 3],
        ];
        growth::write_row(rows, c, row);
    }
    count
}

// The end of a building that came up to the cell `last`: 6 where there are more statuses, or the third condition does not hold.
fn finish<const N: usize, const H: usize>(
    status: &[u8],
    rows: &[u16],
    last: usize,
    red: &mut PairTable<N, H>,
) -> Result<(), Refusal>
    requires rows_in_bounds { 8 * last ≤ length rows.now }
    requires parents { Parents rows.now last }
    ensures { answered result
        ≡ refuse 6 (eqb (length status.now) last && apart_all (listed red.old.xs red.old.ys 0 red.old.n) rows.now last) Accepted }
{
    red.look_at_all();
    if status.len() == last && separation::apart(rows, last, red) {
        return Ok(());
    }
    Err(Refusal::Unsound)
}

// Builds a table of few statuses over an accepted mesh of n corners level by level, and examines it: 6 where it is not sound. Where it is
// sound, the rows are those of its cells, and the entries of mids are its new corners. `red` is for the work: it gets the red edges.
pub fn build<const M: usize, const K: usize, const N: usize, const H: usize>(
    mesh: &[u16],
    n: usize,
    status: &[u8],
    rows: &mut [u16],
    mids: &mut PairTable<M, K>,
    red: &mut PairTable<N, H>,
) -> Result<Sizes, Refusal>
    requires mesh { Mesh n mesh.now }
    requires statuses { Statuses status.now }
    requires table_room { TableRoom status.now rows.old M }
    requires red_room { 3 * length status.now ≤ 4 * N }
    requires empty { (mids.old.from ≡ 0) × (mids.old.n ≡ 0) × (red.old.n ≡ 0) }
    ensures answer { answered result ≡ sound_answer n (fours mesh.now) status.now }
    ensures laid { IfOk result (λ s. LaidSound n (fours mesh.now) status.now rows.new mids.new.xs mids.new.ys s.cells s.levels mids.new.n
        × (s.coarse ≡ length (fours mesh.now))) }
{
    let families = Families::new();
    let coarse = lay_coarse(mesh, rows);
    let mut first = 0;
    let mut last = coarse;
    let mut level = 0;
    // No range: how many levels there are is found on the way.
    loop {
        let size = check_level(rows, status, first, last, red)?;
        if size == 0 {
            finish(status, rows, last, red)?;
            return Ok(Sizes {
                coarse,
                cells: last,
                levels: level + 1,
            });
        }
        if level == TOP_LEVEL {
            return Err(Refusal::Unsound);
        }
        let up = (level + 1) as u16;
        let next = growth::grow_level(rows, status, first, last, up, last, n, mids, &families);
        first = last;
        last = next;
        level += 1;
    }
}
