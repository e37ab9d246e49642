// The slots of a table's edges: the edges of a level, each once, in the order of their first appearance, numbered behind those of lower
// levels. An edge is known by the numbers of its two corners.
#![tactic(auto)]

ghost use Rattle.std.specs.Prelude.{◌*◌, ◌≤◌};
ghost use Rattle.base.specs.Limits.{most_cells};
ghost use Rattle.slots.specs.Slots.{LevelDone, Rising, Slotted};

use base::MOST_LEVELS;
use pairs::PairTable;

// Writes the slots of the level from first to last, six for each cell, behind the entries of lower levels.
fn number_level(
    rows: &[u16; 32768],
    first: usize,
    last: usize,
    table: &mut PairTable<24576, 4096>,
    slots: &mut [u16; 24576],
)
    requires { (first ≤ last) × (last ≤ most_cells) × (table.old.n ≤ 6 * first) }
    ensures { LevelDone rows.now first last table.old slots.old table.new slots.new }
{
    table.start_level();
    for i in 6 * first..6 * last {
        let ends = rows::edge_of(rows, i / 6, i % 6);
        slots[i] = edges::insert(table, ends.a, ends.b) as u16;
    }
}

// Writes the slots of all levels, six for each cell, and the first slot of each level; `firsts` has the first cell of each.
pub fn number(
    rows: &[u16; 32768],
    firsts: &[u16; 12],
    slots: &mut [u16; 24576],
    starts: &mut [u16; 12],
)
    requires { Rising firsts.now }
    ensures { Slotted rows.now firsts.now slots.new starts.new }
{
    let mut table: PairTable<24576, 4096> = PairTable {
        xs: [0; 24576],
        ys: [0; 24576],
        heads: [65535; 4096],
        links: [0; 24576],
        from: 0,
        n: 0,
    };
    for k in 0..MOST_LEVELS {
        starts[k] = table.n as u16;
        let first = firsts[k] as usize;
        let last = firsts[k + 1] as usize;
        number_level(rows, first, last, &mut table, slots);
    }
    starts[MOST_LEVELS] = table.n as u16;
}
