// A table split over parts: the call.
#![tactic(auto)]

ghost use Rattle.std.specs.Prelude.{◌≡◌, ◌*◌, ◌≤◌, length};
ghost use Rattle.base.specs.Fours.{fours};
ghost use Rattle.base.specs.Limits.{most_parts};
ghost use Rattle.base.specs.Refuse.{answered};
ghost use Rattle.store.specs.Fields.{full};
ghost use Rattle.split.specs.Split.{split_answer, split_after, stores_after};
ghost use Rattle.columns.specs.Ten.{FirstKids};
ghost use Rattle.divide.specs.Divided.{Leveled, FirstCells, masks_of, part_by, stores_to};
ghost use Rattle.divide.specs.Divisible.{Divisible};

use base::{MOST_LEVELS, MOST_PARTS, Refusal};
use filling::Source;
use opening::empty_table;
use pairs::PairTable;
use store::FULL;

// The first cell of each level: a level begins where the children of the one below begin.
fn first_cells(kids: &[u16], cells: usize) -> [u16; 12]
    requires { (FirstKids kids.now cells) × (Leveled kids.now cells) }
    ensures { FirstCells kids.now result }
{
    let mut firsts = [0; 12];
    for k in 0..MOST_LEVELS {
        let first = firsts[k] as usize;
        firsts[k + 1] = kids[first];
    }
    firsts
}

// Writes the stores of all parts: that of the part j + 1 has the number j.
fn write_parts(source: &Source, stores: &mut [u16])
    requires stores_room { (most_parts * full ≤ length stores.old) × (source.now.parts ≤ most_parts) }
    requires masks { source.now.masks.now ≡ masks_of source.now.cols.now source.now.cells source.now.slots.now }
    ensures { stores.new ≡ stores_to (part_by source.now.cols.now source.now.mesh.now source.now.slots.now source.now.firsts.now
        source.now.starts.now source.now.cells source.now.parts source.now.corners source.now.levels) stores.old source.now.parts }
{
    for j in 0..source.parts {
        let at = FULL * j as usize;
        source.write_store(&mut stores[at..at + FULL], j + 1);
    }
}

// Writes the stores of a table with its rows, whose owners fit. (A struct of its parameters would be filled once: no plainer.)
fn divide(
    mesh: &[u16],
    n: usize,
    rows: &[u16; 32768],
    status: &[u8],
    kids: &[u16],
    owners: &[u8],
    parts: usize,
    levels: usize,
    stores: &mut [u16],
)
    requires { Divisible n mesh.now status.now rows.now kids.now owners.now parts levels stores.old }
    ensures { stores.new ≡ stores_after n (fours mesh.now) status.now parts owners.now stores.old }
{
    let cells = status.len();
    let firsts = first_cells(kids, cells);
    let mut starts = [0; 12];
    let mut slots = [0; 24576];
    slots::number(rows, &firsts, &mut slots, &mut starts);
    let mut cols = [0; 40960];
    columns::fill(rows, status, kids, owners, &mut cols);
    let mut masks = [0; 24576];
    filling::fill_masks(&mut masks, &cols, cells, &slots);
    let source = Source {
        parts: parts as u16,
        corners: n as u16,
        levels: levels as u16,
        mesh,
        cells,
        firsts: &firsts,
        starts: &starts,
        cols: &cols,
        slots: &slots,
        masks: &masks,
    };
    write_parts(&source, stores);
}

// Splits a table over parts: the stores of the parts 1 to `parts` in the lent table. Refusals 15, 1 to 6, 10 and 11.
pub fn split(
    positions: &[i32],
    cells: &[u16],
    status: &[u8],
    parts: usize,
    owners: &[u8],
    stores: &mut [u16],
) -> Result<(), Refusal>
    ensures answer { answered result ≡ split_answer positions.now cells.now status.now parts owners.now stores.old }
    ensures stores_value { stores.new ≡ split_after positions.now cells.now status.now parts owners.now stores.old }
{
    if stores.len() < MOST_PARTS * FULL {
        return Err(Refusal::Lent);
    }
    let mut rows = [0; 32768];
    let mut mids: PairTable<4096, 4096> = empty_table!(4096, 4096);
    let sizes = opening::open(positions, cells, status, &mut rows, &mut mids)?;
    if !(1..=MOST_PARTS).contains(&parts) {
        return Err(Refusal::Parts);
    }
    let n = positions.len() / 3;
    let mut kids = [0; 4097];
    firsts::first_children(status, cells.len() / 4, &mut kids);
    if !columns::owners_fit(owners, status, parts, &kids) {
        return Err(Refusal::Owners);
    }
    divide(
        cells,
        n,
        &rows,
        status,
        &kids,
        owners,
        parts,
        sizes.levels,
        stores,
    );
    Ok(())
}
