// What the parts' stores say of each cell of a laid out table, ten numbers a cell, and whether owners fit the table.
#![tactic(auto)]

ghost use Rattle.std.specs.Prelude.{◌≡◌, ◌&&◌, suc, ◌+◌, ◌-◌, ◌*◌, ◌≤◌, ◌<◌, eqb, leb, length, get_or};
ghost use Rattle.base.specs.Bools.{one_if};
ghost use Rattle.base.specs.Limits.{most_cells};
ghost use Rattle.base.specs.Lists.{allb};
ghost use Rattle.base.specs.Range.{range};
ghost use Rattle.ancestors.specs.Climb.{level_in, parent_in};
ghost use Rattle.store.specs.Fields.{columns_length};
ghost use Rattle.store.specs.Written.{WroteAt};
ghost use Rattle.columns.specs.Ten.{outerb, inner_by, family_by, place_by, ten_of, owners_by, FirstKids, Sources, Filled, ParentPlaced};

use base::MOST_CELLS;
use rows::Ends;
use store::{DIGITS, HEAD, MORE, OWNER, Place};

// The family's owner: that of the first child; of a leaf its own.
fn family_of(owners: &[u8], kids: &[u16], c: usize) -> u8
    requires first_kids { FirstKids kids.now (length owners.now) }
    requires c_in_bounds { c < length owners.now }
    ensures { result ≡ family_by kids.now owners.now c }
{
    let first = kids[c] as usize;
    let last = kids[c + 1] as usize;
    if first < last {
        return owners[first];
    }
    owners[c]
}

// Whether the children of a cell have one owner.
fn one_owner(owners: &[u8], kids: &[u16], c: usize) -> bool
    requires first_kids { FirstKids kids.now (length owners.now) }
    requires c_in_bounds { c < length owners.now }
    ensures { result ≡ allb (λ d. eqb (get_or owners.now d 0) (family_by kids.now owners.now c))
        (range (get_or kids.now c 0) (get_or kids.now (suc c) 0 - get_or kids.now c 0)) }
{
    let owner = family_of(owners, kids, c);
    let first = kids[c] as usize;
    let last = kids[c + 1] as usize;
    (first..last).all(|d| owners[d] == owner)
}

// Whether each owner is a part.
fn are_parts(owners: &[u8], parts: usize) -> bool
    ensures { result ≡ allb (λ o. leb 1 o && leb o parts) owners.now }
{
    owners
        .iter()
        .all(|owner| (1..=parts).contains(&(*owner as usize)))
}

// Whether the owners fit a table, whose families are told by `kids`, and the parts: one owner for each cell, a part, and one for all
// children of a cell.
pub fn owners_fit(owners: &[u8], status: &[u8], parts: usize, kids: &[u16]) -> bool
    requires { FirstKids kids.now (length status.now) }
    ensures { result ≡ owners_by status.now kids.now parts owners.now }
{
    owners.len() == status.len()
        && are_parts(owners, parts)
        && (0..owners.len()).all(|c| one_owner(owners, kids, c))
}

// 1 where the edge e of the cell c is not also one of the cell g, else 0.
fn outer(rows: &[u16], g: usize, c: usize, e: usize) -> u16
    requires { (8 * g + 8 ≤ length rows.now) × (8 * c + 8 ≤ length rows.now) × (e < 6) }
    ensures { result ≡ one_if (outerb rows.now g c e) }
{
    let own = rows::edge_of(rows, c, e);
    u16::from(!separation::has_edge(rows, g, own.a, own.b))
}

// Six bits: the edges of a cell that are not also its parent's.
fn inner_of(rows: &[u16], c: usize) -> u16
    requires c_in_bounds { 8 * c + 8 ≤ length rows.now }
    requires c_bound { 0 < level_in rows.now c → parent_in rows.now c < c }
    ensures { result ≡ inner_by rows.now c }
{
    if rows[8 * c] == 0 {
        return 0;
    }
    let g = rows[8 * c + 1] as usize;
    let mut bits = 0;
    for e in (0..6).rev() {
        bits = outer(rows, g, c, e) + 2 * bits;
    }
    bits
}

// Where the columns of places begin, as in a store.
const HEAD_COLUMN: usize = HEAD - OWNER;

const DIGITS_COLUMN: usize = DIGITS - OWNER;

const MORE_COLUMN: usize = MORE - OWNER;

// The place of a cell, where the columns have those of the cells before it.
fn place_of(rows: &[u16], cols: &[u16], c: usize) -> Place
    requires c_in_bounds { (8 * c + 8 ≤ length rows.now) × (c < most_cells) × (length cols.now ≡ columns_length) }
    requires parent_placed { ParentPlaced rows.now cols.now c }
    ensures { result ≡ place_by rows.now (level_in rows.now c) c }
{
    if rows[8 * c] == 0 {
        return Place {
            head: c as u16,
            digits: 0,
            more: 0,
        };
    }
    let g = rows[8 * c + 1] as usize;
    let p = Place {
        head: cols[HEAD_COLUMN + g],
        digits: cols[DIGITS_COLUMN + g],
        more: cols[MORE_COLUMN + g],
    };
    store::child_place(p, rows[8 * c + 2])
}

// The ten numbers of a cell, in the order of the store.
fn ten_of(
    rows: &[u16],
    status: &[u8],
    kids: &[u16],
    owners: &[u8],
    cols: &[u16],
    c: usize,
) -> [u16; 10]
    requires sources { Sources rows.now status.now kids.now owners.now }
    requires c_in_bounds { (c < length status.now) × (length cols.now ≡ columns_length) }
    requires filled { Filled rows.now status.now kids.now owners.now c cols.now }
    ensures { result ≡ ten_of rows.now status.now kids.now owners.now c }
{
    let family = family_of(owners, kids, c);
    let p = place_of(rows, cols, c);
    let inner = inner_of(rows, c);
    [
        owners[c] as u16,
        family as u16,
        status[c] as u16,
        rows[8 * c + 3],
        kids[c],
        rows[8 * c + 1],
        p.head,
        p.digits,
        p.more,
        inner,
    ]
}

// Writes the ten numbers of a cell, one into each column.
fn put_ten(cols: &mut [u16], c: usize, ten: &[u16; 10])
    requires { (length cols.old ≡ columns_length) × (c < most_cells) }
    ensures { WroteAt (λ j. most_cells * j + c) (λ j. get_or ten.now j 0) 10 cols.old cols.new }
{
    for (j, number) in ten.iter().enumerate() {
        cols[MOST_CELLS * j + c] = *number;
    }
}

// Writes the ten columns of a table: 4,096 places each, one for each cell.
pub fn fill(rows: &[u16], status: &[u8], kids: &[u16], owners: &[u8], cols: &mut [u16])
    requires sources { Sources rows.now status.now kids.now owners.now }
    requires cols_len { length cols.old ≡ columns_length }
    ensures { Filled rows.now status.now kids.now owners.now (length status.now) cols.new }
{
    for c in 0..status.len() {
        let ten = ten_of(rows, status, kids, owners, cols, c);
        put_ten(cols, c, &ten);
    }
}
