// The new table from what the old cells keep, written level by level: no new row or corner is looked at.
#![tactic(auto)]

ghost use Rattle.std.specs.Prelude.{◌≡◌, [], ◌∷◌, ◌++◌, map, ℕ, ◌+◌, ◌-◌, ◌≤◌, ◌<◌, MatchResult, length, get_or, replicate, take, drop};
ghost use Rattle.base.specs.Limits.{most_cells};
ghost use Rattle.base.specs.Range.{range};
ghost use Rattle.cutting.specs.Answer.{cut_of};
ghost use Rattle.mesh.specs.Layout.{edge_numbers};
ghost use Rattle.mesh.specs.Table.{size_of, sizes};
ghost use Rattle.rows.specs.Numbered.{part};
ghost use Rattle.lineage.specs.Olds.{olds_of, olds_next};
ghost use Rattle.kept.specs.Kept.{born_by, born_next, held_pairs, fresh_of};
ghost use Rattle.writing.specs.Keeps.{Keeps};
ghost use Rattle.writing.specs.Wrote.{RoomAbove, Wrote};
ghost use Rattle.writing.specs.Held.{pair_at, pairs_at, EndsBelow, bits_at, noting, Noted};
ghost use Rattle.writing.specs.Result.{TableWritten, Unwritten};

use base::{MOST_CELLS, Refusal, TOP_LEVEL};

// Copies so many statuses, one by one: a copy at once of what is lent calls memmove, which the library does not ask for otherwise.
fn copy_statuses(from: &[u8], n: usize, to: &mut [u8])
    requires { (n ≤ length from.now) × (n ≤ length to.old) }
    ensures { to.new ≡ take n from.now ++ drop n to.old }
{
    for i in 0..n {
        to[i] = from[i];
    }
}

// Writes what `count` cells from `first` on keep, and their numbers.
fn write_kept(
    kept: &[u8],
    first: usize,
    count: usize,
    table: &mut [u8; 4096],
    old: &mut [u16; 4096],
    at: usize,
)
    requires first_in_bounds { (first + count ≤ length kept.now) × (first + count ≤ most_cells) }
    requires room { at + count ≤ most_cells }
    ensures { Wrote table.old old.old at (part kept.now first count) (range first count) table.new old.new }
{
    copy_statuses(
        &kept[first..first + count],
        count,
        &mut table[at..at + count],
    );
    for i in 0..count {
        old[at + i] = (first + i) as u16;
    }
}

// Writes new cells: they have no old numbers.
fn write_new(fresh: &[u8], table: &mut [u8; 4096], old: &mut [u16; 4096], at: usize)
    requires { at + length fresh.now ≤ most_cells }
    ensures { Wrote table.old old.old at fresh.now (replicate (length fresh.now) 65535) table.new old.new }
{
    let end = at + fresh.len();
    table[at..end].copy_from_slice(fresh);
    old[at..end].fill(65535);
}

// An edge of a child by its two digits.
fn pair_of(digits: &[u8; 32], j: usize, y: usize) -> usize
    requires { (j < 8) × (y < 6) × EndsBelow digits.now j }
    ensures { (result ≡ pair_at digits.now j y) × (result < 100) }
{
    10 * digits::low_digit(digits, j, y) as usize + digits::high_digit(digits, j, y) as usize
}

// Notes an edge of a child, if the pattern splits it.
fn note_edge(digits: &[u8; 32], j: usize, y: usize, pattern: u8, held: &mut [bool; 100])
    requires { (j < 8) × (y < 6) × EndsBelow digits.now j }
    ensures { held.new ≡ noting held.old (pairs_at digits.now j pattern (y ∷ [])) }
{
    if (pattern >> y) % 2 == 1 {
        held[pair_of(digits, j, y)] = true;
    }
}

// Notes the edges of a child that the pattern splits.
fn note_child(digits: &[u8; 32], j: usize, pattern: u8, held: &mut [bool; 100])
    requires { (j < 8) × EndsBelow digits.now j }
    ensures { held.new ≡ noting held.old (pairs_at digits.now j pattern edge_numbers) }
{
    if pattern == 0 {
        return;
    }
    for y in 0..6 {
        note_edge(digits, j, y, pattern, held);
    }
}

// The edges of the old children, `count` from `first` on, that a new red cell holds.
fn held_pairs(status: u8, kept: &[u8], first: usize, count: usize) -> [bool; 100]
    requires { (status < 64) × (count ≡ size_of status) × (count ≤ 8) × (first + count ≤ length kept.now) }
    ensures { Noted result (held_pairs status kept.now first) }
{
    let mut held = [false; 100];
    let family = cutting::cut(status).unwrap();
    for j in 0..count {
        note_child(&family.digits, j, kept[first + j], &mut held);
    }
    held
}

// The status of a new child, from what is held.
fn fresh_status(held: &[bool; 100], digits: &[u8; 32], i: usize) -> u8
    requires { (i < 8) × EndsBelow digits.now i }
    ensures { result ≡ bits_at held.now digits.now i }
{
    let mut status = 0;
    for y in (0..6).rev() {
        status = 2 * status + u8::from(held[pair_of(digits, i, y)]);
    }
    status
}

// The statuses of all eight.
fn fresh_with(held: &[bool; 100]) -> [u8; 8]
    ensures { result ≡ map (bits_at held.now (cut_of 63).digits) (range 0 8) }
{
    let family = cutting::cut(63).unwrap();
    let mut fresh = [0; 8];
    for i in 0..8 {
        fresh[i] = fresh_status(held, &family.digits, i);
    }
    fresh
}

// The statuses of the eight children of a cell that was not red and will be. Where its old children keep nothing, they are leaves.
fn fresh_of(status: u8, kept: &[u8], first: usize) -> [u8; 8]
    requires { (status < 64) × (first + size_of status ≤ length kept.now) }
    ensures { result ≡ fresh_of status kept.now first }
{
    let count = rows::size_of(status);
    if kept[first..first + count].iter().all(|k| *k == 0) {
        return [0; 8];
    }
    fresh_with(&held_pairs(status, kept, first, count))
}

// What the new table is written from: the statuses of the old cells, their first children, and what each keeps.
#[derive(Clone, Copy)]
struct Keeping<'a> {
    status: &'a [u8],
    kids: &'a [u16],
    kept: &'a [u8],
    coarse: usize,
    ghost keeps: { Keeps coarse status.now kids.now kept.now },
}

impl Keeping<'_> {
    // Writes the family of a red cell with the old number o; 65535, or any number that is no cell's, stands for none.
    fn write_red(&self, o: usize, table: &mut [u8; 4096], old: &mut [u16; 4096], at: usize)
        requires { at + 8 ≤ most_cells }
        ensures { let k = self.now in Wrote table.old old.old at (born_by k.coarse k.status.now k.kept.now 64 o)
            (olds_of k.coarse k.status.now 64 o) table.new old.new }
    {
        if o >= self.status.len() {
            write_new(&[0; 8], table, old, at);
            return;
        }
        let s = self.status[o];
        let first = self.kids[o] as usize;
        if s == 64 {
            write_kept(self.kept, first, 8, table, old, at);
            return;
        }
        write_new(&fresh_of(s, self.kept, first), table, old, at);
    }

    // Writes the family of a cell with the new status t and the old number o. Gives the place behind it.
    fn write_family(
        &self,
        t: u8,
        o: u16,
        table: &mut [u8; 4096],
        old: &mut [u16; 4096],
        at: usize,
    ) -> usize
        requires fits { t ≤ 64 }
        requires room { at + size_of t ≤ most_cells }
        ensures behind { result ≡ at + size_of t }
        ensures wrote { let k = self.now in Wrote table.old old.old at (born_by k.coarse k.status.now k.kept.now t o)
            (olds_of k.coarse k.status.now t o) table.new old.new }
    {
        if t == 64 {
            self.write_red(o as usize, table, old, at);
            return at + 8;
        }
        let size = rows::size_of(t);
        write_new(&[0; 8][..size], table, old, at);
        at + size
    }

    // Writes the families of the cells from first to last, behind these.
    fn write_level(&self, first: usize, last: usize, table: &mut [u8; 4096], old: &mut [u16; 4096])
        requires { RoomAbove table.old old.old first last }
        ensures { let k = self.now in let ts = part table.old first (last - first) in let os = part old.old first (last - first) in
            Wrote table.old old.old last (born_next k.coarse k.status.now k.kept.now ts os) (olds_next k.coarse k.status.now ts os)
            table.new old.new }
    {
        let mut k = last;
        for c in first..last {
            k = self.write_family(table[c], old[c], table, old, k);
        }
    }
}

// How many children the cells from first to last have.
fn level_size(table: &[u8; 4096], first: usize, last: usize) -> usize
    requires { (first ≤ last) × (last ≤ most_cells) × ((c : ℕ) → first ≤ c → c < last → get_or table.now c 0 ≤ 64) }
    ensures { result ≡ sizes (part table.now first (last - first)) }
{
    rows::level_size(&table[first..last], 0, last - first)
}

// Writes the new table, level by level: how many cells it has. `kids` has the first children of the old cells, `kept` what each keeps; in
// `old` stand the old numbers of the new cells. Refusals 8 and 9.
pub fn write_table(
    status: &[u8],
    kids: &[u16],
    kept: &[u8],
    coarse: usize,
    table: &mut [u8; 4096],
    old: &mut [u16; 4096],
) -> Result<usize, Refusal>
    requires { Keeps coarse status.now kids.now kept.now }
    ensures { MatchResult result (λ k. TableWritten coarse status.now kept.now table.new k) (λ r. Unwritten coarse status.now kept.now r) }
{
    let keeping = Keeping {
        status,
        kids,
        kept,
        coarse,
    };
    write_kept(kept, 0, coarse, table, old, 0);
    let mut first = 0;
    let mut last = coarse;
    for _level in 0..TOP_LEVEL {
        let size = level_size(table, first, last);
        if size == 0 {
            return Ok(last);
        }
        if size > MOST_CELLS - last {
            return Err(Refusal::TooMany);
        }
        keeping.write_level(first, last, table, old);
        first = last;
        last += size;
    }
    if level_size(table, first, last) > 0 {
        return Err(Refusal::TooHigh);
    }
    Ok(last)
}
