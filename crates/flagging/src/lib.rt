// Which cells of an old table will be red after a step, and what each cell keeps, level by level from the highest down.
#![tactic(auto)]

ghost use Rattle.std.specs.Prelude.{◌≡◌, ◌++◌, ◌+◌, ◌*◌, ◌-◌, ◌≤◌, ◌<◌, MatchResult, length, get_or, take, drop};
ghost use Rattle.base.specs.Lists.{allb, anyb};
ghost use Rattle.edges.specs.Table.{entries};
ghost use Rattle.lineage.specs.Olds.{flag_of};
ghost use Rattle.flagging.specs.Flags.{listedb, idleb, touchedb, red_atb, pulledb, closed_at, closed_over};
ghost use Rattle.flagging.specs.Old.{OldRows, Span, OneLevel, Flagged, limit_of, high_of, Treated, Untreated, Above, Kept, Unkept};
ghost use Rattle.base.specs.Range.{range};

use base::Refusal;
use pairs::PairTable;

// An old table: the rows of its cells, their statuses and marks, and the numbers of their first children.
#[derive(Drop)]
pub struct OldTable<'a> {
    pub rows: &'a [u16],
    pub status: &'a [u8],
    pub marks: &'a [u8],
    pub kids: &'a [u16],
    pub ghost in_order: { OldRows rows.now status.now marks.now kids.now },
}

fn flag(b: bool) -> u8
    ensures { result ≡ flag_of b }
{
    if b { 64 } else { 0 }
}

// Whether a cell of the highest level will be red: one of this level's new red ones where it is that level, else as `above` says.
#[tactic(auto, unfolding(crate::specs::Old::high_of))]
fn is_high(is_highest: bool, reds: usize, above: bool) -> bool
    ensures { result ≡ high_of is_highest reds above }
{
    if is_highest { reds > 0 } else { above }
}

// The limit that is met where there is no room: 8 where a cell of the highest level will be red, else 9.
#[tactic(auto, unfolding(crate::specs::Old::limit_of))]
fn limit(high: bool) -> Refusal
    ensures { result ≡ limit_of high }
{
    if high {
        Refusal::TooHigh
    } else {
        Refusal::TooMany
    }
}

// What a cell keeps, from its flag. On the highest level no edge is listed. That none is near is asked here, so that it is compiled into
// the loop over the level.
fn kept_of<const N: usize, const H: usize>(
    flag: u8,
    rows: &[u16],
    c: usize,
    table: &PairTable<N, H>,
) -> u8
    requires { 8 * (c + 1) ≤ length rows.now }
    ensures { result ≡ closed_at (entries table.now) rows.now flag c }
{
    if flag == 64 {
        return 64;
    }
    if table.from == table.n || !closure::is_near(rows, c, table) {
        return 0;
    }
    closure::pattern_in(rows, c, table)
}

// Writes what the cells from first to last keep over their flags, where the edges of the level's new red cells are listed.
fn close_level<const N: usize, const H: usize>(
    rows: &[u16],
    kept: &mut [u8],
    first: usize,
    last: usize,
    table: &PairTable<N, H>,
)
    requires rows { 8 * last ≤ length rows.now }
    requires first_le_last { (first ≤ last) × (last ≤ length kept.old) }
    ensures { kept.new ≡ take first kept.old ++ (closed_over (entries table.now) rows.now kept.old first (last - first)
        ++ drop last kept.old) }
{
    for c in first..last {
        kept[c] = kept_of(kept[c], rows, c, table);
    }
}

impl OldTable<'_> {
    // Whether the cell j is a leaf marked 2 with no edge listed.
    fn is_idle<const N: usize, const H: usize>(&self, j: usize, table: &PairTable<N, H>) -> bool
        requires { j < length self.now.status.now }
        ensures { result ≡ idleb self.now.rows.now self.now.status.now self.now.marks.now (listedb table.now) j }
    {
        self.status[j] == 0 && self.marks[j] == 2 && closure::pattern_of(self.rows, j, table) == 0
    }

    // Whether each of the cells from first to last is.
    fn are_idle<const N: usize, const H: usize>(
        &self,
        first: usize,
        last: usize,
        table: &PairTable<N, H>,
    ) -> bool
        requires { last ≤ length self.now.status.now }
        ensures { result ≡ allb (idleb self.now.rows.now self.now.status.now self.now.marks.now (listedb table.now))
            (range first (last - first)) }
    {
        for j in first..last {
            if !self.is_idle(j, table) {
                return false;
            }
        }
        true
    }

    // Whether an edge of the cell j, not of the cell g, is listed. Where no cell one level up will be red, none is. That none is near is
    // asked here, so that it is compiled into the loop over the children.
    fn is_touched<const N: usize, const H: usize>(
        &self,
        g: usize,
        j: usize,
        table: &PairTable<N, H>,
    ) -> bool
        requires { (g < length self.now.status.now) × (j < length self.now.status.now) }
        ensures { result ≡ touchedb self.now.rows.now (listedb table.now) g j }
    {
        if table.from == table.n || !closure::is_near(self.rows, j, table) {
            return false;
        }
        !separation::apart_child(self.rows, j, g, table)
    }

    // Whether the child j of the green cell g is marked 1 or so touched.
    fn is_pulled<const N: usize, const H: usize>(
        &self,
        g: usize,
        j: usize,
        table: &PairTable<N, H>,
    ) -> bool
        requires { (g < length self.now.status.now) × (j < length self.now.status.now) }
        ensures { result ≡ pulledb self.now.rows.now self.now.marks.now (listedb table.now) g j }
    {
        self.marks[j] == 1 || self.is_touched(g, j, table)
    }

    // Whether one of the children of the green cell g, from first to last, is.
    fn one_pulled<const N: usize, const H: usize>(
        &self,
        g: usize,
        first: usize,
        last: usize,
        table: &PairTable<N, H>,
    ) -> bool
        requires { (g < length self.now.status.now) × (last ≤ length self.now.status.now) }
        ensures { result ≡ anyb (pulledb self.now.rows.now self.now.marks.now (listedb table.now) g) (range first (last - first)) }
    {
        for j in first..last {
            if self.is_pulled(g, j, table) {
                return true;
            }
        }
        false
    }

    // Whether the cell c will be red, where the edges of the new red cells one level up are listed.
    fn is_new_red<const N: usize, const H: usize>(&self, c: usize, table: &PairTable<N, H>) -> bool
        requires { c < length self.now.status.now }
        ensures { result ≡ red_atb self.now.rows.now self.now.status.now self.now.marks.now self.now.kids.now (listedb table.now) c }
    {
        let first = self.kids[c] as usize;
        let last = self.kids[c + 1] as usize;
        match self.status[c] {
            0 => rows::is_regular(self.rows, c) && self.marks[c] == 1,
            64 => !self.are_idle(first, last, table),
            _ => self.one_pulled(c, first, last, table),
        }
    }

    // Writes the flags of the cells from first to last. Gives how many will be red.
    fn flag_level<const N: usize, const H: usize>(
        &self,
        kept: &mut [u8],
        first: usize,
        last: usize,
        table: &PairTable<N, H>,
    ) -> usize
        requires { Span self.now.status.now kept.old first last }
        ensures { Flagged self.now.rows.now self.now.status.now self.now.marks.now self.now.kids.now (listedb table.now) first last
            kept.old kept.new result }
    {
        let mut reds = 0;
        for c in first..last {
            let red = self.is_new_red(c, table);
            kept[c] = flag(red);
            reds += usize::from(red);
        }
        reds
    }

    // Lists the edges of the new red cells from first to last as a level of their own, and writes what these cells keep. The edges of the
    // level above are those that are looked at before, and `above` says whether a cell of the highest level will be red, where this is not
    // that level. Gives the same of this level and those above. Six edges of each red cell need room.
    fn treat_level<const N: usize, const H: usize>(
        &self,
        kept: &mut [u8],
        first: usize,
        last: usize,
        is_highest: bool,
        above: bool,
        table: &mut PairTable<N, H>,
    ) -> Result<bool, Refusal>
        requires span { Span self.now.status.now kept.old first last }
        requires small { N ≤ 65535 }
        ensures { MatchResult result
            (λ high. Treated self.now.rows.now self.now.status.now self.now.marks.now self.now.kids.now (listedb table.old) first last
            kept.old is_highest above table.old kept.new table.new high)
            (λ r. Untreated self.now.rows.now self.now.status.now self.now.marks.now self.now.kids.now (listedb table.old) first last
            is_highest above table.old r) }
    {
        let reds = self.flag_level(kept, first, last, table);
        let high = is_high(is_highest, reds, above);
        if 6 * reds > N - table.n {
            return Err(limit(high));
        }
        table.start_level();
        redlist::red_level(self.rows, kept, first, last, table);
        close_level(self.rows, kept, first, last, table);
        Ok(high)
    }

    // Treats the level from first to last and those above it, depth levels in all, the highest one first. Gives whether a cell of the
    // highest will be red.
    fn treat_up<const N: usize, const H: usize>(
        &self,
        kept: &mut [u8],
        first: usize,
        last: usize,
        depth: usize,
        table: &mut PairTable<N, H>,
    ) -> Result<bool, Refusal>
        requires one_level { OneLevel self.now.status.now self.now.kids.now kept.old first last }
        requires small { N ≤ 65535 }
        requires empty { (table.old.from ≡ 0) × (table.old.n ≡ 0) }
        ensures { MatchResult result
            (λ high. Above self.now.rows.now self.now.status.now self.now.marks.now self.now.kids.now depth first last kept.old kept.new
            table.new high)
            (λ r. Unkept self.now.rows.now self.now.status.now self.now.marks.now self.now.kids.now depth first last N r) }
    {
        if depth == 0 {
            return Ok(false);
        }
        let end = self.kids[last] as usize;
        let above = self.treat_up(kept, last, end, depth - 1, table)?;
        self.treat_level(kept, first, last, depth == 1, above, table)
    }

    // Writes what each cell keeps; there are at most eleven levels. Gives whether a cell of level 10 will be red. Without room for six edges
    // of each cell that will be red, what `kept` holds is free, and the refusal is 8 where a cell of level 10 will be, else 9. The table
    // is for the work.
    pub fn treat_all<const N: usize, const H: usize>(
        &self,
        kept: &mut [u8],
        table: &mut PairTable<N, H>,
    ) -> Result<bool, Refusal>
        requires span { Span self.now.status.now kept.old 0 (get_or self.now.kids.now 0 0) }
        requires small { N ≤ 65535 }
        requires empty { (table.old.from ≡ 0) × (table.old.n ≡ 0) }
        ensures { MatchResult result
            (λ high. Kept self.now.rows.now self.now.status.now self.now.marks.now self.now.kids.now 11 0
            (get_or self.now.kids.now 0 0) kept.old kept.new high)
            (λ r. Unkept self.now.rows.now self.now.status.now self.now.marks.now self.now.kids.now 11 0
            (get_or self.now.kids.now 0 0) N r) }
    {
        let last = self.kids[0] as usize;
        self.treat_up(kept, 0, last, base::MOST_LEVELS, table)
    }
}
