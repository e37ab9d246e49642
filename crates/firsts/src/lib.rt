// Where each cell's family begins, from the statuses alone.
#![tactic(auto)]

ghost use Rattle.std.specs.Prelude.{◌≡◌, true, ◌++◌, suc, ◌≤◌, ◌<◌, leb, length, drop};
ghost use Rattle.base.specs.Lists.{allb};
ghost use Rattle.base.specs.Limits.{most_cells, most_coarse_cells};
ghost use Rattle.lineage.specs.Firsts.{first_children};

// The number of the first child of each cell, and behind them the count of all cells.
pub fn first_children(status: &[u8], coarse: usize, kids: &mut [u16])
    requires status_value { allb (λ s. leb s 64) status.now ≡ true }
    requires status_len_bound { (length status.now ≤ most_cells) × (length status.now < length kids.old) × (coarse ≤ most_coarse_cells) }
    ensures { kids.new ≡ first_children coarse status.now ++ drop (suc (length status.now)) kids.old }
{
    let mut at = coarse;
    for c in 0..status.len() {
        kids[c] = at as u16;
        at += rows::size_of(status[c]);
    }
    kids[status.len()] = at as u16;
}
