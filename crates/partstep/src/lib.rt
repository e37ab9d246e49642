// The step of a part: the work of its next round, once the ends of all others are taken.
#![tactic(auto)]

ghost use Rattle.std.specs.Prelude.{◌≡◌, true, false, ◌≤◌, ◌<◌, eqb, length};
ghost use Rattle.base.specs.Limits.{most_parts, most_cells};
ghost use Rattle.base.specs.Refuse.{code_of, answered};
ghost use Rattle.store.specs.Fields.{field, full, CELLS, PARTS};
ghost use Rattle.turns.specs.Usable.{Usable};
ghost use Rattle.partstep.specs.Step.{waits_for, readyb, part_answer, cleared, post_totals, enter_totals, old_places};
ghost use Rattle.partstep.specs.Step.{end_number, finished, round_entered};
ghost use Rattle.partstep.specs.Step.{part_after};

use base::{Refusal, code};
use mail::header_fits;
use places::{place_cells, place_olds};
use store::{
    CELLS_MOST, ENDED, ENTRIES, FULL, HIGH, LEVELS, LEVELS_MOST, PART, PARTS, RESULT, ROUND, STAGE,
    TOTAL, TOTALS_CODE,
};
use turns::{enter_counts, enter_marks, others_of, post, post_end};

// Whether the end of the round from another part is not taken yet.
#[tactic(auto, unfolding(crate::specs::Step::waits_for))]
fn waits_for(store: &[u16], q: usize) -> bool
    requires { (full ≤ length store.now) × (q ≤ most_parts) }
    ensures { result ≡ waits_for store.now q }
{
    q != store[PART] as usize && store[ENDED + q] as usize != store[ROUND] as usize + 1
}

// Whether no other part is waited for.
fn is_ready(store: &[u16]) -> bool
    requires { (full ≤ length store.now) × (field store.now PARTS ≤ most_parts) }
    ensures { result ≡ readyb store.now }
{
    !(1..store[PARTS] as usize + 1).any(|q| waits_for(store, q))
}

// Writes the own totals for all others.
#[tactic(auto, unfolding(crate::specs::Step::post_totals))]
fn post_totals(store: &mut [u16])
    requires { Usable store.old }
    ensures { store.new ≡ post_totals store.old }
{
    let mask = others_of(store);
    let code = (TOTALS_CODE as u16).wrapping_add(store[HIGH]);
    let total = store[TOTAL];
    post(store, code, total, mask as u16);
}

// Sets entries and totals to 0.
#[tactic(auto, unfolding(crate::specs::Step::cleared))]
fn clear(store: &mut [u16])
    requires { full ≤ length store.old }
    ensures { store.new ≡ cleared store.old }
{
    store[ENTRIES] = 0;
    store[TOTAL] = 0;
    store[HIGH] = 0;
}

// Enters the round of totals.
fn enter_totals(store: &mut [u16])
    requires { Usable store.old }
    ensures { store.new ≡ enter_totals store.old }
{
    clear(store);
    place_cells(store);
    post_totals(store);
    post_end(store);
}

// What the step comes to, from the totals of all parts.
#[tactic(auto, unfolding(crate::specs::Step::end_number, base::specs::Refuse::code_of))]
fn end(store: &[u16]) -> Result<(), Refusal>
    requires { full ≤ length store.now }
    ensures { code_of (answered result) ≡ end_number store.now }
{
    if store[HIGH] >= LEVELS_MOST {
        Err(Refusal::TooHigh)
    } else if store[TOTAL] > CELLS_MOST {
        Err(Refusal::TooMany)
    } else {
        Ok(())
    }
}

// Writes the old masters and ghosts.
#[tactic(auto, unfolding(crate::specs::Step::old_places))]
fn restore(store: &mut [u16])
    requires { (full ≤ length store.old) × (field store.old CELLS ≤ most_cells) }
    ensures { store.new ≡ old_places store.old }
{
    store[ENTRIES] = 0;
    place_olds(store);
}

// Ends the step: where it is refused the old masters and ghosts stay.
#[tactic(auto, unfolding(crate::specs::Step::finished, base::specs::Refuse::code_of))]
fn finish(store: &mut [u16])
    requires { (full ≤ length store.old) × (field store.old CELLS ≤ most_cells) }
    ensures { store.new ≡ finished store.old }
{
    let result = end(store);
    if result.is_err() {
        restore(store);
    }
    store[RESULT] = u16::from(code(result));
    store[STAGE] = 2;
}

// Does the work of the next round.
#[tactic(auto, unfolding(crate::specs::Step::round_entered))]
fn enter(store: &mut [u16])
    requires { Usable store.old }
    ensures { store.new ≡ round_entered store.old }
{
    let round = store[ROUND] as usize;
    let levels = store[LEVELS] as usize;
    if round >= 2 * levels {
        finish(store);
    } else if round % 2 == 0 {
        enter_counts(store, levels - 1 - round / 2);
    } else if round + 1 < 2 * levels {
        enter_marks(store, levels - 2 - round / 2);
    } else {
        enter_totals(store);
    }
}

// Leads a part to its next round, once the ends of this one are taken from all others.
#[tactic(auto, using(turns::proofs::Starting::usable_of, crate::proofs::Stepping::step_round),
// What it answers.
unfolding(crate::specs::Step::part_answer, base::specs::Refuse::refuse,
// What the store then holds.
crate::specs::Step::part_after, crate::specs::Step::turned_in, crate::specs::Step::part_stepped))]
pub fn part_step(store: &mut [u16]) -> Result<(), Refusal>
    ensures answer { answered result ≡ part_answer store.old }
    ensures store_value { store.new ≡ part_after store.old }
{
    if store.len() < FULL {
        return Err(Refusal::Lent);
    }
    if !header_fits(store) || store[STAGE] != 1 || !is_ready(store) {
        return Err(Refusal::Store);
    }
    let round = store[ROUND];
    enter(store);
    store[ROUND] = round + 1;
    Ok(())
}
