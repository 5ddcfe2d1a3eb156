ghost use Rattle.std.specs.Prelude.{◌≡◌, ◌≤◌, ◌<ℤ◌, ◌↔◌, pos, All, IfOk, IsTrue, length};
ghost use Rattle.dual_bound.specs.Conditions.{IsGuess};
ghost use Rattle.dual_bound.specs.Dual.{dual_value, emptiness_sum};
ghost use Rattle.limits.specs.declared.TheConstants.{MOST_ROWS};
ghost use Rattle.row_forms.specs.Fits.{IsFitRow};
ghost use Rattle.slot_rows.specs.Objective.{objective_of};
ghost use Rattle.slot_rows.specs.Ranges.{ranges_of};
ghost use Rattle.leaf_value.specs.Scales.{AreScalesOf};

use dual_bound::{Guess, bound, shows_empty};
use linear_form::{Objective, RowList};
use overlap_graph::{Masks, cliques, independence};
use plant_model::Plant;
use slot_automaton::Automaton;
use slot_box::SlotBox;
use slot_rows::{objective, ranges};
use std::alloc::{AllocError, Global};

/// What the leaves of a plant's search trees are weighed with: made once for all of them.
#[derive(Debug, Drop)]
pub struct Scales {
    pub cliques: Masks,
    /// Reads words of operations, and refuses those that are not normal.
    pub automaton: Automaton,
    /// What a form of the slots earns.
    pub objective: Objective,
}

impl Scales {
    /// The scales of trees over boxes of so many slots.
    pub fn new(alloc: Global, plant: &Plant, slots: u32) -> Result<Scales, AllocError>
        ensures { IfOk result (AreScalesOf plant.now slots) }
    {
        plant.sound();
        let independent = independence(alloc, plant)?;
        Ok(Scales {
            cliques: cliques(alloc, plant)?,
            automaton: Automaton::new(alloc, independent.as_slice())?,
            objective: objective(alloc, plant, slots)?,
        })
    }
}

/// The dual value of rows over a box, in margin, by the multipliers of a guess.
pub fn dual_value(
    alloc: Global,
    plant: &Plant,
    scales: &Scales,
    bx: &SlotBox,
    rows: &RowList,
    guess: &Guess,
) -> Result<i128, AllocError>
    requires scales { AreScalesOf plant.now (length bx.now) scales.now }
    requires few { length rows.now ≤ MOST_ROWS }
    requires fit { All (IsFitRow plant.now (length bx.now)) rows.now }
    requires guess { IsGuess rows.now guess.now.y guess.now.q }
    ensures { IfOk result (λ value. value ≡ dual_value rows.now (ranges_of plant.now bx.now)
        (objective_of plant.now (length bx.now)) guess.now.y guess.now.q) }
{
    let ranges = ranges(alloc, plant, bx)?;
    Ok(bound(rows, &ranges, &scales.objective, guess))
}

/// Whether rows, each as often as its multiplier says, contradict each other over a box.
pub fn contradicts(
    alloc: Global,
    plant: &Plant,
    bx: &SlotBox,
    rows: &RowList,
    guess: &Guess,
) -> Result<bool, AllocError>
    requires few { length rows.now ≤ MOST_ROWS }
    requires fit { All (IsFitRow plant.now (length bx.now)) rows.now }
    requires guess { IsGuess rows.now guess.now.y guess.now.q }
    ensures { IfOk result (λ contradicts. IsTrue contradicts
        ↔ (emptiness_sum rows.now (ranges_of plant.now bx.now) guess.now.y <ℤ pos 0)) }
{
    let ranges = ranges(alloc, plant, bx)?;
    Ok(shows_empty(rows, &ranges, guess))
}
