//! What leaves have to be, and their values.

ghost use Rattle.std.specs.Prelude.{◌≡◌, ◌==◌, ◌≤◌, ◌++◌, length, IfOk};
ghost use Rattle.item_lists.specs.Faults.{first_of, unless};
ghost use Rattle.limits.specs.declared.TheConstants.{MOST_ROWS, MOST_SLOTS};
ghost use Rattle.slot_box.specs.Boxes.{points_of, only_point};
ghost use Rattle.slot_box.specs.Ranges.{IsLeafInRange};
ghost use Rattle.slot_forms.specs.Cases.{plain};
ghost use Rattle.slot_forms.specs.Forms.{point_value};
ghost use Rattle.leaf_value.specs.Blocked.{is_blocked};
ghost use Rattle.leaf_value.specs.LeafValue.{are_contradictory, dual_value_of, leaf_value_of};
ghost use Rattle.leaf_value.specs.Scales.{AreScalesOf};
ghost use Rattle.dossier_check.specs.Frames.{setting_of};
ghost use Rattle.dossier_check.specs.NodeReasons.{reason, terms_reasons, dual_reasons, leaf_reasons};
ghost use Rattle.dossier_check.specs.inside.Tests.{Tests};

use crate::entries::{Entries, entries_of};
use crate::reasons::{DEAD, LIMITS, POINT, VOID};
use crate::verdict::{Reason, Refusal};
use dossier_text::Dossier;
use dual_bound::Guess;
use item_lists::expect;
use leaf_value::{Scales, contradicts, dual_value, is_blocked};
use limits::MOST_MULTIPLIER;
use plant_model::Plant;
use slot_box::{Leaf, SlotBox, Term};
use slot_forms::point_value;
use std::alloc::Global;

/// Tests a dead leaf in this line, which says that no form that is sought begins with the first slots of its box.
fn check_dead(
    alloc: Global,
    plant: &Plant,
    scales: &Scales,
    line: u32,
    bx: &SlotBox,
    at: u32,
) -> Result<(), Refusal>
    requires { AreScalesOf plant.now (length bx.now) scales.now }
    ensures { Tests (unless (is_blocked (plain plant.now (length bx.now)) bx.now at) (reason 7 line)) result }
{
    let blocked = is_blocked(alloc, plant, &scales.automaton, bx, at)?;
    expect(blocked, Reason::at(DEAD, line))?;
    Ok(())
}

/// Tests a leaf in this line that is to show by its entries that its box has no form.
#[tactic(auto, using(item_lists::proofs::FaultLaws::first_fault))]
fn check_void(
    alloc: Global,
    plant: &Plant,
    dossier: &Dossier,
    scales: &Scales,
    line: u32,
    bx: &SlotBox,
    terms: &[Term],
) -> Result<(), Refusal>
    requires scales { AreScalesOf plant.now dossier.now.slots scales.now }
    requires slots { dossier.now.slots ≤ MOST_SLOTS }
    requires sized { length bx.now ≡ dossier.now.slots }
    requires few { length terms.now ≤ MOST_ROWS }
    ensures { let setting = setting_of plant.now dossier.now in
        Tests (terms_reasons setting line terms.now
        ++ unless (are_contradictory setting bx.now terms.now) (reason 14 line)) result }
{
    let Entries { rows, multipliers } = entries_of(alloc, plant, dossier, scales, line, terms)?;
    let guess = Guess {
        y: multipliers,
        q: 1,
    };
    let empty = contradicts(alloc, plant, bx, &rows, &guess)?;
    expect(empty, Reason::at(VOID, line))?;
    Ok(())
}

/// The value of a leaf in this line that has one by its entries.
#[tactic(auto, using(item_lists::proofs::FaultLaws::first_fault), unfolding(crate::specs::NodeReasons::dual_reasons, leaf_value::specs::LeafValue::dual_value_of))]
fn value_of_dual(
    alloc: Global,
    plant: &Plant,
    dossier: &Dossier,
    scales: &Scales,
    line: u32,
    bx: &SlotBox,
    q: u64,
    terms: &[Term],
) -> Result<i128, Refusal>
    requires scales { AreScalesOf plant.now dossier.now.slots scales.now }
    requires slots { dossier.now.slots ≤ MOST_SLOTS }
    requires sized { length bx.now ≡ dossier.now.slots }
    requires few { length terms.now ≤ MOST_ROWS }
    ensures reasons { Tests (dual_reasons (setting_of plant.now dossier.now) line q terms.now) result }
    ensures value { IfOk result (λ value. value ≡ dual_value_of (setting_of plant.now dossier.now) bx.now q terms.now) }
{
    expect(1 <= q && q <= MOST_MULTIPLIER, Reason::at(LIMITS, line))?;
    let Entries { rows, multipliers } = entries_of(alloc, plant, dossier, scales, line, terms)?;
    let guess = Guess { y: multipliers, q };
    Ok(dual_value(alloc, plant, scales, bx, &rows, &guess)?)
}

/// The value of a leaf in this line whose box is to have one point: the margin of its word, where that is a plan.
fn value_of_point(
    alloc: Global,
    plant: &Plant,
    line: u32,
    bx: &SlotBox,
) -> Result<Option<i128>, Refusal>
    ensures reasons { Tests (unless (points_of bx.now == 1) (reason 8 line)) result }
    ensures value { IfOk result (λ value. value ≡ point_value (plain plant.now (length bx.now)) (only_point bx.now)) }
{
    expect(bx.is_point(), Reason::at(POINT, line))?;
    let found = point_value(alloc, plant, bx)?;
    Ok(found.map(|planned| i128::from(planned.margin)))
}

/// The value of a leaf in this line over its box, where it has one.
#[tactic(auto, unfolding(crate::specs::NodeReasons::leaf_reasons))]
pub(crate) fn value_of_leaf(
    alloc: Global,
    plant: &Plant,
    dossier: &Dossier,
    scales: &Scales,
    line: u32,
    bx: &SlotBox,
    leaf: &Leaf,
) -> Result<Option<i128>, Refusal>
    requires scales { AreScalesOf plant.now dossier.now.slots scales.now }
    requires slots { dossier.now.slots ≤ MOST_SLOTS }
    requires sized { length bx.now ≡ dossier.now.slots }
    requires numbers { IsLeafInRange leaf.now }
    ensures reasons { Tests (leaf_reasons (setting_of plant.now dossier.now) line bx.now leaf.now) result }
    ensures value { IfOk result (λ value. value ≡ leaf_value_of (setting_of plant.now dossier.now) bx.now leaf.now) }
{
    match leaf {
        Leaf::Dead { at } => {
            check_dead(alloc, plant, scales, line, bx, *at)?;
            Ok(None)
        }
        Leaf::Void { terms } => {
            check_void(alloc, plant, dossier, scales, line, bx, terms.as_slice())?;
            Ok(None)
        }
        Leaf::Dual { q, terms } | Leaf::Undone { q, terms } => Ok(Some(value_of_dual(
            alloc,
            plant,
            dossier,
            scales,
            line,
            bx,
            *q,
            terms.as_slice(),
        )?)),
        Leaf::Point => value_of_point(alloc, plant, line, bx),
    }
}
