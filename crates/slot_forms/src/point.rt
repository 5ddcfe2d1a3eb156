ghost use Rattle.std.specs.Prelude.{◌≡◌, ◌≤◌, length, if◌then◌else◌, IfOk, IfSome, MatchOption, option_map};
ghost use Rattle.limits.specs.declared.TheConstants.{MOST_SLOTS};
ghost use Rattle.replay_core.specs.Claim.{IsPlanOf};
ghost use Rattle.slot_box.specs.Boxes.{HasOnePoint, slot_at, only_entry, only_point};
ghost use Rattle.slot_box.specs.Entries.{idle};
ghost use Rattle.slot_words.specs.ByStart.{IsByStart};
ghost use Rattle.slot_forms.specs.Cases.{plain};
ghost use Rattle.slot_forms.specs.Forms.{word_of, is_form, entry_of, point_value};

use plant_model::Plant;
use replay_core::{Plan, Planned, ReplayFault, Timed};
use slot_box::SlotBox;
use slot_words::{Word, by_start, slot_replay};
use std::alloc::{AllocError, Global};

/// The value of the one point of a box, where it has one, with its plan: the operations by their starts.
#[tactic(auto, using(crate::proofs::FormLaws::sorted_count))]
pub fn point_value(
    alloc: Global,
    plant: &Plant,
    bx: &SlotBox,
) -> Result<Option<Planned>, AllocError>
    requires { HasOnePoint bx.now }
    ensures value { IfOk result (λ found. option_map (λ planned. planned.margin) found
        ≡ point_value (plain plant.now (length bx.now)) (only_point bx.now)) }
    ensures point { IfOk result (λ found. IfSome found (λ planned.
        IsByStart (word_of (only_point bx.now)) planned.plan)) }
    ensures plan { IfOk result (λ found. IfSome found (λ planned.
        IsPlanOf plant.now (length bx.now) planned.margin planned.plan)) }
{
    let Some(word) = only_word(alloc, bx)? else {
        return Ok(None);
    };
    match slot_replay(alloc, plant, &word) {
        Ok(outcome) => Ok(Some(Planned {
            plan: Plan::from_vec(by_start(plant, word)?.into_vec()),
            margin: outcome.margin,
        })),
        Err(ReplayFault::Rule(_)) => Ok(None),
        Err(ReplayFault::Memory) => Err(AllocError),
    }
}

/// The word of the one point of a box, where the point is a slot form.
fn only_word(alloc: Global, bx: &SlotBox) -> Result<Option<Word>, AllocError>
    ensures value { IfOk result
        (λ found. found ≡ (if is_form (only_point bx.now) then Some (word_of (only_point bx.now)) else None)) }
    ensures short { IfOk result (λ found. IfSome found (λ steps. length steps ≤ length bx.now)) }
    ensures few { length bx.now ≤ MOST_SLOTS }
{
    let mut steps = Plan::new(alloc);
    let mut ended = false;
    for i in 0..bx.len() {
        match only_step(bx, i + 1) {
            None => ended = true,
            Some(_) if ended => return Ok(None),
            Some(step) => steps.push(step).map_err(|_: Timed| AllocError)?,
        }
    }
    Ok(Some(Word::from_vec(steps.into_vec())))
}

/// The operation that the one point of a box has in the slot of this number, from 1.
fn only_step(bx: &SlotBox, i: u32) -> Option<Timed>
    requires from_one { 1 ≤ i }
    requires there { i ≤ length bx.now }
    ensures { MatchOption result (only_entry (slot_at bx.now i) ≡ idle) (λ step. only_entry (slot_at bx.now i)
        ≡ entry_of step) }
{
    let op = bx.fixed_at(i)?;
    let slot = bx.slot(i);
    Some(Timed {
        op,
        start: slot.start.lo,
        end: slot.end.lo,
        volume: slot.volume.lo,
    })
}
