//! The plan with which a search begins.

ghost use Rattle.std.specs.Prelude.{◌≡◌, ◌<◌, ◌≤◌, All, IfOk};
ghost use Rattle.limits.specs.declared.TheConstants.{MOST_SLOTS};
ghost use Rattle.plant_model.specs.Parts.{op_count_of};
ghost use Rattle.greedy_plan.specs.Greedy.{all_operations};
ghost use Rattle.plan_build.specs.Built.{IsBuilt};

use item_lists::Copies;
use plan_build::{Hint, build_within};
use plant_model::Plant;
use replay_core::Planned;
use std::alloc::{AllocError, Global};

/// How many operations are decoded for it, for each slot.
const SLOT_WORK: u32 = 40_000;

/// All operations of the plant, in rising number.
fn every_operation(alloc: Global, plant: &Plant) -> Result<Vec<u8>, AllocError>
    ensures all { IfOk result (λ ops. ops.items ≡ all_operations plant.now) }
    ensures known { IfOk result (λ ops. All (λ v. v < op_count_of plant.now) ops.items) }
{
    let mut ops = Vec::new(alloc);
    for v in 0..plant.op_count() {
        ops.push(v)?;
    }
    Ok(ops)
}

/// A better plan than the greedy one of all operations, or that one, where it is legal.
pub(crate) fn first_plan(
    alloc: Global,
    plant: &Plant,
    slots: u32,
) -> Result<Option<Planned>, AllocError>
    requires { slots ≤ MOST_SLOTS }
    ensures { IfOk result (IsBuilt plant.now slots (all_operations plant.now)) }
{
    let hint = Hint {
        ops: Copies::from_vec(every_operation(alloc, plant)?),
    };
    build_within(alloc, plant, slots, &hint, SLOT_WORK.saturating_mul(slots))
}
