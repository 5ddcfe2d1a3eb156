//! Whether a task may be examined. Nothing that a worker knows of a deck says so, so each task is tested.

ghost use Rattle.std.specs.Prelude.{◌^◌, ◌<◌, ◌≤◌, ◌↔◌, IsTrue};
ghost use Rattle.limits.specs.declared.TheConstants.{MOST_OPERATIONS};
ghost use Rattle.plant_model.specs.Parts.{greatest_volume_of, horizon_of, op_count_of};
ghost use Rattle.slot_box.specs.Boxes.{IsSlotOfRoot, IsWithinRoot};
ghost use Rattle.slot_box.specs.Slots.{operations_of};
ghost use Rattle.search_node.specs.Looks.{IsTaskOf};

use plant_model::Plant;
use slot_box::{IDLE, Slot, SlotBox, Task};

/// Whether the operations of a slot are among so many.
fn has_operations_of(slot: Slot, ops: u8) -> bool
    requires { ops ≤ MOST_OPERATIONS }
    ensures { IsTrue result ↔ operations_of slot < 2 ^ ops }
{
    slot.ops & !IDLE < 1 << ops
}

/// Whether a slot lies within those of the root box.
fn is_slot_of_root(plant: &Plant, slot: Slot) -> bool
    ensures { IsTrue result ↔
        IsSlotOfRoot (op_count_of plant.now) (greatest_volume_of plant.now) (horizon_of plant.now) slot }
{
    has_operations_of(slot, plant.op_count())
        && slot.volume.hi <= plant.greatest_volume()
        && slot.start.hi <= plant.horizon()
        && slot.end.hi <= plant.horizon()
}

/// Whether each slot of a box does.
fn is_within_root(plant: &Plant, bx: &SlotBox) -> bool
    ensures { IsTrue result ↔
        IsWithinRoot (op_count_of plant.now) (greatest_volume_of plant.now) (horizon_of plant.now) bx.now }
{
    for i in 0..bx.len() {
        if !is_slot_of_root(plant, bx.slot(i + 1)) {
            return false;
        }
    }
    true
}

/// Whether the task's box has so many slots and lies within the root box.
pub(crate) fn is_task_of(plant: &Plant, n: u32, task: &Task) -> bool
    ensures { IsTrue result ↔ IsTaskOf plant.now n task.now }
{
    task.bx().len() == n && is_within_root(plant, task.bx())
}
