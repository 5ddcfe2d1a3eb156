ghost use Rattle.std.specs.Prelude.{◌≡◌, ◌≤◌, IfOk};
ghost use Rattle.limits.specs.declared.TheConstants.{MOST_SLOTS};
ghost use Rattle.slot_box.specs.Boxes.{IsBox};
ghost use Rattle.slot_forms.specs.Cases.{plain, root_box};

use plant_model::Plant;
use slot_box::SlotBox;
use std::alloc::{AllocError, Global};

/// The box with all plans of a plain case: those of the plant with at most as many operations as slots.
pub fn root_box(alloc: Global, plant: &Plant, slots: u32) -> Result<SlotBox, AllocError>
    requires some { 1 ≤ slots }
    requires most { slots ≤ MOST_SLOTS }
    ensures value { IfOk result (λ root. root ≡ root_box (plain plant.now slots)) }
    ensures shape { IfOk result IsBox }
{
    plant.sound();
    let root = SlotBox::root(
        alloc,
        slots,
        plant.op_count(),
        plant.greatest_volume(),
        plant.horizon(),
    )?;
    // a box keeps its limits
    let _ = root.len();
    Ok(root)
}
