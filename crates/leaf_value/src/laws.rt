ghost use Rattle.std.specs.Prelude.{◌≡◌, List, length};
ghost use Rattle.slot_box.specs.Boxes.{IsBox};
ghost use Rattle.slot_forms.specs.Cases.{root_box};
ghost use Rattle.leaf_value.specs.Settings.{Setting};
ghost use Rattle.leaf_value.specs.LeafValue.{LeavesReachForms};
ghost use Rattle.leaf_value.specs.TreeValue.{TreeBoundsAreTrue};

use named_rows::named_row_laws;
use plant_model::Plant;
use slot_box::{box_laws, tree_laws};
use slot_forms::form_laws;

/// What is so of the leaves of search trees over cases of the plant, and of their bounds, for whoever reasons about
/// them: a call does nothing and brings the laws.
pub fn leaf_laws(plant: &Plant)
    ensures leaves { (setting : Setting) → setting.case.parts ≡ plant.now → LeavesReachForms setting }
    ensures bounds { (setting : Setting) → setting.case.parts ≡ plant.now → IsBox (root_box setting.case)
        → length (root_box setting.case) ≡ setting.case.slots → TreeBoundsAreTrue setting }
{
    box_laws();
    tree_laws();
    form_laws(plant);
    named_row_laws(plant);
}
