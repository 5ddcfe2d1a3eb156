ghost use Rattle.std.specs.Prelude.{ℕ};
ghost use Rattle.leaf_value.specs.Settings.{plain_setting};
ghost use Rattle.search_node.specs.Laws.{LawfulEntriesAreThere, LowValuesContradict, PartsAreBelowTheWhole, PlansMayBeOffered};
ghost use Rattle.search_node.specs.Laws.{PointsAreBelowDuals, PointsAreTold, ZerosChangeNothing};

use dual_bound::dual_laws;
use leaf_value::leaf_laws;
use named_rows::named_row_laws;
use plant_model::Plant;
use replay_core::legal_plan_laws;
use row_forms::row_form_laws;
use slot_box::box_laws;
use slot_rows::slot_row_laws;

/// What is so of values over the boxes of a plant, for whoever reasons about them: a call does nothing and brings the
/// laws.
pub fn value_laws(plant: &Plant)
    ensures zeros { (n : ℕ) → ZerosChangeNothing (plain_setting plant.now n) }
    ensures low { (n : ℕ) → LowValuesContradict (plain_setting plant.now n) }
    ensures points { (n : ℕ) → PointsAreBelowDuals (plain_setting plant.now n) }
    ensures told { (n : ℕ) → PointsAreTold (plain_setting plant.now n) }
    ensures there { (n : ℕ) → LawfulEntriesAreThere (plain_setting plant.now n) }
    ensures parts { (n : ℕ) → PartsAreBelowTheWhole (plain_setting plant.now n) }
    ensures offers { PlansMayBeOffered plant.now }
{
    plant.sound();
    legal_plan_laws();
    box_laws();
    dual_laws();
    row_form_laws(plant);
    slot_row_laws(plant);
    named_row_laws(plant);
    leaf_laws(plant);
}
