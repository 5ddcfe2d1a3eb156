ghost use Rattle.slot_rows.specs.Fits.{LossesFit, PlainValuesFit};
ghost use Rattle.slot_rows.specs.Laws.{SlotRowsHold};

use plant_model::Plant;
use row_forms::row_form_laws;

/// What is so of these rows and of the objective, for whoever bounds margins by them: a call does nothing and brings
/// the laws.
pub fn slot_row_laws(plant: &Plant)
    ensures rows { SlotRowsHold plant.now }
    ensures plain { PlainValuesFit plant.now }
    ensures losses { LossesFit plant.now }
{
    plant.sound();
    row_form_laws(plant);
}
