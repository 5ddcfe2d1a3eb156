ghost use Rattle.named_rows.specs.Laws.{FormsLieInRanges, ObjectivesAreMargins, DualValuesBoundMargins, EmptyBoxesHaveNoForm, PartsHaveNarrowerRanges};

use blend_cuts::cut_row_laws;
use overlap_graph::clique_laws;
use plant_model::Plant;
use row_forms::row_form_laws;
use slot_box::box_laws;
use slot_rows::slot_row_laws;
use tank_rows::tank_row_laws;

/// What rows, named ones and those of cuts, say of the forms in a box: a call does nothing and brings the laws.
pub fn named_row_laws(plant: &Plant)
    ensures ranges { FormsLieInRanges plant.now }
    ensures objective { ObjectivesAreMargins plant.now }
    ensures bounds { DualValuesBoundMargins plant.now }
    ensures empty { EmptyBoxesHaveNoForm plant.now }
    ensures splits { PartsHaveNarrowerRanges plant.now }
{
    plant.sound();
    box_laws();
    clique_laws(plant);
    row_form_laws(plant);
    slot_row_laws(plant);
    tank_row_laws(plant);
    cut_row_laws(plant);
}
