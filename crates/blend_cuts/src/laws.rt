ghost use Rattle.blend_cuts.specs.Laws.{CutRowsHold};

use plant_model::Plant;

/// What is so of the rows of cuts, for whoever bounds margins by them: a call does nothing and brings the law.
pub fn cut_row_laws(plant: &Plant)
    ensures { CutRowsHold plant.now }
{
    plant.sound();
}
