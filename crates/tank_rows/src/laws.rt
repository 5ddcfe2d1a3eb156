ghost use Rattle.tank_rows.specs.Laws.{TankRowsHold};

use plant_model::Plant;

/// What is so of these rows, for whoever bounds margins by them: a call does nothing and brings the law.
pub fn tank_row_laws(plant: &Plant)
    ensures { TankRowsHold plant.now }
{
    plant.sound();
}
