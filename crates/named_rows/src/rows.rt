ghost use Rattle.std.specs.Prelude.{◌≡◌, IfOk, IfSome};
ghost use Rattle.overlap_graph.specs.Cliques.{cliques_of};
ghost use Rattle.named_rows.specs.NamedRows.{named_row_of};
ghost use Rattle.row_forms.specs.Fits.{IsFitRow};

use linear_form::Row;
use overlap_graph::Masks;
use plant_model::Plant;
use slot_box::RowName;
use slot_rows::slot_row;
use std::alloc::{AllocError, Global};
use tank_rows::tank_row;

/// The row of the name, of whichever family, or none where the name is of none, or none of the plant and of n slots.
#[tactic(auto, unfolding(crate::specs::NamedRows::named_row_of))]
pub fn named_row(
    alloc: Global,
    plant: &Plant,
    cliques: &Masks,
    n: u32,
    name: RowName,
) -> Result<Option<Row>, AllocError>
    requires { cliques.now ≡ cliques_of plant.now }
    ensures value { IfOk result (λ row. row ≡ named_row_of plant.now n name) }
    ensures fits { IfOk result (λ row. IfSome row (IsFitRow plant.now n)) }
{
    match slot_row(alloc, plant, cliques, n, name)? {
        Some(row) => Ok(Some(row)),
        None => tank_row(alloc, plant, n, name),
    }
}
