ghost use Rattle.std.specs.Prelude.{◌≡◌, IfOk};
ghost use Rattle.row_forms.specs.Fits.{IsFitRow, IsSmall};
ghost use Rattle.row_forms.specs.Sizes.{HasSmallReach};
ghost use Rattle.row_forms.specs.Terms.{row_of};

use crate::Inequality;
use crate::laws::row_form_laws;
use crate::terms::build_terms;
use linear_form::Row;
use plant_model::Plant;
use std::alloc::{AllocError, Global};

/// The row that says of forms of n slots that the pieces are at most the right side.
pub fn build_row(
    alloc: Global,
    plant: &Plant,
    n: u32,
    inequality: &Inequality,
) -> Result<Row, AllocError>
    requires { HasSmallReach inequality.now.pieces }
    ensures { IfOk result (λ row. row ≡ row_of plant.now n inequality.now) }
{
    let terms = build_terms(alloc, plant, n, inequality.pieces.as_slice())?;
    Row::new(alloc, terms.as_slice(), inequality.right)
}

/// The row of a few small pieces, which can be weighed against others.
pub fn fit_row(
    alloc: Global,
    plant: &Plant,
    n: u32,
    inequality: &Inequality,
) -> Result<Row, AllocError>
    requires { IsSmall inequality.now }
    ensures value { IfOk result (λ row. row ≡ row_of plant.now n inequality.now) }
    ensures fits { IfOk result (IsFitRow plant.now n) }
{
    row_form_laws(plant);
    build_row(alloc, plant, n, inequality)
}
