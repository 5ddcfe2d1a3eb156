//! Rows by name.

ghost use Rattle.std.specs.Prelude.{◌≡◌, IfOk, IfSome};
ghost use Rattle.slot_rows.specs.SlotRows.{slot_inequality, slot_row_of};
ghost use Rattle.row_forms.specs.Fits.{IsFitRow, IsSmall};

use crate::families::{
    berth_row, choice_row, clique_row, idle_row, normal_row, rate_row, volume_row, window_row,
};
use crate::names::{
    is_berth_name, is_choice_name, is_clique_name, is_idle_name, is_normal_name, is_sided_name,
};
use linear_form::Row;
use overlap_graph::Masks;
use plant_model::Plant;
use row_forms::{Inequality, fit_row};
use slot_box::RowName;
use std::alloc::{AllocError, Global};

/// What the row of the name says, where it is one.
#[tactic(auto, unfolding(crate::specs::SlotRows::slot_inequality))]
fn inequality(
    alloc: Global,
    plant: &Plant,
    cliques: &[u64],
    n: u32,
    name: RowName,
) -> Result<Option<Inequality>, AllocError>
    ensures value { IfOk result (λ row. row ≡ slot_inequality plant.now cliques.now n name) }
    ensures small { IfOk result (λ row. IfSome row IsSmall) }
{
    plant.sound();
    let RowName { family, a, b, c, d } = name;
    let row = match family {
        1 if is_choice_name(n, name) => choice_row(alloc, a.into(), b)?,
        2 if is_sided_name(2, plant, n, name) => volume_row(alloc, plant, a.into(), b as u8, c)?,
        3 if is_sided_name(2, plant, n, name) => rate_row(alloc, plant, a.into(), b as u8, c)?,
        4 if is_sided_name(3, plant, n, name) => window_row(alloc, plant, a.into(), b as u8, c)?,
        8 if is_clique_name(cliques, n, name) => {
            clique_row(alloc, plant, cliques[usize::from(a)], b.into(), c.into())?
        }
        13 if is_normal_name(plant, n, name) => normal_row(alloc, a.into(), b as u8, c as u8)?,
        14 if is_idle_name(n, name) => idle_row(alloc, a.into())?,
        15 if is_berth_name(plant, n, name) => {
            berth_row(alloc, a.into(), b.into(), c as u8, d as u8)?
        }
        _ => return Ok(None),
    };
    Ok(Some(row))
}

/// The row on slots and operations of the name, or none where the name is none of these, of the plant, its cliques and
/// n slots.
#[tactic(auto, unfolding(crate::specs::SlotRows::slot_row_of))]
pub fn slot_row(
    alloc: Global,
    plant: &Plant,
    cliques: &Masks,
    n: u32,
    name: RowName,
) -> Result<Option<Row>, AllocError>
    ensures value { IfOk result (λ row. row ≡ slot_row_of plant.now cliques.now n name) }
    ensures fits { IfOk result (λ row. IfSome row (IsFitRow plant.now n)) }
{
    match inequality(alloc, plant, cliques.as_slice(), n, name)? {
        Some(inequality) => Ok(Some(fit_row(alloc, plant, n, &inequality)?)),
        None => Ok(None),
    }
}
