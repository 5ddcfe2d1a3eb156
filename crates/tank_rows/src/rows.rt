//! Rows by name.

ghost use Rattle.std.specs.Prelude.{◌≡◌, IfOk, IfSome};
ghost use Rattle.row_forms.specs.Fits.{IsFitRow, IsSmall};
ghost use Rattle.tank_rows.specs.TankRows.{tank_inequality, tank_row_of};

use crate::families::{
    amount_row, charges_row, demand_row, emptied_row, limit_row, minutes_row, total_row, wait_row,
};
use crate::names::{
    is_amount_name, is_charges_name, is_demand_name, is_emptied_name, is_limit_name,
    is_minutes_name, is_total_name, is_wait_name,
};
use linear_form::Row;
use plant_model::Plant;
use row_forms::{Inequality, fit_row};
use slot_box::RowName;
use std::alloc::{AllocError, Global};

/// What the row of the name says, where it is one.
#[tactic(auto, unfolding(crate::specs::TankRows::tank_inequality))]
fn inequality(
    alloc: Global,
    plant: &Plant,
    n: u32,
    name: RowName,
) -> Result<Option<Inequality>, AllocError>
    ensures value { IfOk result (λ row. row ≡ tank_inequality plant.now n name) }
    ensures small { IfOk result (λ row. IfSome row IsSmall) }
{
    plant.sound();
    let RowName { family, a, b, c, d } = name;
    let row = match family {
        5 if is_total_name(plant, n, name) => total_row(alloc, plant, a as u8, b.into(), c)?,
        6 if is_amount_name(plant, n, name) => amount_row(
            alloc,
            plant,
            a as u8,
            b.into(),
            c as u8,
        )?,
        7 if is_limit_name(plant, n, name) => limit_row(
            alloc,
            plant,
            a.into(),
            b as u8,
            c as u8,
            d,
        )?,
        9 if is_demand_name(plant, name) => demand_row(alloc, plant, n, a as u8, b)?,
        10 if is_emptied_name(plant, name) => emptied_row(alloc, plant, n, a as u8, b as u8)?,
        11 if is_minutes_name(plant, name) => minutes_row(alloc, plant, n, a as u8, b)?,
        12 if is_charges_name(plant, name) => charges_row(alloc, plant, n, a as u8, b)?,
        16 if is_wait_name(plant, n, name) => wait_row(alloc, plant, a as u8, b.into())?,
        _ => return Ok(None),
    };
    Ok(Some(row))
}

/// The row on places and crudes of the name, or none where the name is none of these, of the plant and of n slots.
pub fn tank_row(
    alloc: Global,
    plant: &Plant,
    n: u32,
    name: RowName,
) -> Result<Option<Row>, AllocError>
    ensures value { IfOk result (λ row. row ≡ tank_row_of plant.now n name) }
    ensures fits { IfOk result (λ row. IfSome row (IsFitRow plant.now n)) }
{
    match inequality(alloc, plant, n, name)? {
        Some(inequality) => Ok(Some(fit_row(alloc, plant, n, &inequality)?)),
        None => Ok(None),
    }
}
