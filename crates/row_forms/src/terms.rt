ghost use Rattle.std.specs.Prelude.{◌≡◌, ◌+◌, [], ◌∷◌, ◌++◌, length, OnOk, IfOk};
ghost use Rattle.linear_form.specs.Rows.{HasEachOnce};
ghost use Rattle.plant_model.specs.Parts.{op_count_of, crude_count_of};
ghost use Rattle.linear_form.specs.Listed.{column_of, vessel_column, amount_columns, operation_columns, columns_of_slot};
ghost use Rattle.item_lists.specs.Joined.{joined_below};
ghost use Rattle.row_forms.specs.Sizes.{HasSmallReach};
ghost use Rattle.row_forms.specs.Terms.{piece_terms, terms_of};

use crate::Piece;
use crate::factors::{factor_at, reach_entry, reach_slot};
use item_lists::Items;
use linear_form::{Column, IDLE_ENTRY, Part, RowTerm, RowTerms};
use plant_model::Plant;
use std::alloc::{AllocError, Global};

fn column_of(slot: u32, entry: u8, part: Part) -> Column
    ensures { result ≡ column_of slot entry part }
{
    Column { slot, entry, part }
}

/// Adds the term of a column, where it has a factor.
fn push_column(
    plant: &Plant,
    pieces: &[Piece],
    column: Column,
    terms: &mut Vec<RowTerm>,
) -> Result<(), AllocError>
    requires { HasSmallReach pieces.now }
    ensures { OnOk result (terms.new.items ≡
        terms.old.items ++ piece_terms plant.now pieces.now (column ∷ [])) }
{
    let factor = factor_at(plant, pieces, column);
    if factor != 0 {
        terms.push(RowTerm { column, factor })?;
    }
    Ok(())
}

/// Adds the terms of what operation v draws in a slot.
fn push_amounts(
    plant: &Plant,
    pieces: &[Piece],
    slot: u32,
    v: u8,
    terms: &mut Vec<RowTerm>,
) -> Result<(), AllocError>
    requires { HasSmallReach pieces.now }
    ensures { OnOk result (terms.new.items ≡ terms.old.items
        ++ piece_terms plant.now pieces.now (amount_columns (crude_count_of plant.now) slot v)) }
{
    for crude in 0..plant.crude_count() {
        push_column(plant, pieces, column_of(slot, v, Part::A(crude)), terms)?;
    }
    Ok(())
}

/// Adds the terms of operation v in a slot.
fn push_operation(
    plant: &Plant,
    pieces: &[Piece],
    slot: u32,
    v: u8,
    terms: &mut Vec<RowTerm>,
) -> Result<(), AllocError>
    requires { HasSmallReach pieces.now }
    ensures { OnOk result (terms.new.items ≡ terms.old.items
        ++ piece_terms plant.now pieces.now (operation_columns (crude_count_of plant.now) slot v)) }
{
    if !reach_entry(plant, pieces, slot, v) {
        return Ok(());
    }
    push_column(plant, pieces, column_of(slot, v, Part::Z), terms)?;
    push_column(plant, pieces, column_of(slot, v, Part::S), terms)?;
    push_column(plant, pieces, column_of(slot, v, Part::E), terms)?;
    push_amounts(plant, pieces, slot, v, terms)
}

/// Adds the terms of all operations in a slot.
fn push_operations(
    plant: &Plant,
    pieces: &[Piece],
    slot: u32,
    terms: &mut Vec<RowTerm>,
) -> Result<(), AllocError>
    requires { HasSmallReach pieces.now }
    ensures { OnOk result (terms.new.items ≡ terms.old.items
        ++ piece_terms plant.now pieces.now
        (joined_below (op_count_of plant.now) (operation_columns (crude_count_of plant.now) slot))) }
{
    for v in 0..plant.op_count() {
        push_operation(plant, pieces, slot, v, terms)?;
    }
    Ok(())
}

/// Adds the terms of a slot, of which there are none where no piece has it.
fn push_slot(
    plant: &Plant,
    pieces: &[Piece],
    slot: u32,
    terms: &mut Vec<RowTerm>,
) -> Result<(), AllocError>
    requires { HasSmallReach pieces.now }
    ensures { OnOk result (terms.new.items ≡ terms.old.items
        ++ piece_terms plant.now pieces.now (columns_of_slot (op_count_of plant.now) (crude_count_of plant.now) slot)) }
{
    if !reach_slot(pieces, slot) {
        return Ok(());
    }
    push_column(plant, pieces, column_of(slot, IDLE_ENTRY, Part::Z), terms)?;
    push_operations(plant, pieces, slot, terms)
}

/// Adds the terms of the first n slots.
fn push_slots(
    plant: &Plant,
    pieces: &[Piece],
    n: u32,
    terms: &mut Vec<RowTerm>,
) -> Result<(), AllocError>
    requires { HasSmallReach pieces.now }
    ensures { OnOk result (terms.new.items ≡ terms.old.items
        ++ piece_terms plant.now pieces.now
        (joined_below n (λ k. columns_of_slot (op_count_of plant.now) (crude_count_of plant.now) (k + 1)))) }
{
    for k in 0..n {
        push_slot(plant, pieces, k + 1, terms)?;
    }
    Ok(())
}

/// How many vessels the plant has.
fn vessel_count(plant: &Plant) -> u8
    ensures { result ≡ length plant.now.vessels }
{
    plant.sound();
    plant.as_parts().vessels.as_slice().len() as u8
}

/// Adds the terms of the vessels.
fn push_waits(plant: &Plant, pieces: &[Piece], terms: &mut Vec<RowTerm>) -> Result<(), AllocError>
    requires { HasSmallReach pieces.now }
    ensures { OnOk result (terms.new.items ≡ terms.old.items
        ++ piece_terms plant.now pieces.now (joined_below (length plant.now.vessels) (λ p. vessel_column p ∷ []))) }
{
    for p in 0..vessel_count(plant) {
        push_column(plant, pieces, column_of(0, p, Part::W), terms)?;
    }
    Ok(())
}

/// The terms of the pieces over the forms of n slots, in the order of slots, entries and parts, the vessels' last.
/// Slots and entries that no piece takes are passed over.
pub fn build_terms(
    alloc: Global,
    plant: &Plant,
    n: u32,
    pieces: &[Piece],
) -> Result<RowTerms, AllocError>
    requires { HasSmallReach pieces.now }
    ensures value { IfOk result (λ terms. terms ≡ terms_of plant.now n pieces.now) }
    ensures once { IfOk result (λ terms. HasEachOnce terms) }
{
    plant.sound();
    let mut terms: Vec<RowTerm> = Vec::new(alloc);
    push_slots(plant, pieces, n, &mut terms)?;
    push_waits(plant, pieces, &mut terms)?;
    Ok(Items::from_vec(terms))
}
