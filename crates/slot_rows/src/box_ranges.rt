//! The ranges of a box, column by column.

ghost use Rattle.std.specs.Prelude.{◌≡◌, ℕ, ◌+◌, ◌<◌, ◌≤◌, length, IfOk};
ghost use Rattle.linear_form.specs.declared.column.Column.{Column};
ghost use Rattle.linear_form.specs.declared.column.Part.{Part};
ghost use Rattle.linear_form.specs.declared.column.Part.TheVariants.{A};
ghost use Rattle.linear_form.specs.Columns.{IsColumn};
ghost use Rattle.plant_model.specs.Parts.{op_count_of, crude_count_of};
ghost use Rattle.linear_form.specs.Listed.{column_of, vessel_column};
ghost use Rattle.row_forms.specs.Columns.{extent_of};
ghost use Rattle.slot_rows.specs.Fits.{WeighFitRows, WeighFitTerms};
ghost use Rattle.slot_rows.specs.Ranges.{ranges_of};
ghost use Rattle.slot_rows.specs.inside.Given.{IsGiven, AreOfBox, KeepsGiven, IsOperationGiven, IsSlotGiven};

use crate::gains::vessel_count;
use crate::spans::column_span;
use linear_form::{Column, IDLE_ENTRY, Part, Ranges, column_laws};
use plant_model::Plant;
use row_forms::row_form_laws;
use slot_box::SlotBox;
use std::alloc::{AllocError, Global};

fn column_of(slot: u32, entry: u8, part: Part) -> Column
    ensures { result ≡ column_of slot entry part }
{
    Column { slot, entry, part }
}

/// Gives a column its range.
fn set_column(plant: &Plant, bx: &SlotBox, column: Column, ranges: &mut Ranges)
    requires there { IsColumn (extent_of plant.now (length bx.now)) column }
    requires extent { AreOfBox plant.now bx.now ranges.old }
    ensures kept { KeepsGiven plant.now bx.now ranges.old ranges.new }
    ensures given { IsGiven plant.now bx.now ranges.new column }
{
    column_laws();
    let span = column_span(plant, bx, column);
    ranges.set(column, span.lo.into(), span.hi.into());
}

/// Gives what an operation draws of each crude its range.
fn set_amounts(plant: &Plant, bx: &SlotBox, slot: u32, v: u8, ranges: &mut Ranges)
    requires some { 1 ≤ slot }
    requires slot { slot ≤ length bx.now }
    requires op { v < op_count_of plant.now }
    requires extent { AreOfBox plant.now bx.now ranges.old }
    ensures kept { KeepsGiven plant.now bx.now ranges.old ranges.new }
    ensures given { (c : ℕ) → c < crude_count_of plant.now
        → IsGiven plant.now bx.now ranges.new (column_of slot v (A c)) }
{
    for crude in 0..plant.crude_count() {
        set_column(plant, bx, column_of(slot, v, Part::A(crude)), ranges);
    }
}

/// Gives the columns of an operation in a slot their ranges.
fn set_operation(plant: &Plant, bx: &SlotBox, slot: u32, v: u8, ranges: &mut Ranges)
    requires some { 1 ≤ slot }
    requires slot { slot ≤ length bx.now }
    requires op { v < op_count_of plant.now }
    requires extent { AreOfBox plant.now bx.now ranges.old }
    ensures kept { KeepsGiven plant.now bx.now ranges.old ranges.new }
    ensures given { IsOperationGiven plant.now bx.now ranges.new slot v }
{
    set_column(plant, bx, column_of(slot, v, Part::Z), ranges);
    set_column(plant, bx, column_of(slot, v, Part::S), ranges);
    set_column(plant, bx, column_of(slot, v, Part::E), ranges);
    set_amounts(plant, bx, slot, v, ranges);
}

/// Gives the columns of all operations in a slot their ranges.
fn set_operations(plant: &Plant, bx: &SlotBox, slot: u32, ranges: &mut Ranges)
    requires some { 1 ≤ slot }
    requires slot { slot ≤ length bx.now }
    requires extent { AreOfBox plant.now bx.now ranges.old }
    ensures kept { KeepsGiven plant.now bx.now ranges.old ranges.new }
    ensures given { (v : ℕ) → v < op_count_of plant.now → IsOperationGiven plant.now bx.now ranges.new slot v }
{
    for v in 0..plant.op_count() {
        set_operation(plant, bx, slot, v, ranges);
    }
}

/// Gives the columns of a slot their ranges.
fn set_slot(plant: &Plant, bx: &SlotBox, slot: u32, ranges: &mut Ranges)
    requires some { 1 ≤ slot }
    requires slot { slot ≤ length bx.now }
    requires extent { AreOfBox plant.now bx.now ranges.old }
    ensures kept { KeepsGiven plant.now bx.now ranges.old ranges.new }
    ensures given { IsSlotGiven plant.now bx.now ranges.new slot }
{
    set_column(plant, bx, column_of(slot, IDLE_ENTRY, Part::Z), ranges);
    set_operations(plant, bx, slot, ranges);
}

/// Gives the columns of all slots their ranges.
fn set_slots(plant: &Plant, bx: &SlotBox, ranges: &mut Ranges)
    requires extent { AreOfBox plant.now bx.now ranges.old }
    ensures kept { KeepsGiven plant.now bx.now ranges.old ranges.new }
    ensures given { (k : ℕ) → k < length bx.now → IsSlotGiven plant.now bx.now ranges.new (k + 1) }
{
    for k in 0..bx.len() {
        set_slot(plant, bx, k + 1, ranges);
    }
}

/// Gives what vessels may wait its range.
fn set_waits(plant: &Plant, bx: &SlotBox, ranges: &mut Ranges)
    requires extent { AreOfBox plant.now bx.now ranges.old }
    ensures kept { KeepsGiven plant.now bx.now ranges.old ranges.new }
    ensures given { (p : ℕ) → p < length plant.now.vessels
        → IsGiven plant.now bx.now ranges.new (vessel_column p) }
{
    for p in 0..vessel_count(plant) {
        set_column(plant, bx, column_of(0, p, Part::W), ranges);
    }
}

/// The ranges that the box gives the columns of its forms.
pub fn ranges(alloc: Global, plant: &Plant, bx: &SlotBox) -> Result<Ranges, AllocError>
    ensures value { IfOk result (λ ranges. ranges ≡ ranges_of plant.now bx.now) }
    ensures rows { IfOk result (WeighFitRows plant.now (length bx.now)) }
    ensures objectives { IfOk result (WeighFitTerms plant.now (length bx.now)) }
{
    plant.sound();
    row_form_laws(plant);
    let mut ranges = Ranges::new(
        alloc,
        bx.len(),
        plant.op_count(),
        plant.crude_count(),
        vessel_count(plant),
    )?;
    set_slots(plant, bx, &mut ranges);
    set_waits(plant, bx, &mut ranges);
    let _ends = ranges.ends();
    Ok(ranges)
}
