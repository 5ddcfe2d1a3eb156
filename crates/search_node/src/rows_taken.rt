//! Which rows the multipliers are looked for over.
//!
//! Free: any rows serve. Owed: that each stands under its name, and that there are no more of them than a leaf may
//! name.
//!
//! Rows over all slots come first, then those on single slots, then the finer ones, each as far as there is room. A row
//! that nothing within the ranges breaks is left out.

ghost use Rattle.std.specs.Prelude.{length, IfOk, OnOk};
ghost use Rattle.dual_bound.specs.Conditions.{AreColumns};
ghost use Rattle.linear_form.specs.Columns.{IsColumn};
ghost use Rattle.named_rows.specs.NamedRows.{IsNamed};
ghost use Rattle.row_forms.specs.Fits.{IsFitRow};
ghost use Rattle.search_node.specs.inside.Spans.{AreBlocks};
ghost use Rattle.search_node.specs.inside.Weighings.{IsWhole};
ghost use Rattle.search_node.specs.Tables.{IsBlockOf};

use crate::block::{RowBlock, copy_row};
use crate::weighing::Weighing;
use linear_form::{Ranges, Row, RowTerm};
use plant_model::Plant;
use slot_box::RowName;
use std::alloc::{AllocError, Global};

/// Rows of one kind are taken together.
#[derive(Clone, Copy, Debug, PartialEq, Eq)]
pub(crate) enum RowClass {
    /// Over all slots.
    Whole,
    /// On what one slot draws.
    Coarse,
    /// On the slots before one, and on the order of slots.
    Fine,
    /// On minutes, which seldom bind.
    Rare,
}

/// In this order they are taken.
const CLASSES: [RowClass; 4] = [
    RowClass::Whole,
    RowClass::Coarse,
    RowClass::Fine,
    RowClass::Rare,
];

/// Rows that are taken, stage by stage.
#[derive(Drop)]
pub(crate) struct TakenRows {
    pub block: RowBlock,
    /// How many of them each stage and those before it have.
    pub stages: Vec<usize>,
}

/// Whether the operation of this number, if there is one, charges a unit that has to be charged at every minute.
fn is_steady_charge(plant: &Plant, op: u16) -> bool {
    if op >= plant.op_count().into() {
        return false;
    }
    plant.sound();
    plant.place(plant.op(op as u8).to).continuous
}

/// The class of a row of forms of so many slots. How much flows in a minute binds where every minute counts.
pub(crate) fn class_of(plant: &Plant, name: RowName, n: u32) -> RowClass {
    match name.family {
        5 | 6 if u32::from(name.b) == n => RowClass::Whole,
        9 | 10 | 11 | 12 => RowClass::Whole,
        2 if name.c == 0 => RowClass::Coarse,
        1 | 7 | 16 => RowClass::Coarse,
        3 if is_steady_charge(plant, name.b) => RowClass::Coarse,
        2 | 5 | 6 | 13 | 14 | 15 => RowClass::Fine,
        _ => RowClass::Rare,
    }
}

/// The most that a term comes to within the ranges.
fn most_of_term(term: RowTerm, ranges: &Ranges) -> i128
    requires { IsColumn ranges.now.extent term.column }
{
    let (lo, hi) = ranges.get(term.column);
    let factor = i128::from(term.factor);
    let low = factor.saturating_mul(i128::from(lo));
    low.max(factor.saturating_mul(i128::from(hi)))
}

/// The most that terms come to.
fn most_of(terms: &[RowTerm], ranges: &Ranges) -> i128
    requires { AreColumns ranges.now.extent terms.now }
{
    let mut most: i128 = 0;
    for term in terms {
        most = most.saturating_add(most_of_term(*term, ranges));
    }
    most
}

/// Whether nothing within the ranges breaks the row.
fn is_loose(row: &Row, ranges: &Ranges) -> bool
    requires { AreColumns ranges.now.extent row.now.terms }
{
    most_of(row.terms(), ranges) <= i128::from(row.right())
}

/// Adds a row, where it may be broken and there is room.
fn take_row(
    alloc: Global,
    weighing: &Weighing,
    name: RowName,
    row: &Row,
    taken: &mut RowBlock,
) -> Result<(), AllocError>
    requires whole { IsWhole weighing.now }
    requires named { IsNamed weighing.now.plant.now (length weighing.now.bx.now) name row.now }
    requires fits { IsFitRow weighing.now.plant.now (length weighing.now.bx.now) row.now }
    requires taken { IsBlockOf weighing.now.plant.now (length weighing.now.bx.now) taken.old }
    ensures { OnOk result (IsBlockOf weighing.now.plant.now (length weighing.now.bx.now) taken.new) }
{
    if taken.is_full() || is_loose(row, weighing.ranges) {
        return Ok(());
    }
    taken.push(name, copy_row(alloc, row)?)
}

/// Adds the row that stands at a place of a block, likewise.
fn take_at(
    alloc: Global,
    weighing: &Weighing,
    block: &RowBlock,
    place: usize,
    taken: &mut RowBlock,
) -> Result<(), AllocError>
    requires whole { IsWhole weighing.now }
    requires block { IsBlockOf weighing.now.plant.now (length weighing.now.bx.now) block.now }
    requires taken { IsBlockOf weighing.now.plant.now (length weighing.now.bx.now) taken.old }
    ensures { OnOk result (IsBlockOf weighing.now.plant.now (length weighing.now.bx.now) taken.new) }
{
    let Some(name) = block.names.as_slice().get(place) else {
        return Ok(());
    };
    let Some(row) = block.rows.as_slice().get(place) else {
        return Ok(());
    };
    take_row(alloc, weighing, *name, row, taken)
}

/// Adds the rows of a block that are of a class, but for those that were taken first.
fn take_block(
    alloc: Global,
    weighing: &Weighing,
    block: &RowBlock,
    class: RowClass,
    first: &RowBlock,
    taken: &mut RowBlock,
) -> Result<(), AllocError>
    requires whole { IsWhole weighing.now }
    requires block { IsBlockOf weighing.now.plant.now (length weighing.now.bx.now) block.now }
    requires taken { IsBlockOf weighing.now.plant.now (length weighing.now.bx.now) taken.old }
    ensures { OnOk result (IsBlockOf weighing.now.plant.now (length weighing.now.bx.now) taken.new) }
{
    let n = weighing.bx.len();
    for (place, name) in block.names.as_slice().iter().enumerate() {
        if class_of(weighing.plant, *name, n) == class && first.find(*name).is_none() {
            take_at(alloc, weighing, block, place, taken)?;
        }
    }
    Ok(())
}

/// Likewise of several blocks.
fn take_blocks(
    alloc: Global,
    weighing: &Weighing,
    blocks: &[RowBlock],
    class: RowClass,
    first: &RowBlock,
    taken: &mut RowBlock,
) -> Result<(), AllocError>
    requires whole { IsWhole weighing.now }
    requires blocks { AreBlocks weighing.now.plant.now (length weighing.now.bx.now) blocks.now }
    requires taken { IsBlockOf weighing.now.plant.now (length weighing.now.bx.now) taken.old }
    ensures { OnOk result (IsBlockOf weighing.now.plant.now (length weighing.now.bx.now) taken.new) }
{
    for block in blocks {
        take_block(alloc, weighing, block, class, first, taken)?;
    }
    Ok(())
}

/// Adds the rows of the table that are of a class.
fn take_class(
    alloc: Global,
    weighing: &Weighing,
    class: RowClass,
    first: &RowBlock,
    taken: &mut RowBlock,
) -> Result<(), AllocError>
    requires whole { IsWhole weighing.now }
    requires taken { IsBlockOf weighing.now.plant.now (length weighing.now.bx.now) taken.old }
    ensures { OnOk result (IsBlockOf weighing.now.plant.now (length weighing.now.bx.now) taken.new) }
{
    let table = weighing.table;
    take_blocks(alloc, weighing, table.plain.as_slice(), class, first, taken)?;
    take_blocks(
        alloc,
        weighing,
        table.others.as_slice(),
        class,
        first,
        taken,
    )
}

/// Adds the rows of a block.
fn take_first(
    alloc: Global,
    weighing: &Weighing,
    first: &RowBlock,
    taken: &mut RowBlock,
) -> Result<(), AllocError>
    requires whole { IsWhole weighing.now }
    requires first { IsBlockOf weighing.now.plant.now (length weighing.now.bx.now) first.now }
    requires taken { IsBlockOf weighing.now.plant.now (length weighing.now.bx.now) taken.old }
    ensures { OnOk result (IsBlockOf weighing.now.plant.now (length weighing.now.bx.now) taken.new) }
{
    for place in 0..first.names.as_slice().len() {
        take_at(alloc, weighing, first, place, taken)?;
    }
    Ok(())
}

/// The rows with which a task begins, and after them those of the table, class by class.
pub(crate) fn take_rows(
    alloc: Global,
    weighing: &Weighing,
    first: &RowBlock,
) -> Result<TakenRows, AllocError>
    requires whole { IsWhole weighing.now }
    requires first { IsBlockOf weighing.now.plant.now (length weighing.now.bx.now) first.now }
    ensures { IfOk result (λ taken. IsBlockOf weighing.now.plant.now (length weighing.now.bx.now) taken.block) }
{
    let mut block = RowBlock::new(alloc);
    let mut stages = Vec::new(alloc);
    take_first(alloc, weighing, first, &mut block)?;
    stages.push(block.names.as_slice().len())?;
    for class in CLASSES {
        take_class(alloc, weighing, class, first, &mut block)?;
        stages.push(block.names.as_slice().len())?;
    }
    Ok(TakenRows { block, stages })
}
