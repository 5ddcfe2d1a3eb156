//! Multipliers of rows over all slots where a form has more columns than the simplex takes: the slots are taken
//! together, as one that does what all of them do.
//!
//! Free: whatever guess comes. Owed: a multiplier within its limit for each row of the block.

ghost use Rattle.std.specs.Prelude.{◌≡◌, ◌<◌, ◌≤◌, length, IfOk};
ghost use Rattle.dual_bound.specs.Conditions.{IsGuess};
ghost use Rattle.linear_form.specs.Columns.{IsColumn};
ghost use Rattle.linear_form.specs.Listed.{column_of};
ghost use Rattle.search_node.specs.inside.Together.{AreOfOne};
ghost use Rattle.search_node.specs.inside.Weighings.{IsWhole};
ghost use Rattle.search_node.specs.Tables.{IsBlockOf};

use crate::block::RowBlock;
use crate::guesses::zeros;
use crate::rows_taken::{RowClass, class_of};
use crate::weighing::Weighing;
use dual_bound::{Guess, is_objective, is_system};
use fixed_simplex::multipliers;
use limits::SIMPLEX_COLUMNS;
use linear_form::{Column, IDLE_ENTRY, Part, Ranges, Row, RowList};
use named_rows::named_row;
use slot_box::RowName;
use slot_rows::objective;
use std::alloc::{AllocError, Global};

/// The name that a row over all slots has where there is one slot.
fn name_of_one(name: RowName) -> RowName {
    match name.family {
        5 | 6 => RowName { b: 1, ..name },
        _ => name,
    }
}

/// The row of one slot in the place of one over all slots; without terms where there is none.
fn row_of_one(alloc: Global, weighing: &Weighing, name: RowName) -> Result<Row, AllocError>
    requires { IsWhole weighing.now }
{
    if class_of(weighing.plant, name, weighing.bx.len()) != RowClass::Whole {
        return Row::new(alloc, &[], 0);
    }
    let name = name_of_one(name);
    match named_row(alloc, weighing.plant, weighing.cliques, 1, name)? {
        Some(row) => Ok(row),
        None => Row::new(alloc, &[], 0),
    }
}

/// These rows, one for each row of a block.
fn rows_of_one(alloc: Global, weighing: &Weighing, block: &RowBlock) -> Result<RowList, AllocError>
    requires { IsWhole weighing.now }
    ensures { IfOk result (λ rows. length rows ≡ length block.now.names) }
{
    let mut rows = RowList::new(alloc);
    for name in block.names.as_slice() {
        let row = row_of_one(alloc, weighing, *name)?;
        rows.push(row).map_err(|_| AllocError)?;
    }
    Ok(rows)
}

/// Adds the range of a column of a slot to that of the same column of the one slot.
fn add_range(ranges: &Ranges, slot: u32, entry: u8, part: Part, one: &mut Ranges)
    requires column { IsColumn ranges.now.extent (column_of slot entry part) }
    requires sum { IsColumn one.old.extent (column_of 1 entry part) }
    ensures { one.new.extent ≡ one.old.extent }
{
    let (lo, hi) = ranges.get(Column { slot, entry, part });
    let column = Column {
        slot: 1,
        entry,
        part,
    };
    let (low, high) = one.get(column);
    one.set(column, low.saturating_add(lo), high.saturating_add(hi));
}

/// Adds what an operation draws in a slot.
fn add_amounts(ranges: &Ranges, slot: u32, v: u8, one: &mut Ranges)
    requires same { AreOfOne ranges.now one.old }
    requires from_one { 1 ≤ slot }
    requires there { slot ≤ ranges.now.extent.slots }
    requires known { v < ranges.now.extent.ops }
    ensures { one.new.extent ≡ one.old.extent }
{
    for crude in 0..ranges.crudes() {
        add_range(ranges, slot, v, Part::A(crude), one);
    }
}

/// Adds the ranges of a slot.
fn add_slot(ranges: &Ranges, slot: u32, one: &mut Ranges)
    requires same { AreOfOne ranges.now one.old }
    requires from_one { 1 ≤ slot }
    requires there { slot ≤ ranges.now.extent.slots }
    ensures { one.new.extent ≡ one.old.extent }
{
    add_range(ranges, slot, IDLE_ENTRY, Part::Z, one);
    for v in 0..ranges.ops() {
        add_range(ranges, slot, v, Part::Z, one);
        add_range(ranges, slot, v, Part::S, one);
        add_range(ranges, slot, v, Part::E, one);
        add_amounts(ranges, slot, v, one);
    }
}

/// Adds the ranges of all slots.
fn add_slots(ranges: &Ranges, one: &mut Ranges)
    requires { AreOfOne ranges.now one.old }
    ensures { one.new.extent ≡ one.old.extent }
{
    for k in 0..ranges.slots() {
        add_slot(ranges, k + 1, one);
    }
}

/// Copies the ranges of what vessels wait.
fn copy_waits(ranges: &Ranges, one: &mut Ranges)
    requires { AreOfOne ranges.now one.old }
    ensures { one.new.extent ≡ one.old.extent }
{
    for vessel in 0..ranges.vessels() {
        let column = Column {
            slot: 0,
            entry: vessel,
            part: Part::W,
        };
        let (lo, hi) = ranges.get(column);
        one.set(column, lo, hi);
    }
}

/// The ranges of the one slot: the sums of those of all slots.
fn ranges_of_one(alloc: Global, ranges: &Ranges) -> Result<Ranges, AllocError> {
    let mut one = Ranges::new(alloc, 1, ranges.ops(), ranges.crudes(), ranges.vessels())?;
    add_slots(ranges, &mut one);
    copy_waits(ranges, &mut one);
    Ok(one)
}

/// A multiplier for each row of a block, by the program of one slot; none at all where that does not fit.
pub(crate) fn multipliers_together(
    alloc: Global,
    weighing: &Weighing,
    block: &RowBlock,
) -> Result<Guess, AllocError>
    requires whole { IsWhole weighing.now }
    requires block { IsBlockOf weighing.now.plant.now (length weighing.now.bx.now) block.now }
    ensures { IfOk result (λ guess. IsGuess block.now.rows guess.y guess.q) }
{
    let rows = rows_of_one(alloc, weighing, block)?;
    let ranges = ranges_of_one(alloc, weighing.ranges)?;
    let objective = objective(alloc, weighing.plant, 1)?;
    if ranges.ends().len() > SIMPLEX_COLUMNS as usize
        || !is_system(&rows, &ranges)
        || !is_objective(&ranges, &objective)
    {
        return zeros(alloc, block);
    }
    multipliers(alloc, &rows, &ranges, &objective)
}
