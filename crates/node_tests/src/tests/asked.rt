//! Examinations of a box. The box is made within the root box of its plant, since only such a box may be examined; of
//! the answers the functions promise nothing.

ghost use Rattle.std.specs.Prelude.{◌≤◌, IfOk, length};
ghost use Rattle.limits.specs.declared.TheConstants.{MOST_SLOTS};
ghost use Rattle.plant_model.specs.Parts.{greatest_volume_of, horizon_of, op_count_of};
ghost use Rattle.search_node.specs.Looks.{IsTaskOf};
ghost use Rattle.slot_box.specs.Boxes.{IsWithinRoot};

use super::cases::{Path, Step, Warm};
use leaf_value::Scales;
use plant_model::Plant;
use search_node::{Looked, RowTable, examine, examine_by};
use slot_box::{NamedCuts, RowName, SlotBox, Split, Task, Term, Terms};
use std::alloc::{AllocError, Global};

/// The root box of so many slots.
fn root_of(alloc: Global, plant: &Plant, slots: u32) -> Result<SlotBox, AllocError>
    requires some { 1 ≤ slots }
    requires most { slots ≤ MOST_SLOTS }
    ensures { IfOk result (IsWithinRoot (op_count_of plant.now) (greatest_volume_of plant.now) (horizon_of plant.now)) }
{
    SlotBox::root(
        alloc,
        slots,
        plant.op_count(),
        plant.greatest_volume(),
        plant.horizon(),
    )
}

/// The left part of a box by a split, or the right one.
fn half(
    alloc: Global,
    plant: &Plant,
    bx: SlotBox,
    split: Split,
    is_left: bool,
) -> Result<SlotBox, AllocError>
    requires { IsWithinRoot (op_count_of plant.now) (greatest_volume_of plant.now) (horizon_of plant.now) bx }
    ensures { IfOk result (IsWithinRoot (op_count_of plant.now) (greatest_volume_of plant.now) (horizon_of plant.now)) }
{
    match bx.split(alloc, split) {
        Err(_) => Err(AllocError),
        Ok((left, right)) => Ok(if is_left { left } else { right }),
    }
}

/// The part to which a step leads.
fn part(alloc: Global, plant: &Plant, bx: SlotBox, step: Step) -> Result<SlotBox, AllocError>
    requires { IsWithinRoot (op_count_of plant.now) (greatest_volume_of plant.now) (horizon_of plant.now) bx }
    ensures { IfOk result (IsWithinRoot (op_count_of plant.now) (greatest_volume_of plant.now) (horizon_of plant.now)) }
{
    match step {
        Step::Stay => Ok(bx),
        Step::Left(split) => half(alloc, plant, bx, split, true),
        Step::Right(split) => half(alloc, plant, bx, split, false),
    }
}

/// The name of a row of slot 1.
fn named(family: u8, a: u16, b: u16, c: u16) -> RowName {
    RowName {
        family,
        a,
        b,
        c,
        d: 0,
    }
}

/// The task of a box, with entries to begin with.
fn warmed(alloc: Global, plant: &Plant, bx: SlotBox, warm: Warm) -> Result<Task, AllocError>
    requires { IsWithinRoot (op_count_of plant.now) (greatest_volume_of plant.now) (horizon_of plant.now) bx }
    ensures { IfOk result (λ task. IsTaskOf plant.now (length task.box) task) }
{
    match warm {
        Warm::Cold => Ok(Task::new(0, bx, 1, Terms::new(alloc))),
        Warm::Total => {
            let none = Term::Row {
                name: named(99, 0, 1, 0),
                y: 1,
            };
            let total = Term::Row {
                name: named(5, 0, 1, 0),
                y: 3,
            };
            let terms = Terms::from_vec(vec![in alloc; none, total]?);
            Ok(Task::new(0, bx, 1, terms))
        }
        Warm::Rate => {
            let rate = Term::Row {
                name: named(3, 1, 0, 1),
                y: 1,
            };
            let terms = Terms::from_vec(vec![in alloc; rate]?);
            Ok(Task::new(0, bx, 480, terms))
        }
    }
}

/// The task of the box to which a path leads from the root box of so many slots.
pub fn task_of(
    alloc: Global,
    plant: &Plant,
    slots: u32,
    path: Path,
    warm: Warm,
) -> Result<Task, AllocError>
    requires some { 1 ≤ slots }
    requires most { slots ≤ MOST_SLOTS }
    ensures { IfOk result (λ task. IsTaskOf plant.now (length task.box) task) }
{
    let [first, second, third] = path;
    let bx = root_of(alloc, plant, slots)?;
    let bx = part(alloc, plant, bx, first)?;
    let bx = part(alloc, plant, bx, second)?;
    let bx = part(alloc, plant, bx, third)?;
    warmed(alloc, plant, bx, warm)
}

/// What an examination answers.
pub fn look(
    alloc: Global,
    plant: &Plant,
    task: &Task,
    seen: Option<i64>,
) -> Result<Looked, AllocError>
    requires { IsTaskOf plant.now (length task.now.box) task.now }
{
    let slots = task.bx().len();
    let scales = Scales::new(alloc, plant, slots)?;
    let cuts = NamedCuts::new(alloc);
    examine(
        alloc,
        plant,
        &scales.cliques,
        &scales.automaton,
        slots,
        task,
        seen,
        &cuts,
    )
}

/// What it answers by a table.
pub fn look_by(
    alloc: Global,
    plant: &Plant,
    task: &Task,
    seen: Option<i64>,
) -> Result<Looked, AllocError>
    requires { IsTaskOf plant.now (length task.now.box) task.now }
{
    let slots = task.bx().len();
    let scales = Scales::new(alloc, plant, slots)?;
    let table = RowTable::new(alloc, plant, &scales.cliques, slots)?;
    let cuts = NamedCuts::new(alloc);
    examine_by(
        alloc,
        plant,
        &scales.cliques,
        &scales.automaton,
        slots,
        &table,
        task,
        seen,
        &cuts,
    )
}
