//! The examination of a box, from its task to the answer.
//!
//! Free: how far the multipliers are looked for. Owed: all that `specs/Looks` says.

ghost use Rattle.std.specs.Prelude.{◌≡◌, ◌↔◌, ◌≤◌, ℤ, ◌≤ℤ◌, [], false, length, IfOk, IsTrue, Option, option_map};
ghost use Rattle.overlap_graph.specs.Cliques.{cliques_of};
ghost use Rattle.overlap_graph.specs.Independence.{independence_of};
ghost use Rattle.slot_box.specs.declared.node.Leaf.TheVariants as leaves;
ghost use Rattle.slot_box.specs.Boxes.{HasOnePoint, points_of};
ghost use Rattle.slot_box.specs.Splits.{IsLawfulSplit};
ghost use Rattle.leaf_value.specs.Settings.{plain_setting};
ghost use Rattle.slot_box.specs.Even.{IsEvenSplit};
ghost use Rattle.search_node.specs.Laws.{IsUnblocked};
ghost use Rattle.search_node.specs.Looks.{Beats, IsExamined, IsLook, IsTaskOf};
ghost use Rattle.search_node.specs.Tables.{IsTableOf};
ghost use Rattle.search_node.specs.declared.looked.Examined.TheVariants as answers;
ghost use Rattle.search_node.specs.Values.{least_value, warm_value};
ghost use Rattle.search_node.specs.inside.Answers.{IsNotDead, IsNotPoint};
ghost use Rattle.search_node.specs.inside.Candidates.{IsCandidate, Reaches};
ghost use Rattle.search_node.specs.inside.Plain.{ReachesPlainGuesses};
ghost use Rattle.search_node.specs.inside.Weighings.{IsWhole, setting_of};

use crate::blocked::first_blocked;
use crate::building::plan_of_box;
use crate::guesses::Candidate;
use crate::laws::value_laws;
use crate::looked::{Examined, Looked};
use crate::plain::lesser_of_plain;
use crate::simplex::lesser_of_rows;
use crate::splits::even_split;
use crate::table::RowTable;
use crate::warm::{warm_candidate, warm_entries};
use crate::weighing::Weighing;
use limits::SIMPLEX_PIVOTS;
use overlap_graph::Masks;
use plant_model::Plant;
use replay_core::Planned;
use slot_automaton::Automaton;
use slot_box::{Leaf, NamedCuts, SlotBox, Split, Task, split_laws};
use slot_forms::point_value;
use slot_rows::{ranges, slot_row_laws};
use std::alloc::{AllocError, Global};

/// The nodes with numbers below this one, the root and its parts, get all pivots that the simplex may take.
const FULL_NODES: u32 = 3;

/// What the others get: they begin with the entries of their parents.
const FEW_PIVOTS: u32 = 100;

/// Whether a value beats the best margin that was seen.
fn beats(value: i128, seen: Option<i64>) -> bool
    ensures { IsTrue result ↔ Beats value seen }
{
    match seen {
        None => true,
        Some(best) => value > i128::from(best),
    }
}

/// How many pivots the simplex gets at the node of this number.
fn pivots_of(id: u32) -> u32 {
    if id < FULL_NODES {
        SIMPLEX_PIVOTS
    } else {
        FEW_PIVOTS
    }
}

/// Whether there is nothing more to find out of the box: it is shown empty, or its value beats nothing.
fn is_settled(found: &Candidate, seen: Option<i64>) -> bool {
    found.is_empty || !beats(found.value, seen)
}

/// The best entries that are found for a task's box.
fn weigh(alloc: Global, weighing: &Weighing, task: &Task) -> Result<Candidate, AllocError>
    requires whole { IsWhole weighing.now }
    requires same { weighing.now.bx.now ≡ task.now.box }
    ensures candidate { IfOk result (IsCandidate (setting_of weighing.now) weighing.now.bx.now) }
    ensures warm { IfOk result (λ found. Reaches found (warm_value (setting_of weighing.now) task.now)) }
    ensures plain { IfOk result (ReachesPlainGuesses (setting_of weighing.now) weighing.now.bx.now) }
{
    let warm = warm_entries(alloc, weighing, task.q(), task.warm())?;
    let best = warm_candidate(alloc, weighing, task, &warm)?;
    if best.is_empty {
        return Ok(best);
    }
    let best = lesser_of_plain(alloc, weighing, best)?;
    if is_settled(&best, weighing.enough) {
        return Ok(best);
    }
    lesser_of_rows(alloc, weighing, &warm.block, best)
}

/// The value of entries that do not show the box empty, which is told.
fn told_value(weighing: &Weighing, found: &Candidate) -> i64
    requires whole { IsWhole weighing.now }
    requires candidate { IsCandidate (setting_of weighing.now) weighing.now.bx.now found.now }
    requires plain { ReachesPlainGuesses (setting_of weighing.now) weighing.now.bx.now found.now }
    requires not_empty { found.now.is_empty ≡ false }
    ensures value { result ≡ found.now.value }
    ensures least { least_value ≤ℤ result }
{
    value_laws(weighing.plant);
    slot_row_laws(weighing.plant);
    found.value as i64
}

/// What becomes of the box of the best entries: it is closed, or may be divided by the split.
fn settle(
    weighing: &Weighing,
    task: &Task,
    seen: Option<i64>,
    split: Split,
    found: Candidate,
) -> Examined
    requires whole { IsWhole weighing.now }
    requires same { weighing.now.bx.now ≡ task.now.box }
    requires candidate { IsCandidate (setting_of weighing.now) weighing.now.bx.now found }
    requires warm { Reaches found (warm_value (setting_of weighing.now) task.now) }
    requires plain { ReachesPlainGuesses (setting_of weighing.now) weighing.now.bx.now found }
    requires lawful { IsLawfulSplit task.now.box split }
    requires even { IsEvenSplit task.now.box split }
    ensures examined { IsExamined (setting_of weighing.now) task.now seen result }
    ensures not_dead { IsNotDead result }
    ensures not_point { IsNotPoint result }
{
    split_laws();
    if found.is_empty {
        return Examined::Closed {
            leaf: Leaf::Void { terms: found.terms },
            value: None,
        };
    }
    let value = told_value(weighing, &found);
    let Candidate { q, terms, .. } = found;
    if !beats(i128::from(value), seen) {
        return Examined::Closed {
            leaf: Leaf::Dual { q, terms },
            value: Some(value),
        };
    }
    Examined::Splittable {
        value,
        leaf: Leaf::Undone { q, terms },
        split,
    }
}

/// The answer that the box is dead.
fn dead(at: u32) -> Looked
    ensures { result ≡ record { what = answers.Closed (leaves.Dead at) None; found = None } }
{
    Looked {
        what: Examined::Closed {
            leaf: Leaf::Dead { at },
            value: None,
        },
        found: None,
    }
}

/// What a plan earns, where there is one.
fn earned(found: &Option<Planned>) -> Option<i64>
    ensures { result ≡ option_map (λ planned. planned.margin) found.now }
{
    found.as_ref().map(|planned| planned.margin)
}

/// The answer of a box of one point, with its plan where its word breaks no rule.
fn look_at_point(alloc: Global, plant: &Plant, task: &Task) -> Result<Looked, AllocError>
    requires task { IsTaskOf plant.now (length task.now.box) task.now }
    requires one { points_of task.now.box ≡ 1 }
    requires unblocked { IsUnblocked (plain_setting plant.now (length task.now.box)) task.now.box }
    ensures { (seen : Option ℤ) → IfOk result (IsLook plant.now (length task.now.box) task.now seen) }
{
    value_laws(plant);
    // it has the one point that its count says
    let _one = task.bx().is_point();
    // and its warm start is within its limits
    let (_q, _warm) = (task.q(), task.warm());
    let found = point_value(alloc, plant, task.bx())?;
    Ok(Looked {
        what: Examined::Closed {
            leaf: Leaf::Point,
            value: earned(&found),
        },
        found,
    })
}

/// The answer of a box with a second point.
fn look_at_box(
    alloc: Global,
    plant: &Plant,
    cliques: &Masks,
    table: &RowTable,
    task: &Task,
    seen: Option<i64>,
    split: Split,
) -> Result<Looked, AllocError>
    requires cliques { cliques.now ≡ cliques_of plant.now }
    requires table { IsTableOf plant.now (length task.now.box) table.now }
    requires unblocked { IsUnblocked (plain_setting plant.now (length task.now.box)) task.now.box }
    requires lawful { IsLawfulSplit task.now.box split }
    requires even { IsEvenSplit task.now.box split }
    ensures { IfOk result (IsLook plant.now (length task.now.box) task.now seen) }
{
    let bx = task.bx();
    let ranges = ranges(alloc, plant, bx)?;
    let weighing = Weighing {
        plant,
        cliques,
        table,
        bx,
        ranges: &ranges,
        pivots: pivots_of(task.id()),
        enough: seen,
    };
    let found = weigh(alloc, &weighing, task)?;
    let what = settle(&weighing, task, seen, split, found);
    let found = match &what {
        Examined::Closed { .. } => None,
        Examined::Splittable { .. } => plan_of_box(alloc, plant, bx.len(), task.id(), bx)?,
    };
    Ok(Looked { what, found })
}

/// Examines the box of a task by a table that is kept. The best margin seen is none where no plan was.
pub fn examine_by(
    alloc: Global,
    plant: &Plant,
    cliques: &Masks,
    automaton: &Automaton,
    n: u32,
    table: &RowTable,
    task: &Task,
    seen: Option<i64>,
    cuts: &NamedCuts,
) -> Result<Looked, AllocError>
    requires cliques { cliques.now ≡ cliques_of plant.now }
    requires automaton { automaton.now ≡ independence_of plant.now }
    requires table { IsTableOf plant.now n table.now }
    requires task { IsTaskOf plant.now n task.now }
    requires no_cuts { cuts.now ≡ [] }
    ensures { IfOk result (IsLook plant.now n task.now seen) }
{
    let bx = task.bx();
    if let Some(at) = first_blocked(plant, automaton, bx) {
        return Ok(dead(at));
    }
    match even_split(plant, bx) {
        None => look_at_point(alloc, plant, task),
        Some(split) => look_at_box(alloc, plant, cliques, table, task, seen, split),
    }
}

/// Examines the box of a task: whether it is dead, what it is worth, and by what it may be divided.
pub fn examine(
    alloc: Global,
    plant: &Plant,
    cliques: &Masks,
    automaton: &Automaton,
    n: u32,
    task: &Task,
    seen: Option<i64>,
    cuts: &NamedCuts,
) -> Result<Looked, AllocError>
    requires cliques { cliques.now ≡ cliques_of plant.now }
    requires automaton { automaton.now ≡ independence_of plant.now }
    requires task { IsTaskOf plant.now n task.now }
    requires no_cuts { cuts.now ≡ [] }
    ensures { IfOk result (IsLook plant.now n task.now seen) }
{
    // a box keeps its limits
    let _ = task.bx();
    let table = RowTable::new(alloc, plant, cliques, n)?;
    examine_by(
        alloc, plant, cliques, automaton, n, &table, task, seen, cuts,
    )
}
