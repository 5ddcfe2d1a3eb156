//! The greedy plan.

ghost use Rattle.std.specs.Prelude.{◌≡◌, ◌<◌, ◌+◌, ◌≤◌, [], All, IfOk, OnOk, length};
ghost use Rattle.limits.specs.declared.TheConstants.{MOST_STEPS};
ghost use Rattle.plant_model.specs.Parts.{op_count_of};
ghost use Rattle.replay_core.specs.declared.timed.Timed.{Timed};
ghost use Rattle.replay_core.specs.declared.order.Order.TheVariants.{ByStart};
ghost use Rattle.greedy_plan.specs.Greedy.{choice_of, followed_by, with_next, greedy_of, IsGreedy};

use crate::choice::choice;
use plant_model::Plant;
use replay_core::{Plan, Planned, Replay, Timed};
use std::alloc::{AllocError, Global};

/// Adds operation v behind those that have run, where it may follow.
fn add(replay: &mut Replay, plant: &Plant, steps: &mut Vec<Timed>, v: u8) -> Result<(), AllocError>
    requires known { v < op_count_of plant.now }
    requires all_known { All (λ (t : Timed). t.op < op_count_of plant.now) steps.old.items }
    requires same { replay.old ≡ record { parts = plant.now; order = ByStart; steps = steps.old.items } }
    requires few { length steps.old.items < MOST_STEPS }
    ensures next { OnOk result (steps.new.items
        ≡ followed_by plant.now steps.old.items (choice_of plant.now steps.old.items v)) }
    ensures same { OnOk result (replay.new ≡ record { parts = plant.now; order = ByStart; steps = steps.new.items }) }
    ensures all_known { OnOk result (All (λ (t : Timed). t.op < op_count_of plant.now) steps.new.items) }
    ensures one { OnOk result (length steps.new.items ≤ length steps.old.items + 1) }
{
    if let Some(t) = choice(replay, plant, steps.as_slice(), v) {
        if replay.step(t).is_ok() {
            steps.push(t)?;
        }
    }
    Ok(())
}

/// Adds operation v where fewer than n have run and it may follow.
#[tactic(auto, unfolding(crate::specs::Greedy::with_next))]
fn add_below(
    replay: &mut Replay,
    plant: &Plant,
    n: u32,
    steps: &mut Vec<Timed>,
    v: u8,
) -> Result<(), AllocError>
    requires few { n ≤ MOST_STEPS }
    requires known { v < op_count_of plant.now }
    requires all_known { All (λ (t : Timed). t.op < op_count_of plant.now) steps.old.items }
    requires same { replay.old ≡ record { parts = plant.now; order = ByStart; steps = steps.old.items } }
    requires most { length steps.old.items ≤ n }
    ensures next { OnOk result (steps.new.items ≡ with_next plant.now n steps.old.items v) }
    ensures same { OnOk result (replay.new ≡ record { parts = plant.now; order = ByStart; steps = steps.new.items }) }
    ensures all_known { OnOk result (All (λ (t : Timed). t.op < op_count_of plant.now) steps.new.items) }
    ensures most { OnOk result (length steps.new.items ≤ n) }
{
    if (steps.len() as u32) < n {
        return add(replay, plant, steps, v);
    }
    Ok(())
}

/// Lets the operations of the list run, each where it may follow, and gives those that have.
#[tactic(auto, using(crate::proofs::PlanLaws::greedy_next))]
fn add_each(
    alloc: Global,
    replay: &mut Replay,
    plant: &Plant,
    n: u32,
    ops: &[u8],
) -> Result<Vec<Timed>, AllocError>
    requires few { n ≤ MOST_STEPS }
    requires known { All (λ v. v < op_count_of plant.now) ops.now }
    requires new { replay.old ≡ record { parts = plant.now; order = ByStart; steps = [] } }
    ensures value { IfOk result (λ steps. steps.items ≡ greedy_of plant.now n ops.now) }
    ensures same { IfOk result (λ steps.
        replay.new ≡ record { parts = plant.now; order = ByStart; steps = steps.items }) }
    ensures few { IfOk result (λ steps. length steps.items ≤ n) }
{
    let mut steps = Vec::new(alloc);
    for v in ops {
        add_below(replay, plant, n, &mut steps, *v)?;
    }
    Ok(steps)
}

/// The greedy plan of at most n operations of the list, where it is legal.
pub fn greedy(
    alloc: Global,
    plant: &Plant,
    n: u32,
    ops: &[u8],
) -> Result<Option<Planned>, AllocError>
    requires few { n ≤ MOST_STEPS }
    requires known { All (λ v. v < op_count_of plant.now) ops.now }
    ensures { IfOk result (IsGreedy plant.now n ops.now) }
{
    let mut replay = Replay::new(alloc, plant)?;
    let steps = add_each(alloc, &mut replay, plant, n, ops)?;
    match replay.finish() {
        Ok(margin) => Ok(Some(Planned {
            plan: Plan::from_vec(steps),
            margin,
        })),
        Err(_) => Ok(None),
    }
}
