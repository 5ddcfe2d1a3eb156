//! The plan that is answered: the better of the greedy plan and of the one that the search has found.

ghost use Rattle.std.specs.Prelude.{◌<◌, ◌≤◌, ℕ, List, All, IfOk, IfSome, length};
ghost use Rattle.limits.specs.declared.TheConstants.{MOST_STEPS};
ghost use Rattle.plant_model.specs.Parts.{op_count_of};
ghost use Rattle.plant_model.specs.declared.parts.Parts.{Parts};
ghost use Rattle.greedy_plan.specs.Greedy.{IsGreedy};
ghost use Rattle.plan_build.specs.Built.{IsBuilt, IsPlanned};

use crate::hint::Hint;
use greedy_plan::greedy;
use plan_search::find_plan;
use plant_model::Plant;
use replay_core::{Plan, Planned, ReplayFault, replay};
use std::alloc::{AllocError, Global};

/// How many operations a search decodes where nothing else is asked for.
const DEFAULT_WORK: u32 = 20_000;

/// The plan with its margin, where the replay finds it legal.
fn replayed(alloc: Global, plant: &Plant, n: u32, plan: Plan) -> Result<Option<Planned>, AllocError>
    requires few { n ≤ MOST_STEPS }
    requires short { length plan ≤ n }
    ensures { IfOk result (λ found. IfSome found (IsPlanned plant.now n)) }
{
    match replay(alloc, plant, plan.as_slice()) {
        Ok(outcome) => Ok(Some(Planned {
            plan,
            margin: outcome.margin,
        })),
        Err(ReplayFault::Rule(_)) => Ok(None),
        Err(ReplayFault::Memory) => Err(AllocError),
    }
}

/// The greedy plan of the hint, or in its place what was found where that earns more.
fn better(greedy: Option<Planned>, found: Option<Planned>) -> Option<Planned>
    ensures { (parts : Parts) (n : ℕ) (hint : List ℕ)
        → IsGreedy parts n hint greedy → IfSome found (IsPlanned parts n) → IsBuilt parts n hint result }
{
    match (greedy, found) {
        (Some(first), Some(second)) => {
            if first.margin < second.margin {
                Some(second)
            } else {
                Some(first)
            }
        }
        (Some(only), None) | (None, Some(only)) => Some(only),
        (None, None) => None,
    }
}

/// The greedy plan of the hint, or a better one that a search from the hint has found. The search decodes about so many
/// operations; the greedy plan costs no work.
pub fn build_within(
    alloc: Global,
    plant: &Plant,
    n: u32,
    hint: &Hint,
    work: u32,
) -> Result<Option<Planned>, AllocError>
    requires few { n ≤ MOST_STEPS }
    requires known { All (λ v. v < op_count_of plant.now) hint.now.ops }
    ensures { IfOk result (IsBuilt plant.now n hint.now.ops) }
{
    let ops = hint.ops.as_slice();
    let greedy = greedy(alloc, plant, n, ops)?;
    match find_plan(alloc, plant, n, ops, work)? {
        Some(plan) => Ok(better(greedy, replayed(alloc, plant, n, plan)?)),
        None => Ok(greedy),
    }
}

/// Likewise with 20,000 decoded operations.
pub fn build(
    alloc: Global,
    plant: &Plant,
    n: u32,
    hint: &Hint,
) -> Result<Option<Planned>, AllocError>
    requires few { n ≤ MOST_STEPS }
    requires known { All (λ v. v < op_count_of plant.now) hint.now.ops }
    ensures { IfOk result (IsBuilt plant.now n hint.now.ops) }
{
    build_within(alloc, plant, n, hint, DEFAULT_WORK)
}
