ghost use Rattle.std.specs.Prelude.{◌≡◌, ◌+◌, ◌≤◌, ◌++◌, length, OnOk};
ghost use Rattle.std.specs.Result.{result_err};
ghost use Rattle.item_lists.specs.Faults.{first_of};
ghost use Rattle.limits.specs.declared.TheConstants.{MOST_STEPS};
ghost use Rattle.replay_core.specs.declared.order.Order.TheVariants.{ByStart};
ghost use Rattle.replay_core.specs.declared.outcome.ReplayFault.TheVariants.{Rule, Memory};
ghost use Rattle.replay_core.specs.Legal.{step_faults_from};
ghost use Rattle.replay_core.specs.Replays.{Replays};

use crate::broken::Broken;
use crate::order::Order;
use crate::running::Replay;
use crate::timed::{AmountList, Timed};
use plant_model::Plant;
use std::alloc::{AllocError, Global};

/// What a legal plan comes to: its margin, and what each place holds at its end.
#[derive(Debug, Drop)]
pub struct Outcome {
    pub margin: i64,
    pub held: AmountList,
}

/// Why a plan has no outcome.
#[derive(Clone, Copy, Debug, PartialEq, Eq)]
pub enum ReplayFault {
    /// The first rule that it breaks.
    Rule(Broken),
    Memory,
}

impl From<AllocError> for ReplayFault {
    ghost from_gives = { λ _ fault. fault ≡ Memory };

    fn from(_error: AllocError) -> ReplayFault {
        ReplayFault::Memory
    }
}

impl From<Broken> for ReplayFault {
    ghost from_gives = { λ broken fault. fault ≡ Rule broken };

    fn from(broken: Broken) -> ReplayFault {
        ReplayFault::Rule(broken)
    }
}

/// Lets the operations run up to the first that breaks a rule.
fn run(replay: &mut Replay, plan: &[Timed]) -> Result<(), Broken>
    requires { length replay.old.steps + length plan.now ≤ MOST_STEPS }
    ensures broken { result_err result
        ≡ first_of (step_faults_from replay.old.parts replay.old.order replay.old.steps plan.now) }
    ensures ok { OnOk result (replay.new ≡ record replay.old { steps = replay.old.steps ++ plan.now }) }
{
    for t in plan {
        replay.step(*t)?;
    }
    Ok(())
}

/// Replays a plan from the plant's first state. A legal plan has an outcome; any other is refused with
/// the first rule that it breaks.
pub fn replay(alloc: Global, plant: &Plant, plan: &[Timed]) -> Result<Outcome, ReplayFault>
    requires { length plan.now ≤ MOST_STEPS }
    ensures { Replays plant.now ByStart plan.now result }
{
    replay_in(alloc, plant, Order::ByStart, plan)
}

/// Likewise of operations that are to keep that order.
pub fn replay_in(
    alloc: Global,
    plant: &Plant,
    order: Order,
    plan: &[Timed],
) -> Result<Outcome, ReplayFault>
    requires { length plan.now ≤ MOST_STEPS }
    ensures { Replays plant.now order plan.now result }
{
    let mut replay = Replay::in_order(alloc, plant, order)?;
    run(&mut replay, plan)?;
    let margin = replay.finish()?;
    Ok(Outcome {
        margin,
        held: replay.into_held(),
    })
}
