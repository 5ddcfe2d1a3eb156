ghost use Rattle.std.specs.Prelude.{◌≤◌, ◌⊎◌, ℕ, List, length, IfOk};
ghost use Rattle.limits.specs.declared.TheConstants.{MOST_STEPS};
ghost use Rattle.command_line.specs.declared.command.Command.TheVariants.{Replay};
ghost use Rattle.crude_run.specs.Files.{files_between};
ghost use Rattle.plant_model.specs.declared.parts.Parts.{Parts};
ghost use Rattle.crude_run.specs.Replaying.{IsLegalReplay, IsIllegalReplay, Replays, HasOneAnswer};
ghost use Rattle.crude_run.specs.Answered.{Serves, Answered, outlet_between};
ghost use Rattle.crude_run.specs.Hidden.{HidesNoFault};
ghost use Rattle.crude_run.specs.Stopping.{IfDue, ShowsFaults};

use crate::answer::{Answer, illegal, legal, plan_refused};
use crate::opening::{Stop, open_both};
use crate::send::finish;
use crate::status::Status;
use limits::PLAN_FILE_LIMIT;
use outer_edge::{Shelf, Sink};
use plan_text::{PlanTextFault, ledger, plan_text_laws, read_plan};
use plant_model::Plant;
use replay_core::{ReplayFault, Timed};
use std::alloc::{AllocError, Global};

/// `replay`: reads the plant file and then the plan file, and writes how the plan runs.
pub fn replay_files<H: Shelf, K: Sink>(
    alloc: Global,
    plant: &str,
    plan: &str,
    shelf: &mut H,
    out: &mut K,
) -> Status
    ensures answered { Answered
        (Serves (Replay plant.now plan.now) (files_between H.told H.faults H.longs shelf.old shelf.new))
        (outlet_between K.taken K.faults out.old out.new) result }
    ensures hidden { HidesNoFault (files_between H.told H.faults H.longs shelf.old shelf.new)
        (outlet_between K.taken K.faults out.old out.new) result }
{
    let outcome = replay_both(alloc, plant, plan, shelf);
    finish(outcome, out)
}

/// The answer to the two files.
fn replay_both<H: Shelf>(
    alloc: Global,
    plant: &str,
    plan: &str,
    shelf: &mut H,
) -> Result<Answer, Stop>
    ensures due { IfDue result
        (Serves (Replay plant.now plan.now) (files_between H.told H.faults H.longs shelf.old shelf.new)) }
    ensures shown { ShowsFaults (files_between H.told H.faults H.longs shelf.old shelf.new) result }
{
    let opened = open_both(alloc, plant, plan, PLAN_FILE_LIMIT, shelf)?;
    let answer = replay_text(alloc, &opened.plant, &opened.bytes)?;
    Ok(answer)
}

/// The answer to the bytes of a plan.
fn replay_text(alloc: Global, plant: &Plant, bytes: &[u8]) -> Result<Answer, AllocError>
    ensures { IfOk result (Replays plant.now bytes.now) }
{
    match read_plan(alloc, plant, bytes) {
        Ok(plan) => replay_plan(alloc, plant, plan.as_slice()),
        Err(PlanTextFault::Line(line)) => plan_refused(alloc, line),
        Err(PlanTextFault::Memory) => Err(AllocError),
    }
}

/// The answer to a plan.
fn replay_plan(alloc: Global, plant: &Plant, plan: &[Timed]) -> Result<Answer, AllocError>
    requires { length plan.now ≤ MOST_STEPS }
    ensures { IfOk result (λ answer. IsLegalReplay plant.now plan.now answer
        ⊎ IsIllegalReplay plant.now plan.now answer) }
{
    match ledger(alloc, plant, plan) {
        Ok(text) => Ok(legal(text)),
        Err(ReplayFault::Rule(broken)) => illegal(alloc, broken),
        Err(ReplayFault::Memory) => Err(AllocError),
    }
}

/// To the bytes of a plan `replay` has one answer. It does nothing when it runs.
pub fn replay_laws()
    ensures { (parts : Parts) (bytes : List ℕ) → HasOneAnswer parts bytes }
{
    plan_text_laws();
}
