//! The plan that a dossier gives, and its margin.

ghost use Rattle.std.specs.Prelude.{◌≡◌, ◌+◌, ◌≤◌, ◌++◌, length, option_map, IfOk, Some};
ghost use Rattle.std.specs.Result.{result_err};
ghost use Rattle.item_lists.specs.Faults.{first_of};
ghost use Rattle.limits.specs.declared.TheConstants.{MOST_SLOTS, MOST_STEPS};
ghost use Rattle.replay_core.specs.Margin.{margin_of};
ghost use Rattle.plan_text.specs.Plans.{timed_of, plan_of};
ghost use Rattle.dossier_check.specs.Reasons.{rule_reason, plan_reasons, margin_reasons, given_reasons};
ghost use Rattle.dossier_check.specs.inside.Tests.{Tests};

use crate::reasons::{MARGIN, PLAN};
use crate::verdict::{Reason, Refusal};
use item_lists::{Copies, expect};
use plan_text::{OpLine, OpLines};
use plant_model::Plant;
use replay_core::{Broken, Outcome, Plan, ReplayFault, Timed, Word, replay};
use std::alloc::{AllocError, Global};

/// The operation of a line.
fn timed_of(plant: &Plant, line: &OpLine) -> Timed
    ensures { result ≡ timed_of plant.now line.now }
{
    Timed {
        op: plant.op_by_name(line.name.as_slice()),
        start: line.start,
        end: line.end,
        volume: line.volume,
    }
}

/// The operations of the lines.
fn steps_of(alloc: Global, plant: &Plant, lines: &[OpLine]) -> Result<Plan, AllocError>
    ensures { IfOk result (λ steps. steps ≡ plan_of plant.now lines.now) }
{
    let mut steps = Plan::new(alloc);
    for line in lines {
        steps
            .push(timed_of(plant, line))
            .map_err(|_: Timed| AllocError)?;
    }
    Ok(steps)
}

/// Where a broken rule stands in the dossier.
#[tactic(auto, unfolding(crate::specs::Reasons::rule_reason))]
fn rule_reason(broken: Broken) -> Reason
    requires { broken.rule ≤ 11 → broken.at ≤ MOST_STEPS }
    ensures { result ≡ rule_reason broken }
{
    Reason::at(PLAN, if broken.rule <= 11 { 8 + broken.at } else { 8 })
}

/// Replays a plan of at most so many operations.
#[tactic(auto, using(crate::proofs::PlanLaws::plan_reason), unfolding(crate::specs::Reasons::plan_reasons))]
fn check_rules(
    alloc: Global,
    plant: &Plant,
    slots: u32,
    steps: &[Timed],
) -> Result<Outcome, Refusal>
    requires { slots ≤ MOST_SLOTS }
    ensures reasons { Tests (plan_reasons plant.now slots steps.now) result }
    ensures margin { IfOk result (λ outcome. outcome.margin ≡ margin_of plant.now steps.now) }
{
    expect(
        steps.len() <= slots as usize,
        Reason::at(PLAN, 8 + slots + 1),
    )?;
    match replay(alloc, plant, steps) {
        Ok(outcome) => Ok(outcome),
        Err(ReplayFault::Rule(broken)) => Err(Refusal::First(rule_reason(broken))),
        Err(ReplayFault::Memory) => Err(Refusal::Memory),
    }
}

/// Tests the margin that comes with a plan against what it earns.
fn check_margin(margin: Option<i64>, earned: i64) -> Result<(), Reason>
    ensures { result_err result ≡ first_of (margin_reasons margin earned) }
{
    match margin {
        None => Ok(()),
        Some(margin) => expect(margin == earned, Reason::at(MARGIN, 6)),
    }
}

/// Tests a plan that is given: its operations.
#[tactic(auto, using(item_lists::proofs::FaultLaws::first_fault))]
fn check_lines(
    alloc: Global,
    plant: &Plant,
    slots: u32,
    margin: Option<i64>,
    lines: &[OpLine],
) -> Result<Word, Refusal>
    requires { slots ≤ MOST_SLOTS }
    ensures reasons { Tests (given_reasons plant.now slots margin (Some lines.now)) result }
    ensures steps { IfOk result (λ steps. steps ≡ plan_of plant.now lines.now) }
{
    let steps = steps_of(alloc, plant, lines)?;
    let outcome = check_rules(alloc, plant, slots, steps.as_slice())?;
    check_margin(margin, outcome.margin)?;
    Ok(Copies::new(alloc, steps.as_slice())?)
}

/// Tests the plan, where one is given.
pub(crate) fn check_plan(
    alloc: Global,
    plant: &Plant,
    slots: u32,
    margin: Option<i64>,
    plan: &Option<OpLines>,
) -> Result<Option<Word>, Refusal>
    requires { slots ≤ MOST_SLOTS }
    ensures reasons { Tests (given_reasons plant.now slots margin plan.now) result }
    ensures steps { IfOk result (λ steps. steps ≡ option_map (plan_of plant.now) plan.now) }
{
    match plan {
        None => Ok(None),
        Some(lines) => Ok(Some(check_lines(alloc, plant, slots, margin, lines.as_slice())?)),
    }
}
