ghost use Rattle.std.specs.Prelude.{◌≡◌, ◌<◌, ◌≤◌, length, IfOk, IfSome, All, FitsSigned};
ghost use Rattle.std.specs.Int.{w64};
ghost use Rattle.limits.specs.declared.TheConstants.{MOST_NODES, MOST_SLOTS};
ghost use Rattle.plan_text.specs.OpLine.{IsOpLine};
ghost use Rattle.plant_model.specs.Parts.{op_count_of};
ghost use Rattle.plan_text.specs.PlanText.{AreOpLines};
ghost use Rattle.plan_text.specs.Plans.{timed_of, plan_of};
ghost use Rattle.crude_run.specs.Concluding.{IsHeadOf};
ghost use Rattle.crude_run.specs.Searched.{IsFound};
ghost use Rattle.crude_run.specs.Solving.{IsSolution};

use crate::search::Found;
use command_line::Ask;
use dossier_check::accepted_claim_laws;
use dossier_text::{Dossier, Word3};
use item_lists::{Copies, Items};
use leaf_value::leaf_laws;
use plan_text::{OpLine, OpLines};
use plant_model::Plant;
use replay_core::{Planned, Timed, legal_plan_laws};
use slot_forms::form_laws;
use std::alloc::{AllocError, Global};

/// The line of an operation that the plant has.
fn op_line(alloc: Global, plant: &Plant, number: u32, t: Timed) -> Result<OpLine, AllocError>
    requires { t.op < op_count_of plant.now }
    ensures operation { IfOk result (λ line. timed_of plant.now line ≡ t) }
    ensures number { IfOk result (λ line. line.number ≡ number) }
    ensures form { IfOk result IsOpLine }
{
    plant.sound();
    let name = plant.op_name(t.op);
    // its name reads as the operation again
    let _ = plant.op_by_name(name);
    Ok(OpLine {
        number,
        name: Copies::new(alloc, name)?,
        start: t.start,
        end: t.end,
        volume: t.volume,
    })
}

/// The lines of a plan, numbered from 1.
fn op_lines(alloc: Global, plant: &Plant, plan: &[Timed]) -> Result<OpLines, AllocError>
    requires known { All (λ t. t.op < op_count_of plant.now) plan.now }
    requires few { length plan.now ≤ MOST_SLOTS }
    ensures plan { IfOk result (λ lines. plan_of plant.now lines ≡ plan.now) }
    ensures form { IfOk result (AreOpLines 1) }
{
    let mut lines = Items::new(alloc);
    for (i, t) in plan.iter().enumerate() {
        let line = op_line(alloc, plant, i as u32 + 1, *t)?;
        lines.push(line).map_err(|_| AllocError)?;
    }
    Ok(lines)
}

/// What the head of a dossier says beside its bound.
#[derive(Drop)]
struct Head {
    answer: Word3,
    margin: Option<i64>,
    plan: Option<OpLines>,
}

/// The head for what a search has found: its plan with the margin; without a plan, that there is none,
/// where no leaf has a value, and else neither.
fn head_of(
    alloc: Global,
    plant: &Plant,
    best: Option<Planned>,
    bound: Option<i64>,
) -> Result<Head, AllocError>
    requires { IfSome best (λ planned. All (λ t. t.op < op_count_of plant.now) planned.plan ×
        (length planned.plan ≤ MOST_SLOTS)) }
    ensures claim { IfOk result (IsHeadOf plant.now best bound) }
    ensures margin { IfOk result (λ head. IfSome head.margin (FitsSigned w64)) }
    ensures bound { IfSome bound (FitsSigned w64) }
{
    match (best, bound) {
        (Some(planned), _) => Ok(Head {
            answer: Word3::Plan,
            margin: Some(planned.margin),
            plan: Some(op_lines(alloc, plant, planned.plan.as_slice())?),
        }),
        (None, None) => Ok(Head {
            answer: Word3::Infeasible,
            margin: None,
            plan: None,
        }),
        (None, Some(_)) => Ok(Head {
            answer: Word3::Open3,
            margin: None,
            plan: None,
        }),
    }
}

/// The dossier of what a search has found.
pub(crate) fn conclude(
    alloc: Global,
    plant: &Plant,
    ask: Ask,
    found: Found,
) -> Result<Dossier, AllocError>
    requires some_slots { 1 ≤ ask.slots }
    requires most_slots { ask.slots ≤ MOST_SLOTS }
    requires most_nodes { ask.nodes ≤ MOST_NODES }
    requires found { IsFound plant.now ask.slots ask.nodes ask.workers found }
    ensures { IfOk result (IsSolution plant.now ask.slots ask.nodes ask.workers) }
{
    legal_plan_laws();
    accepted_claim_laws(plant);
    form_laws(plant);
    leaf_laws(plant);
    let Found {
        tickets,
        tree,
        best,
        bound,
    } = found;
    let head = head_of(alloc, plant, best, bound)?;
    Ok(Dossier {
        slots: ask.slots,
        nodes: tickets,
        answer: head.answer,
        margin: head.margin,
        bound,
        plan: head.plan,
        cuts: Items::new(alloc),
        tree,
    })
}
