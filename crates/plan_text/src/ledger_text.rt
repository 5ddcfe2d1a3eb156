ghost use Rattle.std.specs.Prelude.{◌≡◌, ◌<◌, ◌≤◌, ◌+◌, [], ◌∷◌, ◌++◌, map, length, codes, decimal, OnOk, IfOk, IfErr};
ghost use Rattle.std.specs.Fmt.{signed_decimal};
ghost use Rattle.limits.specs.declared.TheConstants.{MOST_STEPS};
ghost use Rattle.line_text.specs.Words.{spaced, line_of, text_of};
ghost use Rattle.plant_model.specs.Parts.{op_count_of, place_count_of, place_of};
ghost use Rattle.replay_core.specs.Legal.{CanRun};
ghost use Rattle.replay_core.specs.State.{state_after, draw_at};
ghost use Rattle.replay_core.specs.declared.order.Order.TheVariants.{ByStart};
ghost use Rattle.plan_text.specs.Ledger.{head_lines, holding_words, place_words, step_lines, step_lines_from, unit_words, lines_at, unit_lines, IsLedger, HasNoLedger};
ghost use Rattle.plan_text.specs.inside.Running.{ran, BreaksStep};

use crate::plan::write_step_line;
use crude_amounts::Amounts;
use line_text::{push_count, push_number, push_signed_number, push_text, push_word};
use plant_model::{PlaceKind, Plant};
use replay_core::{Replay, ReplayFault, Timed};
use std::alloc::{AllocError, Global};

/// Writes the line of what the plan earns.
fn write_margin(out: &mut Vec<u8>, margin: i64) -> Result<(), AllocError>
    ensures { OnOk result (out.new.items ≡ out.old.items
        ++ (line_of (codes "margin" ∷ signed_decimal margin ∷ []) ++ 10 ∷ [])) }
{
    push_text(out, b"margin")?;
    push_signed_number(out, margin)?;
    push_text(out, b"\n")
}

/// Writes that the plan is legal, what it earns, and how many operations it has.
#[tactic(auto, unfolding(crate::specs::Ledger::head_lines))]
fn write_head(out: &mut Vec<u8>, margin: i64, count: u64) -> Result<(), AllocError>
    ensures { OnOk result (out.new.items ≡ out.old.items ++ text_of (head_lines margin count)) }
{
    push_text(out, b"legal\n")?;
    write_margin(out, margin)?;
    push_count(out, b"operations", count)
}

/// Writes the amount of each crude as a word.
fn push_amounts(out: &mut Vec<u8>, amounts: &Amounts) -> Result<(), AllocError>
    ensures { OnOk result (out.new.items ≡ out.old.items ++ spaced (map decimal amounts.now)) }
{
    for c in 0..amounts.len() {
        push_number(out, amounts.get(c))?;
    }
    Ok(())
}

/// Writes amounts as words: in all, and crude by crude.
fn push_holding(out: &mut Vec<u8>, amounts: &Amounts) -> Result<(), AllocError>
    ensures { OnOk result (out.new.items ≡ out.old.items ++ spaced (holding_words amounts.now)) }
{
    push_number(out, amounts.total())?;
    push_amounts(out, amounts)
}

/// Writes the line of what an operation draws.
fn write_draw(out: &mut Vec<u8>, drawn: &Amounts) -> Result<(), AllocError>
    ensures { OnOk result (out.new.items
        ≡ out.old.items ++ (line_of (codes "draw" ∷ map decimal drawn.now) ++ 10 ∷ [])) }
{
    push_text(out, b"draw")?;
    push_amounts(out, drawn)?;
    push_text(out, b"\n")
}

/// Writes the line, behind this word, of what a place holds.
fn write_place(
    out: &mut Vec<u8>,
    plant: &Plant,
    replay: &Replay<'_>,
    word: &[u8],
    p: u8,
) -> Result<(), AllocError>
    requires same { replay.now.parts ≡ plant.now }
    requires place { p < place_count_of plant.now }
    ensures { OnOk result (out.new.items ≡ out.old.items
        ++ (line_of (word.now ∷ place_words plant.now (state_after plant.now replay.now.steps) p) ++ 10 ∷ [])) }
{
    push_text(out, word)?;
    push_word(out, plant.place_name(p))?;
    push_holding(out, &replay.held(p))?;
    push_text(out, b"\n")
}

/// Lets the operation run; then it is one of the plant's.
fn run_step(plant: &Plant, replay: &mut Replay<'_>, t: Timed) -> Result<Amounts, ReplayFault>
    requires same { replay.old ≡ ran plant.now replay.old.steps }
    requires room { length replay.old.steps < MOST_STEPS }
    ensures ran { OnOk result (replay.new ≡ ran plant.now (replay.old.steps ++ t ∷ [])) }
    ensures can_run { OnOk result (CanRun plant.now ByStart (replay.old.steps ++ t ∷ [])) }
    ensures known { OnOk result (t.op < op_count_of plant.now) }
    ensures draw { IfOk result (λ drawn. drawn ≡ draw_at plant.now replay.old.steps t) }
    ensures broken { IfErr result (BreaksStep plant.now replay.old.steps t) }
{
    plant.sound();
    let drawn = replay.step(t)?;
    Ok(drawn)
}

/// Lets the operation run, and writes its lines.
#[tactic(auto, unfolding(crate::specs::Ledger::step_lines))]
fn write_step(
    out: &mut Vec<u8>,
    plant: &Plant,
    replay: &mut Replay<'_>,
    number: u32,
    t: Timed,
) -> Result<(), ReplayFault>
    requires same { replay.old ≡ ran plant.now replay.old.steps }
    requires room { length replay.old.steps < MOST_STEPS }
    requires number { number ≡ length replay.old.steps + 1 }
    ensures ran { OnOk result (replay.new ≡ ran plant.now (replay.old.steps ++ t ∷ [])) }
    ensures can_run { OnOk result (CanRun plant.now ByStart (replay.old.steps ++ t ∷ [])) }
    ensures text { OnOk result (out.new.items ≡ out.old.items ++ text_of (step_lines plant.now replay.old.steps t)) }
    ensures broken { IfErr result (BreaksStep plant.now replay.old.steps t) }
{
    let drawn = run_step(plant, replay, t)?;
    let op = plant.op(t.op);
    write_step_line(out, plant, number, t)?;
    write_draw(out, &drawn)?;
    write_place(out, plant, replay, b"from", op.from)?;
    write_place(out, plant, replay, b"to", op.to)?;
    Ok(())
}

/// Lets the operations of a plan run, and writes the lines of each.
fn write_steps(
    out: &mut Vec<u8>,
    plant: &Plant,
    replay: &mut Replay<'_>,
    plan: &[Timed],
) -> Result<(), ReplayFault>
    requires fresh { replay.old ≡ ran plant.now [] }
    requires few { length plan.now ≤ MOST_STEPS }
    ensures ran { OnOk result (replay.new ≡ ran plant.now plan.now) }
    ensures text { OnOk result (out.new.items ≡ out.old.items ++ text_of (step_lines_from plant.now [] plan.now)) }
    ensures broken { IfErr result (HasNoLedger plant.now plan.now) }
{
    for (i, t) in plan.iter().enumerate() {
        write_step(out, plant, replay, i as u32 + 1, *t)?;
    }
    Ok(())
}

/// Writes the line of a unit.
#[tactic(auto, unfolding(crate::specs::Ledger::unit_words))]
fn write_unit(
    out: &mut Vec<u8>,
    plant: &Plant,
    replay: &Replay<'_>,
    p: u8,
) -> Result<(), AllocError>
    requires same { replay.now.parts ≡ plant.now }
    requires place { p < place_count_of plant.now }
    ensures { OnOk result (out.new.items ≡ out.old.items
        ++ (line_of (unit_words plant.now replay.now.steps p) ++ 10 ∷ [])) }
{
    push_text(out, b"unit")?;
    push_word(out, plant.place_name(p))?;
    push_number(out, u64::from(replay.charges(p)))?;
    push_number(out, replay.minutes(p))?;
    push_holding(out, &replay.held(p))?;
    push_text(out, b"\n")
}

/// Writes the line of the place, where it is a unit.
fn write_if_unit(
    out: &mut Vec<u8>,
    plant: &Plant,
    replay: &Replay<'_>,
    p: u8,
) -> Result<(), AllocError>
    requires same { replay.now.parts ≡ plant.now }
    requires place { p < place_count_of plant.now }
    ensures { OnOk result (out.new.items ≡ out.old.items
        ++ text_of (lines_at plant.now replay.now.steps p (place_of plant.now p))) }
{
    match plant.place(p).kind {
        PlaceKind::Unit => write_unit(out, plant, replay, p),
        PlaceKind::Vessel | PlaceKind::Storage | PlaceKind::Charging => Ok(()),
    }
}

/// Writes a line of each unit.
fn write_units(out: &mut Vec<u8>, plant: &Plant, replay: &Replay<'_>) -> Result<(), AllocError>
    requires { replay.now.parts ≡ plant.now }
    ensures { OnOk result (out.new.items ≡ out.old.items ++ text_of (unit_lines plant.now replay.now.steps)) }
{
    for p in 0..plant.place_count() {
        write_if_unit(out, plant, replay, p)?;
    }
    Ok(())
}

/// The ledger of the plan, where it is legal; else the first rule that it breaks.
#[tactic(auto, unfolding(crate::specs::Ledger::ledger_lines))]
pub fn ledger(alloc: Global, plant: &Plant, plan: &[Timed]) -> Result<Vec<u8>, ReplayFault>
    requires { length plan.now ≤ MOST_STEPS }
    ensures legal { IfOk result (λ text. IsLedger plant.now plan.now text.items) }
    ensures broken { IfErr result (HasNoLedger plant.now plan.now) }
{
    let mut replay = Replay::new(alloc, plant)?;
    let mut steps = Vec::new(alloc);
    write_steps(&mut steps, plant, &mut replay, plan)?;
    let margin = replay.finish()?;
    let mut text = Vec::new(alloc);
    write_head(&mut text, margin, plan.len() as u64)?;
    push_text(&mut text, &steps)?;
    write_units(&mut text, plant, &replay)?;
    Ok(text)
}
