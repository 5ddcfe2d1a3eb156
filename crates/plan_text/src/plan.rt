ghost use Rattle.std.specs.Prelude.{◌≡◌, ◌≢◌, ◌<◌, ◌≤◌, ◌+◌, ◌^◌, ℕ, List, [], ◌∷◌, ◌++◌, length, All, IfOk, OnOk, IfErr, IfSome, IfNone, MatchResult};
ghost use Rattle.limits.specs.declared.TheConstants.{MOST_STEPS};
ghost use Rattle.plant_model.specs.Parts.{op_count_of};
ghost use Rattle.replay_core.specs.declared.timed.Timed.{Timed};
ghost use Rattle.plan_text.specs.declared.op_line.OpLine.{OpLine};
ghost use Rattle.plan_text.specs.OpLine.{IsOpLine, op_line_bytes};
ghost use Rattle.plan_text.specs.Plans.{line_for, IsSayable, IsPrintable};
ghost use Rattle.plan_text.specs.PlanText.{plan_bytes, ReadsPlan, SaysPlan};
ghost use Rattle.plan_text.specs.inside.Fields.{fields_line};
ghost use Rattle.plan_text.specs.inside.Steps.{SaysStep, IsStepRead, IsStepBad};

use crate::fault::PlanTextFault;
use crate::op_line::{Fields, fields_of, write_fields};
use item_lists::Items;
use limits::MOST_STEPS;
use line_text::{Lines, push_text};
use plant_model::Plant;
use replay_core::{Plan, Timed};
use std::alloc::{AllocError, Global};

/// The operation that the text of a line of this number says.
fn step_of(plant: &Plant, number: u32, text: &[u8]) -> Option<Timed>
    ensures found { IfSome result (SaysStep plant.now number text.now) }
    ensures none { IfNone result
        ((line : OpLine) → IsOpLine line → line.number ≡ number → text.now ≢ op_line_bytes line) }
{
    let fields = fields_of(text)?;
    if fields.number != number {
        return None;
    }
    Some(Timed {
        op: plant.op_by_name(fields.name),
        start: fields.start,
        end: fields.end,
        volume: fields.volume,
    })
}

/// The operation that the next line says, where the line is one of a plan.
fn next_step(plant: &Plant, lines: &mut Lines<'_>) -> Option<Timed>
    requires { lines.old.number + 1 < 2 ^ 32 }
    ensures found { IfSome result (IsStepRead plant.now lines.old lines.new) }
    ensures none { IfNone result (IsStepBad lines.old) }
{
    let number = lines.number();
    if number > MOST_STEPS {
        return None;
    }
    let text = lines.next_line()?;
    step_of(plant, number, text)
}

/// Adds the operation at the end.
fn keep(plan: &mut Plan, t: Timed) -> Result<(), PlanTextFault>
    ensures kept { OnOk result (plan.new ≡ plan.old ++ t ∷ []) }
    ensures memory { IfErr result (λ fault. fault ≡ PlanTextFault.Memory) }
{
    match plan.push(t) {
        Ok(()) => Ok(()),
        Err(_) => Err(PlanTextFault::Memory),
    }
}

/// Reads line by line, up to the first that is none of a plan.
fn read_lines(alloc: Global, plant: &Plant, bytes: &[u8]) -> Result<Plan, PlanTextFault>
    ensures { ReadsPlan plant.now bytes.now result }
{
    let mut lines = Lines::new(bytes);
    let mut plan = Items::new(alloc);
    while !lines.is_at_end() {
        let number = lines.number();
        match next_step(plant, &mut lines) {
            None => return Err(PlanTextFault::Line(number)),
            Some(step) => keep(&mut plan, step)?,
        }
    }
    Ok(plan)
}

/// The plan that the bytes are the text of. A name that the plant has not is read as operation 255, so
/// that the replay of the plan tells it.
pub fn read_plan(alloc: Global, plant: &Plant, bytes: &[u8]) -> Result<Plan, PlanTextFault>
    ensures reads { ReadsPlan plant.now bytes.now result }
    ensures few { IfOk result (λ plan. length plan ≤ MOST_STEPS) }
    ensures text { IfOk result (λ plan. All (λ t. t.op < op_count_of plant.now) plan
        → bytes.now ≡ plan_bytes plant.now plan) }
    ensures printed { (plan : List Timed) → IsPrintable plant.now plan → bytes.now ≡ plan_bytes plant.now plan
        → MatchResult result (λ read. read ≡ plan) (λ fault. fault ≡ PlanTextFault.Memory) }
{
    plant.sound();
    read_lines(alloc, plant, bytes)
}

/// The words of the line of an operation that is the plant's.
pub(crate) fn step_fields<'a>(plant: &'a Plant, number: u32, t: Timed) -> Fields<'a>
    requires { t.op < op_count_of plant.now }
    ensures { fields_line result ≡ line_for plant.now number t }
{
    Fields {
        number,
        name: plant.op_name(t.op),
        start: t.start,
        end: t.end,
        volume: t.volume,
    }
}

/// Writes the line of an operation that is the plant's, and its line feed.
pub(crate) fn write_step_line(
    out: &mut Vec<u8>,
    plant: &Plant,
    number: u32,
    t: Timed,
) -> Result<(), AllocError>
    requires { t.op < op_count_of plant.now }
    ensures line { OnOk result (out.new.items
        ≡ out.old.items ++ (op_line_bytes (line_for plant.now number t) ++ 10 ∷ [])) }
    ensures sayable { IsSayable plant.now t }
{
    write_fields(out, &step_fields(plant, number, t))?;
    push_text(out, b"\n")
}

/// The text of the plan: a line for each operation, numbered from 1.
pub fn print_plan(alloc: Global, plant: &Plant, plan: &[Timed]) -> Result<Vec<u8>, AllocError>
    requires known { All (λ t. t.op < op_count_of plant.now) plan.now }
    requires few { length plan.now ≤ MOST_STEPS }
    ensures text { IfOk result (λ text. text.items ≡ plan_bytes plant.now plan.now) }
    ensures again { IfOk result (λ text. SaysPlan plant.now text.items plan.now) }
{
    plant.sound();
    print_lines(alloc, plant, plan)
}

/// Writes line by line.
fn print_lines(alloc: Global, plant: &Plant, plan: &[Timed]) -> Result<Vec<u8>, AllocError>
    requires known { All (λ t. t.op < op_count_of plant.now) plan.now }
    requires few { length plan.now ≤ MOST_STEPS }
    ensures text { IfOk result (λ text. text.items ≡ plan_bytes plant.now plan.now) }
    ensures sayable { OnOk result (All (IsSayable plant.now) plan.now) }
{
    let mut out = Vec::new(alloc);
    for (i, t) in plan.iter().enumerate() {
        write_step_line(&mut out, plant, i as u32 + 1, *t)?;
    }
    Ok(out)
}
