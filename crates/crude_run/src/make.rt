ghost use Rattle.std.specs.Prelude.{◌≡◌, ◌<◌, ◌+◌, ◌++◌, ◌∷◌, [], map, length, codes, decimal, OnOk, IfOk};
ghost use Rattle.line_text.specs.Words.{line_of, spaced, text_of};
ghost use Rattle.plant_maker.specs.Made.{made_parts};
ghost use Rattle.command_line.specs.declared.command.Command.TheVariants.{Make};
ghost use Rattle.crude_run.specs.Files.{Files};
ghost use Rattle.crude_run.specs.Numbers.{trial_slots, trial_budget};
ghost use Rattle.crude_run.specs.Solving.{Solves};
ghost use Rattle.crude_run.specs.Texts.{digits_of, trial_points, sizes_of, trial_lines, tried};
ghost use Rattle.crude_run.specs.Making.{TriesPlant, IsTrialClaim, Makes};
ghost use Rattle.crude_run.specs.Answered.{Serves, Answered, outlet_between};
ghost use Rattle.crude_run.specs.Stopping.{IfDue};

use crate::answer::Answer;
use crate::opening::Stop;
use crate::send::finish;
use crate::show::show;
use crate::solve::solve_alone;
use crate::status::{MADE, Status, WRITE_FAILED};
use dossier_check::{Claim, Verdict, check};
use dossier_text::write_claim;
use item_lists::Copies;
use itoa::Buffer;
use line_text::{push_count, push_number, push_text};
use outer_edge::{FreeGate, Sink};
use plant_maker::make;
use plant_model::Plant;
use slot_forms::root_box;
use std::alloc::{AllocError, Global};

/// The most operations of the plans of the trial search.
const TRIAL_SLOTS: u32 = 2;
/// How many nodes it may divide.
const TRIAL_BUDGET: u32 = 8;

/// `make`: writes the one text of the plant of the number, or with `solve` what a small search finds of it.
///
/// It reads no file, so that the answer is the same whatever files there are.
pub fn make_text<K: Sink>(alloc: Global, number: u32, solve: bool, out: &mut K) -> Status
    ensures answered { (files : Files) → Answered (Serves (Make number solve) files)
        (outlet_between K.taken K.faults out.old out.new) result }
    ensures cut_off { K.faults out.old < K.faults out.new → result ≡ WRITE_FAILED }
{
    finish(make_answer(alloc, number, solve), out)
}

/// The answer to the number.
fn make_answer(alloc: Global, number: u32, solve: bool) -> Result<Answer, Stop>
    ensures { IfDue result (Makes number solve) }
{
    let plant = make(alloc, number)?;
    let answer = answer_to(alloc, number, &plant, solve)?;
    Ok(answer)
}

/// The answer to the plant of the number.
fn answer_to(alloc: Global, number: u32, plant: &Plant, solve: bool) -> Result<Answer, AllocError>
    requires { plant.now ≡ made_parts number }
    ensures { IfOk result (Makes number solve) }
{
    if solve {
        try_plant(alloc, number, plant)
    } else {
        show(alloc, plant)
    }
}

/// The answer to the plant of the number, once it has been tried.
fn try_plant(alloc: Global, number: u32, plant: &Plant) -> Result<Answer, AllocError>
    requires { plant.now ≡ made_parts number }
    ensures { IfOk result (TriesPlant number) }
{
    let claim = trial_claim(alloc, plant)?;
    tried(alloc, number, plant, &claim)
}

/// What the dossier of the trial search claims of the plant.
fn trial_claim(alloc: Global, plant: &Plant) -> Result<Claim, AllocError>
    ensures { IfOk result (IsTrialClaim plant.now) }
{
    let found = solve_alone(alloc, plant, TRIAL_SLOTS, TRIAL_BUDGET, &FreeGate)?;
    checked_claim(alloc, plant, &found)
}

/// What the text that was found claims of the plant, as the checker reads it.
fn checked_claim(alloc: Global, plant: &Plant, found: &Answer) -> Result<Claim, AllocError>
    requires { Solves plant.now trial_slots trial_budget 1 found.now }
    ensures { IfOk result (IsTrialClaim plant.now) }
{
    let verdict = check(alloc, plant, found.text.as_slice())?;
    match verdict {
        Verdict::Yes(claim) => Ok(claim),
        // what is found is accepted
        Verdict::No { .. } => unreachable!(),
    }
}

/// How many points the root box of the trial search has.
fn trial_points(alloc: Global, plant: &Plant) -> Result<u128, AllocError>
    ensures { IfOk result (λ points. points ≡ trial_points plant.now) }
{
    let root = root_box(alloc, plant, TRIAL_SLOTS)?;
    Ok(root.points())
}

/// How many decimal digits the number has.
fn digits_of(number: u128) -> usize
    ensures { result ≡ digits_of number }
{
    Buffer::new().format(number).len()
}

/// How many tanks the plant has, storage and charging tanks together.
#[tactic(auto, unfolding(plant_model::specs::Parts::place_count_of))]
fn tank_count(plant: &Plant) -> usize
    ensures { result ≡ length plant.now.storage + length plant.now.charging }
{
    // the places of a plant are few
    let _ = plant.place_count();
    let parts = plant.as_parts();
    parts.storage.as_slice().len() + parts.charging.as_slice().len()
}

/// How large the plant is.
fn sizes_of(plant: &Plant) -> [u64; 6]
    ensures { result ≡ sizes_of plant.now }
{
    let parts = plant.as_parts();
    [
        u64::from(plant.crude_count()),
        parts.vessels.as_slice().len() as u64,
        tank_count(plant) as u64,
        parts.units.as_slice().len() as u64,
        u64::from(plant.op_count()),
        u64::from(plant.horizon()),
    ]
}

/// Writes each number as a word.
fn push_numbers(out: &mut Vec<u8>, numbers: &[u64]) -> Result<(), AllocError>
    ensures { OnOk result (out.new.items ≡ out.old.items ++ spaced (map decimal numbers.now)) }
{
    for number in numbers {
        push_number(out, *number)?;
    }
    Ok(())
}

/// Writes the line that says how large the plant is.
fn write_sizes(out: &mut Vec<u8>, plant: &Plant) -> Result<(), AllocError>
    ensures { OnOk result (out.new.items
        ≡ out.old.items ++ (line_of (codes "sizes" ∷ map decimal (sizes_of plant.now)) ++ 10 ∷ [])) }
{
    push_text(out, b"sizes")?;
    push_numbers(out, &sizes_of(plant))?;
    push_text(out, b"\n")
}

/// Writes the lines above those of the claim.
fn write_trial(
    out: &mut Vec<u8>,
    number: u32,
    plant: &Plant,
    points: u128,
) -> Result<(), AllocError>
    requires { points ≡ trial_points plant.now }
    ensures { OnOk result (out.new.items ≡ out.old.items ++ text_of (trial_lines number plant.now)) }
{
    push_count(out, b"made", u64::from(number))?;
    write_sizes(out, plant)?;
    push_count(out, b"points", digits_of(points) as u64)?;
    push_count(out, b"budget", u64::from(TRIAL_BUDGET))?;
    push_text(out, b"verdict yes\n")
}

/// The answer that tells how large the plant of the number is, and what is claimed of it.
fn tried(alloc: Global, number: u32, plant: &Plant, claim: &Claim) -> Result<Answer, AllocError>
    ensures { IfOk result (λ answer. answer
        ≡ tried number plant.now claim.now.answer claim.now.margin claim.now.bound) }
{
    let points = trial_points(alloc, plant)?;
    let mut text = Vec::new(alloc);
    write_trial(&mut text, number, plant, points)?;
    write_claim(&mut text, claim.answer, claim.margin, claim.bound)?;
    Ok(Answer {
        status: Status::new(MADE),
        text: Copies::from_vec(text),
    })
}
