ghost use Rattle.std.specs.Prelude.{◌≡◌, ◌+◌, ◌≤◌, length, IfOk, OnOk};
ghost use Rattle.std.specs.Result.{result_err};
ghost use Rattle.item_lists.specs.Faults.{first_of};
ghost use Rattle.limits.specs.declared.TheConstants.{MOST_SLOTS};
ghost use Rattle.dossier_text.specs.Ranges.{IsReadable};
ghost use Rattle.dossier_text.specs.Reading.{plan_length};
ghost use Rattle.dossier_check.specs.Claims.{claim_of};
ghost use Rattle.dossier_check.specs.Reasons.{slot_reasons, cut_reasons, first_cut_line, first_node_line, is_same, fits_answer, claim_reasons, dossier_reasons};
ghost use Rattle.dossier_check.specs.Verdicts.{IsVerdict, IsYesOfAccepted, ClaimsTruth};
ghost use Rattle.dossier_check.specs.inside.Tests.{Tests, IsVerdictOn};

use crate::cuts::is_lawful_cut;
use crate::laws::{accepted_claim_laws, reason_laws};
use crate::plan::check_plan;
use crate::reasons::{ANSWER, BOUND, FORM, INVALID_CUT, SLOTS, TOO_MANY};
use crate::tree::check_tree;
use crate::verdict::{Claim, Reason, Refusal, Verdict};
use dossier_text::{Dossier, DossierFault, Word3, read_dossier};
use item_lists::expect;
use limits::MOST_SLOTS;
use plan_text::OpLines;
use plant_model::Plant;
use std::alloc::{AllocError, Global};

/// How many lines a plan has.
fn plan_length(plan: &Option<OpLines>) -> u32
    requires { plan_length plan.now ≤ MOST_SLOTS }
    ensures { result ≡ plan_length plan.now }
{
    match plan {
        None => 0,
        Some(lines) => lines.as_slice().len() as u32,
    }
}

/// Tests the number of slots.
#[tactic(auto, unfolding(crate::specs::Reasons::slot_reasons))]
fn check_slots(dossier: &Dossier) -> Result<(), Reason>
    ensures reasons { result_err result ≡ first_of (slot_reasons dossier.now) }
    ensures some { OnOk result (1 ≤ dossier.now.slots) }
    ensures most { OnOk result (dossier.now.slots ≤ MOST_SLOTS) }
{
    expect(
        1 <= dossier.slots && dossier.slots <= u32::from(MOST_SLOTS),
        Reason::at(SLOTS, 3),
    )
}

/// Tests the cuts, the first of which stands in this line.
#[tactic(auto, unfolding(crate::specs::Reasons::cut_reasons))]
fn check_cuts(plant: &Plant, dossier: &Dossier, line: u32) -> Result<(), Reason>
    requires line { line ≡ first_cut_line dossier.now }
    requires readable { IsReadable dossier.now }
    ensures { result_err result ≡ first_of (cut_reasons plant.now dossier.now) }
{
    for (index, cut) in dossier.cuts.as_slice().iter().enumerate() {
        let holds = is_lawful_cut(plant, cut);
        expect(holds, Reason::at(INVALID_CUT, line + index as u32))?;
    }
    Ok(())
}

/// Whether a number, or none, is given where it should.
fn is_same(given: Option<i64>, wanted: Option<i128>) -> bool
    ensures { result ≡ is_same given wanted }
{
    match (given, wanted) {
        (None, None) => true,
        (Some(given), Some(wanted)) => i128::from(given) == wanted,
        (None, Some(_)) | (Some(_), None) => false,
    }
}

/// Whether that which the answer is about is given, and nothing else.
fn fits_answer(dossier: &Dossier) -> bool
    ensures { result ≡ fits_answer dossier.now.answer dossier.now.margin dossier.now.bound dossier.now.plan }
{
    let has_plan = dossier.plan.is_some();
    match dossier.answer {
        Word3::Plan => dossier.margin.is_some() && has_plan,
        Word3::Infeasible => dossier.margin.is_none() && dossier.bound.is_none() && !has_plan,
        Word3::Open3 => dossier.margin.is_none() && dossier.bound.is_some() && !has_plan,
    }
}

/// Tests the bound against the greatest value of a leaf, and then the answer.
#[tactic(auto, using(item_lists::proofs::FaultLaws::first_fault), unfolding(crate::specs::Reasons::claim_reasons))]
fn check_answer(dossier: &Dossier, greatest: Option<i128>) -> Result<(), Reason>
    ensures { result_err result ≡ first_of (claim_reasons dossier.now greatest) }
{
    expect(is_same(dossier.bound, greatest), Reason::at(BOUND, 7))?;
    expect(fits_answer(dossier), Reason::at(ANSWER, 5))
}

/// Tests a dossier that was read: what it gives.
#[tactic(auto, using(item_lists::proofs::FaultLaws::first_fault), unfolding(crate::specs::Reasons::dossier_reasons))]
fn check_dossier(alloc: Global, plant: &Plant, dossier: &Dossier) -> Result<Claim, Refusal>
    requires { IsReadable dossier.now }
    ensures reasons { Tests (dossier_reasons plant.now dossier.now) result }
    ensures claimed { IfOk result (λ claim. claim ≡ claim_of plant.now dossier.now) }
{
    check_slots(dossier)?;
    let line = 10 + plan_length(&dossier.plan);
    check_cuts(plant, dossier, line)?;
    let line = line + dossier.cuts.as_slice().len() as u32;
    let greatest = check_tree(alloc, plant, dossier, line)?;
    check_answer(dossier, greatest)?;
    let plan = check_plan(alloc, plant, dossier.slots, dossier.margin, &dossier.plan)?;
    Ok(Claim {
        slots: dossier.slots,
        answer: dossier.answer,
        plan,
        margin: dossier.margin,
        bound: dossier.bound,
    })
}

/// The verdict on the bytes of a dossier for the plant: yes, with what it gives, exactly where it is
/// accepted, and otherwise no, with the first reason and its line. What a yes says of the plant is true.
pub fn check(alloc: Global, plant: &Plant, bytes: &[u8]) -> Result<Verdict, AllocError>
    ensures verdict { IfOk result (IsVerdict plant.now bytes.now) }
    ensures accepted { IfOk result (IsYesOfAccepted plant.now bytes.now) }
    ensures claims { IfOk result (ClaimsTruth plant.now) }
{
    accepted_claim_laws(plant);
    reason_laws(plant);
    match read_dossier(alloc, bytes) {
        Ok(dossier) => verdict_on(alloc, plant, &dossier),
        Err(DossierFault::Line(line)) => Ok(Verdict::No { reason: FORM, line }),
        Err(DossierFault::TooMany(line)) => Ok(Verdict::No {
            reason: TOO_MANY,
            line,
        }),
        Err(DossierFault::Memory) => Err(AllocError),
    }
}

/// The verdict on a dossier that was read.
#[tactic(auto, using(item_lists::proofs::FaultLaws::nil_of_none))]
fn verdict_on(alloc: Global, plant: &Plant, dossier: &Dossier) -> Result<Verdict, AllocError>
    requires { IsReadable dossier.now }
    ensures { IfOk result (IsVerdictOn plant.now dossier.now) }
{
    match check_dossier(alloc, plant, dossier) {
        Ok(claim) => Ok(Verdict::Yes(claim)),
        Err(Refusal::First(Reason { reason, line })) => Ok(Verdict::No { reason, line }),
        Err(Refusal::Memory) => Err(AllocError),
    }
}
