//! The cuts that a dossier lists, and their rows.

ghost use Rattle.std.specs.Prelude.{◌≡◌, ◌<◌, ◌≤◌, Some, length, map, slice_get, IfOk, OnOk};
ghost use Rattle.limits.specs.declared.TheConstants.{MOST_MULTIPLIER, MOST_SLOTS};
ghost use Rattle.row_forms.specs.Fits.{IsFitRow};
ghost use Rattle.slot_box.specs.declared.term.Term.TheVariants as terms;
ghost use Rattle.leaf_value.specs.LeafValue.{row_of_term};
ghost use Rattle.dossier_check.specs.Frames.{padded, cut_of, is_lawful_cut, setting_of};
ghost use Rattle.dossier_check.specs.NodeReasons.{term_reasons};
ghost use Rattle.dossier_check.specs.inside.Tests.{Tests};

use crate::reasons::{CUT, CUT_ROW, LIMITS};
use crate::verdict::{Reason, Refusal};
use blend_cuts::{cut_row, cut_valid};
use dossier_text::{CutLine, Dossier};
use item_lists::expect;
use limits::{MOST_CRUDES, MOST_MULTIPLIER};
use linear_form::Row;
use plant_model::Plant;
use slot_box::CutParams;
use std::alloc::Global;

/// The weights of a line, and 0 for each crude past the last of them.
fn padded(weights: &[i64]) -> [i64; 12]
    ensures { result ≡ padded weights.now }
{
    let mut padded = [0; MOST_CRUDES as usize];
    let count = weights.len().min(padded.len());
    padded[..count].copy_from_slice(&weights[..count]);
    padded
}

/// The cut of a line, as entries name it.
fn cut_of(line: &CutLine) -> CutParams
    ensures { result ≡ cut_of line.now }
{
    CutParams {
        places: line.places,
        p: line.p,
        q: line.q,
        weights: padded(line.weights.as_slice()),
    }
}

/// Whether entries may name the cut of the line.
pub(crate) fn is_lawful_cut(plant: &Plant, line: &CutLine) -> bool
    ensures { result ≡ is_lawful_cut plant.now line.now }
{
    let count = usize::from(plant.crude_count());
    line.weights.as_slice().len() == count && cut_valid(plant, &cut_of(line))
}

/// The cut of this number, counted from 0.
#[tactic(auto, using(crate::proofs::CutLaws::cut_there))]
fn cut_at(dossier: &Dossier, cut: u32) -> CutParams
    requires { cut < length dossier.now.cuts }
    ensures { slice_get (map cut_of dossier.now.cuts) cut ≡ Some result }
{
    cut_of(&dossier.cuts.as_slice()[cut as usize])
}

/// The row of an entry in this line, which names it by a cut, a slot and an operation, with this multiplier.
#[tactic(auto, using(item_lists::proofs::FaultLaws::first_fault), unfolding(crate::specs::NodeReasons::term_reasons))]
pub(crate) fn row_of_cut_entry(
    alloc: Global,
    plant: &Plant,
    dossier: &Dossier,
    line: u32,
    cut: u32,
    slot: u32,
    op: u8,
    y: u64,
) -> Result<Row, Refusal>
    requires { dossier.now.slots ≤ MOST_SLOTS }
    ensures reasons { Tests (term_reasons (setting_of plant.now dossier.now) line (terms.Cut cut slot op y)) result }
    ensures row { IfOk result (λ row. row ≡ row_of_term (setting_of plant.now dossier.now) (terms.Cut cut slot op y)) }
    ensures fits { IfOk result (IsFitRow plant.now dossier.now.slots) }
    ensures small { OnOk result (y ≤ MOST_MULTIPLIER) }
{
    expect(y <= MOST_MULTIPLIER, Reason::at(LIMITS, line))?;
    let count = dossier.cuts.as_slice().len();
    expect((cut as usize) < count, Reason::at(CUT, line))?;
    let params = cut_at(dossier, cut);
    match cut_row(alloc, plant, dossier.slots, &params, slot, op)? {
        Some(row) => Ok(row),
        None => Err(Refusal::First(Reason::at(CUT_ROW, line))),
    }
}
