//! The objective: what charges earn, less what vessels pay for waiting.

ghost use Rattle.std.specs.Prelude.{◌≡◌, ◌<◌, ◌≤◌, ◌++◌, length, All, OnOk, IfOk, unsigned_abs};
ghost use Rattle.limits.specs.declared.TheConstants.{MOST_CRUDES, MOST_PLACES, MOST_VOLUME};
ghost use Rattle.plant_model.specs.Parts.{crude_count_of};
ghost use Rattle.row_forms.specs.Sizes.{AreFewAndSmall};
ghost use Rattle.row_forms.specs.Fits.{AreFitTerms};
ghost use Rattle.slot_rows.specs.Objective.{gain_piece, demurrage_piece, gain_pieces, demurrage_pieces, objective_of};

use linear_form::Objective;
use plant_model::Plant;
use row_forms::{Figure, Piece, Which, build_terms, row_form_laws};
use std::alloc::{AllocError, Global};

/// What all charges draw of a crude, by its margin.
fn gain_piece(plant: &Plant, n: u32, c: u8) -> Piece
    requires { c < crude_count_of plant.now }
    ensures value { result ≡ gain_piece plant.now n c }
    ensures small { unsigned_abs result.factor ≤ MOST_VOLUME }
{
    Piece::new(plant.margin(c), 1, n, Which::Charges, Figure::Amount(c))
}

/// What a vessel waits, by what it pays for a minute.
fn demurrage_piece(plant: &Plant, p: u8) -> Piece
    requires { p < length plant.now.vessels }
    ensures value { result ≡ demurrage_piece plant.now p }
    ensures small { unsigned_abs result.factor ≤ MOST_VOLUME }
{
    Piece::wait(-i64::from(plant.place(p).demurrage), p)
}

/// How many vessels the plant has.
pub(crate) fn vessel_count(plant: &Plant) -> u8
    ensures value { result ≡ length plant.now.vessels }
    ensures most { result ≤ MOST_PLACES }
{
    plant.sound();
    plant.as_parts().vessels.as_slice().len() as u8
}

/// The gains, crude by crude.
fn gain_pieces(alloc: Global, plant: &Plant, n: u32) -> Result<Vec<Piece>, AllocError>
    ensures value { IfOk result (λ pieces. pieces.items ≡ gain_pieces plant.now n) }
    ensures few { IfOk result (λ pieces. length pieces.items ≤ MOST_CRUDES) }
    ensures small { IfOk result (λ pieces. All (λ piece. unsigned_abs piece.factor ≤ MOST_VOLUME) pieces.items) }
{
    let mut pieces = Vec::new(alloc);
    for c in 0..plant.crude_count() {
        pieces.push(gain_piece(plant, n, c))?;
    }
    Ok(pieces)
}

/// Adds what vessels pay, vessel by vessel.
fn push_demurrage(plant: &Plant, pieces: &mut Vec<Piece>) -> Result<(), AllocError>
    requires few { length pieces.old.items ≤ MOST_CRUDES }
    requires small { All (λ piece. unsigned_abs piece.factor ≤ MOST_VOLUME) pieces.old.items }
    ensures value { OnOk result (pieces.new.items ≡ pieces.old.items ++ demurrage_pieces plant.now) }
    ensures small { OnOk result (AreFewAndSmall pieces.new.items) }
{
    for p in 0..vessel_count(plant) {
        pieces.push(demurrage_piece(plant, p))?;
    }
    Ok(())
}

/// The objective over forms of n slots, in margin.
#[tactic(auto, unfolding(crate::specs::Objective::objective_of))]
pub fn objective(alloc: Global, plant: &Plant, n: u32) -> Result<Objective, AllocError>
    ensures value { IfOk result (λ objective. objective ≡ objective_of plant.now n) }
    ensures fits { IfOk result (AreFitTerms plant.now n) }
{
    row_form_laws(plant);
    let mut pieces = gain_pieces(alloc, plant, n)?;
    push_demurrage(plant, &mut pieces)?;
    build_terms(alloc, plant, n, &pieces)
}
