//! Entries that may become a leaf's, and the better of two.
//!
//! Owed: that the entries are lawful, that their value is the dual value of the box by them, and that those that are
//! kept show the box empty or have the lesser value. Whatever guess is tried is free.

ghost use Rattle.std.specs.Prelude.{◌≡◌, ◌⊎◌, ◌++◌, ◌∷◌, [], All, filter, length, replicate, IfOk, OnOk};
ghost use Rattle.dual_bound.specs.Conditions.{IsGuess};
ghost use Rattle.slot_box.specs.declared.term.Term.TheVariants as entries;
ghost use Rattle.slot_box.specs.Ranges.{IsTerm};
ghost use Rattle.leaf_value.specs.LeafValue.{dual_value_of};
ghost use Rattle.search_node.specs.inside.Candidates.{IsCandidate, IsNoWorse, Reaches, entries_by, taken_by};
ghost use Rattle.search_node.specs.inside.Weighings.{IsWhole, setting_of};
ghost use Rattle.search_node.specs.Laws.{is_taken};
ghost use Rattle.search_node.specs.Tables.{IsBlockOf};

use crate::block::RowBlock;
use crate::weighing::Weighing;
use dual_bound::{Guess, YList, bound, shows_empty};
use item_lists::Items;
use slot_box::{RowName, Term, Terms};
use std::alloc::{AllocError, Global};

/// Entries over a denominator, with what they say of a box.
#[derive(Debug, Drop)]
pub(crate) struct Candidate {
    pub q: u64,
    pub terms: Terms,
    /// The dual value of the box.
    pub value: i128,
    /// Whether they contradict each other there.
    pub is_empty: bool,
}

/// Adds the entry of a name with its multiplier, unless that is 0.
fn take_term(terms: &mut Terms, name: RowName, y: u64) -> Result<(), AllocError>
    ensures taken { OnOk result (terms.new ≡ terms.old ++ filter is_taken (entries.Row name y ∷ [])) }
    ensures fit { All IsTerm terms.old → OnOk result (All IsTerm terms.new) }
{
    if y > 0 {
        terms.push(Term::Row { name, y }).map_err(|_| AllocError)?;
    }
    Ok(())
}

/// Names with their multipliers as entries, but for those whose multiplier is 0.
fn taken_terms(alloc: Global, names: &[RowName], multipliers: &[u64]) -> Result<Terms, AllocError>
    requires { length multipliers.now ≡ length names.now }
    ensures taken { IfOk result (λ terms. terms ≡ taken_by names.now multipliers.now) }
    ensures fit { IfOk result (All IsTerm) }
{
    let mut terms = Items::new(alloc);
    for (k, name) in names.iter().enumerate() {
        take_term(&mut terms, *name, multipliers[k])?;
    }
    Ok(terms)
}

/// No multipliers at all.
pub(crate) fn zeros(alloc: Global, block: &RowBlock) -> Result<Guess, AllocError>
    requires { length block.now.rows ≡ length block.now.names }
    ensures guess { IfOk result (λ guess. IsGuess block.now.rows guess.y guess.q) }
    ensures y { IfOk result (λ guess. guess.y ≡ replicate (length block.now.rows) 0) }
    ensures q { IfOk result (λ guess. guess.q ≡ 1) }
{
    let y = vec![in alloc; 0u64; block.rows.as_slice().len()]?;
    Ok(Guess {
        y: YList::from_vec(y),
        q: 1,
    })
}

/// The dual value of the box by a guess of a block's rows.
pub(crate) fn value_by(weighing: &Weighing, block: &RowBlock, guess: &Guess) -> i128
    requires whole { IsWhole weighing.now }
    requires block { IsBlockOf weighing.now.plant.now (length weighing.now.bx.now) block.now }
    requires guess { IsGuess block.now.rows guess.now.y guess.now.q }
    ensures { result ≡ dual_value_of (setting_of weighing.now) weighing.now.bx.now guess.now.q
        (entries_by block.now.names guess.now.y) }
{
    bound(
        &block.rows,
        weighing.ranges,
        &weighing.table.objective,
        guess,
    )
}

/// The entries of a guess of a block's rows.
pub(crate) fn candidate_of(
    alloc: Global,
    weighing: &Weighing,
    block: &RowBlock,
    guess: &Guess,
) -> Result<Candidate, AllocError>
    requires whole { IsWhole weighing.now }
    requires block { IsBlockOf weighing.now.plant.now (length weighing.now.bx.now) block.now }
    requires guess { IsGuess block.now.rows guess.now.y guess.now.q }
    ensures candidate { IfOk result (IsCandidate (setting_of weighing.now) weighing.now.bx.now) }
    ensures value { IfOk result (λ candidate. candidate.value ≡ dual_value_of (setting_of weighing.now)
        weighing.now.bx.now guess.now.q (entries_by block.now.names guess.now.y)) }
{
    Ok(Candidate {
        q: guess.q,
        terms: taken_terms(alloc, block.names.as_slice(), guess.y.as_slice())?,
        value: value_by(weighing, block, guess),
        is_empty: shows_empty(&block.rows, weighing.ranges, guess),
    })
}

/// The one that shows the box empty, or has the lesser value.
pub(crate) fn lesser(first: Candidate, second: Candidate) -> Candidate
    ensures one { (result ≡ first) ⊎ (result ≡ second) }
    ensures first { IsNoWorse first result }
    ensures second { IsNoWorse second result }
{
    if first.is_empty {
        first
    } else if second.is_empty || second.value < first.value {
        second
    } else {
        first
    }
}

/// The better of a candidate and the entries of a guess, which are made only where their value is less.
pub(crate) fn lesser_by(
    alloc: Global,
    weighing: &Weighing,
    block: &RowBlock,
    guess: &Guess,
    best: Candidate,
) -> Result<Candidate, AllocError>
    requires whole { IsWhole weighing.now }
    requires block { IsBlockOf weighing.now.plant.now (length weighing.now.bx.now) block.now }
    requires guess { IsGuess block.now.rows guess.now.y guess.now.q }
    requires best { IsCandidate (setting_of weighing.now) weighing.now.bx.now best }
    ensures candidate { IfOk result (IsCandidate (setting_of weighing.now) weighing.now.bx.now) }
    ensures best { IfOk result (IsNoWorse best) }
    ensures reaches { IfOk result (λ found. Reaches found (dual_value_of (setting_of weighing.now)
        weighing.now.bx.now guess.now.q (entries_by block.now.names guess.now.y))) }
{
    if value_by(weighing, block, guess) >= best.value {
        return Ok(best);
    }
    let found = candidate_of(alloc, weighing, block, guess)?;
    Ok(lesser(best, found))
}
