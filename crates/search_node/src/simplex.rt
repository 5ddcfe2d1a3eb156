//! Multipliers from the linear program over some of the rows.
//!
//! Free: whatever guess comes. Owed: that its value is the exact one, and that it is kept only where it is better, or
//! shows the box empty.

ghost use Rattle.std.specs.Prelude.{◌<◌, ◌↔◌, length, IfOk, IsTrue};
ghost use Rattle.dual_bound.specs.Conditions.{IsGuess};
ghost use Rattle.limits.specs.declared.TheConstants.{SIMPLEX_COLUMNS};
ghost use Rattle.linear_form.specs.Columns.{count_of};
ghost use Rattle.search_node.specs.inside.Candidates.{IsCandidate, IsNoWorse};
ghost use Rattle.search_node.specs.inside.Weighings.{IsWhole, setting_of};
ghost use Rattle.search_node.specs.Tables.{IsBlockOf};

use crate::block::RowBlock;
use crate::guesses::{Candidate, candidate_of, lesser};
use crate::rows_taken::take_rows;
use crate::together::multipliers_together;
use crate::weighing::Weighing;
use dual_bound::Guess;
use fixed_simplex::{Course, multipliers_by};
use limits::SIMPLEX_COLUMNS;
use std::alloc::{AllocError, Global};

/// Whether a form has more columns than the simplex takes.
fn is_wide(weighing: &Weighing) -> bool
    ensures { IsTrue result ↔ (SIMPLEX_COLUMNS < count_of weighing.now.ranges.now.extent) }
{
    weighing.ranges.ends().len() > SIMPLEX_COLUMNS as usize
}

/// A multiplier for each row of a block that was taken by these stages.
fn multipliers_of(
    alloc: Global,
    weighing: &Weighing,
    block: &RowBlock,
    stages: &[usize],
) -> Result<Guess, AllocError>
    requires whole { IsWhole weighing.now }
    requires block { IsBlockOf weighing.now.plant.now (length weighing.now.bx.now) block.now }
    ensures { IfOk result (λ guess. IsGuess block.now.rows guess.y guess.q) }
{
    if is_wide(weighing) {
        return multipliers_together(alloc, weighing, block);
    }
    let course = Course {
        stages,
        pivots: weighing.pivots,
        enough: weighing.enough,
    };
    multipliers_by(
        alloc,
        &block.rows,
        weighing.ranges,
        &weighing.table.objective,
        &course,
    )
}

/// The better of a candidate and what the simplex makes of the rows with which the task begins and those of the table.
pub(crate) fn lesser_of_rows(
    alloc: Global,
    weighing: &Weighing,
    first: &RowBlock,
    best: Candidate,
) -> Result<Candidate, AllocError>
    requires whole { IsWhole weighing.now }
    requires first { IsBlockOf weighing.now.plant.now (length weighing.now.bx.now) first.now }
    requires best { IsCandidate (setting_of weighing.now) weighing.now.bx.now best }
    ensures candidate { IfOk result (IsCandidate (setting_of weighing.now) weighing.now.bx.now) }
    ensures best { IfOk result (IsNoWorse best) }
{
    let taken = take_rows(alloc, weighing, first)?;
    let guess = multipliers_of(alloc, weighing, &taken.block, taken.stages.as_slice())?;
    let found = candidate_of(alloc, weighing, &taken.block, &guess)?;
    Ok(lesser(best, found))
}
