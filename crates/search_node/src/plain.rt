//! Plain guesses: no row, or one row of volumes, totals of tanks or demands, a power of two times.
//!
//! Owed: that no value is above what any of them gives. They are tried by `improve`, a block of rows a call, whose
//! further steps are free.

ghost use Rattle.std.specs.Prelude.{[], length, IfOk};
ghost use Rattle.leaf_value.specs.LeafValue.{dual_value_of};
ghost use Rattle.search_node.specs.inside.Candidates.{IsCandidate, IsNoWorse, Reaches};
ghost use Rattle.search_node.specs.inside.Plain.{ReachesPowers, ReachesBlocks, ReachesPlainGuesses};
ghost use Rattle.search_node.specs.inside.Weighings.{IsWhole, setting_of};
ghost use Rattle.search_node.specs.Tables.{IsBlockOf};

use crate::block::RowBlock;
use crate::guesses::{Candidate, lesser_by, zeros};
use crate::weighing::Weighing;
use dual_bound::improve;
use std::alloc::{AllocError, Global};

/// How many steps `improve` makes besides trying each row on its own: one, which is the fewest that let it try them.
const ROUNDS: u32 = 1;

/// The better of a candidate and what the rows of a block give, each on its own.
fn lesser_of_block(
    alloc: Global,
    weighing: &Weighing,
    block: &RowBlock,
    best: Candidate,
) -> Result<Candidate, AllocError>
    requires whole { IsWhole weighing.now }
    requires block { IsBlockOf weighing.now.plant.now (length weighing.now.bx.now) block.now }
    requires best { IsCandidate (setting_of weighing.now) weighing.now.bx.now best }
    ensures candidate { IfOk result (IsCandidate (setting_of weighing.now) weighing.now.bx.now) }
    ensures best { IfOk result (IsNoWorse best) }
    ensures powers { IfOk result (ReachesPowers (setting_of weighing.now) weighing.now.bx.now block.now) }
{
    let none = zeros(alloc, block)?;
    let guess = improve(
        alloc,
        &block.rows,
        weighing.ranges,
        &weighing.table.objective,
        &none,
        ROUNDS,
    )?;
    lesser_by(alloc, weighing, block, &guess, best)
}

/// The better of a candidate and no entries at all.
fn lesser_of_none(
    alloc: Global,
    weighing: &Weighing,
    best: Candidate,
) -> Result<Candidate, AllocError>
    requires whole { IsWhole weighing.now }
    requires best { IsCandidate (setting_of weighing.now) weighing.now.bx.now best }
    ensures candidate { IfOk result (IsCandidate (setting_of weighing.now) weighing.now.bx.now) }
    ensures best { IfOk result (IsNoWorse best) }
    ensures none { IfOk result (λ found. Reaches found
        (dual_value_of (setting_of weighing.now) weighing.now.bx.now 1 [])) }
{
    let block = RowBlock::new(alloc);
    let none = zeros(alloc, &block)?;
    lesser_by(alloc, weighing, &block, &none, best)
}

/// The better of a candidate and what each row gives on its own.
fn lesser_of_blocks(
    alloc: Global,
    weighing: &Weighing,
    best: Candidate,
) -> Result<Candidate, AllocError>
    requires whole { IsWhole weighing.now }
    requires best { IsCandidate (setting_of weighing.now) weighing.now.bx.now best }
    ensures candidate { IfOk result (IsCandidate (setting_of weighing.now) weighing.now.bx.now) }
    ensures best { IfOk result (IsNoWorse best) }
    ensures blocks { IfOk result
        (ReachesBlocks (setting_of weighing.now) weighing.now.bx.now weighing.now.table.now.plain) }
{
    let mut best = best;
    for block in weighing.table.plain.as_slice() {
        best = lesser_of_block(alloc, weighing, block, best)?;
    }
    Ok(best)
}

/// The better of a candidate and all plain guesses.
pub(crate) fn lesser_of_plain(
    alloc: Global,
    weighing: &Weighing,
    best: Candidate,
) -> Result<Candidate, AllocError>
    requires whole { IsWhole weighing.now }
    requires best { IsCandidate (setting_of weighing.now) weighing.now.bx.now best }
    ensures candidate { IfOk result (IsCandidate (setting_of weighing.now) weighing.now.bx.now) }
    ensures best { IfOk result (IsNoWorse best) }
    ensures plain { IfOk result (ReachesPlainGuesses (setting_of weighing.now) weighing.now.bx.now) }
{
    let best = lesser_of_none(alloc, weighing, best)?;
    lesser_of_blocks(alloc, weighing, best)
}
