//! The entries with which a task begins: those of its parent's leaf whose rows are there.
//!
//! Owed: the dual value of the task's box by exactly these, over the task's denominator.

ghost use Rattle.std.specs.Prelude.{◌≡◌, ◌≤◌, ◌++◌, ◌∷◌, [], List, length, IfOk, IfSome, MatchOption, OnOk};
ghost use Rattle.limits.specs.declared.TheConstants.{MOST_MULTIPLIER};
ghost use Rattle.named_rows.specs.NamedRows.{IsNamed};
ghost use Rattle.row_forms.specs.Fits.{IsFitRow};
ghost use Rattle.slot_box.specs.declared.term.Term.{Term};
ghost use Rattle.slot_box.specs.Tasks.{IsWarmStart};
ghost use Rattle.search_node.specs.inside.Candidates.{IsCandidate, Reaches};
ghost use Rattle.search_node.specs.inside.Warming.{AreWarmEntries, HasNoRow};
ghost use Rattle.search_node.specs.inside.Weighings.{IsWhole, setting_of};
ghost use Rattle.search_node.specs.Values.{warm_value};

use crate::block::{RowBlock, copy_row};
use crate::guesses::{Candidate, candidate_of};
use crate::weighing::Weighing;
use dual_bound::{Guess, YList};
use linear_form::Row;
use named_rows::named_row;
use slot_box::{RowName, Task, Term};
use std::alloc::{AllocError, Global};

/// Entries whose rows are there: the rows under their names, and their multipliers over a denominator.
#[derive(Debug, Drop)]
pub(crate) struct WarmEntries {
    pub block: RowBlock,
    pub guess: Guess,
}

/// The row of a name, where there is one: a copy of the table's, where the table has it.
fn row_of(alloc: Global, weighing: &Weighing, name: RowName) -> Result<Option<Row>, AllocError>
    requires { IsWhole weighing.now }
    ensures named { IfOk result (λ found. MatchOption found
        (HasNoRow weighing.now.plant.now (length weighing.now.bx.now) name)
        (IsNamed weighing.now.plant.now (length weighing.now.bx.now) name)) }
    ensures fits { IfOk result (λ found. IfSome found
        (IsFitRow weighing.now.plant.now (length weighing.now.bx.now))) }
{
    match weighing.table.find(name) {
        Some(row) => Ok(Some(copy_row(alloc, row)?)),
        None => named_row(
            alloc,
            weighing.plant,
            weighing.cliques,
            weighing.bx.len(),
            name,
        ),
    }
}

impl WarmEntries {
    /// No entries over a denominator.
    fn none(alloc: Global, q: u64) -> WarmEntries
        ensures names { result.block.names ≡ [] }
        ensures rows { result.block.rows ≡ [] }
        ensures y { result.guess.y ≡ [] }
        ensures q { result.guess.q ≡ q }
    {
        WarmEntries {
            block: RowBlock::new(alloc),
            guess: Guess {
                y: YList::new(alloc),
                q,
            },
        }
    }

    /// Adds an entry, where its row is there.
    fn enter(&mut self, alloc: Global, weighing: &Weighing, term: Term) -> Result<(), AllocError>
        requires whole { IsWhole weighing.now }
        ensures q { OnOk result (self.new.guess.q ≡ self.old.guess.q) }
        ensures entries { (before : List Term) → IsWarmStart (before ++ term ∷ [])
            → AreWarmEntries (setting_of weighing.now) before self.old
            → OnOk result (AreWarmEntries (setting_of weighing.now) (before ++ term ∷ []) self.new) }
    {
        let Term::Row { name, y } = term else {
            return Ok(());
        };
        if self.block.is_full() {
            return Ok(());
        }
        if let Some(row) = row_of(alloc, weighing, name)? {
            self.block.push(name, row)?;
            self.guess.y.push(y).map_err(|_| AllocError)?;
        }
        Ok(())
    }
}

/// The entries of a task whose rows are there.
pub(crate) fn warm_entries(
    alloc: Global,
    weighing: &Weighing,
    q: u64,
    terms: &[Term],
) -> Result<WarmEntries, AllocError>
    requires whole { IsWhole weighing.now }
    requires some { 1 ≤ q }
    requires most { q ≤ MOST_MULTIPLIER }
    requires warm { IsWarmStart terms.now }
    ensures entries { IfOk result (AreWarmEntries (setting_of weighing.now) terms.now) }
    ensures q { IfOk result (λ warm. warm.guess.q ≡ q) }
{
    let mut warm = WarmEntries::none(alloc, q);
    for term in terms {
        warm.enter(alloc, weighing, *term)?;
    }
    Ok(warm)
}

/// What a task's entries say of its box.
pub(crate) fn warm_candidate(
    alloc: Global,
    weighing: &Weighing,
    task: &Task,
    warm: &WarmEntries,
) -> Result<Candidate, AllocError>
    requires whole { IsWhole weighing.now }
    requires same { weighing.now.bx.now ≡ task.now.box }
    requires entries { AreWarmEntries (setting_of weighing.now) task.now.entries warm.now }
    requires q { warm.now.guess.q ≡ task.now.q }
    ensures candidate { IfOk result (IsCandidate (setting_of weighing.now) weighing.now.bx.now) }
    ensures reaches { IfOk result (λ found. Reaches found (warm_value (setting_of weighing.now) task.now)) }
{
    let _q = task.q();
    candidate_of(alloc, weighing, &warm.block, &warm.guess)
}
