//! The entries of a leaf: their tests, and the rows that they name.

ghost use Rattle.std.specs.Prelude.{◌≡◌, ◌≤◌, ◌++◌, ◌∷◌, [], List, IfOk, OnOk};
ghost use Rattle.limits.specs.declared.TheConstants.{MOST_MULTIPLIER, MOST_SLOTS};
ghost use Rattle.row_forms.specs.Fits.{IsFitRow};
ghost use Rattle.slot_box.specs.declared.term.Term.{Term};
ghost use Rattle.slot_box.specs.declared.term.Term.TheVariants as terms;
ghost use Rattle.leaf_value.specs.LeafValue.{row_of_term};
ghost use Rattle.leaf_value.specs.Scales.{AreScalesOf};
ghost use Rattle.dossier_check.specs.Frames.{setting_of};
ghost use Rattle.dossier_check.specs.NodeReasons.{term_reasons, terms_reasons};
ghost use Rattle.dossier_check.specs.inside.Entering.{AreEntriesOf};
ghost use Rattle.dossier_check.specs.inside.Tests.{Tests};

use crate::cuts::row_of_cut_entry;
use crate::reasons::{LIMITS, ROW};
use crate::verdict::{Reason, Refusal};
use dossier_text::Dossier;
use dual_bound::YList;
use item_lists::expect;
use leaf_value::Scales;
use limits::MOST_MULTIPLIER;
use linear_form::{Row, RowList};
use named_rows::named_row;
use plant_model::Plant;
use slot_box::{RowName, Term};
use std::alloc::{AllocError, Global};

/// The rows that entries name, each with its multiplier.
#[derive(Debug, Drop)]
pub(crate) struct Entries {
    pub(crate) rows: RowList,
    pub(crate) multipliers: YList,
}

/// The row of an entry in this line, which names it with this multiplier.
#[tactic(auto, using(item_lists::proofs::FaultLaws::first_fault), unfolding(crate::specs::NodeReasons::term_reasons))]
fn row_of_entry(
    alloc: Global,
    plant: &Plant,
    dossier: &Dossier,
    scales: &Scales,
    line: u32,
    name: RowName,
    y: u64,
) -> Result<Row, Refusal>
    requires { AreScalesOf plant.now dossier.now.slots scales.now }
    ensures reasons { Tests (term_reasons (setting_of plant.now dossier.now) line (terms.Row name y)) result }
    ensures row { IfOk result (λ row. row ≡ row_of_term (setting_of plant.now dossier.now) (terms.Row name y)) }
    ensures fits { IfOk result (IsFitRow plant.now dossier.now.slots) }
    ensures small { OnOk result (y ≤ MOST_MULTIPLIER) }
{
    expect(y <= MOST_MULTIPLIER, Reason::at(LIMITS, line))?;
    match named_row(alloc, plant, &scales.cliques, dossier.slots, name)? {
        Some(row) => Ok(row),
        None => Err(Refusal::First(Reason::at(ROW, line))),
    }
}

impl Entries {
    /// No entries.
    fn none(alloc: Global) -> Entries
        ensures rows { result.rows ≡ [] }
        ensures multipliers { result.multipliers ≡ [] }
    {
        Entries {
            rows: RowList::new(alloc),
            multipliers: YList::new(alloc),
        }
    }

    /// Adds a row with its multiplier.
    fn push(&mut self, row: Row, y: u64) -> Result<(), AllocError>
        ensures rows { OnOk result (self.new.rows ≡ self.old.rows ++ row ∷ []) }
        ensures multipliers { OnOk result (self.new.multipliers ≡ self.old.multipliers ++ y ∷ []) }
    {
        self.rows.push(row).map_err(|_| AllocError)?;
        self.multipliers.push(y).map_err(|_| AllocError)?;
        Ok(())
    }

    /// Tests an entry of a leaf in this line, and adds it.
    fn enter(
        &mut self,
        alloc: Global,
        plant: &Plant,
        dossier: &Dossier,
        scales: &Scales,
        line: u32,
        term: Term,
    ) -> Result<(), Refusal>
        requires scales { AreScalesOf plant.now dossier.now.slots scales.now }
        requires slots { dossier.now.slots ≤ MOST_SLOTS }
        ensures reasons { Tests (term_reasons (setting_of plant.now dossier.now) line term) result }
        ensures entries { (terms : List Term)
            → AreEntriesOf plant.now (setting_of plant.now dossier.now) terms self.old
            → OnOk result (AreEntriesOf plant.now (setting_of plant.now dossier.now) (terms ++ term ∷ []) self.new) }
    {
        match term {
            Term::Row { name, y } => {
                let row = row_of_entry(alloc, plant, dossier, scales, line, name, y)?;
                self.push(row, y)?;
                Ok(())
            }
            Term::Cut { cut, slot, op, y } => {
                let row = row_of_cut_entry(alloc, plant, dossier, line, cut, slot, op, y)?;
                self.push(row, y)?;
                Ok(())
            }
        }
    }
}

/// Tests the entries of a leaf in this line from left to right: the rows that they name.
pub(crate) fn entries_of(
    alloc: Global,
    plant: &Plant,
    dossier: &Dossier,
    scales: &Scales,
    line: u32,
    terms: &[Term],
) -> Result<Entries, Refusal>
    requires scales { AreScalesOf plant.now dossier.now.slots scales.now }
    requires slots { dossier.now.slots ≤ MOST_SLOTS }
    ensures reasons { Tests (terms_reasons (setting_of plant.now dossier.now) line terms.now) result }
    ensures entries { IfOk result (AreEntriesOf plant.now (setting_of plant.now dossier.now) terms.now) }
{
    let mut entries = Entries::none(alloc);
    for term in terms {
        entries.enter(alloc, plant, dossier, scales, line, *term)?;
    }
    Ok(entries)
}
