ghost use Rattle.std.specs.Prelude.{◌*◌, ◌^◌, ◌<◌, ◌≤◌, ◌≤ℤ◌, All, IsTrue, unsigned_abs};
ghost use Rattle.limits.specs.declared.TheConstants.{MOST_MULTIPLIER};
ghost use Rattle.linear_form.specs.Bounds.{range_of};
ghost use Rattle.linear_form.specs.Columns.{IsColumn, HasPart, HasSlot};
ghost use Rattle.dual_bound.specs.Conditions.{reach_of, AreColumns, AreSmall, IsSystem, IsGuess};

use crate::Guess;
use limits::{MOST_COLUMNS, MOST_MULTIPLIER, MOST_ROWS};
use linear_form::{Column, IDLE_ENTRY, Interval, Objective, Part, Ranges, Row, RowList, RowTerm};

fn has_part(ranges: &Ranges, entry: u8, part: Part) -> bool
    ensures { IsTrue result → HasPart ranges.now.extent entry part }
{
    match part {
        Part::Z => entry < ranges.ops() || entry == IDLE_ENTRY,
        Part::A(crude) => entry < ranges.ops() && crude < ranges.crudes(),
        Part::S | Part::E => entry < ranges.ops(),
        Part::W => entry < ranges.vessels(),
    }
}

fn has_slot(ranges: &Ranges, slot: u32, part: Part) -> bool
    ensures { IsTrue result → HasSlot ranges.now.extent slot part }
{
    match part {
        Part::W => slot == 0,
        Part::Z | Part::A(_) | Part::S | Part::E => 1 <= slot && slot <= ranges.slots(),
    }
}

fn is_column(ranges: &Ranges, column: Column) -> bool
    ensures { IsTrue result → IsColumn ranges.now.extent column }
{
    has_slot(ranges, column.slot, column.part) && has_part(ranges, column.entry, column.part)
}

fn is_small(range: Interval, factor: i64) -> bool
    ensures { IsTrue result → unsigned_abs factor * reach_of range < 2 ^ 60 }
{
    let reach = range.lo.unsigned_abs().max(range.hi.unsigned_abs());
    u128::from(factor.unsigned_abs()) * u128::from(reach) < 1 << 60
}

fn is_term(ranges: &Ranges, term: RowTerm) -> bool
    ensures column { IsTrue result → IsColumn ranges.now.extent term.column }
    ensures small { IsTrue result → unsigned_abs term.factor * reach_of (range_of ranges.now term.column) < 2 ^ 60 }
{
    is_column(ranges, term.column)
        && is_small(ranges.ends()[ranges.number(term.column)], term.factor)
}

fn are_terms(ranges: &Ranges, terms: &[RowTerm]) -> bool
    ensures columns { IsTrue result → AreColumns ranges.now.extent terms.now }
    ensures small { IsTrue result → AreSmall ranges.now terms.now }
{
    for term in terms {
        if !is_term(ranges, *term) {
            return false;
        }
    }
    true
}

fn are_ordered(ends: &[Interval]) -> bool
    ensures { IsTrue result → All (λ range. range.lo ≤ℤ range.hi) ends.now }
{
    for range in ends {
        if range.lo > range.hi {
            return false;
        }
    }
    true
}

fn are_rows(ranges: &Ranges, rows: &[Row]) -> bool
    ensures columns { IsTrue result → All (λ row. AreColumns ranges.now.extent row.terms) rows.now }
    ensures small { IsTrue result → All (λ row. AreSmall ranges.now row.terms) rows.now }
    ensures rights { IsTrue result → All (λ row. unsigned_abs row.right < 2 ^ 60) rows.now }
{
    for r in 0..rows.len() {
        let row = &rows[r];
        if row.right().unsigned_abs() >= 1 << 60 || !are_terms(ranges, row.terms()) {
            return false;
        }
    }
    true
}

/// Whether the calls of this crate may be asked about these rows and ranges: it is promised where the answer is yes.
pub fn is_system(rows: &RowList, ranges: &Ranges) -> bool
    ensures { IsTrue result → IsSystem rows.now ranges.now }
{
    rows.as_slice().len() <= MOST_ROWS as usize
        && ranges.ends().len() <= MOST_COLUMNS as usize
        && are_ordered(ranges.ends())
        && are_rows(ranges, rows.as_slice())
}

/// Whether they may be asked about this objective over the ranges, likewise.
pub fn is_objective(ranges: &Ranges, objective: &Objective) -> bool
    ensures columns { IsTrue result → AreColumns ranges.now.extent objective.now }
    ensures small { IsTrue result → AreSmall ranges.now objective.now }
{
    are_terms(ranges, objective.as_slice())
}

fn are_multipliers(multipliers: &[u64]) -> bool
    ensures { IsTrue result → All (λ y. y ≤ MOST_MULTIPLIER) multipliers.now }
{
    for y in multipliers {
        if *y > MOST_MULTIPLIER {
            return false;
        }
    }
    true
}

/// Whether they may be asked about this guess of the rows, likewise.
pub fn is_guess(rows: &RowList, guess: &Guess) -> bool
    ensures { IsTrue result → IsGuess rows.now guess.now.y guess.now.q }
{
    guess.y.as_slice().len() == rows.as_slice().len()
        && are_multipliers(guess.y.as_slice())
        && 1 <= guess.q
        && guess.q <= MOST_MULTIPLIER
}
