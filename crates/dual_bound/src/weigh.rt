ghost use Rattle.std.specs.Prelude.{◌≡◌, ◌+◌, ◌^◌, ◌≤◌, length, pos, ◌*ℤ◌, neg_ℤ, All, unsigned_abs};
ghost use Rattle.linear_form.specs.Columns.{IsColumn};
ghost use Rattle.linear_form.specs.Rows.{HasEachOnce};
ghost use Rattle.dual_bound.specs.Dual.{factor_in, factor_of, weighed_factor};
ghost use Rattle.dual_bound.specs.Conditions.{AreColumns, IsGuess};
ghost use Rattle.dual_bound.specs.inside.Cells.{Adds, AreWithin, HasSmallFactors, Hold};
ghost use Rattle.dual_bound.specs.inside.Systems.{IsWhole, weight_in};
ghost use Rattle.limits.specs.declared.TheConstants.{MOST_MULTIPLIER, MOST_ROWS};

use crate::signed::{negative, plus, scaled};
use crate::system::System;
use linear_form::{Ranges, Row, RowTerm};

/// Adds so many times the term's factor to the cell of its column. The cells are those of the columns from
/// number `from` on.
fn add_term(ranges: &Ranges, term: RowTerm, times: i128, from: usize, cells: &mut [i128])
    requires column { IsColumn ranges.now.extent term.column }
    requires times { unsigned_abs times ≤ MOST_MULTIPLIER }
    requires room { AreWithin (2 ^ 126) cells.old }
    ensures added { Adds (λ k. times *ℤ factor_in ranges.now.extent (from + k) term) cells.old cells.new }
    ensures small { unsigned_abs term.factor ≤ 2 ^ 63 }
{
    let number = ranges.number(term.column);
    if number < from {
        return;
    }
    let place = number - from;
    if place < cells.len() {
        cells[place] = plus(cells[place], scaled(times, term.factor));
    }
}

/// Adds the terms' factors so many times.
fn add_terms(ranges: &Ranges, terms: &[RowTerm], times: i128, from: usize, cells: &mut [i128])
    requires columns { AreColumns ranges.now.extent terms.now }
    requires once { HasEachOnce terms.now }
    requires times { unsigned_abs times ≤ MOST_MULTIPLIER }
    requires room { AreWithin (2 ^ 125) cells.old }
    ensures added { Adds (λ k. times *ℤ factor_of ranges.now.extent (from + k) terms.now) cells.old cells.new }
    ensures small { HasSmallFactors ranges.now.extent terms.now }
{
    for term in terms {
        add_term(ranges, *term, times, from, cells);
    }
}

fn has_small_factor(term: RowTerm)
    ensures { unsigned_abs term.factor ≤ 2 ^ 63 }
{
    let _factor = term.factor;
}

fn have_small_factors(ranges: &Ranges, terms: &[RowTerm])
    requires columns { AreColumns ranges.now.extent terms.now }
    requires once { HasEachOnce terms.now }
    ensures { HasSmallFactors ranges.now.extent terms.now }
{
    for term in terms {
        has_small_factor(*term);
    }
}

/// Takes the terms' factors away as often as the multiplier says. Most multipliers are 0.
fn take_row(ranges: &Ranges, terms: &[RowTerm], y: u64, from: usize, cells: &mut [i128])
    requires columns { AreColumns ranges.now.extent terms.now }
    requires once { HasEachOnce terms.now }
    requires few { y ≤ MOST_MULTIPLIER }
    requires room { AreWithin (2 ^ 125) cells.old }
    ensures added { Adds (λ k. neg_ℤ (pos y) *ℤ factor_of ranges.now.extent (from + k) terms.now) cells.old cells.new }
    ensures small { HasSmallFactors ranges.now.extent terms.now }
{
    have_small_factors(ranges, terms);
    if y > 0 {
        add_terms(ranges, terms, negative(y), from, cells);
    }
}

/// Takes each row's factors away as often as its multiplier says.
fn take_rows(ranges: &Ranges, rows: &[Row], multipliers: &[u64], from: usize, cells: &mut [i128])
    requires few { length rows.now ≤ MOST_ROWS }
    requires as_many { length multipliers.now ≡ length rows.now }
    requires within { All (λ y. y ≤ MOST_MULTIPLIER) multipliers.now }
    requires columns { All (λ row. AreColumns ranges.now.extent row.terms) rows.now }
    requires room { AreWithin (2 ^ 95) cells.old }
    ensures added { Adds (λ k. neg_ℤ (weighed_factor ranges.now.extent multipliers.now rows.now (from + k)))
        cells.old cells.new }
    ensures within { AreWithin (2 ^ 125) cells.new }
{
    for (r, row) in rows.iter().enumerate() {
        take_row(ranges, row.terms(), multipliers[r], from, cells);
    }
}

/// Adds the weights of the columns from number `from` on.
fn add_weights(system: &System, multipliers: &[u64], q: u64, from: usize, cells: &mut [i128])
    requires whole { IsWhole system.now }
    requires guess { IsGuess system.now.rows.now multipliers.now q }
    requires clear { AreWithin 0 cells.old }
    ensures added { Adds (λ k. weight_in system.now multipliers.now q (from + k)) cells.old cells.new }
    ensures within { AreWithin (2 ^ 125) cells.new }
{
    add_terms(system.ranges, system.objective, i128::from(q), from, cells);
    take_rows(system.ranges, system.rows, multipliers, from, cells);
}

fn clear(cells: &mut [i128])
    ensures { AreWithin 0 cells.new }
{
    for cell in cells.iter_mut() {
        *cell = 0;
    }
}

/// Gives each cell the weight of its column. The cells are those of the columns from number `from` on.
pub(crate) fn weigh(system: &System, multipliers: &[u64], q: u64, from: usize, cells: &mut [i128])
    requires whole { IsWhole system.now }
    requires guess { IsGuess system.now.rows.now multipliers.now q }
    ensures weights { Hold (λ k. weight_in system.now multipliers.now q (from + k)) cells.new }
    ensures within { AreWithin (2 ^ 125) cells.new }
{
    clear(cells);
    add_weights(system, multipliers, q, from, cells);
}
