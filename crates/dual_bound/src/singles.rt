ghost use Rattle.std.specs.Prelude.{◌≡◌, ◌*◌, ◌^◌, ◌<◌, ◌≤◌, ◌≤ℤ◌, length, replicate, unsigned_abs};
ghost use Rattle.limits.specs.declared.TheConstants.{MOST_COLUMNS, MOST_MULTIPLIER};
ghost use Rattle.linear_form.specs.Bounds.{range_of};
ghost use Rattle.linear_form.specs.Columns.{IsColumn, count_of};
ghost use Rattle.linear_form.specs.Rows.{HasEachOnce};
ghost use Rattle.number_laws.specs.SignedSums.{total_by};
ghost use Rattle.dual_bound.specs.Conditions.{reach_of, AreColumns, AreSmall};
ghost use Rattle.dual_bound.specs.Improving.{single, IsBelowPowers, IsBelowSingles};
ghost use Rattle.dual_bound.specs.inside.Cells.{AreWithin};
ghost use Rattle.dual_bound.specs.inside.Steps.{AreWeights, change_of, changes, HaveMoreRoom, IsKnown, KeepsLesser};
ghost use Rattle.dual_bound.specs.inside.Systems.{IsWhole, row_count, sum_in, value_in};

use crate::earned::most_in;
use crate::signed::{minus, plus, scaled};
use crate::system::System;
use crate::trial::Best;
use linear_form::{Interval, Ranges, RowTerm};

/// How much more a column earns where so many times a factor are taken from its weight.
fn change_at(range: Interval, weight: i128, y: u64, factor: i64) -> i128
    requires few { y ≤ MOST_MULTIPLIER }
    requires within { unsigned_abs weight ≤ 2 ^ 125 }
    requires room { unsigned_abs weight * reach_of range ≤ 2 ^ 103 }
    requires small { unsigned_abs factor * reach_of range < 2 ^ 60 }
    ensures value { result ≡ change_of range weight y factor }
    ensures size { unsigned_abs result ≤ 2 ^ 105 }
{
    let less = minus(weight, scaled(i128::from(y), factor));
    minus(most_in(range, less), most_in(range, weight))
}

/// How much more the column of a term earns.
fn change_of_term(term: RowTerm, ranges: &Ranges, weights: &[i128], y: u64) -> i128
    requires column { IsColumn ranges.now.extent term.column }
    requires small { unsigned_abs term.factor * reach_of (range_of ranges.now term.column) < 2 ^ 60 }
    requires few { y ≤ MOST_MULTIPLIER }
    requires as_many { length weights.now ≡ length ranges.now.ends }
    requires within { AreWithin (2 ^ 125) weights.now }
    requires room { HaveMoreRoom ranges.now.ends weights.now }
    ensures value { result ≡ changes ranges.now weights.now y term }
    ensures size { unsigned_abs result ≤ 2 ^ 105 }
{
    let number = ranges.number(term.column);
    change_at(ranges.ends()[number], weights[number], y, term.factor)
}

/// How much more the columns earn where so many times the terms are taken from the weights.
fn change_by(terms: &[RowTerm], ranges: &Ranges, weights: &[i128], y: u64) -> i128
    requires few_columns { count_of ranges.now.extent ≤ MOST_COLUMNS }
    requires columns { AreColumns ranges.now.extent terms.now }
    requires once { HasEachOnce terms.now }
    requires small { AreSmall ranges.now terms.now }
    requires few { y ≤ MOST_MULTIPLIER }
    requires as_many { length weights.now ≡ length ranges.now.ends }
    requires within { AreWithin (2 ^ 125) weights.now }
    requires room { HaveMoreRoom ranges.now.ends weights.now }
    ensures value { result ≡ total_by (changes ranges.now weights.now y) terms.now }
    ensures size { unsigned_abs result ≤ 2 ^ 122 }
{
    let _ends = ranges.ends();
    let mut sum = 0;
    for term in terms {
        sum = plus(sum, change_of_term(*term, ranges, weights, y));
    }
    sum
}

/// All multipliers 0 but that of row `r`.
fn set_single(multipliers: &mut [u64], r: usize, y: u64)
    requires { r < length multipliers.old }
    ensures { multipliers.new ≡ single (length multipliers.old) r y }
{
    multipliers.fill(0);
    multipliers[r] = y;
}

/// Keeps one multiplier on its own where its value is less.
fn keep_single(best: &mut Best, r: usize, y: u64, value: i128)
    requires { r < length best.old.y.items }
    ensures { KeepsLesser best.old best.new (single (length best.old.y.items) r y) 1 value }
{
    if value < best.value {
        set_single(best.y.as_mut_slice(), r, y);
        best.q = 1;
        best.value = value;
    }
}

/// Tries one multiplier on its own, by the weights and the sum of no multipliers at all. The answer is its value.
fn try_single(
    system: &System,
    r: usize,
    y: u64,
    weights: &[i128],
    zero_sum: i128,
    best: &mut Best,
) -> i128
    requires whole { IsWhole system.now }
    requires row { r < row_count system.now }
    requires some { 1 ≤ y }
    requires few { y ≤ MOST_MULTIPLIER }
    requires weights { AreWeights system.now (replicate (row_count system.now) 0) 1 weights.now }
    requires zeros { zero_sum ≡ sum_in system.now (replicate (row_count system.now) 0) 1 }
    requires size { unsigned_abs zero_sum ≤ 2 ^ 121 }
    requires known { IsKnown system.now best.old }
    ensures known { IsKnown system.now best.new }
    ensures before { best.new.value ≤ℤ best.old.value }
    ensures tried { best.new.value ≤ℤ value_in system.now (single (row_count system.now) r y) 1 }
    ensures value { result ≡ value_in system.now (single (row_count system.now) r y) 1 }
{
    let _ends = system.ranges.ends();
    let row = &system.rows[r];
    let change = change_by(row.terms(), system.ranges, weights, y);
    let right = plus(zero_sum, scaled(i128::from(y), row.right()));
    let value = plus(right, change);
    keep_single(best, r, y, value);
    value
}

/// Tries the powers of two up to 2^20 on one row, until one has no less value than the one before it: then no further
/// one has.
fn try_powers(system: &System, r: usize, weights: &[i128], zero_sum: i128, best: &mut Best)
    requires whole { IsWhole system.now }
    requires row { r < row_count system.now }
    requires weights { AreWeights system.now (replicate (row_count system.now) 0) 1 weights.now }
    requires zeros { zero_sum ≡ sum_in system.now (replicate (row_count system.now) 0) 1 }
    requires size { unsigned_abs zero_sum ≤ 2 ^ 121 }
    requires known { IsKnown system.now best.old }
    ensures known { IsKnown system.now best.new }
    ensures before { best.new.value ≤ℤ best.old.value }
    ensures powers { IsBelowPowers system.now.rows.now system.now.ranges.now system.now.objective.now best.new.value r }
{
    let mut before = zero_sum;
    for k in 0..21u32 {
        let value = try_single(system, r, 1 << k, weights, zero_sum, best);
        if before <= value {
            return;
        }
        before = value;
    }
}

/// Tries each row on its own, by the weights and the sum of no multipliers at all.
pub(crate) fn try_singles(system: &System, weights: &[i128], zero_sum: i128, best: &mut Best)
    requires whole { IsWhole system.now }
    requires weights { AreWeights system.now (replicate (row_count system.now) 0) 1 weights.now }
    requires zeros { zero_sum ≡ sum_in system.now (replicate (row_count system.now) 0) 1 }
    requires size { unsigned_abs zero_sum ≤ 2 ^ 121 }
    requires known { IsKnown system.now best.old }
    ensures known { IsKnown system.now best.new }
    ensures before { best.new.value ≤ℤ best.old.value }
    ensures singles { IsBelowSingles system.now.rows.now system.now.ranges.now system.now.objective.now best.new.value }
{
    for r in 0..system.rows.len() {
        try_powers(system, r, weights, zero_sum, best);
    }
}
