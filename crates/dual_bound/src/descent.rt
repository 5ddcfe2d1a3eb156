ghost use Rattle.std.specs.Prelude.{◌≡◌, ◌*◌, ◌≤◌, ◌≤ℤ◌, ◌<ℤ◌, pos, length, All};
ghost use Rattle.dual_bound.specs.Conditions.{AreColumns};
ghost use Rattle.dual_bound.specs.inside.Steps.{IsKnown};
ghost use Rattle.dual_bound.specs.inside.Systems.{IsWhole, row_count, column_count};
ghost use Rattle.limits.specs.declared.TheConstants.{MOST_MULTIPLIER};

use crate::system::System;
use crate::trial::{Best, try_guess};
use limits::MOST_MULTIPLIER;
use linear_form::{Ranges, Row};

/// How much finer than the guess that it begins with a descent steps at most.
const FINEST: u64 = 1 << 16;

/// How fast the value rises with a row's multiplier: its right side less the row at the ends that earn most.
fn slope_of(row: &Row, ranges: &Ranges, weights: &[i128]) -> i128
    requires columns { AreColumns ranges.now.extent row.now.terms }
    requires as_many { length weights.now ≡ length ranges.now.ends }
{
    let ends = ranges.ends();
    let mut slope = i128::from(row.right());
    for term in row.terms() {
        let number = ranges.number(term.column);
        let range = ends[number];
        let end = if weights[number] > 0 {
            range.hi
        } else {
            range.lo
        };
        let part = i128::from(term.factor).saturating_mul(i128::from(end));
        slope = slope.saturating_sub(part);
    }
    slope
}

/// The slope of each row, and 0 where the multiplier is 0 and would fall.
fn find_slopes(
    rows: &[Row],
    ranges: &Ranges,
    weights: &[i128],
    multipliers: &[u64],
    slopes: &mut [i128],
)
    requires columns { All (λ row. AreColumns ranges.now.extent row.terms) rows.now }
    requires as_many { length weights.now ≡ length ranges.now.ends }
    requires multipliers { length multipliers.now ≡ length rows.now }
    requires slopes { length slopes.old ≡ length rows.now }
{
    for r in 0..rows.len() {
        let slope = slope_of(&rows[r], ranges, weights);
        slopes[r] = if multipliers[r] == 0 && slope > 0 {
            0
        } else {
            slope
        };
    }
}

/// The sum of the squares.
fn norm_of(slopes: &[i128]) -> i128 {
    let mut norm: i128 = 0;
    for slope in slopes {
        norm = norm.saturating_add(slope.saturating_mul(*slope));
    }
    norm
}

/// The multiplier after a step against its slope, within its limits.
fn moved(y: u64, slope: i128, amount: i128, norm: i128) -> u64
    requires { pos 0 <ℤ norm }
    ensures { result ≤ MOST_MULTIPLIER }
{
    let fall = slope.saturating_mul(amount).div_euclid(norm);
    let next = i128::from(y).saturating_sub(fall);
    next.clamp(0, i128::from(MOST_MULTIPLIER)) as u64
}

/// A step of all multipliers against their slopes.
fn step(multipliers: &mut [u64], slopes: &[i128], amount: i128, norm: i128)
    requires norm { pos 0 <ℤ norm }
    requires as_many { length slopes.now ≡ length multipliers.old }
    requires within { All (λ y. y ≤ MOST_MULTIPLIER) multipliers.old }
    ensures { All (λ y. y ≤ MOST_MULTIPLIER) multipliers.new }
{
    for r in 0..multipliers.len() {
        multipliers[r] = moved(multipliers[r], slopes[r], amount, norm);
    }
}

/// By how much more multipliers and denominator can be taken at once, so that steps are finer.
fn finer(multipliers: &[u64], q: u64) -> u64
    requires multipliers { All (λ y. y ≤ MOST_MULTIPLIER) multipliers.now }
    requires some { 1 ≤ q }
    requires most { q ≤ MOST_MULTIPLIER }
    ensures some { 1 ≤ result }
    ensures q { q * result ≤ MOST_MULTIPLIER }
    ensures multipliers { All (λ y. y * result ≤ MOST_MULTIPLIER) multipliers.now }
{
    let mut greatest = q;
    for y in multipliers {
        greatest = greatest.max(*y);
    }
    (MOST_MULTIPLIER / greatest).min(FINEST)
}

/// Takes all multipliers so many times.
fn scale(multipliers: &mut [u64], times: u64)
    requires within { All (λ y. y * times ≤ MOST_MULTIPLIER) multipliers.old }
    ensures { All (λ y. y ≤ MOST_MULTIPLIER) multipliers.new }
{
    for y in multipliers.iter_mut() {
        *y *= times;
    }
}

/// Goes down from the best guess by steps against the slopes, and keeps what is better. Each step aims at a
/// value somewhat below the best; by how much shrinks wherever it gained nothing.
pub(crate) fn descend(
    system: &System,
    rounds: u32,
    multipliers: &mut [u64],
    slopes: &mut [i128],
    weights: &mut [i128],
    best: &mut Best,
)
    requires whole { IsWhole system.now }
    requires multipliers { length multipliers.old ≡ row_count system.now }
    requires slopes { length slopes.old ≡ row_count system.now }
    requires weights { length weights.old ≡ column_count system.now }
    requires known { IsKnown system.now best.old }
    ensures known { IsKnown system.now best.new }
    ensures before { best.new.value ≤ℤ best.old.value }
{
    let times = finer(best.y.as_slice(), best.q);
    let q = best.q * times;
    multipliers.copy_from_slice(best.y.as_slice());
    scale(multipliers, times);
    let scale = i128::from(q);
    let mut gap = best
        .value
        .saturating_abs()
        .saturating_add(1)
        .saturating_mul(scale)
        >> 1;
    for _round in 0..rounds {
        let before = best.value;
        let sum = try_guess(system, multipliers, q, weights, best);
        if best.value >= before {
            gap = gap.saturating_sub(gap >> 3);
        }
        find_slopes(system.rows, system.ranges, weights, multipliers, slopes);
        let norm = norm_of(slopes);
        if norm <= 0 {
            return;
        }
        let over = sum.saturating_sub(best.value.saturating_mul(scale));
        step(multipliers, slopes, over.saturating_add(gap), norm);
    }
}
