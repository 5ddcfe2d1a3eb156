ghost use Rattle.std.specs.Prelude.{◌≡◌, ◌+◌, ◌-◌, ◌*◌, ◌^◌, ◌≤◌, length, All, unsigned_abs};
ghost use Rattle.linear_form.specs.Rows.{HasEachOnce};
ghost use Rattle.number_laws.specs.SignedSums.{total_below};
ghost use Rattle.dual_bound.specs.Dual.{weighed_right};
ghost use Rattle.dual_bound.specs.Conditions.{IsGuess};
ghost use Rattle.dual_bound.specs.inside.Systems.{IsWhole, column_count, earned_in, sum_in};
ghost use Rattle.limits.specs.declared.TheConstants.{MOST_MULTIPLIER, MOST_ROWS};

use crate::earned::most_of_all;
use crate::signed::{plus, scaled};
use crate::system::System;
use crate::weigh::weigh;
use linear_form::Row;

/// How many columns are weighed at a time. All terms are gone over once for so many columns.
const BLOCK: usize = 8192;

/// The right sides, each by its multiplier.
pub(crate) fn right_sum(rows: &[Row], multipliers: &[u64]) -> i128
    requires few { length rows.now ≤ MOST_ROWS }
    requires as_many { length multipliers.now ≡ length rows.now }
    requires within { All (λ y. y ≤ MOST_MULTIPLIER) multipliers.now }
    ensures value { result ≡ weighed_right multipliers.now rows.now }
    ensures size { unsigned_abs result ≤ 2 ^ 104 }
    ensures once { All (λ row. HasEachOnce row.terms) rows.now }
{
    let mut sum = 0;
    for (r, row) in rows.iter().enumerate() {
        sum = plus(sum, scaled(i128::from(multipliers[r]), row.right()));
    }
    sum
}

/// What the columns from number `from` up to number `to`, which is not counted, earn at most.
fn block_sum(
    system: &System,
    multipliers: &[u64],
    q: u64,
    from: usize,
    to: usize,
    cells: &mut [i128],
) -> i128
    requires whole { IsWhole system.now }
    requires guess { IsGuess system.now.rows.now multipliers.now q }
    requires once { All (λ row. HasEachOnce row.terms) system.now.rows.now }
    requires order { from ≤ to }
    requires there { to ≤ column_count system.now }
    requires few { to - from ≤ length cells.old }
    ensures value { result ≡ total_below (to - from) (λ k. earned_in system.now multipliers.now q (from + k)) }
    ensures size { unsigned_abs result ≤ (to - from) * 2 ^ 104 }
{
    let ends = &system.ranges.ends()[from..to];
    let weights = &mut cells[..to - from];
    weigh(system, multipliers, q, from, weights);
    most_of_all(ends, weights)
}

/// What all columns earn at most.
fn column_sum(system: &System, multipliers: &[u64], q: u64) -> i128
    requires whole { IsWhole system.now }
    requires guess { IsGuess system.now.rows.now multipliers.now q }
    requires once { All (λ row. HasEachOnce row.terms) system.now.rows.now }
    ensures value { result ≡ total_below (column_count system.now) (λ j. earned_in system.now multipliers.now q j) }
    ensures size { unsigned_abs result ≤ 2 ^ 120 }
{
    let count = system.ranges.ends().len();
    let mut cells = [0; BLOCK];
    let mut sum = 0;
    let mut from = 0;
    while from < count {
        let to = if count - from < BLOCK {
            count
        } else {
            from + BLOCK
        };
        sum = plus(sum, block_sum(system, multipliers, q, from, to, &mut cells));
        from = to;
    }
    sum
}

/// The sum of which the dual value is the q-th part.
pub(crate) fn dual_sum(system: &System, multipliers: &[u64], q: u64) -> i128
    requires whole { IsWhole system.now }
    requires guess { IsGuess system.now.rows.now multipliers.now q }
    ensures value { result ≡ sum_in system.now multipliers.now q }
    ensures size { unsigned_abs result ≤ 2 ^ 121 }
    ensures ops { system.now.ranges.now.extent.ops ≤ 255 }
{
    let _ends = system.ranges.ends();
    let rights = right_sum(system.rows, multipliers);
    plus(rights, column_sum(system, multipliers, q))
}
