ghost use Rattle.std.specs.Prelude.{◌≡◌, ◌^◌, ◌≤◌, ◌≤ℤ◌, length, unsigned_abs};
ghost use Rattle.dual_bound.specs.Conditions.{IsGuess};
ghost use Rattle.dual_bound.specs.inside.Steps.{AreWeights, IsKnown, KeepsLesser};
ghost use Rattle.dual_bound.specs.inside.Systems.{IsWhole, column_count, sum_in, value_in};

use crate::earned::most_of_all;
use crate::signed::plus;
use crate::sums::right_sum;
use crate::system::System;
use crate::weigh::weigh;

/// The best guess so far, and its dual value.
#[derive(Drop)]
pub(crate) struct Best {
    pub y: Vec<u64>,
    pub q: u64,
    pub value: i128,
}

/// The sum of which the dual value is the q-th part, and the weight of each column.
fn evaluate(system: &System, multipliers: &[u64], q: u64, weights: &mut [i128]) -> i128
    requires whole { IsWhole system.now }
    requires guess { IsGuess system.now.rows.now multipliers.now q }
    requires as_many { length weights.old ≡ column_count system.now }
    ensures value { result ≡ sum_in system.now multipliers.now q }
    ensures size { unsigned_abs result ≤ 2 ^ 121 }
    ensures weights { AreWeights system.now multipliers.now q weights.new }
{
    let rights = right_sum(system.rows, multipliers);
    weigh(system, multipliers, q, 0, weights);
    plus(rights, most_of_all(system.ranges.ends(), weights))
}

/// Keeps the guess where its value is less.
pub(crate) fn keep(best: &mut Best, multipliers: &[u64], q: u64, value: i128)
    requires { length best.old.y.items ≡ length multipliers.now }
    ensures { KeepsLesser best.old best.new multipliers.now q value }
{
    if value < best.value {
        best.y.as_mut_slice().copy_from_slice(multipliers);
        best.q = q;
        best.value = value;
    }
}

/// Values the guess, and keeps it where it is better. The answer is the sum of which the value is the q-th part.
pub(crate) fn try_guess(
    system: &System,
    multipliers: &[u64],
    q: u64,
    weights: &mut [i128],
    best: &mut Best,
) -> i128
    requires whole { IsWhole system.now }
    requires guess { IsGuess system.now.rows.now multipliers.now q }
    requires as_many { length weights.old ≡ column_count system.now }
    requires known { IsKnown system.now best.old }
    ensures sum { result ≡ sum_in system.now multipliers.now q }
    ensures size { unsigned_abs result ≤ 2 ^ 121 }
    ensures weights { AreWeights system.now multipliers.now q weights.new }
    ensures known { IsKnown system.now best.new }
    ensures before { best.new.value ≤ℤ best.old.value }
    ensures tried { best.new.value ≤ℤ value_in system.now multipliers.now q }
{
    let sum = evaluate(system, multipliers, q, weights);
    keep(best, multipliers, q, sum.div_euclid(i128::from(q)));
    sum
}
