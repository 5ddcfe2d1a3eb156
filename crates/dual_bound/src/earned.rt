ghost use Rattle.std.specs.Prelude.{◌≡◌, ◌*◌, ◌^◌, ◌<◌, ◌≤◌, length, pos, ◌*ℤ◌, slice_index_or, unsigned_abs};
ghost use Rattle.linear_form.specs.Bounds.{zero_alone};
ghost use Rattle.number_laws.specs.SignedSums.{total_below};
ghost use Rattle.dual_bound.specs.Dual.{most_in};
ghost use Rattle.dual_bound.specs.Conditions.{reach_of};
ghost use Rattle.dual_bound.specs.inside.Cells.{HaveRoom};
ghost use Rattle.limits.specs.declared.TheConstants.{MOST_COLUMNS};

use crate::signed::plus;
use linear_form::Interval;

/// The product, which has room.
fn product(weight: i128, end: i64) -> i128
    requires { unsigned_abs weight * unsigned_abs end < 2 ^ 127 }
    ensures { result ≡ weight *ℤ end }
{
    weight * i128::from(end)
}

/// The most that a weight earns in a range.
pub(crate) fn most_in(range: Interval, weight: i128) -> i128
    requires { unsigned_abs weight * reach_of range ≤ 2 ^ 104 }
    ensures value { result ≡ most_in range weight }
    ensures size { unsigned_abs result ≤ 2 ^ 104 }
{
    product(weight, range.lo).max(product(weight, range.hi))
}

/// The most that all weights earn, each in its range.
pub(crate) fn most_of_all(ranges: &[Interval], weights: &[i128]) -> i128
    requires few { length ranges.now ≤ MOST_COLUMNS }
    requires as_many { length weights.now ≡ length ranges.now }
    requires room { HaveRoom ranges.now weights.now }
    ensures value { result ≡ total_below (length ranges.now)
        (λ k. most_in (slice_index_or ranges.now k zero_alone) (slice_index_or weights.now k (pos 0))) }
    ensures size { unsigned_abs result ≤ length ranges.now * 2 ^ 104 }
{
    let mut sum = 0;
    for (k, range) in ranges.iter().enumerate() {
        sum = plus(sum, most_in(*range, weights[k]));
    }
    sum
}
