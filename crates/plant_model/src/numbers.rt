ghost use Rattle.std.specs.Prelude.{◌≡◌, ◌^◌, pos, ◌≤ℤ◌, ◌<ℤ◌};
ghost use Rattle.std.specs.List.{list_all};
ghost use Rattle.plant_model.specs.Faults.{is_within, is_range, total_of};
ghost use Rattle.plant_model.specs.Parts.{natural, range_of};

use crate::parts::Pair;

pub(crate) fn is_within(low: i64, high: i64, number: i64) -> bool
    ensures { result ≡ is_within low high number }
{
    low <= number && number <= high
}

pub(crate) fn all_within(low: i64, high: i64, numbers: &[i64]) -> bool
    ensures { result ≡ list_all (is_within low high) numbers.now }
{
    numbers.iter().all(|number| is_within(low, high, *number))
}

pub(crate) fn is_range(low: i64, high: i64, pair: Pair) -> bool
    ensures { result ≡ is_range low high pair }
{
    low <= pair.lo && pair.lo <= pair.hi && pair.hi <= high
}

pub(crate) fn all_ranges(low: i64, high: i64, pairs: &[Pair]) -> bool
    ensures { result ≡ list_all (is_range low high) pairs.now }
{
    pairs.iter().all(|pair| is_range(low, high, *pair))
}

pub(crate) fn total_of(numbers: &[i64]) -> i128
    ensures { result ≡ total_of numbers.now }
{
    let mut total = 0i128;
    for number in numbers {
        total += i128::from(*number);
    }
    total
}

/// A number that was found in range, without a sign.
pub(crate) fn unsigned(number: i64) -> u32
    requires from_zero { pos 0 ≤ℤ number }
    requires fits { number <ℤ pos (2 ^ 32) }
    ensures { result ≡ natural number }
{
    number as u32
}

pub(crate) fn unsigned_range(pair: Pair) -> (u32, u32)
    requires from_zero { pos 0 ≤ℤ pair.lo }
    requires in_order { pair.lo ≤ℤ pair.hi }
    requires fits { pair.hi <ℤ pos (2 ^ 32) }
    ensures { result ≡ range_of pair }
{
    (unsigned(pair.lo), unsigned(pair.hi))
}
