ghost use Rattle.std.specs.Prelude.{◌≤◌};
ghost use Rattle.limits.specs.declared.TheConstants.{MOST_MULTIPLIER};

use crate::fixed::{ONE, at, shifted};
use limits::MOST_MULTIPLIER;

/// The finest denominator that is tried.
const FINEST: u64 = 1 << 32;

/// The least by which a price may miss a whole number that it counts as: about a millionth.
const LEAST_MISS: i128 = ONE >> 20;

/// How many terms of a continued fraction are taken at most.
const MOST_TERMS: u32 = 40;

/// The greatest of the numbers.
pub(crate) fn greatest_of(numbers: &[i128]) -> i128 {
    let mut greatest = 0;
    for number in numbers {
        greatest = greatest.max(*number);
    }
    greatest
}

/// The greatest denominator up to 2^32 with which every number stays within the limit, 1 at least.
pub(crate) fn finest(numbers: &[i128]) -> u64
    ensures some { 1 ≤ result }
    ensures most { result ≤ MOST_MULTIPLIER }
{
    let whole = (greatest_of(numbers) >> 40).clamp(0, i128::from(MOST_MULTIPLIER)) as u64;
    (MOST_MULTIPLIER / (whole + 1)).clamp(1, FINEST)
}

/// The least denominator by which a number nearly comes to a whole one, by its continued fraction; 1 where none up to
/// the greatest serves.
fn denominator_of(number: i128, nearly: i128, greatest: u64) -> u64
    ensures { 1 ≤ result }
{
    let mut whole = ONE;
    let mut rest = number.rem_euclid(ONE);
    if ONE - rest <= nearly {
        return 1;
    }
    let mut before: u64 = 0;
    let mut denominator: u64 = 1;
    for _term in 0..MOST_TERMS {
        if denominator > greatest {
            return 1;
        }
        if rest <= nearly.max(0) {
            return denominator.max(1);
        }
        let times = (whole / rest).clamp(0, i128::from(MOST_MULTIPLIER)) as u64;
        let next = times.saturating_mul(denominator).saturating_add(before);
        before = denominator;
        denominator = next;
        let left = whole.checked_rem(rest).unwrap_or(0);
        whole = rest;
        rest = left;
    }
    1
}

/// A denominator that the prices of all rows nearly have in common, up to the greatest. The price of a row of shift 0
/// may miss a whole number by two to the power of `miss`; the greater a row's shift, the less depends on its price.
pub(crate) fn common(prices: &[i128], shifts: &[i32], miss: i32, greatest: u64) -> u64
    requires { greatest ≤ MOST_MULTIPLIER }
    ensures some { 1 ≤ result }
    ensures most { result ≤ MOST_MULTIPLIER }
{
    let mut q: u64 = 1;
    for r in 0..prices.len() {
        let part = prices[r].saturating_mul(i128::from(q));
        let nearly = shifted(ONE, at(shifts, r, 0).saturating_add(miss));
        let nearly = nearly.clamp(LEAST_MISS, ONE / 2);
        let more = q.saturating_mul(denominator_of(part, nearly, greatest / q.max(1)));
        if more <= greatest {
            q = more;
        }
    }
    q.clamp(1, MOST_MULTIPLIER)
}
