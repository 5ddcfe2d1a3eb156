//! Numbers that are cut off where they would be too great.

use crude_amounts::Amounts;

/// Rates are for each so many minutes.
pub(crate) const RATE_MINUTES: u32 = 1440;

/// The most that one cause adds to a violation.
const MOST_CAUSE: u64 = 10_000_000_000;

pub(crate) fn product(a: u32, b: u32) -> u64 {
    u64::from(a) * u64::from(b)
}

/// The number, or the greatest that 32 bits hold.
pub(crate) fn narrow(number: u64) -> u32 {
    u32::try_from(number).unwrap_or(u32::MAX)
}

/// The number of an operation or a place, of which there are few.
pub(crate) fn small(number: usize) -> u8 {
    u8::try_from(number).unwrap_or(u8::MAX)
}

/// The number, or one of the ends of what 64 bits hold.
pub(crate) fn narrow_signed(number: i128) -> i64 {
    i64::try_from(number).unwrap_or(if number < 0 { i64::MIN } else { i64::MAX })
}

/// The sum over the crudes of amount times weight, and 0 where there are not as many weights.
pub(crate) fn weighted(amounts: &Amounts, weights: &[i64]) -> i64 {
    if weights.len() == amounts.len() as usize {
        narrow_signed(amounts.weighted(weights))
    } else {
        0
    }
}

/// A cause of so much is added to a violation.
pub(crate) fn add_cause(violation: &mut u64, amount: u64) {
    *violation = violation.saturating_add(amount.min(MOST_CAUSE));
}
