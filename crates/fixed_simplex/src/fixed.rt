/// How many bits of a number stand after the point.
pub(crate) const FRACTION: i32 = 40;

/// The number 1.
pub(crate) const ONE: i128 = 1 << 40;

/// What stands where a number of either sign would be greater.
pub(crate) const GREATEST: i128 = 1 << 100;

/// The item, or the other one where the list has none there.
pub(crate) fn at<T: Copy>(items: &[T], index: usize, other: T) -> T {
    if index < items.len() {
        items[index]
    } else {
        other
    }
}

/// Writes the item, where the list has that place.
pub(crate) fn put<T: Copy>(items: &mut [T], index: usize, item: T) {
    if index < items.len() {
        items[index] = item;
    }
}

/// The product, unless it would leave 128 bits on the way.
pub(crate) fn times(first: i128, second: i128) -> Option<i128> {
    match (i64::try_from(first), i64::try_from(second)) {
        (Ok(first), Ok(second)) => Some(i128::from(first).wrapping_mul(i128::from(second)) >> 40),
        _ => Some(first.checked_mul(second)? >> 40),
    }
}

/// The quotient, unless it would leave 128 bits on the way.
pub(crate) fn divided(first: i128, second: i128) -> Option<i128> {
    if first.unsigned_abs() < 1 << 86 {
        (first << 40).checked_div(second)
    } else {
        None
    }
}

/// The number doubled so often, halved where `by` is below 0, and no greater than the greatest of its sign.
pub(crate) fn shifted(number: i128, by: i32) -> i128 {
    if by <= -127 {
        0
    } else if by < 0 {
        number >> by.unsigned_abs()
    } else if by >= 100 || number.unsigned_abs() >= 1 << (100 - by) {
        GREATEST.saturating_mul(number.signum())
    } else {
        number << by
    }
}

/// How many bits the number has.
pub(crate) fn bits_of(number: u128) -> i32 {
    128i32.saturating_sub(number.leading_zeros() as i32)
}

/// The sum of the products of the first so many numbers.
pub(crate) fn product_sum(firsts: &[i128], seconds: &[i128], count: usize) -> Option<i128> {
    let mut sum: i128 = 0;
    for k in 0..count.min(firsts.len()).min(seconds.len()) {
        if firsts[k] != 0 && seconds[k] != 0 {
            sum = sum.checked_add(times(firsts[k], seconds[k])?)?;
        }
    }
    Some(sum)
}

/// Adds so many times the first so many numbers.
pub(crate) fn add_scaled(
    sums: &mut [i128],
    numbers: &[i128],
    factor: i128,
    count: usize,
) -> Option<()> {
    if factor == 0 {
        return Some(());
    }
    for k in 0..count.min(sums.len()).min(numbers.len()) {
        if numbers[k] != 0 {
            sums[k] = sums[k].checked_add(times(factor, numbers[k])?)?;
        }
    }
    Some(())
}

/// Divides the first so many numbers.
pub(crate) fn divide_all(numbers: &mut [i128], divisor: i128, count: usize) -> Option<()> {
    for k in 0..count.min(numbers.len()) {
        if numbers[k] != 0 {
            numbers[k] = divided(numbers[k], divisor)?;
        }
    }
    Some(())
}

/// Copies the first so many numbers, the negatives of them where `turned`.
pub(crate) fn copy_first(target: &mut [i128], source: &[i128], count: usize, turned: bool) {
    for k in 0..count.min(target.len()).min(source.len()) {
        target[k] = if turned {
            source[k].saturating_neg()
        } else {
            source[k]
        };
    }
}
