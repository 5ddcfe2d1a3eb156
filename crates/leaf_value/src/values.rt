ghost use Rattle.std.specs.Prelude.{◌≡◌};
ghost use Rattle.number_laws.specs.Missing.{greater};

/// The greater of two values of 64 bits, each of which may be none.
pub fn greater(best: Option<i64>, value: Option<i64>) -> Option<i64>
    ensures { result ≡ greater best value }
{
    match (best, value) {
        (Some(best), Some(value)) => Some(if best < value { value } else { best }),
        (None, value) => value,
        (best, None) => best,
    }
}

/// Likewise of 128 bits, which the value of any leaf has.
pub fn greater_wide(best: Option<i128>, value: Option<i128>) -> Option<i128>
    ensures { result ≡ greater best value }
{
    match (best, value) {
        (Some(old), Some(new)) if old < new => Some(new),
        (Some(old), _) => Some(old),
        (None, value) => value,
    }
}
