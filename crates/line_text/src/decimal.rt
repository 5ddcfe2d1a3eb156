ghost use Rattle.std.specs.Prelude.{◌≡◌, ◌≢◌, ℕ, ◌≤◌, ◌^◌, IfSome, IfNone, decimal, ℤ, FitsSigned};
ghost use Rattle.std.specs.Int.{w64};
ghost use Rattle.std.specs.Fmt.{signed_decimal};
ghost use Rattle.line_text.specs.Decimal.{decimal_of, signed_of, HasOneNumber, HasOneSignedNumber};
ghost use Rattle.line_text.specs.inside.Digits.{with_digit, value_after, below_zero};

/// The value with one digit more.
#[tactic(auto, unfolding(crate::specs::inside::Digits::with_digit))]
fn with_digit(limit: u64, value: u64, byte: u8) -> Option<u64>
    ensures { result ≡ with_digit limit value byte }
{
    if !byte.is_ascii_digit() {
        return None;
    }
    let next = value.checked_mul(10)?.checked_add(u64::from(byte - b'0'))?;
    if next <= limit { Some(next) } else { None }
}

/// The value of the digits.
fn value_of(bytes: &[u8], limit: u64) -> Option<u64>
    ensures { result ≡ value_after limit 0 bytes.now }
{
    let mut value: u64 = 0;
    for byte in bytes {
        value = with_digit(limit, value, *byte)?;
    }
    Some(value)
}

#[tactic(auto, unfolding(crate::specs::Decimal::decimal_of))]
fn decimal_of(bytes: &[u8], limit: u64) -> Option<u64>
    ensures { result ≡ decimal_of limit bytes.now }
{
    match bytes {
        [] | [b'0', _, ..] => None,
        _ => value_of(bytes, limit),
    }
}

/// The number whose decimal the bytes are, where it is at most the limit. It takes no sign and no
/// needless zero.
pub fn read_decimal(bytes: &[u8], limit: u64) -> Option<u64>
    ensures found { IfSome result (λ n. (bytes.now ≡ decimal n) × (n ≤ limit)) }
    ensures none { IfNone result ((n : ℕ) → n ≤ limit → bytes.now ≢ decimal n) }
    ensures value { result ≡ decimal_of limit bytes.now }
{
    decimal_of(bytes, limit)
}

/// The number below 0 of this size.
fn below_zero(size: u64) -> Option<i64>
    requires { size ≤ 2 ^ 63 }
    ensures { result ≡ below_zero size }
{
    if size == 0 {
        None
    } else {
        Some(-((size - 1) as i64) - 1)
    }
}

const LARGEST: u64 = 0x7fff_ffff_ffff_ffff;

#[tactic(auto, unfolding(crate::specs::Decimal::signed_of))]
fn signed_of(bytes: &[u8]) -> Option<i64>
    ensures { result ≡ signed_of bytes.now }
{
    match bytes {
        [b'-', size @ ..] => below_zero(read_decimal(size, LARGEST + 1)?),
        _ => Some(read_decimal(bytes, LARGEST)? as i64),
    }
}

/// The number with a sign whose decimal the bytes are: a decimal, or `-` and one other than `0`.
pub fn read_signed(bytes: &[u8]) -> Option<i64>
    ensures found { IfSome result (λ z. bytes.now ≡ signed_decimal z) }
    ensures none { IfNone result ((z : ℤ) → FitsSigned w64 z → bytes.now ≢ signed_decimal z) }
    ensures value { result ≡ signed_of bytes.now }
{
    signed_of(bytes)
}

/// What was written is read as what it was: numbers with one decimal are one. It does nothing when
/// it runs.
pub fn decimal_laws()
    ensures decimals { HasOneNumber }
    ensures signed { HasOneSignedNumber }
{}
