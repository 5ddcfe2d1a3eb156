ghost use Rattle.std.specs.Prelude.{◌≡◌, ◌+◌, ◌*◌, ◌^◌, ◌<◌, ◌≤◌, ◌+ℤ◌, ◌-ℤ◌, ◌*ℤ◌, pos, neg_ℤ, unsigned_abs};
ghost use Rattle.limits.specs.declared.TheConstants.{MOST_MULTIPLIER};

/// So many times the factor.
pub(crate) fn scaled(times: i128, factor: i64) -> i128
    requires { unsigned_abs times ≤ MOST_MULTIPLIER }
    ensures value { result ≡ times *ℤ factor }
    ensures size { unsigned_abs result ≤ 2 ^ 95 }
{
    times * i128::from(factor)
}

/// The sum, which has room.
pub(crate) fn plus(sum: i128, more: i128) -> i128
    requires { unsigned_abs sum + unsigned_abs more < 2 ^ 127 }
    ensures { result ≡ sum +ℤ more }
{
    sum + more
}

/// The negative of a multiplier.
pub(crate) fn negative(y: u64) -> i128
    requires { y ≤ MOST_MULTIPLIER }
    ensures value { result ≡ neg_ℤ (pos y) }
    ensures size { unsigned_abs result ≤ MOST_MULTIPLIER }
{
    -i128::from(y)
}

/// The difference, which has room.
pub(crate) fn minus(sum: i128, less: i128) -> i128
    requires { unsigned_abs sum + unsigned_abs less < 2 ^ 127 }
    ensures { result ≡ sum -ℤ less }
{
    sum - less
}
