ghost use Rattle.std.specs.Prelude.{◌≡◌};
ghost use Rattle.std.specs.Result.{result_err};
ghost use Rattle.item_lists.specs.Faults.{first_of, unless};

/// Refuses with the fault where the test does not hold.
pub fn expect<X: Drop>(holds: bool, fault: X) -> Result<(), X>
    ensures { result_err result ≡ first_of (unless holds fault) }
{
    if holds { Ok(()) } else { Err(fault) }
}
