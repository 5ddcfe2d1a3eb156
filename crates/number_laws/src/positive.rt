ghost use Rattle.std.specs.Prelude.{◌≡◌};
ghost use Rattle.number_laws.specs.Positive.{positive_part, IsLeastAbove, ScalesWithNaturals, IsSubadditive, BoundsMultiples};

/// The greater of the number and 0.
pub fn positive_part(number: i64) -> u64
    ensures value { result ≡ positive_part number }
    ensures least { IsLeastAbove number result }
{
    if number < 0 { 0 } else { number as u64 }
}

/// How the positive part goes with products and sums. It does nothing when it runs.
pub fn positive_part_laws()
    ensures scales { ScalesWithNaturals }
    ensures sums { IsSubadditive }
    ensures multiples { BoundsMultiples }
{}

#[cfg(test)]
mod tests {
    use super::*;

    #[test]
    fn takes_what_is_above_zero(rt: HostRuntime) {
        assert_eq!(rt; positive_part(7), 7);
        assert_eq!(rt; positive_part(0), 0);
        assert_eq!(rt; positive_part(-7), 0);
        assert_eq!(rt; positive_part(i64::MIN), 0);
        positive_part_laws();
    }
}
