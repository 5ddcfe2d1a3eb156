ghost use Rattle.std.specs.Prelude.{◌≡◌, ◌↔◌, ◌<ℤ◌, pos, IsTrue};
ghost use Rattle.std.specs.Bool.{OnTrue};
ghost use Rattle.dual_bound.specs.Dual.{dual_value, dual_sum, emptiness_sum};
ghost use Rattle.dual_bound.specs.Conditions.{IsSystem, IsObjective, IsGuess, BoundsPoints, BoundsNarrower, HasNoPoint};

use crate::Guess;
use crate::sums::dual_sum;
use crate::system::System;
use linear_form::{Objective, Ranges, RowList};

/// The dual value of a guess. No point that meets the rows and lies in the ranges has a greater objective.
pub fn bound(rows: &RowList, ranges: &Ranges, objective: &Objective, guess: &Guess) -> i128
    requires system { IsSystem rows.now ranges.now }
    requires objective { IsObjective ranges.now objective.now }
    requires guess { IsGuess rows.now guess.now.y guess.now.q }
    ensures value { result ≡ dual_value rows.now ranges.now objective.now guess.now.y guess.now.q }
    ensures points { BoundsPoints rows.now ranges.now objective.now result }
    ensures narrower { BoundsNarrower rows.now ranges.now objective.now guess.now.y guess.now.q result }
{
    let system = System {
        rows: rows.as_slice(),
        ranges,
        objective: objective.as_slice(),
    };
    let sum = dual_sum(&system, guess.y.as_slice(), guess.q);
    sum.div_euclid(i128::from(guess.q))
}

/// Whether the multipliers alone show that no point meets the rows and lies in the ranges.
pub fn shows_empty(rows: &RowList, ranges: &Ranges, guess: &Guess) -> bool
    requires system { IsSystem rows.now ranges.now }
    requires guess { IsGuess rows.now guess.now.y guess.now.q }
    ensures exact { IsTrue result ↔ (emptiness_sum rows.now ranges.now guess.now.y <ℤ pos 0) }
    ensures empty { OnTrue result (HasNoPoint rows.now ranges.now) }
{
    let system = System {
        rows: rows.as_slice(),
        ranges,
        objective: &[],
    };
    dual_sum(&system, guess.y.as_slice(), 1) < 0
}
