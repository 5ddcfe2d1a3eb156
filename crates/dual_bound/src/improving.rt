ghost use Rattle.std.specs.Prelude.{◌≡◌, ◌≤◌, ◌≤ℤ◌, length, replicate, IfOk};
ghost use Rattle.dual_bound.specs.Dual.{dual_value};
ghost use Rattle.dual_bound.specs.Conditions.{IsSystem, IsObjective, IsGuess};
ghost use Rattle.dual_bound.specs.Improving.{IsBelowSingles};
ghost use Rattle.dual_bound.specs.inside.Steps.{IsKnown};
ghost use Rattle.dual_bound.specs.inside.Systems.{IsWhole, row_count, column_count, value_in};

use crate::descent::descend;
use crate::singles::try_singles;
use crate::system::System;
use crate::trial::{Best, try_guess};
use crate::{Guess, YList, bound};
use linear_form::{Objective, Ranges, RowList};
use std::alloc::{AllocError, Global};

/// Tries no multipliers at all and, where there is a round, each row on its own and so many steps from the best.
fn search(
    system: &System,
    rounds: u32,
    multipliers: &mut [u64],
    slopes: &mut [i128],
    weights: &mut [i128],
    best: &mut Best,
)
    requires whole { IsWhole system.now }
    requires multipliers { length multipliers.old ≡ row_count system.now }
    requires slopes { length slopes.old ≡ row_count system.now }
    requires weights { length weights.old ≡ column_count system.now }
    requires known { IsKnown system.now best.old }
    ensures known { IsKnown system.now best.new }
    ensures before { best.new.value ≤ℤ best.old.value }
    ensures zeros { best.new.value ≤ℤ value_in system.now (replicate (row_count system.now) 0) 1 }
    ensures singles { 1 ≤ rounds →
        IsBelowSingles system.now.rows.now system.now.ranges.now system.now.objective.now best.new.value }
{
    multipliers.fill(0);
    let zero_sum = try_guess(system, multipliers, 1, weights, best);
    if rounds == 0 {
        return;
    }
    try_singles(system, weights, zero_sum, best);
    descend(system, rounds, multipliers, slopes, weights, best);
}

/// Multipliers whose bound is no greater than that of the first and that of none. With a round it is also no
/// greater than that of each row on its own, taken a power of two up to 2^20 times.
pub fn improve(
    alloc: Global,
    rows: &RowList,
    ranges: &Ranges,
    objective: &Objective,
    first: &Guess,
    rounds: u32,
) -> Result<Guess, AllocError>
    requires system { IsSystem rows.now ranges.now }
    requires objective { IsObjective ranges.now objective.now }
    requires guess { IsGuess rows.now first.now.y first.now.q }
    ensures guess { IfOk result (λ guess. IsGuess rows.now guess.y guess.q) }
    ensures first { IfOk result (λ guess.
        dual_value rows.now ranges.now objective.now guess.y guess.q
        ≤ℤ dual_value rows.now ranges.now objective.now first.now.y first.now.q) }
    ensures zeros { IfOk result (λ guess.
        dual_value rows.now ranges.now objective.now guess.y guess.q
        ≤ℤ dual_value rows.now ranges.now objective.now (replicate (length rows.now) 0) 1) }
    ensures singles { 1 ≤ rounds → IfOk result (λ guess.
        IsBelowSingles rows.now ranges.now objective.now
        (dual_value rows.now ranges.now objective.now guess.y guess.q)) }
{
    let value = bound(rows, ranges, objective, first);
    let mut best = Best {
        y: Vec::from_slice(alloc, first.y.as_slice())?,
        q: first.q,
        value,
    };
    let mut multipliers = Vec::from_slice(alloc, first.y.as_slice())?;
    let mut slopes = vec![in alloc; 0i128; rows.as_slice().len()]?;
    let mut weights = vec![in alloc; 0i128; ranges.ends().len()]?;
    let system = System {
        rows: rows.as_slice(),
        ranges,
        objective: objective.as_slice(),
    };
    search(
        &system,
        rounds,
        multipliers.as_mut_slice(),
        slopes.as_mut_slice(),
        weights.as_mut_slice(),
        &mut best,
    );
    let Best { y, q, value: _ } = best;
    Ok(Guess {
        y: YList::from_vec(y),
        q,
    })
}
