ghost use Rattle.linear_form.specs.Rows.{HasEachOnce};

use super::samples::{
    earned_by_charge, earned_by_three, earned_by_two, fixed_rate, half_a_tank, one_operation, slow,
    three_rows, two_rows,
};
use dual_bound::{Guess, YList, bound, improve, is_guess, is_objective, is_system, shows_empty};
use linear_form::{Objective, RowList};
use std::alloc::{AllocError, Global};
use std::process::Abort;
use std::test::Fail;

fn guess(alloc: Global, y: &[u64], q: u64) -> Result<Guess, AllocError> {
    let y = YList::from_vec(Vec::from_slice(alloc, y)?);
    Ok(Guess { y, q })
}

/// The value of the multipliers, where an amount is at most 4.
fn value(
    alloc: Global,
    rt: &impl Abort,
    rows: &RowList,
    objective: &Objective,
    y: &[u64],
    q: u64,
) -> Result<i128, Fail>
    requires { HasEachOnce objective.now }
{
    let ranges = one_operation(alloc, 4)?;
    let guess = guess(alloc, y, q)?;
    assert!(rt; is_system(rows, &ranges));
    assert!(rt; is_objective(&ranges, objective));
    assert!(rt; is_guess(rows, &guess));
    Ok(bound(rows, &ranges, objective, &guess))
}

/// Whether the multipliers show that there is no point.
fn empty(alloc: Global, rt: &impl Abort, rows: &RowList, y: &[u64], q: u64) -> Result<bool, Fail> {
    let ranges = one_operation(alloc, 4)?;
    let guess = guess(alloc, y, q)?;
    assert!(rt; is_system(rows, &ranges));
    assert!(rt; is_guess(rows, &guess));
    Ok(shows_empty(rows, &ranges, &guess))
}

/// The value of what so many rounds make of multipliers that are all 0, where an amount is at most 10.
fn improved(
    alloc: Global,
    rt: &impl Abort,
    rows: &RowList,
    objective: &Objective,
    zeros: &[u64],
    rounds: u32,
) -> Result<i128, Fail>
    requires { HasEachOnce objective.now }
{
    let ranges = one_operation(alloc, 10)?;
    let first = guess(alloc, zeros, 1)?;
    assert!(rt; is_system(rows, &ranges));
    assert!(rt; is_objective(&ranges, objective));
    assert!(rt; is_guess(rows, &first));
    let found = improve(alloc, rows, &ranges, objective, &first, rounds)?;
    Ok(bound(rows, &ranges, objective, &found))
}

#[test]
fn values_half_a_tank(rt: HostRuntime) -> Result<(), Fail> {
    let rows = half_a_tank(rt.alloc())?;
    let gain = earned_by_charge(rt.alloc())?;
    for (y, wanted) in [(3, 6), (0, 12)] {
        assert_eq!(rt; value(rt.alloc(), &rt, &rows, &gain, &[y], 1)?, wanted);
    }
    Ok(())
}

// A unit a minute, for at most 2 minutes.
#[test]
fn values_a_slow_charge(rt: HostRuntime) -> Result<(), Fail> {
    let rows = slow(rt.alloc())?;
    let gain = earned_by_charge(rt.alloc())?;
    for (y, wanted) in [(1, 6), (2, 12)] {
        assert_eq!(rt; value(rt.alloc(), &rt, &rows, &gain, &[y], 480)?, wanted);
    }
    Ok(())
}

// Three units a minute at least, and two minutes at least: that is more than 4.
#[test]
fn values_a_fixed_rate(rt: HostRuntime) -> Result<(), Fail> {
    let rows = fixed_rate(rt.alloc())?;
    let none = Objective::new(rt.alloc());
    for (q, wanted) in [(1, -2880), (1000, -3)] {
        assert_eq!(rt;
            value(rt.alloc(), &rt, &rows, &none, &[1, 4320], q)?,
            wanted
        );
    }
    Ok(())
}

#[test]
fn shows_a_fixed_rate_empty(rt: HostRuntime) -> Result<(), Fail> {
    let rows = fixed_rate(rt.alloc())?;
    assert!(rt; empty(rt.alloc(), &rt, &rows, &[1, 4320], 7)?);
    assert!(rt; !empty(rt.alloc(), &rt, &rows, &[0, 0], 1)?);
    Ok(())
}

#[test]
fn comes_to_the_optimum_of_two(rt: HostRuntime) -> Result<(), Fail> {
    let rows = two_rows(rt.alloc(), [6, 4, 24], [1, 2, 6])?;
    let gain = earned_by_two(rt.alloc(), 5, 4)?;
    for (rounds, wanted) in [(0, 90), (1, 24), (100, 21)] {
        assert_eq!(rt;
            improved(rt.alloc(), &rt, &rows, &gain, &[0, 0], rounds)?,
            wanted
        );
    }
    Ok(())
}

#[test]
fn comes_near_the_optimum_of_three(rt: HostRuntime) -> Result<(), Fail> {
    let rows = three_rows(rt.alloc())?;
    let gain = earned_by_three(rt.alloc())?;
    let near = improved(rt.alloc(), &rt, &rows, &gain, &[0, 0, 0], 100)?;
    assert!(rt; 1050 <= near && near <= 1060);
    Ok(())
}
