ghost use Rattle.linear_form.specs.Rows.{HasEachOnce};

use super::samples::{
    earned_by_charge, earned_by_three, earned_by_two, fixed_rate, half_a_tank, one_operation, slow,
    three_rows, two_rows,
};
use dual_bound::{bound, is_objective, is_system, shows_empty};
use fixed_simplex::{Course, multipliers, multipliers_by};
use linear_form::{Objective, RowList};
use std::alloc::Global;
use std::process::Abort;
use std::test::Fail;

/// The bound of the multipliers that are found, where an amount is at most `most`, and whether they show that there is
/// no point.
fn found(
    alloc: Global,
    rt: &impl Abort,
    most: i64,
    rows: &RowList,
    objective: &Objective,
) -> Result<(i128, bool), Fail>
    requires { HasEachOnce objective.now }
{
    let ranges = one_operation(alloc, most)?;
    assert!(rt; is_system(rows, &ranges));
    assert!(rt; is_objective(&ranges, objective));
    assert!(rt; ranges.ends().len() <= 4000);
    let guess = multipliers(alloc, rows, &ranges, objective)?;
    let empty = shows_empty(rows, &ranges, &guess);
    Ok((bound(rows, &ranges, objective, &guess), empty))
}

// A charge earns 3 a unit, of at most 4.
#[test]
fn needs_no_row(rt: HostRuntime) -> Result<(), Fail> {
    let gain = earned_by_charge(rt.alloc())?;
    let rows = RowList::new(rt.alloc());
    assert_eq!(rt; found(rt.alloc(), &rt, 4, &rows, &gain)?, (12, false));
    Ok(())
}

#[test]
fn meets_half_a_tank(rt: HostRuntime) -> Result<(), Fail> {
    let gain = earned_by_charge(rt.alloc())?;
    let rows = half_a_tank(rt.alloc())?;
    assert_eq!(rt; found(rt.alloc(), &rt, 4, &rows, &gain)?, (6, false));
    Ok(())
}

// A unit a minute, for at most 2 minutes.
#[test]
fn meets_a_slow_charge(rt: HostRuntime) -> Result<(), Fail> {
    let gain = earned_by_charge(rt.alloc())?;
    let rows = slow(rt.alloc())?;
    assert_eq!(rt; found(rt.alloc(), &rt, 4, &rows, &gain)?, (6, false));
    Ok(())
}

// Two amounts, at a corner where two rows are tight: 11.6 at 2.4 and 2.2.
#[test]
fn meets_the_optimum_of_two(rt: HostRuntime) -> Result<(), Fail> {
    let gain = earned_by_two(rt.alloc(), 3, 2)?;
    let rows = two_rows(rt.alloc(), [2, 1, 7], [1, 3, 9])?;
    assert_eq!(rt; found(rt.alloc(), &rt, 10, &rows, &gain)?, (11, false));
    Ok(())
}

// Without a pivot no row is taken, and both amounts are at most 10.
#[test]
fn stops_where_it_is_told(rt: HostRuntime) -> Result<(), Fail> {
    let ranges = one_operation(rt.alloc(), 10)?;
    let gain = earned_by_two(rt.alloc(), 3, 2)?;
    let rows = two_rows(rt.alloc(), [2, 1, 7], [1, 3, 9])?;
    assert!(rt; is_system(&rows, &ranges));
    assert!(rt; is_objective(&ranges, &gain));
    assert!(rt; ranges.ends().len() <= 4000);
    let count = rows.as_slice().len();
    for (stages, pivots, expected) in [([0, count], 0, 50), ([0, 0], 100, 50)] {
        let course = Course {
            stages: &stages,
            pivots,
            enough: None,
        };
        let guess = multipliers_by(rt.alloc(), &rows, &ranges, &gain, &course)?;
        assert_eq!(rt; bound(&rows, &ranges, &gain, &guess), expected);
    }
    Ok(())
}

// At 2.5, 1.5 and 0.
#[test]
fn meets_the_optimum_of_three(rt: HostRuntime) -> Result<(), Fail> {
    let gain = earned_by_three(rt.alloc())?;
    let rows = three_rows(rt.alloc())?;
    assert_eq!(rt; found(rt.alloc(), &rt, 10, &rows, &gain)?, (1050, false));
    Ok(())
}

// Three units a minute at least, and two minutes at least: that is more than 4.
#[test]
fn shows_a_fixed_rate_empty(rt: HostRuntime) -> Result<(), Fail> {
    let gain = earned_by_charge(rt.alloc())?;
    let rows = fixed_rate(rt.alloc())?;
    let (_value, empty) = found(rt.alloc(), &rt, 4, &rows, &gain)?;
    assert!(rt; empty);
    Ok(())
}
