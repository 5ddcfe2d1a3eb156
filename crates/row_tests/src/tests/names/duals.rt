ghost use Rattle.std.specs.Prelude.{◌≤◌, IfOk};
ghost use Rattle.limits.specs.declared.TheConstants.{MOST_HORIZON};
ghost use Rattle.linear_form.specs.Rows.{HasEachOnce};

use super::row_of;
use dual_bound::{Guess, YList, bound, is_guess, is_objective, is_system, shows_empty};
use linear_form::{Objective, Ranges, RowList};
use plant_model::Plant;
use sample_plants::{fixed_rate, late_vessel, one_charge};
use slot_box::SlotBox;
use slot_rows::{objective, ranges};
use std::alloc::{AllocError, Global};
use std::process::Abort;
use std::test::Fail;

/// The rows of the names, over forms of one slot.
fn rows_of(alloc: Global, plant: &Plant, names: &[[u16; 5]]) -> Result<RowList, Fail> {
    let mut rows = RowList::new(alloc);
    for name in names {
        let row = row_of(alloc, plant, 1, *name)?.ok_or("a row")?;
        rows.push(row).map_err(|_| AllocError)?;
    }
    Ok(rows)
}

/// The ranges of the root box of one slot and one operation, which moves at most 4, within so many minutes.
fn root_ranges(alloc: Global, plant: &Plant, minutes: u32) -> Result<Ranges, AllocError>
    requires some_minutes { 1 ≤ minutes }
    requires most_minutes { minutes ≤ MOST_HORIZON }
{
    let root = SlotBox::root(alloc, 1, 1, 4, minutes)?;
    ranges(alloc, plant, &root)
}

fn guess(alloc: Global, y: &[u64], q: u64) -> Result<Guess, AllocError> {
    let y = YList::from_vec(Vec::from_slice(alloc, y)?);
    Ok(Guess { y, q })
}

/// The dual value of the guess on the rows over the ranges, and whether its multipliers show that there is no form.
fn weighed(
    rt: &impl Abort,
    ranges: &Ranges,
    rows: &RowList,
    objective: &Objective,
    guess: &Guess,
) -> (i128, bool)
    requires { HasEachOnce objective.now }
{
    assert!(rt; is_system(rows, ranges));
    assert!(rt; is_objective(ranges, objective));
    assert!(rt; is_guess(rows, guess));
    let empty = shows_empty(rows, ranges, guess);
    (bound(rows, ranges, objective, guess), empty)
}

/// The same of multipliers over their common denominator, in the root box of so many minutes.
fn told(
    alloc: Global,
    rt: &impl Abort,
    plant: &Plant,
    minutes: u32,
    rows: &RowList,
    objective: &Objective,
    y: &[u64],
    q: u64,
) -> Result<(i128, bool), AllocError>
    requires some_minutes { 1 ≤ minutes }
    requires most_minutes { minutes ≤ MOST_HORIZON }
    requires once { HasEachOnce objective.now }
{
    let ranges = root_ranges(alloc, plant, minutes)?;
    let guess = guess(alloc, y, q)?;
    Ok(weighed(rt, &ranges, rows, objective, &guess))
}

/// What the forms of one slot earn.
fn earned(alloc: Global, plant: &Plant) -> Result<Objective, AllocError>
    ensures { IfOk result (λ sum. HasEachOnce sum) }
{
    objective(alloc, plant, 1)
}

/// Without an objective the dual value is the emptiness sum.
#[test]
fn a_fixed_rate_has_no_form(rt: HostRuntime) -> Result<(), Fail> {
    let alloc = rt.alloc();
    let plant = fixed_rate(alloc)?;
    let rows = rows_of(alloc, &plant, &[[3, 1, 0, 0, 0], [11, 1, 1, 0, 0]])?;
    let nothing = Objective::new(alloc);
    let found = told(alloc, &rt, &plant, 2, &rows, &nothing, &[1, 4320], 1)?;
    assert_eq!(rt; found, (-2880, true));
    Ok(())
}

/// 3 for each of the 4 volume units that the charge may move.
#[test]
fn without_rows_all_volume_earns(rt: HostRuntime) -> Result<(), Fail> {
    let alloc = rt.alloc();
    let plant = one_charge().plant(alloc)?;
    let earned = earned(alloc, &plant)?;
    let rows = RowList::new(alloc);
    let found = told(alloc, &rt, &plant, 2, &rows, &earned, &[], 1)?;
    assert_eq!(rt; found, (12, false));
    Ok(())
}

// Its rows of least time, of arrival, of what it brings and of its wait.
const LATE: &[[u16; 5]] = &[
    [3, 1, 0, 1, 0],
    [4, 1, 0, 0, 0],
    [10, 0, 0, 0, 0],
    [16, 0, 1, 0, 0],
];

#[test]
fn demurrage_of_a_late_vessel(rt: HostRuntime) -> Result<(), Fail> {
    let alloc = rt.alloc();
    let plant = late_vessel(alloc)?;
    let rows = rows_of(alloc, &plant, LATE)?;
    let earned = earned(alloc, &plant)?;
    let y = [1, 2880, 1440, 2880];
    let found = told(alloc, &rt, &plant, 4, &rows, &earned, &y, 576)?;
    assert_eq!(rt; found, (-10, false));
    Ok(())
}
