ghost use Rattle.std.specs.Prelude.{◌≤◌};
ghost use Rattle.limits.specs.declared.TheConstants.{MOST_SLOTS};

use super::asked::{look, look_by, task_of};
use super::cases::*;
use plant_model::Plant;
use sample_plants::{fixed_rate, half_tank, losing_charge, one_charge, slow_charge, two_inlets};
use search_node::{Examined, Looked, value_laws};
use slot_box::{IDLE, Leaf, Split, SplitKind};
use std::alloc::{AllocError, Global};
use std::test::Fail;

/// What is told of a box that is closed, with this value.
fn closed(leaf: &Leaf, value: i64) -> Told {
    match leaf {
        Leaf::Dead { at } => ("dead", i64::from(*at)),
        Leaf::Void { .. } => ("void", value),
        Leaf::Dual { .. } => ("dual", value),
        Leaf::Undone { .. } => ("open", value),
        Leaf::Point => ("point", value),
    }
}

/// The answer in a word and a number.
fn told(looked: &Looked) -> Told {
    match &looked.what {
        Examined::Closed { leaf, value } => closed(leaf, value.unwrap_or(99)),
        Examined::Splittable { value, .. } => ("split", *value),
    }
}

/// The split, where the box may be divided.
fn split_of(looked: &Looked) -> Option<Split> {
    match &looked.what {
        Examined::Closed { .. } => None,
        Examined::Splittable { split, .. } => Some(*split),
    }
}

/// What the plan earns, where there is one.
fn margin_of(looked: &Looked) -> Option<i64> {
    looked.found.as_ref().map(|planned| planned.margin)
}

/// Whether two answers are the same.
fn are_same(first: &Looked, second: &Looked) -> bool {
    let (word, number) = told(first);
    let (other, value) = told(second);
    word == other
        && number == value
        && split_of(first) == split_of(second)
        && margin_of(first) == margin_of(second)
}

/// Whether this is the answer, with a table that is kept and without one.
fn is_told(alloc: Global, plant: &Plant, slots: u32, case: Case) -> Result<bool, AllocError>
    requires some { 1 ≤ slots }
    requires most { slots ≤ MOST_SLOTS }
{
    let (path, warm, seen, word, number) = case;
    let task = task_of(alloc, plant, slots, path, warm)?;
    let looked = look(alloc, plant, &task, seen)?;
    let again = look_by(alloc, plant, &task, seen)?;
    let (found, value) = told(&looked);
    Ok(found == word && number.unwrap_or(value) == value && are_same(&looked, &again))
}

/// The first case, counted from 1, whose answer is another one; 0 where there is none.
fn first_wrong(
    alloc: Global,
    plant: Result<Plant, AllocError>,
    slots: u32,
    cases: &[Case],
) -> Result<usize, AllocError>
    requires some { 1 ≤ slots }
    requires most { slots ≤ MOST_SLOTS }
{
    let plant = plant?;
    for (index, case) in cases.iter().enumerate() {
        if !is_told(alloc, &plant, slots, *case)? {
            return Ok(index.saturating_add(1));
        }
    }
    Ok(0)
}

#[test]
fn bounds_roots_by_rows(rt: HostRuntime) -> Result<(), Fail> {
    let alloc = rt.alloc();
    assert_eq!(rt;
        first_wrong(alloc, half_tank(alloc), 1, half_tank_cases())?,
        0
    );
    assert_eq!(rt;
        first_wrong(alloc, slow_charge(alloc), 1, slow_charge_cases())?,
        0
    );
    assert_eq!(rt;
        first_wrong(alloc, fixed_rate(alloc), 1, fixed_rate_cases())?,
        0
    );
    Ok(())
}

#[test]
fn bounds_roots_without_rows(rt: HostRuntime) -> Result<(), Fail> {
    let alloc = rt.alloc();
    let plant = one_charge().plant(alloc);
    assert_eq!(rt; first_wrong(alloc, plant, 1, one_charge_cases())?, 0);
    assert_eq!(rt;
        first_wrong(alloc, losing_charge(alloc), 1, losing_charge_cases())?,
        0
    );
    Ok(())
}

#[test]
fn tells_where_a_prefix_is_refused(rt: HostRuntime) -> Result<(), Fail> {
    let alloc = rt.alloc();
    assert_eq!(rt;
        first_wrong(alloc, two_inlets(alloc), 3, two_inlets_cases())?,
        0
    );
    Ok(())
}

/// Whether this is told of a point, though a better plan was seen.
fn is_point_told(alloc: Global, plant: &Plant, point: Point) -> Result<bool, AllocError> {
    let (path, margin, plan) = point;
    let task = task_of(alloc, plant, 1, path, Warm::Cold)?;
    let looked = look(alloc, plant, &task, Some(100))?;
    let planned = match &looked.found {
        None => plan.is_empty(),
        Some(planned) => planned.plan.as_slice() == plan,
    };
    let (word, value) = told(&looked);
    let is_point = word == "point" && value == margin.unwrap_or(99);
    Ok(is_point && planned && margin_of(&looked) == margin)
}

/// The first point, counted from 1, of which another plan is told; 0 where there is none.
fn first_wrong_point(alloc: Global, plant: &Plant) -> Result<usize, AllocError> {
    for (index, point) in points().iter().enumerate() {
        if !is_point_told(alloc, plant, *point)? {
            return Ok(index.saturating_add(1));
        }
    }
    Ok(0)
}

#[test]
fn gives_plans_of_points(rt: HostRuntime) -> Result<(), Fail> {
    let plant = one_charge().plant(rt.alloc())?;
    assert_eq!(rt; first_wrong_point(rt.alloc(), &plant)?, 0);
    value_laws(&plant);
    Ok(())
}

/// Whether the split divides a slot of three operations and idle, of volumes to 10 and minutes to 4, evenly.
fn is_even(split: Split) -> bool {
    let halves = match split.kind {
        SplitKind::Ops(set) => (set & (IDLE + 0b111)).count_ones() == 2,
        SplitKind::Volume(x) => x == 5,
        SplitKind::Start(x) => x == 2,
        SplitKind::End(x) => x == 2,
    };
    split.slot == 1 && halves
}

/// Whether the root box of one slot may be divided by an even split.
fn is_divided_evenly(alloc: Global, plant: &Plant) -> Result<bool, AllocError> {
    let task = task_of(alloc, plant, 1, root(), Warm::Cold)?;
    let looked = look(alloc, plant, &task, None)?;
    match split_of(&looked) {
        None => Ok(false),
        Some(split) => Ok(is_even(split)),
    }
}

#[test]
fn divides_evenly(rt: HostRuntime) -> Result<(), Fail> {
    let plant = two_inlets(rt.alloc())?;
    assert!(rt; is_divided_evenly(rt.alloc(), &plant)?);
    Ok(())
}
