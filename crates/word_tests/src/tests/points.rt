use plant_model::Plant;
use sample_plants::one_charge;
use slot_box::{SlotBox, Split, SplitFault, SplitKind};
use slot_forms::{form_laws, point_value, root_box};
use std::alloc::{AllocError, Global};
use std::test::Fail;

fn plant(alloc: Global) -> Result<Plant, AllocError> {
    one_charge().plant(alloc)
}

/// The root box of one slot.
fn root(alloc: Global) -> Result<SlotBox, Fail> {
    Ok(root_box(alloc, &plant(alloc)?, 1)?)
}

/// The part of a box that has the entries of the set or the lower numbers.
fn left(alloc: Global, bx: &SlotBox, kind: SplitKind) -> Result<SlotBox, SplitFault> {
    let (left, _) = bx.split(alloc, Split { slot: 1, kind })?;
    Ok(left)
}

/// The part that has the others.
fn right(alloc: Global, bx: &SlotBox, kind: SplitKind) -> Result<SlotBox, SplitFault> {
    let (_, right) = bx.split(alloc, Split { slot: 1, kind })?;
    Ok(right)
}

/// The box in which the charge runs from minute 0 on with all four units.
fn whole_charge(alloc: Global) -> Result<SlotBox, Fail> {
    let charge = left(alloc, &root(alloc)?, SplitKind::Ops(1))?;
    let whole = right(alloc, &charge, SplitKind::Volume(4))?;
    Ok(left(alloc, &whole, SplitKind::Start(1))?)
}

/// The box in which it ends at minute 2.
fn slow_charge(alloc: Global) -> Result<SlotBox, Fail> {
    Ok(right(alloc, &whole_charge(alloc)?, SplitKind::End(2))?)
}

/// The box in which it ends at minute 1, which is too fast.
fn fast_charge(alloc: Global) -> Result<SlotBox, Fail> {
    let early = left(alloc, &whole_charge(alloc)?, SplitKind::End(2))?;
    Ok(right(alloc, &early, SplitKind::End(1))?)
}

/// The box in which the slot stays idle.
fn idle(alloc: Global) -> Result<SlotBox, Fail> {
    Ok(right(alloc, &root(alloc)?, SplitKind::Ops(1))?)
}

/// The value of the one point of a box; -1 of any other box.
fn value(alloc: Global, bx: &SlotBox) -> Result<Option<i64>, Fail> {
    if !bx.is_point() {
        return Ok(Some(-1));
    }
    let found = point_value(alloc, &plant(alloc)?, bx)?;
    Ok(found.map(|planned| planned.margin))
}

#[test]
fn roots_have_the_points_of_all_plans(rt: HostRuntime) -> Result<(), Fail> {
    let root = root(rt.alloc())?;
    assert_eq!(rt; root.len(), 1);
    assert_eq!(rt; root.points(), 46);
    form_laws(&plant(rt.alloc())?);
    Ok(())
}

#[test]
fn values_boxes_of_one_point(rt: HostRuntime) -> Result<(), Fail> {
    let slow = slow_charge(rt.alloc())?;
    assert_eq!(rt; value(rt.alloc(), &slow)?, Some(12));
    let fast = fast_charge(rt.alloc())?;
    assert_eq!(rt; value(rt.alloc(), &fast)?, None);
    let idle = idle(rt.alloc())?;
    assert_eq!(rt; value(rt.alloc(), &idle)?, Some(0));
    Ok(())
}
