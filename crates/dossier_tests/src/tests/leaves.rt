use dual_bound::{Guess, YList};
use leaf_value::{Scales, dual_value, greater, greater_wide, is_blocked, leaf_laws};
use linear_form::RowList;
use plant_model::Plant;
use sample_plants::one_charge;
use slot_box::SlotBox;
use std::alloc::{AllocError, Global};
use std::test::Fail;

/// The value of the root box of one slot, without rows.
///
/// This and the next promise nothing, so that the proofs of the tests do not read what is promised of them.
fn root_value(alloc: Global, plant: &Plant) -> Result<i128, AllocError> {
    let root = SlotBox::root(alloc, 1, 1, 4, 2)?;
    let scales = Scales::new(alloc, plant, 1)?;
    let none = Guess {
        y: YList::new(alloc),
        q: 1,
    };
    dual_value(alloc, plant, &scales, &root, &RowList::new(alloc), &none)
}

/// Whether the first operation of that box is blocked.
fn is_root_blocked(alloc: Global, plant: &Plant) -> Result<bool, AllocError> {
    let root = SlotBox::root(alloc, 1, 1, 4, 2)?;
    let scales = Scales::new(alloc, plant, 1)?;
    is_blocked(alloc, plant, &scales.automaton, &root, 1)
}

#[test]
fn values_a_root_box(rt: HostRuntime) -> Result<(), Fail> {
    let plant = one_charge().plant(rt.alloc())?;
    assert_eq!(rt; root_value(rt.alloc(), &plant)?, 12);
    assert!(rt; !is_root_blocked(rt.alloc(), &plant)?);
    leaf_laws(&plant);
    Ok(())
}

#[test]
fn the_greater_of_two_values(rt: HostRuntime) -> Result<(), Fail> {
    for (best, value, wanted) in [
        (None, None, None),
        (None, Some(-3), Some(-3)),
        (Some(2), None, Some(2)),
        (Some(-5), Some(-4), Some(-4)),
        (Some(7), Some(6), Some(7)),
    ] {
        assert_eq!(rt; greater(best, value), wanted);
        let wide = greater_wide(best.map(i128::from), value.map(i128::from));
        assert_eq!(rt; wide, wanted.map(i128::from));
    }
    Ok(())
}
