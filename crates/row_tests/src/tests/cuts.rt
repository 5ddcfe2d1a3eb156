//! Rows of cuts that were worked out by hand, cuts that are not valid, and what cuts bound.

mod bounds;

use super::names::row_text;
use blend_cuts::{cut_row, cut_row_laws, cut_valid};
use plant_model::Plant;
use sample_plants::blend_drift;
use slot_box::CutParams;
use std::alloc::{AllocError, Global};
use std::test::Fail;

/// The cut of a set and a threshold by which the second crude weighs 1 and no other weighs anything.
pub(crate) fn second_crude(places: u64, p: i64, q: i64) -> CutParams {
    let mut weights = [0; 12];
    weights[1] = 1;
    CutParams {
        places,
        p,
        q,
        weights,
    }
}

/// The row of the cut over forms of two slots, as text.
fn told(
    alloc: Global,
    plant: &Plant,
    cut: &CutParams,
    slot: u32,
    op: u8,
) -> Result<String, AllocError> {
    match cut_row(alloc, plant, 2, cut, slot, op)? {
        Some(row) => row_text(alloc, &row),
        None => String::from_str(alloc, "none"),
    }
}

// The set, p and q; the slot and the operation; the row. Place 0 is the storage tank, place 1 the charging tank;
// operation 0 leads from the one to the other, and operation 1 charges.
const ROWS: &[([i64; 2], u64, u32, u8, &str)] = &[
    ([1, 10], 2, 1, 1, "0 1.1.z*-10 1.1.a0*-1 1.1.a1*9"),
    (
        [1, 10],
        2,
        2,
        1,
        "0 1.0.z*-900 2.1.z*-20 2.1.a0*-1 2.1.a1*9",
    ),
    // its source is not in the set
    ([1, 10], 2, 1, 0, "none"),
    // there is no such slot, or no such operation
    ([1, 10], 2, 0, 1, "none"),
    ([1, 10], 2, 3, 1, "none"),
    ([1, 10], 2, 1, 2, "none"),
    // no place has a row
    ([1, 10], 0, 1, 1, "none"),
    // the tank holds 10 that weigh more
    ([0, 10], 2, 1, 1, "0 1.1.z*-110 1.1.a1*10"),
    // the storage tank exceeds the threshold by 200, and the charging tank does not make up for it
    ([6, 10], 3, 1, 0, "0 1.0.z*-210 1.0.a0*-6 1.0.a1*4"),
    ([6, 10], 3, 2, 1, "0 2.1.z*-220 2.1.a0*-6 2.1.a1*4"),
    // no crude weighs more
    ([1, 1], 2, 2, 1, "0 2.1.z*-2 2.1.a0*-1"),
];

#[test]
fn rows_of_cuts(rt: HostRuntime) -> Result<(), Fail> {
    let plant = blend_drift(rt.alloc())?;
    for row in ROWS {
        let ([p, q], places, slot, op, wanted) = *row;
        let cut = second_crude(places, p, q);
        assert_eq!(rt; told(rt.alloc(), &plant, &cut, slot, op)?.as_str(), wanted);
    }
    cut_row_laws(&plant);
    Ok(())
}

// The set, p and q; whether the cut is valid.
const CUTS: &[([i64; 2], u64, bool)] = &[
    ([1, 10], 0, true),
    ([1, 10], 3, true),
    // the unit, and no place
    ([1, 10], 4, false),
    ([1, 10], 8, false),
    ([1, 10], 1 << 63, false),
    ([1, 0], 2, false),
    ([1, -1], 2, false),
    ([1, 1024], 2, true),
    ([1, 1025], 2, false),
    ([1_048_576, 1], 2, true),
    ([-1_048_577, 1], 2, false),
];

#[test]
fn valid_cuts(rt: HostRuntime) -> Result<(), Fail> {
    let plant = blend_drift(rt.alloc())?;
    for row in CUTS {
        let ([p, q], places, wanted) = *row;
        let cut = second_crude(places, p, q);
        assert_eq!(rt; cut_valid(&plant, &cut), wanted);
    }
    Ok(())
}

/// A weight within its limit, and none of a crude that there is not.
#[test]
fn valid_weights(rt: HostRuntime) -> Result<(), Fail> {
    let plant = blend_drift(rt.alloc())?;
    let mut cut = second_crude(2, 1, 10);
    cut.weights[0] = -1_048_576;
    assert!(rt; cut_valid(&plant, &cut));
    cut.weights[0] = 1_048_577;
    assert!(rt; !cut_valid(&plant, &cut));
    cut.weights[0] = 0;
    cut.weights[2] = 1;
    assert!(rt; !cut_valid(&plant, &cut));
    Ok(())
}
