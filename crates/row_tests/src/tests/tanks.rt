//! The call with ample memory. The rows of all families are tested by name.

use plant_model::Plant;
use sample_plants::one_charge;
use slot_box::RowName;
use std::alloc::{AllocError, Global};
use std::test::Fail;
use tank_rows::{tank_row, tank_row_laws};

/// What the sum of a row on slot 1 is at most, if there is such a row.
fn most(alloc: Global, plant: &Plant, family: u8) -> Result<Option<i64>, AllocError> {
    let name = RowName {
        family,
        a: 0,
        b: 1,
        c: 0,
        d: 0,
    };
    match tank_row(alloc, plant, 1, name)? {
        Some(row) => Ok(Some(row.right())),
        None => Ok(None),
    }
}

/// What the charging tank gives is at most its 4; a row on slots is none of these.
#[test]
fn rows_of_one_charge(rt: HostRuntime) -> Result<(), Fail> {
    let plant = one_charge().plant(rt.alloc())?;
    assert_eq!(rt; most(rt.alloc(), &plant, 5)?, Some(4));
    assert_eq!(rt; most(rt.alloc(), &plant, 8)?, None);
    tank_row_laws(&plant);
    Ok(())
}
