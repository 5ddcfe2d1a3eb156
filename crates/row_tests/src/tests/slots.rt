//! Each call with ample memory. The rows of all families are tested by name.
//!
//! The functions beside the tests promise nothing, so that the proofs of the tests do not read what rows promise.

use overlap_graph::cliques;
use plant_model::Plant;
use sample_plants::one_charge;
use slot_box::{RowName, SlotBox};
use slot_rows::{objective, ranges, slot_row, slot_row_laws};
use std::alloc::{AllocError, Global};
use std::test::Fail;

/// How many terms a row on slot 1 has, if there is such a row.
fn terms(alloc: Global, plant: &Plant, family: u8) -> Result<Option<usize>, AllocError> {
    let name = RowName {
        family,
        a: 1,
        b: 0,
        c: 0,
        d: 0,
    };
    let cliques = cliques(alloc, plant)?;
    match slot_row(alloc, plant, &cliques, 1, name)? {
        Some(row) => Ok(Some(row.terms().len())),
        None => Ok(None),
    }
}

/// The volume of the charge in slot 1 is at most 4; a row on tanks is none of these.
#[test]
fn rows_of_one_charge(rt: HostRuntime) -> Result<(), Fail> {
    let plant = one_charge().plant(rt.alloc())?;
    assert_eq!(rt; terms(rt.alloc(), &plant, 2)?, Some(2));
    assert_eq!(rt; terms(rt.alloc(), &plant, 5)?, None);
    slot_row_laws(&plant);
    Ok(())
}

fn columns(alloc: Global, plant: &Plant) -> Result<usize, AllocError> {
    let root = SlotBox::root(alloc, 1, 1, 4, 2)?;
    let ranges = ranges(alloc, plant, &root)?;
    Ok(ranges.ends().len())
}

fn earning(alloc: Global, plant: &Plant) -> Result<usize, AllocError> {
    let objective = objective(alloc, plant, 1)?;
    Ok(objective.as_slice().len())
}

/// Idle, and the choice, start, end and amount of the charge, of which the amount earns.
#[test]
fn columns_of_one_charge(rt: HostRuntime) -> Result<(), Fail> {
    let plant = one_charge().plant(rt.alloc())?;
    assert_eq!(rt; columns(rt.alloc(), &plant)?, 5);
    assert_eq!(rt; earning(rt.alloc(), &plant)?, 1);
    Ok(())
}
