//! What a cut bounds, and cuts that are proposed.

use super::second_crude;
use crate::tests::names::row_of;
use blend_cuts::{cut_row, find_cuts};
use dual_bound::{Guess, YList, bound, is_guess, is_objective, is_system};
use linear_form::{Ranges, RowList};
use plant_model::Plant;
use sample_plants::blend_limit;
use slot_box::{CutParams, SlotBox};
use slot_rows::{objective, ranges};
use std::alloc::{AllocError, Global};
use std::process::Abort;
use std::test::Fail;

fn guess(alloc: Global, y: &[u64]) -> Result<Guess, AllocError> {
    let y = YList::from_vec(Vec::from_slice(alloc, y)?);
    Ok(Guess { y, q: 1 })
}

/// The row on the volume of the charge, and that of the cut.
fn rows(alloc: Global, plant: &Plant, cut: &CutParams) -> Result<RowList, Fail> {
    let mut rows = RowList::new(alloc);
    let volume = row_of(alloc, plant, 1, [2, 1, 0, 0, 0])?.ok_or("a row")?;
    rows.push(volume).map_err(|_| AllocError)?;
    let row = cut_row(alloc, plant, 1, cut, 1, 0)?.ok_or("a row of the cut")?;
    rows.push(row).map_err(|_| AllocError)?;
    Ok(rows)
}

/// The ranges of the root box of one slot and one operation, which moves at most 50 within one minute.
fn root_ranges(alloc: Global, plant: &Plant) -> Result<Ranges, AllocError> {
    let root = SlotBox::root(alloc, 1, 1, 50, 1)?;
    ranges(alloc, plant, &root)
}

/// The dual value of the multipliers.
fn bounded(
    alloc: Global,
    rt: &impl Abort,
    plant: &Plant,
    cut: &CutParams,
    y: &[u64],
) -> Result<i128, Fail> {
    let rows = rows(alloc, plant, cut)?;
    let ranges = root_ranges(alloc, plant)?;
    let objective = objective(alloc, plant, 1)?;
    let guess = guess(alloc, y)?;
    assert!(rt; is_system(&rows, &ranges));
    assert!(rt; is_objective(&ranges, &objective));
    assert!(rt; is_guess(&rows, &guess));
    Ok(bound(&rows, &ranges, &objective, &guess))
}

/// A charge of 50 may hold 6 of the crude that earns 100, and not all 10.
#[test]
fn a_cut_bounds_a_blend(rt: HostRuntime) -> Result<(), Fail> {
    let plant = blend_limit(rt.alloc())?;
    let cut = second_crude(1, 1, 10);
    assert_eq!(rt; bounded(rt.alloc(), &rt, &plant, &cut, &[10, 10])?, 600);
    Ok(())
}

/// How many cuts are found, and the first.
fn found(alloc: Global, plant: &Plant, room: u32) -> Result<(usize, Option<CutParams>), Fail> {
    let guess = guess(alloc, &[])?;
    let cuts = find_cuts(alloc, plant, 1, &guess, room)?;
    Ok((cuts.as_slice().len(), cuts.as_slice().first().copied()))
}

/// The tank holds 10 of the margin in each unit on the average: the crudes lie 10 below it and 90 above.
#[test]
fn a_blend_gets_a_cut(rt: HostRuntime) -> Result<(), Fail> {
    let plant = blend_limit(rt.alloc())?;
    assert_eq!(rt; found(rt.alloc(), &plant, 0)?, (0, None));
    let (count, first) = found(rt.alloc(), &plant, 4)?;
    assert_eq!(rt; count, 1);
    let cut = first.ok_or("a cut")?;
    assert_eq!(rt; (cut.places, cut.p, cut.q), (1, 0, 1));
    assert_eq!(rt; (cut.weights[0], cut.weights[1]), (-10, 90));
    assert_eq!(rt; bounded(rt.alloc(), &rt, &plant, &cut, &[10, 1])?, 600);
    Ok(())
}
