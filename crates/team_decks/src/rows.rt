//! Passes by workers, in rows.

ghost use Rattle.std.specs.Prelude.{◌≡◌, ◌<◌, ◌∷◌, [], ◌++◌, List, OnOk, length, slice_index_or, slice_set};
ghost use Rattle.task_deck.specs.declared.ends.DoorPass.{DoorPass};

use item_lists::Items;
use std::alloc::AllocError;
use task_deck::{DoorPass, DoorPasses};

/// The passes of each worker, by its number.
pub type Rows = Items<DoorPasses>;

/// Gives a worker one pass more.
pub(crate) fn give(rows: &mut Rows, number: usize, pass: DoorPass) -> Result<(), AllocError>
    requires { number < length rows.old }
    ensures { OnOk result ((row : List DoorPass) → rows.new
        ≡ slice_set rows.old number (slice_index_or rows.old number row ++ pass ∷ [])) }
{
    let row = &mut rows.as_mut_slice()[number];
    row.push(pass).map_err(|_| AllocError)?;
    Ok(())
}

/// Takes the last pass of a worker back.
pub(crate) fn take_back(rows: &mut Rows, number: usize) -> DoorPass
    requires number { number < length rows.old }
    requires some { (row : List DoorPass) → 0 < length (slice_index_or rows.old number row) }
    ensures { (left : List DoorPass) × ((row : List DoorPass) → slice_index_or rows.old number row ≡ left ++ result ∷ [])
        × (rows.new ≡ slice_set rows.old number left) }
{
    rows.as_mut_slice()[number].pop().unwrap()
}
