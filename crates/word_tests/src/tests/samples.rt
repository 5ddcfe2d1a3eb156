//! The plant of two inlets, and operations on it.
//!
//! The functions promise nothing of it, so that the proofs of the tests do not read the numbers.

use plant_model::Plant;
use replay_core::Timed;
use sample_plants::two_inlets;
use std::alloc::{AllocError, Global};
use std::test::Fail;

/// The plant of the places `S1`, `S2`, `C1` and `U`, in which operations 0 and 1 fill `C1` from the first two, and
/// operation 2 charges `U` from it.
pub fn inlets(alloc: Global) -> Result<Plant, AllocError> {
    two_inlets(alloc)
}

pub fn timed(op: u8, start: u32, end: u32, volume: u32) -> Timed {
    Timed {
        op,
        start,
        end,
        volume,
    }
}
