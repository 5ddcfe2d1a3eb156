//! Amounts of mixed crudes, and the draw of a volume from them.
//!
//! What a vessel or a tank holds is a number of volume units of each crude. A volume that is taken
//! from it holds every crude by its share, in whole units: [`Amounts::draw`] rounds so that the parts
//! sum to the volume exactly and none is more than was there. To the crates above this crate promises
//! that rule, in the words of `specs/Draw`, that a draw weighs nearly what its share of the mix does
//! (`specs/Blend`), that every sum is exact, and that no call takes memory.
//!
//! Begin with `amounts`; `cells` has the loops over the numbers themselves.
#![tactic(auto)]

mod amounts;
mod cells;

pub use amounts::Amounts;
