//! Quality cuts: rows that say how far blends can drift.
//!
//! A relaxation may draw the good crude from a tank and leave the poor one. A cut holds a set of vessels and tanks
//! against a threshold: on the average a unit of crude weighs no more than `p / q`. What the places of the set exceed
//! it by, none making up for another, grows by the rounding of draws alone, until crude is brought in from outside;
//! and no draw exceeds it by more. To the crates above this crate promises that [`cut_row`] gives exactly the row of
//! a cut, a slot and an operation, and none exactly where the cut is not [valid](cut_valid) or has no such row; and
//! that each row holds for every form whose word breaks no rule, however its draws are rounded ([`cut_row_laws`]).
//! [`find_cuts`] proposes valid cuts that are worth a try.
//!
//! Begin with `specs/Excess`, then `specs/CutRows`. The proofs go from one draw (`DriftLaws`) to one operation, and
//! from there over the word to the row.
#![tactic(auto)]

mod excess;
mod find;
mod laws;
mod mixes;
mod rows;
mod sets;
mod threshold;
mod valid;

pub use find::find_cuts;
pub use laws::cut_row_laws;
pub use rows::cut_row;
pub use valid::cut_valid;
