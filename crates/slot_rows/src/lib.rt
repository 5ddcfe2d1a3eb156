//! Rows on slots and operations, the ranges that a box leaves its columns, and the objective: what every plan of a
//! plant meets, as inequalities.
//!
//! That one entry fills each slot, volumes, rates and windows of operations, cliques, the normal order, idle slots at
//! the end, and the order of vessels at a berth. To the crates above this crate promises that [`slot_row`] gives exactly
//! the row of a name, and none exactly where the name is none of these families, of the plant, its cliques and so many
//! slots; that [`ranges`] gives exactly the ranges of a box, and [`objective`] exactly the objective; that all of these
//! can be weighed against each other, so that no sum leaves its width; and that each row holds for every form whose word
//! breaks no rule, a row of normal order where the word is normal ([`slot_row_laws`]).
//!
//! Begin with `specs/Names` and `specs/Families`, which stand beside the table of rows; `specs/SlotRows` has both. Then
//! `specs/Ranges` and `specs/Objective`.
#![tactic(auto)]

mod box_ranges;
mod families;
mod gains;
mod laws;
mod names;
mod rows;
mod spans;

pub use box_ranges::ranges;
pub use gains::objective;
pub use laws::slot_row_laws;
pub use rows::slot_row;
