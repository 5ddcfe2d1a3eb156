//! Rows by name, of whichever family, and what they and the rows of cuts say of the forms in a box.
//!
//! To the crates above, the checker of dossiers and the search, this crate promises that [`named_row`] gives exactly the
//! row of a name, and none exactly where the name is of no family, or none of the plant and of so many slots; and by
//! [`named_row_laws`] that no form in a box has a margin above the dual value of rows that are lawful, by a name or as
//! those of valid cuts, whatever their multipliers, and that a box whose emptiness sum is below 0 has no form.
//!
//! Begin with `specs/NamedRows` and `specs/Laws`.
#![tactic(auto)]

mod laws;
mod rows;

pub use laws::named_row_laws;
pub use rows::named_row;
