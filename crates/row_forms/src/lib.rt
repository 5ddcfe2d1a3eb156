//! Rows of slot forms as sums of pieces.
//!
//! A row says that a sum over many columns is at most a number. Hardly any row is a matter of single columns, though:
//! it takes the volumes of all operations from a tank, over the slots up to one, or the ends of a few operations in one
//! slot. A [`Piece`] says just that - a factor, some slots, some entries, one number of each - and an [`Inequality`] of
//! a few pieces says a row. To the crates above this crate promises that [`build_row`] gives the row of the pieces, in
//! which factors that meet in a column are added, no column stands twice and none has the factor 0; and that at the
//! numbers of a form whose word runs the row comes to what its pieces come to, one by one ([`row_form_laws`]). Rows of
//! few small pieces ([`fit_row`]) can be weighed against each other without a sum that leaves its width.
//!
//! Begin with `piece`, then `specs/Pieces` and `specs/Numbers`; `specs/Laws` has what rows are reasoned with.
#![tactic(auto)]

mod factors;
mod laws;
mod piece;
mod rows;
mod terms;

pub use laws::row_form_laws;
pub use piece::{Figure, Inequality, Piece, Which};
pub use rows::{build_row, fit_row};
pub use terms::build_terms;
