//! Multipliers of rows, from a linear program that is solved in fixed point.
//!
//! Of rows, ranges and an objective [`multipliers`] makes a guess that names each row by one number, each within its
//! limit, so that `bound`, `shows_empty` and `improve` of `dual_bound` may be called on it; so does [`multipliers_by`],
//! stage by stage and with few pivots. That is all that is promised: what the guess is worth is measured, and `bound`
//! values it exactly. Where the rows have no point at all, the guess is meant to show it.
//!
//! Within, a bounded dual simplex works on numbers of 128 bits, 40 of them after the point. It stops where no
//! row and no range is violated, where nothing can meet the violated one, after so many pivots, or where a number
//! would leave its bits; in each case the rows' prices at that moment serve.
//!
//! Begin with `solving`, the loop. `scale` makes a `Program` of what is given; `price` values the rows and columns
//! at a basis and says which row or column leaves, `ratio` which enters, and `pivot` changes the basis and the
//! inverse of its kernel (`inverse`); `rounding` makes guesses of prices over a few denominators (`denominators`) and
//! keeps the one of least bound. Every list and matrix is read and written by calls that answer 0 and change nothing
//! outside it.
#![tactic(auto)]

mod course;
mod denominators;
mod fixed;
mod inverse;
mod pivot;
mod price;
mod problem;
mod ratio;
mod rounding;
mod scale;
mod solving;

pub use course::Course;
pub use rounding::{multipliers, multipliers_by};
