//! Rows over the columns of slot forms: whole-number inequalities, the ranges of their columns, and
//! objectives.
//!
//! Each slot of a form has columns for every operation that may fill it, and one for idle; and each vessel
//! has one, for how long it waits. A [`Row`] says that a sum of columns, each taken with a factor, is at most
//! its right side; [`Ranges`] says from which least to which greatest number each column goes; an
//! [`Objective`] is a sum to be made great. To the crates above this crate promises that a row is its terms and
//! its right side and has no column twice, that ranges give each column the two numbers last set, and that the
//! columns are numbered: each has its own place below their count, and each place its column.
//!
//! Begin with `column` and `specs/Columns`, then `row` and `ranges`. What a point of whole numbers is, and
//! when it meets rows and ranges, is defined in `specs/Points`. `specs/Listed` lists the columns slot by slot.
#![tactic(auto)]

mod column;
mod laws;
mod ranges;
mod row;

pub use column::{Column, IDLE_ENTRY, Part};
pub use laws::column_laws;
pub use ranges::{Interval, Ranges};
pub use row::{Objective, Row, RowList, RowTerm, RowTerms};
