//! Rows on what places hold and get, and on crudes: what every plan of a plant meets, as inequalities.
//!
//! Totals of tanks and vessels, amounts of crudes, limits on properties, demands, emptied vessels, minutes and charges
//! of units, and how long vessels wait. To the crates above this crate promises that [`tank_row`] gives exactly the row
//! of a name, and none exactly where the name is none of these families, of the plant and of so many slots; and that
//! each row holds for every form whose word breaks no rule ([`tank_row_laws`]).
//!
//! Begin with `specs/Names` and `specs/Families`, which stand beside the table of rows; `specs/TankRows` has both.
#![tactic(auto)]

mod families;
mod laws;
mod names;
mod rows;

pub use laws::tank_row_laws;
pub use rows::tank_row;
