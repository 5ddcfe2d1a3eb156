//! Which value a leaf of the search tree has, when a leaf is lawful, and what the bound of a tree says.
//!
//! Search and checker share these definitions, which stand above boxes, slot forms and rows and below both. All that
//! the value of a leaf depends on besides its box is a setting: the case, and the cuts that entries may name. A leaf with
//! entries has the dual value of the rows that they name over the ranges of its box, a box of one point the margin of
//! its word, where that breaks no rule; a dead leaf and a void one are shown to have no form that is sought.
//!
//! To the crates above this crate promises the dual value of rows over a box, whether rows contradict each other there,
//! whether a box is blocked and the greater of two values exactly, and by [`leaf_laws`], of the definitions alone, that
//! the value of a lawful leaf is no less than the margin of each form in its box that is sought, and that the bound of a
//! lawful tree is true of its case.
//!
//! Begin with `specs/Settings`, `specs/Blocked` and `specs/LeafValue`; `specs/TreeValue` has trees and their bounds,
//! `specs/Budget` what a tree owes to the number of nodes that may be divided. [`Scales`] are what leaves are weighed
//! with.
#![tactic(auto)]

mod blocked;
mod laws;
mod scales;
mod values;

pub use blocked::is_blocked;
pub use laws::leaf_laws;
pub use scales::{Scales, contradicts, dual_value};
pub use values::{greater, greater_wide};
