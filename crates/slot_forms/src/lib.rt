//! Cases, and the slot forms that their plans have.
//!
//! A case is what a search and a dossier are about: a plant, how many operations its plans may have, and what has
//! begun already. Its plans are sought among the points of its root box: a point that is a slot form is read as a
//! word, operation by operation in the order of slots, and a word that breaks no rule is a plan once it is sorted by
//! starts. Of the words of a plan the search keeps to the normal one.
//!
//! To the crates above this crate promises that the root box of a plain case is what [`root_box`] gives, that each
//! plan of a case has a form there that is sought ([`form_laws`]), that [`point_value`] gives the value of a box's one
//! point and the plan of that very point, and that what is claimed of the plain case is what is claimed of the plant and
//! its plans of at most so many operations.
//!
//! Begin with `specs/Cases` and `specs/Forms`, then `point`.
#![tactic(auto)]

mod laws;
mod point;
mod root;

pub use laws::form_laws;
pub use point::point_value;
pub use root::root_box;
