//! Plans that are built from a hint.
//!
//! The greedy plan of the hint is one; `plan_search` looks for a better one, and nothing of what it does is trusted: its
//! plan is replayed, and is answered only where the replay finds it legal and it earns more than the greedy plan. To the
//! crates above this crate promises that [`build`] and [`build_within`] answer a legal plan of at most so many
//! operations with just its margin, no less than that of the greedy plan where that is legal, and none only where it is
//! not.
//!
//! Begin with `specs/Built`, then `building`; [`better`] chooses between two plans.
#![tactic(auto)]

mod building;
mod choosing;
mod hint;

pub use building::{build, build_within};
pub use choosing::better;
pub use hint::{Hint, OpList};
