//! The decks of several workers: dealt out before they begin, accounted for when they have ended.
//!
//! Each worker owns a deck. It has a pass for each other deck's door, in the order of the doors; each deck numbers its
//! passes in the order of the workers.
//!
//! To the crates above this crate promises that the decks are dealt out so ([`deal_all`]), and, when the workers have
//! given back what they had, that each task which was pushed to a deck was popped, was stolen or is left, once
//! ([`account_all`]).
//!
//! Begin with `specs/Dealing.antt`.
#![tactic(auto)]

mod accounting;
mod dealing;
mod rows;

pub use accounting::account_all;
pub use dealing::{Dealt, deal_all};
pub use rows::Rows;
