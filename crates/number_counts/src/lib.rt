//! How often a number stands in a list.
//!
//! Tickets are drawn each once, and nodes of a search tree have each its own number: both are said of lists
//! of numbers, in any order, by how often each number stands there. To the crates above this crate promises
//! only these words and their laws; it has no code that runs. `proofs/Members` has laws of the members of any list.
//!
//! Begin with `specs/Counts.antt`.
#![tactic(auto)]

ghost use Rattle.number_counts.specs.Counts.{CountsAdd, NoneAreBelow, NextIsAdded};

/// The laws of counts, for whoever reasons about them: a call does nothing and brings them.
pub fn count_laws()
    ensures sums { CountsAdd }
    ensures none { NoneAreBelow }
    ensures next { NextIsAdded }
{}
