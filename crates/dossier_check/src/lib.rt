//! Whether a dossier is accepted, and what follows from it.
//!
//! A dossier gives an answer and a search tree that shows it. It is accepted where its tree divides the
//! root box of its plant lawfully, its bound is the greatest value of a leaf, and a plan that it gives
//! is legal and earns what it says.
//!
//! To the crates above this crate promises that [`check`] says yes exactly where bytes are the text of an
//! accepted dossier, with what it gives, and otherwise no, with the first reason and its line; and that what a
//! yes says of its plant is true, in the words of legal plans and their margins alone, whoever wrote the
//! bytes. [`accepted_claim_laws`] says the same of each accepted dossier. The reasons are a definition of their
//! own, which lists all that stands against a dossier in the order of the tests; [`reason_laws`] says that
//! nothing does exactly where it is accepted.
//!
//! Begin with `specs/Accepted`, from there go to `specs/Frames`, which has the case and the cuts that a dossier is
//! about, and to `specs/Claims`; then, for the first reason, with `specs/Reasons` and `specs/NodeReasons`, and for
//! the answer with `specs/Verdicts`. In the code `checking` goes through the tests in their order, and `tree`
//! meets each node once: `met` keeps the boxes of the nodes whose parents were met, `entries` makes the rows that the
//! entries of a leaf name, once for their test and for the value, `cuts` those of cuts. `specs/inside` only carries
//! proofs.
#![tactic(auto)]

mod checking;
mod cuts;
mod entries;
mod laws;
mod leaves;
mod met;
mod plan;
mod reasons;
mod tree;
mod verdict;

pub use checking::check;
pub use laws::{accepted_claim_laws, reason_laws};
pub use verdict::{Claim, Verdict};
