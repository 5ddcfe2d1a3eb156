//! The normal order of a word.
//!
//! Words that differ by swaps of independent neighbours mean the same, so a search needs one of them. To the crates
//! above this crate promises that [`normalise`] gives, of all words that are equivalent to one, that whose operation
//! numbers come first; that it is normal, which the automaton of normal words accepts; and that it means what the word
//! meant. [`normal_order_laws`] has the same without a call: each word has a normal form, and a normal word is the
//! first of its kind.
//!
//! Begin with `specs/NormalWords`. Of the proofs, `SeatLaws` shows that an operation that takes its seat leaves a
//! normal word normal, `LeastLaws` that a normal word comes first.
#![tactic(auto)]

mod laws;
mod normal;

pub use laws::normal_order_laws;
pub use normal::normalise;
