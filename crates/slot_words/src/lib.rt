//! Words: operations in the order of slots, in which only those keep an order that need one.
//!
//! A plan lists its operations by their starts. A word may list two operations that have nothing to do with each other
//! either way round, so that a search over slots need not guess the clock. To the crates above this crate promises the
//! exchange argument, which says why nothing is lost by that: every legal plan is a word that breaks no rule; swaps of
//! independent neighbours keep every rule, what each place holds in the end, and the margin ([`word_laws`], [`swap`]);
//! and a word that breaks no rule is a legal plan of the same margin once it is sorted by starts ([`by_start`]).
//!
//! Begin with `specs/Swaps` and `specs/Laws`, then `words`. Of the proofs, `MoveLaws` has two operations that commute
//! on what places hold, `PairLaws` each rule on two operations that change places, `SwapLaws` the swap within a word.
#![tactic(auto)]

mod laws;
mod words;

pub use laws::word_laws;
pub use replay_core::Word;
pub use words::{by_start, slot_replay, swap};
