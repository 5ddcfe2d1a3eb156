//! Laws of numbers on which the drawing, the rows, the dual values and the margins stand alike.
//!
//! The definitions and their laws are in `specs/` and `proofs/`; there is almost no code. A law is
//! proved where a function's contract names it, so each of the small functions here stands for one.
//! Begin with `positive`. Signed products and sums, with their bounds, have their laws in `proofs/ProductLaws` and
//! `proofs/SignedSumLaws`; sums of natural numbers below a limit in `proofs/SumLaws`, with a number that counts only
//! where a test holds (`specs/Sums`). `specs/Missing` has numbers that may be missing, in their order, `specs/Passing`
//! the greatest and the least number up to a limit that passes a test, and `proofs/BitLaws` sets of numbers as the bits
//! of one.
#![tactic(auto)]

mod floors;
mod positive;

pub use floors::floor_laws;
pub use positive::{positive_part, positive_part_laws};
