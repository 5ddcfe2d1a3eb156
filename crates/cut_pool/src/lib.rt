//! The pool of cuts that the workers of a search share.
//!
//! A cut that is pushed stays at its place. Whoever pushes it gets a token, and so may anyone who visits the place.
//!
//! To the crates above this crate promises that a token's cut is the one that was pushed at its place, for good, and
//! that two tokens of one place stand for one cut. A visit that finds no token says nothing.
//!
//! Begin with `pool`, after `specs/Tokens.antt`.
#![tactic(auto)]

mod pool;

pub use pool::{CutPool, CutToken, CutTokens};
