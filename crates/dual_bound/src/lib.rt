//! Weak duality in whole numbers: what rows and ranges alone say of an objective.
//!
//! A [`Guess`] gives each row a multiplier and all of them one denominator. Its dual value is a bound that
//! needs no search and no trust: [`bound`] computes it, and promises that no point of whole numbers that
//! meets the rows and lies in the ranges has a greater objective, and that narrower ranges have no greater
//! bound. [`shows_empty`] answers whether the same sum without an objective is below 0, and then there is
//! no such point at all. [`improve`] looks for multipliers of lesser bound: what it gives is no worse than what
//! it was given, than no multipliers, and, with a round, than each row on its own by a power of two. No sum
//! leaves 128 bits, and but for `improve` no call takes memory. [`is_system`], [`is_objective`] and [`is_guess`] test
//! what the calls ask, for those who do not know it of their rows.
//!
//! Begin with `specs/Dual`, then `specs/Conditions`. The weights of columns are made in `weigh`, for a block of
//! columns at a time, what they earn in `earned`, and the sums of both in `sums`; `trial`, `singles` and
//! `descent` are the steps of `improve`. They all work on a `System`, the rows, ranges and objective of a call.
#![tactic(auto)]

mod checks;
mod descent;
mod duality;
mod earned;
mod guess;
mod improving;
mod laws;
mod signed;
mod singles;
mod sums;
mod system;
mod trial;
mod weigh;

pub use checks::{is_guess, is_objective, is_system};
pub use duality::{bound, shows_empty};
pub use guess::{Guess, YList};
pub use improving::improve;
pub use laws::dual_laws;
