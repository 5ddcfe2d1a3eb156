//! The search for a plan that earns much: a local search by chance, of which nothing has to be trusted.
//!
//! It changes lists of wishes, each an operation and a volume. A list is decoded into operations at their times, each as
//! early as it can run behind those before it, and scored by its margin, less a penalty for what keeps it from being
//! legal; a change is kept where the score is no less. Four runs begin in turn with a hint and with all operations, and a
//! last one with the best list of these. To the crates above this crate promises that [`find_plan`] ends, that it is
//! safe, and that its plan is as short as is asked for. That the plan is legal it does not promise: who wants to know
//! replays it. It draws its numbers by chance from a seed that the hint gives, so that it can be run again.
//!
//! Begin with `search`, then `moves`, the ways to change a list. `decoding` makes operations of it, over `stores` (what
//! places hold), `clocks` (when an operation may start) and `timing` (units that are charged without a gap); `repair`
//! mends charges that break a limit. `facts` has what is read of a plant, once.
#![tactic(auto)]

mod clocks;
mod decoded;
mod decoding;
mod facts;
mod moves;
mod numbers;
mod random;
mod repair;
mod search;
mod stores;
mod timing;

pub use search::find_plan;
