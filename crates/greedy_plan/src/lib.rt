//! The greedy plan of a list of operations.
//!
//! Each operation of the list in turn starts as early as it can behind those that run already, moves the greatest
//! volume that its source can spare, its destination has room for and its rates and window allow, in the least time
//! for that, and is left out where that breaks the order of vessels or a limit. To the crates above this crate promises
//! that [`greedy`] gives exactly that plan with its margin, where it is legal, and none just where it is not.
//!
//! Begin with `specs/Greedy`; `specs/Runs` says what a room is and what it takes. Then read `room`, where the greatest
//! volume and the least minutes are computed without trying volumes, `choice` and `growing`.
#![tactic(auto)]

mod choice;
mod growing;
mod room;

pub use growing::greedy;
