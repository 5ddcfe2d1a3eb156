//! A worker of the search: it takes tasks, examines their boxes, divides them and notes what became of each node.
//!
//! A worker takes a task into its hand. It looks at the best margin of the board, examines the box, and closes it, or
//! draws a ticket and divides it: with the left part it goes on, the right part it keeps. Where no ticket is left the
//! box is left open. Each plan on the way is offered to the board. A worker among others pushes right parts to its deck,
//! where whoever comes first takes them, and looks for tasks behind the others' doors when it has none.
//!
//! To the crates above this crate promises, by [`work_alone`] and [`work`], what `specs/Work` says: its notes are chains
//! of all tasks that came to it and that it kept, with its tickets; each note is true of its box; values fall along a
//! chain, and what was seen rises; leaves are closed by plans that the seat has offered or seen, or left open where the
//! tickets were spent.
//!
//! Begin with `specs/NoteBoxes`, `specs/NoteOrder` and `specs/Work`, then `alone` and `among`; `events` has what both do
//! with a task, `finding` where the next one comes from.
#![tactic(auto)]

mod alone;
mod among;
mod events;
mod finding;
mod queue;
mod site;
mod testing;
mod worker;

pub use alone::work_alone;
pub use among::work;
pub use site::{Alone, AloneDone, Done, Me, Site};
