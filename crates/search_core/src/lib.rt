//! A search by several workers, as a machine without threads.
//!
//! A worker takes a node into its hand, from its kept list, its own deck or the deck of another. For a ticket, of which
//! there are as many as the budget, it divides the node: the left part stays in its hand, the right part waits on its
//! deck or its kept list. Without one it closes the node. Each is noted. Workers offer margins, and see the best.
//!
//! To the crates above this crate promises, of every order of events: each ticket is given once and each node is
//! noted once or still waits once; the best is the greatest margin that was offered; and when nothing waits any more,
//! the notes are those of one whole search tree. [`core_laws`] says so of all runs, and [`CoreState`] is the machine
//! that runs them: an event is refused exactly where its condition fails, and a refusal changes nothing.
//!
//! Begin with `specs/Events.antt`, which has the events, then `specs/Good.antt` and `specs/Laws.antt`.
#![tactic(auto)]

mod event;
mod laws;
mod machine;
mod note;
mod queue;
mod state;
mod worker;

pub use event::{CoreFault, Event};
pub use laws::core_laws;
pub use note::CoreNote;
pub use state::CoreState;
