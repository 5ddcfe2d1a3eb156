//! What lies outside the planner: where files are read, where text is written, and what may hold a
//! worker back.
//!
//! The planner is generic over a [`Shelf`], a [`Sink`] and a [`Gate`], and knows the outside by their
//! clauses alone. What a file holds, and what was written, is claimed only where the shelf or the
//! sink tells it. A fault of the outside shows in a count: each named fault comes only where the
//! count of the very object that was handed in rose in that call, for that name and that limit, and
//! no count ever falls. Nor is a fault hidden: a call that answers otherwise leaves the counts of that
//! fault as they were, so that nobody can fail, try again and say nothing of it. Want of memory alone
//! shows nowhere.
//!
//! [`MemoryShelf`] and [`MemorySink`] tell all, their calls fail by a list, and their contracts are
//! exact. [`DirShelf`], [`OutSink`] and [`FreeGate`] are the trusted edge to the system: they keep
//! their counts and tell no content, and the loops under them are proved for any reader and writer
//! whose bytes are known.
//!
//! Begin with `shelf` and `sink`, and `specs/Rose.antt` beside them.
#![tactic(auto)]

mod call_list;
mod dir_shelf;
mod file_list;
mod gate;
mod memory_shelf;
mod memory_sink;
mod out_sink;
mod read_rest;
mod shelf;
mod sink;
mod write_some;

pub use call_list::CallList;
pub use dir_shelf::DirShelf;
pub use file_list::FileList;
pub use gate::{FreeGate, Gate};
pub use memory_shelf::MemoryShelf;
pub use memory_sink::MemorySink;
pub use out_sink::OutSink;
pub use shelf::{Shelf, ShelfFault};
pub use sink::{Sink, SinkFailed, write_all};
