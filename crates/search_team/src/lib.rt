//! Several workers that search together, each in a thread.
//!
//! Each worker has a seat at the board, a deck and a pass for each other deck. The first has the root's task. When all
//! have ended, what is left on their decks is worked off by one more, alone; then their seats are joined.
//!
//! To the crates above this crate promises, by [`search_together`], in every schedule: the notes of all workers are those
//! of one whole search tree, and of each worker's notes all that is so which a worker owes (`specs/Teamwork`).
//! [`search_alone`] promises the same of one worker that waits for nobody, and tells in which order it worked.
//!
//! Begin with `specs/Teamwork.antt`, then `together`. `benches` has where the workers
//! sit, `apart` what they give back, `added` the one that works off what is left.
#![tactic(auto)]

mod added;
mod alone;
mod apart;
mod benches;
mod team;
mod together;

pub use alone::search_alone;
pub use team::{Scene, Together};
pub use together::search_together;
