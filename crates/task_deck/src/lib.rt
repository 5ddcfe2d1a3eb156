//! The deck of a worker: tasks that wait for it, or for whoever comes first.
//!
//! The owner of a deck pushes tasks at its end and pops them at its head; any number of thieves steal at its head, each
//! with a pass that the owner made. In the end the owner, the door and all passes are accounted for.
//!
//! To the crates above this crate promises, in every schedule: each task that was pushed was popped, was stolen or is
//! left, once, and what the owner popped, what each pass stole and what is left stand each in the order of pushing
//! ([`account`]). As long as there is no pass, a pop gives the first task that was pushed and not yet popped. That a
//! deck was empty where a thief found it so is the word of the crate below; no clause can say it. No call waits.
//!
//! Begin with `owner`, after `specs/Decks.antt` and `specs/Accounts.antt`. `specs/inside` has the rule that holds
//! between any two steps, of which all this follows.
#![tactic(auto)]

mod accounts;
mod door;
mod ends;
mod hand;
mod owner;

pub use accounts::{account, account_laws};
pub use ends::{Account, Door, DoorPass, DoorPasses, Doors, Owner, Stolen};
pub use owner::deck;
