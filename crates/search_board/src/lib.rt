//! The board of a search: tickets, the best margin, and hints, for any number of threads.
//!
//! A board gives each ticket below its budget once, and keeps the best margin that was offered. A worker uses it
//! through a seat, which knows what it drew, offered and saw. Seats are made from seats, 32 in all at most, and joined
//! into seats; the last one closes the board.
//!
//! To the crates above this crate promises, in every schedule: the tickets of the seats that are joined are the numbers
//! from 0 on, each once; whoever is told that no ticket is left is told so rightly, and again the same; a look is at
//! least what the seat has seen and offered; and at the end the best is the greatest offer, no seat has seen more, and
//! the tickets are the whole budget where some seat was told that none is left. No call waits. Of the hints nothing is
//! promised.
//!
//! Begin with `board`, after `specs/Seats.antt`. `specs/inside` has the rule that holds between any two steps, of which
//! all this follows.
#![tactic(auto)]

mod board;
mod known;
mod margin;
mod rule;
mod seat;

pub use board::{Board, Closed, Spent};
pub use seat::Seat;
