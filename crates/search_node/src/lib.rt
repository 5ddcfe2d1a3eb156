//! One node of the search: how its box is closed, or how it may be divided.
//!
//! A box is dead where the operations to which its first slots are fixed begin no form that is sought; a box of one
//! point is worth what its plan earns, if that is legal; any other box is worth what entries, multipliers of rows, say
//! of it: they show it empty, or bound what its forms earn. Entries are looked for by plain guesses and by the simplex,
//! and begin with those of the parent. To the crates above this crate promises, by [`examine`] and [`examine_by`], all
//! that `specs/Looks` says: leaves that are lawful and have the value that is told, values no greater than the warm
//! value and that of each plain guess, boxes that are closed only where nothing in them beats what was seen, lawful and
//! even splits, and legal plans. [`value_laws`] says of the definitions alone what values over boxes have to do with
//! each other.
//!
//! Begin with `specs/Looks` and `specs/Values`, then `examining`. `table` keeps rows by name; `warm`, `plain` and
//! `simplex` find entries, `guesses` keeps the better ones; `splits` says how a box is divided, `building` looks for a
//! plan. Each of these modules says first what is free in it and what is owed.
#![tactic(auto)]

mod block;
mod blocked;
mod building;
mod examining;
mod guesses;
mod halves;
mod laws;
mod looked;
mod names;
mod plain;
mod rows_taken;
mod simplex;
mod splits;
mod table;
mod together;
mod warm;
mod weighing;

pub use block::RowBlock;
pub use examining::{examine, examine_by};
pub use laws::value_laws;
pub use looked::{Examined, Looked, NodeNote, NoteLists, Notes};
pub use table::RowTable;
