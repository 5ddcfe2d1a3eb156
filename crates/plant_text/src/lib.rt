//! The plant text: from bytes to a plant, or to the first reason why they are none; and from a plant to its one
//! text.
//!
//! A plant text is JSON, read by `serde_json`. The walk over its value finds the parts of the plant, or
//! the first place that has not its form; the parts are a plant, or have a first fault. There are formats
//! 1, 2 and 3, which differ in what a vessel tells: its berth from format 2 on, its demurrage in format 3. A plant may
//! be told in many ways. Its one text has no blanks, the keys of each entry in one order and a line feed at the end,
//! and is of the first format that tells all of the plant.
//!
//! To the crates above this crate promises, unless memory runs out, that [`read_plant`] answers just what the
//! definition `plant_of` says of the bytes; that [`print_plant`] gives the plant's one text, which is read as that
//! plant; and that [`print_place`] gives the three words of a place. By [`plant_text_laws`] that text is read back
//! whatever text the plant was read from, and plants with one text are one plant.
//!
//! Begin with `read`, then `entries` (one reader for each section) and `entry` (what they are made of). `print` goes
//! the same way back, over `entry_writers`, `members` and `writing`. The definitions stand in `specs/`: which plant a
//! text is in `PlantText`, `Walk`, `Kinds`, `Names`; the one text of a plant in `Canonical`; what both are good for in
//! `Laws`.
#![tactic(auto)]

mod entries;
mod entry;
mod entry_writers;
mod fault;
mod kinds;
mod members;
mod names;
mod print;
mod read;
mod sections;
mod writing;

pub use fault::PlantTextFault;
pub use names::{key_name, section_name};
pub use print::{plant_text_laws, print_place, print_plant};
pub use read::read_plant;
