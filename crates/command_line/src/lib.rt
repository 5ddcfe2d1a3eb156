//! The words of a command line, and the command that they say.
//!
//! A plain line is a verb, its files or its number, and then its options, each with its number, in any order and each
//! once. To the crates above this crate promises that [`read_words`] reads a plain line in range as the command whose
//! line it is, and refuses every other line. By [`line_laws`] a line has one command.
//!
//! Begin with `specs/PlainLine.antt`: `IsPlainLine` says which words are the line of which command. `command` has the
//! commands, `form` tests the words, `taking` takes the values out of a line that has a form, and `reading` is the two
//! together. What only those keep is in `specs/inside`.
#![tactic(auto)]

mod command;
mod form;
mod reading;
mod taking;

pub use command::{Ask, Command, FileName, WordFault};
pub use reading::{line_laws, read_words};

/// The longest word that names a file, in bytes.
pub const LONGEST_FILE_WORD: usize = 255;

/// The greatest number of a line: that of a plant that is made.
pub const MOST_NUMBER: u32 = 4_294_967_295;
