//! Decimals, names, words and lines as bytes: one definition of each, with its reader and its printer.
//!
//! Plans and dossiers are lines of words with single blanks between them. A word is a fixed one, a name, a
//! decimal with or without a sign, or made of decimals with marks between them. Plants share the names, and
//! the command line the decimals. To the crates above this crate promises that a reader finds a number
//! exactly where it is in range and the bytes are its decimal, that [`Lines`] goes over the lines of a text
//! one by one, and knows their numbers, and [`Words`] over the words of a line, and that a printer adds just
//! the text of its value at the end, or nothing where memory runs out. By [`decimal_laws`] numbers of one
//! decimal are one number.
//!
//! Begin with `decimal` after `specs/Decimal`, and `name` after `specs/Name`. What a line and its words are
//! is in `specs/Words` and `specs/Lines`, and what is read of them, word by word or within a word, in
//! `specs/Reading`; `lines` and `words` do that reading, and `printing` has the writers. What only loops and
//! helpers need is in `specs/inside`.
#![tactic(auto)]

mod decimal;
mod lines;
mod name;
mod printing;
mod words;

pub use decimal::{decimal_laws, read_decimal, read_signed};
pub use lines::Lines;
pub use name::is_name;
pub use printing::{
    keep_whole, push_count, push_decimal, push_marked, push_number, push_signed,
    push_signed_number, push_text, push_word,
};
pub use words::{Words, read_before, split_at_mark};
