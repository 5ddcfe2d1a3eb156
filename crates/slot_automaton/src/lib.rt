//! The automaton of normal words.
//!
//! Two neighbours of a word that are independent may be swapped, and mean the same. Of all words that
//! mean the same the search wants one, so it keeps to the normal words, in which no operation comes
//! late that could have come before a greater one. That is said of the parts of a word alone; the
//! automaton keeps a set of blocked operations instead, and a step is a few machine instructions.
//!
//! To the crates above: [`Automaton::first_refused`] answers nothing exactly for the normal words, and
//! else the length of the shortest prefix that is not normal; [`Automaton::step`] refuses exactly the
//! blocked operations; and [`normal_word_laws`] ties the blocked operations to the parts of the word
//! that was read. A state is a mask of operations. All hold for any masks of independence.
//!
//! Begin with `specs/Normal.antt`.
#![tactic(auto)]

mod automaton;
mod laws;
mod mask;

pub use automaton::Automaton;
pub use laws::normal_word_laws;
