//! The text of dossiers: a claim on a plant, and the search tree that shows it.
//!
//! A dossier has one text: lines of its sizes, its claim and its plan, and then of its cuts and of the nodes
//! of its tree. To the crates above this crate promises, unless memory runs out, that [`write_dossier`]
//! gives that text, and that [`read_dossier`] reads the text of a dossier in range as that dossier, and any
//! other bytes as the first fault that is met, line by line. Whether a dossier is true of its plant is asked
//! above.
//!
//! Begin with `dossier`, `specs/Text` (the text) and `specs/Ranges` (which dossiers are in range). Then read
//! `reading`, with `specs/Reading` and `specs/Faults` (how the first fault ends it): it goes from the lines
//! of `head_lines` to those of `op_lines`, `cut_lines` and `node_lines`, which `list_lines` reads by one loop,
//! as `list_words` does the words of a line. The steps of that reading are in `specs/inside`. `writing` goes
//! the same way, with `nodes` and `entries`.
#![tactic(auto)]

mod cut_lines;
mod dossier;
mod entries;
mod fault;
mod head_lines;
mod list_lines;
mod list_words;
mod node_lines;
mod nodes;
mod op_lines;
mod reading;
mod steps;
mod term_words;
mod writing;

pub use dossier::{CutLine, CutLines, Dossier, Word3};
pub use fault::DossierFault;
pub use reading::read_dossier;
pub use writing::{write_claim, write_dossier};
