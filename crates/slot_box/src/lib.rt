//! Boxes of slot forms, their splits, and the search tree that they make.
//!
//! A box says for each of its slots which operations may fill it, whether it may stay idle, and in which
//! intervals volume, start and end lie. Whoever fills each slot by one entry that its slot allows has a
//! point of the box. In a clause a box is the list of its slots.
//!
//! To the crates above this crate promises that a box always has a point, that `points` is how many it
//! has, and that a split, where it is lawful, gives each point of the box to exactly one of two boxes,
//! neither of them empty. So the leaves of a search tree have all points of its root between them, and a
//! lawful tree has no more leaves than its box has points. [`box_laws`], [`split_laws`], [`tree_laws`] and
//! [`node_list_laws`] say so of the definitions alone.
//!
//! Begin with `boxes`, after `specs/Slots`, `specs/Entries` and `specs/Boxes`; `split` and `specs/Splits` have the two
//! parts, and `specs/Even` says which splits are even. `node` and `specs/Trees` have the search tree and which box each
//! of its nodes has, `specs/Nodes` which lists of nodes are such trees, and `specs/Ranges` which of them a text can
//! hold; `term` has the entries of leaves, `cut` the quality cuts that such entries name, and `task` what one worker
//! hands to another.
#![tactic(auto)]

mod boxes;
mod crossing;
mod cut;
mod laws;
mod node;
mod slot;
mod split;
mod task;
mod term;

pub use boxes::SlotBox;
pub use cut::{CutList, CutParams, NamedCut, NamedCuts};
pub use laws::{box_laws, node_list_laws, split_laws, tree_laws};
pub use node::{Leaf, Node, NodeList};
pub use slot::{IDLE, Slot, Span};
pub use split::{Split, SplitFault, SplitKind};
pub use task::{Task, Tasks};
pub use term::{RowName, Term, Terms};
