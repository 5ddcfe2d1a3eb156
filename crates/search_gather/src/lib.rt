//! The search tree of all workers' notes.
//!
//! Each worker notes the nodes that it examined, in its own order, with the tickets that it drew. The notes of all
//! workers together are those of one whole search tree. Here they become that tree: its nodes in the order of their
//! numbers, each behind its parent. Inner nodes get new tickets for that, from 0 on: it is always the turn of the
//! least old ticket whose node has a place by then, so where each old ticket stands above its parent's nothing changes.
//! Leaves stay as they are; only their entries that name cuts get the cuts' new numbers, in the lists of all workers
//! laid end to end.
//!
//! To the crates above this crate promises, by [`gather`], that the tree is one of nodes in their order, with tickets
//! and parents, and that its nodes with their boxes are those of the notes: whatever holds of each note on its box
//! holds of each node on its box.
//!
//! Begin with `specs/Gathered` and `specs/Numbered`, then `tree`. `joining` lays lists end to end, `choosing` says
//! whose turn it is, `placing` puts each node into its place.
#![tactic(auto)]

mod choosing;
mod joining;
mod placing;
mod tree;

pub use tree::{CutLists, Tree, gather};
