//! Chains of notes, and notes of a whole search tree, on plain lists.
//!
//! Whoever searches takes a task, which is a node with its box, and follows it down: it divides the node under a
//! ticket, goes on with the left part and hands the right part on, until it closes a leaf. The notes that it writes on
//! the way are the chain of the task. Who takes which task, in which order and in which thread, stands nowhere here.
//!
//! To the crates above this crate promises the settled law: notes that are the chains of the root's task and of all
//! that was handed on, each once, with tickets from 0 on, each once, are the notes of one whole search tree, and each
//! has the box that the splits from the root give it. [`settled_law`] says so of boxes of slots, [`shares_law`] of the
//! notes of several workers, whoever of them took which task, and [`chain_laws`] how chains grow while a worker writes
//! them. It has no code that runs.
//!
//! Begin with `specs/Chains.antt`, then `ChainsSettle` in `specs/Laws.antt`; its proof is `proofs/SettledLaw.antt`, by
//! counting numbers of nodes and by going up from each note to the root, through boxes with more and more points.
#![tactic(auto)]

ghost use Rattle.work_chains.specs.Laws.{ChainsTake, ChainsClose, ChainsDivide, ChainsSettle};
ghost use Rattle.work_chains.specs.Shares.{SharesSettle};

/// How chains grow at their end: a call does nothing and brings the laws.
pub fn chain_laws()
    ensures takes { ChainsTake }
    ensures closes { ChainsClose }
    ensures divides { ChainsDivide }
{}

/// When notes are those of a whole search tree: a call does nothing and brings the law.
pub fn settled_law()
    ensures { ChainsSettle }
{}

/// When the notes of several workers are: a call does nothing and brings the law.
pub fn shares_law()
    ensures { SharesSettle }
{}
