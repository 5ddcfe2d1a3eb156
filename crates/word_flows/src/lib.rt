//! What goes into places and out of them while a word runs.
//!
//! A word is a run where each of its operations keeps every rule, but perhaps that on the order, once those in front of
//! it have run; one that breaks no rule is a run and ends well. To the crates above, which speak of the operations of a
//! word slot by slot, this crate promises what that comes to in sums and bounds ([`flow_laws`]): what each place holds
//! after so many operations is what it held at first, plus what came in, less what went out, in all and crude by crude;
//! no place passes its levels; each operation keeps its ranges, and two that may not run at one moment wait; at the end
//! vessels are empty, demands met and units charged.
//!
//! It has no code but the call that brings these laws. Begin with `specs/Runs` and `specs/Flows`. Of the proofs,
//! `FlowLaws` has one operation and then the whole run.
#![tactic(auto)]

mod laws;

pub use laws::flow_laws;
