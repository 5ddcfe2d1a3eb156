//! Tests of one worker, and of the tree that its notes make: [`branch_worker`] and [`search_gather`].
//!
//! Each margin and bound was worked out apart from the program.
#![tactic(auto)]

#[cfg(test)]
mod tests;
