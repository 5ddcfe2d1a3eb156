//! Tests of what the workers of a search share: [`search_core`], [`search_board`], [`cut_pool`] and [`task_deck`].
//!
//! Each value, verdict and note was worked out apart from the program.
#![tactic(auto)]

#[cfg(test)]
mod tests;
