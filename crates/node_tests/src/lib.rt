//! Tests of the examination of one box: [`search_node`].
//!
//! Each value, place and plan was worked out apart from the program.
#![tactic(auto)]

#[cfg(test)]
mod tests;
