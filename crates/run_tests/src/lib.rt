//! Tests of [`crude_run`]: runs of the program over files in memory.
//!
//! What each must answer was worked out apart from the program.
#![tactic(auto)]

#[cfg(test)]
mod tests;
