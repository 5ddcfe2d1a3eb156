//! Tests of the rows that have names, [`tank_rows`], [`slot_rows`] and [`named_rows`], and of those of cuts,
//! [`blend_cuts`].
//!
//! Each row and each value of rows was worked out apart from the program.
#![tactic(auto)]

#[cfg(test)]
mod tests;
