//! Tests of linear forms and their bounds: [`linear_form`], [`dual_bound`], [`fixed_simplex`] and [`row_forms`].
//!
//! Each bound and each row was worked out apart from the program.
#![tactic(auto)]

#[cfg(test)]
mod tests;
