//! Tests of the checker and of the values of leaves: [`leaf_value`] and [`dossier_check`].
//!
//! Each value and each verdict was worked out apart from the program.
#![tactic(auto)]

#[cfg(test)]
mod tests;
