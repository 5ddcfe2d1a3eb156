//! Tests of the texts: [`line_text`], [`plant_text`], [`plan_text`], [`dossier_text`] and [`command_line`].
//!
//! Each text and what must be read in it, each value and what must be written, was worked out apart from the program.
#![tactic(auto)]

#[cfg(test)]
mod tests;
