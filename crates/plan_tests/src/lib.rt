//! Tests of plants and plans: [`plant_model`], [`replay_core`], [`greedy_plan`], [`plan_build`] and [`plant_maker`].
//!
//! What a plant or a plan must come to was worked out apart from the program.
#![tactic(auto)]

#[cfg(test)]
mod tests;
