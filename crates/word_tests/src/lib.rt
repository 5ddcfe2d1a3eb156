//! Tests of words, the plans by slots: [`slot_automaton`], [`overlap_graph`], [`slot_words`], [`word_flows`],
//! [`normal_order`] and [`slot_forms`].
//!
//! What a word must come to was worked out apart from the program.
#![tactic(auto)]

#[cfg(test)]
mod tests;
