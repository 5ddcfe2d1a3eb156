//! What a list of wishes comes to.

use crate::facts::Facts;
use crude_amounts::Amounts;
use limits::MOST_VOLUME;
use std::alloc::{AllocError, Global};

/// As much as can be moved.
pub(crate) const ALL: u32 = MOST_VOLUME;

/// An operation that is wished for.
#[derive(Clone, Copy)]
pub(crate) struct Item {
    /// The operation's number in the plant.
    pub op: u8,
    /// In volume units.
    pub wanted: u32,
}

/// An operation that runs.
#[derive(Clone, Copy)]
pub(crate) struct Run {
    pub item: Item,
    /// In volume units.
    pub volume: u32,
    /// In minutes.
    pub start: u32,
    /// In minutes.
    pub end: u32,
    /// The least minutes in which the volume can be moved.
    pub least: u32,
    /// The most minutes.
    pub most: u32,
    /// What the source held before.
    pub source: Amounts,
    /// How far a charge is from its limits, in volume units.
    pub excess: u64,
}

/// The operations of a list that can run, each where it can.
#[derive(Drop)]
pub(crate) struct Decoded {
    pub runs: Vec<Run>,
    /// What is left in each vessel, and short of the demand of each charging tank, in volume units.
    pub lacking: Vec<u64>,
    /// How far the operations are from a legal plan, in volume units; 0 where they are thought to be one.
    pub violation: u64,
    /// The margin, less a penalty for the violation.
    pub score: i128,
}

impl Decoded {
    /// Worse than any list.
    pub(crate) fn worst(alloc: Global, facts: &Facts) -> Result<Decoded, AllocError> {
        Ok(Decoded {
            runs: Vec::new(alloc),
            lacking: vec![in alloc; 0; facts.places.len()]?,
            violation: u64::MAX,
            score: i128::MIN,
        })
    }

    pub(crate) fn is_legal(&self) -> bool {
        self.violation == 0
    }

    /// Legal where the other is not, or else of a greater score.
    pub(crate) fn is_better_than(&self, other: &Decoded) -> bool {
        if self.is_legal() == other.is_legal() {
            self.score > other.score
        } else {
            self.is_legal()
        }
    }

    pub(crate) fn copy_from(&mut self, other: &Decoded) -> Result<(), AllocError> {
        self.runs.clear();
        self.runs.extend_from_slice(other.runs.as_slice())?;
        self.lacking.clear();
        self.lacking.extend_from_slice(other.lacking.as_slice())?;
        self.violation = other.violation;
        self.score = other.score;
        Ok(())
    }

    /// The wishes that were met, the first of them up to so many.
    pub(crate) fn copy_items(&self, most: usize, items: &mut Vec<Item>) -> Result<(), AllocError> {
        items.clear();
        for run in self.runs.iter().take(most) {
            items.push(run.item)?;
        }
        Ok(())
    }
}
