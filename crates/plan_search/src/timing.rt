//! Times of operations where a unit is to be charged at every minute: its charges follow one another without a gap, from
//! the first minute to the last of the horizon.

use crate::clocks::Clocks;
use crate::decoded::Run;
use crate::facts::Facts;
use crate::numbers::{RATE_MINUTES, narrow, product};
use plant_model::PlaceKind;
use std::alloc::{AllocError, Global};

/// How often times are raised, forwards and backwards.
const SWEEPS: u32 = 3;

/// When the next charge of each unit starts.
#[derive(Drop)]
pub(crate) struct Timing {
    next: Vec<u32>,
    /// Some unit is to be charged at every minute.
    any: bool,
}

fn is_continuous(facts: &Facts) -> bool {
    facts.places.iter().any(|place| place.info.continuous)
}

/// Raises times, from the first operation to the last, to those at which each can start behind the others. Answers
/// whether any was raised.
fn forward(clocks: &mut Clocks, facts: &Facts, runs: &mut Vec<Run>) -> bool {
    clocks.reset();
    let mut raised = false;
    for run in runs.iter_mut() {
        if let Some(op) = facts.op(run.item.op) {
            let start = clocks.earliest(run.item.op, op, run.start);
            let end = run.end.max(start.saturating_add(run.least));
            raised = raised || start > run.start || end > run.end;
            run.start = start;
            run.end = end;
            clocks.note(run.item.op, op, start, end);
        }
    }
    raised
}

impl Timing {
    pub(crate) fn new(alloc: Global, facts: &Facts) -> Result<Timing, AllocError> {
        Ok(Timing {
            next: vec![in alloc; 0; facts.places.len()]?,
            any: is_continuous(facts),
        })
    }

    fn next_start(&self, p: u8) -> u32 {
        self.next.get(p as usize).copied().unwrap_or(0)
    }

    /// Raises the end of a charge of such a unit to the start of the next, and the start of what then runs too slowly.
    fn pull(&mut self, facts: &Facts, run: &mut Run) -> bool {
        let Some(op) = facts.op(run.item.op) else {
            return false;
        };
        let end = if op.continuous {
            run.end.max(self.next_start(op.op.to))
        } else {
            run.end
        };
        let start = run.start.max(end.saturating_sub(run.most));
        if op.continuous {
            if let Some(next) = self.next.get_mut(op.op.to as usize) {
                *next = start;
            }
        }
        let raised = start > run.start || end > run.end;
        run.start = start;
        run.end = end;
        raised
    }

    /// Likewise of all, from the last operation to the first.
    fn backward(&mut self, facts: &Facts, runs: &mut Vec<Run>) -> bool {
        for next in self.next.iter_mut() {
            *next = facts.horizon;
        }
        let mut raised = false;
        for run in runs.iter_mut().rev() {
            let pulled = self.pull(facts, run);
            raised = raised || pulled;
        }
        raised
    }

    /// Raises times until none is raised any more. Answers whether some still were at the end.
    fn sweep(&mut self, clocks: &mut Clocks, facts: &Facts, runs: &mut Vec<Run>) -> bool {
        for _ in 0..SWEEPS {
            let later = forward(clocks, facts, runs);
            let pulled = self.backward(facts, runs);
            if !later && !pulled {
                return false;
            }
        }
        true
    }

    /// For how many minutes the units are not charged before their first charges.
    fn idle(&self, facts: &Facts) -> u64 {
        let mut idle = 0u64;
        for (place, next) in facts.places.iter().zip(self.next.iter()) {
            if place.info.kind == PlaceKind::Unit && place.info.continuous {
                idle = idle.saturating_add(u64::from(*next));
            }
        }
        idle
    }

    /// Sets the times of the operations. Answers how far they are from legal ones, in volume units.
    pub(crate) fn settle(
        &mut self,
        clocks: &mut Clocks,
        facts: &Facts,
        runs: &mut Vec<Run>,
    ) -> u64 {
        if !self.any {
            return 0;
        }
        let unsettled = self.sweep(clocks, facts, runs);
        let open = if unsettled {
            u64::from(facts.horizon) / 4
        } else {
            0
        };
        let minutes = late(facts, runs.as_slice())
            .saturating_add(self.idle(facts))
            .saturating_add(open);
        if minutes == 0 {
            return 0;
        }
        (product(narrow(minutes), facts.greatest_rate) / u64::from(RATE_MINUTES)).saturating_add(1)
    }
}

/// For how many minutes operations run on behind their windows.
fn late(facts: &Facts, runs: &[Run]) -> u64 {
    let mut minutes = 0u64;
    for run in runs {
        let close = facts.op(run.item.op).map_or(0, |op| op.op.window.1);
        minutes = minutes.saturating_add(u64::from(run.end.saturating_sub(close)));
    }
    minutes
}
