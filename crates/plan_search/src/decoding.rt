//! How a list of wishes is made into operations at their times: each in turn as early as it can, with what is wanted or
//! else as much as it can move.

use crate::clocks::Clocks;
use crate::decoded::{Decoded, Item, Run};
use crate::facts::{Facts, OpFacts};
use crate::numbers::{RATE_MINUTES, add_cause, narrow, product, weighted};
use crate::stores::Stores;
use crate::timing::Timing;
use crude_amounts::Amounts;
use plant_model::{OpKind, PlaceKind};
use std::alloc::{AllocError, Global};

/// What one charge that is missing counts for, in volume units.
const MISSING_CHARGE: u32 = 1_000;

/// By how much a unit of violation is worse than what the best crude earns.
const PENALTY: u64 = 4;

/// What a list is decoded with.
#[derive(Drop)]
pub(crate) struct Decoder {
    clocks: Clocks,
    stores: Stores,
    timing: Timing,
    /// What the charges have earned.
    earned: i64,
}

/// The least minutes and the most in which the volume can be moved.
fn durations(op: &OpFacts, volume: u32) -> Option<(u32, u32)> {
    let work = product(RATE_MINUTES, volume);
    let least = narrow(work.div_ceil(u64::from(op.op.rate.1.max(1)))).max(1);
    let most = work
        .checked_div(op.op.rate.0.into())
        .map_or(u32::MAX, narrow);
    if least <= most {
        Some((least, most))
    } else {
        None
    }
}

/// By how much what a charge draws breaks its limits, in volume units.
fn excess_of(facts: &Facts, op: &OpFacts, drawn: &Amounts, volume: u32) -> u64 {
    let mut excess = 0u64;
    for (property, limit) in facts.properties.iter().zip(op.limits.iter()) {
        let content = weighted(drawn, property.values.as_slice()).unsigned_abs();
        let above = content.saturating_sub(product(limit.1, volume));
        let below = product(limit.0, volume).saturating_sub(content);
        let over = above.max(below);
        if over > 0 {
            add_cause(
                &mut excess,
                (over / property.spread.max(1)).saturating_add(1),
            );
        }
    }
    excess
}

impl Decoder {
    pub(crate) fn new(alloc: Global, facts: &Facts) -> Result<Decoder, AllocError> {
        Ok(Decoder {
            clocks: Clocks::new(alloc, facts)?,
            stores: Stores::new(alloc, facts)?,
            timing: Timing::new(alloc, facts)?,
            earned: 0,
        })
    }

    /// Lets an operation run, where it can.
    fn run(&mut self, facts: &Facts, item: Item) -> Option<Run> {
        let op = facts.op(item.op)?;
        let start = self.clocks.earliest(item.op, op, op.op.window.0);
        let room = self.stores.most_volume(facts, op, start)?;
        let volume = room.min(item.wanted).max(op.op.volume.0);
        if volume > room {
            return None;
        }
        let (least, most) = durations(op, volume)?;
        let drawn = self.stores.run(op, volume)?;
        let end = start.saturating_add(least);
        self.clocks.note(item.op, op, start, end);
        Some(Run {
            item,
            volume,
            start,
            end,
            least,
            most,
            source: drawn.source,
            excess: self.charge(facts, op, &drawn.amounts, volume),
        })
    }

    /// Counts what a charge earns. Answers by how much it breaks its limits.
    fn charge(&mut self, facts: &Facts, op: &OpFacts, drawn: &Amounts, volume: u32) -> u64 {
        if op.op.kind != OpKind::Charge {
            return 0;
        }
        let earned = weighted(drawn, facts.margins.as_slice());
        self.earned = self.earned.saturating_add(earned);
        excess_of(facts, op, drawn, volume)
    }

    /// Makes operations of the items.
    pub(crate) fn decode(
        &mut self,
        facts: &Facts,
        items: &[Item],
        decoded: &mut Decoded,
    ) -> Result<(), AllocError> {
        self.clocks.reset();
        self.stores.reset(facts);
        self.earned = 0;
        decoded.runs.clear();
        for item in items {
            if let Some(run) = self.run(facts, *item) {
                decoded.runs.push(run)?;
            }
        }
        self.judge(facts, decoded)
    }

    /// Sets the times of the operations, and the score.
    fn judge(&mut self, facts: &Facts, decoded: &mut Decoded) -> Result<(), AllocError> {
        let mut violation = 0;
        for run in decoded.runs.iter() {
            add_cause(&mut violation, run.excess);
        }
        let late = self
            .timing
            .settle(&mut self.clocks, facts, &mut decoded.runs);
        add_cause(&mut violation, late);
        self.count_lacking(facts, decoded, &mut violation)?;
        let penalty = facts
            .greatest_gain
            .saturating_mul(violation)
            .saturating_mul(PENALTY);
        let costs = i128::from(self.demurrage(facts)) + i128::from(penalty);
        decoded.violation = violation;
        decoded.score = i128::from(self.earned) - costs;
        Ok(())
    }

    /// What is lacking at each place.
    fn count_lacking(
        &self,
        facts: &Facts,
        decoded: &mut Decoded,
        violation: &mut u64,
    ) -> Result<(), AllocError> {
        decoded.lacking.clear();
        for (p, place) in facts.places.iter().enumerate() {
            let lacking = self.stores.lacking(place, p);
            decoded.lacking.push(lacking)?;
            add_cause(violation, lacking);
            if place.info.kind == PlaceKind::Unit {
                let charges = self.stores.charges_lacking(place, p);
                add_cause(violation, product(charges, MISSING_CHARGE));
            }
        }
        Ok(())
    }

    /// What the vessels pay for waiting.
    fn demurrage(&self, facts: &Facts) -> u64 {
        let mut demurrage = 0u64;
        for (p, place) in facts.places.iter().enumerate() {
            let wait = self.clocks.last_draw(p).saturating_sub(place.info.arrival);
            demurrage = demurrage.saturating_add(product(place.info.demurrage, wait));
        }
        demurrage
    }
}
