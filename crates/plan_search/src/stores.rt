//! What places hold, and what has been charged, while a list is decoded.

use crate::facts::{Facts, OpFacts, PlaceFacts};
use crate::numbers::{RATE_MINUTES, narrow, product};
use crude_amounts::Amounts;
use limits::{MOST_AMOUNT, MOST_BERTHS};
use plant_model::{OpKind, PlaceKind};
use std::alloc::{AllocError, Global};

/// What a place holds, has given to charges, and has got of them.
#[derive(Clone, Copy)]
struct Store {
    held: Amounts,
    /// The volume that was charged from a tank.
    charged: u64,
    /// How often a unit was charged.
    charges: u32,
}

/// What every place holds.
#[derive(Drop)]
pub(crate) struct Stores {
    places: Vec<Store>,
    /// Of each berth the last in their list of the vessels that were unloaded there.
    vessels: Vec<u8>,
}

/// What was drawn, and what the source held before.
#[derive(Clone, Copy)]
pub(crate) struct Drawn {
    pub source: Amounts,
    pub amounts: Amounts,
}

fn at_first(place: &PlaceFacts) -> Store {
    Store {
        held: place.first,
        charged: 0,
        charges: 0,
    }
}

/// The amounts after that volume was drawn, and what was drawn; or none, where there is not as much.
fn rest_and_drawn(held: Amounts, volume: u32) -> Option<(Amounts, Amounts)> {
    let total = held.total();
    if volume == 0 || total < volume.into() || total > u32::MAX.into() {
        return None;
    }
    let mut rest = held;
    let drawn = rest.draw(volume.into());
    Some((rest, drawn))
}

/// Both together, where they are few enough.
fn mixed(held: Amounts, drawn: &Amounts) -> Amounts {
    let mut mix = held;
    if held.len() == drawn.len() && held.total() + drawn.total() <= MOST_AMOUNT {
        mix.add(drawn);
    }
    mix
}

impl Stores {
    pub(crate) fn new(alloc: Global, facts: &Facts) -> Result<Stores, AllocError> {
        let mut places = Vec::new(alloc);
        for place in facts.places.iter() {
            places.push(at_first(place))?;
        }
        Ok(Stores {
            places,
            vessels: vec![in alloc; 0; MOST_BERTHS as usize + 1]?,
        })
    }

    /// Nothing has run.
    pub(crate) fn reset(&mut self, facts: &Facts) {
        for (store, place) in self.places.iter_mut().zip(facts.places.iter()) {
            *store = at_first(place);
        }
        for vessel in self.vessels.iter_mut() {
            *vessel = 0;
        }
    }

    /// Whether a later vessel of the berth has been unloaded.
    fn breaks_order(&self, op: &OpFacts) -> bool {
        let last = self.vessels.get(op.berth as usize).copied();
        op.op.kind == OpKind::Unload && last.unwrap_or(0) > op.op.from
    }

    /// What the destination has room for, or the unit takes.
    fn room(&self, facts: &Facts, op: &OpFacts) -> Option<u64> {
        let target = self.places.get(op.op.to as usize)?;
        let place = facts.place(op.op.to)?;
        if op.op.kind == OpKind::Charge {
            if target.charges >= place.info.charges.1 {
                return None;
            }
            return self.demand_left(facts, op.op.from);
        }
        Some(u64::from(place.info.max).saturating_sub(target.held.total()))
    }

    /// What the demand of the tank still allows.
    fn demand_left(&self, facts: &Facts, p: u8) -> Option<u64> {
        let tank = self.places.get(p as usize)?;
        let most = facts.place(p)?.info.demand.1;
        Some(u64::from(most).saturating_sub(tank.charged))
    }

    /// What the source holds above its minimum.
    fn spare(&self, facts: &Facts, p: u8) -> Option<u64> {
        let source = self.places.get(p as usize)?;
        let place = facts.place(p)?;
        Some(source.held.total().saturating_sub(place.info.min.into()))
    }

    /// The most that the operation can move from that minute on, in volume units.
    pub(crate) fn most_volume(&self, facts: &Facts, op: &OpFacts, start: u32) -> Option<u32> {
        if self.breaks_order(op) {
            return None;
        }
        let span = op.op.window.1.saturating_sub(start);
        let in_time = product(op.op.rate.1, span) / u64::from(RATE_MINUTES);
        let most = self
            .spare(facts, op.op.from)?
            .min(self.room(facts, op)?)
            .min(in_time);
        Some(narrow(most).min(op.op.volume.1))
    }

    /// Moves the volume, where the source holds it.
    pub(crate) fn run(&mut self, op: &OpFacts, volume: u32) -> Option<Drawn> {
        let from = self.places.get_mut(op.op.from as usize)?;
        let source = from.held;
        let (rest, amounts) = rest_and_drawn(source, volume)?;
        from.held = rest;
        match op.op.kind {
            OpKind::Charge => {
                from.charged = from.charged.saturating_add(volume.into());
                let to = self.places.get_mut(op.op.to as usize)?;
                to.charges = to.charges.saturating_add(1);
            }
            OpKind::Unload | OpKind::Transfer => {
                let to = self.places.get_mut(op.op.to as usize)?;
                to.held = mixed(to.held, &amounts);
            }
        }
        self.note_vessel(op);
        Some(Drawn { source, amounts })
    }

    fn note_vessel(&mut self, op: &OpFacts) {
        if op.op.kind == OpKind::Unload {
            if let Some(last) = self.vessels.get_mut(op.berth as usize) {
                *last = op.op.from.max(*last);
            }
        }
    }

    /// What is left in a vessel, or is short of the demand of a charging tank, in volume units.
    pub(crate) fn lacking(&self, place: &PlaceFacts, p: usize) -> u64 {
        let Some(store) = self.places.get(p) else {
            return 0;
        };
        match place.info.kind {
            PlaceKind::Vessel => store.held.total(),
            PlaceKind::Charging => u64::from(place.info.demand.0).saturating_sub(store.charged),
            PlaceKind::Storage | PlaceKind::Unit => 0,
        }
    }

    /// How many charges a unit is short of.
    pub(crate) fn charges_lacking(&self, place: &PlaceFacts, p: usize) -> u32 {
        let charges = self.places.get(p).map_or(0, |store| store.charges);
        place.info.charges.0.saturating_sub(charges)
    }
}
