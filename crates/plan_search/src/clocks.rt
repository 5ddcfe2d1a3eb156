//! When operations may start behind those that have run: one number each for an operation, a place and a berth.

use crate::facts::{Facts, OpFacts};
use limits::MOST_BERTHS;
use plant_model::OpKind;
use std::alloc::{AllocError, Global};

/// Minutes of what has run at a place.
#[derive(Clone, Copy)]
struct PlaceClock {
    /// The last end of what filled or charged it.
    filled: u32,
    /// The last start of what drew from it.
    drawn_from: u32,
    /// The last end of what drew from it.
    drawn: u32,
}

/// A place at which nothing has run.
const AT_FIRST: PlaceClock = PlaceClock {
    filled: 0,
    drawn_from: 0,
    drawn: 0,
};

/// Minutes of what has run.
#[derive(Drop)]
pub(crate) struct Clocks {
    places: Vec<PlaceClock>,
    /// The last end at each berth.
    berths: Vec<u32>,
    /// The last end of each operation.
    ops: Vec<u32>,
}

fn raise(minutes: &mut Vec<u32>, at: u8, minute: u32) {
    if let Some(last) = minutes.get_mut(at as usize) {
        *last = minute.max(*last);
    }
}

fn minute_at(minutes: &Vec<u32>, at: u8) -> u32 {
    minutes.get(at as usize).copied().unwrap_or(0)
}

impl Clocks {
    pub(crate) fn new(alloc: Global, facts: &Facts) -> Result<Clocks, AllocError> {
        Ok(Clocks {
            places: vec![in alloc; AT_FIRST; facts.places.len()]?,
            berths: vec![in alloc; 0; MOST_BERTHS as usize + 1]?,
            ops: vec![in alloc; 0; facts.ops.len()]?,
        })
    }

    /// Nothing has run.
    pub(crate) fn reset(&mut self) {
        for clock in self.places.iter_mut() {
            *clock = AT_FIRST;
        }
        for minute in self.berths.iter_mut() {
            *minute = 0;
        }
        for minute in self.ops.iter_mut() {
            *minute = 0;
        }
    }

    fn place(&self, p: u8) -> PlaceClock {
        self.places.get(p as usize).copied().unwrap_or(AT_FIRST)
    }

    /// The earliest minute from that one on at which the operation can start.
    pub(crate) fn earliest(&self, v: u8, facts: &OpFacts, from: u32) -> u32 {
        let source = self.place(facts.op.from);
        let target = self.place(facts.op.to);
        let behind = from
            .max(minute_at(&self.ops, v))
            .max(source.drawn_from)
            .max(source.filled)
            .max(target.drawn);
        match facts.op.kind {
            OpKind::Unload => behind.max(minute_at(&self.berths, facts.berth)),
            OpKind::Transfer => behind,
            OpKind::Charge => behind.max(source.drawn).max(target.filled),
        }
    }

    /// The operation runs.
    pub(crate) fn note(&mut self, v: u8, facts: &OpFacts, start: u32, end: u32) {
        if let Some(source) = self.places.get_mut(facts.op.from as usize) {
            source.drawn_from = start.max(source.drawn_from);
            source.drawn = end.max(source.drawn);
        }
        if let Some(target) = self.places.get_mut(facts.op.to as usize) {
            target.filled = end.max(target.filled);
        }
        raise(&mut self.ops, v, end);
        if facts.op.kind == OpKind::Unload {
            raise(&mut self.berths, facts.berth, end);
        }
    }

    /// The last end of what drew from the place.
    pub(crate) fn last_draw(&self, p: usize) -> u32 {
        self.places.get(p).map_or(0, |clock| clock.drawn)
    }
}
