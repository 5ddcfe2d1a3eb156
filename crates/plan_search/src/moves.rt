//! How a list of wishes is changed by chance.

ghost use Rattle.std.specs.Prelude.{◌<◌};

use crate::decoded::{ALL, Decoded, Item};
use crate::facts::{Facts, OpFacts};
use crate::numbers::{narrow, product, small};
use crate::random::Random;
use plant_model::OpKind;
use std::alloc::AllocError;

/// A change of a list.
#[derive(Clone, Copy, PartialEq, Eq)]
enum Move {
    /// An operation is put in.
    Insert,
    /// An operation becomes another.
    Replace,
    /// An operation is moved to another place of the list.
    Shift,
    /// More or less is wanted.
    Volume,
    /// Two operations are put in, of which the first fills a tank and the second draws from it.
    Pair,
    /// More or less is wanted of all that fills a tank before a charge.
    Scale,
    /// An operation goes to another place, and what draws from its old one draws from the new one.
    Reroute,
    /// A vessel that is not empty is unloaded, or a tank is charged that is short of its demand.
    Directed,
}

/// How often each is made.
const WEIGHTS: [(usize, Move); 8] = [
    (3, Move::Insert),
    (2, Move::Replace),
    (3, Move::Shift),
    (2, Move::Scale),
    (4, Move::Volume),
    (6, Move::Pair),
    (4, Move::Reroute),
    (4, Move::Directed),
];

/// Likewise where as much as can be moved is always wanted.
const WHOLE_WEIGHTS: [(usize, Move); 6] = [
    (3, Move::Insert),
    (2, Move::Replace),
    (3, Move::Shift),
    (6, Move::Pair),
    (4, Move::Reroute),
    (4, Move::Directed),
];

/// By what a want is scaled: numerator and denominator.
const FACTORS: [(u32, u32); 13] = [
    (1, 2),
    (3, 4),
    (7, 8),
    (15, 16),
    (31, 32),
    (63, 64),
    (65, 64),
    (33, 32),
    (17, 16),
    (9, 8),
    (5, 4),
    (3, 2),
    (2, 1),
];

/// The greatest volume that is wanted by chance.
const MOST_CHANCE: usize = 500_000;

/// A volume is raised or lowered by less than two to this power.
const MOST_DOUBLINGS: usize = 20;

/// A list of wishes that is changed by chance.
#[derive(Drop)]
pub(crate) struct Wishes {
    pub items: Vec<Item>,
    pub random: Random,
    /// The most items that the list may have.
    most: usize,
    /// As much as can be moved is wanted of what is put in.
    whole: bool,
}

/// One of the changes, each as often as its weight says.
fn choose(random: &mut Random, weights: &[(usize, Move)]) -> Move {
    let mut left = random.below(total_of(weights));
    for (weight, change) in weights {
        if left < *weight {
            return *change;
        }
        left -= *weight;
    }
    Move::Insert
}

fn total_of(weights: &[(usize, Move)]) -> usize {
    let mut total = 0usize;
    for (weight, _) in weights {
        total = total.saturating_add(*weight);
    }
    total
}

/// A volume that is wanted by chance: mostly all.
fn chance_volume(random: &mut Random) -> u32 {
    if random.once_in(3) {
        random.below(MOST_CHANCE) as u32 + 1
    } else {
        ALL
    }
}

/// The volume, changed by chance.
fn changed_volume(random: &mut Random, volume: u32) -> u32 {
    match random.below(6) {
        0 => ALL,
        1 => narrow(product(volume, random.below(7) as u32 + 1) / 8).max(1),
        _ => {
            let step = 1u32 << random.below(MOST_DOUBLINGS);
            if random.once_in(2) {
                volume.saturating_add(step)
            } else {
                volume.saturating_sub(step).max(1)
            }
        }
    }
}

impl Wishes {
    pub(crate) fn new(items: Vec<Item>, random: Random, most: usize) -> Wishes {
        Wishes {
            items,
            random,
            most,
            whole: false,
        }
    }

    /// A volume that is wanted of what is put in.
    fn new_volume(&mut self) -> u32 {
        if self.whole {
            ALL
        } else {
            chance_volume(&mut self.random)
        }
    }

    /// An operation of the plant.
    fn any_op(&mut self, facts: &Facts) -> u8 {
        small(self.random.below(facts.ops.len()))
    }

    /// The place of an item, where there is one.
    fn any_place(&mut self) -> usize {
        self.random.below(self.items.len())
    }

    fn insert(&mut self, at: usize, op: u8, wanted: u32) -> Result<(), AllocError> {
        let place = at.min(self.items.len());
        self.items.insert(place, Item { op, wanted })?;
        Ok(())
    }

    fn insert_anywhere(&mut self, op: u8, wanted: u32) -> Result<(), AllocError> {
        let at = self.random.below(self.items.len() + 1);
        self.insert(at, op, wanted)
    }

    /// Puts two operations in, the second somewhere behind the first.
    fn insert_pair(&mut self, first: u8, second: u8) -> Result<(), AllocError> {
        let at = self.random.below(self.items.len() + 1);
        let wanted = self.new_volume();
        self.insert(at, first, wanted)?;
        let behind = self.random.below(self.items.len().saturating_sub(at));
        self.insert(at.saturating_add(behind).saturating_add(1), second, ALL)
    }

    /// Takes items out until so many more have room.
    fn make_room(&mut self, more: usize) {
        let most = self.most.saturating_sub(more);
        for _ in most..self.items.len() {
            let at = self.any_place();
            if at < self.items.len() {
                self.items.remove(at);
            }
        }
    }

    fn put_in(&mut self, facts: &Facts) -> Result<bool, AllocError> {
        self.make_room(1);
        let op = self.any_op(facts);
        let wanted = self.new_volume();
        self.insert_anywhere(op, wanted)?;
        Ok(true)
    }

    fn replace(&mut self, facts: &Facts) -> bool {
        let at = self.any_place();
        let op = self.any_op(facts);
        let wanted = self.new_volume();
        if let Some(item) = self.items.get_mut(at) {
            *item = Item { op, wanted };
        }
        true
    }

    fn shift(&mut self) -> Result<bool, AllocError> {
        let at = self.any_place();
        if at >= self.items.len() {
            return Ok(false);
        }
        let item = self.items.remove(at);
        self.insert_anywhere(item.op, item.wanted)?;
        Ok(true)
    }

    fn change_volume(&mut self, current: &Decoded) -> bool {
        let at = self.any_place();
        let Some(run) = current.runs.get(at) else {
            return false;
        };
        let wanted = changed_volume(&mut self.random, run.volume);
        self.want(at, wanted);
        true
    }

    pub(crate) fn want(&mut self, at: usize, wanted: u32) {
        if let Some(item) = self.items.get_mut(at) {
            item.wanted = wanted;
        }
    }

    /// The last item before that place that is the same operation.
    fn same_before(&self, at: usize, op: u8) -> Option<usize> {
        let earlier = self.items.iter().take(at);
        let mut found = None;
        for (j, item) in earlier.enumerate() {
            if item.op == op {
                found = Some(j);
            }
        }
        found
    }

    /// Leaves an item out.
    pub(crate) fn leave_out(&mut self, at: usize) -> bool {
        if at >= self.items.len() {
            return false;
        }
        self.items.remove(at);
        true
    }

    /// Leaves an item out, and wants its volume of the last one before it that is the same operation. Answers whether
    /// there is one.
    pub(crate) fn join(&mut self, at: usize, current: &Decoded) -> bool {
        let Some(run) = current.runs.get(at) else {
            return false;
        };
        let Some(j) = self.same_before(at, run.item.op) else {
            return false;
        };
        let volume = current.runs.get(j).map_or(0, |before| before.volume);
        self.want(j, volume.saturating_add(run.volume));
        self.leave_out(at)
    }

    fn set_op(&mut self, at: usize, op: u8) {
        if let Some(item) = self.items.get_mut(at) {
            item.op = op;
        }
    }

    /// What the item at that place is to do.
    fn facts_at<'a>(&self, facts: &'a Facts, at: usize) -> Option<&'a OpFacts> {
        let item = self.items.get(at)?;
        facts.op(item.op)
    }

    /// An operation, and one that draws from the tank that it fills; or of a charge, one that fills its tank.
    fn pair(&mut self, facts: &Facts) -> Result<bool, AllocError> {
        let v = self.any_op(facts);
        let Some(op) = facts.op(v) else {
            return Ok(false);
        };
        let is_charge = op.op.kind == OpKind::Charge;
        let others = if is_charge {
            facts.incoming(op.op.from)
        } else {
            facts.outgoing(op.op.to)
        };
        let Some(other) = self.random.one_of(others) else {
            return Ok(false);
        };
        if self.most < 2 {
            return Ok(false);
        }
        self.make_room(2);
        if is_charge {
            self.insert_pair(other, v)?;
        } else {
            self.insert_pair(v, other)?;
        }
        Ok(true)
    }

    /// One of the places of the list at which a charge stands.
    fn any_charge(&mut self, facts: &Facts) -> Option<usize> {
        let mut charges = 0usize;
        let mut chosen = None;
        for at in 0..self.items.len() {
            let op = self.facts_at(facts, at)?;
            if op.op.kind == OpKind::Charge {
                charges = charges.saturating_add(1);
                if self.random.once_in(charges) {
                    chosen = Some(at);
                }
            }
        }
        chosen
    }

    fn scale(&mut self, facts: &Facts, current: &Decoded) -> bool {
        let Some(at) = self.any_charge(facts) else {
            return false;
        };
        let Some(charge) = self.facts_at(facts, at) else {
            return false;
        };
        let factor = self.random.one_of(FACTORS.as_slice()).unwrap_or((1, 1));
        let scaled = self.scale_before(facts, current, at, charge.op.from, factor);
        self.want(at, ALL);
        scaled
    }

    /// Scales what fills the tank since it was last drawn from. Answers whether anything does.
    fn scale_before(
        &mut self,
        facts: &Facts,
        current: &Decoded,
        at: usize,
        tank: u8,
        factor: (u32, u32),
    ) -> bool {
        let mut scaled = false;
        for j in (0..at).rev() {
            let Some(op) = self.facts_at(facts, j) else {
                return scaled;
            };
            if op.op.from == tank {
                return scaled;
            }
            if op.op.to == tank {
                let volume = current.runs.get(j).map_or(0, |run| run.volume);
                let wanted = product(volume, factor.0) / u64::from(factor.1.max(1));
                self.want(j, narrow(wanted).max(1));
                scaled = true;
            }
        }
        scaled
    }

    fn reroute(&mut self, facts: &Facts) -> bool {
        let at = self.any_place();
        let Some(old) = self.facts_at(facts, at) else {
            return false;
        };
        if old.op.kind == OpKind::Charge {
            return false;
        }
        let Some(v) = self.random.one_of(facts.outgoing(old.op.from)) else {
            return false;
        };
        let Some(new) = facts.op(v) else {
            return false;
        };
        if new.op.to == old.op.to {
            return false;
        }
        self.set_op(at, v);
        let all = self.random.once_in(2);
        self.follow(facts, at, old.op.to, new.op.to, all);
        true
    }

    /// Lets what draws from the old tank behind that place draw from the new one, the first or all.
    fn follow(&mut self, facts: &Facts, at: usize, old: u8, new: u8, all: bool) {
        for j in at..self.items.len() {
            if let Some(op) = self.facts_at(facts, j) {
                if op.op.from == old {
                    if let Some(v) = between(facts, new, op.op.to) {
                        self.set_op(j, v);
                        if !all {
                            return;
                        }
                    }
                }
            }
        }
    }

    /// One of the places at which something is lacking.
    fn any_lacking(&mut self, current: &Decoded) -> Option<u8> {
        let mut places = 0usize;
        let mut chosen = None;
        for (p, lacking) in current.lacking.iter().enumerate() {
            if *lacking > 0 {
                places = places.saturating_add(1);
                if self.random.once_in(places) {
                    chosen = Some(small(p));
                }
            }
        }
        chosen
    }

    fn directed(&mut self, facts: &Facts, current: &Decoded) -> Result<bool, AllocError> {
        let Some(p) = self.any_lacking(current) else {
            return Ok(false);
        };
        let Some(v) = self.random.one_of(facts.outgoing(p)) else {
            return Ok(false);
        };
        match self.random.one_of(facts.incoming(p)) {
            Some(other) if self.most >= 2 && !self.random.once_in(3) => {
                self.make_room(2);
                self.insert_pair(other, v)?;
            }
            _ => {
                self.make_room(1);
                self.insert_anywhere(v, ALL)?;
            }
        }
        Ok(true)
    }

    fn chosen_move(&mut self, whole: bool) -> Move {
        let change = if whole {
            choose(&mut self.random, WHOLE_WEIGHTS.as_slice())
        } else {
            choose(&mut self.random, WEIGHTS.as_slice())
        };
        match change {
            Move::Pair | Move::Directed => change,
            _ if self.items.is_empty() => Move::Insert,
            _ => change,
        }
    }

    /// Changes the list, which came to the operations that run now. Answers whether it was changed.
    pub(crate) fn change(
        &mut self,
        facts: &Facts,
        current: &Decoded,
        whole: bool,
    ) -> Result<bool, AllocError> {
        self.whole = whole;
        match self.chosen_move(whole) {
            Move::Insert => self.put_in(facts),
            Move::Replace => Ok(self.replace(facts)),
            Move::Shift => self.shift(),
            Move::Volume => Ok(self.change_volume(current)),
            Move::Pair => self.pair(facts),
            Move::Scale => Ok(self.scale(facts, current)),
            Move::Reroute => Ok(self.reroute(facts)),
            Move::Directed => self.directed(facts, current),
        }
    }
}

/// The last of the operations from the one place to the other.
fn between(facts: &Facts, from: u8, to: u8) -> Option<u8> {
    let mut found = None;
    for v in facts.outgoing(from) {
        if facts.op(*v).map_or(false, |op| op.op.to == to) {
            found = Some(*v);
        }
    }
    found
}
