//! What the places of a set hold at first, weighed.

use crate::sets::has;
use limits::{MOST_CRUDES, MOST_PROPERTY};
use plant_model::{OpKind, PlaceKind, Plant};

/// How crudes are weighed: by what they earn, or by a property, upwards or downwards.
#[derive(Clone, Copy)]
pub(crate) enum Weighing {
    Margin,
    High(u8),
    Low(u8),
}

/// What the crude weighs.
pub(crate) fn weight_by(plant: &Plant, weighing: Weighing, c: u8) -> i64 {
    if c >= plant.crude_count() {
        return 0;
    }
    match weighing {
        Weighing::Margin => plant.margin(c),
        Weighing::High(k) if k < plant.property_count() => i64::from(plant.property(c, k)),
        Weighing::Low(k) if k < plant.property_count() => -i64::from(plant.property(c, k)),
        _ => 0,
    }
}

/// So many units, and what they weigh in all.
#[derive(Clone, Copy)]
pub(crate) struct Mix {
    pub weight: i64,
    pub total: i64,
}

const NOTHING: Mix = Mix {
    weight: 0,
    total: 0,
};

impl Mix {
    fn with(self, weight: i64, amount: i64) -> Mix {
        Mix {
            weight: self.weight.saturating_add(weight.saturating_mul(amount)),
            total: self.total.saturating_add(amount),
        }
    }

    fn and(self, other: Mix) -> Mix {
        Mix {
            weight: self.weight.saturating_add(other.weight),
            total: self.total.saturating_add(other.total),
        }
    }

    /// Whether the other weighs more on the average, in parts of 1,024.
    fn is_lighter(self, other: Mix) -> bool {
        match (self.scaled_mean(1024), other.scaled_mean(1024)) {
            (Some(mine), Some(theirs)) => mine < theirs,
            (None, Some(_)) => true,
            _ => false,
        }
    }

    /// What a unit weighs on the average, times q, rounded up. Nothing has none.
    pub(crate) fn scaled_mean(self, q: i64) -> Option<i64> {
        if self.total <= 0 {
            return None;
        }
        let scaled = self.weight.saturating_mul(q);
        let floor = scaled.div_euclid(self.total);
        if scaled.rem_euclid(self.total) == 0 {
            Some(floor)
        } else {
            Some(floor.saturating_add(1))
        }
    }
}

/// What the place holds at first of the crude, where it holds any.
pub(crate) fn held(plant: &Plant, p: u8, c: u8) -> i64 {
    if p >= plant.place_count() || c >= plant.crude_count() {
        return 0;
    }
    if matches!(plant.place(p).kind, PlaceKind::Unit) {
        return 0;
    }
    i64::from(plant.initial(p, c))
}

fn mix_at(plant: &Plant, p: u8, weighing: Weighing) -> Mix {
    let mut mix = NOTHING;
    for c in 0..MOST_CRUDES {
        mix = mix.with(weight_by(plant, weighing, c), held(plant, p, c));
    }
    mix
}

/// What the place of the set holds that weighs most on the average.
pub(crate) fn greatest_mean(plant: &Plant, places: u64, weighing: Weighing) -> Mix {
    let mut greatest = NOTHING;
    for p in 0..plant.place_count() {
        if has(places, p) {
            let mix = mix_at(plant, p, weighing);
            if greatest.is_lighter(mix) {
                greatest = mix;
            }
        }
    }
    greatest
}

/// What all places of the set hold.
pub(crate) fn whole_mean(plant: &Plant, places: u64, weighing: Weighing) -> Mix {
    let mut whole = NOTHING;
    for p in 0..plant.place_count() {
        if has(places, p) {
            whole = whole.and(mix_at(plant, p, weighing));
        }
    }
    whole
}

/// What a unit may weigh at most that the operation charges, where its limit on the property says anything.
fn limit_at(plant: &Plant, v: u8, weighing: Weighing) -> Option<i64> {
    if v >= plant.op_count() || plant.op(v).kind != OpKind::Charge {
        return None;
    }
    match weighing {
        Weighing::High(k) if k < plant.property_count() => {
            let high = plant.limit(v, k).1;
            if high < MOST_PROPERTY {
                Some(i64::from(high))
            } else {
                None
            }
        }
        Weighing::Low(k) if k < plant.property_count() => {
            let low = plant.limit(v, k).0;
            if low > 0 { Some(-i64::from(low)) } else { None }
        }
        _ => None,
    }
}

/// One unit that weighs as little as the limits of the set's charges ask for.
pub(crate) fn limit_mean(plant: &Plant, places: u64, weighing: Weighing) -> Mix {
    let mut least = NOTHING;
    for v in 0..plant.op_count() {
        if has(places, plant.op(v).from) {
            if let Some(weight) = limit_at(plant, v, weighing) {
                let limit = Mix { weight, total: 1 };
                if least.total == 0 || limit.is_lighter(least) {
                    least = limit;
                }
            }
        }
    }
    least
}
