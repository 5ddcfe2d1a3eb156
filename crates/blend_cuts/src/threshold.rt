//! From a weighing and a threshold to a cut.

ghost use Rattle.std.specs.Prelude.{pos, ◌<ℤ◌};

use crate::mixes::{Mix, Weighing, held, weight_by};
use crate::sets::has;
use limits::MOST_CRUDES;
use plant_model::Plant;
use slot_box::CutParams;

/// What the rises of a cut may reach, so that its multipliers are not too small.
const MOST_REACH: i64 = 65_536;

/// How far the weights of crudes lie apart.
fn spread(plant: &Plant, weighing: Weighing) -> i64 {
    let mut least = weight_by(plant, weighing, 0);
    let mut most = least;
    for c in 0..plant.crude_count() {
        let weight = weight_by(plant, weighing, c);
        least = least.min(weight);
        most = most.max(weight);
    }
    most.saturating_sub(least).max(1)
}

/// A denominator that gives the mean exactly, or else well enough.
fn denominator(spread: i64, total: i64) -> i64
    ensures { pos 0 <ℤ result }
{
    if 0 < total && total <= 1024 && total.saturating_mul(spread) <= MOST_REACH {
        total
    } else if spread < 64 {
        1024
    } else if spread < 4096 {
        16
    } else {
        1
    }
}

/// The weights, each less a base.
fn weights_from(plant: &Plant, weighing: Weighing, base: i64) -> [i64; 12] {
    let mut weights = [0; 12];
    for c in 0..MOST_CRUDES {
        if c < plant.crude_count() {
            weights[usize::from(c)] = weight_by(plant, weighing, c).saturating_sub(base);
        }
    }
    weights
}

/// Whether the place holds crude that weighs more than the base.
fn has_heavy(plant: &Plant, p: u8, weighing: Weighing, base: i64) -> bool {
    (0..plant.crude_count()).any(|c| held(plant, p, c) > 0 && weight_by(plant, weighing, c) > base)
}

/// Whether the set does: else the cut would say nothing.
fn is_telling(plant: &Plant, places: u64, weighing: Weighing, base: i64) -> bool {
    (0..plant.place_count()).any(|p| has(places, p) && has_heavy(plant, p, weighing, base))
}

/// The cut that holds the set against what the mix weighs on the average, where it says anything.
pub(crate) fn cut_at(
    plant: &Plant,
    places: u64,
    weighing: Weighing,
    mix: Mix,
) -> Option<CutParams> {
    let q = denominator(spread(plant, weighing), mix.total);
    let mean = mix.scaled_mean(q)?;
    let base = mean.div_euclid(q);
    if !is_telling(plant, places, weighing, base) {
        return None;
    }
    let p = mean.rem_euclid(q);
    Some(CutParams {
        places,
        p,
        q: if p == 0 { 1 } else { q },
        weights: weights_from(plant, weighing, base),
    })
}
