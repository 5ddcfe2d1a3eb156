//! How a charge that breaks a limit is repaired: what fills its tank before is changed by so much that the mix would meet
//! the limit.

use crate::decoded::{Decoded, Run};
use crate::facts::{Facts, OpFacts, PropertyFacts};
use crate::moves::Wishes;
use crate::numbers::weighted;
use crate::random::Random;
use std::alloc::AllocError;

/// The most by which a volume is changed.
const MOST_CHANGE: i128 = 10_000_000;

/// A volume is off by less than this by chance, either way.
const CHANCE: usize = 3;

/// A limit, and by how much the content of a tank is beyond it for each unit of spread.
#[derive(Clone, Copy)]
struct Breach {
    /// The number of the property.
    property: usize,
    limit: u32,
    beyond: i128,
}

/// By how much the content is beyond the limit.
fn beyond(content: i128, limit: u32, volume: i128) -> i128 {
    content.saturating_sub(volume.saturating_mul(limit.into()))
}

/// The worse of the two limits of a property, by what the tank holds.
fn breach_of(run: &Run, property: usize, facts: &PropertyFacts, limits: (u32, u32)) -> Breach {
    let total = i128::from(run.source.total());
    let content = i128::from(weighted(&run.source, facts.values.as_slice()));
    let above = beyond(content, limits.1, total);
    let below = beyond(content, limits.0, total).saturating_neg();
    let spread = i128::from(facts.spread.max(1));
    if above > below {
        Breach {
            property,
            limit: limits.1,
            beyond: above.checked_div(spread).unwrap_or(0),
        }
    } else {
        Breach {
            property,
            limit: limits.0,
            beyond: below.checked_div(spread).unwrap_or(0),
        }
    }
}

/// The worst limit of the charge that its tank breaks, where it breaks one.
fn worst_breach(facts: &Facts, op: &OpFacts, run: &Run) -> Option<Breach> {
    let mut worst: Option<Breach> = None;
    let mut most = 0i128;
    for (k, property) in facts.properties.iter().enumerate() {
        let limits = op.limits.get(k).copied()?;
        let breach = breach_of(run, k, property, limits);
        if breach.beyond > most {
            most = breach.beyond;
            worst = Some(breach);
        }
    }
    worst
}

/// The first charge that breaks a limit.
fn first_broken(decoded: &Decoded) -> Option<usize> {
    decoded.runs.iter().position(|run| run.excess > 0)
}

/// One of the operations before that place that fill the tank.
fn any_filling(
    facts: &Facts,
    decoded: &Decoded,
    at: usize,
    tank: u8,
    random: &mut Random,
) -> Option<usize> {
    let mut fillings = 0usize;
    let mut chosen = None;
    for (j, run) in decoded.runs.iter().take(at).enumerate() {
        if facts.op(run.item.op).map_or(false, |op| op.op.to == tank) {
            fillings = fillings.saturating_add(1);
            if random.once_in(fillings) {
                chosen = Some(j);
            }
        }
    }
    chosen
}

/// By how much more has to flow in for the tank to come to the limit.
fn change(facts: &Facts, breach: Breach, broken: &Run, filling: &Run) -> Option<i128> {
    let property = facts.properties.get(breach.property)?;
    let values = property.values.as_slice();
    let held = broken.source.total();
    let poured = i128::from(filling.source.total());
    let over = beyond(
        i128::from(weighted(&broken.source, values)),
        breach.limit,
        held.into(),
    );
    let denser = beyond(
        i128::from(weighted(&filling.source, values)),
        breach.limit,
        poured,
    );
    let change = over
        .saturating_neg()
        .saturating_mul(poured)
        .checked_div(denser)?;
    if -MOST_CHANGE <= change && change <= MOST_CHANGE {
        Some(change)
    } else {
        None
    }
}

/// The volume after the change.
fn mended(volume: u32, change: i128, chance: usize) -> Option<u32> {
    let wanted = i128::from(volume)
        .saturating_add(change)
        .saturating_add(chance as i128)
        .saturating_sub(CHANCE as i128 - 1);
    if wanted < 1 {
        return None;
    }
    u32::try_from(wanted).ok()
}

/// Which of the operations is to move how much, so that the first charge that breaks a limit does not.
fn cure(facts: &Facts, decoded: &Decoded, random: &mut Random) -> Option<(usize, u32)> {
    let at = first_broken(decoded)?;
    let broken = decoded.runs.get(at)?;
    let op = facts.op(broken.item.op)?;
    let breach = worst_breach(facts, op, broken)?;
    let j = any_filling(facts, decoded, at, op.op.from, random)?;
    let filling = decoded.runs.get(j)?;
    let change = change(facts, breach, broken, filling)?;
    let wanted = mended(filling.volume, change, random.below(2 * CHANCE - 1))?;
    Some((j, wanted))
}

/// Makes wishes of what was decoded, in which the first charge that breaks a limit may meet it. Answers whether
/// there are such.
pub(crate) fn repair(
    facts: &Facts,
    decoded: &Decoded,
    most: usize,
    wishes: &mut Wishes,
) -> Result<bool, AllocError> {
    let Some((at, wanted)) = cure(facts, decoded, &mut wishes.random) else {
        return Ok(false);
    };
    decoded.copy_items(most, &mut wishes.items)?;
    wishes.want(at, wanted);
    Ok(true)
}
