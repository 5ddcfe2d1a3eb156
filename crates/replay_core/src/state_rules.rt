//! The rules on an operation and the state before it.

ghost use Rattle.std.specs.Prelude.{◌≡◌, ◌<◌, ◌≤◌, ◌^◌, ℕ, true, length, sum};
ghost use Rattle.std.specs.List.{list_all, range_with_len};
ghost use Rattle.plant_model.specs.Parts.{op_count_of, op_of, property_count_of, crude_count_of, place_count_of};
ghost use Rattle.plant_model.specs.declared.details.OpKind.TheVariants.{Charge};
ghost use Rattle.replay_core.specs.Rules.{leaves_minimum, keeps_maximum, content_of, meets_limit, meets_limits};
ghost use Rattle.replay_core.specs.State.{held_of, drawn_of};

use crate::own_rules::is_inside;
use crate::state::is_unit;
use crate::timed::Timed;
use crude_amounts::Amounts;
use plant_model::{OpKind, Plant};

#[tactic(auto, unfolding(crate::specs::Rules::leaves_minimum))]
pub(crate) fn leaves_minimum(plant: &Plant, state: &[Amounts], t: Timed) -> bool
    requires known { t.op < op_count_of plant.now }
    requires places { length state.now ≡ place_count_of plant.now }
    ensures value { result ≡ leaves_minimum plant.now state.now t }
    ensures there { result ≡ true → t.volume ≤ sum (held_of state.now (op_of plant.now t.op).from) }
{
    let source = plant.op(t.op).from;
    u64::from(plant.place(source).min) + u64::from(t.volume) <= state[source as usize].total()
}

#[tactic(auto, unfolding(crate::specs::Rules::keeps_maximum))]
pub(crate) fn keeps_maximum(plant: &Plant, state: &[Amounts], t: Timed) -> bool
    requires known { t.op < op_count_of plant.now }
    requires places { length state.now ≡ place_count_of plant.now }
    ensures { result ≡ keeps_maximum plant.now state.now t }
{
    let target = plant.op(t.op).to;
    let place = plant.place(target);
    is_unit(place.kind)
        || state[target as usize].total() + u64::from(t.volume) <= u64::from(place.max)
}

/// What the amounts hold of property k in all.
#[tactic(auto, unfolding(crate::specs::Rules::content_of))]
fn content(plant: &Plant, k: u8, amounts: &Amounts) -> u64
    requires property { k < property_count_of plant.now }
    requires crudes { length amounts.now ≡ crude_count_of plant.now }
    requires total { sum amounts.now ≤ 2 ^ 32 }
    ensures { result ≡ content_of plant.now k amounts.now }
{
    let mut content = 0;
    for c in 0..plant.crude_count() {
        content += u64::from(plant.property(c, k)) * amounts.get(c);
    }
    content
}

#[tactic(auto, unfolding(crate::specs::Rules::meets_limit))]
fn meets_limit(plant: &Plant, v: u8, volume: u32, drawn: &Amounts, k: u8) -> bool
    requires known { v < op_count_of plant.now }
    requires charge { (op_of plant.now v).kind ≡ Charge }
    requires property { k < property_count_of plant.now }
    requires crudes { length drawn.now ≡ crude_count_of plant.now }
    requires total { sum drawn.now ≤ 2 ^ 32 }
    ensures { result ≡ meets_limit plant.now v volume drawn.now k }
{
    let (low, high) = plant.limit(v, k);
    let volume = u64::from(volume);
    is_inside(
        u64::from(low) * volume,
        u64::from(high) * volume,
        content(plant, k, drawn),
    )
}

/// Every property of what is drawn lies within the limits of the charge.
fn meets_each_limit(plant: &Plant, v: u8, volume: u32, drawn: &Amounts) -> bool
    requires known { v < op_count_of plant.now }
    requires charge { (op_of plant.now v).kind ≡ Charge }
    requires crudes { length drawn.now ≡ crude_count_of plant.now }
    requires total { sum drawn.now ≤ 2 ^ 32 }
    ensures { result ≡ list_all (meets_limit plant.now v volume drawn.now)
        (range_with_len 0 (property_count_of plant.now)) }
{
    (0..plant.property_count()).all(|k| meets_limit(plant, v, volume, drawn, k))
}

#[tactic(auto, unfolding(crate::specs::Rules::meets_limits, crate::specs::State::drawn_of))]
pub(crate) fn meets_limits(plant: &Plant, state: &[Amounts], t: Timed) -> bool
    requires known { t.op < op_count_of plant.now }
    requires places { length state.now ≡ place_count_of plant.now }
    requires some { 1 ≤ t.volume }
    requires there { t.volume ≤ sum (held_of state.now (op_of plant.now t.op).from) }
    requires total { sum (held_of state.now (op_of plant.now t.op).from) ≤ 2 ^ 32 }
    requires crudes { length (held_of state.now (op_of plant.now t.op).from) ≡ crude_count_of plant.now }
    ensures { result ≡ meets_limits plant.now state.now t }
{
    let op = plant.op(t.op);
    if op.kind != OpKind::Charge {
        return true;
    }
    let mut source = state[op.from as usize];
    let drawn = source.draw(t.volume.into());
    meets_each_limit(plant, t.op, t.volume, &drawn)
}
