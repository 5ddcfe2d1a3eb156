//! How an operation is chosen to follow others.

ghost use Rattle.std.specs.Prelude.{◌≡◌, ◌↔◌, ℕ, ◌+◌, ◌<◌, ◌≤◌, ◌||◌, nat_le, max, All, IfSome, IsTrue, sum};
ghost use Rattle.replay_core.specs.declared.timed.Timed.{Timed};
ghost use Rattle.limits.specs.declared.TheConstants.{MOST_VOLUME};
ghost use Rattle.plant_model.specs.Parts.{op_count_of, op_of, place_count_of, place_of};
ghost use Rattle.replay_core.specs.declared.order.Order.TheVariants.{ByStart};
ghost use Rattle.replay_core.specs.Rules.{is_unit};
ghost use Rattle.replay_core.specs.State.{held_of, state_after};
ghost use Rattle.greedy_plan.specs.Runs.{IsRoom, Takes};
ghost use Rattle.greedy_plan.specs.Greedy.{waits_until, earliest_start, fits, choice_of};

use crate::room::Room;
use limits::MOST_VOLUME;
use plant_model::{PlaceKind, Plant};
use replay_core::{Replay, Timed};

/// Until when operation v waits for another.
fn waits_until(plant: &Plant, v: u8, other: &Timed) -> u32
    requires known { v < op_count_of plant.now }
    requires other_known { other.now.op < op_count_of plant.now }
    ensures { result ≡ waits_until plant.now v other.now }
{
    if plant.refused_at_once(other.op, v) {
        other.start.max(other.end)
    } else {
        other.start
    }
}

/// The earliest minute of its window at which operation v can start behind the others.
#[tactic(auto, unfolding(crate::specs::Greedy::earliest_start))]
fn earliest_start(plant: &Plant, before: &[Timed], v: u8) -> u32
    requires known { v < op_count_of plant.now }
    requires all_known { All (λ (t : Timed). t.op < op_count_of plant.now) before.now }
    ensures value { result ≡ earliest_start plant.now before.now v }
    ensures opened { (op_of plant.now v).window.0 ≤ result }
{
    let mut start = plant.op(v).window.0;
    for step in before {
        start = start.max(waits_until(plant, v, step));
    }
    start
}

/// What a vessel or tank holds above its minimum.
fn spare(replay: &Replay, plant: &Plant, p: u8) -> u64
    requires place { p < place_count_of plant.now }
    requires same { replay.now.parts ≡ plant.now }
    ensures { (volume : ℕ) → 1 ≤ volume
        → ((place_of plant.now p).min + volume ≤ sum (held_of (state_after plant.now replay.now.steps) p))
        ↔ (volume ≤ result) }
{
    replay
        .held(p)
        .total()
        .saturating_sub(plant.place(p).min.into())
}

/// What a tank has room for below its maximum, and of a unit more than any volume.
fn open_room(replay: &Replay, plant: &Plant, p: u8) -> u64
    requires place { p < place_count_of plant.now }
    requires same { replay.now.parts ≡ plant.now }
    ensures { (volume : ℕ) → 1 ≤ volume → volume ≤ MOST_VOLUME
        → IsTrue (is_unit (place_of plant.now p).kind
        || nat_le (sum (held_of (state_after plant.now replay.now.steps) p) + volume) (place_of plant.now p).max)
        ↔ (volume ≤ result) }
{
    let place = plant.place(p);
    match place.kind {
        PlaceKind::Unit => MOST_VOLUME.into(),
        PlaceKind::Vessel | PlaceKind::Storage | PlaceKind::Charging => {
            u64::from(place.max).saturating_sub(replay.held(p).total())
        }
    }
}

/// What operation v may move from that minute on.
fn room(replay: &Replay, plant: &Plant, v: u8, start: u32) -> Room
    requires known { v < op_count_of plant.now }
    requires same { replay.now.parts ≡ plant.now }
    requires opened { (op_of plant.now v).window.0 ≤ start }
    ensures room { IsRoom result }
    ensures in_window { start + result.minutes ≡ max start (op_of plant.now v).window.1 }
    ensures takes { (volume minutes : ℕ)
        → IsTrue (fits plant.now replay.now.steps
        (record { op = v; start = start; end = start + minutes; volume = volume }))
        ↔ Takes result volume minutes }
{
    plant.sound();
    let op = plant.op(v);
    let most = spare(replay, plant, op.from).min(open_room(replay, plant, op.to));
    Room {
        rate: op.rate,
        least: op.volume.0,
        most: most.min(op.volume.1.into()) as u32,
        minutes: op.window.1.saturating_sub(start),
    }
}

/// Operation v with as much as it can move behind those that have run, in the least time for that; or none, where
/// it can move nothing.
pub(crate) fn choice(replay: &Replay, plant: &Plant, before: &[Timed], v: u8) -> Option<Timed>
    requires known { v < op_count_of plant.now }
    requires all_known { All (λ (t : Timed). t.op < op_count_of plant.now) before.now }
    requires same { replay.now ≡ record { parts = plant.now; order = ByStart; steps = before.now } }
    ensures value { result ≡ choice_of plant.now before.now v }
    ensures op { IfSome result (λ t. t.op ≡ v) }
{
    plant.sound();
    let start = earliest_start(plant, before, v);
    let run = room(replay, plant, v, start).greatest()?;
    Some(Timed {
        op: v,
        start,
        end: start + run.minutes,
        volume: run.volume,
    })
}
