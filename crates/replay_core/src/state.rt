//! What every place holds: one list of amounts a place.

ghost use Rattle.std.specs.Prelude.{◌≡◌, ◌≢◌, ℕ, ◌+◌, ◌<◌, ◌≤◌, ◌^◌, length, sum, IfOk};
ghost use Rattle.crude_amounts.specs.Draw.{draw_of};
ghost use Rattle.plant_model.specs.Parts.{crude_count_of, place_count_of, place_of, initial_of};
ghost use Rattle.plant_model.specs.Sound.{HoldsCrude};
ghost use Rattle.plant_model.specs.Relations.{is_unload};
ghost use Rattle.replay_core.specs.Rules.{is_vessel, is_charging, is_unit};
ghost use Rattle.replay_core.specs.State.{held_of, initial_state, moved};
ghost use Rattle.replay_core.specs.inside.Levels.{CanMove};

use crude_amounts::Amounts;
use plant_model::{OpKind, PlaceKind, Plant};
use std::alloc::{AllocError, Global};

pub(crate) fn is_unit(kind: PlaceKind) -> bool
    ensures { result ≡ is_unit kind }
{
    matches!(kind, PlaceKind::Unit)
}

pub(crate) fn is_vessel(kind: PlaceKind) -> bool
    ensures { result ≡ is_vessel kind }
{
    matches!(kind, PlaceKind::Vessel)
}

pub(crate) fn is_charging(kind: PlaceKind) -> bool
    ensures { result ≡ is_charging kind }
{
    matches!(kind, PlaceKind::Charging)
}

pub(crate) fn is_unload(kind: OpKind) -> bool
    ensures { result ≡ is_unload kind }
{
    matches!(kind, OpKind::Unload)
}

/// What a vessel or a tank holds at first.
fn first_amounts(plant: &Plant, p: u8) -> Amounts
    requires place { p < place_count_of plant.now }
    requires holds { HoldsCrude (place_of plant.now p).kind }
    ensures { result ≡ held_of (initial_state plant.now) p }
{
    plant.sound();
    let mut amounts = Amounts::zero(plant.crude_count());
    for c in 0..plant.crude_count() {
        amounts.set(c, plant.initial(p, c).into());
    }
    amounts
}

/// What the place holds before the first operation.
fn amounts_at_first(plant: &Plant, p: u8) -> Amounts
    requires { p < place_count_of plant.now }
    ensures { result ≡ held_of (initial_state plant.now) p }
{
    if is_unit(plant.place(p).kind) {
        Amounts::zero(plant.crude_count())
    } else {
        first_amounts(plant, p)
    }
}

/// What every place holds before the first operation.
pub(crate) fn first_state(alloc: Global, plant: &Plant) -> Result<Vec<Amounts>, AllocError>
    ensures { IfOk result (λ state. state.items ≡ initial_state plant.now) }
{
    let mut state = Vec::new(alloc);
    for p in 0..plant.place_count() {
        state.push(amounts_at_first(plant, p))?;
    }
    Ok(state)
}

/// Moves the volume from one place to another, and gives what it held of each crude.
pub(crate) fn move_volume(state: &mut [Amounts], from: u8, to: u8, volume: u64) -> Amounts
    requires { CanMove state.old from to volume }
    ensures draw { result ≡ draw_of (held_of state.old from) volume }
    ensures volume { sum result ≡ volume }
    ensures moved { state.new ≡ moved state.old from to result }
{
    let mut source = state[from as usize];
    let drawn = source.draw(volume);
    state[from as usize] = source;
    let mut target = state[to as usize];
    target.add(&drawn);
    state[to as usize] = target;
    drawn
}
