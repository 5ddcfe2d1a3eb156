ghost use Rattle.std.specs.Prelude.{◌≡◌, ◌≤◌, ◌<◌, ◌^◌, pos, MatchOption};
ghost use Rattle.limits.specs.declared.TheConstants.{MOST_BERTHS, MOST_DEMURRAGE, MOST_HORIZON, MOST_SLOTS, MOST_VOLUME};
ghost use Rattle.plant_model.specs.Parts.{place_count_of, vessel_info, storage_info, charging_info, unit_info};
ghost use Rattle.plant_model.specs.inside.PlaceParts.{IsPartAt, kind_of_part};
ghost use Rattle.plant_model.specs.inside.SoundParts.{IsWithin, IsPairWithin, levels_of};

use crate::details::{PlaceInfo, PlaceKind};
use crate::numbers::{unsigned, unsigned_range};
use crate::parts::{Pair, Parts, TankPart, UnitPart, VesselPart};

/// The entry of a place.
#[derive(Clone, Copy)]
pub(crate) enum PlacePart<'a> {
    Vessel(&'a VesselPart),
    Storage(&'a TankPart),
    Charging(&'a TankPart),
    Unit(&'a UnitPart),
}

impl PlacePart<'_> {
    pub(crate) fn kind(self) -> PlaceKind
        ensures { result ≡ kind_of_part self.entry }
    {
        match self {
            PlacePart::Vessel(_) => PlaceKind::Vessel,
            PlacePart::Storage(_) => PlaceKind::Storage,
            PlacePart::Charging(_) => PlaceKind::Charging,
            PlacePart::Unit(_) => PlaceKind::Unit,
        }
    }
}

/// The entry of the place with the number, where there is one.
#[tactic(auto, unfolding(crate::specs::Parts::place_count_of))]
pub(crate) fn place_part(parts: &Parts, number: usize) -> Option<PlacePart<'_>>
    ensures { MatchOption result (place_count_of parts.now ≤ number) (IsPartAt parts.now number) }
{
    let vessels = parts.vessels.as_slice();
    let storage = parts.storage.as_slice();
    let charging = parts.charging.as_slice();
    let units = parts.units.as_slice();
    if number < vessels.len() {
        return Some(PlacePart::Vessel(&vessels[number]));
    }
    let in_tanks = number - vessels.len();
    if in_tanks < storage.len() {
        return Some(PlacePart::Storage(&storage[in_tanks]));
    }
    let in_charging = in_tanks - storage.len();
    if in_charging < charging.len() {
        return Some(PlacePart::Charging(&charging[in_charging]));
    }
    let in_units = in_charging - charging.len();
    if in_units < units.len() {
        return Some(PlacePart::Unit(&units[in_units]));
    }
    None
}

/// Nothing of what some kinds of place have.
const NOTHING: PlaceInfo = PlaceInfo {
    kind: PlaceKind::Vessel,
    arrival: 0,
    min: 0,
    max: 0,
    demand: (0, 0),
    continuous: false,
    charges: (0, 0),
    berth: 0,
    demurrage: 0,
};

pub(crate) fn vessel_info(vessel: &VesselPart) -> PlaceInfo
    requires arrival { IsWithin (pos 0) (pos MOST_HORIZON) vessel.now.arrival }
    requires berth { IsWithin (pos 1) (pos MOST_BERTHS) vessel.now.berth }
    requires demurrage { IsWithin (pos 0) (pos MOST_DEMURRAGE) vessel.now.demurrage }
    ensures { result ≡ vessel_info vessel.now }
{
    PlaceInfo {
        kind: PlaceKind::Vessel,
        arrival: unsigned(vessel.arrival),
        berth: unsigned(vessel.berth),
        demurrage: unsigned(vessel.demurrage),
        ..NOTHING
    }
}

pub(crate) fn storage_info(tank: &TankPart) -> PlaceInfo
    requires { IsPairWithin (pos 0) (pos MOST_VOLUME) (levels_of tank.now) }
    ensures { result ≡ storage_info tank.now }
{
    PlaceInfo {
        kind: PlaceKind::Storage,
        min: unsigned(tank.min),
        max: unsigned(tank.max),
        ..NOTHING
    }
}

pub(crate) fn charging_info(tank: &TankPart) -> PlaceInfo
    requires levels { IsPairWithin (pos 0) (pos MOST_VOLUME) (levels_of tank.now) }
    requires demand { IsPairWithin (pos 0) (pos MOST_VOLUME) tank.now.demand }
    ensures { result ≡ charging_info tank.now }
{
    PlaceInfo {
        kind: PlaceKind::Charging,
        min: unsigned(tank.min),
        max: unsigned(tank.max),
        demand: unsigned_range(tank.demand),
        ..NOTHING
    }
}

pub(crate) fn unit_info(part: &UnitPart) -> PlaceInfo
    requires { IsPairWithin (pos 0) (pos MOST_SLOTS) part.now.charges }
    ensures { result ≡ unit_info part.now }
{
    PlaceInfo {
        kind: PlaceKind::Unit,
        continuous: part.continuous,
        charges: unsigned_range(part.charges),
        ..NOTHING
    }
}
