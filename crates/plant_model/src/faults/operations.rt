ghost use Rattle.std.specs.Prelude.{◌≡◌, length};
ghost use Rattle.std.specs.Result.{result_err};
ghost use Rattle.item_lists.specs.Faults.{first_of};
ghost use Rattle.plant_model.specs.Parts.{kind_named, arrival_named};
ghost use Rattle.plant_model.specs.Faults.{is_route, is_window, limit_count, are_limits, unknown_place_faults, route_faults, range_faults, operation_faults};
ghost use Rattle.plant_model.specs.inside.SoundParts.{FewEntries};

use crate::details::PlaceKind;
use crate::faults::each::{expect_at, first_of_each};
use crate::named::place_by_name;
use crate::numbers::{all_ranges, is_range};
use crate::parts::{OperationPart, Pair, Parts};
use crate::place::{Key, PlantFault, Section};
use crate::place_part::place_part;
use limits::{MOST_PROPERTY, MOST_RATE, MOST_VOLUME};

/// The kind of the place with the name, where there is one.
fn kind_named(parts: &Parts, name: &[u8]) -> Option<PlaceKind>
    requires { FewEntries parts.now }
    ensures { result ≡ kind_named parts.now name.now }
{
    match place_part(parts, place_by_name(parts, name)) {
        Some(part) => Some(part.kind()),
        None => None,
    }
}

/// The arrival of the vessel with the name, and 0 for other places.
#[tactic(auto, unfolding(crate::specs::Parts::arrival_named))]
fn arrival_named(parts: &Parts, name: &[u8]) -> i64
    requires { FewEntries parts.now }
    ensures { result ≡ arrival_named parts.now name.now }
{
    let vessels = parts.vessels.as_slice();
    let number = place_by_name(parts, name);
    if number < vessels.len() {
        vessels[number].arrival
    } else {
        0
    }
}

/// Faults where `from` or `to` names no place.
#[tactic(auto, using(item_lists::proofs::FaultLaws::first_fault))]
fn unknown_place_fault(
    parts: &Parts,
    index: u32,
    operation: &OperationPart,
) -> Result<(), PlantFault>
    requires { FewEntries parts.now }
    ensures { result_err result ≡ first_of (unknown_place_faults parts.now index operation.now) }
{
    let from = kind_named(parts, operation.from.as_slice());
    let to = kind_named(parts, operation.to.as_slice());
    expect_at(from.is_some(), 20, Section::Operations, index, Key::From)?;
    expect_at(to.is_some(), 20, Section::Operations, index, Key::To)
}

fn is_route(from: Option<PlaceKind>, to: Option<PlaceKind>) -> bool
    ensures { result ≡ is_route from to }
{
    match (from, to) {
        (Some(PlaceKind::Vessel), Some(PlaceKind::Storage)) => true,
        (Some(PlaceKind::Storage), Some(PlaceKind::Charging)) => true,
        (Some(PlaceKind::Charging), Some(PlaceKind::Unit)) => true,
        _ => false,
    }
}

fn route_fault(parts: &Parts, index: u32, operation: &OperationPart) -> Result<(), PlantFault>
    requires { FewEntries parts.now }
    ensures { result_err result ≡ first_of (route_faults parts.now index operation.now) }
{
    let from = kind_named(parts, operation.from.as_slice());
    let to = kind_named(parts, operation.to.as_slice());
    expect_at(is_route(from, to), 21, Section::Operations, index, Key::To)
}

fn is_window(horizon: i64, arrival: i64, window: Pair) -> bool
    ensures { result ≡ is_window horizon arrival window }
{
    0 <= window.lo && window.lo < window.hi && window.hi <= horizon && arrival <= window.lo
}

/// How many limits an operation has that draws from a place of the kind.
fn limit_count(properties: usize, source: Option<PlaceKind>) -> usize
    ensures { result ≡ limit_count properties source }
{
    match source {
        Some(PlaceKind::Charging) => properties,
        _ => 0,
    }
}

fn are_limits(count: usize, limits: &[Pair]) -> bool
    ensures { result ≡ are_limits count limits.now }
{
    limits.len() == count && all_ranges(0, MOST_PROPERTY as i64, limits)
}

fn has_window(parts: &Parts, operation: &OperationPart) -> bool
    requires { FewEntries parts.now }
    ensures { result ≡ is_window parts.now.horizon (arrival_named parts.now operation.now.from) operation.now.window }
{
    let arrival = arrival_named(parts, operation.from.as_slice());
    is_window(parts.horizon, arrival, operation.window)
}

fn has_limits(parts: &Parts, operation: &OperationPart) -> bool
    requires { FewEntries parts.now }
    ensures { result
        ≡ are_limits (limit_count (length parts.now.properties) (kind_named parts.now operation.now.from))
        operation.now.limits }
{
    let source = kind_named(parts, operation.from.as_slice());
    let count = limit_count(parts.properties.as_slice().len(), source);
    are_limits(count, operation.limits.as_slice())
}

/// Faults of the rate, the volume, the window and the limits.
#[tactic(auto, using(item_lists::proofs::FaultLaws::first_fault))]
fn range_fault(parts: &Parts, index: u32, operation: &OperationPart) -> Result<(), PlantFault>
    requires { FewEntries parts.now }
    ensures { result_err result ≡ first_of (range_faults parts.now index operation.now) }
{
    expect_at(
        is_range(0, MOST_RATE as i64, operation.rate),
        22,
        Section::Operations,
        index,
        Key::Rate,
    )?;
    expect_at(
        is_range(1, MOST_VOLUME as i64, operation.volume),
        22,
        Section::Operations,
        index,
        Key::Volume,
    )?;
    expect_at(
        has_window(parts, operation),
        22,
        Section::Operations,
        index,
        Key::Window,
    )?;
    expect_at(
        has_limits(parts, operation),
        22,
        Section::Operations,
        index,
        Key::Limits,
    )
}

/// Where operations lead, and their ranges.
#[tactic(auto, using(item_lists::proofs::FaultLaws::first_fault), unfolding(crate::specs::Faults::operation_faults))]
pub(crate) fn operations(parts: &Parts) -> Result<(), PlantFault>
    requires { FewEntries parts.now }
    ensures { result_err result ≡ first_of (operation_faults parts.now) }
{
    let operations = parts.operations.as_slice();
    first_of_each(
        operations,
        |index: u32, operation: &OperationPart|
            requires { FewEntries parts.now }
        { unknown_place_fault(parts, index, operation) },
    )?;
    first_of_each(
        operations,
        |index: u32, operation: &OperationPart|
            requires { FewEntries parts.now }
        { route_fault(parts, index, operation) },
    )?;
    first_of_each(
        operations,
        |index: u32, operation: &OperationPart|
            requires { FewEntries parts.now }
        { range_fault(parts, index, operation) },
    )
}
