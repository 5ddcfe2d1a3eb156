ghost use Rattle.std.specs.Prelude.{◌≡◌, ◌<◌, map, IfOk};
ghost use Rattle.plant_model.specs.Parts.{kind_from, ops_of, place_count_of, place_of, resolved, seen_parts, without_demand};
ghost use Rattle.plant_model.specs.inside.SoundParts.{FewEntries, SoundOperation, SoundParts};

use crate::details::{Op, OpKind, PlaceKind};
use crate::named::place_by_name;
use crate::numbers::unsigned_range;
use crate::parts::{OperationPart, Pair, Parts, TankPart};
use crate::place_part::place_part;
use std::alloc::{AllocError, Global};

fn clear_demands(tanks: &mut [TankPart])
    ensures { tanks.new ≡ map without_demand tanks.old }
{
    for tank in tanks.iter_mut() {
        tank.demand = Pair { lo: 0, hi: 0 };
    }
}

/// The parts as a plant is seen: storage tanks have no demand.
pub(crate) fn without_storage_demand(mut parts: Parts) -> Parts
    ensures { result ≡ seen_parts parts }
{
    clear_demands(parts.storage.as_mut_slice());
    parts
}

fn kind_from(source: PlaceKind) -> OpKind
    ensures { result ≡ kind_from source }
{
    match source {
        PlaceKind::Vessel => OpKind::Unload,
        PlaceKind::Storage => OpKind::Transfer,
        PlaceKind::Charging | PlaceKind::Unit => OpKind::Charge,
    }
}

/// The kind of the place with the number.
fn kind_at(parts: &Parts, number: usize) -> PlaceKind
    requires { number < place_count_of parts.now }
    ensures { result ≡ (place_of parts.now number).kind }
{
    place_part(parts, number).unwrap().kind()
}

/// The operation with its places by number.
fn resolve(parts: &Parts, operation: &OperationPart) -> Op
    requires parts { SoundParts parts.now }
    requires operation { SoundOperation parts.now operation.now }
    ensures { result ≡ resolved parts.now operation.now }
{
    let from = place_by_name(parts, operation.from.as_slice());
    let to = place_by_name(parts, operation.to.as_slice());
    Op {
        from: from as u8,
        to: to as u8,
        kind: kind_from(kind_at(parts, from)),
        rate: unsigned_range(operation.rate),
        volume: unsigned_range(operation.volume),
        window: unsigned_range(operation.window),
    }
}

/// The table of the operations.
pub(crate) fn resolve_all(alloc: Global, parts: &Parts) -> Result<Vec<Op>, AllocError>
    requires { SoundParts parts.now }
    ensures { IfOk result (λ ops. ops.items ≡ ops_of parts.now) }
{
    let mut ops = Vec::new(alloc);
    for operation in parts.operations.as_slice() {
        ops.push(resolve(parts, operation))?;
    }
    Ok(ops)
}
