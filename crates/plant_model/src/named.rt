ghost use Rattle.std.specs.Prelude.{◌≡◌, ◌+◌, ◌<◌, ◌≤◌, ◌^◌, ◌==◌, if◌then◌else◌, ℕ, List, map, length};
ghost use Rattle.plant_model.specs.Parts.{position_of, place_by_name_of};
ghost use Rattle.plant_model.specs.inside.SoundParts.{FewEntries};

use crate::parts::{CrudePart, Name, OperationPart, Parts, TankPart, UnitPart, VesselPart};

/// An entry that has a name.
pub(crate) trait Named {
    ghost name_of: { Self → List ℕ };

    fn name(&self) -> &[u8]
        ensures { result.now ≡ name_of self.now };
}

impl Named for Name {
    ghost name_of = { λ name. name };

    fn name(&self) -> &[u8] {
        self.as_slice()
    }
}

impl Named for CrudePart {
    ghost name_of = { λ crude. crude.name };

    fn name(&self) -> &[u8] {
        self.name.as_slice()
    }
}

impl Named for VesselPart {
    ghost name_of = { λ vessel. vessel.name };

    fn name(&self) -> &[u8] {
        self.name.as_slice()
    }
}

impl Named for TankPart {
    ghost name_of = { λ tank. tank.name };

    fn name(&self) -> &[u8] {
        self.name.as_slice()
    }
}

impl Named for UnitPart {
    ghost name_of = { λ part. part.name };

    fn name(&self) -> &[u8] {
        self.name.as_slice()
    }
}

impl Named for OperationPart {
    ghost name_of = { λ operation. operation.name };

    fn name(&self) -> &[u8] {
        self.name.as_slice()
    }
}

/// The number of the first entry with the name, or the count of entries where there is none.
pub(crate) fn first_named<T: Named>(entries: &[T], name: &[u8]) -> usize
    ensures value { result ≡ position_of name.now (map T.name_of entries.now) }
    ensures within { result ≤ length entries.now }
{
    for (number, entry) in entries.iter().enumerate() {
        if entry.name() == name {
            return number;
        }
    }
    entries.len()
}

/// The first place in two lists, given the first in each.
fn first_in_both(found: usize, count: usize, found_after: usize) -> usize
    requires { count + found_after < 2 ^ 64 }
    ensures { result ≡ (if found == count then count + found_after else found) }
{
    if found == count {
        count + found_after
    } else {
        found
    }
}

/// The number of the first place with the name, or the count of places where there is none.
pub(crate) fn place_by_name(parts: &Parts, name: &[u8]) -> usize
    requires { FewEntries parts.now }
    ensures { result ≡ place_by_name_of parts.now name.now }
{
    let vessels = parts.vessels.as_slice();
    let storage = parts.storage.as_slice();
    let charging = parts.charging.as_slice();
    let units = parts.units.as_slice();
    let storage_end = vessels.len() + storage.len();
    let charging_end = storage_end + charging.len();
    let in_storage = first_in_both(
        first_named(vessels, name),
        vessels.len(),
        first_named(storage, name),
    );
    let in_charging = first_in_both(in_storage, storage_end, first_named(charging, name));
    first_in_both(in_charging, charging_end, first_named(units, name))
}
