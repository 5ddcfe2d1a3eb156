ghost use Rattle.std.specs.Prelude.{◌≡◌, ◌≢◌, ◌↔◌, IfOk, MatchResult, ◌<◌, ◌≤◌, ℕ, ℤ, pos, neg_ℤ, ◌≤ℤ◌, map, length, slice_index_or};
ghost use Rattle.limits.specs.declared.TheConstants.{MOST_CRUDES, MOST_HORIZON, MOST_MARGIN, MOST_OPERATIONS, MOST_PLACES, MOST_PROPERTIES, MOST_PROPERTY, MOST_VOLUME};
ghost use Rattle.item_lists.specs.Faults.{first_of};
ghost use Rattle.plant_model.specs.declared.place.PlantFault.{PlantFault};
ghost use Rattle.plant_model.specs.declared.place.PlantNewFault.TheVariants.{Fault};
ghost use Rattle.plant_model.specs.Faults.{IsSound, IsRefusal, faults_of};
ghost use Rattle.plant_model.specs.Parts.{greatest_of, seen_parts};
ghost use Rattle.plant_model.specs.declared.details.OpKind.TheVariants.{Charge};

use crate::details::{Op, PlaceInfo};
use crate::faults::first_fault;
use crate::making::{resolve_all, without_storage_demand};
use crate::named::first_named;
use crate::numbers::{unsigned, unsigned_range};
use crate::parts::{CrudePart, OperationPart, Parts};
use crate::place::{PlantFault, PlantNewFault};
use crate::place_part::{
    PlacePart, charging_info, place_part, storage_info, unit_info, vessel_info,
};
use std::alloc::Global;
use std::marker::Model;

/// A plant in which nothing is wrong.
#[derive(Debug, Drop)]
pub struct Plant {
    parts: Parts,
    ops: Vec<Op>,
}

impl Model for Plant {
    ghost use Rattle.plant_model.specs.declared.parts.Parts.{Parts};
    ghost use Rattle.plant_model.specs.Sound.{IsPlant};

    ghost Value = { Parts };

    ghost view = { λ plant. plant.parts };

    ghost invariant = { λ plant. IsPlant plant.parts plant.ops.items };
}

/// Tests the parts, and then makes the table.
fn make(alloc: Global, parts: Parts) -> Result<Plant, PlantNewFault>
    ensures plant { IfOk result (λ plant. plant ≡ seen_parts parts) }
    ensures refusal { MatchResult result (λ _. IsSound parts) (IsRefusal parts) }
{
    let parts = without_storage_demand(parts);
    if let Err(fault) = first_fault(&parts) {
        return Err(PlantNewFault::Fault(fault));
    }
    match resolve_all(alloc, &parts) {
        Ok(ops) => Ok(Plant { parts, ops }),
        Err(_) => Err(PlantNewFault::Memory),
    }
}

impl Plant {
    ghost use Rattle.plant_model.specs.Parts.{horizon_of, crude_count_of, property_count_of, place_count_of, op_count_of, margin_of, property_of, place_of, initial_of, initial_amounts_of, natural, op_of, ops_of, limit_of, op_name_of, op_by_name_of, greatest_volume_of, place_name_of, crude_name_of, property_name_of};
    ghost use Rattle.plant_model.specs.inside.PlaceParts.{info_of_part, name_of_part, amounts_of_part};
    ghost use Rattle.plant_model.specs.Sound.{HoldsCrude, IsRange, SoundOp, SoundPlace, SoundPlant};
    ghost use Rattle.plant_model.specs.inside.SoundParts.{SoundCrude, SoundOperation, SoundPart, SoundParts};

    /// Refuses with the first fault of the parts. Want of memory is answered of parts without a fault
    /// alone.
    pub fn new(alloc: Global, parts: Parts) -> Result<Plant, PlantNewFault>
        ensures plant { IfOk result (λ plant. plant ≡ seen_parts parts) }
        ensures refusal { MatchResult result (λ _. IsSound parts) (IsRefusal parts) }
        ensures exactly { (fault : PlantFault)
            → (result ≡ Err (PlantNewFault.Fault fault)) ↔ (first_of (faults_of parts) ≡ Some fault) }
    {
        make(alloc, parts)
    }

    /// The parts that the plant was made of, where no storage tank has a demand.
    pub fn as_parts(&self) -> &Parts
        ensures { result.now ≡ self.now }
    {
        self.parts()
    }

    /// The parts, with all that holds of them.
    fn parts(&self) -> &Parts
        ensures value { result.now ≡ self.now }
        ensures sound { SoundParts result.now }
    {
        &self.parts
    }

    #[tactic(auto, unfolding(crate::specs::Parts::crude_count_of))]
    fn crude(&self, c: u8) -> &CrudePart
        requires { c < crude_count_of self.now }
        ensures at { result.now ≡ slice_index_or self.now.crudes c result.now }
        ensures sound { SoundCrude self.now result.now }
    {
        &self.parts().crudes.as_slice()[c as usize]
    }

    #[tactic(auto, unfolding(crate::specs::Parts::op_count_of))]
    fn operation(&self, v: u8) -> &OperationPart
        requires { v < op_count_of self.now }
        ensures at { result.now ≡ slice_index_or self.now.operations v result.now }
        ensures sound { SoundOperation self.now result.now }
    {
        &self.parts().operations.as_slice()[v as usize]
    }

    /// In minutes.
    #[tactic(auto, unfolding(crate::specs::Parts::horizon_of))]
    pub fn horizon(&self) -> u32
        ensures value { result ≡ horizon_of self.now }
        ensures some { 1 ≤ result }
        ensures most { result ≤ MOST_HORIZON }
    {
        unsigned(self.parts().horizon)
    }

    #[tactic(auto, unfolding(crate::specs::Parts::crude_count_of))]
    pub fn crude_count(&self) -> u8
        ensures value { result ≡ crude_count_of self.now }
        ensures some { 1 ≤ result }
        ensures most { result ≤ MOST_CRUDES }
    {
        self.parts().crudes.as_slice().len() as u8
    }

    #[tactic(auto, unfolding(crate::specs::Parts::property_count_of))]
    pub fn property_count(&self) -> u8
        ensures value { result ≡ property_count_of self.now }
        ensures most { result ≤ MOST_PROPERTIES }
    {
        self.parts().properties.as_slice().len() as u8
    }

    #[tactic(auto, unfolding(crate::specs::Parts::op_count_of))]
    pub fn op_count(&self) -> u8
        ensures value { result ≡ op_count_of self.now }
        ensures most { result ≤ MOST_OPERATIONS }
    {
        self.parts().operations.as_slice().len() as u8
    }

    /// What each volume unit of the crude earns when it is charged.
    #[tactic(auto, unfolding(crate::specs::Parts::crude_count_of, crate::specs::Parts::margin_of))]
    pub fn margin(&self, c: u8) -> i64
        requires { c < crude_count_of self.now }
        ensures value { result ≡ margin_of self.now c }
        ensures least { neg_ℤ (pos MOST_MARGIN) ≤ℤ result }
        ensures most { result ≤ℤ pos MOST_MARGIN }
    {
        self.crude(c).margin
    }

    /// Property k of crude c.
    #[tactic(auto, unfolding(crate::specs::Parts::crude_count_of, crate::specs::Parts::property_count_of, crate::specs::Parts::property_of))]
    pub fn property(&self, c: u8, k: u8) -> u32
        requires crude { c < crude_count_of self.now }
        requires property { k < property_count_of self.now }
        ensures value { result ≡ property_of self.now c k }
        ensures most { result ≤ MOST_PROPERTY }
    {
        unsigned(self.crude(c).properties.as_slice()[k as usize])
    }

    #[tactic(auto, unfolding(crate::specs::Parts::crude_count_of, crate::specs::Parts::crude_name_of))]
    pub fn crude_name(&self, c: u8) -> &[u8]
        requires { c < crude_count_of self.now }
        ensures { result.now ≡ crude_name_of self.now c }
    {
        self.crude(c).name.as_slice()
    }

    #[tactic(auto, unfolding(crate::specs::Parts::property_count_of, crate::specs::Parts::property_name_of))]
    pub fn property_name(&self, k: u8) -> &[u8]
        requires { k < property_count_of self.now }
        ensures { result.now ≡ property_name_of self.now k }
    {
        self.parts().properties.as_slice()[k as usize].as_slice()
    }

    #[tactic(auto, unfolding(crate::specs::Parts::op_count_of, crate::specs::Parts::op_name_of))]
    pub fn op_name(&self, v: u8) -> &[u8]
        requires { v < op_count_of self.now }
        ensures { result.now ≡ op_name_of self.now v }
    {
        self.operation(v).name.as_slice()
    }

    /// Property k of what the charge draws lies within these, ends counted.
    #[tactic(auto, unfolding(crate::specs::Parts::op_count_of, crate::specs::Parts::property_count_of, crate::specs::Parts::limit_of))]
    pub fn limit(&self, v: u8, k: u8) -> (u32, u32)
        requires op { v < op_count_of self.now }
        requires charge { (op_of self.now v).kind ≡ Charge }
        requires property { k < property_count_of self.now }
        ensures value { result ≡ limit_of self.now v k }
        ensures sound { IsRange 0 MOST_PROPERTY result }
    {
        unsigned_range(self.operation(v).limits.as_slice()[k as usize])
    }

    /// The entry of the place.
    fn part(&self, p: u8) -> PlacePart<'_>
        requires { p < place_count_of self.now }
        ensures info { place_of self.now p ≡ info_of_part result }
        ensures name { place_name_of self.now p ≡ name_of_part result }
        ensures amounts { initial_amounts_of self.now p ≡ map natural (amounts_of_part result) }
        ensures sound { SoundPart self.now result }
        ensures sound_place { SoundPlace self.now (place_of self.now p) }
    {
        place_part(self.parts(), p as usize).unwrap()
    }

    #[tactic(auto, unfolding(crate::specs::Parts::place_count_of))]
    pub fn place_count(&self) -> u8
        ensures value { result ≡ place_count_of self.now }
        ensures most { result ≤ MOST_PLACES }
    {
        let parts = self.parts();
        let tanks = parts.storage.as_slice().len() + parts.charging.as_slice().len();
        (parts.vessels.as_slice().len() + tanks + parts.units.as_slice().len()) as u8
    }

    /// What the plant says of the place.
    pub fn place(&self, p: u8) -> PlaceInfo
        requires { p < place_count_of self.now }
        ensures value { result ≡ place_of self.now p }
        ensures sound { SoundPlace self.now result }
    {
        match self.part(p) {
            PlacePart::Vessel(vessel) => vessel_info(vessel),
            PlacePart::Storage(tank) => storage_info(tank),
            PlacePart::Charging(tank) => charging_info(tank),
            PlacePart::Unit(part) => unit_info(part),
        }
    }

    pub fn place_name(&self, p: u8) -> &[u8]
        requires { p < place_count_of self.now }
        ensures { result.now ≡ place_name_of self.now p }
    {
        match self.part(p) {
            PlacePart::Vessel(vessel) => vessel.name.as_slice(),
            PlacePart::Storage(tank) => tank.name.as_slice(),
            PlacePart::Charging(tank) => tank.name.as_slice(),
            PlacePart::Unit(part) => part.name.as_slice(),
        }
    }

    /// How many volume units of the crude the vessel or tank holds at first.
    #[tactic(auto, unfolding(crate::specs::Parts::crude_count_of, crate::specs::Parts::initial_of))]
    pub fn initial(&self, p: u8, c: u8) -> u32
        requires place { p < place_count_of self.now }
        requires holds_crude { HoldsCrude (place_of self.now p).kind }
        requires crude { c < crude_count_of self.now }
        ensures value { result ≡ initial_of self.now p c }
        ensures most { result ≤ MOST_VOLUME }
    {
        match self.part(p) {
            PlacePart::Vessel(vessel) => unsigned(vessel.amounts.as_slice()[c as usize]),
            PlacePart::Storage(tank) | PlacePart::Charging(tank) => unsigned(
                tank.amounts.as_slice()[c as usize],
            ),
            PlacePart::Unit(_) => unreachable!(),
        }
    }

    /// The table of the operations, with all that holds of them.
    fn ops(&self) -> &[Op]
        ensures value { result.now ≡ ops_of self.now }
        ensures count { length result.now ≡ op_count_of self.now }
        ensures sound { (v : ℕ) → v < op_count_of self.now → SoundOp self.now (op_of self.now v) }
    {
        self.ops.as_slice()
    }

    #[tactic(auto, unfolding(crate::specs::Parts::op_of))]
    pub fn op(&self, v: u8) -> Op
        requires { v < op_count_of self.now }
        ensures value { result ≡ op_of self.now v }
        ensures sound { SoundOp self.now result }
    {
        self.ops()[v as usize]
    }

    /// The operation with the name, or 255 where there is none.
    #[tactic(auto, unfolding(crate::specs::Parts::op_by_name_of, crate::specs::Parts::op_count_of))]
    pub fn op_by_name(&self, name: &[u8]) -> u8
        ensures value { result ≡ op_by_name_of self.now name.now }
        ensures known { result ≢ 255 → (result < op_count_of self.now) × (op_name_of self.now result ≡ name.now) }
        ensures unknown { result ≡ 255 → (v : ℕ) → v < op_count_of self.now → op_name_of self.now v ≢ name.now }
    {
        let operations = self.parts().operations.as_slice();
        let found = first_named(operations, name);
        if found < operations.len() {
            found as u8
        } else {
            255
        }
    }

    /// The greatest volume that any operation may have, or 0 where there is none.
    #[tactic(auto, unfolding(crate::specs::Parts::greatest_volume_of))]
    pub fn greatest_volume(&self) -> u32
        ensures value { result ≡ greatest_volume_of self.now }
        ensures most { result ≤ MOST_VOLUME }
    {
        greatest_of(self.ops())
    }

    /// Nothing is wrong with a plant, and no storage tank of it has a demand.
    pub fn sound(&self)
        ensures plant { SoundPlant self.now }
        ensures no_fault { IsSound self.now }
        ensures seen { seen_parts self.now ≡ self.now }
    {
        let _ = &self.parts;
    }
}

/// The greatest upper volume of the operations.
fn greatest_of(ops: &[Op]) -> u32
    ensures { result ≡ greatest_of ops.now }
{
    ops.iter().fold(0, |most, op| op.volume.1.max(most))
}

/// What may be lent to other threads and be moved into them.
fn may_cross<T: Send + Sync>(_value: &T) {}

fn plant_may_cross(plant: &Plant) {
    may_cross(plant);
}
