ghost use Rattle.std.specs.Prelude.{◌≡◌, ℕ, Result, map};
ghost use Rattle.serde_json.specs.Data.{Data};
ghost use Rattle.serde_json.specs.View.{view, items_view};
ghost use Rattle.plant_model.specs.declared.place.Section.TheVariants.{Vessels};
ghost use Rattle.plant_text.specs.declared.fault.PlantTextFault.{PlantTextFault};
ghost use Rattle.plant_text.specs.Walk.{property_at, crude_at, vessel_at, storage_at, charging_at, unit_at, operation_at, entries_from, vessel_keys, berth_at, demurrage_at};
ghost use Rattle.plant_text.specs.Gives.{Gives};

use crate::entry::Entry;
use crate::fault::PlantTextFault;
use crate::kinds::PlantFormat;
use item_lists::Items;
use plant_model::{
    CrudePart, Key, Name, OperationPart, Pair, Place, Section, TankPart, UnitPart, VesselPart,
};
use serde_json::Value;
use std::alloc::Global;

/// Reads an entry of one section.
pub(crate) trait EntryReader {
    /// The part of the plant that an entry is.
    type Part: Drop;

    /// What the entry at an index is.
    ghost reading: { Self → ℕ → Data → Result Self.Part PlantTextFault };

    fn read(&self, alloc: Global, value: &Value, index: u32) -> Result<Self::Part, PlantTextFault>
        ensures { Gives (λ part. part) result (reading self.now index (view value.now)) };
}

/// The entries of a section, in order, numbered from 1.
pub(crate) fn entries<R: EntryReader>(
    alloc: Global,
    reader: &R,
    values: &[Value],
) -> Result<Items<R::Part>, PlantTextFault>
    ensures { Gives (λ parts. parts) result (entries_from (R.reading reader.now) 1 (items_view values.now)) }
{
    let mut parts = Vec::with_capacity(alloc, values.len())?;
    let mut index: u32 = 1;
    for value in values {
        let part = reader.read(alloc, value, index)?;
        parts.push(part)?;
        index = index.saturating_add(1);
    }
    Ok(Items::from_vec(parts))
}

/// The properties, each of which is its name.
#[derive(Drop)]
pub(crate) struct PropertyEntries;

impl EntryReader for PropertyEntries {
    type Part = Name;

    ghost reading = { λ _. property_at };

    fn read(&self, alloc: Global, value: &Value, index: u32) -> Result<Name, PlantTextFault> {
        property(alloc, value, index)
    }
}

#[tactic(auto, unfolding(crate::specs::Walk::property_at))]
fn property(alloc: Global, value: &Value, index: u32) -> Result<Name, PlantTextFault>
    ensures { Gives (λ name. name) result (property_at index (view value.now)) }
{
    match value.as_str() {
        Some(name) => Ok(Name::new(alloc, name.as_bytes())?),
        None => Err(PlantTextFault::Shape(Place {
            section: Section::Properties,
            index,
            key: Key::Name,
        })),
    }
}

/// The crudes.
#[derive(Drop)]
pub(crate) struct CrudeEntries;

impl EntryReader for CrudeEntries {
    type Part = CrudePart;

    ghost reading = { λ _. crude_at };

    fn read(&self, alloc: Global, value: &Value, index: u32) -> Result<CrudePart, PlantTextFault> {
        crude(alloc, value, index)
    }
}

#[tactic(auto, unfolding(crate::specs::Walk::crude_at))]
fn crude(alloc: Global, value: &Value, index: u32) -> Result<CrudePart, PlantTextFault>
    ensures { Gives (λ part. part) result (crude_at index (view value.now)) }
{
    let entry = Entry::open(value, Section::Crudes, index)?;
    let name = entry.name(alloc, Key::Name)?;
    let margin = entry.whole_number(Key::Margin)?;
    let properties = entry.whole_numbers(alloc, Key::Properties)?;
    entry.close(&["name", "margin", "properties"])?;
    Ok(CrudePart {
        name,
        margin,
        properties,
    })
}

/// The vessels, of which a format tells more or less.
#[derive(Drop)]
pub(crate) struct VesselEntries {
    pub(crate) format: PlantFormat,
}

impl EntryReader for VesselEntries {
    type Part = VesselPart;

    ghost reading = { λ reader. vessel_at reader.format };

    fn read(&self, alloc: Global, value: &Value, index: u32) -> Result<VesselPart, PlantTextFault> {
        vessel(alloc, self.format, value, index)
    }
}

/// The keys of a vessel.
fn vessel_keys(format: PlantFormat) -> &'static [&'static str]
    ensures { map (λ key. key.now) result.now ≡ vessel_keys format }
{
    match format {
        PlantFormat::One => &["name", "arrival", "amounts"],
        PlantFormat::Two => &["name", "arrival", "amounts", "berth"],
        PlantFormat::Three => &["name", "arrival", "amounts", "berth", "demurrage"],
    }
}

/// The berth of a vessel, which is 1 in format 1.
fn berth(vessel: &Entry<'_>, format: PlantFormat) -> Result<i64, PlantTextFault>
    requires { vessel.now.section ≡ Vessels }
    ensures { Gives (λ berth. berth) result (berth_at format vessel.now.index (view vessel.now.value.now)) }
{
    match format {
        PlantFormat::One => Ok(1),
        PlantFormat::Two | PlantFormat::Three => vessel.whole_number(Key::Berth),
    }
}

/// The demurrage of a vessel, which is 0 in formats 1 and 2.
fn demurrage(vessel: &Entry<'_>, format: PlantFormat) -> Result<i64, PlantTextFault>
    requires { vessel.now.section ≡ Vessels }
    ensures { Gives (λ demurrage. demurrage) result (demurrage_at format vessel.now.index (view vessel.now.value.now)) }
{
    match format {
        PlantFormat::One | PlantFormat::Two => Ok(0),
        PlantFormat::Three => vessel.whole_number(Key::Demurrage),
    }
}

#[tactic(auto, unfolding(crate::specs::Walk::vessel_at))]
fn vessel(
    alloc: Global,
    format: PlantFormat,
    value: &Value,
    index: u32,
) -> Result<VesselPart, PlantTextFault>
    ensures { Gives (λ part. part) result (vessel_at format index (view value.now)) }
{
    let entry = Entry::open(value, Section::Vessels, index)?;
    let name = entry.name(alloc, Key::Name)?;
    let arrival = entry.whole_number(Key::Arrival)?;
    let amounts = entry.whole_numbers(alloc, Key::Amounts)?;
    let berth = berth(&entry, format)?;
    let demurrage = demurrage(&entry, format)?;
    entry.close(vessel_keys(format))?;
    Ok(VesselPart {
        name,
        arrival,
        amounts,
        berth,
        demurrage,
    })
}

/// The storage tanks.
#[derive(Drop)]
pub(crate) struct StorageEntries;

impl EntryReader for StorageEntries {
    type Part = TankPart;

    ghost reading = { λ _. storage_at };

    fn read(&self, alloc: Global, value: &Value, index: u32) -> Result<TankPart, PlantTextFault> {
        storage(alloc, value, index)
    }
}

#[tactic(auto, unfolding(crate::specs::Walk::storage_at))]
fn storage(alloc: Global, value: &Value, index: u32) -> Result<TankPart, PlantTextFault>
    ensures { Gives (λ part. part) result (storage_at index (view value.now)) }
{
    let entry = Entry::open(value, Section::Storage, index)?;
    let name = entry.name(alloc, Key::Name)?;
    let min = entry.whole_number(Key::Min)?;
    let max = entry.whole_number(Key::Max)?;
    let amounts = entry.whole_numbers(alloc, Key::Amounts)?;
    entry.close(&["name", "min", "max", "amounts"])?;
    Ok(TankPart {
        name,
        min,
        max,
        amounts,
        demand: Pair { lo: 0, hi: 0 },
    })
}

/// The charging tanks.
#[derive(Drop)]
pub(crate) struct ChargingEntries;

impl EntryReader for ChargingEntries {
    type Part = TankPart;

    ghost reading = { λ _. charging_at };

    fn read(&self, alloc: Global, value: &Value, index: u32) -> Result<TankPart, PlantTextFault> {
        charging(alloc, value, index)
    }
}

#[tactic(auto, unfolding(crate::specs::Walk::charging_at))]
fn charging(alloc: Global, value: &Value, index: u32) -> Result<TankPart, PlantTextFault>
    ensures { Gives (λ part. part) result (charging_at index (view value.now)) }
{
    let entry = Entry::open(value, Section::Charging, index)?;
    let name = entry.name(alloc, Key::Name)?;
    let min = entry.whole_number(Key::Min)?;
    let max = entry.whole_number(Key::Max)?;
    let amounts = entry.whole_numbers(alloc, Key::Amounts)?;
    let demand = entry.pair(Key::Demand)?;
    entry.close(&["name", "min", "max", "amounts", "demand"])?;
    Ok(TankPart {
        name,
        min,
        max,
        amounts,
        demand,
    })
}

/// The units.
#[derive(Drop)]
pub(crate) struct UnitEntries;

impl EntryReader for UnitEntries {
    type Part = UnitPart;

    ghost reading = { λ _. unit_at };

    fn read(&self, alloc: Global, value: &Value, index: u32) -> Result<UnitPart, PlantTextFault> {
        unit(alloc, value, index)
    }
}

#[tactic(auto, unfolding(crate::specs::Walk::unit_at))]
fn unit(alloc: Global, value: &Value, index: u32) -> Result<UnitPart, PlantTextFault>
    ensures { Gives (λ part. part) result (unit_at index (view value.now)) }
{
    let entry = Entry::open(value, Section::Units, index)?;
    let name = entry.name(alloc, Key::Name)?;
    let continuous = entry.flag(Key::Continuous)?;
    let charges = entry.pair(Key::Charges)?;
    entry.close(&["name", "continuous", "charges"])?;
    Ok(UnitPart {
        name,
        continuous,
        charges,
    })
}

/// The operations.
#[derive(Drop)]
pub(crate) struct OperationEntries;

impl EntryReader for OperationEntries {
    type Part = OperationPart;

    ghost reading = { λ _. operation_at };

    fn read(
        &self,
        alloc: Global,
        value: &Value,
        index: u32,
    ) -> Result<OperationPart, PlantTextFault> {
        operation(alloc, value, index)
    }
}

#[tactic(auto, unfolding(crate::specs::Walk::operation_at))]
fn operation(alloc: Global, value: &Value, index: u32) -> Result<OperationPart, PlantTextFault>
    ensures { Gives (λ part. part) result (operation_at index (view value.now)) }
{
    let entry = Entry::open(value, Section::Operations, index)?;
    let name = entry.name(alloc, Key::Name)?;
    let from = entry.name(alloc, Key::From)?;
    let to = entry.name(alloc, Key::To)?;
    let rate = entry.pair(Key::Rate)?;
    let volume = entry.pair(Key::Volume)?;
    let window = entry.pair(Key::Window)?;
    let limits = entry.pairs(alloc, Key::Limits)?;
    entry.close(&["name", "from", "to", "rate", "volume", "window", "limits"])?;
    Ok(OperationPart {
        name,
        from,
        to,
        rate,
        volume,
        window,
        limits,
    })
}
