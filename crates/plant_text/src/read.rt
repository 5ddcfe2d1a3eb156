ghost use Rattle.item_lists.specs.Faults.{first_of};
ghost use Rattle.plant_model.specs.Faults.{faults_of};
ghost use Rattle.serde_json.specs.View.{view};
ghost use Rattle.plant_text.specs.Walk.{parts_of};
ghost use Rattle.plant_text.specs.PlantText.{json_of, sound_or, plant_of};
ghost use Rattle.plant_text.specs.Gives.{Gives};

use crate::entries::{
    ChargingEntries, CrudeEntries, OperationEntries, PropertyEntries, StorageEntries, UnitEntries,
    VesselEntries, entries,
};
use crate::fault::PlantTextFault;
use crate::sections::sections;
use plant_model::{Parts, Plant, PlantNewFault};
use serde_json::Value;
use std::alloc::Global;

/// The plant of a text.
#[tactic(auto, unfolding(crate::specs::PlantText::plant_of))]
pub fn read_plant(alloc: Global, bytes: &[u8]) -> Result<Plant, PlantTextFault>
    ensures { Gives (λ plant. plant) result (plant_of bytes.now) }
{
    let whole = json(alloc, bytes)?;
    let parts = parts(alloc, &whole)?;
    plant(alloc, parts)
}

fn json(alloc: Global, bytes: &[u8]) -> Result<Value, PlantTextFault>
    ensures { Gives (λ whole. view whole) result (json_of bytes.now) }
{
    match Value::from_slice(alloc, bytes) {
        Ok(whole) => Ok(whole),
        Err(refused) if refused.is_memory() => Err(PlantTextFault::Memory),
        Err(_) => Err(PlantTextFault::Json),
    }
}

#[tactic(auto, unfolding(crate::specs::Walk::parts_of))]
fn parts(alloc: Global, whole: &Value) -> Result<Parts, PlantTextFault>
    ensures { Gives (λ parts. parts) result (parts_of (view whole.now)) }
{
    let lists = sections(whole)?;
    let format = lists.format;
    let properties = entries(alloc, &PropertyEntries, lists.properties)?;
    let crudes = entries(alloc, &CrudeEntries, lists.crudes)?;
    let vessels = entries(alloc, &VesselEntries { format }, lists.vessels)?;
    let storage = entries(alloc, &StorageEntries, lists.storage)?;
    let charging = entries(alloc, &ChargingEntries, lists.charging)?;
    let units = entries(alloc, &UnitEntries, lists.units)?;
    let operations = entries(alloc, &OperationEntries, lists.operations)?;
    Ok(Parts {
        horizon: lists.horizon,
        properties,
        crudes,
        vessels,
        storage,
        charging,
        units,
        operations,
    })
}

fn plant(alloc: Global, parts: Parts) -> Result<Plant, PlantTextFault>
    ensures { Gives (λ plant. plant) result (sound_or (first_of (faults_of parts)) parts) }
{
    match Plant::new(alloc, parts) {
        Ok(plant) => Ok(plant),
        Err(PlantNewFault::Fault(fault)) => Err(PlantTextFault::Plant(fault)),
        Err(PlantNewFault::Memory) => Err(PlantTextFault::Memory),
    }
}
