ghost use Rattle.std.specs.Prelude.{◌≡◌, IfOk, codes, ◌∷◌, []};
ghost use Rattle.plant_maker.specs.Made.{made_parts};
ghost use Rattle.plant_maker.specs.Laws.{MadePlantsAreSound};

use crate::entries::{charging, crudes, storage, units, vessels};
use crate::operations::operations;
use crate::picks::Picks;
use item_lists::{Copies, Items};
use plant_model::{Names, Parts, Plant, PlantNewFault};
use std::alloc::{AllocError, Global};

/// The one property of all crudes.
fn properties(alloc: Global) -> Result<Names, AllocError>
    ensures { IfOk result (λ names. names ≡ codes "sulphur" ∷ []) }
{
    Ok(Items::from_vec(vec![in alloc; Copies::new(alloc, b"sulphur")?]?))
}

#[tactic(auto, unfolding(crate::specs::Made::parts_of))]
fn parts_of(alloc: Global, picks: &Picks) -> Result<Parts, AllocError>
    ensures { IfOk result (λ parts. parts ≡ made_parts picks.now) }
{
    Ok(Parts {
        horizon: picks.horizon(),
        properties: properties(alloc)?,
        crudes: crudes(alloc, picks)?,
        vessels: vessels(alloc, picks)?,
        storage: storage(alloc, picks)?,
        charging: charging(alloc, picks)?,
        units: units(alloc)?,
        operations: operations(alloc, picks)?,
    })
}

/// The plant of the number. It fails only for want of memory.
pub fn make(alloc: Global, number: u32) -> Result<Plant, AllocError>
    ensures { IfOk result (λ plant. plant ≡ made_parts number) }
{
    let parts = parts_of(alloc, &Picks::new(number))?;
    match Plant::new(alloc, parts) {
        Ok(plant) => Ok(plant),
        Err(PlantNewFault::Memory) => Err(AllocError),
        Err(PlantNewFault::Fault(_)) => unreachable!(),
    }
}

/// Nothing is wrong in the plant of any number. It does nothing when it runs.
pub fn maker_laws()
    ensures { MadePlantsAreSound }
{}
