//! Plants of one minute whose charging tank holds two crudes.

use super::{blend_tank, name, no_parts, plant_of};
use item_lists::{Copies, Items};
use limits::{MOST_SLOTS, MOST_VOLUME};
use plant_model::{CrudePart, OperationPart, Pair, Parts, Plant, TankPart, UnitPart};
use std::alloc::{AllocError, Global};

/// Two crudes that earn so much.
fn add_pair(alloc: Global, parts: &mut Parts, margins: [i64; 2]) -> Result<(), AllocError> {
    for (crude, margin) in [("A", margins[0]), ("B", margins[1])] {
        let crude = CrudePart {
            name: name(alloc, crude)?,
            margin,
            properties: Copies::new(alloc, &[])?,
        };
        parts.crudes.push(crude).map_err(|_| AllocError)?;
    }
    Ok(())
}

/// Holds 90 of the first and 10 of the second at first.
fn charging_tank(alloc: Global) -> Result<TankPart, AllocError> {
    let mut tank = blend_tank(alloc, "C1", 200, &[90, 10])?;
    tank.demand = Pair {
        lo: 0,
        hi: MOST_VOLUME as i64,
    };
    Ok(tank)
}

/// An operation of up to so many volume units, at a thousand in a minute at most.
fn add_move(
    alloc: Global,
    parts: &mut Parts,
    route: [&str; 3],
    most: i64,
) -> Result<(), AllocError> {
    let [operation, from, to] = route;
    let operation = OperationPart {
        name: name(alloc, operation)?,
        from: name(alloc, from)?,
        to: name(alloc, to)?,
        rate: Pair {
            lo: 0,
            hi: 1_440_000,
        },
        volume: Pair { lo: 1, hi: most },
        window: Pair { lo: 0, hi: 1 },
        limits: Items::new(alloc),
    };
    parts.operations.push(operation).map_err(|_| AllocError)
}

/// Crudes, the charging tank and a unit that may stand idle.
fn charging_parts(alloc: Global, margins: [i64; 2]) -> Result<Parts, AllocError> {
    let mut parts = no_parts(alloc, 1);
    add_pair(alloc, &mut parts, margins)?;
    let tank = charging_tank(alloc)?;
    parts.charging.push(tank).map_err(|_| AllocError)?;
    let unit = UnitPart {
        name: name(alloc, "U")?,
        continuous: false,
        charges: Pair {
            lo: 0,
            hi: MOST_SLOTS as i64,
        },
    };
    parts.units.push(unit).map_err(|_| AllocError)?;
    Ok(parts)
}

/// `S1`, which holds 50 of crude `B`, fills `C1`, which holds 90 of `A` and 10 of `B`, by `t`; `c` charges up to 100
/// from `C1`. Both crudes earn 1.
pub fn blend_drift(alloc: Global) -> Result<Plant, AllocError> {
    let mut parts = charging_parts(alloc, [1, 1])?;
    let mut tank = blend_tank(alloc, "S1", 100, &[0, 50])?;
    tank.demand = Pair { lo: 0, hi: 0 };
    parts.storage.push(tank).map_err(|_| AllocError)?;
    add_move(alloc, &mut parts, ["t", "S1", "C1"], 50)?;
    add_move(alloc, &mut parts, ["c", "C1", "U"], 100)?;
    plant_of(alloc, parts)
}

/// `c` charges up to 50 from `C1`, which holds 90 of crude `A`, which earns nothing, and 10 of `B`, which earns 100.
pub fn blend_limit(alloc: Global) -> Result<Plant, AllocError> {
    let mut parts = charging_parts(alloc, [0, 100])?;
    add_move(alloc, &mut parts, ["c", "C1", "U"], 50)?;
    plant_of(alloc, parts)
}
