//! The sample plant of the tests: two vessels at two berths, two storage tanks, a charging tank and a unit.
//!
//! A test names what is to be otherwise. The functions promise nothing, so that the proofs of the tests do not read
//! the numbers.

use item_lists::{Copies, Items};
use plant_model::{
    CrudePart, Name, OperationPart, Pair, Parts, Section, TankPart, UnitPart, VesselPart,
};
use std::alloc::{AllocError, Global};

/// What the tests change in the sample plant. The crude, the vessel and the storage tank are the second ones, the
/// operation is the one that unloads the second vessel.
#[derive(Clone, Copy)]
pub struct Sample {
    pub horizon: i64,
    /// A section, and how many entries more it gets.
    pub more: (Section, u8),
    pub crude_name: &'static str,
    pub margin: i64,
    pub values: &'static [i64],
    pub arrival: i64,
    pub amounts: &'static [i64],
    pub berth: i64,
    pub demurrage: i64,
    pub least_level: i64,
    pub most_demand: i64,
    pub from: &'static str,
    pub to: &'static str,
    pub most_rate: i64,
}

/// A plant in which nothing is wrong.
pub const SOUND: Sample = Sample {
    horizon: 11_520,
    more: (Section::Plant, 0),
    crude_name: "B",
    margin: 6,
    values: &[600],
    arrival: 5_760,
    amounts: &[0, 1_000_000],
    berth: 2,
    demurrage: 30,
    least_level: 0,
    most_demand: 1_000_000,
    from: "V2",
    to: "S2",
    most_rate: 500_000,
};

fn name(alloc: Global, text: &str) -> Result<Name, AllocError> {
    Copies::new(alloc, text.as_bytes())
}

fn crude(
    alloc: Global,
    called: &str,
    margin: i64,
    values: &[i64],
) -> Result<CrudePart, AllocError> {
    Ok(CrudePart {
        name: name(alloc, called)?,
        margin,
        properties: Copies::new(alloc, values)?,
    })
}

fn tank(
    alloc: Global,
    called: &str,
    min: i64,
    amounts: &[i64],
    demand: i64,
) -> Result<TankPart, AllocError> {
    Ok(TankPart {
        name: name(alloc, called)?,
        min,
        max: 2_000_000,
        amounts: Copies::new(alloc, amounts)?,
        demand: Pair { lo: 0, hi: demand },
    })
}

fn unit(alloc: Global) -> Result<UnitPart, AllocError> {
    Ok(UnitPart {
        name: name(alloc, "CDU")?,
        continuous: true,
        charges: Pair { lo: 2, hi: 8 },
    })
}

fn first_vessel(alloc: Global) -> Result<VesselPart, AllocError> {
    Ok(VesselPart {
        name: name(alloc, "V1")?,
        arrival: 60,
        amounts: Copies::new(alloc, &[1_000_000, 0])?,
        berth: 1,
        demurrage: 0,
    })
}

/// An operation without limits.
fn operation(
    alloc: Global,
    called: &str,
    from: &str,
    to: &str,
    rate: i64,
) -> Result<OperationPart, AllocError> {
    Ok(OperationPart {
        name: name(alloc, called)?,
        from: name(alloc, from)?,
        to: name(alloc, to)?,
        rate: Pair { lo: 0, hi: rate },
        volume: Pair {
            lo: 1,
            hi: 1_000_000,
        },
        window: Pair {
            lo: 5_760,
            hi: 11_520,
        },
        limits: Items::new(alloc),
    })
}

/// The charge, with the limits of its one property.
fn charge(alloc: Global) -> Result<OperationPart, AllocError> {
    let mut charge = operation(alloc, "c1", "C1", "CDU", 500_000)?;
    add(&mut charge.limits, Pair { lo: 0, hi: 150 })?;
    Ok(charge)
}

fn add<T: Drop>(list: &mut Items<T>, item: T) -> Result<(), AllocError> {
    match list.push(item) {
        Ok(()) => Ok(()),
        Err(_) => Err(AllocError),
    }
}

/// Parts with nothing in them.
fn no_parts(alloc: Global, horizon: i64) -> Parts {
    Parts {
        horizon,
        properties: Items::new(alloc),
        crudes: Items::new(alloc),
        vessels: Items::new(alloc),
        storage: Items::new(alloc),
        charging: Items::new(alloc),
        units: Items::new(alloc),
        operations: Items::new(alloc),
    }
}

/// Adds an entry to the section, which need not be sound.
fn add_entry(alloc: Global, section: Section, parts: &mut Parts) -> Result<(), AllocError> {
    match section {
        Section::Plant => Ok(()),
        Section::Properties => add(&mut parts.properties, name(alloc, "")?),
        Section::Crudes => add(&mut parts.crudes, crude(alloc, "", 0, &[])?),
        Section::Vessels => add(&mut parts.vessels, first_vessel(alloc)?),
        Section::Storage => add(&mut parts.storage, tank(alloc, "", 0, &[], 0)?),
        Section::Charging => add(&mut parts.charging, tank(alloc, "", 0, &[], 0)?),
        Section::Units => add(&mut parts.units, unit(alloc)?),
        Section::Operations => add(&mut parts.operations, operation(alloc, "", "", "", 0)?),
    }
}

impl Sample {
    /// The parts of the plant, sound or not.
    pub fn parts(&self, alloc: Global) -> Result<Parts, AllocError> {
        let mut parts = no_parts(alloc, self.horizon);
        add(&mut parts.properties, name(alloc, "sulphur")?)?;
        self.add_crudes(alloc, &mut parts)?;
        self.add_vessels(alloc, &mut parts)?;
        self.add_tanks(alloc, &mut parts)?;
        self.add_operations(alloc, &mut parts)?;
        self.lengthen(alloc, &mut parts)?;
        Ok(parts)
    }

    /// Adds to the section that gets more entries.
    fn lengthen(&self, alloc: Global, parts: &mut Parts) -> Result<(), AllocError> {
        let (section, count) = self.more;
        for _ in 0..count {
            add_entry(alloc, section, parts)?;
        }
        Ok(())
    }

    fn add_crudes(&self, alloc: Global, parts: &mut Parts) -> Result<(), AllocError> {
        add(&mut parts.crudes, crude(alloc, "A", 9, &[100])?)?;
        let second = crude(alloc, self.crude_name, self.margin, self.values)?;
        add(&mut parts.crudes, second)
    }

    fn second_vessel(&self, alloc: Global) -> Result<VesselPart, AllocError> {
        Ok(VesselPart {
            name: name(alloc, "V2")?,
            arrival: self.arrival,
            amounts: Copies::new(alloc, self.amounts)?,
            berth: self.berth,
            demurrage: self.demurrage,
        })
    }

    fn add_vessels(&self, alloc: Global, parts: &mut Parts) -> Result<(), AllocError> {
        add(&mut parts.vessels, first_vessel(alloc)?)?;
        add(&mut parts.vessels, self.second_vessel(alloc)?)
    }

    /// The demands of the storage tanks are not read.
    fn add_tanks(&self, alloc: Global, parts: &mut Parts) -> Result<(), AllocError> {
        add(&mut parts.storage, tank(alloc, "S1", 0, &[250_000, 0], 7)?)?;
        let second = tank(alloc, "S2", self.least_level, &[0, 750_000], -7)?;
        add(&mut parts.storage, second)?;
        let charging = tank(alloc, "C1", 0, &[500_000, 0], self.most_demand)?;
        add(&mut parts.charging, charging)?;
        add(&mut parts.units, unit(alloc)?)
    }

    fn add_operations(&self, alloc: Global, parts: &mut Parts) -> Result<(), AllocError> {
        add(
            &mut parts.operations,
            operation(alloc, "u1", "V1", "S1", 500_000)?,
        )?;
        let second = operation(alloc, "u2", self.from, self.to, self.most_rate)?;
        add(&mut parts.operations, second)?;
        add(
            &mut parts.operations,
            operation(alloc, "t1", "S1", "C1", 500_000)?,
        )?;
        add(&mut parts.operations, charge(alloc)?)
    }
}
