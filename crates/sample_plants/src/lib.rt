//! Sample plants for the tests of the crates above.
//!
//! There are four kinds: [`OneCharge`], one charging tank, one unit, and the charge between them, where a test takes
//! [`one_charge`] as it is or says what is to be otherwise; [`two_inlets`], two storage tanks that fill one charging
//! tank; [`unloading`], vessels that are unloaded, each into a tank of its own; and [`two_vessels`], which blends.
//! [`blend_drift`] and [`blend_limit`] have a charging tank of two crudes.
//!
//! To the crates above this crate promises nothing: no call has a clause, so that the proofs of tests do not
//! read the numbers, and no crate calls it outside its tests. Parts that are refused are told as want of memory.
#![tactic(auto)]

mod blends;

pub use blends::{blend_drift, blend_limit};
use item_lists::{Copies, Items};
use limits::{MOST_SLOTS, MOST_VOLUME};
use plant_model::{
    CrudePart, Name, OperationPart, Pair, Parts, Plant, TankPart, UnitPart, VesselPart,
};
use std::alloc::{AllocError, Global};

/// What tells one plant with a single charge from another.
///
/// The rest is the same in all: within a horizon of 2 minutes the charge `c1` may move 1 to 4 volume units of
/// crude `A` at any time from tank `C1`, which holds 4 of at most 10 and has a demand of any volume, to unit `U`.
#[derive(Clone, Copy)]
pub struct OneCharge {
    /// What each volume unit of the crude earns.
    pub margin: i64,
    /// The rate of the charge, in volume units for each 1440 minutes.
    pub rate: Pair,
    /// Whether the unit has to be charged at every minute.
    pub continuous: bool,
    /// How many charges the unit takes.
    pub charges: Pair,
}

/// The plant whose crude earns 3 a volume unit, of which at most two flow in a minute. Its unit takes as
/// many charges as a search has slots, and may stand idle.
pub fn one_charge() -> OneCharge {
    OneCharge {
        margin: 3,
        rate: Pair { lo: 0, hi: 2880 },
        continuous: false,
        charges: Pair {
            lo: 0,
            hi: MOST_SLOTS as i64,
        },
    }
}

/// The plant of one charge at a rate of three volume units a minute, at every minute: more than there is.
pub fn fixed_rate(alloc: Global) -> Result<Plant, AllocError> {
    let rate = Pair { lo: 4320, hi: 4320 };
    one_charge().rated(rate, true).plant(alloc)
}

/// The plant of one charge of which at most one volume unit flows in a minute.
pub fn slow_charge(alloc: Global) -> Result<Plant, AllocError> {
    let rate = Pair { lo: 0, hi: 1440 };
    one_charge().rated(rate, false).plant(alloc)
}

/// The plant of one charge whose tank holds 2.
pub fn half_tank(alloc: Global) -> Result<Plant, AllocError> {
    let sample = one_charge();
    let charge = sample.charge(alloc)?;
    plant_of(alloc, sample.parts_of(alloc, 2, 2, charge)?)
}

/// The plant of one minute whose tank holds one volume unit, and whose crude loses 1 a volume unit.
pub fn losing_charge(alloc: Global) -> Result<Plant, AllocError> {
    let sample = one_charge().earning(-1);
    let mut charge = sample.charge(alloc)?;
    charge.volume = Pair { lo: 1, hi: 1 };
    charge.window = Pair { lo: 0, hi: 1 };
    plant_of(alloc, sample.parts_of(alloc, 1, 1, charge)?)
}

fn plant_of(alloc: Global, parts: Parts) -> Result<Plant, AllocError> {
    Plant::new(alloc, parts).map_err(|_| AllocError)
}

fn name(alloc: Global, text: &str) -> Result<Name, AllocError> {
    Copies::new(alloc, text.as_bytes())
}

/// A tank of at most 10 units that holds so much at first; a demand of any volume meets what is charged from it.
fn tank(alloc: Global, name_text: &str, amount: i64) -> Result<TankPart, AllocError> {
    Ok(TankPart {
        name: name(alloc, name_text)?,
        min: 0,
        max: 10,
        amounts: Copies::new(alloc, &[amount])?,
        demand: Pair {
            lo: 0,
            hi: MOST_VOLUME as i64,
        },
    })
}

impl OneCharge {
    /// The same at this rate, at every minute or not.
    pub fn rated(self, rate: Pair, continuous: bool) -> OneCharge {
        OneCharge {
            rate,
            continuous,
            ..self
        }
    }

    /// The same whose unit takes at least so many charges.
    pub fn charged(self, least: i64) -> OneCharge {
        let charges = Pair {
            lo: least,
            hi: self.charges.hi,
        };
        OneCharge { charges, ..self }
    }

    /// The same whose crude earns so much.
    pub fn earning(self, margin: i64) -> OneCharge {
        OneCharge { margin, ..self }
    }

    /// The plant.
    pub fn plant(self, alloc: Global) -> Result<Plant, AllocError> {
        plant_of(alloc, self.parts(alloc)?)
    }

    fn parts(self, alloc: Global) -> Result<Parts, AllocError> {
        let charge = self.charge(alloc)?;
        self.parts_of(alloc, 2, 4, charge)
    }

    /// The parts of so many minutes, with so much in the tank at first, and with this charge.
    fn parts_of(
        self,
        alloc: Global,
        horizon: i64,
        amount: i64,
        charge: OperationPart,
    ) -> Result<Parts, AllocError> {
        Ok(Parts {
            horizon,
            properties: Items::new(alloc),
            crudes: Items::from_vec(vec![in alloc; self.crude(alloc)?]?),
            vessels: Items::new(alloc),
            storage: Items::new(alloc),
            charging: Items::from_vec(vec![in alloc; tank(alloc, "C1", amount)?]?),
            units: Items::from_vec(vec![in alloc; self.unit(alloc)?]?),
            operations: Items::from_vec(vec![in alloc; charge]?),
        })
    }

    fn crude(self, alloc: Global) -> Result<CrudePart, AllocError> {
        Ok(CrudePart {
            name: name(alloc, "A")?,
            margin: self.margin,
            properties: Copies::new(alloc, &[])?,
        })
    }

    fn unit(self, alloc: Global) -> Result<UnitPart, AllocError> {
        Ok(UnitPart {
            name: name(alloc, "U")?,
            continuous: self.continuous,
            charges: self.charges,
        })
    }

    fn charge(self, alloc: Global) -> Result<OperationPart, AllocError> {
        Ok(OperationPart {
            name: name(alloc, "c1")?,
            from: name(alloc, "C1")?,
            to: name(alloc, "U")?,
            rate: self.rate,
            volume: Pair { lo: 1, hi: 4 },
            window: Pair { lo: 0, hi: 2 },
            limits: Items::new(alloc),
        })
    }
}

/// A plant of 4 minutes and one crude that earns 1: `T1` and `T2` fill tank `C1`, which holds 2, from `S1`
/// and `S2`, which hold 5 each, and `G` charges the unit from it; each moves 1 to 10 volume units, ten in a minute at
/// most.
pub fn two_inlets(alloc: Global) -> Result<Plant, AllocError> {
    plant_of(alloc, inlet_parts(alloc)?)
}

fn inlet_parts(alloc: Global) -> Result<Parts, AllocError> {
    let sample = one_charge().earning(1);
    let storage = vec![in alloc; tank(alloc, "S1", 5)?, tank(alloc, "S2", 5)?]?;
    let operations = vec![in alloc;
        fast(alloc, "T1", "S1", "C1")?,
        fast(alloc, "T2", "S2", "C1")?,
        fast(alloc, "G", "C1", "U")?,
    ]?;
    Ok(Parts {
        horizon: 4,
        properties: Items::new(alloc),
        crudes: Items::from_vec(vec![in alloc; sample.crude(alloc)?]?),
        vessels: Items::new(alloc),
        storage: Items::from_vec(storage),
        charging: Items::from_vec(vec![in alloc; tank(alloc, "C1", 2)?]?),
        units: Items::from_vec(vec![in alloc; sample.unit(alloc)?]?),
        operations: Items::from_vec(operations),
    })
}

/// An operation of 1 to 10 volume units, ten in a minute at most, at any of 4 minutes.
fn fast(alloc: Global, name_text: &str, from: &str, to: &str) -> Result<OperationPart, AllocError> {
    Ok(OperationPart {
        name: name(alloc, name_text)?,
        from: name(alloc, from)?,
        to: name(alloc, to)?,
        rate: Pair { lo: 0, hi: 14_400 },
        volume: Pair { lo: 1, hi: 10 },
        window: Pair { lo: 0, hi: 4 },
        limits: Items::new(alloc),
    })
}

/// A vessel of a plant whose vessels are unloaded.
#[derive(Clone, Copy)]
pub struct Berthed {
    /// In minutes.
    pub arrival: i64,
    pub berth: i64,
    /// What it pays for a minute.
    pub demurrage: i64,
}

/// Parts with nothing in them.
fn no_parts(alloc: Global, horizon: i64) -> Parts {
    Parts {
        horizon,
        properties: Items::new(alloc),
        crudes: Items::new(alloc),
        vessels: Items::new(alloc),
        storage: Items::new(alloc),
        charging: Items::new(alloc),
        units: Items::new(alloc),
        operations: Items::new(alloc),
    }
}

/// A plant in which each vessel brings 4 volume units of crude `A`: `u1` may move 1 to 4 of the first
/// one's from its arrival on to tank `S1`, at most two in a minute, `u2` those of the second one to `S2`, and so on to
/// the ninth.
pub fn unloading(alloc: Global, horizon: i64, berthed: &[Berthed]) -> Result<Plant, AllocError> {
    plant_of(alloc, berthed_parts(alloc, horizon, berthed)?)
}

fn berthed_parts(alloc: Global, horizon: i64, berthed: &[Berthed]) -> Result<Parts, AllocError> {
    let mut parts = no_parts(alloc, horizon);
    let crude = one_charge().crude(alloc)?;
    parts.crudes.push(crude).map_err(|_| AllocError)?;
    let mut digit = b'1';
    for vessel in berthed {
        add_vessel(alloc, &mut parts, *vessel, digit)?;
        digit = digit.saturating_add(1);
    }
    Ok(parts)
}

/// A vessel that comes in minute 1 of 4, takes two minutes to unload, and pays 5 for each.
pub fn late_vessel(alloc: Global) -> Result<Plant, AllocError> {
    let late = Berthed {
        arrival: 1,
        berth: 1,
        demurrage: 5,
    };
    unloading(alloc, 4, &[late])
}

/// The name of a letter and a digit.
fn numbered(alloc: Global, letter: u8, digit: u8) -> Result<Name, AllocError> {
    Copies::new(alloc, &[letter, digit])
}

/// Adds a vessel, its tank and its operation, which have the digit in their names.
fn add_vessel(
    alloc: Global,
    parts: &mut Parts,
    berthed: Berthed,
    digit: u8,
) -> Result<(), AllocError> {
    let vessel = VesselPart {
        name: numbered(alloc, b'V', digit)?,
        arrival: berthed.arrival,
        amounts: Copies::new(alloc, &[4])?,
        berth: berthed.berth,
        demurrage: berthed.demurrage,
    };
    parts.vessels.push(vessel).map_err(|_| AllocError)?;
    let tank = TankPart {
        name: numbered(alloc, b'S', digit)?,
        min: 0,
        max: 10,
        amounts: Copies::new(alloc, &[0])?,
        demand: Pair { lo: 0, hi: 0 },
    };
    parts.storage.push(tank).map_err(|_| AllocError)?;
    let operation = OperationPart {
        name: numbered(alloc, b'u', digit)?,
        from: numbered(alloc, b'V', digit)?,
        to: numbered(alloc, b'S', digit)?,
        rate: Pair { lo: 0, hi: 2880 },
        volume: Pair { lo: 1, hi: 4 },
        window: Pair {
            lo: berthed.arrival,
            hi: parts.horizon,
        },
        limits: Items::new(alloc),
    };
    parts.operations.push(operation).map_err(|_| AllocError)
}

/// A tank of two crudes that holds so much of each at first.
fn blend_tank(
    alloc: Global,
    name_text: &str,
    max: i64,
    amounts: &[i64],
) -> Result<TankPart, AllocError> {
    Ok(TankPart {
        name: name(alloc, name_text)?,
        min: 0,
        max,
        amounts: Copies::new(alloc, amounts)?,
        demand: Pair {
            lo: 0,
            hi: 1_000_000,
        },
    })
}

fn add_crudes(alloc: Global, parts: &mut Parts) -> Result<(), AllocError> {
    for (crude, margin, sulphur) in [("A", 9, 100), ("B", 6, 600)] {
        let crude = CrudePart {
            name: name(alloc, crude)?,
            margin,
            properties: Copies::new(alloc, &[sulphur])?,
        };
        parts.crudes.push(crude).map_err(|_| AllocError)?;
    }
    Ok(())
}

fn add_vessels(alloc: Global, parts: &mut Parts) -> Result<(), AllocError> {
    for (vessel, arrival, amounts) in [("V1", 0, [1_000_000, 0]), ("V2", 5760, [0, 1_000_000])] {
        let vessel = VesselPart {
            name: name(alloc, vessel)?,
            arrival,
            amounts: Copies::new(alloc, &amounts)?,
            berth: 1,
            demurrage: 0,
        };
        parts.vessels.push(vessel).map_err(|_| AllocError)?;
    }
    Ok(())
}

fn add_tanks(alloc: Global, parts: &mut Parts) -> Result<(), AllocError> {
    for (tank, amounts) in [("S1", [250_000, 0]), ("S2", [0, 750_000])] {
        let tank = blend_tank(alloc, tank, 2_000_000, &amounts)?;
        parts.storage.push(tank).map_err(|_| AllocError)?;
    }
    for (tank, amounts) in [("C1", [500_000, 0]), ("C2", [0, 500_000])] {
        let tank = blend_tank(alloc, tank, 1_000_000, &amounts)?;
        parts.charging.push(tank).map_err(|_| AllocError)?;
    }
    Ok(())
}

/// An operation of up to a million volume units at up to 500,000 a day, and with a limit on sulphur where it has one.
fn add_operation(
    alloc: Global,
    parts: &mut Parts,
    route: [&str; 3],
    from_minute: i64,
    sulphur: Option<i64>,
) -> Result<(), AllocError> {
    let [operation, from, to] = route;
    let mut limits = Items::new(alloc);
    if let Some(most) = sulphur {
        let limit = Pair { lo: 0, hi: most };
        limits.push(limit).map_err(|_| AllocError)?;
    }
    let slowest = if sulphur.is_some() { 50_000 } else { 0 };
    let operation = OperationPart {
        name: name(alloc, operation)?,
        from: name(alloc, from)?,
        to: name(alloc, to)?,
        rate: Pair {
            lo: slowest,
            hi: 500_000,
        },
        volume: Pair {
            lo: 1,
            hi: 1_000_000,
        },
        window: Pair {
            lo: from_minute,
            hi: 11_520,
        },
        limits,
    };
    parts.operations.push(operation).map_err(|_| AllocError)
}

fn add_operations(alloc: Global, parts: &mut Parts) -> Result<(), AllocError> {
    for (route, from_minute, sulphur) in [
        (["u1", "V1", "S1"], 0, None),
        (["u2", "V2", "S2"], 5760, None),
        (["t1", "S1", "C1"], 0, None),
        (["t2", "S1", "C2"], 0, None),
        (["t3", "S2", "C1"], 0, None),
        (["t4", "S2", "C2"], 0, None),
        (["c1", "C1", "CDU"], 0, Some(150)),
        (["c2", "C2", "CDU"], 0, Some(700)),
    ] {
        add_operation(alloc, parts, route, from_minute, sulphur)?;
    }
    Ok(())
}

fn add_unit(alloc: Global, parts: &mut Parts) -> Result<(), AllocError> {
    let unit = UnitPart {
        name: name(alloc, "CDU")?,
        continuous: true,
        charges: Pair { lo: 2, hi: 8 },
    };
    parts.units.push(unit).map_err(|_| AllocError)
}

/// A plant of eight days: vessels `V1` and `V2` bring a million volume units each of crude `A`, which
/// earns 9 and has little sulphur, and of `B`, which earns 6 and has much, to the storage tanks `S1` and `S2`; from
/// both either charging tank, `C1` and `C2`, is filled, and from these a unit is charged at every minute, 2 to 8 times,
/// from `C1` with at most 150 of sulphur and from `C2` with at most 700.
pub fn two_vessels(alloc: Global) -> Result<Plant, AllocError> {
    plant_of(alloc, blend_parts(alloc)?)
}

fn blend_parts(alloc: Global) -> Result<Parts, AllocError> {
    let mut parts = no_parts(alloc, 11_520);
    let sulphur = name(alloc, "sulphur")?;
    parts.properties.push(sulphur).map_err(|_| AllocError)?;
    add_crudes(alloc, &mut parts)?;
    add_vessels(alloc, &mut parts)?;
    add_tanks(alloc, &mut parts)?;
    add_unit(alloc, &mut parts)?;
    add_operations(alloc, &mut parts)?;
    Ok(parts)
}
