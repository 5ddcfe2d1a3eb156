use item_lists::{Copies, Items};

/// The bytes of a name.
pub type Name = Copies<u8>;

/// The bytes of a text.
pub type Text = Copies<u8>;

/// Whole numbers as they are given, in range or not.
pub type Numbers = Copies<i64>;

pub type Names = Items<Name>;

pub type Pairs = Items<Pair>;

pub type Crudes = Items<CrudePart>;

pub type Vessels = Items<VesselPart>;

pub type Tanks = Items<TankPart>;

pub type Units = Items<UnitPart>;

pub type Operations = Items<OperationPart>;

/// The two ends of a range, both counted.
#[derive(Clone, Copy, Debug, PartialEq, Eq)]
pub struct Pair {
    pub lo: i64,
    pub hi: i64,
}

/// A crude: its margin for each volume unit charged, and one value for each property of the plant.
#[derive(Debug, Drop)]
pub struct CrudePart {
    pub name: Name,
    pub margin: i64,
    pub properties: Numbers,
}

/// A vessel: the minute of its arrival, the volume units of each crude that it brings, the number of the
/// berth that it comes to, and what it pays for each minute from its arrival to the end of its unloading.
#[derive(Debug, Drop)]
pub struct VesselPart {
    pub name: Name,
    pub arrival: i64,
    pub amounts: Numbers,
    pub berth: i64,
    pub demurrage: i64,
}

/// A storage or charging tank: the least and the greatest level, the volume units of each crude that
/// it holds at first, and of a charging tank the volume that is to be charged from it in all.
#[derive(Debug, Drop)]
pub struct TankPart {
    pub name: Name,
    pub min: i64,
    pub max: i64,
    pub amounts: Numbers,
    pub demand: Pair,
}

/// A distillation unit: whether it has to be charged at every minute, and how many charges it takes.
#[derive(Debug, Drop)]
pub struct UnitPart {
    pub name: Name,
    pub continuous: bool,
    pub charges: Pair,
}

/// An operation between two places that it names. The rate is in volume units for each 1440 minutes,
/// the window in minutes; a charge has limits, one pair for each property.
#[derive(Debug, Drop)]
pub struct OperationPart {
    pub name: Name,
    pub from: Name,
    pub to: Name,
    pub rate: Pair,
    pub volume: Pair,
    pub window: Pair,
    pub limits: Pairs,
}

/// A plant as it is given, sound or not. The horizon is in minutes.
#[derive(Debug, Drop)]
pub struct Parts {
    pub horizon: i64,
    pub properties: Names,
    pub crudes: Crudes,
    pub vessels: Vessels,
    pub storage: Tanks,
    pub charging: Tanks,
    pub units: Units,
    pub operations: Operations,
}
