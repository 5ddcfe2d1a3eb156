#[derive(Clone, Copy, Debug, PartialEq, Eq)]
pub enum PlaceKind {
    Vessel,
    Storage,
    Charging,
    Unit,
}

/// What a plant says of a vessel, a tank or a unit. What its kind has not is 0 or false. Berths are numbered
/// from 1; the demurrage is what a vessel pays for a minute.
#[derive(Clone, Copy, Debug, PartialEq, Eq)]
pub struct PlaceInfo {
    pub kind: PlaceKind,
    pub arrival: u32,
    pub min: u32,
    pub max: u32,
    pub demand: (u32, u32),
    pub continuous: bool,
    pub charges: (u32, u32),
    pub berth: u32,
    pub demurrage: u32,
}

#[derive(Clone, Copy, Debug, PartialEq, Eq)]
pub enum OpKind {
    /// From a vessel to a storage tank.
    Unload,
    /// From a storage tank to a charging tank.
    Transfer,
    /// From a charging tank to a unit.
    Charge,
}

/// An operation between two places, by their numbers. The rate is in volume units for each 1440
/// minutes, the window in minutes.
#[derive(Clone, Copy, Debug, PartialEq, Eq)]
pub struct Op {
    pub from: u8,
    pub to: u8,
    pub kind: OpKind,
    pub rate: (u32, u32),
    pub volume: (u32, u32),
    pub window: (u32, u32),
}
