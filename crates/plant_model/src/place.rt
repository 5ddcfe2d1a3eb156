/// The lists of a plant, and the plant as a whole.
#[derive(Clone, Copy, Debug, PartialEq, Eq)]
pub enum Section {
    Plant,
    Properties,
    Crudes,
    Vessels,
    Storage,
    Charging,
    Units,
    Operations,
}

/// What of an entry, or of the whole plant, a place names.
#[derive(Clone, Copy, Debug, PartialEq, Eq)]
pub enum Key {
    Entry,
    List,
    Format,
    Horizon,
    Name,
    Margin,
    Properties,
    Arrival,
    Amounts,
    Berth,
    Demurrage,
    Min,
    Max,
    Demand,
    Continuous,
    Charges,
    From,
    To,
    Rate,
    Volume,
    Window,
    Limits,
}

/// A place in a plant. Entries are numbered from 1 within their section; 0 stands for the section
/// as a whole.
#[derive(Clone, Copy, Debug, PartialEq, Eq)]
pub struct Place {
    pub section: Section,
    pub index: u32,
    pub key: Key,
}

/// A fault of a plant, by its number in the table of faults.
#[derive(Clone, Copy, Debug, PartialEq, Eq)]
pub struct PlantFault {
    pub number: u8,
    pub place: Place,
}

/// Why parts are no plant.
#[derive(Clone, Copy, Debug, PartialEq, Eq)]
pub enum PlantNewFault {
    Fault(PlantFault),
    Memory,
}
