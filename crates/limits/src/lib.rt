//! The limits of the planner, each by one name.
//!
//! To the crates above this crate promises only its numbers: what a plant, a plan, a search, a dossier or a file
//! may come to at most. Clauses and definitions cite a limit by its name from here, so that it stands in one place and
//! a reader finds it by its word; a number that only keeps arithmetic within its width stands where it is used.
//! Minutes, volume units and margins are meant where a line does not say otherwise.
//!
//! Begin with the plant's, which the other limits follow from.
#![tactic(auto)]

// ---- the plant

/// The longest horizon, in minutes.
pub const MOST_HORIZON: u32 = 100_000;

/// The most crudes of a plant. It has one at least.
pub const MOST_CRUDES: u8 = 12;

/// The most properties that the crudes of a plant have.
pub const MOST_PROPERTIES: u8 = 6;

/// The most vessels of a plant.
pub const MOST_VESSELS: u8 = 12;

/// The most tanks of a plant, storage and charging together.
pub const MOST_TANKS: u8 = 24;

/// The most units of a plant.
pub const MOST_UNITS: u8 = 6;

/// The most places of a plant: vessels, tanks and units.
pub const MOST_PLACES: u8 = 42;

/// The most operations of a plant.
pub const MOST_OPERATIONS: u8 = 48;

/// The greatest number of a berth. The first is 1.
pub const MOST_BERTHS: u8 = 12;

/// The most that a vessel pays for a minute, in margin.
pub const MOST_DEMURRAGE: u32 = 1_000;

/// The greatest volume, level or demand, and the most that a vessel or tank holds at first, in volume units.
pub const MOST_VOLUME: u32 = 10_000_000;

/// The most that amounts of crudes may come to in all while they are added up, in volume units.
pub const MOST_AMOUNT: u64 = 1_099_511_627_776;

/// The greatest rate, in volume units for each 1440 minutes.
pub const MOST_RATE: u32 = 10_000_000;

/// The most that a volume unit of a crude earns or costs, in margin.
pub const MOST_MARGIN: u32 = 1_000_000;

/// The greatest value and the greatest limit of a property.
pub const MOST_PROPERTY: u32 = 1_000_000;

/// The most bytes of a name.
pub const LONGEST_NAME: usize = 32;

// ---- plans and their search

/// The most slots of a search, and so the most operations of a plan that it may find. A unit has no more charges.
pub const MOST_SLOTS: u8 = 40;

/// The most operations of a plan that is replayed.
pub const MOST_STEPS: u32 = 1_000;

/// The most nodes that a search may divide.
pub const MOST_NODES: u32 = 65_535;

/// The most workers of a search. It has one at least.
pub const MOST_WORKERS: u32 = 16;

/// The most seats of a board at which workers share a search.
pub const MOST_SEATS: u32 = 32;

/// The greatest margin that a worker offers the others, and the least one without its sign.
pub const MOST_OFFER: u64 = 1_152_921_504_606_846_976;

// ---- rows and their duals

/// The greatest multiplier of a row, and the greatest denominator of multipliers.
pub const MOST_MULTIPLIER: u64 = 4_294_967_296;

/// So many pieces, each with a factor of no more than the greatest volume, surely make a row whose sums fit. A row of
/// one piece for each crude and each vessel of a plant has far fewer.
pub const MOST_PIECES: usize = 64;

/// The most rows that a leaf names.
pub const MOST_ROWS: u32 = 512;

/// The most columns of a slot form.
pub const MOST_COLUMNS: u32 = 65_535;

/// The most columns of a form whose multipliers are looked for by the simplex.
pub const SIMPLEX_COLUMNS: u32 = 4_000;

/// The most pivots of the simplex.
pub const SIMPLEX_PIVOTS: u32 = 2_000;

// ---- cuts

/// The most cuts that a dossier has.
pub const MOST_CUTS: u32 = 4_352;

/// The most cuts in a worker's list, its own and those of others together.
pub const MOST_OWN_CUTS: u32 = 256;

/// The greatest denominator of a cut.
pub const MOST_CUT_DENOMINATOR: u32 = 1_024;

/// The greatest weight of a cut, and its greatest `p`, in absolute value.
pub const MOST_CUT_WEIGHT: u32 = 1_048_576;

// ---- files

/// The longest plant file, in bytes.
pub const PLANT_FILE_LIMIT: u64 = 4_194_304;

/// The longest plan file, in bytes.
pub const PLAN_FILE_LIMIT: u64 = 4_194_304;

/// The longest dossier file, in bytes.
pub const DOSSIER_FILE_LIMIT: u64 = 1_073_741_824;
