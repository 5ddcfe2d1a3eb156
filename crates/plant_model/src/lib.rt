//! A refinery's front end: crudes, vessels, storage and charging tanks, distillation units, and the
//! operations that move crude from one to the next.
//!
//! [`Parts`] are a plant as it is given, sound or not. [`Plant::new`] is the test: it refuses parts with
//! the first of the 24 faults that stand in them, exactly where one stands, and tells its place. What it
//! makes is a [`Plant`], which contracts see as its parts and in which nothing is wrong. To the crates
//! above, this crate promises that the readers of a plant give its parts, places and operations by
//! number, and each within its range; that [`Plant::refused_at_once`] says exactly which two operations
//! may not run at one moment, and [`Plant::ordered`] which two may not change places.
//!
//! Crudes, properties, places and operations are numbered from 0, places in the order vessels, storage
//! tanks, charging tanks, units.
//!
//! Begin with `parts` and `details`, then `plant`. What the readers give is defined in `specs/Parts`,
//! the faults in `specs/Faults`, the relations in `specs/Relations`, and what holds of every plant in
//! `specs/Sound`.
#![tactic(auto)]

mod details;
mod faults;
mod making;
mod named;
mod numbers;
mod parts;
mod place;
mod place_part;
mod plant;
mod relations;

pub use details::{Op, OpKind, PlaceInfo, PlaceKind};
pub use parts::{
    CrudePart, Crudes, Name, Names, Numbers, OperationPart, Operations, Pair, Pairs, Parts,
    TankPart, Tanks, Text, UnitPart, Units, VesselPart, Vessels,
};
pub use place::{Key, Place, PlantFault, PlantNewFault, Section};
pub use plant::Plant;
