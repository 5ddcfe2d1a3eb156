ghost use Rattle.std.specs.Prelude.{◌≡◌};
ghost use Rattle.plant_text.specs.declared.fault.PlantTextFault.TheVariants.{Memory};

use plant_model::{Place, PlantFault};
use std::alloc::{AllocError, AllocFailed};
use thiserror::Error;

/// Why bytes are no plant.
#[derive(Debug, Drop, Error)]
pub enum PlantTextFault {
    /// They are no JSON.
    #[error("no JSON")]
    Json,
    /// The value has not its form at this place.
    #[error("not the form of a plant")]
    Shape(Place),
    /// The parts have this fault.
    #[error("a fault of the plant")]
    Plant(PlantFault),
    /// Memory ran out.
    #[error("out of memory")]
    Memory,
}

impl From<AllocError> for PlantTextFault {
    ghost from_gives = { λ _ fault. fault ≡ Memory };

    fn from(_refused: AllocError) -> PlantTextFault {
        PlantTextFault::Memory
    }
}

impl<T: Drop> From<AllocFailed<T>> for PlantTextFault {
    ghost from_gives = { λ _ fault. fault ≡ Memory };

    fn from(_refused: AllocFailed<T>) -> PlantTextFault {
        PlantTextFault::Memory
    }
}
