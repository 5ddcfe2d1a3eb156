ghost use Rattle.std.specs.Prelude.{◌≡◌};
ghost use Rattle.dossier_text.specs.declared.fault.DossierFault.TheVariants.{Memory};

use std::alloc::AllocError;
use thiserror::Error;

/// Why a file is no dossier: its first line with a fault, counted from 1.
#[derive(Debug, Drop, Error)]
pub enum DossierFault {
    #[error("line {0} has not its form")]
    Line(u32),
    #[error("line {0} has too many")]
    TooMany(u32),
    #[error("out of memory")]
    Memory,
}

impl From<AllocError> for DossierFault {
    ghost from_gives = { λ _ fault. fault ≡ Memory };

    fn from(_error: AllocError) -> DossierFault {
        DossierFault::Memory
    }
}
