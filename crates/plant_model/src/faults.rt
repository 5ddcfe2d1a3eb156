ghost use Rattle.std.specs.Prelude.{◌≡◌};
ghost use Rattle.std.specs.Result.{result_err};
ghost use Rattle.item_lists.specs.Faults.{first_of};
ghost use Rattle.plant_model.specs.Faults.{entry_faults, faults_of};
ghost use Rattle.plant_model.specs.inside.SoundParts.{FewEntries};

mod amounts;
mod arrivals;
mod berths;
mod counts;
mod crudes;
mod each;
mod levels;
mod names;
mod operations;

use crate::faults::amounts::amounts;
use crate::faults::arrivals::arrivals;
use crate::faults::berths::berths_and_demurrages;
use crate::faults::counts::counts;
use crate::faults::crudes::crudes;
use crate::faults::levels::levels_and_demands;
use crate::faults::names::{names, repeated_names};
use crate::faults::operations::operations;
use crate::parts::Parts;
use crate::place::PlantFault;

/// The first fault of the entries, in sections of which none is too long.
#[tactic(auto, using(item_lists::proofs::FaultLaws::first_fault), unfolding(crate::specs::Faults::entry_faults))]
fn entries(parts: &Parts) -> Result<(), PlantFault>
    requires { FewEntries parts.now }
    ensures { result_err result ≡ first_of (entry_faults parts.now) }
{
    names(parts)?;
    repeated_names(parts)?;
    crudes(parts)?;
    amounts(parts)?;
    arrivals(parts)?;
    levels_and_demands(parts)?;
    operations(parts)?;
    berths_and_demurrages(parts)
}

/// The first fault of the parts. Sections that are too long are refused before any is gone through.
#[tactic(auto, using(item_lists::proofs::FaultLaws::first_fault), unfolding(crate::specs::Faults::faults_of))]
pub(crate) fn first_fault(parts: &Parts) -> Result<(), PlantFault>
    ensures { result_err result ≡ first_of (faults_of parts.now) }
{
    counts(parts)?;
    entries(parts)
}
