ghost use Rattle.std.specs.Prelude.{◌≡◌};
ghost use Rattle.std.specs.Result.{result_err};
ghost use Rattle.item_lists.specs.Faults.{first_of};
ghost use Rattle.plant_model.specs.Faults.{berth_faults, demurrage_faults, berthing_faults};
ghost use Rattle.plant_model.specs.inside.SoundParts.{FewEntries};

use crate::faults::each::{expect_at, first_of_each};
use crate::numbers::is_within;
use crate::parts::{Parts, VesselPart};
use crate::place::{Key, PlantFault, Section};
use limits::{MOST_BERTHS, MOST_DEMURRAGE};

fn berth_fault(index: u32, vessel: &VesselPart) -> Result<(), PlantFault>
    ensures { result_err result ≡ first_of (berth_faults index vessel.now) }
{
    expect_at(
        is_within(1, MOST_BERTHS as i64, vessel.berth),
        23,
        Section::Vessels,
        index,
        Key::Berth,
    )
}

fn demurrage_fault(index: u32, vessel: &VesselPart) -> Result<(), PlantFault>
    ensures { result_err result ≡ first_of (demurrage_faults index vessel.now) }
{
    expect_at(
        is_within(0, MOST_DEMURRAGE as i64, vessel.demurrage),
        24,
        Section::Vessels,
        index,
        Key::Demurrage,
    )
}

/// Berths of vessels, and what they pay.
#[tactic(auto, using(item_lists::proofs::FaultLaws::first_fault), unfolding(crate::specs::Faults::berthing_faults))]
pub(crate) fn berths_and_demurrages(parts: &Parts) -> Result<(), PlantFault>
    requires { FewEntries parts.now }
    ensures { result_err result ≡ first_of (berthing_faults parts.now) }
{
    let vessels = parts.vessels.as_slice();
    first_of_each(vessels, berth_fault)?;
    first_of_each(vessels, demurrage_fault)
}
