ghost use Rattle.std.specs.Prelude.{◌≡◌};
ghost use Rattle.std.specs.Result.{result_err};
ghost use Rattle.item_lists.specs.Faults.{first_of};
ghost use Rattle.plant_model.specs.Faults.{arrival_faults, arrival_before, arrival_order_faults, all_arrival_faults};
ghost use Rattle.plant_model.specs.inside.SoundParts.{FewEntries};

use crate::faults::each::{expect_at, first_of_each};
use crate::numbers::is_within;
use crate::parts::{Parts, VesselPart};
use crate::place::{Key, PlantFault, Section};

fn arrival_fault(horizon: i64, index: u32, vessel: &VesselPart) -> Result<(), PlantFault>
    ensures { result_err result ≡ first_of (arrival_faults horizon index vessel.now) }
{
    expect_at(
        is_within(0, horizon, vessel.arrival),
        15,
        Section::Vessels,
        index,
        Key::Arrival,
    )
}

/// The arrival of the vessel before the one at the index, or its own where it is the first.
fn arrival_before(vessels: &[VesselPart], index: u32, own: i64) -> i64
    ensures { result ≡ arrival_before vessels.now index own }
{
    match vessels.get(index.saturating_sub(2) as usize) {
        Some(before) => before.arrival,
        None => own,
    }
}

fn arrival_order_fault(
    vessels: &[VesselPart],
    index: u32,
    vessel: &VesselPart,
) -> Result<(), PlantFault>
    ensures { result_err result ≡ first_of (arrival_order_faults vessels.now index vessel.now) }
{
    let before = arrival_before(vessels, index, vessel.arrival);
    expect_at(
        before <= vessel.arrival,
        16,
        Section::Vessels,
        index,
        Key::Arrival,
    )
}

/// Arrivals within the horizon, and in the order of the vessels.
#[tactic(auto, using(item_lists::proofs::FaultLaws::first_fault), unfolding(crate::specs::Faults::all_arrival_faults))]
pub(crate) fn arrivals(parts: &Parts) -> Result<(), PlantFault>
    requires { FewEntries parts.now }
    ensures { result_err result ≡ first_of (all_arrival_faults parts.now) }
{
    let vessels = parts.vessels.as_slice();
    let horizon = parts.horizon;
    first_of_each(
        vessels,
        |index: u32, vessel: &VesselPart| arrival_fault(horizon, index, vessel),
    )?;
    first_of_each(
        vessels,
        |index: u32, vessel: &VesselPart| arrival_order_fault(vessels, index, vessel),
    )
}
