ghost use Rattle.std.specs.Prelude.{◌≡◌, OnOk};
ghost use Rattle.std.specs.Result.{result_err};
ghost use Rattle.item_lists.specs.Faults.{first_of};
ghost use Rattle.plant_model.specs.Faults.{count_faults};
ghost use Rattle.plant_model.specs.inside.SoundParts.{FewEntries};

use crate::faults::each::expect_at;
use crate::numbers::is_within;
use crate::parts::Parts;
use crate::place::{Key, PlantFault, Section};
use limits::{
    MOST_CRUDES, MOST_HORIZON, MOST_OPERATIONS, MOST_PROPERTIES, MOST_TANKS, MOST_UNITS,
    MOST_VESSELS,
};

/// The horizon, and how many entries the sections have.
#[tactic(auto, using(item_lists::proofs::FaultLaws::first_fault), unfolding(crate::specs::Faults::count_faults))]
pub(crate) fn counts(parts: &Parts) -> Result<(), PlantFault>
    ensures { result_err result ≡ first_of (count_faults parts.now) }
{
    let crudes = parts.crudes.as_slice().len();
    let tanks = parts
        .storage
        .as_slice()
        .len()
        .saturating_add(parts.charging.as_slice().len());
    expect_at(
        is_within(1, MOST_HORIZON as i64, parts.horizon),
        1,
        Section::Plant,
        0,
        Key::Horizon,
    )?;
    expect_at(
        1 <= crudes && crudes <= MOST_CRUDES as usize,
        2,
        Section::Crudes,
        0,
        Key::List,
    )?;
    expect_at(
        parts.properties.as_slice().len() <= MOST_PROPERTIES as usize,
        3,
        Section::Properties,
        0,
        Key::List,
    )?;
    expect_at(
        parts.vessels.as_slice().len() <= MOST_VESSELS as usize,
        4,
        Section::Vessels,
        0,
        Key::List,
    )?;
    expect_at(
        tanks <= MOST_TANKS as usize,
        5,
        Section::Storage,
        0,
        Key::List,
    )?;
    expect_at(
        parts.units.as_slice().len() <= MOST_UNITS as usize,
        6,
        Section::Units,
        0,
        Key::List,
    )?;
    expect_at(
        parts.operations.as_slice().len() <= MOST_OPERATIONS as usize,
        7,
        Section::Operations,
        0,
        Key::List,
    )
}
