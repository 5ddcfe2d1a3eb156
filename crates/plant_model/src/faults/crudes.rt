ghost use Rattle.std.specs.Prelude.{◌≡◌, length};
ghost use Rattle.std.specs.Result.{result_err};
ghost use Rattle.item_lists.specs.Faults.{first_of};
ghost use Rattle.plant_model.specs.Faults.{margin_faults, property_count_faults, property_faults, crude_faults};
ghost use Rattle.plant_model.specs.inside.SoundParts.{FewEntries};

use crate::faults::each::{expect_at, first_of_each};
use crate::numbers::{all_within, is_within};
use crate::parts::{CrudePart, Parts};
use crate::place::{Key, PlantFault, Section};
use limits::{MOST_MARGIN, MOST_PROPERTY};

fn margin_fault(index: u32, crude: &CrudePart) -> Result<(), PlantFault>
    ensures { result_err result ≡ first_of (margin_faults index crude.now) }
{
    expect_at(
        is_within(-(MOST_MARGIN as i64), MOST_MARGIN as i64, crude.margin),
        10,
        Section::Crudes,
        index,
        Key::Margin,
    )
}

fn property_count_fault(count: usize, index: u32, crude: &CrudePart) -> Result<(), PlantFault>
    ensures { result_err result ≡ first_of (property_count_faults count index crude.now) }
{
    expect_at(
        crude.properties.as_slice().len() == count,
        11,
        Section::Crudes,
        index,
        Key::Properties,
    )
}

fn property_fault(index: u32, crude: &CrudePart) -> Result<(), PlantFault>
    ensures { result_err result ≡ first_of (property_faults index crude.now) }
{
    expect_at(
        all_within(0, MOST_PROPERTY as i64, crude.properties.as_slice()),
        12,
        Section::Crudes,
        index,
        Key::Properties,
    )
}

/// Margins and properties of crudes.
#[tactic(auto, using(item_lists::proofs::FaultLaws::first_fault), unfolding(crate::specs::Faults::crude_faults))]
pub(crate) fn crudes(parts: &Parts) -> Result<(), PlantFault>
    requires { FewEntries parts.now }
    ensures { result_err result ≡ first_of (crude_faults parts.now) }
{
    let crudes = parts.crudes.as_slice();
    let count = parts.properties.as_slice().len();
    first_of_each(crudes, margin_fault)?;
    first_of_each(
        crudes,
        |index: u32, crude: &CrudePart| property_count_fault(count, index, crude),
    )?;
    first_of_each(crudes, property_fault)
}
