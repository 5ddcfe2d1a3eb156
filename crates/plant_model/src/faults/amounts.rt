ghost use Rattle.std.specs.Prelude.{◌≡◌, ◌<◌, ℤ, List, length};
ghost use Rattle.std.specs.Result.{result_err};
ghost use Rattle.item_lists.specs.Faults.{first_of, each_from};
ghost use Rattle.plant_model.specs.Faults.{amount_count_faults, amount_faults, each_amounts, all_amount_faults};
ghost use Rattle.plant_model.specs.inside.SoundParts.{FewEntries};

use crate::faults::each::{expect_at, first_of_each};
use crate::numbers::{all_within, total_of};
use crate::parts::{Parts, TankPart, VesselPart};
use crate::place::{Key, PlantFault, Section};
use limits::MOST_VOLUME;

/// An entry that holds crude.
trait Holder {
    ghost amounts_of: { Self → List ℤ };

    fn amounts(&self) -> &[i64]
        ensures { result.now ≡ amounts_of self.now };
}

impl Holder for VesselPart {
    ghost amounts_of = { λ vessel. vessel.amounts };

    fn amounts(&self) -> &[i64] {
        self.amounts.as_slice()
    }
}

impl Holder for TankPart {
    ghost amounts_of = { λ tank. tank.amounts };

    fn amounts(&self) -> &[i64] {
        self.amounts.as_slice()
    }
}

fn count_fault(
    count: usize,
    section: Section,
    index: u32,
    amounts: &[i64],
) -> Result<(), PlantFault>
    ensures { result_err result ≡ first_of (amount_count_faults count section index amounts.now) }
{
    expect_at(amounts.len() == count, 13, section, index, Key::Amounts)
}

fn counts<T: Holder>(count: usize, section: Section, entries: &[T]) -> Result<(), PlantFault>
    requires { length entries.now < 50 }
    ensures { result_err result
        ≡ first_of (each_from (λ i entry. amount_count_faults count section i (T.amounts_of entry)) 1 entries.now) }
{
    first_of_each(
        entries,
        |index: u32, entry: &T| count_fault(count, section, index, entry.amounts()),
    )
}

#[tactic(auto, using(item_lists::proofs::FaultLaws::first_fault))]
fn all_counts(parts: &Parts) -> Result<(), PlantFault>
    requires { FewEntries parts.now }
    ensures { result_err result ≡ first_of (each_amounts (amount_count_faults (length parts.now.crudes)) parts.now) }
{
    let count = parts.crudes.as_slice().len();
    counts(count, Section::Vessels, parts.vessels.as_slice())?;
    counts(count, Section::Storage, parts.storage.as_slice())?;
    counts(count, Section::Charging, parts.charging.as_slice())
}

fn range_fault(section: Section, index: u32, amounts: &[i64]) -> Result<(), PlantFault>
    ensures { result_err result ≡ first_of (amount_faults section index amounts.now) }
{
    let holds = all_within(0, MOST_VOLUME as i64, amounts)
        && total_of(amounts) <= MOST_VOLUME as i128;
    expect_at(holds, 14, section, index, Key::Amounts)
}

fn ranges<T: Holder>(section: Section, entries: &[T]) -> Result<(), PlantFault>
    requires { length entries.now < 50 }
    ensures { result_err result
        ≡ first_of (each_from (λ i entry. amount_faults section i (T.amounts_of entry)) 1 entries.now) }
{
    first_of_each(
        entries,
        |index: u32, entry: &T| range_fault(section, index, entry.amounts()),
    )
}

#[tactic(auto, using(item_lists::proofs::FaultLaws::first_fault))]
fn all_ranges(parts: &Parts) -> Result<(), PlantFault>
    requires { FewEntries parts.now }
    ensures { result_err result ≡ first_of (each_amounts amount_faults parts.now) }
{
    ranges(Section::Vessels, parts.vessels.as_slice())?;
    ranges(Section::Storage, parts.storage.as_slice())?;
    ranges(Section::Charging, parts.charging.as_slice())
}

/// What vessels and tanks hold.
#[tactic(auto, using(item_lists::proofs::FaultLaws::first_fault), unfolding(crate::specs::Faults::all_amount_faults))]
pub(crate) fn amounts(parts: &Parts) -> Result<(), PlantFault>
    requires { FewEntries parts.now }
    ensures { result_err result ≡ first_of (all_amount_faults parts.now) }
{
    all_counts(parts)?;
    all_ranges(parts)
}
