ghost use Rattle.std.specs.Prelude.{◌≡◌, ◌<◌, length};
ghost use Rattle.std.specs.Result.{result_err};
ghost use Rattle.item_lists.specs.Faults.{first_of, each_from};
ghost use Rattle.plant_model.specs.Faults.{level_faults, first_level_faults, demand_faults, charge_count_faults, level_and_demand_faults};
ghost use Rattle.plant_model.specs.inside.SoundParts.{FewEntries};

use crate::faults::each::{expect_at, first_of_each};
use crate::numbers::{is_range, total_of};
use crate::parts::{Pair, Parts, TankPart, UnitPart};
use crate::place::{Key, PlantFault, Section};
use limits::{MOST_SLOTS, MOST_VOLUME};

fn level_fault(section: Section, index: u32, tank: &TankPart) -> Result<(), PlantFault>
    ensures { result_err result ≡ first_of (level_faults section index tank.now) }
{
    let levels = Pair {
        lo: tank.min,
        hi: tank.max,
    };
    expect_at(
        is_range(0, MOST_VOLUME as i64, levels),
        17,
        section,
        index,
        Key::Min,
    )
}

fn levels(section: Section, tanks: &[TankPart]) -> Result<(), PlantFault>
    requires { length tanks.now < 50 }
    ensures { result_err result ≡ first_of (each_from (level_faults section) 1 tanks.now) }
{
    first_of_each(
        tanks,
        |index: u32, tank: &TankPart| level_fault(section, index, tank),
    )
}

fn first_level_fault(section: Section, index: u32, tank: &TankPart) -> Result<(), PlantFault>
    ensures { result_err result ≡ first_of (first_level_faults section index tank.now) }
{
    let total = total_of(tank.amounts.as_slice());
    let holds = i128::from(tank.min) <= total && total <= i128::from(tank.max);
    expect_at(holds, 18, section, index, Key::Amounts)
}

fn first_levels(section: Section, tanks: &[TankPart]) -> Result<(), PlantFault>
    requires { length tanks.now < 50 }
    ensures { result_err result ≡ first_of (each_from (first_level_faults section) 1 tanks.now) }
{
    first_of_each(
        tanks,
        |index: u32, tank: &TankPart| first_level_fault(section, index, tank),
    )
}

fn demand_fault(index: u32, tank: &TankPart) -> Result<(), PlantFault>
    ensures { result_err result ≡ first_of (demand_faults index tank.now) }
{
    expect_at(
        is_range(0, MOST_VOLUME as i64, tank.demand),
        19,
        Section::Charging,
        index,
        Key::Demand,
    )
}

fn charge_count_fault(index: u32, part: &UnitPart) -> Result<(), PlantFault>
    ensures { result_err result ≡ first_of (charge_count_faults index part.now) }
{
    expect_at(
        is_range(0, MOST_SLOTS as i64, part.charges),
        19,
        Section::Units,
        index,
        Key::Charges,
    )
}

/// Levels of tanks, demands, and numbers of charges.
#[tactic(auto, using(item_lists::proofs::FaultLaws::first_fault), unfolding(crate::specs::Faults::level_and_demand_faults))]
pub(crate) fn levels_and_demands(parts: &Parts) -> Result<(), PlantFault>
    requires { FewEntries parts.now }
    ensures { result_err result ≡ first_of (level_and_demand_faults parts.now) }
{
    let storage = parts.storage.as_slice();
    let charging = parts.charging.as_slice();
    levels(Section::Storage, storage)?;
    levels(Section::Charging, charging)?;
    first_levels(Section::Storage, storage)?;
    first_levels(Section::Charging, charging)?;
    first_of_each(charging, demand_fault)?;
    first_of_each(parts.units.as_slice(), charge_count_fault)
}
