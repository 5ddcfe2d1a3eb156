ghost use Rattle.std.specs.Prelude.{◌≡◌, ◌<◌, length};
ghost use Rattle.std.specs.Result.{result_err};
ghost use Rattle.item_lists.specs.Faults.{first_of, each_from};
ghost use Rattle.plant_model.specs.Parts.{position_of};
ghost use Rattle.plant_model.specs.Faults.{names_beside, names_before, name_faults, repeat_faults, all_name_faults, all_repeat_faults};
ghost use Rattle.plant_model.specs.inside.SoundParts.{FewEntries};

use crate::faults::each::{expect_at, first_of_each};
use crate::named::{Named, first_named, place_by_name};
use crate::parts::Parts;
use crate::place::{Key, PlantFault, Section};
use line_text::is_name;

fn form_fault(section: Section, index: u32, name: &[u8]) -> Result<(), PlantFault>
    ensures { result_err result ≡ first_of (name_faults section index name.now) }
{
    expect_at(is_name(name), 8, section, index, Key::Name)
}

fn form_of_each<T: Named>(section: Section, entries: &[T]) -> Result<(), PlantFault>
    requires { length entries.now < 50 }
    ensures { result_err result
        ≡ first_of (each_from (λ index entry. name_faults section index (T.name_of entry)) 1 entries.now) }
{
    first_of_each(
        entries,
        |index: u32, entry: &T| form_fault(section, index, entry.name()),
    )
}

/// Names that have not the form of names.
#[tactic(auto, using(item_lists::proofs::FaultLaws::first_fault), unfolding(crate::specs::Faults::all_name_faults))]
pub(crate) fn names(parts: &Parts) -> Result<(), PlantFault>
    requires { FewEntries parts.now }
    ensures { result_err result ≡ first_of (all_name_faults parts.now) }
{
    form_of_each(Section::Properties, parts.properties.as_slice())?;
    form_of_each(Section::Crudes, parts.crudes.as_slice())?;
    form_of_each(Section::Vessels, parts.vessels.as_slice())?;
    form_of_each(Section::Storage, parts.storage.as_slice())?;
    form_of_each(Section::Charging, parts.charging.as_slice())?;
    form_of_each(Section::Units, parts.units.as_slice())?;
    form_of_each(Section::Operations, parts.operations.as_slice())
}

/// The number of the first with the name, among the names where those of the section stand once.
#[tactic(auto, unfolding(crate::specs::Parts::place_by_name_of))]
fn first_beside(parts: &Parts, section: Section, name: &[u8]) -> usize
    requires { FewEntries parts.now }
    ensures { result ≡ position_of name.now (names_beside parts.now section) }
{
    match section {
        Section::Plant => 0,
        Section::Properties => first_named(parts.properties.as_slice(), name),
        Section::Crudes => first_named(parts.crudes.as_slice(), name),
        Section::Vessels | Section::Storage | Section::Charging | Section::Units => {
            place_by_name(parts, name)
        }
        Section::Operations => first_named(parts.operations.as_slice(), name),
    }
}

/// How many of these stand before the section.
fn names_before(parts: &Parts, section: Section) -> usize
    requires { FewEntries parts.now }
    ensures value { result ≡ names_before parts.now section }
    ensures few { result < 50 }
{
    let vessels = parts.vessels.as_slice().len();
    let storage_end = vessels + parts.storage.as_slice().len();
    match section {
        Section::Storage => vessels,
        Section::Charging => storage_end,
        Section::Units => storage_end + parts.charging.as_slice().len(),
        Section::Plant
        | Section::Properties
        | Section::Crudes
        | Section::Vessels
        | Section::Operations => 0,
    }
}

fn repeat_fault(parts: &Parts, section: Section, index: u32, name: &[u8]) -> Result<(), PlantFault>
    requires { FewEntries parts.now }
    ensures { result_err result ≡ first_of (repeat_faults parts.now section index name.now) }
{
    let number = (names_before(parts, section) + index as usize).saturating_sub(1);
    expect_at(
        first_beside(parts, section, name) == number,
        9,
        section,
        index,
        Key::Name,
    )
}

fn repeats<T: Named>(parts: &Parts, section: Section, entries: &[T]) -> Result<(), PlantFault>
    requires few { FewEntries parts.now }
    requires few_here { length entries.now < 50 }
    ensures { result_err result
        ≡ first_of (each_from (λ index entry. repeat_faults parts.now section index (T.name_of entry)) 1 entries.now) }
{
    first_of_each(
        entries,
        |index: u32, entry: &T|
            requires { FewEntries parts.now }
        { repeat_fault(parts, section, index, entry.name()) },
    )
}

/// Names that stood before, among the properties, the crudes, the places or the operations.
#[tactic(auto, using(item_lists::proofs::FaultLaws::first_fault), unfolding(crate::specs::Faults::all_repeat_faults))]
pub(crate) fn repeated_names(parts: &Parts) -> Result<(), PlantFault>
    requires { FewEntries parts.now }
    ensures { result_err result ≡ first_of (all_repeat_faults parts.now) }
{
    repeats(parts, Section::Properties, parts.properties.as_slice())?;
    repeats(parts, Section::Crudes, parts.crudes.as_slice())?;
    repeats(parts, Section::Vessels, parts.vessels.as_slice())?;
    repeats(parts, Section::Storage, parts.storage.as_slice())?;
    repeats(parts, Section::Charging, parts.charging.as_slice())?;
    repeats(parts, Section::Units, parts.units.as_slice())?;
    repeats(parts, Section::Operations, parts.operations.as_slice())
}
