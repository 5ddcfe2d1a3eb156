ghost use Rattle.std.specs.Prelude.{◌≡◌, Ok, ◌∷◌, ◌++◌, pos, map, IfOk, OnOk};
ghost use Rattle.plant_text.specs.Canonical.{behind_commas, with_commas, has_demurrage, has_berths, format_for, format_number, section_text, front_members, place_members, plant_text_of, place_text_of};
ghost use Rattle.plant_text.specs.PlantText.{plant_of};
ghost use Rattle.plant_text.specs.Laws.{PlantsAreReadBack, AcceptedPlantsAreReadBack, TextsTellPlants};

use crate::entry_writers::{
    ChargingWriter, CrudeWriter, OperationWriter, StorageWriter, UnitWriter, VesselWriter,
};
use crate::kinds::PlantFormat;
use crate::members::number_member;
use crate::names::{key_name, section_name};
use crate::writing::{ItemWriter, NameWriter, write_list, write_quoted};
use line_text::{push_number, push_text, push_word};
use plant_model::{Key, Parts, Place, Plant, Section, VesselPart};
use std::alloc::{AllocError, Global};

fn has_demurrage(vessels: &[VesselPart]) -> bool
    ensures { result ≡ has_demurrage vessels.now }
{
    vessels.iter().any(|vessel| vessel.demurrage != 0)
}

fn has_berths(vessels: &[VesselPart]) -> bool
    ensures { result ≡ has_berths vessels.now }
{
    vessels.iter().any(|vessel| vessel.berth != 1)
}

/// The first format that tells all of the vessels.
fn format_for(vessels: &[VesselPart]) -> PlantFormat
    ensures { result ≡ format_for vessels.now }
{
    if has_demurrage(vessels) {
        PlantFormat::Three
    } else if has_berths(vessels) {
        PlantFormat::Two
    } else {
        PlantFormat::One
    }
}

fn format_number(format: PlantFormat) -> i64
    ensures { result ≡ pos (format_number format) }
{
    match format {
        PlantFormat::One => 1,
        PlantFormat::Two => 2,
        PlantFormat::Three => 3,
    }
}

/// Writes the list of a section, behind the comma that stands before it.
#[tactic(auto, unfolding(crate::specs::Canonical::member_text))]
fn write_section<W: ItemWriter>(
    out: &mut Vec<u8>,
    section: Section,
    writer: &W,
    items: &[W::Item],
) -> Result<(), AllocError>
    ensures { OnOk result (out.new.items
        ≡ out.old.items ++ 44 ∷ section_text section (map (W.text writer.now) items.now)) }
{
    push_text(out, b",")?;
    write_quoted(out, section_name(section).as_bytes())?;
    push_text(out, b":")?;
    write_list(out, writer, items)
}

/// Writes the format and the horizon, the properties and the crudes, behind the brace that opens the plant.
#[tactic(auto, unfolding(crate::specs::Canonical::front_members))]
fn write_front(out: &mut Vec<u8>, format: PlantFormat, parts: &Parts) -> Result<(), AllocError>
    ensures { OnOk result (out.new.items ≡ out.old.items ++ 123 ∷ with_commas (front_members format parts.now)) }
{
    number_member(out, b'{', Key::Format, format_number(format))?;
    number_member(out, b',', Key::Horizon, parts.horizon)?;
    write_section(
        out,
        Section::Properties,
        &NameWriter,
        parts.properties.as_slice(),
    )?;
    write_section(out, Section::Crudes, &CrudeWriter, parts.crudes.as_slice())
}

/// Writes the lists of all places.
#[tactic(auto, unfolding(crate::specs::Canonical::place_members))]
fn write_places(out: &mut Vec<u8>, format: PlantFormat, parts: &Parts) -> Result<(), AllocError>
    ensures { OnOk result (out.new.items ≡ out.old.items ++ behind_commas (place_members format parts.now)) }
{
    write_section(
        out,
        Section::Vessels,
        &VesselWriter { format },
        parts.vessels.as_slice(),
    )?;
    write_section(
        out,
        Section::Storage,
        &StorageWriter,
        parts.storage.as_slice(),
    )?;
    write_section(
        out,
        Section::Charging,
        &ChargingWriter,
        parts.charging.as_slice(),
    )?;
    write_section(out, Section::Units, &UnitWriter, parts.units.as_slice())
}

/// Writes the text of a plant of these parts.
fn write_plant(out: &mut Vec<u8>, parts: &Parts) -> Result<(), AllocError>
    ensures { OnOk result (out.new.items ≡ out.old.items ++ plant_text_of parts.now) }
{
    let format = format_for(parts.vessels.as_slice());
    write_front(out, format, parts)?;
    write_places(out, format, parts)?;
    write_section(
        out,
        Section::Operations,
        &OperationWriter,
        parts.operations.as_slice(),
    )?;
    push_text(out, b"}\n")
}

/// The one text of the plant, of the first format that tells all of it.
pub fn print_plant(alloc: Global, plant: &Plant) -> Result<Vec<u8>, AllocError>
    ensures text { IfOk result (λ text. text.items ≡ plant_text_of plant.now) }
    ensures reads_back { IfOk result (λ text. plant_of text.items ≡ Ok plant.now) }
{
    plant.sound();
    let mut out = Vec::new(alloc);
    write_plant(&mut out, plant.as_parts())?;
    Ok(out)
}

/// The place in three words, without a line feed.
pub fn print_place(alloc: Global, place: &Place) -> Result<Vec<u8>, AllocError>
    ensures { IfOk result (λ text. text.items ≡ place_text_of place.now) }
{
    let mut out = Vec::new(alloc);
    push_text(&mut out, section_name(place.section).as_bytes())?;
    push_number(&mut out, u64::from(place.index))?;
    push_word(&mut out, key_name(place.key).as_bytes())?;
    Ok(out)
}

/// The text of each plant is read as that plant, so that plants with one text are one plant. It does nothing
/// when it runs.
pub fn plant_text_laws()
    ensures read_back { PlantsAreReadBack }
    ensures accepted { AcceptedPlantsAreReadBack }
    ensures one_plant { TextsTellPlants }
{}
