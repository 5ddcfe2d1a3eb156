ghost use Rattle.std.specs.Prelude.{◌≡◌};
ghost use Rattle.serde_json.specs.View.{view, items_view};
ghost use Rattle.plant_text.specs.Walk.{section_of, sections_of, Sections};
ghost use Rattle.plant_text.specs.Kinds.{whole_number};
ghost use Rattle.plant_text.specs.Gives.{Gives};
ghost use Rattle.plant_text.specs.inside.Seen.{lists_seen};

use crate::entry::Entry;
use crate::fault::PlantTextFault;
use crate::kinds::PlantFormat;
use crate::names::section_name;
use plant_model::{Key, Place, Section};
use serde_json::Value;

/// What a plant text has on its first level: its format, the horizon in minutes, and a list for each section.
#[derive(Drop)]
pub(crate) struct SectionLists<'a> {
    pub(crate) format: PlantFormat,
    pub(crate) horizon: i64,
    pub(crate) properties: &'a [Value],
    pub(crate) crudes: &'a [Value],
    pub(crate) vessels: &'a [Value],
    pub(crate) storage: &'a [Value],
    pub(crate) charging: &'a [Value],
    pub(crate) units: &'a [Value],
    pub(crate) operations: &'a [Value],
}

fn section(whole: &Value, section: Section) -> Result<&[Value], PlantTextFault>
    ensures { Gives (λ values. items_view values.now) result (section_of section (view whole.now)) }
{
    match whole.get(section_name(section)).and_then(Value::as_array) {
        Some(values) => Ok(values.as_slice()),
        None => Err(PlantTextFault::Shape(Place {
            section,
            index: 0,
            key: Key::List,
        })),
    }
}

const PLANT_KEYS: [&str; 9] = [
    "format",
    "horizon",
    "properties",
    "crudes",
    "vessels",
    "storage",
    "charging",
    "units",
    "operations",
];

/// The first level of a plant text: all its keys are there and of their kinds, and no others.
#[tactic(auto, unfolding(crate::specs::Walk::sections_of))]
pub(crate) fn sections(whole: &Value) -> Result<SectionLists<'_>, PlantTextFault>
    ensures { Gives lists_seen result (sections_of (view whole.now)) }
{
    let plant = Entry::open(whole, Section::Plant, 0)?;
    let format = plant.format(Key::Format)?;
    let horizon = plant.whole_number(Key::Horizon)?;
    let properties = section(whole, Section::Properties)?;
    let crudes = section(whole, Section::Crudes)?;
    let vessels = section(whole, Section::Vessels)?;
    let storage = section(whole, Section::Storage)?;
    let charging = section(whole, Section::Charging)?;
    let units = section(whole, Section::Units)?;
    let operations = section(whole, Section::Operations)?;
    plant.close(&PLANT_KEYS)?;
    Ok(SectionLists {
        format,
        horizon,
        properties,
        crudes,
        vessels,
        storage,
        charging,
        units,
        operations,
    })
}
