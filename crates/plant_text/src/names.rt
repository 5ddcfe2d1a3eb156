ghost use Rattle.std.specs.Prelude.{◌≡◌};
ghost use Rattle.plant_text.specs.Names.{section_name, key_name};

use plant_model::{Key, Section};

/// How a section is written in a plant text and in a place.
pub fn section_name(section: Section) -> &'static str
    ensures { result.now ≡ section_name section }
{
    match section {
        Section::Plant => "plant",
        Section::Properties => "properties",
        Section::Crudes => "crudes",
        Section::Vessels => "vessels",
        Section::Storage => "storage",
        Section::Charging => "charging",
        Section::Units => "units",
        Section::Operations => "operations",
    }
}

/// How a key is written in a plant text and in a place.
pub fn key_name(key: Key) -> &'static str
    ensures { result.now ≡ key_name key }
{
    match key {
        Key::Entry => "entry",
        Key::List => "list",
        Key::Format => "format",
        Key::Horizon => "horizon",
        Key::Name => "name",
        Key::Margin => "margin",
        Key::Properties => "properties",
        Key::Arrival => "arrival",
        Key::Amounts => "amounts",
        Key::Berth => "berth",
        Key::Demurrage => "demurrage",
        Key::Min => "min",
        Key::Max => "max",
        Key::Demand => "demand",
        Key::Continuous => "continuous",
        Key::Charges => "charges",
        Key::From => "from",
        Key::To => "to",
        Key::Rate => "rate",
        Key::Volume => "volume",
        Key::Window => "window",
        Key::Limits => "limits",
    }
}
