use super::sample::{SOUND, Sample};
use plant_model::{Key, Place, Plant, PlantFault, PlantNewFault, Section};
use std::alloc::{AllocError, Global};
use std::test::Fail;

type Row = (Sample, u8, Section, u32, Key);

// A plant for each kind of fault, and the place of the fault.
const FAULTS: &[Row] = &[
    (
        Sample {
            horizon: 100_001,
            ..SOUND
        },
        1,
        Section::Plant,
        0,
        Key::Horizon,
    ),
    (
        Sample {
            more: (Section::Crudes, 11),
            ..SOUND
        },
        2,
        Section::Crudes,
        0,
        Key::List,
    ),
    (
        Sample {
            more: (Section::Properties, 6),
            ..SOUND
        },
        3,
        Section::Properties,
        0,
        Key::List,
    ),
    (
        Sample {
            more: (Section::Vessels, 11),
            ..SOUND
        },
        4,
        Section::Vessels,
        0,
        Key::List,
    ),
    (
        Sample {
            more: (Section::Charging, 22),
            ..SOUND
        },
        5,
        Section::Storage,
        0,
        Key::List,
    ),
    (
        Sample {
            more: (Section::Units, 6),
            ..SOUND
        },
        6,
        Section::Units,
        0,
        Key::List,
    ),
    (
        Sample {
            more: (Section::Operations, 45),
            ..SOUND
        },
        7,
        Section::Operations,
        0,
        Key::List,
    ),
    (
        Sample {
            crude_name: "a b",
            ..SOUND
        },
        8,
        Section::Crudes,
        2,
        Key::Name,
    ),
    (
        Sample {
            crude_name: "A",
            ..SOUND
        },
        9,
        Section::Crudes,
        2,
        Key::Name,
    ),
    (
        Sample {
            margin: 1_000_001,
            ..SOUND
        },
        10,
        Section::Crudes,
        2,
        Key::Margin,
    ),
    (
        Sample {
            values: &[],
            ..SOUND
        },
        11,
        Section::Crudes,
        2,
        Key::Properties,
    ),
    (
        Sample {
            values: &[1_000_001],
            ..SOUND
        },
        12,
        Section::Crudes,
        2,
        Key::Properties,
    ),
    (
        Sample {
            amounts: &[0],
            ..SOUND
        },
        13,
        Section::Vessels,
        2,
        Key::Amounts,
    ),
    (
        Sample {
            amounts: &[1, 10_000_000],
            ..SOUND
        },
        14,
        Section::Vessels,
        2,
        Key::Amounts,
    ),
    (
        Sample {
            arrival: 11_521,
            ..SOUND
        },
        15,
        Section::Vessels,
        2,
        Key::Arrival,
    ),
    (
        Sample {
            arrival: 59,
            ..SOUND
        },
        16,
        Section::Vessels,
        2,
        Key::Arrival,
    ),
    (
        Sample {
            least_level: -1,
            ..SOUND
        },
        17,
        Section::Storage,
        2,
        Key::Min,
    ),
    (
        Sample {
            least_level: 750_001,
            ..SOUND
        },
        18,
        Section::Storage,
        2,
        Key::Amounts,
    ),
    (
        Sample {
            most_demand: 10_000_001,
            ..SOUND
        },
        19,
        Section::Charging,
        1,
        Key::Demand,
    ),
    (
        Sample {
            from: "V3",
            ..SOUND
        },
        20,
        Section::Operations,
        2,
        Key::From,
    ),
    (
        Sample {
            from: "S1",
            ..SOUND
        },
        21,
        Section::Operations,
        2,
        Key::To,
    ),
    (
        Sample {
            most_rate: 10_000_001,
            ..SOUND
        },
        22,
        Section::Operations,
        2,
        Key::Rate,
    ),
    (
        Sample { berth: 13, ..SOUND },
        23,
        Section::Vessels,
        2,
        Key::Berth,
    ),
    (
        Sample {
            demurrage: 1_001,
            ..SOUND
        },
        24,
        Section::Vessels,
        2,
        Key::Demurrage,
    ),
];

fn faults() -> &'static [Row] {
    FAULTS
}

/// Whether the plant is refused with this fault.
fn is_refused(alloc: Global, sample: &Sample, wanted: PlantFault) -> Result<bool, AllocError> {
    match Plant::new(alloc, sample.parts(alloc)?) {
        Err(PlantNewFault::Fault(fault)) => Ok(fault == wanted),
        _ => Ok(false),
    }
}

fn fault(number: u8, section: Section, index: u32, key: Key) -> PlantFault {
    let place = Place {
        section,
        index,
        key,
    };
    PlantFault { number, place }
}

#[test]
fn refuses_each_kind_of_fault(rt: HostRuntime) -> Result<(), Fail> {
    for (sample, number, section, index, key) in faults() {
        let wanted = fault(*number, *section, *index, *key);
        assert!(rt; is_refused(rt.alloc(), sample, wanted)?, "fault {number}");
    }
    Ok(())
}
