use super::sample::SOUND;
use plant_model::{Op, OpKind, PlaceInfo, PlaceKind, Plant, Section};
use std::alloc::Global;
use std::test::Fail;

fn sound_plant(alloc: Global) -> Result<Plant, Fail> {
    Ok(Plant::new(alloc, SOUND.parts(alloc)?)?)
}

/// A number that a plant is asked for.
#[derive(Clone, Copy)]
enum Figure {
    Horizon,
    Properties,
    GreatestVolume,
    Margin(u8),
    Property(u8),
    Initial(u8, u8),
    LimitOfCharge,
    OpByName(&'static str),
}

const FIGURES: &[(Figure, i64)] = &[
    (Figure::Horizon, 11_520),
    (Figure::Properties, 1),
    (Figure::GreatestVolume, 1_000_000),
    (Figure::Margin(1), 6),
    (Figure::Margin(2), -1),
    (Figure::Property(1), 600),
    (Figure::Initial(1, 1), 1_000_000),
    (Figure::Initial(4, 0), 500_000),
    (Figure::LimitOfCharge, 150),
    (Figure::OpByName("t1"), 2),
    (Figure::OpByName("t2"), 255),
];

fn figures() -> &'static [(Figure, i64)] {
    FIGURES
}

/// The first property of the crude.
fn property(plant: &Plant, c: u8) -> i64 {
    if c < plant.crude_count() && 0 < plant.property_count() {
        plant.property(c, 0) as i64
    } else {
        -1
    }
}

/// How much the vessel or tank holds at first of the crude.
fn initial(plant: &Plant, p: u8, c: u8) -> i64 {
    if p < plant.place_count()
        && c < plant.crude_count()
        && plant.place(p).kind != PlaceKind::Unit
    {
        plant.initial(p, c) as i64
    } else {
        -1
    }
}

/// The greatest value of the first property in what the last operation draws.
fn limit_of_charge(plant: &Plant) -> i64 {
    if 3 < plant.op_count() && plant.op(3).kind == OpKind::Charge && 0 < plant.property_count() {
        plant.limit(3, 0).1 as i64
    } else {
        -1
    }
}

fn margin(plant: &Plant, c: u8) -> i64 {
    if c < plant.crude_count() {
        plant.margin(c)
    } else {
        -1
    }
}

/// The number, or -1 where the plant has none.
fn answer(plant: &Plant, of: Figure) -> i64 {
    match of {
        Figure::Horizon => plant.horizon() as i64,
        Figure::Properties => plant.property_count() as i64,
        Figure::GreatestVolume => plant.greatest_volume() as i64,
        Figure::Margin(c) => margin(plant, c),
        Figure::Property(c) => property(plant, c),
        Figure::Initial(p, c) => initial(plant, p, c),
        Figure::LimitOfCharge => limit_of_charge(plant),
        Figure::OpByName(name) => plant.op_by_name(name.as_bytes()) as i64,
    }
}

#[test]
fn reads_numbers(rt: HostRuntime) -> Result<(), Fail> {
    let plant = sound_plant(rt.alloc())?;
    for (of, wanted) in figures() {
        assert_eq!(rt; answer(&plant, *of), *wanted);
    }
    Ok(())
}

const NAMES: &[(Section, u8, &str)] = &[
    (Section::Properties, 0, "sulphur"),
    (Section::Crudes, 1, "B"),
    (Section::Vessels, 1, "V2"),
    (Section::Storage, 3, "S2"),
    (Section::Charging, 4, "C1"),
    (Section::Units, 5, "CDU"),
    (Section::Units, 6, ""),
    (Section::Operations, 3, "c1"),
];

fn names() -> &'static [(Section, u8, &'static str)] {
    NAMES
}

/// The name that stands at the number, or none.
fn name_at(plant: &Plant, section: Section, i: u8) -> &[u8] {
    match section {
        Section::Properties if i < plant.property_count() => plant.property_name(i),
        Section::Crudes if i < plant.crude_count() => plant.crude_name(i),
        Section::Operations if i < plant.op_count() => plant.op_name(i),
        Section::Vessels | Section::Storage | Section::Charging | Section::Units
            if i < plant.place_count() => { plant.place_name(i) }
        _ => b"",
    }
}

#[test]
fn reads_names(rt: HostRuntime) -> Result<(), Fail> {
    let plant = sound_plant(rt.alloc())?;
    for (section, i, wanted) in names() {
        assert_eq!(rt;
            name_at(&plant, *section, *i),
            wanted.as_bytes(),
            "{wanted}"
        );
    }
    Ok(())
}

// What a place has where nothing is said of it.
const BARE: PlaceInfo = PlaceInfo {
    kind: PlaceKind::Vessel,
    arrival: 0,
    min: 0,
    max: 0,
    demand: (0, 0),
    continuous: false,
    charges: (0, 0),
    berth: 0,
    demurrage: 0,
};

const PLACES: &[PlaceInfo] = &[
    PlaceInfo {
        arrival: 60,
        berth: 1,
        ..BARE
    },
    PlaceInfo {
        arrival: 5_760,
        berth: 2,
        demurrage: 30,
        ..BARE
    },
    PlaceInfo {
        kind: PlaceKind::Storage,
        max: 2_000_000,
        ..BARE
    },
    PlaceInfo {
        kind: PlaceKind::Storage,
        max: 2_000_000,
        ..BARE
    },
    PlaceInfo {
        kind: PlaceKind::Charging,
        max: 2_000_000,
        demand: (0, 1_000_000),
        ..BARE
    },
    PlaceInfo {
        kind: PlaceKind::Unit,
        continuous: true,
        charges: (2, 8),
        ..BARE
    },
];

fn places() -> &'static [PlaceInfo] {
    PLACES
}

fn is_place(plant: &Plant, p: usize, wanted: PlaceInfo) -> bool {
    p < plant.place_count() as usize && plant.place(p as u8) == wanted
}

#[test]
fn reads_places(rt: HostRuntime) -> Result<(), Fail> {
    let plant = sound_plant(rt.alloc())?;
    for (p, wanted) in places().iter().enumerate() {
        assert!(rt; is_place(&plant, p, *wanted), "place {p}");
    }
    Ok(())
}

// The operation of the first vessel.
const FIRST: Op = Op {
    from: 0,
    to: 2,
    kind: OpKind::Unload,
    rate: (0, 500_000),
    volume: (1, 1_000_000),
    window: (5_760, 11_520),
};

const OPS: &[Op] = &[
    FIRST,
    Op {
        from: 1,
        to: 3,
        ..FIRST
    },
    Op {
        from: 2,
        to: 4,
        kind: OpKind::Transfer,
        ..FIRST
    },
    Op {
        from: 4,
        to: 5,
        kind: OpKind::Charge,
        ..FIRST
    },
];

fn ops() -> &'static [Op] {
    OPS
}

fn is_op(plant: &Plant, v: usize, wanted: Op) -> bool {
    v < plant.op_count() as usize && plant.op(v as u8) == wanted
}

#[test]
fn reads_operations(rt: HostRuntime) -> Result<(), Fail> {
    let plant = sound_plant(rt.alloc())?;
    for (v, wanted) in ops().iter().enumerate() {
        assert!(rt; is_op(&plant, v, *wanted), "operation {v}");
    }
    Ok(())
}
