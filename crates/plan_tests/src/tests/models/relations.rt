use super::sample::{SOUND, Sample};
use plant_model::Plant;
use std::alloc::Global;
use std::test::Fail;

type Row = (i64, &'static str, u8, u8, bool, bool);

// The second vessel's berth and the tank that it is unloaded into; two operations; whether they may not run at one
// moment, and whether they may not change places. The first vessel is unloaded at berth 1 into S1.
const ROWS: &[Row] = &[
    (1, "S2", 0, 1, true, true),
    (2, "S2", 0, 1, false, false),
    (2, "S1", 1, 0, false, false),
    (2, "S2", 1, 1, true, true),
    (2, "S2", 0, 2, true, true),
    (2, "S2", 1, 2, false, false),
    (2, "S2", 2, 3, true, true),
];

fn rows() -> &'static [Row] {
    ROWS
}

/// The sample plant where the second vessel is unloaded at this berth into this tank.
fn plant(alloc: Global, berth: i64, to: &'static str) -> Result<Plant, Fail> {
    let sample = Sample { berth, to, ..SOUND };
    Ok(Plant::new(alloc, sample.parts(alloc)?)?)
}

/// Whether these operations may not run at one moment, or may, and may not change places, or may.
fn are_related(plant: &Plant, v: u8, w: u8, refused: bool, ordered: bool) -> bool {
    v < plant.op_count()
        && w < plant.op_count()
        && plant.refused_at_once(v, w) == refused
        && plant.ordered(v, w) == ordered
}

#[test]
fn relates_operations_by_berths_and_places(rt: HostRuntime) -> Result<(), Fail> {
    for (berth, to, v, w, refused, ordered) in rows() {
        let plant = plant(rt.alloc(), *berth, to)?;
        assert!(rt;
            are_related(&plant, *v, *w, *refused, *ordered),
            "berth {berth}, operations {v} and {w}"
        );
    }
    Ok(())
}
