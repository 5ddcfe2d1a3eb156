//! Sets of places that cuts are tried on.

use plant_model::{PlaceKind, Plant};

/// Whether the place is of the kind.
pub(crate) fn is_kind(plant: &Plant, p: u8, kind: PlaceKind) -> bool {
    p < plant.place_count() && plant.place(p).kind == kind
}

/// Whether the set has the place.
pub(crate) fn has(places: u64, p: u8) -> bool {
    p < 64 && (places >> p) & 1 == 1
}

/// The set with the place too.
fn with(places: u64, p: u8) -> u64 {
    if p < 64 { places | (1 << p) } else { places }
}

/// The place alone.
pub(crate) fn single_set(p: u8) -> u64 {
    with(0, p)
}

/// The place and all that operations lead to from it.
pub(crate) fn fed_set(plant: &Plant, p: u8) -> u64 {
    let mut places = single_set(p);
    for v in 0..plant.op_count() {
        let op = plant.op(v);
        if op.from == p {
            places = with(places, op.to);
        }
    }
    places
}

/// The set and all that operations come from into it.
fn with_sources(plant: &Plant, places: u64) -> u64 {
    let mut wider = places;
    for v in 0..plant.op_count() {
        let op = plant.op(v);
        if has(places, op.to) {
            wider = with(wider, op.from);
        }
    }
    wider
}

/// The charging tank, what feeds it, and what feeds that.
pub(crate) fn feeding_set(plant: &Plant, p: u8) -> u64 {
    with_sources(plant, with_sources(plant, single_set(p)))
}
