//! The entries of a slot in two halves.

ghost use Rattle.std.specs.Prelude.{◌≡◌, ◌+◌, ◌<◌, ◌≤◌, ◌↔◌, IsBitSet, IsTrue, count_ones};
ghost use Rattle.plant_model.specs.Parts.{op_count_of};
ghost use Rattle.slot_box.specs.Even.{HalvesEntries};
ghost use Rattle.search_node.specs.inside.Splitting.{IsPartOf};

use plant_model::{OpKind, Plant};

/// Unloadings come before transfers, and these before charges.
fn rank_of(kind: OpKind) -> u8 {
    match kind {
        OpKind::Unload => 0,
        OpKind::Transfer => 1,
        OpKind::Charge => 2,
    }
}

/// Whether an operation stands before an entry, by kind, source and destination. Idle is the last entry.
fn is_before(plant: &Plant, v: u8, entry: u8) -> bool
    requires { v < op_count_of plant.now }
{
    if entry >= plant.op_count() {
        return true;
    }
    plant.sound();
    let (first, second) = (plant.op(v), plant.op(entry));
    let (one, other) = (rank_of(first.kind), rank_of(second.kind));
    one < other
        || one == other && first.from < second.from
        || one == other && first.from == second.from && first.to < second.to
}

/// Whether an entry is of the set.
fn contains(set: u64, entry: u8) -> bool
    requires { entry < 64 }
    ensures { IsTrue result ↔ IsBitSet set entry }
{
    set & (1 << entry) != 0
}

/// The first entry of a set in this order.
fn first_entry(plant: &Plant, set: u64) -> u8
    requires { 0 < set }
    ensures small { result < 64 }
    ensures member { IsBitSet set result }
{
    plant.sound();
    let mut first = set.trailing_zeros() as u8;
    for v in 0..plant.op_count() {
        if contains(set, v) && is_before(plant, v, first) {
            first = v;
        }
    }
    first
}

/// A set without the first so many of its entries in this order.
fn without_first(plant: &Plant, set: u64, count: u32) -> u64
    requires { count ≤ count_ones set }
    ensures part { IsPartOf result set }
    ensures count { count_ones result + count ≡ count_ones set }
{
    let mut rest = set;
    for _ in 0..count {
        rest &= !(1 << first_entry(plant, rest));
    }
    rest
}

/// The upper half of a set of entries: the later ones in this order, the middle one among them.
pub(crate) fn upper_half(plant: &Plant, live: u64) -> u64
    requires { 2 ≤ count_ones live }
    ensures half { HalvesEntries live result }
    ensures part { IsPartOf result live }
    ensures some { 0 < result }
    ensures less { result < live }
{
    without_first(plant, live, live.count_ones() / 2)
}
