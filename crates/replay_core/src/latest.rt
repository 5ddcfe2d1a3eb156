//! When each operation started and ended last.

ghost use Rattle.std.specs.Prelude.{◌≡◌, ◌↔◌, ◌<◌, max, IsTrue, length, slice_index, slice_set};
ghost use Rattle.plant_model.specs.Parts.{op_count_of};
ghost use Rattle.replay_core.specs.Rules.{last_start, unloads_later_vessel};
ghost use Rattle.replay_core.specs.inside.Latest.{relates, NoneIsLater};

use crate::state::is_unload;
use crate::timed::Timed;
use plant_model::Plant;

/// What one operation may have to do with another.
#[derive(Clone, Copy, Debug, PartialEq, Eq)]
pub enum Relation {
    /// They may not run at one moment.
    AtOnce,
    /// They may not change places.
    Ordered,
    /// They unload vessels of one berth, and the first one's stands later in the list.
    LaterVessel,
}

#[tactic(auto, unfolding(crate::specs::Rules::unloads_later_vessel))]
fn unloads_later_vessel(plant: &Plant, v: u8, w: u8) -> bool
    requires first { v < op_count_of plant.now }
    requires second { w < op_count_of plant.now }
    ensures { result ≡ unloads_later_vessel plant.now v w }
{
    let (a, b) = (plant.op(v), plant.op(w));
    is_unload(a.kind)
        && is_unload(b.kind)
        && plant.place(a.from).berth == plant.place(b.from).berth
        && b.from < a.from
}

fn relates(plant: &Plant, relation: Relation, v: u8, w: u8) -> bool
    requires first { v < op_count_of plant.now }
    requires second { w < op_count_of plant.now }
    ensures { result ≡ relates plant.now relation v w }
{
    match relation {
        Relation::AtOnce => plant.refused_at_once(v, w),
        Relation::Ordered => plant.ordered(v, w),
        Relation::LaterVessel => unloads_later_vessel(plant, v, w),
    }
}

/// Whatever is related to operation w has no later minute in the table than the limit.
pub(crate) fn none_is_later(
    plant: &Plant,
    relation: Relation,
    w: u8,
    table: &[u32],
    limit: u32,
) -> bool
    requires known { w < op_count_of plant.now }
    requires count { length table.now ≡ op_count_of plant.now }
    ensures { IsTrue result ↔ NoneIsLater plant.now relation w table.now limit }
{
    for v in 0..plant.op_count() {
        if table[v as usize] > limit && relates(plant, relation, v, w) {
            return false;
        }
    }
    true
}

/// When the last of the operations starts, and 0 where there is none.
pub(crate) fn last_start(steps: &[Timed]) -> u32
    ensures { result ≡ last_start steps.now }
{
    match steps.last() {
        Some(step) => step.start,
        None => 0,
    }
}

/// Takes note of a minute of a run of operation v.
pub(crate) fn note(table: &mut [u32], v: u8, minute: u32)
    requires { v < length table.old }
    ensures { table.new ≡ slice_set table.old v (max (slice_index table.old v) minute) }
{
    let latest = &mut table[v as usize];
    *latest = minute.max(*latest);
}
