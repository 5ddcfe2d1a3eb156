//! Plans that are built from boxes as they are divided.
//!
//! Free: which operations the builder begins with, and from which boxes. Owed: that what it gives is a legal plan of at
//! most so many operations with its margin.

ghost use Rattle.std.specs.Prelude.{◌≡◌, ◌<◌, ◌≤◌, All, length, IfOk, IfSome};
ghost use Rattle.limits.specs.declared.TheConstants.{MOST_SLOTS};
ghost use Rattle.plant_model.specs.Parts.{op_count_of};
ghost use Rattle.plan_build.specs.Built.{IsPlanned};

use item_lists::Copies;
use plan_build::{Hint, build_within};
use plant_model::Plant;
use replay_core::Planned;
use slot_box::SlotBox;
use std::alloc::{AllocError, Global};

/// Only boxes of nodes with numbers below this one get plans of their own.
const BUILT_NODES: u32 = 512;

/// Of so many of them one, since one long search finds more than many short ones.
const NODES_OF_A_PLAN: u32 = 8;

/// How many operations are decoded for the plan of a box, for each slot.
const SLOT_WORK: u32 = 8_000;

/// The set of all operations among the entries of a slot, which has bit 63 for idle.
const OPERATIONS: u64 = u64::MAX >> 1;

/// A number of a node and of a slot that looks like chance, so that plans of boxes begin differently.
fn chance(id: u32, i: u32) -> u32 {
    let mixed = u64::from(id)
        .wrapping_mul(0x9e37_79b9_7f4a_7c15)
        .wrapping_add(u64::from(i).wrapping_mul(0xbf58_476d_1ce4_e5b9));
    ((mixed ^ (mixed >> 31)).wrapping_mul(0x94d0_49bb_1331_11eb) >> 33) as u32
}

/// The operation that comes after so many others of a set.
fn nth_of(plant: &Plant, live: u64, nth: u32) -> Option<u8>
    ensures { IfSome result (λ v. v < op_count_of plant.now) }
{
    let mut left = nth;
    for v in 0..plant.op_count() {
        if live.checked_shr(v.into()).unwrap_or(0) % 2 == 1 {
            if left == 0 {
                return Some(v);
            }
            left -= 1;
        }
    }
    None
}

/// One of the operations that are live in a slot, whichever the node's number says.
fn live_operation(plant: &Plant, bx: &SlotBox, id: u32, i: u32) -> Option<u8>
    requires from_one { 1 ≤ i }
    requires there { i ≤ length bx.now }
    ensures { IfSome result (λ v. v < op_count_of plant.now) }
{
    let live = bx.live(i) & OPERATIONS;
    let nth = chance(id, i).checked_rem(live.count_ones())?;
    nth_of(plant, live, nth)
}

/// An operation for each slot of the box, of those that are live there.
fn live_operations(
    alloc: Global,
    plant: &Plant,
    bx: &SlotBox,
    id: u32,
) -> Result<Vec<u8>, AllocError>
    ensures { IfOk result (λ ops. All (λ v. v < op_count_of plant.now) ops.items) }
{
    let mut ops = Vec::new(alloc);
    for i in 0..bx.len() {
        if let Some(v) = live_operation(plant, bx, id, i + 1) {
            ops.push(v)?;
        }
    }
    Ok(ops)
}

/// Adds all operations, in rising number.
fn add_every_operation(plant: &Plant, mut ops: Vec<u8>) -> Result<Vec<u8>, AllocError>
    requires { All (λ v. v < op_count_of plant.now) ops.items }
    ensures { IfOk result (λ all. All (λ v. v < op_count_of plant.now) all.items) }
{
    for v in 0..plant.op_count() {
        ops.push(v)?;
    }
    Ok(ops)
}

/// A plan that is looked for from operations that are live in the box of a node, where it is one of the nodes that get one.
pub(crate) fn plan_of_box(
    alloc: Global,
    plant: &Plant,
    n: u32,
    id: u32,
    bx: &SlotBox,
) -> Result<Option<Planned>, AllocError>
    requires { n ≤ MOST_SLOTS }
    ensures { IfOk result (λ found. IfSome found (IsPlanned plant.now n)) }
{
    if id >= BUILT_NODES || id % NODES_OF_A_PLAN + 1 < NODES_OF_A_PLAN {
        return Ok(None);
    }
    let live = live_operations(alloc, plant, bx, id)?;
    let hint = Hint {
        ops: Copies::from_vec(add_every_operation(plant, live)?),
    };
    build_within(alloc, plant, n, &hint, SLOT_WORK.saturating_mul(n))
}
