ghost use Rattle.std.specs.Prelude.{◌≡◌, ◌<◌, ◌≤◌, IfOk, length};
ghost use Rattle.limits.specs.declared.TheConstants.{MOST_OPERATIONS};
ghost use Rattle.plant_model.specs.Parts.{op_count_of};
ghost use Rattle.plant_model.specs.Relations.{independent_of};
ghost use Rattle.overlap_graph.specs.Independence.{independent_mask_of, independence_of, IsIndependentSet, AreIndependentSets};

use crate::cover::{Masks, push_mask};
use crate::sets::with_member;
use plant_model::Plant;
use std::alloc::{AllocError, Global};

/// The set of the operations that are independent of one, as a mask. It takes no memory.
pub fn independent_mask(plant: &Plant, v: u8) -> u64
    requires { v < op_count_of plant.now }
    ensures value { result ≡ independent_mask_of plant.now v }
    ensures members { IsIndependentSet plant.now v result }
{
    let mut mask = 0;
    for w in 0..plant.op_count() {
        if is_independent(plant, v, w) {
            mask = with_member(mask, w);
        }
    }
    mask
}

/// Whether neither operation has to come before the other.
#[tactic(auto, unfolding(plant_model::specs::Relations::independent_of))]
fn is_independent(plant: &Plant, v: u8, w: u8) -> bool
    requires first { v < op_count_of plant.now }
    requires second { w < op_count_of plant.now }
    ensures { result ≡ independent_of plant.now v w }
{
    !plant.ordered(v, w)
}

/// These masks, operation by operation: what an automaton of normal words is made of.
pub fn independence(alloc: Global, plant: &Plant) -> Result<Masks, AllocError>
    ensures value { IfOk result (λ masks. masks ≡ independence_of plant.now) }
    ensures members { IfOk result (AreIndependentSets plant.now) }
    ensures few { IfOk result (λ masks. length masks ≤ MOST_OPERATIONS) }
{
    let mut masks = Masks::new(alloc);
    for v in 0..plant.op_count() {
        push_mask(&mut masks, independent_mask(plant, v))?;
    }
    Ok(masks)
}
