ghost use Rattle.std.specs.Prelude.{◌≡◌, ◌<◌, [], ◌∷◌, ◌++◌, IfOk, OnOk};
ghost use Rattle.std.specs.List.{All, list_any};
ghost use Rattle.plant_model.specs.Parts.{op_count_of};
ghost use Rattle.overlap_graph.specs.Sets.{is_within};
ghost use Rattle.overlap_graph.specs.Cliques.{refused_mask_of, refused_masks_of, clique_from, with_pair, with_pairs, cliques_of, IsClique, IsCover};

use crate::sets::{is_within, with_member};
use item_lists::Items;
use plant_model::Plant;
use std::alloc::{AllocError, Global};

/// Sets of operations as masks, in order.
pub type Masks = Items<u64>;

/// Puts the set at the end.
pub(crate) fn push_mask(masks: &mut Masks, mask: u64) -> Result<(), AllocError>
    ensures { OnOk result (masks.new ≡ masks.old ++ mask ∷ []) }
{
    masks.push(mask).map_err(|_: u64| AllocError)
}

/// The cliques of a plant: no two members of one may run at one moment, and each pair that may not lies in one.
pub fn cliques(alloc: Global, plant: &Plant) -> Result<Masks, AllocError>
    ensures value { IfOk result (λ cliques. cliques ≡ cliques_of plant.now) }
    ensures cliques { IfOk result (All (IsClique plant.now)) }
    ensures covered { IfOk result (IsCover plant.now) }
{
    let refused = refused_masks(alloc, plant)?;
    let mut cliques = Masks::new(alloc);
    for v in 0..plant.op_count() {
        add_pairs(plant, refused.as_slice(), &mut cliques, v)?;
    }
    Ok(cliques)
}

/// Gives each pair of the operation and one from it on a clique, where it needs one and has none.
fn add_pairs(plant: &Plant, refused: &[u64], cliques: &mut Masks, v: u8) -> Result<(), AllocError>
    requires known { v < op_count_of plant.now }
    requires table { refused.now ≡ refused_masks_of plant.now }
    ensures { OnOk result (cliques.new ≡ with_pairs plant.now cliques.old v) }
{
    for w in v..plant.op_count() {
        add_pair(plant, refused, cliques, v, w)?;
    }
    Ok(())
}

fn add_pair(
    plant: &Plant,
    refused: &[u64],
    cliques: &mut Masks,
    v: u8,
    w: u8,
) -> Result<(), AllocError>
    requires first { v < op_count_of plant.now }
    requires second { w < op_count_of plant.now }
    requires table { refused.now ≡ refused_masks_of plant.now }
    ensures { OnOk result (cliques.new ≡ with_pair plant.now v cliques.old w) }
{
    plant.sound();
    let pair = with_member(with_member(0, v), w);
    if plant.refused_at_once(v, w) && !is_covered(pair, cliques.as_slice()) {
        let clique = clique_from(plant, refused, pair);
        push_mask(cliques, clique)?;
    }
    Ok(())
}

/// Whether one of the cliques has all these operations.
fn is_covered(set: u64, cliques: &[u64]) -> bool
    ensures { result ≡ list_any (is_within set) cliques.now }
{
    cliques.iter().any(|clique| is_within(set, *clique))
}

/// The clique that begins with some operations; the others join in turn.
fn clique_from(plant: &Plant, refused: &[u64], first: u64) -> u64
    requires { refused.now ≡ refused_masks_of plant.now }
    ensures { result ≡ clique_from plant.now first }
{
    let mut clique = first;
    for u in 0..plant.op_count() {
        if is_within(clique, refused[usize::from(u)]) {
            clique = with_member(clique, u);
        }
    }
    clique
}

/// Of each operation the set of those that may not run while it does.
fn refused_masks(alloc: Global, plant: &Plant) -> Result<Masks, AllocError>
    ensures value { IfOk result (λ masks. masks ≡ refused_masks_of plant.now) }
{
    let mut masks = Masks::new(alloc);
    for v in 0..plant.op_count() {
        push_mask(&mut masks, refused_mask(plant, v))?;
    }
    Ok(masks)
}

/// The operations that may not run while one does.
fn refused_mask(plant: &Plant, v: u8) -> u64
    requires { v < op_count_of plant.now }
    ensures { result ≡ refused_mask_of plant.now v }
{
    let mut mask = 0;
    for w in 0..plant.op_count() {
        if plant.refused_at_once(v, w) {
            mask = with_member(mask, w);
        }
    }
    mask
}

// Threads share the cliques.
fn may_be_shared<T: Sync>(_value: &T) {}

fn masks_may_be_shared(masks: &Masks) {
    may_be_shared(masks);
}
