ghost use Rattle.std.specs.Prelude.{◌≡◌, IfOk};
ghost use Rattle.search_gather.specs.Gathered.{AreOfTree, IsTreeOf};
ghost use Rattle.search_gather.specs.Numbered.{AreCutLists, notes_of, cuts_of};

use crate::choosing::order_of;
use crate::joining::{all_cuts, all_notes};
use crate::placing::{held_tickets, nodes_in_place, places_of};
use item_lists::Items;
use search_node::NoteLists;
use slot_box::{CutList, NamedCuts, NodeList};
use std::alloc::{AllocError, Global};

/// The cuts of several workers, a list for each.
pub type CutLists = Items<NamedCuts>;

/// A search tree, with the cuts that its leaves name by their places.
#[derive(Debug, Drop)]
pub struct Tree {
    /// The nodes by their ids.
    pub nodes: NodeList,
    pub cuts: CutList,
}

/// The tree of the notes of all workers.
pub fn gather(alloc: Global, notes: NoteLists, cuts: CutLists) -> Result<Tree, AllocError>
    requires cuts { AreCutLists notes cuts }
    requires settled { AreOfTree (notes_of notes cuts) }
    ensures nodes { IfOk result (λ tree. IsTreeOf (notes_of notes cuts) tree.nodes) }
    ensures cuts { IfOk result (λ tree. tree.cuts ≡ cuts_of cuts) }
{
    let notes = all_notes(alloc, notes, cuts.as_slice())?;
    let held = held_tickets(alloc, notes.as_slice())?;
    let order = order_of(alloc, held.as_slice())?;
    let places = places_of(alloc, order.as_slice())?;
    Ok(Tree {
        nodes: nodes_in_place(alloc, notes, places.as_slice())?,
        cuts: all_cuts(alloc, cuts.as_slice())?,
    })
}

fn may_cross<T: Send>(_value: &T) {}

// The lists go from thread to thread.
fn trees_may_cross(tree: &Tree, cuts: &CutLists) {
    may_cross(tree);
    may_cross(cuts);
}
