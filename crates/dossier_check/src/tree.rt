//! The search tree: one pass over its nodes.

ghost use Rattle.std.specs.Prelude.{◌≡◌, ℕ, ◌+◌, ◌*◌, ◌<◌, ◌≤◌, List, [], Some, None, length, IfOk};
ghost use Rattle.std.specs.List.{AllByRecursion};
ghost use Rattle.limits.specs.declared.TheConstants.{MOST_NODES, MOST_SLOTS};
ghost use Rattle.slot_box.specs.declared.slot.Slot.{Slot};
ghost use Rattle.slot_box.specs.Ranges.{IsNodeInRange};
ghost use Rattle.slot_box.specs.Splits.{is_lawful, left_of, right_of};
ghost use Rattle.item_lists.specs.Faults.{unless};
ghost use Rattle.slot_forms.specs.Cases.{root_box, plain};
ghost use Rattle.leaf_value.specs.Scales.{AreScalesOf};
ghost use Rattle.dossier_text.specs.Ranges.{IsReadable};
ghost use Rattle.dossier_check.specs.Frames.{setting_of};
ghost use Rattle.dossier_check.specs.Earlier.{Holder};
ghost use Rattle.dossier_check.specs.NodeReasons.{reason, nodes_reasons, greatest_value};
ghost use Rattle.dossier_check.specs.Reasons.{tree_reasons, greatest_of, first_node_line};
ghost use Rattle.dossier_check.specs.inside.Tests.{Tests};
ghost use Rattle.dossier_check.specs.inside.Walks.{LAST_FIRST_LINE, Keeps, IsSized, MeetsInner, Meets, pass_of};

use crate::leaves::value_of_leaf;
use crate::met::Met;
use crate::reasons::{PARENT, SPLIT, TICKET};
use crate::verdict::{Reason, Refusal};
use dossier_text::Dossier;
use item_lists::expect;
use leaf_value::{Scales, greater_wide};
use plant_model::Plant;
use slot_box::{Node, SlotBox, Split, SplitFault};
use slot_forms::root_box;
use std::alloc::Global;

/// The two parts of the box of an inner node in this line.
fn parts(
    alloc: Global,
    bx: &SlotBox,
    line: u32,
    split: Split,
) -> Result<(SlotBox, SlotBox), Refusal>
    ensures reasons { Tests (unless (is_lawful bx.now split) (reason 6 line)) result }
    ensures left { IfOk result (λ parts. parts.0 ≡ left_of bx.now split) }
    ensures right { IfOk result (λ parts. parts.1 ≡ right_of bx.now split) }
    ensures left_size { IfOk result (λ parts. length parts.0 ≡ length bx.now) }
    ensures right_size { IfOk result (λ parts. length parts.1 ≡ length bx.now) }
{
    // a box keeps its limits
    let _ = bx.len();
    match bx.split(alloc, split) {
        Ok(parts) => Ok(parts),
        Err(SplitFault::BadSplit) => Err(Refusal::First(Reason::at(SPLIT, line))),
        Err(SplitFault::Memory) => Err(Refusal::Memory),
    }
}

/// Meets an inner node in this line, which has this box.
fn meet_inner(
    alloc: Global,
    met: &mut Met,
    bx: &SlotBox,
    line: u32,
    ticket: u32,
    split: Split,
) -> Result<(), Refusal>
    requires few { length met.old.held.items ≤ MOST_NODES }
    requires nodes { length met.old.waiting.items ≡ 2 * length met.old.held.items + 1 }
    ensures met { let t = length met.old.held.items in
        (root : List Slot) (earlier : List Holder) (id : ℕ) → Keeps root t earlier id met.old
        → MeetsInner root t earlier id line bx.now ticket split met.new result }
    ensures sized { IsSized (length bx.now) met.old → IsSized (length bx.now) met.new }
{
    expect(met.is_free(ticket), Reason::at(TICKET, line))?;
    let (left, right) = parts(alloc, bx, line, split)?;
    met.hold(ticket, left, right);
    Ok(())
}

/// Meets the node of this id, which is the next: its value, if it is a leaf that has one.
fn meet(
    alloc: Global,
    plant: &Plant,
    dossier: &Dossier,
    scales: &Scales,
    first_line: u32,
    met: &mut Met,
    id: u32,
    node: &Node,
) -> Result<Option<i128>, Refusal>
    requires slots { dossier.now.slots ≤ MOST_SLOTS }
    requires few { dossier.now.nodes ≤ MOST_NODES }
    requires next { id < 2 * dossier.now.nodes + 1 }
    requires line { first_line ≤ LAST_FIRST_LINE }
    requires nodes { length met.old.waiting.items ≡ 2 * dossier.now.nodes + 1 }
    requires tickets { length met.old.held.items ≡ dossier.now.nodes }
    requires scales { AreScalesOf plant.now dossier.now.slots scales.now }
    requires sized { IsSized dossier.now.slots met.old }
    requires numbers { IsNodeInRange node.now }
    ensures sized { IsSized dossier.now.slots met.new }
    ensures met { (root : List Slot) (earlier : List Holder) → Keeps root dossier.now.nodes earlier id met.old
        → Meets (pass_of plant.now dossier.now first_line root) earlier id node.now met.new result }
{
    let line = first_line + id;
    let Some(bx) = met.take(id) else {
        return Err(Refusal::First(Reason::at(PARENT, line)));
    };
    match node {
        Node::Inner { ticket, split } => {
            meet_inner(alloc, met, &bx, line, *ticket, *split)?;
            Ok(None)
        }
        Node::Leaf(leaf) => value_of_leaf(alloc, plant, dossier, scales, line, &bx, leaf),
    }
}

/// Meets all nodes in the order of their ids, node 0 with this box: the greatest value of a leaf.
fn walk(
    alloc: Global,
    plant: &Plant,
    dossier: &Dossier,
    first_line: u32,
    root: SlotBox,
) -> Result<Option<i128>, Refusal>
    requires slots { dossier.now.slots ≤ MOST_SLOTS }
    requires few { dossier.now.nodes ≤ MOST_NODES }
    requires line { first_line ≤ LAST_FIRST_LINE }
    requires nodes { length dossier.now.tree ≡ 2 * dossier.now.nodes + 1 }
    requires numbers { AllByRecursion IsNodeInRange dossier.now.tree }
    requires sized { length root ≡ dossier.now.slots }
    ensures reasons { Tests (nodes_reasons (setting_of plant.now dossier.now) dossier.now.nodes first_line root [] 0
        dossier.now.tree) result }
    ensures greatest { IfOk result (λ value. value
        ≡ greatest_value (setting_of plant.now dossier.now) root None [] 0 dossier.now.tree) }
{
    let scales = Scales::new(alloc, plant, dossier.slots)?;
    let mut met = Met::none(alloc, dossier.nodes, root)?;
    let mut best = None;
    for (id, node) in dossier.tree.as_slice().iter().enumerate() {
        let value = meet(
            alloc, plant, dossier, &scales, first_line, &mut met, id as u32, node,
        )?;
        best = greater_wide(best, value);
    }
    Ok(best)
}

/// Tests the tree: the greatest value of a leaf, where some leaf has a value.
#[tactic(auto, unfolding(crate::specs::Reasons::tree_reasons, crate::specs::Reasons::greatest_of))]
pub(crate) fn check_tree(
    alloc: Global,
    plant: &Plant,
    dossier: &Dossier,
    first_line: u32,
) -> Result<Option<i128>, Refusal>
    requires readable { IsReadable dossier.now }
    requires some_slots { 1 ≤ dossier.now.slots }
    requires most_slots { dossier.now.slots ≤ MOST_SLOTS }
    requires line { first_line ≡ first_node_line dossier.now }
    ensures reasons { Tests (tree_reasons (setting_of plant.now dossier.now) dossier.now) result }
    ensures greatest { IfOk result (λ value. value ≡ greatest_of (setting_of plant.now dossier.now) dossier.now) }
{
    let root = root_box(alloc, plant, dossier.slots)?;
    walk(alloc, plant, dossier, first_line, root)
}
