//! What may be handed from one thread to another.

use crate::{Leaf, NamedCut, NamedCuts, Node, NodeList, SlotBox, Task, Tasks};

fn may_cross<T: Send>(_value: &T) {}

fn boxes_may_cross(bx: &SlotBox, task: &Task, tasks: &Tasks) {
    may_cross(bx);
    may_cross(task);
    may_cross(tasks);
}

fn cuts_may_cross(cut: &NamedCut, cuts: &NamedCuts) {
    may_cross(cut);
    may_cross(cuts);
}

fn nodes_may_cross(leaf: &Leaf, node: &Node, nodes: &NodeList) {
    may_cross(leaf);
    may_cross(node);
    may_cross(nodes);
}
