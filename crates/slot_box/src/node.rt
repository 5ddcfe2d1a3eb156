use crate::{Split, Terms};
use item_lists::Items;

/// How a node without children is closed.
#[derive(Debug, Drop)]
pub enum Leaf {
    /// The fixed operations up to slot `at` are in no normal order.
    Dead { at: u32 },
    /// The terms show that the box holds no lawful form.
    Void { terms: Terms },
    /// The terms over the denominator `q` bound the margin.
    Dual { q: u64, terms: Terms },
    /// They bound it, and the box was left for want of budget.
    Undone { q: u64, terms: Terms },
    /// The box has one point, which is its own bound.
    Point,
}

/// A node of the search tree.
#[derive(Debug, Drop)]
pub enum Node {
    /// Divided: its ticket names the two nodes that get the parts.
    Inner { ticket: u32, split: Split },
    Leaf(Leaf),
}

pub type NodeList = Items<Node>;
