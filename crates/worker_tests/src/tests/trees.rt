//! The tree of notes.

use item_lists::Items;
use search_gather::gather;
use search_node::{NodeNote, Notes};
use slot_box::{Leaf, Node};
use std::test::Fail;

/// Whether the node is a leaf of one point.
fn is_point_node(node: &Node) -> bool {
    matches!(node, Node::Leaf(Leaf::Point))
}

// One note, that of the root.
#[test]
fn one_note_is_a_tree(rt: HostRuntime) -> Result<(), Fail> {
    let alloc = rt.alloc();
    let note = NodeNote {
        id: 0,
        node: Node::Leaf(Leaf::Point),
        value: Some(7),
        seen: None,
    };
    let notes = Items::from_vec(vec![in alloc; note]?);
    let lists = Items::from_vec(vec![in alloc; notes]?);
    let cuts = Items::from_vec(vec![in alloc; Items::new(alloc)]?);
    let tree = gather(alloc, lists, cuts)?;
    assert_eq!(rt; tree.nodes.as_slice().len(), 1);
    assert!(rt; tree.nodes.as_slice().iter().all(is_point_node));
    assert_eq!(rt; tree.cuts.as_slice().len(), 0);
    Ok(())
}
