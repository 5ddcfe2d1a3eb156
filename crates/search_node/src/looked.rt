use item_lists::Items;
use replay_core::Planned;
use slot_box::{Leaf, Node, Split};

/// What comes of an examination.
#[derive(Debug, Drop)]
pub enum Examined {
    /// The node has no children.
    Closed {
        leaf: Leaf,
        value: Option<i64>,
    },
    /// The box may be divided by the split. Where it is not, the leaf says what it is worth.
    Splittable {
        value: i64,
        leaf: Leaf,
        split: Split,
    },
}

/// What comes of it, and a plan where one was found on the way.
#[derive(Debug, Drop)]
pub struct Looked {
    pub what: Examined,
    pub found: Option<Planned>,
}

/// What a worker notes of a node: its number, what became of it, its value, and the best margin that the worker had
/// seen when it was examined.
#[derive(Debug, Drop)]
pub struct NodeNote {
    pub id: u32,
    pub node: Node,
    pub value: Option<i64>,
    pub seen: Option<i64>,
}

/// The notes of a worker, in the order in which they were made.
pub type Notes = Items<NodeNote>;

/// Those of several workers.
pub type NoteLists = Items<Notes>;

fn may_cross<T: Send>(_value: &T) {}

// Notes are moved into and out of workers.
fn notes_may_cross(note: &NodeNote, notes: &Notes, lists: &NoteLists) {
    may_cross(note);
    may_cross(notes);
    may_cross(lists);
}
