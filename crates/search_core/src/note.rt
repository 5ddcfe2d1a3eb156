/// What a worker notes of a node when it is done with it.
#[derive(Clone, Copy, Debug, PartialEq, Eq)]
pub struct CoreNote {
    pub worker: u32,
    /// The number of the node.
    pub id: u32,
    /// The ticket under which it was divided, and none for a leaf.
    pub ticket: Option<u32>,
}
