use item_lists::Copies;

/// Operations by their numbers in the plant, which may stand in the list more than once.
pub type OpList = Copies<u8>;

/// What a search for a plan begins with.
#[derive(Debug, Drop)]
pub struct Hint {
    /// Operations in the order in which they are to be tried.
    pub ops: OpList,
}
