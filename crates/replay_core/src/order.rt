/// Which order the operations of a list have to keep.
#[derive(Clone, Copy, Debug, PartialEq, Eq)]
pub enum Order {
    /// That of a plan: none starts before the one ahead of it.
    ByStart,
    /// That of the word of a slot form: none starts before one ahead of it with which it may not change places.
    BySlot,
}
