use item_lists::Items;

/// The name of a row: its family and four numbers, 0 where the family has no such number.
#[derive(Clone, Copy, Debug, PartialEq, Eq)]
pub struct RowName {
    pub family: u8,
    pub a: u16,
    pub b: u16,
    pub c: u16,
    pub d: u16,
}

/// An entry of a leaf: a row, or the row of a cut for a slot and an operation, with its multiplier `y`.
#[derive(Clone, Copy, Debug, PartialEq, Eq)]
pub enum Term {
    Row { name: RowName, y: u64 },
    Cut { cut: u32, slot: u32, op: u8, y: u64 },
}

pub type Terms = Items<Term>;
