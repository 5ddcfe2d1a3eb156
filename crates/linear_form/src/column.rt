/// The entry of a slot that stays idle.
pub const IDLE_ENTRY: u8 = 255;

/// Which of an entry's numbers a column is.
#[derive(Clone, Copy, Debug, PartialEq, Eq)]
pub enum Part {
    /// 1 where the entry is the slot's, else 0.
    Z,
    /// How much the operation draws of a crude.
    A(u8),
    /// The minute at which it starts.
    S,
    /// The minute at which it ends.
    E,
    /// How many minutes a vessel waits: from its arrival to the end of its last unloading.
    W,
}

/// One number of one entry of a slot. Slots are numbered from 1, operations from 0; idle is entry 255
/// and has the part `Z` alone. Slot 0 has the part `W` alone, and its entries are the vessels, from 0.
#[derive(Clone, Copy, Debug, PartialEq, Eq)]
pub struct Column {
    pub slot: u32,
    pub entry: u8,
    pub part: Part,
}
