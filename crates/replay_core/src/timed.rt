use crude_amounts::Amounts;
use item_lists::{Copies, Items};

/// An operation at its time: minutes from the start of the horizon, and volume units.
#[derive(Clone, Copy, Debug, PartialEq, Eq)]
pub struct Timed {
    /// The operation's number in the plant, from 0.
    pub op: u8,
    /// In minutes.
    pub start: u32,
    /// In minutes.
    pub end: u32,
    /// In volume units.
    pub volume: u32,
}

/// Operations in the order of a plan.
pub type Plan = Items<Timed>;

/// The operations of a word, which is made whole.
pub type Word = Copies<Timed>;

/// Amounts of each place, in the order of places.
pub type AmountList = Items<Amounts>;
