use item_lists::Items;

/// A multiplier for each row.
pub type YList = Items<u64>;

/// Multipliers, at least 0, over one denominator.
#[derive(Debug, Drop)]
pub struct Guess {
    pub y: YList,
    pub q: u64,
}
