use item_lists::Items;

/// What a quality cut is made of: the set of its places, by bits, and the numbers of its row.
#[derive(Clone, Copy, Debug, PartialEq, Eq)]
pub struct CutParams {
    pub places: u64,
    pub p: i64,
    pub q: i64,
    /// One for each crude, 0 past the last crude.
    pub weights: [i64; 12],
}

pub type CutList = Items<CutParams>;

/// A cut under the number by which terms name it.
#[derive(Clone, Copy, Debug, PartialEq, Eq)]
pub struct NamedCut {
    pub cut: u32,
    pub params: CutParams,
}

pub type NamedCuts = Items<NamedCut>;
