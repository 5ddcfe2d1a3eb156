use item_lists::Items;
use plan_text::OpLines;
use plant_model::Numbers;
use slot_box::NodeList;

/// What a dossier answers.
#[derive(Clone, Copy, Debug, PartialEq, Eq)]
pub enum Word3 {
    /// There is a plan.
    Plan,
    /// There is none.
    Infeasible,
    /// Neither was found.
    Open3,
}

/// A quality cut that entries of leaves name, under its number in the list, counted from 0.
#[derive(Debug, Drop)]
pub struct CutLine {
    /// A set of places.
    pub places: u64,
    pub p: i64,
    pub q: i64,
    /// One for each crude.
    pub weights: Numbers,
}

pub type CutLines = Items<CutLine>;

/// A claim on a plant, and the search tree that shows it.
#[derive(Debug, Drop)]
pub struct Dossier {
    /// The most operations of the plans that it speaks of.
    pub slots: u32,
    /// The number of inner nodes of the tree.
    pub nodes: u32,
    pub answer: Word3,
    /// What the plan earns, in margin units.
    pub margin: Option<i64>,
    /// What no legal plan of at most `slots` operations exceeds, in margin units.
    pub bound: Option<i64>,
    pub plan: Option<OpLines>,
    pub cuts: CutLines,
    /// The nodes by their ids, from 0 on.
    pub tree: NodeList,
}
