use overlap_graph::Masks;
use plant_model::Plant;
use replay_core::Planned;
use search_board::{Board, Seat};
use search_gather::CutLists;
use search_node::NoteLists;
use slot_automaton::Automaton;

/// What the workers search, and the board that they share.
#[derive(Clone, Copy)]
pub struct Scene<'a> {
    pub plant: &'a Plant,
    pub cliques: &'a Masks,
    pub automaton: &'a Automaton,
    /// The number of slots.
    pub n: u32,
    pub board: &'a Board,
}

/// What they give back together.
#[derive(Drop)]
pub struct Together {
    /// The seat into which all of theirs were joined.
    pub seat: Seat,
    /// The notes of each worker.
    pub notes: NoteLists,
    /// The cuts of each worker.
    pub cuts: CutLists,
    /// The best plan that they offered.
    pub found: Option<Planned>,
}
