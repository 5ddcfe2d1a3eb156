use cut_pool::{CutPool, CutTokens};
use overlap_graph::Masks;
use plant_model::Plant;
use replay_core::Planned;
use search_board::{Board, Seat};
use search_node::Notes;
use slot_automaton::Automaton;
use slot_box::{NamedCuts, Task, Tasks};
use task_deck::{DoorPasses, Doors, Owner};

/// Where a worker works: what it searches, and the board of all workers.
#[derive(Clone, Copy)]
pub struct Site<'a> {
    pub plant: &'a Plant,
    pub cliques: &'a Masks,
    pub automaton: &'a Automaton,
    /// The number of slots.
    pub n: u32,
    pub board: &'a Board,
    /// The doors to the decks of all workers, by their numbers.
    pub doors: &'a Doors,
    /// The cuts of all workers.
    pub pool: &'a CutPool,
}

/// What a worker begins with that works among others.
#[derive(Drop)]
pub struct Me {
    /// The number by which the gate knows it, and the place of its own door.
    pub number: u32,
    pub seat: Seat,
    /// Its own deck.
    pub owner: Owner,
    /// A pass for each other door.
    pub passes: DoorPasses,
    pub first: Option<Task>,
}

/// What it gives back.
#[derive(Drop)]
pub struct Done {
    pub number: u32,
    pub seat: Seat,
    pub owner: Owner,
    pub passes: DoorPasses,
    pub notes: Notes,
    pub cuts: NamedCuts,
    /// What stands for its cuts in the pool.
    pub tokens: CutTokens,
    /// The best plan that it offered.
    pub found: Option<Planned>,
}

/// What a worker begins with that works alone.
#[derive(Drop)]
pub struct Alone {
    /// The number by which the gate knows it.
    pub number: u32,
    pub seat: Seat,
    pub first: Tasks,
}

/// What it gives back.
#[derive(Drop)]
pub struct AloneDone {
    pub number: u32,
    pub seat: Seat,
    pub notes: Notes,
    pub cuts: NamedCuts,
    /// The best plan that it offered.
    pub found: Option<Planned>,
}

fn may_cross<T: Send>(_value: &T) {}

// A worker's own things go into its thread and come back.
fn things_may_cross(me: &Me, done: &Done, alone: &Alone, alone_done: &AloneDone) {
    may_cross(me);
    may_cross(done);
    may_cross(alone);
    may_cross(alone_done);
}

fn may_share<T: Sync>(_value: &T) {}

// The place is shared.
fn site_may_be_shared(site: &Site<'_>) {
    may_share(site);
}
