use crate::queue::TaskQueue;
use replay_core::Planned;
use search_board::Seat;
use search_node::Notes;
use slot_box::NamedCuts;
use task_deck::{DoorPasses, Owner};

/// A worker in the middle of its work.
#[derive(Drop)]
pub struct Worker {
    pub seat: Seat,
    /// The tasks that it was given and has not taken yet, then the right parts that it kept.
    pub waiting: TaskQueue,
    pub notes: Notes,
    pub cuts: NamedCuts,
    /// The best plan that it offered.
    pub found: Option<Planned>,
    /// How many tickets it has used.
    pub drawn: u32,
    /// Its own deck, to which it pushes right parts, if it works among others.
    pub owner: Option<Owner>,
    /// Its passes for the other workers' doors.
    pub passes: DoorPasses,
    /// Whether the board counts it as busy.
    pub busy: bool,
}
