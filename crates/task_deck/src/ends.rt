ghost use Rattle.std.specs.Prelude.{◌≡◌, [], true, false};
ghost use Rattle.crossbeam_deque.specs.Handles.{view, worker_flavor, worker_view};

use crate::hand::{Deque, Mark, Thief};
use item_lists::Items;
use slot_box::{Task, Tasks};

/// The owner of a deck, which pushes and pops.
#[derive(Drop)]
pub struct Owner {
    pub(crate) deque: Deque,
    /// How many passes it made.
    pub(crate) passes: u64,
    ghost fifo: { worker_flavor deque ≡ 0 },
    ghost owns: { (worker_view deque).owns ≡ true },
    ghost none_back: { (worker_view deque).known ≡ [] },
    ghost count: { (worker_view deque).passes ≡ passes },
}

/// Where thieves come to a deck. Any number of threads share it.
#[derive(Drop)]
pub struct Door {
    pub(crate) stealer: Thief,
}

/// What a thief needs at a door.
#[derive(Drop)]
pub struct DoorPass {
    pub(crate) mark: Mark,
    pub(crate) number: u64,
    ghost thief: { (view mark).owns ≡ false },
    ghost here: { (view mark).gone ≡ false },
    ghost place: { (view mark).number ≡ number },
}

pub type Doors = Items<Door>;

pub type DoorPasses = Items<DoorPass>;

/// What a thief comes away with.
#[derive(Drop)]
pub enum Stolen {
    Got(Task),
    /// The deck was empty.
    Empty,
    /// Another was faster; it may be tried again.
    Again,
}

/// What is left of a deck in the end.
#[derive(Drop)]
pub struct Account {
    pub left: Tasks,
}
