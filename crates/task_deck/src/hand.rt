ghost use Rattle.std.specs.Prelude.{◌≡◌};

use crossbeam_deque::protocol::{Join, Outcome, Protocol, Split};
use crossbeam_deque::{Pass, Stealer, Worker};
use slot_box::Task;
use std::alloc::Global;
use std::collections::LinkedList;

/// What was stolen by a pass that was given back, for the rule of the deck. No value of it is ever made.
pub struct Taken {
    pub pass: u64,
    pub tasks: LinkedList<Task>,
}

/// What the owner or a pass of a deck knows, for the rule of the deck. No value of it is ever made.
pub struct Hand {
    pub owns: bool,
    /// It was a pass that was given back.
    pub gone: bool,
    /// The number of a pass.
    pub number: u64,
    /// How many passes an owner made.
    pub passes: u64,
    pub pushed: LinkedList<Task>,
    /// The tasks that it took, an owner by popping and a pass by stealing.
    pub taken: LinkedList<Task>,
    /// What passes took that were given back to an owner.
    pub known: LinkedList<Taken>,
}

/// The rule of a deck, which holds between any two steps.
pub struct Dealing;

impl Protocol<Task, Hand> for Dealing {
    ghost use Rattle.task_deck.specs.inside.Hands.{owner_hand, gone_hand};
    ghost use Rattle.task_deck.specs.inside.Dealing.{IsDealt};

    ghost holds = { IsDealt };

    ghost first = { owner_hand };

    ghost guest = { gone_hand };
}

/// A task is pushed.
pub struct Pushing;

impl Outcome<Task, Hand> for Pushing {
    ghost use Rattle.task_deck.specs.inside.Hands.{with_pushed};

    ghost then = { λ v tasks w. w ≡ with_pushed v tasks };
}

/// A task is popped or stolen.
pub struct Taking;

impl Outcome<Task, Hand> for Taking {
    ghost use Rattle.task_deck.specs.inside.Hands.{with_taken};
    ghost use Rattle.task_deck.specs.inside.Dealing.{IsNext, IsEmptyFor};

    ghost then = { λ v tasks w. (w ≡ with_taken v tasks) × IsNext v tasks };

    ghost empty = { IsEmptyFor };
}

/// A pass is made.
pub struct Passing;

impl Split<Hand> for Passing {
    ghost use Rattle.task_deck.specs.inside.Hands.{with_pass, pass_hand};

    ghost left = { with_pass };

    ghost right = { pass_hand };
}

/// A pass is given back.
pub struct Returning;

impl Join<Hand> for Returning {
    ghost use Rattle.task_deck.specs.inside.Hands.{with_known, gone_hand};

    ghost both = { with_known };

    ghost spent = { gone_hand };
}

pub(crate) type Deque = Worker<Task, Global, Hand, Dealing>;

pub(crate) type Thief = Stealer<Task, Global, Hand, Dealing>;

pub(crate) type Mark = Pass<Task, Hand, Global>;
