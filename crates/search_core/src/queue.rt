use std::alloc::{AllocError, Global};
use std::collections::VecDeque;
use std::marker::Model;

/// Nodes that wait, by their numbers: the first that comes leaves first. It is seen as their list.
#[derive(Drop)]
pub(crate) struct Queue {
    ids: VecDeque<u32>,
}

impl Model for Queue {
    ghost use Rattle.std.specs.Prelude.{ℕ, List};

    ghost Value = { List ℕ };

    ghost view = { λ queue. queue.ids.items };
}

impl Queue {
    ghost use Rattle.std.specs.Prelude.{◌≡◌, [], ◌∷◌, ◌++◌, not, OnOk, OnErr, MatchOption};
    ghost use Rattle.search_core.specs.Events.{has_first};

    pub(crate) fn new(alloc: Global) -> Queue
        ensures { result ≡ [] }
    {
        Queue {
            ids: VecDeque::new(alloc),
        }
    }

    pub(crate) fn is_empty(&self) -> bool
        ensures { result ≡ not (has_first self.now) }
    {
        self.ids.is_empty()
    }

    /// The list stays where memory is refused.
    pub(crate) fn push(&mut self, id: u32) -> Result<(), AllocError>
        ensures ok { OnOk result (self.new ≡ self.old ++ id ∷ []) }
        ensures err { OnErr result (self.new ≡ self.old) }
    {
        self.ids.push_back(id).map_err(|_| AllocError)
    }

    /// Takes the first node.
    pub(crate) fn pop(&mut self) -> Option<u32>
        ensures { MatchOption result ((self.old ≡ []) × (self.new ≡ [])) (λ id. self.old ≡ id ∷ self.new) }
    {
        self.ids.pop_front()
    }
}
