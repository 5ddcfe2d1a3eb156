ghost use Rattle.std.specs.Prelude.{◌≡◌, ◌+◌, [], ◌∷◌, ◌++◌, IfOk, OnErr, MatchOption, MatchResult, List, true};
ghost use Rattle.slot_box.specs.Tasks.{TaskParts};
ghost use Rattle.task_deck.specs.Decks.{deck_of, deck_behind, owner_view, pass_view, IsPassOfDeck};
ghost use Rattle.task_deck.specs.inside.Dealing.{IsDealtOut, IsNext};
ghost use Rattle.task_deck.specs.inside.Hands.{with_taken};
ghost use Rattle.crossbeam_deque.specs.Handles.{worker_deque, worker_flavor, worker_view};

use crate::ends::{Door, DoorPass, Owner};
use crate::hand::{Deque, Passing, Pushing, Taking};
use slot_box::Task;
use std::alloc::{AllocError, Global};

// Room for so many tasks at first.
const ROOM: usize = 32;

/// An empty deck: its owner and its door.
pub fn deck(alloc: Global) -> Result<(Owner, Door), AllocError>
    ensures empty { IfOk result (λ ends. owner_view ends.0 ≡ record { pushed = []; popped = []; passes = 0 }) }
    ensures one { IfOk result (λ ends. deck_behind ends.1 ≡ deck_of ends.0) }
{
    let deque = Deque::fifo_as(alloc, ROOM)?;
    let stealer = deque.stealer()?;
    Ok((Owner { deque, passes: 0 }, Door { stealer }))
}

impl Owner {
    /// A further pass for thieves.
    #[tactic(auto, using(crate::proofs::DealLaws::forks))]
    pub fn pass(&mut self) -> Result<DoorPass, AllocError>
        ensures deck { deck_of self.new ≡ deck_of self.old }
        ensures made { IfOk result
            (λ _. owner_view self.new ≡ record (owner_view self.old) { passes = (owner_view self.old).passes + 1 }) }
        ensures pass { IfOk result
            (λ pass. pass_view pass ≡ record { number = (owner_view self.old).passes; stolen = [] }) }
        ensures of { IfOk result (IsPassOfDeck (deck_of self.old)) }
        ensures err { OnErr result (owner_view self.new ≡ owner_view self.old) }
    {
        let number = self.passes;
        let passes = number.checked_add(1).ok_or(AllocError)?;
        let mark = self.deque.another::<Passing>();
        self.passes = passes;
        Ok(DoorPass { mark, number })
    }

    /// Puts a task at the end. Where memory is refused, or the deck can grow no further, it comes back.
    #[tactic(auto, using(crate::proofs::DealLaws::pushes))]
    pub fn push(&mut self, task: Task) -> Result<(), Task>
        ensures deck { deck_of self.new ≡ deck_of self.old }
        ensures rule { MatchResult result
            (λ _. owner_view self.new
            ≡ record (owner_view self.old) { pushed = (owner_view self.old).pushed ++ task ∷ [] })
            (λ back. (back ≡ task) × (owner_view self.new ≡ owner_view self.old)) }
    {
        self.deque.push_as::<Pushing>(task)
    }

    /// Takes the first task.
    pub fn pop(&mut self) -> Option<Task>
        ensures deck { deck_of self.new ≡ deck_of self.old }
        ensures rule { MatchOption result (owner_view self.new ≡ owner_view self.old)
            (λ task. owner_view self.new
            ≡ record (owner_view self.old) { popped = (owner_view self.old).popped ++ task ∷ [] }) }
        ensures alone { (owner_view self.old).passes ≡ 0 → MatchOption result
            ((owner_view self.old).pushed ≡ (owner_view self.old).popped)
            (λ task. (rest : List TaskParts) ×
            ((owner_view self.old).pushed ≡ (owner_view self.old).popped ++ task ∷ [] ++ rest)) }
    {
        take(&mut self.deque)
    }
}

/// Takes the first task, with all that the rule of the deck tells.
pub(crate) fn take(deque: &mut Deque) -> Option<Task>
    requires fifo { worker_flavor deque.old ≡ 0 }
    requires owns { (worker_view deque.old).owns ≡ true }
    ensures same { (worker_deque deque.new ≡ worker_deque deque.old) × (worker_flavor deque.new ≡ 0) }
    ensures rule { MatchOption result
        ((worker_view deque.new ≡ worker_view deque.old) × IsDealtOut (worker_view deque.new))
        (λ task. (worker_view deque.new ≡ with_taken (worker_view deque.old) (task ∷ []))
        × IsNext (worker_view deque.old) (task ∷ [])) }
{
    deque.pop_as::<Taking>()
}
