ghost use Rattle.std.specs.Prelude.{◌≡◌, [], ◌∷◌, ◌++◌};
ghost use Rattle.task_deck.specs.Decks.{deck_behind, pass_view, IsPassOfDeck};
ghost use Rattle.task_deck.specs.Steals.{MatchStolen};

use crate::ends::{Door, DoorPass, DoorPasses, Doors, Owner, Stolen};
use crate::hand::Taking;
use crossbeam_deque::Steal;

impl Door {
    /// Tries to take the first task.
    #[tactic(auto, using(crate::proofs::DealLaws::steals, crate::proofs::DealLaws::finds_nothing))]
    pub fn steal(&self, pass: &mut DoorPass) -> Stolen
        requires { IsPassOfDeck (deck_behind self.now) pass.old }
        ensures of { IsPassOfDeck (deck_behind self.now) pass.new }
        ensures rule { MatchStolen result (pass_view pass.new ≡ pass_view pass.old)
            (λ task. pass_view pass.new
            ≡ record (pass_view pass.old) { stolen = (pass_view pass.old).stolen ++ task ∷ [] }) }
    {
        match self.stealer.steal_as::<Taking>(&mut pass.mark) {
            Steal::Success(task) => Stolen::Got(task),
            Steal::Empty => Stolen::Empty,
            Steal::Retry => Stolen::Again,
        }
    }
}

// Threads share doors; owners, passes and doors go from thread to thread.
fn may_share<T: Sync>(_value: &T) {}

fn may_cross<T: Send>(_value: &T) {}

fn deck_may_cross(owner: &Owner, door: &Door, doors: &Doors, pass: &DoorPass, passes: &DoorPasses) {
    may_cross(owner);
    may_share(door);
    may_cross(door);
    may_share(doors);
    may_cross(doors);
    may_cross(pass);
    may_cross(passes);
}
