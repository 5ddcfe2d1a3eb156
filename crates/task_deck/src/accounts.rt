ghost use Rattle.std.specs.Prelude.{◌≡◌, [], true, false, Contains, IfOk, OnOk, length};
ghost use Rattle.crossbeam_deque.specs.Handles.{view, IsPassOf, worker_deque, worker_flavor, worker_view};
ghost use Rattle.task_deck.specs.Accounts.{AccountsAddUp, IsAccount};
ghost use Rattle.task_deck.specs.Decks.{IsPassOfDeck, deck_of, deck_behind, owner_view, stolen_by, ArePassesFrom};
ghost use Rattle.task_deck.specs.inside.Dealing.{IsDealtOut};
ghost use Rattle.task_deck.specs.inside.Hands.{with_known, with_taken};
ghost use Rattle.task_deck.specs.inside.Returns.{known_of};

use crate::ends::{Account, Door, DoorPass, DoorPasses, Owner};
use crate::hand::{Deque, Returning};
use crate::owner::take;
use item_lists::Items;
use slot_box::Tasks;
use std::alloc::{AllocError, Global};

/// Takes a pass back, and with it what the rule knows of it.
#[tactic(auto, using(crate::proofs::DealLaws::gathers))]
fn take_back(deque: &mut Deque, pass: DoorPass)
    requires of { IsPassOfDeck (worker_deque deque.old) pass }
    requires owns { (worker_view deque.old).owns ≡ true }
    ensures same { (worker_deque deque.new ≡ worker_deque deque.old) ×
        (worker_flavor deque.new ≡ worker_flavor deque.old) }
    ensures known { worker_view deque.new ≡ with_known (worker_view deque.old) (view pass.mark) }
{
    let DoorPass { mark, number: _ } = pass;
    deque.absorb::<Returning>(mark);
}

/// Takes all passes back.
fn take_back_all(deque: &mut Deque, mut passes: DoorPasses)
    requires of { (pass : _) → Contains passes pass → IsPassOfDeck (worker_deque deque.old) pass }
    requires owns { (worker_view deque.old).owns ≡ true }
    requires none { (worker_view deque.old).known ≡ [] }
    ensures same { (worker_deque deque.new ≡ worker_deque deque.old) ×
        (worker_flavor deque.new ≡ worker_flavor deque.old) }
    ensures known { worker_view deque.new ≡ record (worker_view deque.old) { known = known_of passes } }
{
    while let Some(pass) = passes.pop() {
        take_back(deque, pass);
    }
}

/// Takes all tasks that are left.
fn drain(deque: &mut Deque, left: &mut Tasks) -> Result<(), AllocError>
    requires none { left.old ≡ [] }
    requires fifo { worker_flavor deque.old ≡ 0 }
    requires owns { (worker_view deque.old).owns ≡ true }
    ensures left { OnOk result (worker_view deque.new ≡ with_taken (worker_view deque.old) left.new) }
    ensures all { OnOk result (IsDealtOut (worker_view deque.new)) }
{
    while let Some(task) = take(deque) {
        left.push(task).map_err(|_| AllocError)?;
    }
    Ok(())
}

/// Accounts for all tasks of a deck, whose owner, door and passes come to an end.
pub fn account(
    alloc: Global,
    owner: Owner,
    door: Door,
    passes: DoorPasses,
) -> Result<Account, AllocError>
    requires one { deck_behind door ≡ deck_of owner }
    requires passes { ArePassesFrom (deck_of owner) 0 passes }
    requires all { length passes ≡ (owner_view owner).passes }
    ensures { IfOk result
        (λ account. IsAccount (owner_view owner).pushed (owner_view owner).popped (stolen_by passes) account.left) }
{
    let Owner {
        mut deque,
        passes: _,
    } = owner;
    let Door { stealer: _ } = door;
    let mut left = Items::new(alloc);
    take_back_all(&mut deque, passes);
    drain(&mut deque, &mut left)?;
    Ok(Account { left })
}

/// What accounts say of tasks in whatever order: a call does nothing and brings the law.
pub fn account_laws()
    ensures { AccountsAddUp }
{}
