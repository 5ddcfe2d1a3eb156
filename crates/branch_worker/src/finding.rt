//! Where a worker finds its next task: with itself, on its own deck, or behind the doors of the others.

ghost use Rattle.std.specs.Prelude.{◌≡◌, ℕ, ◌<◌, [], IfOk, IfSome, IsSome, None, Some, length, slice_index_or};
ghost use Rattle.search_node.specs.Looks.{IsTaskOf};
ghost use Rattle.task_deck.specs.Decks.{IsPassOfDeck, deck_behind};
ghost use Rattle.branch_worker.specs.inside.Working.{BeganAmong, BeganAt, IsWorking, Start, work_left};

use crate::site::Site;
use crate::testing::is_task_of;
use crate::worker::Worker;
use slot_box::Task;
use std::alloc::AllocError;
use task_deck::{Door, Stolen};

/// The task, if it may be examined.
fn tested(site: &Site<'_>, task: Task) -> Result<Task, AllocError>
    ensures same { IfOk result (λ same. same ≡ task) }
    ensures task { IfOk result (IsTaskOf site.now.plant.now site.now.n) }
{
    if is_task_of(site.plant, site.n, &task) {
        Ok(task)
    } else {
        Err(AllocError)
    }
}

/// Takes the next task that waits into the hand.
pub(crate) fn take(site: &Site<'_>, worker: &mut Worker) -> Result<Option<Task>, AllocError>
    ghost start: { Start }
    requires began { BeganAt site.now start }
    requires working { IsWorking start worker.old None None }
    ensures working { IfOk result (λ next. IsWorking start worker.new next None) }
    ensures task { IfOk result (λ next. IfSome next (IsTaskOf start.parts start.slots)) }
    ensures same { (budget : ℕ) → IfOk result (λ next. work_left budget worker.new next
        ≡ work_left budget worker.old None) }
    ensures ends { IfOk result (λ next. next ≡ None → worker.new.waiting ≡ []) }
    ensures board { worker.new.seat.board ≡ worker.old.seat.board }
{
    let Some(task) = worker.waiting.pop() else {
        return Ok(None);
    };
    Ok(Some(tested(site, task)?))
}

/// Takes the first task of the worker's own deck.
fn pop(worker: &mut Worker) -> Option<Task>
    ghost start: { Start }
    requires working { IsWorking start worker.old None None }
    ensures working { IsWorking start worker.new result None }
    ensures others { worker.new ≡ record worker.old { owner = worker.new.owner } }
{
    match &mut worker.owner {
        Some(owner) => owner.pop(),
        None => None,
    }
}

/// Tries to steal a task through another's door, by the pass of this place.
fn steal(door: &Door, worker: &mut Worker, place: usize) -> Option<Task>
    ghost start: { Start }
    requires working { IsWorking start worker.old None None }
    requires deck { IsSome start.owner }
    requires place { place < length worker.old.passes }
    requires of { (pass : _) → IsPassOfDeck (deck_behind door.now) (slice_index_or worker.old.passes place pass) }
    ensures working { IsWorking start worker.new result None }
    ensures others { worker.new ≡ record worker.old { passes = worker.new.passes } }
{
    match door.steal(&mut worker.passes.as_mut_slice()[place]) {
        Stolen::Got(task) => Some(task),
        Stolen::Empty | Stolen::Again => None,
    }
}

/// Tries the pass of this place at the door that it belongs to.
fn steal_by(site: &Site<'_>, number: u32, worker: &mut Worker, place: usize) -> Option<Task>
    ghost start: { Start }
    requires began { BeganAmong site.now number start }
    requires working { IsWorking start worker.old None None }
    requires place { place < length worker.old.passes }
    ensures working { IsWorking start worker.new result None }
    ensures others { worker.new ≡ record worker.old { passes = worker.new.passes } }
{
    // the passes are those of all doors but the worker's own
    let doors = site.doors.as_slice();
    let door = if place < number as usize {
        place
    } else {
        place + 1
    };
    steal(&doors[door], worker, place)
}

/// Tries the doors of all others, from the one behind its own on.
fn steal_from_others(site: &Site<'_>, number: u32, worker: &mut Worker) -> Option<Task>
    ghost start: { Start }
    requires began { BeganAmong site.now number start }
    requires working { IsWorking start worker.old None None }
    ensures working { IsWorking start worker.new result None }
    ensures others { worker.new ≡ record worker.old { passes = worker.new.passes } }
{
    let count = worker.passes.as_slice().len();
    for k in 0..count {
        let place = (number as usize + k) % count;
        let stolen = steal_by(site, number, worker, place);
        if stolen.is_some() {
            return stolen;
        }
    }
    None
}

/// Says to the board whether the worker is busy, where the board does not know it.
pub(crate) fn say(site: &Site<'_>, worker: &mut Worker, busy: bool)
    requires { worker.old.seat.board ≡ site.now.board.now }
    ensures { worker.new ≡ record worker.old { busy = busy } }
{
    if worker.busy != busy {
        site.board.say_busy(&mut worker.seat, busy);
        worker.busy = busy;
    }
}

/// A task of another, if there is one. As long as the worker looks for it, it counts as busy.
fn find_elsewhere(site: &Site<'_>, number: u32, worker: &mut Worker) -> Option<Task>
    ghost start: { Start }
    requires began { BeganAmong site.now number start }
    requires working { IsWorking start worker.old None None }
    ensures working { IsWorking start worker.new result None }
    ensures waiting { worker.new.waiting ≡ worker.old.waiting }
    ensures seat { worker.new.seat ≡ worker.old.seat }
{
    say(site, worker, true);
    let stolen = steal_from_others(site, number, worker);
    if stolen.is_none() {
        say(site, worker, false);
    }
    stolen
}

/// The first task of its own deck, or else one of another.
fn find_on_decks(site: &Site<'_>, number: u32, worker: &mut Worker) -> Option<Task>
    ghost start: { Start }
    requires began { BeganAmong site.now number start }
    requires working { IsWorking start worker.old None None }
    ensures working { IsWorking start worker.new result None }
    ensures waiting { worker.new.waiting ≡ worker.old.waiting }
    ensures seat { worker.new.seat ≡ worker.old.seat }
{
    match pop(worker) {
        Some(task) => Some(task),
        None => find_elsewhere(site, number, worker),
    }
}

/// The next task: one that waits, or the first of its own deck, or one of another.
pub(crate) fn find(
    site: &Site<'_>,
    number: u32,
    worker: &mut Worker,
) -> Result<Option<Task>, AllocError>
    ghost start: { Start }
    requires began { BeganAmong site.now number start }
    requires working { IsWorking start worker.old None None }
    ensures working { IfOk result (λ next. IsWorking start worker.new next None) }
    ensures task { IfOk result (λ next. IfSome next (IsTaskOf start.parts start.slots)) }
    ensures ends { IfOk result (λ next. next ≡ None → worker.new.waiting ≡ []) }
    ensures board { worker.new.seat.board ≡ worker.old.seat.board }
{
    if let Some(task) = take(site, worker)? {
        return Ok(Some(task));
    }
    let Some(task) = find_on_decks(site, number, worker) else {
        return Ok(None);
    };
    Ok(Some(tested(site, task)?))
}
