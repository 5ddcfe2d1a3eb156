ghost use Rattle.std.specs.Prelude.{◌≡◌, [], Some, None, IfOk, OnOk, Option};
ghost use Rattle.search_node.specs.Looks.{IsTaskOf};
ghost use Rattle.search_node.specs.Tables.{IsTableOf};
ghost use Rattle.branch_worker.specs.Sites.{IsAtDoors, IsFreshSeat, IsSite};
ghost use Rattle.branch_worker.specs.Work.{IsDone, first_tasks};
ghost use Rattle.branch_worker.specs.inside.Working.{BeganAmong, IsWorking, Start};

use crate::events::step;
use crate::finding::find;
use crate::queue::TaskQueue;
use crate::site::{Done, Me, Site};
use crate::worker::Worker;
use crossbeam_utils::Backoff;
use item_lists::Items;
use outer_edge::Gate;
use search_board::Seat;
use search_node::RowTable;
use slot_box::Task;
use std::alloc::{AllocError, Global};
use std::sync::Wait;
use task_deck::{DoorPasses, Owner};

/// Follows a task down to its leaf.
fn follow<G: Gate>(
    alloc: Global,
    site: &Site<'_>,
    table: &RowTable,
    gate: &G,
    number: u32,
    worker: &mut Worker,
    task: Task,
) -> Result<(), AllocError>
    ghost start: { Start }
    requires site { IsSite site.now }
    requires began { BeganAmong site.now number start }
    requires table { IsTableOf site.now.plant.now site.now.n table.now }
    requires working { IsWorking start worker.old (Some task) None }
    requires task { IsTaskOf start.parts start.slots task }
    ensures working { OnOk result (IsWorking start worker.new None None) }
    ensures board { worker.new.seat.board ≡ worker.old.seat.board }
{
    let mut hand = Some(task);
    while let Some(task) = hand {
        hand = step(alloc, site, table, gate, number, worker, task)?;
    }
    Ok(())
}

/// Works until nothing is to be found and nobody is busy.
fn work_on<R: Wait, G: Gate>(
    rt: &R,
    alloc: Global,
    site: &Site<'_>,
    gate: &G,
    number: u32,
    worker: &mut Worker,
) -> Result<(), AllocError>
    ghost start: { Start }
    requires site { IsSite site.now }
    requires began { BeganAmong site.now number start }
    requires working { IsWorking start worker.old None None }
    ensures working { OnOk result (IsWorking start worker.new None None) }
    ensures none { OnOk result (worker.new.waiting ≡ []) }
    ensures board { worker.new.seat.board ≡ worker.old.seat.board }
{
    let table = RowTable::new(alloc, site.plant, site.cliques, site.n)?;
    let idle = Backoff::new();
    for _ in rt.forever() {
        if site.board.stopped(&mut worker.seat) {
            return Err(AllocError);
        }
        match find(site, number, worker)? {
            Some(task) => {
                follow(alloc, site, &table, gate, number, worker, task)?;
                idle.reset();
            }
            None => {
                if !site.board.busy(&mut worker.seat) {
                    break;
                }
                idle.snooze();
            }
        }
    }
    Ok(())
}

/// A queue of the first task, if there is one.
fn queue_of(alloc: Global, first: Option<Task>) -> Result<TaskQueue, AllocError>
    ensures { IfOk result (λ queue. queue ≡ first_tasks first) }
{
    let mut queue = TaskQueue::of(Items::new(alloc));
    if let Some(task) = first {
        queue.push(task)?;
    }
    Ok(queue)
}

/// Asks all to stop. Whoever counts as busy takes that back first.
fn give_up(site: &Site<'_>, seat: &mut Seat, busy: bool)
    requires { seat.old.board ≡ site.now.board.now }
{
    if busy {
        site.board.say_busy(seat, false);
    }
    site.board.stop(seat);
}

/// A worker that begins among others.
fn join_in(
    alloc: Global,
    seat: Seat,
    waiting: TaskQueue,
    owner: Owner,
    passes: DoorPasses,
    busy: bool,
) -> Worker
    ensures { result ≡ record {
      seat = seat;
      waiting = waiting;
      notes = [];
      cuts = [];
      found = None;
      drawn = 0;
      owner = Some owner;
      passes = passes;
      busy = busy;
    } }
{
    Worker {
        seat,
        waiting,
        notes: Items::new(alloc),
        cuts: Items::new(alloc),
        found: None,
        drawn: 0,
        owner: Some(owner),
        passes,
        busy,
    }
}

/// One of several workers. It takes tasks where it finds them, and pushes right parts to its deck for whoever comes
/// first; those that the deck hands back it keeps. It ends when it finds nothing and nobody is busy. One that has a
/// first task has to be said to be busy before it begins. The gate is called before each ticket, with the worker's
/// number and how many it has drawn so far. Where memory is refused it asks all others to stop.
pub fn work<R: Wait, G: Gate>(
    rt: &R,
    alloc: Global,
    site: &Site<'_>,
    me: Me,
    gate: &G,
) -> Result<Done, AllocError>
    requires site { IsSite site.now }
    requires seat { IsFreshSeat site.now.board.now me.seat }
    requires doors { IsAtDoors site.now.doors.now me }
    ensures { IfOk result (IsDone site.now.plant.now site.now.n me) }
{
    let Me {
        number,
        mut seat,
        owner,
        passes,
        first,
    } = me;
    let busy = first.is_some();
    let Ok(waiting) = queue_of(alloc, first) else {
        give_up(site, &mut seat, busy);
        return Err(AllocError);
    };
    let mut worker = join_in(alloc, seat, waiting, owner, passes, busy);
    if work_on(rt, alloc, site, gate, number, &mut worker).is_err() {
        give_up(site, &mut worker.seat, worker.busy);
        return Err(AllocError);
    }
    Ok(Done {
        number,
        seat: worker.seat,
        owner: worker.owner.unwrap(),
        passes: worker.passes,
        notes: worker.notes,
        cuts: worker.cuts,
        tokens: Items::new(alloc),
        found: worker.found,
    })
}
