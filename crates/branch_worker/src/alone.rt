ghost use Rattle.std.specs.Prelude.{◌≡◌, [], None, IfOk, false};
ghost use Rattle.branch_worker.specs.Sites.{IsFreshSeat, IsSite};
ghost use Rattle.branch_worker.specs.Work.{IsAloneDone};
ghost use Rattle.branch_worker.specs.inside.Working.{BeganAt, IsWorking, Start};

use crate::events::advance;
use crate::finding::take;
use crate::queue::TaskQueue;
use crate::site::{Alone, AloneDone, Site};
use crate::worker::Worker;
use item_lists::Items;
use outer_edge::Gate;
use search_board::Seat;
use search_node::RowTable;
use slot_box::Tasks;
use std::alloc::{AllocError, Global};

/// A worker that begins with these tasks.
fn begin(alloc: Global, seat: Seat, first: Tasks) -> Worker
    ensures { result ≡ record {
      seat = seat;
      waiting = first;
      notes = [];
      cuts = [];
      found = None;
      drawn = 0;
      owner = None;
      passes = [];
      busy = false;
    } }
{
    Worker {
        seat,
        waiting: TaskQueue::of(first),
        notes: Items::new(alloc),
        cuts: Items::new(alloc),
        found: None,
        drawn: 0,
        owner: None,
        passes: Items::new(alloc),
        busy: false,
    }
}

/// Takes task after task, and does what is to be done with it, until none is left.
fn work_off<G: Gate>(
    alloc: Global,
    site: &Site<'_>,
    gate: &G,
    number: u32,
    mut worker: Worker,
) -> Result<Worker, AllocError>
    ghost start: { Start }
    requires site { IsSite site.now }
    requires began { BeganAt site.now start }
    requires working { IsWorking start worker None None }
    ensures working { IfOk result (λ done. IsWorking start done None None) }
    ensures none { IfOk result (λ done. done.waiting ≡ []) }
{
    let table = RowTable::new(alloc, site.plant, site.cliques, site.n)?;
    let mut hand = take(site, &mut worker)?;
    while let Some(task) = hand {
        hand = advance(alloc, site, &table, gate, number, &mut worker, task)?;
    }
    Ok(worker)
}

/// One worker that works alone: it takes the tasks that it is given, and then all right parts, which it keeps. It waits
/// for nobody. The gate is called before each ticket, with the worker's number and how many it has drawn so far.
pub fn work_alone<G: Gate>(
    alloc: Global,
    site: &Site<'_>,
    me: Alone,
    gate: &G,
) -> Result<AloneDone, AllocError>
    requires site { IsSite site.now }
    requires seat { IsFreshSeat site.now.board.now me.seat }
    ensures { IfOk result (IsAloneDone site.now.plant.now site.now.n me) }
{
    let Alone {
        number,
        seat,
        first,
    } = me;
    let worker = work_off(alloc, site, gate, number, begin(alloc, seat, first))?;
    let Worker {
        seat,
        notes,
        cuts,
        found,
        ..
    } = worker;
    Ok(AloneDone {
        number,
        seat,
        notes,
        cuts,
        found,
    })
}
