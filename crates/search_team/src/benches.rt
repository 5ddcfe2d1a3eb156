//! Where the workers sit.

ghost use Rattle.std.specs.Prelude.{◌≡◌, ℕ, ◌-◌, ◌<◌, ◌≤◌, All, IfOk, List, OnOk, length, slice_index_or};
ghost use Rattle.limits.specs.declared.TheConstants.{MOST_WORKERS};
ghost use Rattle.branch_worker.specs.declared.site.Me.{Me};
ghost use Rattle.branch_worker.specs.Sites.{IsSite};
ghost use Rattle.search_board.specs.Seats.{seat_from};
ghost use Rattle.search_team.specs.inside.Benches.{AreSeatedBy, HasReturned, IsSeated, benches_of, first_for, root_after};

use branch_worker::{Done, Me, Site, work};
use item_lists::Items;
use outer_edge::Gate;
use search_board::{Board, Seat};
use slot_box::Task;
use std::alloc::{AllocError, Global};
use std::sync::Wait;
use std::thread;
use std::thread::Threads;
use task_deck::{DoorPasses, Owner};
use team_decks::Rows;

/// What the workers hold of the decks, by their numbers: the owners and the rows of passes.
#[derive(Drop)]
pub struct Ends {
    pub owners: Items<Owner>,
    pub rows: Rows,
}

/// The place of a worker: what it begins with, and then what it gives back.
#[derive(Drop)]
pub struct Bench {
    pub me: Option<Me>,
    pub done: Option<Done>,
}

/// The benches of all workers, the last worker's first: where no thread can be started, the last bench is served
/// first, and that has to be the first worker's, since the others wait for it.
pub(crate) type Benches = Items<Bench>;

/// What the worker of this number begins with. The first has the root's task.
fn me_of(
    board: &Board,
    seat: &mut Seat,
    number: u32,
    owner: Owner,
    passes: DoorPasses,
    root: &mut Option<Task>,
) -> Result<Me, AllocError>
    requires board { seat.old.board ≡ board.now }
    requires may { 0 < seat.old.may }
    ensures me { IfOk result (λ me. me ≡ record {
      number = number;
      seat = seat_from seat.old;
      owner = owner;
      passes = passes;
      first = first_for number root.old;
    }) }
    ensures seat { OnOk result (seat.new ≡ record seat.old { may = seat.old.may - 1 }) }
    ensures root { OnOk result (root.new ≡ root_after number root.old) }
{
    Ok(Me {
        number,
        seat: board.seat(seat)?,
        owner,
        passes,
        first: if number == 0 { root.take() } else { None },
    })
}

/// Seats all workers.
pub(crate) fn seat_all(
    alloc: Global,
    board: &Board,
    seat: &mut Seat,
    owners: Items<Owner>,
    rows: Rows,
    root: Task,
) -> Result<Benches, AllocError>
    requires board { seat.old.board ≡ board.now }
    requires both { length owners ≡ length rows }
    requires some { 0 < length owners }
    requires few { length owners ≤ MOST_WORKERS }
    requires may { length owners ≤ seat.old.may }
    ensures seat { OnOk result (seat.new ≡ record seat.old { may = seat.old.may - length owners }) }
    ensures benches { IfOk result (λ benches. (mes : List Me) × (benches ≡ benches_of mes)
        × AreSeatedBy seat.old owners rows root mes) }
{
    let (mut owners, mut rows) = (owners, rows);
    let mut benches = Items::new(alloc);
    let mut root = Some(root);
    while let Some(owner) = owners.pop() {
        let passes = rows.pop().unwrap();
        let number = owners.as_slice().len() as u32;
        let me = me_of(board, seat, number, owner, passes, &mut root)?;
        benches
            .push(Bench {
                me: Some(me),
                done: None,
            })
            .map_err(|_| AllocError)?;
    }
    Ok(benches)
}

/// Lets the worker of a bench work.
fn serve<R: Wait, G: Gate>(rt: &R, alloc: Global, site: &Site<'_>, gate: &G, bench: &mut Bench)
    requires site { IsSite site.now }
    requires seated { IsSeated site.now bench.old }
    ensures { HasReturned site.now bench.old bench.new }
{
    if let Some(me) = bench.me.take() {
        bench.done = work(rt, alloc, site, me, gate).ok();
    }
}

/// Lets all work, each in a thread.
pub(crate) fn serve_all<R: Threads + Wait + Sync, G: Gate>(
    rt: &R,
    alloc: Global,
    site: &Site<'_>,
    gate: &G,
    benches: &mut Benches,
)
    requires site { IsSite site.now }
    requires some { 0 < length benches.old }
    requires seated { All (IsSeated site.now) benches.old }
    ensures many { length benches.new ≡ length benches.old }
    ensures returned { (i : ℕ) (bench : _) → i < length benches.old →
        HasReturned site.now (slice_index_or benches.old i bench) (slice_index_or benches.new i bench) }
{
    let lent = benches.as_mut_slice();
    let many = lent.len();
    thread::for_each_mut(
        rt,
        lent,
        many,
        &|_, bench: &mut Bench|
            requires site { IsSite site.now }
            requires seated { IsSeated site.now bench.old }
            ensures returned { HasReturned site.entry.now bench.old bench.new }
        { serve(rt, alloc, site, gate, bench) },
    );
}
