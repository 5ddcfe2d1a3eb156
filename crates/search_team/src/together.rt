ghost use Rattle.std.specs.Prelude.{◌≡◌, ◌+◌, ◌<◌, ◌≤◌, [], IfOk, length};
ghost use Rattle.limits.specs.declared.TheConstants.{MOST_WORKERS};
ghost use Rattle.search_team.specs.Teamwork.{IsScene, IsTogether};
ghost use Rattle.search_team.specs.inside.Apart.{HaveWorked};
ghost use Rattle.team_decks.specs.Dealing.{AreDealt};

use crate::added::add_worker;
use crate::apart::{Apart, take_apart};
use crate::benches::{Ends, seat_all, serve_all};
use crate::team::{Scene, Together};
use branch_worker::Site;
use cut_pool::CutPool;
use outer_edge::Gate;
use search_board::Seat;
use slot_box::Task;
use std::alloc::{AllocError, Global};
use std::sync::Wait;
use std::thread::Threads;
use task_deck::Doors;
use team_decks::{Dealt, account_all, deal_all};
use work_chains::shares_law;

/// Seats the workers, lets them work, each in a thread, and takes apart what they give back.
fn work_in_threads<R: Threads + Wait + Sync, G: Gate>(
    rt: &R,
    alloc: Global,
    scene: &Scene<'_>,
    doors: &Doors,
    seat: Seat,
    dealt: Ends,
    root: Task,
    gate: &G,
) -> Result<Apart, AllocError>
    requires scene { IsScene scene.now }
    requires dealt { AreDealt (length dealt.owners) doors.now dealt.owners dealt.rows }
    requires some { 0 < length dealt.owners }
    requires few { length dealt.owners ≤ MOST_WORKERS }
    requires board { seat.board ≡ scene.now.board.now }
    requires may { length dealt.owners ≤ seat.may }
    ensures { IfOk result (HaveWorked scene.now.plant.now scene.now.n seat dealt.owners dealt.rows root) }
{
    let mut seat = seat;
    let pool = CutPool::new(alloc)?;
    let site = Site {
        plant: scene.plant,
        cliques: scene.cliques,
        automaton: scene.automaton,
        n: scene.n,
        board: scene.board,
        doors,
        pool: &pool,
    };
    // the first worker has something to do
    scene.board.say_busy(&mut seat, true);
    let mut benches = seat_all(
        alloc,
        scene.board,
        &mut seat,
        dealt.owners,
        dealt.rows,
        root,
    )?;
    serve_all(rt, alloc, &site, gate, &mut benches);
    take_apart(alloc, scene.board, seat, benches)
}

/// Several workers work on the root's task, each in a thread; what is left on their decks one more works off alone. The
/// seat is that of whoever called; those of the workers are made by it and joined into it.
pub fn search_together<R: Threads + Wait + Sync, G: Gate>(
    rt: &R,
    alloc: Global,
    scene: &Scene<'_>,
    seat: Seat,
    root: Task,
    workers: u32,
    gate: &G,
) -> Result<Together, AllocError>
    requires scene { IsScene scene.now }
    requires some { 1 ≤ workers }
    requires few { workers ≤ MOST_WORKERS }
    requires board { seat.board ≡ scene.now.board.now }
    requires tickets { seat.tickets ≡ [] }
    requires root { root.id ≡ 0 }
    requires may { workers + 1 ≤ seat.may }
    ensures { IfOk result (IsTogether scene.now.plant.now scene.now.n root seat) }
{
    shares_law();
    let Dealt {
        owners,
        doors,
        rows,
    } = deal_all(alloc, workers)?;
    let apart = work_in_threads(
        rt,
        alloc,
        scene,
        &doors,
        seat,
        Ends { owners, rows },
        root,
        gate,
    )?;
    let left = account_all(alloc, apart.owners, doors, apart.rows)?;
    let so_far = Together {
        seat: apart.seat,
        notes: apart.notes,
        cuts: apart.cuts,
        found: apart.found,
    };
    add_worker(alloc, scene, so_far, workers, left, gate)
}
