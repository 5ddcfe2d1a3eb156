//! One more worker.

ghost use Rattle.std.specs.Prelude.{◌≡◌, ◌<◌, IfOk};
ghost use Rattle.search_team.specs.Teamwork.{IsScene};
ghost use Rattle.search_team.specs.inside.Added.{IsAdded};

use crate::team::{Scene, Together};
use branch_worker::{Alone, AloneDone, Site, work_alone};
use cut_pool::CutPool;
use item_lists::Items;
use outer_edge::Gate;
use plan_build::better;
use slot_box::Tasks;
use std::alloc::{AllocError, Global};

/// One more worker works off the tasks that it is given, and all right parts; it waits for nobody. Its work is added to
/// what others gave back.
pub(crate) fn add_worker<G: Gate>(
    alloc: Global,
    scene: &Scene<'_>,
    so_far: Together,
    number: u32,
    first: Tasks,
    gate: &G,
) -> Result<Together, AllocError>
    requires scene { IsScene scene.now }
    requires board { so_far.seat.board ≡ scene.now.board.now }
    requires may { 0 < so_far.seat.may }
    ensures { IfOk result (IsAdded scene.now.plant.now scene.now.n number first so_far) }
{
    let Together {
        mut seat,
        mut notes,
        mut cuts,
        found,
    } = so_far;
    // one that works alone needs neither doors nor others' cuts
    let (doors, pool) = (Items::new(alloc), CutPool::new(alloc)?);
    let site = Site {
        plant: scene.plant,
        cliques: scene.cliques,
        automaton: scene.automaton,
        n: scene.n,
        board: scene.board,
        doors: &doors,
        pool: &pool,
    };
    let me = Alone {
        number,
        seat: scene.board.seat(&mut seat)?,
        first,
    };
    let done = work_alone(alloc, &site, me, gate)?;
    let AloneDone {
        seat: its_seat,
        notes: its_notes,
        cuts: its_cuts,
        found: its_found,
        ..
    } = done;
    scene.board.join(&mut seat, its_seat);
    notes.push(its_notes).map_err(|_| AllocError)?;
    cuts.push(its_cuts).map_err(|_| AllocError)?;
    Ok(Together {
        seat,
        notes,
        cuts,
        found: better(found, its_found),
    })
}
