ghost use Rattle.std.specs.Prelude.{◌≡◌, ◌<◌, ◌∷◌, [], IfOk};
ghost use Rattle.search_team.specs.Teamwork.{IsAlone, IsScene};

use crate::added::add_worker;
use crate::team::{Scene, Together};
use item_lists::Items;
use outer_edge::Gate;
use search_board::Seat;
use slot_box::Task;
use std::alloc::{AllocError, Global};
use work_chains::shares_law;

/// One worker works on the root's task. It waits for nobody. The seat is that of whoever called; the worker's is made by
/// it and joined into it.
pub fn search_alone<G: Gate>(
    alloc: Global,
    scene: &Scene<'_>,
    seat: Seat,
    root: Task,
    gate: &G,
) -> Result<Together, AllocError>
    requires scene { IsScene scene.now }
    requires board { seat.board ≡ scene.now.board.now }
    requires tickets { seat.tickets ≡ [] }
    requires root { root.id ≡ 0 }
    requires may { 0 < seat.may }
    ensures { IfOk result (IsAlone scene.now.plant.now scene.now.n root seat) }
{
    shares_law();
    let mut first = Items::new(alloc);
    first.push(root).map_err(|_| AllocError)?;
    let so_far = Together {
        seat,
        notes: Items::new(alloc),
        cuts: Items::new(alloc),
        found: None,
    };
    add_worker(alloc, scene, so_far, 0, first, gate)
}
