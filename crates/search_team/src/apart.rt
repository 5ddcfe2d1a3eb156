//! What the workers gave back, taken apart.

ghost use Rattle.std.specs.Prelude.{◌≡◌, ℕ, ◌++◌, ◌∷◌, [], IfOk, IfSome, List, OnOk};
ghost use Rattle.branch_worker.specs.declared.site.Done.{Done};
ghost use Rattle.branch_worker.specs.declared.site.Me.{Me};
ghost use Rattle.plan_build.specs.Built.{IsPlanned};
ghost use Rattle.plant_model.specs.declared.parts.Parts.{Parts};
ghost use Rattle.search_board.specs.Seats.{SeatView};
ghost use Rattle.search_team.specs.inside.Apart.{AreDone, AreOwed, IsApart};
ghost use Rattle.search_team.specs.inside.Benches.{HaveReturned};

use crate::benches::{Bench, Benches};
use branch_worker::Done;
use item_lists::Items;
use plan_build::better;
use replay_core::Planned;
use search_board::{Board, Seat};
use search_gather::CutLists;
use search_node::NoteLists;
use std::alloc::{AllocError, Global};
use task_deck::Owner;
use team_decks::Rows;

/// What the workers gave back, in lists by their numbers.
#[derive(Drop)]
pub struct Apart {
    /// The seat into which theirs were joined.
    pub seat: Seat,
    pub owners: Items<Owner>,
    pub rows: Rows,
    pub notes: NoteLists,
    pub cuts: CutLists,
    /// The best plan that they offered.
    pub found: Option<Planned>,
}

/// Adds what one more worker gave back.
fn add(board: &Board, apart: &mut Apart, done: Done) -> Result<(), AllocError>
    requires own { apart.old.seat.board ≡ board.now }
    requires its { done.seat.board ≡ board.now }
    ensures apart { OnOk result ((parts : Parts) (n : ℕ) (before : SeatView) (dones : List Done)
        → IsApart parts n before dones apart.old → IfSome done.found (IsPlanned parts n)
        → IsApart parts n before (dones ++ done ∷ []) apart.new) }
    ensures own { OnOk result (apart.new.seat.board ≡ board.now) }
{
    let Done {
        seat,
        owner,
        passes,
        notes,
        cuts,
        found,
        ..
    } = done;
    board.join(&mut apart.seat, seat);
    apart.owners.push(owner).map_err(|_| AllocError)?;
    apart.rows.push(passes).map_err(|_| AllocError)?;
    apart.notes.push(notes).map_err(|_| AllocError)?;
    apart.cuts.push(cuts).map_err(|_| AllocError)?;
    apart.found = better(apart.found.take(), found);
    Ok(())
}

/// Nothing given back yet.
fn nothing(alloc: Global, seat: Seat) -> Apart
    ensures { result ≡ record { seat = seat; owners = []; rows = []; notes = []; cuts = []; found = None } }
{
    Apart {
        seat,
        owners: Items::new(alloc),
        rows: Items::new(alloc),
        notes: Items::new(alloc),
        cuts: Items::new(alloc),
        found: None,
    }
}

/// What lies on a bench.
fn given_back(bench: Bench) -> Option<Done>
    ensures { result ≡ bench.done }
{
    bench.done
}

/// Takes apart what lies on all benches, the first worker's first. Where a worker gave nothing back, memory was refused.
pub(crate) fn take_apart(
    alloc: Global,
    board: &Board,
    seat: Seat,
    benches: Benches,
) -> Result<Apart, AllocError>
    requires own { seat.board ≡ board.now }
    requires owed { AreOwed board.now benches }
    ensures { IfOk result (λ apart. (parts : Parts) (n : ℕ) (mes : List Me) → HaveReturned parts n mes benches
        → (dones : List Done) × AreDone parts n mes dones × IsApart parts n seat dones apart) }
{
    let mut benches = benches;
    let mut apart = nothing(alloc, seat);
    while let Some(bench) = benches.pop() {
        let Some(done) = given_back(bench) else {
            return Err(AllocError);
        };
        add(board, &mut apart, done)?;
    }
    Ok(apart)
}
