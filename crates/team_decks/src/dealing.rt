//! Decks for all workers, and their passes.

ghost use Rattle.std.specs.Prelude.{◌≡◌, ◌+◌, ◌<◌, [], All, IfOk, List, OnOk, length};
ghost use Rattle.task_deck.specs.declared.ends.Door.{Door};
ghost use Rattle.team_decks.specs.Dealing.{AreDealt};
ghost use Rattle.team_decks.specs.inside.Dealt.{IsDealing};

use crate::rows::{Rows, give};
use item_lists::Items;
use std::alloc::{AllocError, Global};
use task_deck::{Doors, Owner, deck};

/// The decks of all workers: their owners and their doors, by the workers' numbers, and the passes of each worker.
#[derive(Drop)]
pub struct Dealt {
    pub owners: Items<Owner>,
    pub doors: Doors,
    pub rows: Rows,
}

/// Gives a worker a pass of the deck, unless it is its own.
fn deal_to(
    owner: &mut Owner,
    number: usize,
    rows: &mut Rows,
    worker: usize,
) -> Result<(), AllocError>
    requires { worker < length rows.old }
    ensures dealing { OnOk result ((doors : List Door) → IsDealing doors number worker owner.old rows.old
        → IsDealing doors number (worker + 1) owner.new rows.new) }
    ensures workers { OnOk result (length rows.new ≡ length rows.old) }
{
    if worker == number {
        return Ok(());
    }
    let pass = owner.pass()?;
    give(rows, worker, pass)?;
    Ok(())
}

/// Deals the passes of a deck out to all workers but its own.
fn deal(owner: &mut Owner, number: usize, rows: &mut Rows) -> Result<(), AllocError>
    ensures dealing { OnOk result ((doors : List Door) → IsDealing doors number 0 owner.old rows.old
        → IsDealing doors number (length rows.old) owner.new rows.new) }
    ensures workers { OnOk result (length rows.new ≡ length rows.old) }
{
    for worker in 0..rows.as_slice().len() {
        deal_to(owner, number, rows, worker)?;
    }
    Ok(())
}

/// Rows without passes, for so many workers.
fn empty_rows(alloc: Global, workers: u32) -> Result<Rows, AllocError>
    ensures workers { IfOk result (λ rows. length rows ≡ workers) }
    ensures empty { IfOk result (λ rows. All (λ row. row ≡ []) rows) }
{
    let mut rows = Items::new(alloc);
    for _worker in 0..workers {
        rows.push(Items::new(alloc)).map_err(|_| AllocError)?;
    }
    Ok(rows)
}

/// A deck for each worker, dealt out to all others.
pub fn deal_all(alloc: Global, workers: u32) -> Result<Dealt, AllocError>
    ensures { IfOk result (λ dealt. AreDealt workers dealt.doors dealt.owners dealt.rows) }
{
    let mut owners = Items::new(alloc);
    let mut doors = Items::new(alloc);
    let mut rows = empty_rows(alloc, workers)?;
    for number in 0..workers {
        let (mut owner, door) = deck(alloc)?;
        doors.push(door).map_err(|_| AllocError)?;
        deal(&mut owner, number as usize, &mut rows)?;
        owners.push(owner).map_err(|_| AllocError)?;
    }
    Ok(Dealt {
        owners,
        doors,
        rows,
    })
}
