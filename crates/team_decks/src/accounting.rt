//! What is left of all decks when the workers have ended.

ghost use Rattle.std.specs.Prelude.{◌≡◌, ◌+◌, ◌-◌, ◌<◌, ◌++◌, IfOk, IsPermutation, List, OnOk, length, slice_index_or};
ghost use Rattle.task_deck.specs.declared.ends.Door.{Door};
ghost use Rattle.task_deck.specs.declared.ends.DoorPass.{DoorPass};
ghost use Rattle.task_deck.specs.Decks.{deck_behind, deck_of, owner_view};
ghost use Rattle.team_decks.specs.Dealing.{AreLeftOf, AreOwners};
ghost use Rattle.team_decks.specs.Rows.{AreRows, one_less_below};
ghost use Rattle.team_decks.specs.inside.Dealt.{IsAccounted, IsReturning};

use crate::rows::{Rows, take_back};
use item_lists::Items;
use slot_box::Tasks;
use std::alloc::{AllocError, Global};
use task_deck::{Door, DoorPasses, Doors, Owner, account, account_laws};

/// Takes the pass of a deck back from a worker, unless it is its own.
fn take_from(
    number: usize,
    rows: &mut Rows,
    worker: usize,
    passes: &mut DoorPasses,
) -> Result<(), AllocError>
    requires worker { worker < length rows.old }
    requires dealt { (doors : List Door) × AreRows doors (one_less_below number worker) rows.old }
    ensures workers { OnOk result (length rows.new ≡ length rows.old) }
    ensures returning { OnOk result ((doors : List Door) (first : List (List DoorPass))
        → IsReturning doors number worker first rows.old passes.old
        → IsReturning doors number (worker + 1) first rows.new passes.new) }
{
    if worker == number {
        return Ok(());
    }
    let pass = take_back(rows, worker);
    passes.push(pass).map_err(|_| AllocError)?;
    Ok(())
}

/// Takes the passes of the last deck that is left back from all workers but its own, in the order of their numbers.
fn passes_of(alloc: Global, number: usize, rows: &mut Rows) -> Result<DoorPasses, AllocError>
    requires dealt { (doors : List Door) × AreRows doors (λ worker. number + 1) rows.old }
    ensures { IfOk result (λ passes. (doors : List Door) → AreRows doors (λ worker. number + 1) rows.old
        → IsReturning doors number (length rows.old) rows.old rows.new passes) }
{
    let mut passes = Items::new(alloc);
    for worker in 0..rows.as_slice().len() {
        take_from(number, rows, worker, &mut passes)?;
    }
    Ok(passes)
}

/// Adds tasks to a list.
fn add_all(left: &mut Tasks, more: Tasks) -> Result<(), AllocError>
    ensures { OnOk result (IsPermutation (left.old ++ more) left.new) }
{
    let mut more = more;
    while let Some(task) = more.pop() {
        left.push(task).map_err(|_| AllocError)?;
    }
    Ok(())
}

/// Accounts for the last deck of those that are left.
fn account_last(
    alloc: Global,
    owner: Owner,
    door: Door,
    number: usize,
    rows: &mut Rows,
    left: &mut Tasks,
) -> Result<(), AllocError>
    requires number { number < length rows.old }
    requires one { deck_behind door ≡ deck_of owner }
    requires passes { (owner_view owner).passes ≡ length rows.old - 1 }
    requires dealt { (doors : List Door) × AreRows doors (λ worker. number + 1) rows.old
        × ((door : Door) → deck_of owner ≡ deck_behind (slice_index_or doors number door)) }
    ensures { OnOk result ((doors : List Door) → AreRows doors (λ worker. number + 1) rows.old
        → IsAccounted doors number owner rows.old rows.new left.old left.new) }
{
    account_laws();
    let passes = passes_of(alloc, number, rows)?;
    let account = account(alloc, owner, door, passes)?;
    add_all(left, account.left)?;
    Ok(())
}

/// Accounts for all decks: the tasks that are left on them.
pub fn account_all(
    alloc: Global,
    owners: Items<Owner>,
    doors: Doors,
    rows: Rows,
) -> Result<Tasks, AllocError>
    requires owners { AreOwners doors (length rows - 1) owners }
    requires workers { length rows ≡ length doors }
    requires rows { AreRows doors (λ worker. length doors) rows }
    ensures { IfOk result (AreLeftOf owners rows) }
{
    let (mut owners, mut doors, mut rows) = (owners, doors, rows);
    let mut left = Items::new(alloc);
    while let Some(owner) = owners.pop() {
        let door = doors.pop().unwrap();
        let number = owners.as_slice().len();
        account_last(alloc, owner, door, number, &mut rows, &mut left)?;
    }
    Ok(left)
}
