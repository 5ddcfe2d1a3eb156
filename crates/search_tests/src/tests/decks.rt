ghost use Rattle.std.specs.Prelude.{◌≡◌, [], ◌∷◌, IfOk};
ghost use Rattle.task_deck.specs.Decks.{deck_of, deck_behind, owner_view, pass_view, IsPassOfDeck};

use slot_box::{SlotBox, Task, Terms};
use std::alloc::{AllocError, Global};
use std::process::Abort;
use std::test::Fail;
use std::thread::{Threads, join};
use task_deck::{Account, Door, DoorPass, DoorPasses, Owner, Stolen, account, deck};

fn task(alloc: Global, id: u32) -> Result<Task, Fail> {
    let bx = SlotBox::root(alloc, 1, 1, 4, 2)?;
    Ok(Task::new(id, bx, 1, Terms::new(alloc)))
}

fn push(rt: &impl Abort, owner: &mut Owner, task: Task)
    ensures deck { deck_of owner.new ≡ deck_of owner.old }
    ensures passes { (owner_view owner.new).passes ≡ (owner_view owner.old).passes }
{
    let pushed = owner.push(task).is_ok();
    assert!(rt; pushed);
}

fn pop(owner: &mut Owner) -> Option<u32>
    ensures deck { deck_of owner.new ≡ deck_of owner.old }
    ensures passes { (owner_view owner.new).passes ≡ (owner_view owner.old).passes }
{
    match owner.pop() {
        Some(task) => Some(task.id()),
        None => None,
    }
}

fn steal(door: &Door, pass: &mut DoorPass) -> Option<u32>
    requires { IsPassOfDeck (deck_behind door.now) pass.old }
    ensures of { IsPassOfDeck (deck_behind door.now) pass.new }
    ensures number { (pass_view pass.new).number ≡ (pass_view pass.old).number }
{
    match door.steal(pass) {
        Stolen::Got(task) => Some(task.id()),
        _ => None,
    }
}

/// Whether a thief is told that the deck is empty.
fn finds_it_empty(door: &Door, pass: &mut DoorPass) -> bool
    requires { IsPassOfDeck (deck_behind door.now) pass.old }
    ensures of { IsPassOfDeck (deck_behind door.now) pass.new }
    ensures number { (pass_view pass.new).number ≡ (pass_view pass.old).number }
{
    matches!(door.steal(pass), Stolen::Empty)
}

fn alone(alloc: Global, pass: DoorPass) -> Result<DoorPasses, Fail>
    ensures { IfOk result (λ passes. passes ≡ pass ∷ []) }
{
    let mut passes = DoorPasses::new(alloc);
    if passes.push(pass).is_err() {
        return Err(Fail::from("no memory"));
    }
    Ok(passes)
}

fn has_left(rt: &impl Abort, mut account: Account, ids: [u32; 2]) {
    for id in ids {
        assert_eq!(rt; account.left.pop().map(|task| task.id()), Some(id));
    }
    assert!(rt; account.left.pop().is_none());
}

#[test]
fn what_is_stolen_and_popped_is_not_left(rt: HostRuntime) -> Result<(), Fail> {
    let (mut owner, door) = deck(rt.alloc())?;
    let mut pass = owner.pass()?;
    push(&rt, &mut owner, task(rt.alloc(), 7)?);
    push(&rt, &mut owner, task(rt.alloc(), 8)?);
    assert_eq!(rt; steal(&door, &mut pass), Some(7));
    assert_eq!(rt; pop(&mut owner), Some(8));
    assert_eq!(rt; pop(&mut owner), None);
    assert!(rt; finds_it_empty(&door, &mut pass));
    let passes = alone(rt.alloc(), pass)?;
    let account = account(rt.alloc(), owner, door, passes)?;
    assert_eq!(rt; account.left.as_slice().len(), 0);
    Ok(())
}

#[test]
fn what_nobody_took_is_left_in_order(rt: HostRuntime) -> Result<(), Fail> {
    let (mut owner, door) = deck(rt.alloc())?;
    push(&rt, &mut owner, task(rt.alloc(), 3)?);
    push(&rt, &mut owner, task(rt.alloc(), 5)?);
    push(&rt, &mut owner, task(rt.alloc(), 4)?);
    assert_eq!(rt; pop(&mut owner), Some(3));
    let account = account(rt.alloc(), owner, door, DoorPasses::new(rt.alloc()))?;
    has_left(&rt, account, [4, 5]);
    Ok(())
}

/// Pushes a thousand tasks, and pops some of them.
fn serve(alloc: Global, mut owner: Owner) -> Result<(Owner, Vec<u32>), AllocError>
    ensures deck { IfOk result (λ served. deck_of served.0 ≡ deck_of owner) }
    ensures passes { IfOk result (λ served. (owner_view served.0).passes ≡ (owner_view owner).passes) }
{
    let mut ids = Vec::new(alloc);
    for id in 0..1000 {
        let bx = SlotBox::root(alloc, 1, 1, 4, 2)?;
        let task = Task::new(id, bx, 1, Terms::new(alloc));
        if owner.push(task).is_err() {
            return Err(AllocError);
        }
        if id % 3 == 0 {
            if let Some(id) = pop(&mut owner) {
                ids.push(id)?;
            }
        }
    }
    Ok((owner, ids))
}

/// Steals what it can.
fn prowl(alloc: Global, door: &Door, mut pass: DoorPass) -> Result<(DoorPass, Vec<u32>), AllocError>
    requires { IsPassOfDeck (deck_behind door.now) pass }
    ensures of { IfOk result (λ prowled. IsPassOfDeck (deck_behind door.now) prowled.0) }
    ensures number { IfOk result (λ prowled. (pass_view prowled.0).number ≡ (pass_view pass).number) }
{
    let mut ids = Vec::new(alloc);
    for _ in 0..20_000 {
        if let Some(id) = steal(door, &mut pass) {
            ids.push(id)?;
        }
    }
    Ok((pass, ids))
}

// The numbers from 0 to 999, each once.
fn are_all(rt: &impl Abort, mut ids: Vec<u32>) -> Result<(), Fail> {
    ids.sort()?;
    assert_eq!(rt; ids.len(), 1000);
    for (k, &id) in ids.iter().enumerate() {
        assert_eq!(rt; id as usize, k);
    }
    Ok(())
}

fn gathered(ids: &mut Vec<u32>, more: &[u32]) -> Result<(), AllocError> {
    for &id in more {
        ids.push(id)?;
    }
    Ok(())
}

fn gathered_left(ids: &mut Vec<u32>, mut account: Account) -> Result<(), AllocError> {
    for _ in 0..1000 {
        if let Some(task) = account.left.pop() {
            ids.push(task.id())?;
        }
    }
    Ok(())
}

/// Both passes, in their order.
fn both(alloc: Global, first: DoorPass, second: DoorPass) -> Result<DoorPasses, Fail>
    ensures { IfOk result (λ passes. passes ≡ first ∷ second ∷ []) }
{
    let mut passes = DoorPasses::new(alloc);
    if passes.push(first).is_err() || passes.push(second).is_err() {
        return Err(Fail::from("no memory"));
    }
    Ok(passes)
}

/// Two thieves at one door, each in a thread.
fn prowl_both(
    rt: &impl Threads,
    alloc: Global,
    door: &Door,
    first: DoorPass,
    second: DoorPass,
) -> Result<((DoorPass, Vec<u32>), (DoorPass, Vec<u32>)), AllocError>
    requires first { IsPassOfDeck (deck_behind door.now) first }
    requires second { IsPassOfDeck (deck_behind door.now) second }
    ensures first { IfOk result (λ prowled. IsPassOfDeck (deck_behind door.now) prowled.0.0) }
    ensures second { IfOk result (λ prowled. IsPassOfDeck (deck_behind door.now) prowled.1.0) }
    ensures first_number { IfOk result (λ prowled. (pass_view prowled.0.0).number ≡ (pass_view first).number) }
    ensures second_number { IfOk result (λ prowled. (pass_view prowled.1.0).number ≡ (pass_view second).number) }
{
    let (one, other) = join(
        rt,
        || prowl(alloc, door, first),
        || prowl(alloc, door, second),
    );
    Ok((one?, other?))
}

#[test]
fn each_task_goes_to_the_owner_or_to_a_thief(rt: HostRuntime) -> Result<(), Fail> {
    let alloc = rt.alloc();
    let (mut owner, door) = deck(alloc)?;
    let first = owner.pass()?;
    let second = owner.pass()?;
    let (served, prowled) = join(
        &rt,
        move || serve(alloc, owner),
        || prowl_both(&rt, alloc, &door, first, second),
    );
    let (owner, mut ids) = served?;
    let ((first, one), (second, other)) = prowled?;
    let account = account(alloc, owner, door, both(alloc, first, second)?)?;
    gathered(&mut ids, &one)?;
    gathered(&mut ids, &other)?;
    gathered_left(&mut ids, account)?;
    are_all(&rt, ids)
}
