ghost use Rattle.std.specs.Prelude.{◌≡◌, ◌<◌, ◌++◌, IfOk, OnOk};
ghost use Rattle.plant_maker.specs.Choices.{choices_of};
ghost use Rattle.plant_maker.specs.Made.{between, operation, unload, transfer, charge, entries, unloads, transfers, made_operations};

use crate::entries::{
    CHARGING_TANKS, arrival, charging_name, digit, storage_name, unit_name, vessel_name,
};
use crate::picks::Picks;
use item_lists::{Copies, Items};
use plant_model::{Name, OperationPart, Operations, Pair, Pairs};
use std::alloc::{AllocError, Global};

/// The most that an operation moves in a day, and the most that it moves in all, in volume units.
const MOST_MOVED: i64 = 500_000;

/// The most sulphur of a charge.
const MOST_SULPHUR: i64 = 60;

/// A letter and the digits of two entries.
fn between(alloc: Global, letter: u8, from: u8, to: u8) -> Result<Name, AllocError>
    requires from { from < 9 }
    requires to { to < 9 }
    ensures { IfOk result (λ name. name ≡ between letter from to) }
{
    Copies::new(alloc, &[letter, digit(from), b'_', digit(to)])
}

/// From the start, in minutes, to the horizon.
fn operation(
    picks: &Picks,
    name: Name,
    from: Name,
    to: Name,
    start: u32,
    limits: Pairs,
) -> OperationPart
    ensures { result ≡ operation (choices_of picks.now) name from to start limits }
{
    OperationPart {
        name,
        from,
        to,
        rate: Pair {
            lo: 0,
            hi: MOST_MOVED,
        },
        volume: Pair {
            lo: 1,
            hi: MOST_MOVED,
        },
        window: Pair {
            lo: i64::from(start),
            hi: picks.horizon(),
        },
        limits,
    }
}

#[tactic(auto, unfolding(crate::specs::Made::unload))]
fn unload(alloc: Global, picks: &Picks, vessel: u8, tank: u8) -> Result<OperationPart, AllocError>
    requires vessel { vessel < 9 }
    requires tank { tank < 9 }
    ensures { IfOk result (λ part. part ≡ unload (choices_of picks.now) vessel tank) }
{
    let name = between(alloc, b'u', vessel, tank)?;
    let from = vessel_name(alloc, vessel)?;
    let to = storage_name(alloc, tank)?;
    let start = arrival(vessel);
    Ok(operation(picks, name, from, to, start, Items::new(alloc)))
}

#[tactic(auto, unfolding(crate::specs::Made::transfer))]
fn transfer(
    alloc: Global,
    picks: &Picks,
    storage: u8,
    charging: u8,
) -> Result<OperationPart, AllocError>
    requires storage { storage < 9 }
    requires charging { charging < 9 }
    ensures { IfOk result (λ part. part ≡ transfer (choices_of picks.now) storage charging) }
{
    let name = between(alloc, b't', storage, charging)?;
    let from = storage_name(alloc, storage)?;
    let to = charging_name(alloc, charging)?;
    Ok(operation(picks, name, from, to, 0, Items::new(alloc)))
}

#[tactic(auto, unfolding(crate::specs::Made::charge))]
fn charge(alloc: Global, picks: &Picks, tank: u8) -> Result<OperationPart, AllocError>
    requires { tank < 9 }
    ensures { IfOk result (λ part. part ≡ charge (choices_of picks.now) tank) }
{
    let name = Copies::new(alloc, &[b'c', digit(tank)])?;
    let from = charging_name(alloc, tank)?;
    let to = unit_name(alloc)?;
    let sulphur = Pair {
        lo: 0,
        hi: MOST_SULPHUR,
    };
    let limits = Items::from_vec(vec![in alloc; sulphur]?);
    Ok(operation(picks, name, from, to, 0, limits))
}

/// The vessel into each storage tank.
fn push_unloads(
    alloc: Global,
    picks: &Picks,
    vessel: u8,
    list: &mut Vec<OperationPart>,
) -> Result<(), AllocError>
    requires { vessel < 9 }
    ensures { OnOk result (list.new.items
        ≡ list.old.items ++ entries (unload (choices_of picks.now) vessel) (choices_of picks.now).storage) }
{
    for tank in 0..picks.storage() {
        list.push(unload(alloc, picks, vessel, tank)?)?;
    }
    Ok(())
}

/// The storage tank into each charging tank.
fn push_transfers(
    alloc: Global,
    picks: &Picks,
    storage: u8,
    list: &mut Vec<OperationPart>,
) -> Result<(), AllocError>
    requires { storage < 9 }
    ensures { OnOk result (list.new.items ≡ list.old.items ++ entries (transfer (choices_of picks.now) storage) 2) }
{
    for charging in 0..CHARGING_TANKS {
        list.push(transfer(alloc, picks, storage, charging)?)?;
    }
    Ok(())
}

fn push_all_unloads(
    alloc: Global,
    picks: &Picks,
    list: &mut Vec<OperationPart>,
) -> Result<(), AllocError>
    ensures { OnOk result (list.new.items ≡ list.old.items ++ unloads (choices_of picks.now)) }
{
    for vessel in 0..picks.vessels() {
        push_unloads(alloc, picks, vessel, list)?;
    }
    Ok(())
}

fn push_all_transfers(
    alloc: Global,
    picks: &Picks,
    list: &mut Vec<OperationPart>,
) -> Result<(), AllocError>
    ensures { OnOk result (list.new.items ≡ list.old.items ++ transfers (choices_of picks.now)) }
{
    for storage in 0..picks.storage() {
        push_transfers(alloc, picks, storage, list)?;
    }
    Ok(())
}

fn push_charges(
    alloc: Global,
    picks: &Picks,
    list: &mut Vec<OperationPart>,
) -> Result<(), AllocError>
    ensures { OnOk result (list.new.items ≡ list.old.items ++ entries (charge (choices_of picks.now)) 2) }
{
    for tank in 0..CHARGING_TANKS {
        list.push(charge(alloc, picks, tank)?)?;
    }
    Ok(())
}

pub(crate) fn operations(alloc: Global, picks: &Picks) -> Result<Operations, AllocError>
    ensures { IfOk result (λ list. list ≡ made_operations (choices_of picks.now)) }
{
    let mut list = Vec::new(alloc);
    push_all_unloads(alloc, picks, &mut list)?;
    push_all_transfers(alloc, picks, &mut list)?;
    push_charges(alloc, picks, &mut list)?;
    Ok(Items::from_vec(list))
}
