ghost use Rattle.std.specs.Prelude.{◌≡◌, ◌<◌, ◌*◌, ◌∷◌, [], IfOk};
ghost use Rattle.plant_maker.specs.Choices.{choices_of};
ghost use Rattle.plant_maker.specs.Made.{digit_of, crude_name, vessel_name, storage_name, charging_name, unit_name, only, pair, made_crude, made_vessel, tank, made_storage, made_charging, made_unit, entries};

use crate::picks::{DAY, Picks};
use item_lists::{Copies, Items};
use limits::{MOST_SLOTS, MOST_VOLUME};
use plant_model::{
    CrudePart, Crudes, Name, Numbers, Pair, TankPart, Tanks, UnitPart, Units, VesselPart, Vessels,
};
use std::alloc::{AllocError, Global};

/// How many charging tanks there are.
pub(crate) const CHARGING_TANKS: u8 = 2;

/// What a charging tank holds at first, in volume units.
const CHARGING_STOCK: i64 = 100_000;

/// The greatest level of a tank, in volume units.
const TANK_ROOM: i64 = 1_000_000;

/// The digit that an entry is named by, which is one more than its number.
pub(crate) fn digit(entry: u8) -> u8
    requires { entry < 9 }
    ensures { result ≡ digit_of entry }
{
    b'1' + entry
}

fn crude_name(alloc: Global, crude: u8) -> Result<Name, AllocError>
    requires { crude < 9 }
    ensures { IfOk result (λ name. name ≡ crude_name crude) }
{
    Copies::new(alloc, &[b'A' + crude])
}

pub(crate) fn vessel_name(alloc: Global, vessel: u8) -> Result<Name, AllocError>
    requires { vessel < 9 }
    ensures { IfOk result (λ name. name ≡ vessel_name vessel) }
{
    Copies::new(alloc, &[b'V', digit(vessel)])
}

pub(crate) fn storage_name(alloc: Global, tank: u8) -> Result<Name, AllocError>
    requires { tank < 9 }
    ensures { IfOk result (λ name. name ≡ storage_name tank) }
{
    Copies::new(alloc, &[b'S', digit(tank)])
}

pub(crate) fn charging_name(alloc: Global, tank: u8) -> Result<Name, AllocError>
    requires { tank < 9 }
    ensures { IfOk result (λ name. name ≡ charging_name tank) }
{
    Copies::new(alloc, &[b'C', digit(tank)])
}

pub(crate) fn unit_name(alloc: Global) -> Result<Name, AllocError>
    ensures { IfOk result (λ name. name ≡ unit_name) }
{
    Copies::new(alloc, b"U1")
}

/// Of so many crudes this amount of one, and nothing of the others, in volume units.
fn only(alloc: Global, crudes: u8, crude: u8, amount: i64) -> Result<Numbers, AllocError>
    requires { crude < crudes }
    ensures { IfOk result (λ amounts. amounts ≡ only crudes crude amount) }
{
    let mut amounts = vec![in alloc; 0i64; crudes as usize]?;
    amounts[crude as usize] = amount;
    Ok(Copies::from_vec(amounts))
}

#[tactic(auto, unfolding(crate::specs::Made::made_crude))]
fn crude(alloc: Global, picks: &Picks, crude: u8) -> Result<CrudePart, AllocError>
    requires { crude < 9 }
    ensures { IfOk result (λ part. part ≡ made_crude (choices_of picks.now) crude) }
{
    Ok(CrudePart {
        name: crude_name(alloc, crude)?,
        margin: picks.margin(crude),
        properties: Copies::new(alloc, &[picks.sulphur(crude)])?,
    })
}

#[tactic(auto, unfolding(crate::specs::Made::made_vessel))]
fn vessel(alloc: Global, picks: &Picks, vessel: u8) -> Result<VesselPart, AllocError>
    requires { vessel < 9 }
    ensures { IfOk result (λ part. part ≡ made_vessel (choices_of picks.now) vessel) }
{
    let crudes = picks.crudes();
    Ok(VesselPart {
        name: vessel_name(alloc, vessel)?,
        arrival: i64::from(arrival(vessel)),
        amounts: only(alloc, crudes, vessel % crudes, picks.cargo(vessel))?,
        berth: 1,
        demurrage: 0,
    })
}

/// A vessel comes a day behind the one before it; in minutes.
pub(crate) fn arrival(vessel: u8) -> u32
    ensures { result ≡ 1440 * vessel }
{
    DAY * u32::from(vessel)
}

fn tank(name: Name, amounts: Numbers, demand: Pair) -> TankPart
    ensures { result ≡ tank name amounts demand }
{
    TankPart {
        name,
        min: 0,
        max: TANK_ROOM,
        amounts,
        demand,
    }
}

#[tactic(auto, unfolding(crate::specs::Made::made_storage))]
fn storage_tank(alloc: Global, picks: &Picks, number: u8) -> Result<TankPart, AllocError>
    requires { number < 9 }
    ensures { IfOk result (λ part. part ≡ made_storage (choices_of picks.now) number) }
{
    let crudes = picks.crudes();
    let name = storage_name(alloc, number)?;
    let amounts = only(alloc, crudes, number % crudes, picks.stock(number))?;
    Ok(tank(name, amounts, Pair { lo: 0, hi: 0 }))
}

#[tactic(auto, unfolding(crate::specs::Made::made_charging))]
fn charging_tank(alloc: Global, picks: &Picks, number: u8) -> Result<TankPart, AllocError>
    requires { number < CHARGING_TANKS }
    ensures { IfOk result (λ part. part ≡ made_charging (choices_of picks.now) number) }
{
    let name = charging_name(alloc, number)?;
    let amounts = only(alloc, picks.crudes(), number, CHARGING_STOCK)?;
    let demand = Pair {
        lo: 0,
        hi: MOST_VOLUME as i64,
    };
    Ok(tank(name, amounts, demand))
}

#[tactic(auto, using(crate::proofs::MadeLists::entries_more))]
pub(crate) fn crudes(alloc: Global, picks: &Picks) -> Result<Crudes, AllocError>
    ensures { IfOk result (λ list. list ≡ entries (made_crude (choices_of picks.now)) (choices_of picks.now).crudes) }
{
    let mut list = Vec::new(alloc);
    for number in 0..picks.crudes() {
        list.push(crude(alloc, picks, number)?)?;
    }
    Ok(Items::from_vec(list))
}

#[tactic(auto, using(crate::proofs::MadeLists::entries_more))]
pub(crate) fn vessels(alloc: Global, picks: &Picks) -> Result<Vessels, AllocError>
    ensures { IfOk result (λ list. list ≡ entries (made_vessel (choices_of picks.now)) (choices_of picks.now).vessels) }
{
    let mut list = Vec::new(alloc);
    for number in 0..picks.vessels() {
        list.push(vessel(alloc, picks, number)?)?;
    }
    Ok(Items::from_vec(list))
}

#[tactic(auto, using(crate::proofs::MadeLists::entries_more))]
pub(crate) fn storage(alloc: Global, picks: &Picks) -> Result<Tanks, AllocError>
    ensures { IfOk result (λ list.
        list ≡ entries (made_storage (choices_of picks.now)) (choices_of picks.now).storage) }
{
    let mut list = Vec::new(alloc);
    for number in 0..picks.storage() {
        list.push(storage_tank(alloc, picks, number)?)?;
    }
    Ok(Items::from_vec(list))
}

#[tactic(auto, using(crate::proofs::MadeLists::entries_more))]
pub(crate) fn charging(alloc: Global, picks: &Picks) -> Result<Tanks, AllocError>
    ensures { IfOk result (λ list. list ≡ entries (made_charging (choices_of picks.now)) 2) }
{
    let mut list = Vec::new(alloc);
    for number in 0..CHARGING_TANKS {
        list.push(charging_tank(alloc, picks, number)?)?;
    }
    Ok(Items::from_vec(list))
}

pub(crate) fn units(alloc: Global) -> Result<Units, AllocError>
    ensures { IfOk result (λ list. list ≡ made_unit ∷ []) }
{
    let unit = UnitPart {
        name: unit_name(alloc)?,
        continuous: false,
        charges: Pair {
            lo: 0,
            hi: MOST_SLOTS as i64,
        },
    };
    Ok(Items::from_vec(vec![in alloc; unit]?))
}
