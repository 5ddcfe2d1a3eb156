//! Cuts that are worth a try. Nothing is promised of them but that each is valid and that there is room for it.

ghost use Rattle.std.specs.Prelude.{◌≡◌, ◌<◌, ◌≤◌, IfOk, OnOk};
ghost use Rattle.blend_cuts.specs.Proposals.{AreProposed};

use crate::mixes::{Weighing, greatest_mean, limit_mean, whole_mean};
use crate::sets::{fed_set, feeding_set, is_kind, single_set};
use crate::threshold::cut_at;
use crate::valid::cut_valid;
use dual_bound::Guess;
use plant_model::{PlaceKind, Plant};
use slot_box::{CutList, CutParams};
use std::alloc::{AllocError, Global};

/// Whether the list has no such cut.
fn is_new(cuts: &CutList, cut: &CutParams) -> bool {
    !cuts.as_slice().iter().any(|known| known == cut)
}

/// Puts the cut into the list, where it is new and valid and there is room.
fn offer(
    plant: &Plant,
    cuts: &mut CutList,
    room: u32,
    found: Option<CutParams>,
) -> Result<(), AllocError>
    requires { AreProposed plant.now room cuts.old }
    ensures { OnOk result (AreProposed plant.now room cuts.new) }
{
    let Some(cut) = found else {
        return Ok(());
    };
    if cuts.as_slice().len() >= room as usize || !cut_valid(plant, &cut) {
        return Ok(());
    }
    if !is_new(cuts, &cut) {
        return Ok(());
    }
    cuts.push(cut).map_err(|_: CutParams| AllocError)
}

/// Holds the set against what its places weigh on the average: the one that weighs most, all together, and what the
/// limits of its charges allow.
fn offer_weighed(
    plant: &Plant,
    cuts: &mut CutList,
    room: u32,
    places: u64,
    weighing: Weighing,
) -> Result<(), AllocError>
    requires { AreProposed plant.now room cuts.old }
    ensures { OnOk result (AreProposed plant.now room cuts.new) }
{
    let greatest = greatest_mean(plant, places, weighing);
    offer(plant, cuts, room, cut_at(plant, places, weighing, greatest))?;
    let whole = whole_mean(plant, places, weighing);
    offer(plant, cuts, room, cut_at(plant, places, weighing, whole))?;
    let limit = limit_mean(plant, places, weighing);
    offer(plant, cuts, room, cut_at(plant, places, weighing, limit))
}

/// Weighs crudes by what they earn, and by each property.
fn offer_set(plant: &Plant, cuts: &mut CutList, room: u32, places: u64) -> Result<(), AllocError>
    requires { AreProposed plant.now room cuts.old }
    ensures { OnOk result (AreProposed plant.now room cuts.new) }
{
    offer_weighed(plant, cuts, room, places, Weighing::Margin)?;
    for k in 0..plant.property_count() {
        offer_weighed(plant, cuts, room, places, Weighing::High(k))?;
        offer_weighed(plant, cuts, room, places, Weighing::Low(k))?;
    }
    Ok(())
}

/// Each place of the kind by itself.
fn offer_singles(
    plant: &Plant,
    cuts: &mut CutList,
    room: u32,
    kind: PlaceKind,
) -> Result<(), AllocError>
    requires { AreProposed plant.now room cuts.old }
    ensures { OnOk result (AreProposed plant.now room cuts.new) }
{
    for p in 0..plant.place_count() {
        if is_kind(plant, p, kind) {
            offer_set(plant, cuts, room, single_set(p))?;
        }
    }
    Ok(())
}

/// Each storage tank with the tanks that it feeds.
fn offer_fed(plant: &Plant, cuts: &mut CutList, room: u32) -> Result<(), AllocError>
    requires { AreProposed plant.now room cuts.old }
    ensures { OnOk result (AreProposed plant.now room cuts.new) }
{
    for p in 0..plant.place_count() {
        if is_kind(plant, p, PlaceKind::Storage) {
            offer_set(plant, cuts, room, fed_set(plant, p))?;
        }
    }
    Ok(())
}

/// Each charging tank with all places that feed it, so that nothing comes into the set.
fn offer_feeding(plant: &Plant, cuts: &mut CutList, room: u32) -> Result<(), AllocError>
    requires { AreProposed plant.now room cuts.old }
    ensures { OnOk result (AreProposed plant.now room cuts.new) }
{
    for p in 0..plant.place_count() {
        if is_kind(plant, p, PlaceKind::Charging) {
            offer_set(plant, cuts, room, feeding_set(plant, p))?;
        }
    }
    Ok(())
}

/// At most so many valid cuts for forms of n slots: on single charging tanks first, then on storage tanks with the
/// tanks that they feed, on charging tanks with all that feeds them, and on storage tanks and vessels by themselves.
/// The multipliers of a guess are not asked so far; forms without slots have no rows, and get no cuts.
pub fn find_cuts(
    alloc: Global,
    plant: &Plant,
    n: u32,
    _guess: &Guess,
    room: u32,
) -> Result<CutList, AllocError>
    ensures { IfOk result (AreProposed plant.now room) }
{
    let mut cuts = CutList::new(alloc);
    if n == 0 {
        return Ok(cuts);
    }
    offer_singles(plant, &mut cuts, room, PlaceKind::Charging)?;
    offer_fed(plant, &mut cuts, room)?;
    offer_feeding(plant, &mut cuts, room)?;
    offer_singles(plant, &mut cuts, room, PlaceKind::Storage)?;
    offer_singles(plant, &mut cuts, room, PlaceKind::Vessel)?;
    Ok(cuts)
}
