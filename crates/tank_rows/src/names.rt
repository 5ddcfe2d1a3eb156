//! Which names are names of rows.

ghost use Rattle.std.specs.Prelude.{◌≡◌, ◌<◌};
ghost use Rattle.plant_model.specs.Parts.{place_count_of, place_of, op_count_of, op_of};
ghost use Rattle.plant_model.specs.Relations.{is_charge};
ghost use Rattle.replay_core.specs.Rules.{is_vessel, is_charging, is_unit};
ghost use Rattle.tank_rows.specs.Names.{is_slot, is_side, is_place, is_total_name, is_amount_name, is_limit_name, is_sided_place, is_demand_name, is_emptied_name, is_minutes_name, is_charges_name, is_wait_name};

use plant_model::{OpKind, PlaceInfo, PlaceKind, Plant};
use slot_box::RowName;

fn is_slot(n: u32, slot: u16) -> bool
    ensures { result ≡ is_slot n slot }
{
    0 < slot && u32::from(slot) <= n
}

fn is_side(side: u16) -> bool
    ensures { result ≡ is_side side }
{
    side < 2
}

fn is_place(plant: &Plant, p: u16) -> bool
    ensures { result ≡ is_place plant.now p }
{
    p < plant.place_count().into()
}

/// The place of the number, which is one.
fn place(plant: &Plant, p: u16) -> PlaceInfo
    requires { p < place_count_of plant.now }
    ensures { result ≡ place_of plant.now p }
{
    plant.sound();
    plant.place(p as u8)
}

fn is_vessel(plant: &Plant, p: u16) -> bool
    requires { p < place_count_of plant.now }
    ensures { result ≡ is_vessel (place_of plant.now p).kind }
{
    matches!(place(plant, p).kind, PlaceKind::Vessel)
}

fn is_charging(plant: &Plant, p: u16) -> bool
    requires { p < place_count_of plant.now }
    ensures { result ≡ is_charging (place_of plant.now p).kind }
{
    matches!(place(plant, p).kind, PlaceKind::Charging)
}

fn is_unit(plant: &Plant, p: u16) -> bool
    requires { p < place_count_of plant.now }
    ensures { result ≡ is_unit (place_of plant.now p).kind }
{
    matches!(place(plant, p).kind, PlaceKind::Unit)
}

fn is_charge(plant: &Plant, v: u16) -> bool
    requires { v < op_count_of plant.now }
    ensures { result ≡ is_charge (op_of plant.now v).kind }
{
    plant.sound();
    matches!(plant.op(v as u8).kind, OpKind::Charge)
}

pub(crate) fn is_total_name(plant: &Plant, n: u32, name: RowName) -> bool
    ensures { result ≡ is_total_name plant.now n name }
{
    is_place(plant, name.a)
        && is_slot(n, name.b)
        && is_side(name.c)
        && name.d == 0
        && !is_unit(plant, name.a)
        && (name.c == 0 || !is_vessel(plant, name.a))
}

pub(crate) fn is_amount_name(plant: &Plant, n: u32, name: RowName) -> bool
    ensures { result ≡ is_amount_name plant.now n name }
{
    is_place(plant, name.a)
        && is_slot(n, name.b)
        && name.c < plant.crude_count().into()
        && name.d == 0
        && !is_unit(plant, name.a)
}

pub(crate) fn is_limit_name(plant: &Plant, n: u32, name: RowName) -> bool
    ensures { result ≡ is_limit_name plant.now n name }
{
    is_slot(n, name.a)
        && name.b < plant.op_count().into()
        && name.c < plant.property_count().into()
        && is_side(name.d)
        && is_charge(plant, name.b)
}

fn is_sided_place(plant: &Plant, name: RowName) -> bool
    ensures { result ≡ is_sided_place plant.now name }
{
    is_place(plant, name.a) && is_side(name.b) && name.c == 0 && name.d == 0
}

pub(crate) fn is_demand_name(plant: &Plant, name: RowName) -> bool
    ensures { result ≡ is_demand_name plant.now name }
{
    is_sided_place(plant, name) && is_charging(plant, name.a)
}

pub(crate) fn is_emptied_name(plant: &Plant, name: RowName) -> bool
    ensures { result ≡ is_emptied_name plant.now name }
{
    is_place(plant, name.a)
        && name.b < plant.crude_count().into()
        && name.c == 0
        && name.d == 0
        && is_vessel(plant, name.a)
}

pub(crate) fn is_minutes_name(plant: &Plant, name: RowName) -> bool
    ensures { result ≡ is_minutes_name plant.now name }
{
    is_sided_place(plant, name) && is_unit(plant, name.a) && place(plant, name.a).continuous
}

pub(crate) fn is_charges_name(plant: &Plant, name: RowName) -> bool
    ensures { result ≡ is_charges_name plant.now name }
{
    is_sided_place(plant, name) && is_unit(plant, name.a)
}

pub(crate) fn is_wait_name(plant: &Plant, n: u32, name: RowName) -> bool
    ensures { result ≡ is_wait_name plant.now n name }
{
    is_place(plant, name.a)
        && is_slot(n, name.b)
        && name.c == 0
        && name.d == 0
        && is_vessel(plant, name.a)
}
