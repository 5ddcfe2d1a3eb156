ghost use Rattle.std.specs.Prelude.{◌≡◌, ◌∷◌, ◌++◌, OnOk};
ghost use Rattle.plant_text.specs.Canonical.{behind_commas, with_commas, crude_text, berthing_members, vessel_text, tank_members, storage_text, charging_text, unit_text, route_members, range_members, operation_text};

use crate::kinds::PlantFormat;
use crate::members::{
    flag_member, name_member, number_member, numbers_member, pair_member, pairs_member,
};
use crate::writing::ItemWriter;
use line_text::push_text;
use plant_model::{CrudePart, Key, OperationPart, TankPart, UnitPart, VesselPart};
use std::alloc::AllocError;

/// The crudes.
#[derive(Drop)]
pub(crate) struct CrudeWriter;

impl ItemWriter for CrudeWriter {
    type Item = CrudePart;

    ghost text = { λ _. crude_text };

    fn write(&self, out: &mut Vec<u8>, item: &CrudePart) -> Result<(), AllocError> {
        write_crude(out, item)
    }
}

#[tactic(auto, unfolding(crate::specs::Canonical::crude_text))]
fn write_crude(out: &mut Vec<u8>, crude: &CrudePart) -> Result<(), AllocError>
    ensures { OnOk result (out.new.items ≡ out.old.items ++ crude_text crude.now) }
{
    name_member(out, b'{', Key::Name, crude.name.as_slice())?;
    number_member(out, b',', Key::Margin, crude.margin)?;
    numbers_member(out, b',', Key::Properties, crude.properties.as_slice())?;
    push_text(out, b"}")
}

/// The vessels, of which a format tells more or less.
#[derive(Drop)]
pub(crate) struct VesselWriter {
    pub(crate) format: PlantFormat,
}

impl ItemWriter for VesselWriter {
    type Item = VesselPart;

    ghost text = { λ writer. vessel_text writer.format };

    fn write(&self, out: &mut Vec<u8>, item: &VesselPart) -> Result<(), AllocError> {
        write_vessel(out, self.format, item)
    }
}

/// Writes what the format tells of a vessel besides its cargo.
fn write_berthing(
    out: &mut Vec<u8>,
    format: PlantFormat,
    vessel: &VesselPart,
) -> Result<(), AllocError>
    ensures { OnOk result (out.new.items ≡ out.old.items ++ behind_commas (berthing_members format vessel.now)) }
{
    match format {
        PlantFormat::One => Ok(()),
        PlantFormat::Two => number_member(out, b',', Key::Berth, vessel.berth),
        PlantFormat::Three => {
            number_member(out, b',', Key::Berth, vessel.berth)?;
            number_member(out, b',', Key::Demurrage, vessel.demurrage)
        }
    }
}

#[tactic(auto, unfolding(crate::specs::Canonical::vessel_text))]
fn write_vessel(
    out: &mut Vec<u8>,
    format: PlantFormat,
    vessel: &VesselPart,
) -> Result<(), AllocError>
    ensures { OnOk result (out.new.items ≡ out.old.items ++ vessel_text format vessel.now) }
{
    name_member(out, b'{', Key::Name, vessel.name.as_slice())?;
    number_member(out, b',', Key::Arrival, vessel.arrival)?;
    numbers_member(out, b',', Key::Amounts, vessel.amounts.as_slice())?;
    write_berthing(out, format, vessel)?;
    push_text(out, b"}")
}

/// The storage tanks.
#[derive(Drop)]
pub(crate) struct StorageWriter;

impl ItemWriter for StorageWriter {
    type Item = TankPart;

    ghost text = { λ _. storage_text };

    fn write(&self, out: &mut Vec<u8>, item: &TankPart) -> Result<(), AllocError> {
        write_storage(out, item)
    }
}

/// Writes what is told of every tank, behind the brace that opens it.
fn write_tank(out: &mut Vec<u8>, tank: &TankPart) -> Result<(), AllocError>
    ensures { OnOk result (out.new.items ≡ out.old.items ++ 123 ∷ with_commas (tank_members tank.now)) }
{
    name_member(out, b'{', Key::Name, tank.name.as_slice())?;
    number_member(out, b',', Key::Min, tank.min)?;
    number_member(out, b',', Key::Max, tank.max)?;
    numbers_member(out, b',', Key::Amounts, tank.amounts.as_slice())
}

#[tactic(auto, unfolding(crate::specs::Canonical::storage_text))]
fn write_storage(out: &mut Vec<u8>, tank: &TankPart) -> Result<(), AllocError>
    ensures { OnOk result (out.new.items ≡ out.old.items ++ storage_text tank.now) }
{
    write_tank(out, tank)?;
    push_text(out, b"}")
}

/// The charging tanks.
#[derive(Drop)]
pub(crate) struct ChargingWriter;

impl ItemWriter for ChargingWriter {
    type Item = TankPart;

    ghost text = { λ _. charging_text };

    fn write(&self, out: &mut Vec<u8>, item: &TankPart) -> Result<(), AllocError> {
        write_charging(out, item)
    }
}

#[tactic(auto, unfolding(crate::specs::Canonical::charging_text))]
fn write_charging(out: &mut Vec<u8>, tank: &TankPart) -> Result<(), AllocError>
    ensures { OnOk result (out.new.items ≡ out.old.items ++ charging_text tank.now) }
{
    write_tank(out, tank)?;
    pair_member(out, b',', Key::Demand, tank.demand)?;
    push_text(out, b"}")
}

/// The units.
#[derive(Drop)]
pub(crate) struct UnitWriter;

impl ItemWriter for UnitWriter {
    type Item = UnitPart;

    ghost text = { λ _. unit_text };

    fn write(&self, out: &mut Vec<u8>, item: &UnitPart) -> Result<(), AllocError> {
        write_unit(out, item)
    }
}

#[tactic(auto, unfolding(crate::specs::Canonical::unit_text))]
fn write_unit(out: &mut Vec<u8>, part: &UnitPart) -> Result<(), AllocError>
    ensures { OnOk result (out.new.items ≡ out.old.items ++ unit_text part.now) }
{
    name_member(out, b'{', Key::Name, part.name.as_slice())?;
    flag_member(out, b',', Key::Continuous, part.continuous)?;
    pair_member(out, b',', Key::Charges, part.charges)?;
    push_text(out, b"}")
}

/// The operations.
#[derive(Drop)]
pub(crate) struct OperationWriter;

impl ItemWriter for OperationWriter {
    type Item = OperationPart;

    ghost text = { λ _. operation_text };

    fn write(&self, out: &mut Vec<u8>, item: &OperationPart) -> Result<(), AllocError> {
        write_operation(out, item)
    }
}

/// Writes the names of an operation and of its places, behind the brace that opens it.
#[tactic(auto, unfolding(crate::specs::Canonical::route_members))]
fn write_route(out: &mut Vec<u8>, operation: &OperationPart) -> Result<(), AllocError>
    ensures { OnOk result (out.new.items ≡ out.old.items ++ 123 ∷ with_commas (route_members operation.now)) }
{
    name_member(out, b'{', Key::Name, operation.name.as_slice())?;
    name_member(out, b',', Key::From, operation.from.as_slice())?;
    name_member(out, b',', Key::To, operation.to.as_slice())
}

#[tactic(auto, unfolding(crate::specs::Canonical::range_members))]
fn write_ranges(out: &mut Vec<u8>, operation: &OperationPart) -> Result<(), AllocError>
    ensures { OnOk result (out.new.items ≡ out.old.items ++ behind_commas (range_members operation.now)) }
{
    pair_member(out, b',', Key::Rate, operation.rate)?;
    pair_member(out, b',', Key::Volume, operation.volume)?;
    pair_member(out, b',', Key::Window, operation.window)?;
    pairs_member(out, b',', Key::Limits, operation.limits.as_slice())
}

fn write_operation(out: &mut Vec<u8>, operation: &OperationPart) -> Result<(), AllocError>
    ensures { OnOk result (out.new.items ≡ out.old.items ++ operation_text operation.now) }
{
    write_route(out, operation)?;
    write_ranges(out, operation)?;
    push_text(out, b"}")
}
