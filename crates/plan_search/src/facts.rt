//! What the search asks of a plant at each step, read once.

ghost use Rattle.std.specs.Prelude.{◌≡◌, ◌<◌};
ghost use Rattle.plant_model.specs.Parts.{crude_count_of, op_count_of, place_count_of, property_count_of};

use crude_amounts::Amounts;
use limits::MOST_PROPERTIES;
use plant_model::{Op, OpKind, PlaceInfo, Plant};
use replay_core::Replay;
use std::alloc::{AllocError, Global};

/// Lowest and highest values of each property. Those that a plant has not are not limited.
pub(crate) type Limits = [(u32, u32); MOST_PROPERTIES as usize];

/// An operation.
#[derive(Clone, Copy)]
pub(crate) struct OpFacts {
    pub op: Op,
    /// The limits of what a charge draws.
    pub limits: Limits,
    /// The berth of a vessel that is unloaded, and else 0.
    pub berth: u8,
    /// It charges a unit that is to be charged at every minute.
    pub continuous: bool,
}

/// A vessel, a tank or a unit.
#[derive(Drop)]
pub(crate) struct PlaceFacts {
    pub info: PlaceInfo,
    /// What it holds at first.
    pub first: Amounts,
    /// The operations that fill or charge it.
    pub incoming: Vec<u8>,
    /// The operations that draw from it.
    pub outgoing: Vec<u8>,
}

/// A property of crudes.
#[derive(Drop)]
pub(crate) struct PropertyFacts {
    /// Crude by crude.
    pub values: Vec<i64>,
    /// By how much the greatest value is above the least, and 1 at least.
    pub spread: u64,
}

/// What is to be known of a plant.
#[derive(Drop)]
pub(crate) struct Facts {
    /// In minutes.
    pub horizon: u32,
    pub ops: Vec<OpFacts>,
    pub places: Vec<PlaceFacts>,
    pub properties: Vec<PropertyFacts>,
    /// What a volume unit earns, crude by crude.
    pub margins: Vec<i64>,
    /// The most that a volume unit earns or costs, and 1 at least.
    pub greatest_gain: u64,
    /// What all crude would earn if each volume unit earned the most.
    pub greatest_margin: u64,
    /// In volume units for each 1440 minutes.
    pub greatest_rate: u32,
}

impl Facts {
    pub(crate) fn new(alloc: Global, plant: &Plant) -> Result<Facts, AllocError> {
        let ops = ops_of(alloc, plant)?;
        let margins = margins_of(alloc, plant)?;
        let places = places_of(alloc, plant)?;
        let greatest_gain = greatest_gain_of(margins.as_slice());
        Ok(Facts {
            horizon: plant.horizon(),
            properties: properties_of(alloc, plant)?,
            greatest_gain,
            greatest_margin: greatest_gain.saturating_mul(crude_of(places.as_slice())),
            greatest_rate: greatest_rate_of(ops.as_slice()),
            places,
            ops,
            margins,
        })
    }

    /// The operation, where the plant has it.
    pub(crate) fn op(&self, v: u8) -> Option<&OpFacts> {
        self.ops.get(v as usize)
    }

    /// What the plant says of the place.
    pub(crate) fn place(&self, p: u8) -> Option<&PlaceFacts> {
        self.places.get(p as usize)
    }

    /// The operations that draw from the place.
    pub(crate) fn outgoing(&self, p: u8) -> &[u8] {
        self.place(p).map_or(&[], |place| place.outgoing.as_slice())
    }

    /// The operations that fill or charge the place.
    pub(crate) fn incoming(&self, p: u8) -> &[u8] {
        self.place(p).map_or(&[], |place| place.incoming.as_slice())
    }
}

fn limits_of(plant: &Plant, v: u8) -> Limits
    requires { v < op_count_of plant.now }
{
    let mut limits = [(0, u32::MAX); MOST_PROPERTIES as usize];
    if plant.op(v).kind == OpKind::Charge {
        for k in 0..plant.property_count() {
            limits[k as usize] = plant.limit(v, k);
        }
    }
    limits
}

fn op_facts(plant: &Plant, v: u8) -> OpFacts
    requires { v < op_count_of plant.now }
{
    let op = plant.op(v);
    OpFacts {
        op,
        limits: limits_of(plant, v),
        berth: plant.place(op.from).berth as u8,
        continuous: plant.place(op.to).continuous,
    }
}

fn ops_of(alloc: Global, plant: &Plant) -> Result<Vec<OpFacts>, AllocError> {
    let mut ops = Vec::new(alloc);
    for v in 0..plant.op_count() {
        ops.push(op_facts(plant, v))?;
    }
    Ok(ops)
}

/// The operations that fill or charge the place, and those that draw from it.
fn neighbours_of(alloc: Global, plant: &Plant, p: u8) -> Result<(Vec<u8>, Vec<u8>), AllocError> {
    let mut incoming = Vec::new(alloc);
    let mut outgoing = Vec::new(alloc);
    for v in 0..plant.op_count() {
        let op = plant.op(v);
        if op.to == p {
            incoming.push(v)?;
        }
        if op.from == p {
            outgoing.push(v)?;
        }
    }
    Ok((incoming, outgoing))
}

fn places_of(alloc: Global, plant: &Plant) -> Result<Vec<PlaceFacts>, AllocError> {
    let replay = Replay::new(alloc, plant)?;
    let mut places = Vec::new(alloc);
    for p in 0..plant.place_count() {
        let (incoming, outgoing) = neighbours_of(alloc, plant, p)?;
        places.push(PlaceFacts {
            info: plant.place(p),
            first: replay.held(p),
            incoming,
            outgoing,
        })?;
    }
    Ok(places)
}

fn values_of(alloc: Global, plant: &Plant, k: u8) -> Result<Vec<i64>, AllocError>
    requires { k < property_count_of plant.now }
{
    let mut values = Vec::new(alloc);
    for c in 0..plant.crude_count() {
        values.push(plant.property(c, k).into())?;
    }
    Ok(values)
}

/// The greatest less the least, and 1 at least.
fn spread_of(values: &[i64]) -> u64 {
    let mut least = i64::MAX;
    let mut greatest = 0;
    for value in values {
        least = least.min(*value);
        greatest = greatest.max(*value);
    }
    greatest.saturating_sub(least).max(1).unsigned_abs()
}

fn properties_of(alloc: Global, plant: &Plant) -> Result<Vec<PropertyFacts>, AllocError> {
    let mut properties = Vec::new(alloc);
    for k in 0..plant.property_count() {
        let values = values_of(alloc, plant, k)?;
        properties.push(PropertyFacts {
            spread: spread_of(values.as_slice()),
            values,
        })?;
    }
    Ok(properties)
}

fn margins_of(alloc: Global, plant: &Plant) -> Result<Vec<i64>, AllocError> {
    let mut margins = Vec::new(alloc);
    for c in 0..plant.crude_count() {
        margins.push(plant.margin(c))?;
    }
    Ok(margins)
}

fn greatest_gain_of(margins: &[i64]) -> u64 {
    let mut greatest = 1u64;
    for margin in margins {
        greatest = greatest.max(margin.unsigned_abs());
    }
    greatest
}

/// All crude at first, in volume units.
fn crude_of(places: &[PlaceFacts]) -> u64 {
    let mut crude = 0u64;
    for place in places {
        crude = crude.saturating_add(place.first.total());
    }
    crude
}

fn greatest_rate_of(ops: &[OpFacts]) -> u32 {
    let mut greatest = 1u32;
    for facts in ops {
        greatest = greatest.max(facts.op.rate.1);
    }
    greatest
}
