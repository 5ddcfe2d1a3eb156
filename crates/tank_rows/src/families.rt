//! What the rows of each family say.

ghost use Rattle.std.specs.Prelude.{◌≡◌, ◌<◌, ◌≤◌, IfOk, sum, unsigned_abs};
ghost use Rattle.limits.specs.declared.TheConstants.{MOST_PROPERTY, MOST_VOLUME};
ghost use Rattle.plant_model.specs.Parts.{place_count_of, place_of, op_count_of, op_of, crude_count_of, property_count_of, initial_amounts_of};
ghost use Rattle.plant_model.specs.Sound.{HoldsCrude};
ghost use Rattle.plant_model.specs.declared.details.OpKind.TheVariants.{Charge};
ghost use Rattle.row_forms.specs.Pieces.{piece_of};
ghost use Rattle.row_forms.specs.Fits.{IsSmall};
ghost use Rattle.tank_rows.specs.Families.{at_most, from_place, into_place, range_row, total_row, amount_row, excess_of, limit_piece, limit_row, demand_row, emptied_row, minutes_row, charges_row, wait_row};

use item_lists::Items;
use plant_model::Plant;
use row_forms::{Figure, Inequality, Piece, Which};
use std::alloc::{AllocError, Global};

fn at_most(pieces: Vec<Piece>, right: i64) -> Inequality
    ensures { result ≡ at_most pieces.items right }
{
    Inequality {
        pieces: Items::from_vec(pieces),
        right,
    }
}

/// Over the slots from 1 to one of them, of the operations from a place.
fn from_place(factor: i64, p: u8, last: u32, figure: Figure) -> Piece
    ensures { result ≡ from_place factor p last figure }
{
    Piece::new(factor, 1, last, Which::From(p), figure)
}

/// Likewise of the operations to a place.
fn into_place(factor: i64, p: u8, last: u32, figure: Figure) -> Piece
    ensures { result ≡ into_place factor p last figure }
{
    Piece::new(factor, 1, last, Which::Into(p), figure)
}

/// What the figures of the entries come to over the slots from 1 to n lies within the range: its upper end, or its lower
/// one.
fn range_row(
    alloc: Global,
    which: Which,
    n: u32,
    figure: Figure,
    range: (u32, u32),
    side: u16,
) -> Result<Inequality, AllocError>
    ensures value { IfOk result (λ row. row ≡ range_row (λ factor. piece_of factor 1 n which figure) range side) }
    ensures small { IfOk result IsSmall }
{
    if side == 0 {
        let pieces = vec![in alloc; Piece::new(1, 1, n, which, figure)]?;
        return Ok(at_most(pieces, range.1.into()));
    }
    let pieces = vec![in alloc; Piece::new(-1, 1, n, which, figure)]?;
    Ok(at_most(pieces, -i64::from(range.0)))
}

/// What the place holds at first.
#[tactic(auto, unfolding(plant_model::specs::Parts::initial_of))]
fn total(plant: &Plant, p: u8) -> u64
    requires place { p < place_count_of plant.now }
    requires holds { HoldsCrude (place_of plant.now p).kind }
    ensures value { result ≡ sum (initial_amounts_of plant.now p) }
    ensures most { result ≤ MOST_VOLUME }
{
    plant.sound();
    let mut total = 0;
    for c in 0..plant.crude_count() {
        total += u64::from(plant.initial(p, c));
    }
    total
}

pub(crate) fn total_row(
    alloc: Global,
    plant: &Plant,
    p: u8,
    slot: u32,
    side: u16,
) -> Result<Inequality, AllocError>
    requires place { p < place_count_of plant.now }
    requires holds { HoldsCrude (place_of plant.now p).kind }
    ensures value { IfOk result (λ row. row ≡ total_row plant.now p slot side) }
    ensures small { IfOk result IsSmall }
{
    let place = plant.place(p);
    let total = total(plant, p) as i64;
    if side == 0 {
        let pieces = vec![in alloc;
            from_place(1, p, slot, Figure::Volume),
            into_place(-1, p, slot, Figure::Volume),
        ]?;
        return Ok(at_most(pieces, total - i64::from(place.min)));
    }
    let pieces = vec![in alloc;
        into_place(1, p, slot, Figure::Volume),
        from_place(-1, p, slot, Figure::Volume),
    ]?;
    Ok(at_most(pieces, i64::from(place.max) - total))
}

pub(crate) fn amount_row(
    alloc: Global,
    plant: &Plant,
    p: u8,
    slot: u32,
    c: u8,
) -> Result<Inequality, AllocError>
    requires place { p < place_count_of plant.now }
    requires holds { HoldsCrude (place_of plant.now p).kind }
    requires crude { c < crude_count_of plant.now }
    ensures value { IfOk result (λ row. row ≡ amount_row plant.now p slot c) }
    ensures small { IfOk result IsSmall }
{
    let amount = Figure::Amount(c);
    let pieces = vec![in alloc;
        from_place(1, p, slot, amount),
        into_place(-1, p, slot, amount),
    ]?;
    Ok(at_most(pieces, plant.initial(p, c).into()))
}

pub(crate) fn demand_row(
    alloc: Global,
    plant: &Plant,
    n: u32,
    p: u8,
    side: u16,
) -> Result<Inequality, AllocError>
    requires place { p < place_count_of plant.now }
    ensures value { IfOk result (λ row. row ≡ demand_row plant.now n p side) }
    ensures small { IfOk result IsSmall }
{
    let range = plant.place(p).demand;
    range_row(alloc, Which::From(p), n, Figure::Volume, range, side)
}

pub(crate) fn emptied_row(
    alloc: Global,
    plant: &Plant,
    n: u32,
    p: u8,
    c: u8,
) -> Result<Inequality, AllocError>
    requires place { p < place_count_of plant.now }
    requires holds { HoldsCrude (place_of plant.now p).kind }
    requires crude { c < crude_count_of plant.now }
    ensures value { IfOk result (λ row. row ≡ emptied_row plant.now n p c) }
    ensures small { IfOk result IsSmall }
{
    let pieces = vec![in alloc; from_place(-1, p, n, Figure::Amount(c))]?;
    Ok(at_most(pieces, -i64::from(plant.initial(p, c))))
}

pub(crate) fn minutes_row(
    alloc: Global,
    plant: &Plant,
    n: u32,
    p: u8,
    side: u16,
) -> Result<Inequality, AllocError>
    ensures value { IfOk result (λ row. row ≡ minutes_row plant.now n p side) }
    ensures small { IfOk result IsSmall }
{
    let horizon = i64::from(plant.horizon());
    if side == 0 {
        let pieces = vec![in alloc;
            into_place(1, p, n, Figure::End),
            into_place(-1, p, n, Figure::Start),
        ]?;
        return Ok(at_most(pieces, horizon));
    }
    let pieces = vec![in alloc;
        into_place(1, p, n, Figure::Start),
        into_place(-1, p, n, Figure::End),
    ]?;
    Ok(at_most(pieces, -horizon))
}

pub(crate) fn charges_row(
    alloc: Global,
    plant: &Plant,
    n: u32,
    p: u8,
    side: u16,
) -> Result<Inequality, AllocError>
    requires place { p < place_count_of plant.now }
    ensures value { IfOk result (λ row. row ≡ charges_row plant.now n p side) }
    ensures small { IfOk result IsSmall }
{
    let range = plant.place(p).charges;
    range_row(alloc, Which::Into(p), n, Figure::Choice, range, side)
}

pub(crate) fn wait_row(
    alloc: Global,
    plant: &Plant,
    p: u8,
    slot: u32,
) -> Result<Inequality, AllocError>
    requires place { p < place_count_of plant.now }
    ensures value { IfOk result (λ row. row ≡ wait_row plant.now p slot) }
    ensures small { IfOk result IsSmall }
{
    plant.sound();
    let arrival = i64::from(plant.place(p).arrival);
    let from = Which::From(p);
    let pieces = vec![in alloc;
        Piece::new(1, slot, slot, from, Figure::End),
        Piece::new(-arrival, slot, slot, from, Figure::Choice),
        Piece::wait(-1, p),
    ]?;
    Ok(at_most(pieces, 0))
}

/// How far property k of crude c lies above the high limit, or below the low one.
fn excess(plant: &Plant, limit: (u32, u32), k: u8, side: u16, c: u8) -> i64
    requires property { k < property_count_of plant.now }
    requires crude { c < crude_count_of plant.now }
    requires low { limit.0 ≤ MOST_PROPERTY }
    requires high { limit.1 ≤ MOST_PROPERTY }
    ensures value { result ≡ excess_of plant.now limit k side c }
    ensures small { unsigned_abs result ≤ MOST_VOLUME }
{
    let property = i64::from(plant.property(c, k));
    if side == 0 {
        property - i64::from(limit.1)
    } else {
        i64::from(limit.0) - property
    }
}

/// That, times what the charge draws of the crude.
fn limit_piece(plant: &Plant, slot: u32, v: u8, k: u8, side: u16, c: u8) -> Piece
    requires op { v < op_count_of plant.now }
    requires charge { (op_of plant.now v).kind ≡ Charge }
    requires property { k < property_count_of plant.now }
    requires crude { c < crude_count_of plant.now }
    ensures value { result ≡ limit_piece plant.now slot v k side c }
    ensures small { unsigned_abs result.factor ≤ MOST_VOLUME }
{
    let factor = excess(plant, plant.limit(v, k), k, side, c);
    Piece::new(factor, slot, slot, Which::One(v), Figure::Amount(c))
}

pub(crate) fn limit_row(
    alloc: Global,
    plant: &Plant,
    slot: u32,
    v: u8,
    k: u8,
    side: u16,
) -> Result<Inequality, AllocError>
    requires op { v < op_count_of plant.now }
    requires charge { (op_of plant.now v).kind ≡ Charge }
    requires property { k < property_count_of plant.now }
    ensures value { IfOk result (λ row. row ≡ limit_row plant.now slot v k side) }
    ensures small { IfOk result IsSmall }
{
    let mut pieces = Vec::new(alloc);
    for c in 0..plant.crude_count() {
        pieces.push(limit_piece(plant, slot, v, k, side, c))?;
    }
    Ok(at_most(pieces, 0))
}
