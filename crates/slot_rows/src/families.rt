//! What the rows of each family say.

ghost use Rattle.std.specs.Prelude.{◌≡◌, ◌+◌, ◌<◌, ◌^◌, IfOk, unsigned_abs};
ghost use Rattle.plant_model.specs.Parts.{op_count_of};
ghost use Rattle.slot_rows.specs.Families.{at_most, in_slot, choice_row, volume_row, rate_row, window_row, clique_row, not_both, normal_row, idle_row, berth_row};
ghost use Rattle.row_forms.specs.Fits.{IsSmall};

use item_lists::Items;
use plant_model::Plant;
use row_forms::{Figure, Inequality, Piece, Which};
use std::alloc::{AllocError, Global};

/// Rates are in volume units for each so many minutes.
const RATE_MINUTES: u32 = 1440;

fn at_most(pieces: Vec<Piece>, right: i64) -> Inequality
    ensures { result ≡ at_most pieces.items right }
{
    Inequality {
        pieces: Items::from_vec(pieces),
        right,
    }
}

/// Of some entries of one slot.
fn in_slot(factor: i64, slot: u32, which: Which, figure: Figure) -> Piece
    ensures { result ≡ in_slot factor slot which figure }
{
    Piece::new(factor, slot, slot, which, figure)
}

pub(crate) fn choice_row(alloc: Global, slot: u32, side: u16) -> Result<Inequality, AllocError>
    ensures value { IfOk result (λ row. row ≡ choice_row slot side) }
    ensures small { IfOk result IsSmall }
{
    let sign = if side == 0 { 1 } else { -1 };
    let pieces = vec![in alloc; in_slot(sign, slot, Which::Any, Figure::Choice)]?;
    Ok(at_most(pieces, sign))
}

pub(crate) fn volume_row(
    alloc: Global,
    plant: &Plant,
    slot: u32,
    v: u8,
    side: u16,
) -> Result<Inequality, AllocError>
    requires { v < op_count_of plant.now }
    ensures value { IfOk result (λ row. row ≡ volume_row plant.now slot v side) }
    ensures small { IfOk result IsSmall }
{
    let (low, high) = plant.op(v).volume;
    let own = Which::One(v);
    if side == 0 {
        let pieces = vec![in alloc;
            in_slot(1, slot, own, Figure::Volume),
            in_slot(-i64::from(high), slot, own, Figure::Choice),
        ]?;
        return Ok(at_most(pieces, 0));
    }
    let pieces = vec![in alloc;
        in_slot(low.into(), slot, own, Figure::Choice),
        in_slot(-1, slot, own, Figure::Volume),
    ]?;
    Ok(at_most(pieces, 0))
}

pub(crate) fn rate_row(
    alloc: Global,
    plant: &Plant,
    slot: u32,
    v: u8,
    side: u16,
) -> Result<Inequality, AllocError>
    requires { v < op_count_of plant.now }
    ensures value { IfOk result (λ row. row ≡ rate_row plant.now slot v side) }
    ensures small { IfOk result IsSmall }
{
    let (low, high) = plant.op(v).rate;
    let own = Which::One(v);
    if side == 0 {
        let pieces = vec![in alloc;
            in_slot(low.into(), slot, own, Figure::End),
            in_slot(-i64::from(low), slot, own, Figure::Start),
            in_slot(-i64::from(RATE_MINUTES), slot, own, Figure::Volume),
        ]?;
        return Ok(at_most(pieces, 0));
    }
    let pieces = vec![in alloc;
        in_slot(RATE_MINUTES.into(), slot, own, Figure::Volume),
        in_slot(-i64::from(high), slot, own, Figure::End),
        in_slot(high.into(), slot, own, Figure::Start),
    ]?;
    Ok(at_most(pieces, 0))
}

pub(crate) fn window_row(
    alloc: Global,
    plant: &Plant,
    slot: u32,
    v: u8,
    side: u16,
) -> Result<Inequality, AllocError>
    requires { v < op_count_of plant.now }
    ensures value { IfOk result (λ row. row ≡ window_row plant.now slot v side) }
    ensures small { IfOk result IsSmall }
{
    plant.sound();
    let (from, to) = plant.op(v).window;
    let own = Which::One(v);
    if side == 0 {
        let pieces = vec![in alloc;
            in_slot(from.into(), slot, own, Figure::Choice),
            in_slot(-1, slot, own, Figure::Start),
        ]?;
        return Ok(at_most(pieces, 0));
    }
    if side == 1 {
        let pieces = vec![in alloc;
            in_slot(1, slot, own, Figure::End),
            in_slot(-i64::from(to), slot, own, Figure::Choice),
        ]?;
        return Ok(at_most(pieces, 0));
    }
    let pieces = vec![in alloc;
        in_slot(1, slot, own, Figure::Start),
        in_slot(-1, slot, own, Figure::End),
        in_slot(1, slot, own, Figure::Choice),
    ]?;
    Ok(at_most(pieces, 0))
}

pub(crate) fn clique_row(
    alloc: Global,
    plant: &Plant,
    clique: u64,
    i: u32,
    j: u32,
) -> Result<Inequality, AllocError>
    ensures value { IfOk result (λ row. row ≡ clique_row plant.now clique i j) }
    ensures small { IfOk result IsSmall }
{
    let horizon = i64::from(plant.horizon());
    let members = Which::Among(clique);
    let pieces = vec![in alloc;
        in_slot(1, i, members, Figure::End),
        in_slot(-1, j, members, Figure::Start),
        in_slot(horizon, j, members, Figure::Choice),
    ]?;
    Ok(at_most(pieces, horizon))
}

/// Not one operation in one slot and another in another, both at once.
fn not_both(alloc: Global, i: u32, x: u8, j: u32, y: u8) -> Result<Inequality, AllocError>
    ensures value { IfOk result (λ row. row ≡ not_both i x j y) }
    ensures small { IfOk result IsSmall }
{
    let pieces = vec![in alloc;
        in_slot(1, i, Which::One(x), Figure::Choice),
        in_slot(1, j, Which::One(y), Figure::Choice),
    ]?;
    Ok(at_most(pieces, 1))
}

pub(crate) fn normal_row(alloc: Global, slot: u32, x: u8, y: u8) -> Result<Inequality, AllocError>
    requires { slot + 1 < 2 ^ 32 }
    ensures value { IfOk result (λ row. row ≡ normal_row slot x y) }
    ensures small { IfOk result IsSmall }
{
    not_both(alloc, slot, x, slot + 1, y)
}

pub(crate) fn idle_row(alloc: Global, slot: u32) -> Result<Inequality, AllocError>
    requires { slot + 1 < 2 ^ 32 }
    ensures value { IfOk result (λ row. row ≡ idle_row slot) }
    ensures small { IfOk result IsSmall }
{
    let pieces = vec![in alloc;
        in_slot(1, slot, Which::Idle, Figure::Choice),
        in_slot(-1, slot + 1, Which::Idle, Figure::Choice),
    ]?;
    Ok(at_most(pieces, 0))
}

pub(crate) fn berth_row(
    alloc: Global,
    i: u32,
    j: u32,
    x: u8,
    y: u8,
) -> Result<Inequality, AllocError>
    ensures value { IfOk result (λ row. row ≡ berth_row i j x y) }
    ensures small { IfOk result IsSmall }
{
    not_both(alloc, i, x, j, y)
}
