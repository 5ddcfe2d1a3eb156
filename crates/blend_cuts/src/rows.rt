//! The rows of a cut.

ghost use Rattle.std.specs.Prelude.{◌≡◌, ◌*◌, ◌<◌, ◌≤◌, ◌^◌, true, IfOk, IfSome};
ghost use Rattle.limits.specs.declared.TheConstants.{MOST_SLOTS, MOST_VOLUME};
ghost use Rattle.plant_model.specs.Parts.{crude_count_of, op_count_of, op_of};
ghost use Rattle.row_forms.specs.Fits.{IsFitRow};
ghost use Rattle.row_forms.specs.Sizes.{HasSmallReach};
ghost use Rattle.blend_cuts.specs.Cuts.{is_valid};
ghost use Rattle.blend_cuts.specs.Excess.{most_excess_of, most_rise};
ghost use Rattle.blend_cuts.specs.CutRows.{drawn_piece, drawn_pieces, allowance_of, allowed_piece, brings, bringing_of, brought_piece, cut_inequality, has_row, cut_row_of};

use crate::excess::{drift, first_excess, rise, steepest};
use crate::valid::{cut_valid, is_inside};
use item_lists::Items;
use linear_form::Row;
use plant_model::Plant;
use row_forms::{Figure, Inequality, Piece, Which, build_row, row_form_laws};
use slot_box::CutParams;
use std::alloc::{AllocError, Global};

/// What the operation draws of the crude in the slot, by how much a unit of it exceeds the threshold.
fn drawn_piece(plant: &Plant, cut: &CutParams, slot: u32, op: u8, c: u8) -> Piece
    requires valid { is_valid plant.now cut.now ≡ true }
    requires crude { c < crude_count_of plant.now }
    ensures { result ≡ drawn_piece cut.now slot op c }
{
    Piece::new(
        rise(plant, cut, c),
        slot,
        slot,
        Which::One(op),
        Figure::Amount(c),
    )
}

/// Likewise of all crudes.
fn drawn_pieces(
    alloc: Global,
    plant: &Plant,
    cut: &CutParams,
    slot: u32,
    op: u8,
) -> Result<Vec<Piece>, AllocError>
    requires valid { is_valid plant.now cut.now ≡ true }
    ensures { IfOk result (λ pieces. pieces.items ≡ drawn_pieces plant.now cut.now slot op) }
{
    let mut pieces = Vec::new(alloc);
    for c in 0..plant.crude_count() {
        pieces.push(drawn_piece(plant, cut, slot, op, c))?;
    }
    Ok(pieces)
}

/// What the set exceeds the threshold by at first, and one drift for each draw up to the slot.
fn allowance(plant: &Plant, cut: &CutParams, slot: u32) -> u64
    requires valid { is_valid plant.now cut.now ≡ true }
    requires slots { slot ≤ MOST_SLOTS }
    ensures value { result ≡ allowance_of plant.now cut.now slot }
    ensures small { result < 2 ^ 60 }
{
    first_excess(plant, cut) + u64::from(slot) * drift(plant, cut)
}

/// It is taken off where the operation stands in the slot.
fn allowed_piece(plant: &Plant, cut: &CutParams, slot: u32, op: u8) -> Piece
    requires valid { is_valid plant.now cut.now ≡ true }
    requires slots { slot ≤ MOST_SLOTS }
    ensures { result ≡ allowed_piece plant.now cut.now slot op }
{
    let allowed = allowance(plant, cut, slot) as i64;
    Piece::new(-allowed, slot, slot, Which::One(op), Figure::Choice)
}

/// Whether the operation goes from outside into the set.
fn brings(plant: &Plant, cut: &CutParams, op: u8) -> bool
    requires { op < op_count_of plant.now }
    ensures { result ≡ brings plant.now cut.now op }
{
    plant.sound();
    let op = plant.op(op);
    !is_inside(cut, op.from) && is_inside(cut, op.to)
}

/// The operations that do.
fn bringing(plant: &Plant, cut: &CutParams) -> u64
    ensures { result ≡ bringing_of plant.now cut.now }
{
    let mut mask = 0;
    for u in 0..plant.op_count() {
        if brings(plant, cut, u) {
            mask |= 1 << u;
        }
    }
    mask
}

/// No draw of the operation exceeds the threshold by more.
fn most_excess(plant: &Plant, cut: &CutParams, op: u8) -> u64
    requires valid { is_valid plant.now cut.now ≡ true }
    requires op { op < op_count_of plant.now }
    ensures value { result ≡ most_excess_of plant.now cut.now op }
    ensures small { result ≤ most_rise * MOST_VOLUME }
{
    plant.sound();
    steepest(plant, cut) * u64::from(plant.op(op).volume.1)
}

/// For each operation that brings crude before the slot, so much is taken off that the row says nothing more.
fn brought_piece(plant: &Plant, cut: &CutParams, slot: u32, op: u8) -> Piece
    requires valid { is_valid plant.now cut.now ≡ true }
    requires slot { 1 ≤ slot }
    requires op { op < op_count_of plant.now }
    ensures { result ≡ brought_piece plant.now cut.now slot op }
{
    let most = most_excess(plant, cut, op) as i64;
    let bringing = Which::Among(bringing(plant, cut));
    Piece::new(-most, 1, slot - 1, bringing, Figure::Choice)
}

/// What the row says.
fn inequality(
    alloc: Global,
    plant: &Plant,
    cut: &CutParams,
    slot: u32,
    op: u8,
) -> Result<Inequality, AllocError>
    requires valid { is_valid plant.now cut.now ≡ true }
    requires some { 1 ≤ slot }
    requires slots { slot ≤ MOST_SLOTS }
    requires op { op < op_count_of plant.now }
    ensures value { IfOk result (λ row. row ≡ cut_inequality plant.now cut.now slot op) }
    ensures reach { IfOk result (λ row. HasSmallReach row.pieces) }
{
    plant.sound();
    let mut pieces = drawn_pieces(alloc, plant, cut, slot, op)?;
    pieces.push(allowed_piece(plant, cut, slot, op))?;
    pieces.push(brought_piece(plant, cut, slot, op))?;
    Ok(Inequality {
        pieces: Items::from_vec(pieces),
        right: 0,
    })
}

/// Whether the cut is valid and has a row for the slot and the operation.
#[tactic(auto, unfolding(crate::specs::CutRows::has_row))]
fn has_row(plant: &Plant, n: u32, cut: &CutParams, slot: u32, op: u8) -> bool
    ensures { result ≡ has_row plant.now n cut.now slot op }
{
    plant.sound();
    cut_valid(plant, cut)
        && (0 < slot && slot <= n)
        && op < plant.op_count()
        && is_inside(cut, plant.op(op).from)
}

/// The row of the cut for an operation in a slot of forms of n slots; none exactly where the cut is not valid, the
/// forms have no such slot, the plant no such operation, or the operation does not draw from the cut's set.
pub fn cut_row(
    alloc: Global,
    plant: &Plant,
    n: u32,
    cut: &CutParams,
    slot: u32,
    op: u8,
) -> Result<Option<Row>, AllocError>
    requires { n ≤ MOST_SLOTS }
    ensures value { IfOk result (λ row. row ≡ cut_row_of plant.now n cut.now slot op) }
    ensures fits { IfOk result (λ row. IfSome row (IsFitRow plant.now n)) }
{
    row_form_laws(plant);
    if !has_row(plant, n, cut, slot, op) {
        return Ok(None);
    }
    let inequality = inequality(alloc, plant, cut, slot, op)?;
    Ok(Some(build_row(alloc, plant, n, &inequality)?))
}
