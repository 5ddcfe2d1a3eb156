ghost use Rattle.std.specs.Prelude.{◌≡◌, ◌+◌, ◌<◌, ◌^◌, ◌+ℤ◌, ◌&&◌, unsigned_abs};
ghost use Rattle.std.specs.List.{list_any};
ghost use Rattle.row_forms.specs.Pieces.{takes, is_of, is_slot, factor_in, factor_at};
ghost use Rattle.row_forms.specs.Sizes.{HasSmallReach};

use crate::{Figure, Piece, Which};
use linear_form::{Column, IDLE_ENTRY, Part};
use plant_model::{OpKind, Plant};

/// Whether an entry is taken.
fn takes(plant: &Plant, which: Which, entry: u8) -> bool
    ensures { result ≡ takes plant.now which entry }
{
    match which {
        Which::Any => true,
        Which::Idle => entry == IDLE_ENTRY,
        Which::One(v) => entry == v,
        Which::From(p) => entry < plant.op_count() && plant.op(entry).from == p,
        Which::Into(p) => entry < plant.op_count() && plant.op(entry).to == p,
        Which::Among(mask) => entry < plant.op_count() && (mask >> entry) & 1 == 1,
        Which::Charges => entry < plant.op_count() && plant.op(entry).kind == OpKind::Charge,
    }
}

/// Whether a part belongs to the figure.
fn is_of(figure: Figure, part: Part) -> bool
    ensures { result ≡ is_of figure part }
{
    match (figure, part) {
        (Figure::Choice, Part::Z) => true,
        (Figure::Volume, Part::A(_)) => true,
        (Figure::Amount(c), Part::A(crude)) => crude == c,
        (Figure::Start, Part::S) => true,
        (Figure::End, Part::E) => true,
        (Figure::Wait, Part::W) => true,
        _ => false,
    }
}

/// Whether the slot is one of the piece's.
fn has_slot(piece: &Piece, slot: u32) -> bool
    ensures { result ≡ is_slot piece.now slot }
{
    piece.first <= slot && slot <= piece.last
}

/// Whether a piece takes anything of a slot.
pub(crate) fn reach_slot(pieces: &[Piece], slot: u32) -> bool
    ensures { result ≡ list_any (λ piece. is_slot piece slot) pieces.now }
{
    pieces.iter().any(|piece| has_slot(piece, slot))
}

/// Whether a piece takes anything of an entry of a slot.
pub(crate) fn reach_entry(plant: &Plant, pieces: &[Piece], slot: u32, entry: u8) -> bool
    ensures { result ≡ list_any (λ piece. is_slot piece slot && takes plant.now piece.which entry) pieces.now }
{
    pieces.iter().any(|piece| has_slot(piece, slot) && takes(plant, piece.which, entry))
}

/// The factor that the piece gives a column.
fn factor_in(plant: &Plant, column: Column, piece: &Piece) -> i64
    ensures { result ≡ factor_in plant.now column piece.now }
{
    if has_slot(piece, column.slot)
        && takes(plant, piece.which, column.entry)
        && is_of(piece.figure, column.part)
    {
        piece.factor
    } else {
        0
    }
}

fn plus(sum: i64, more: i64) -> i64
    requires { unsigned_abs sum + unsigned_abs more < 2 ^ 63 }
    ensures { result ≡ sum +ℤ more }
{
    sum + more
}

/// The factor that the pieces give a column together.
pub(crate) fn factor_at(plant: &Plant, pieces: &[Piece], column: Column) -> i64
    requires { HasSmallReach pieces.now }
    ensures { result ≡ factor_at plant.now pieces.now column }
{
    let mut factor = 0;
    for piece in pieces {
        factor = plus(factor, factor_in(plant, column, piece));
    }
    factor
}
