//! Which cuts a plant has.

ghost use Rattle.std.specs.Prelude.{◌≡◌, ◌<◌};
ghost use Rattle.std.specs.List.{list_all, range_with_len};
ghost use Rattle.limits.specs.declared.TheConstants.{MOST_CRUDES};
ghost use Rattle.blend_cuts.specs.Cuts.{is_inside, is_stock, is_lawful_place, has_stock, weight_of, is_small, is_lawful_weight, has_weights, has_denominator, has_threshold, is_valid};

use limits::{MOST_CRUDES, MOST_CUT_DENOMINATOR, MOST_CUT_WEIGHT};
use plant_model::{PlaceKind, Plant};
use slot_box::CutParams;

/// Whether the place is in the cut's set.
pub(crate) fn is_inside(cut: &CutParams, p: u8) -> bool
    requires { p < 64 }
    ensures { result ≡ is_inside cut.now p }
{
    (cut.places >> p) & 1 == 1
}

/// Whether it is a vessel or a tank of the plant.
fn is_stock(plant: &Plant, p: u8) -> bool
    ensures { result ≡ is_stock plant.now p }
{
    p < plant.place_count() && !matches!(plant.place(p).kind, PlaceKind::Unit)
}

fn is_lawful_place(plant: &Plant, cut: &CutParams, p: u8) -> bool
    requires { p < 64 }
    ensures { result ≡ is_lawful_place plant.now cut.now p }
{
    !is_inside(cut, p) || is_stock(plant, p)
}

fn has_stock(plant: &Plant, cut: &CutParams) -> bool
    ensures { result ≡ has_stock plant.now cut.now }
{
    (0..64).all(|p: u8| is_lawful_place(plant, cut, p))
}

/// What a unit of the crude weighs.
pub(crate) fn weight(cut: &CutParams, c: u8) -> i64
    requires { c < MOST_CRUDES }
    ensures { result ≡ weight_of cut.now c }
{
    cut.weights[usize::from(c)]
}

fn is_small(number: i64) -> bool
    ensures { result ≡ is_small number }
{
    number.unsigned_abs() <= u64::from(MOST_CUT_WEIGHT)
}

fn is_lawful_weight(plant: &Plant, cut: &CutParams, c: u8) -> bool
    requires { c < MOST_CRUDES }
    ensures { result ≡ is_lawful_weight plant.now cut.now c }
{
    let weight = weight(cut, c);
    is_small(weight) && (c < plant.crude_count() || weight.unsigned_abs() == 0)
}

fn has_weights(plant: &Plant, cut: &CutParams) -> bool
    ensures { result ≡ has_weights plant.now cut.now }
{
    (0..MOST_CRUDES).all(|c| is_lawful_weight(plant, cut, c))
}

fn has_denominator(cut: &CutParams) -> bool
    ensures { result ≡ has_denominator cut.now }
{
    0 < cut.q && cut.q <= i64::from(MOST_CUT_DENOMINATOR)
}

fn has_threshold(cut: &CutParams) -> bool
    ensures { result ≡ has_threshold cut.now }
{
    has_denominator(cut) && is_small(cut.p)
}

/// Whether the cut is one of the plant's: its set has vessels and tanks of the plant alone, its numbers are within
/// their limits, and no crude weighs anything that the plant does not have.
#[tactic(auto, unfolding(crate::specs::Cuts::is_valid))]
pub fn cut_valid(plant: &Plant, cut: &CutParams) -> bool
    ensures { result ≡ is_valid plant.now cut.now }
{
    has_stock(plant, cut) && has_threshold(cut) && has_weights(plant, cut)
}
