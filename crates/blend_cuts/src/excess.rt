//! By how much amounts of crude exceed the threshold of a cut.

ghost use Rattle.std.specs.Prelude.{◌≡◌, ◌+◌, ◌*◌, ◌^◌, ◌<◌, ◌≤◌, true, pos, ◌-ℤ◌, ◌*ℤ◌, unsigned_abs};
ghost use Rattle.limits.specs.declared.TheConstants.{MOST_CRUDES, MOST_CUT_DENOMINATOR, MOST_CUT_WEIGHT, MOST_PLACES, MOST_VOLUME};
ghost use Rattle.plant_model.specs.Parts.{crude_count_of, place_count_of, place_of, initial_amounts_of, op_count_of};
ghost use Rattle.plant_model.specs.Sound.{HoldsCrude};
ghost use Rattle.blend_cuts.specs.Cuts.{is_valid, weight_of};
ghost use Rattle.blend_cuts.specs.Excess.{rise_of, most_rise, excess_of, place_excess_of, first_excess_of, weight_variation_of, drift_of, steepest_of, most_excess_of};

use crate::valid::{is_inside, weight};
use number_laws::positive_part;
use plant_model::Plant;
use slot_box::CutParams;

/// The product of small numbers.
fn product(a: i64, b: i64) -> i64
    requires { unsigned_abs a * unsigned_abs b < 2 ^ 62 }
    ensures { result ≡ a *ℤ b }
{
    a * b
}

/// What a unit of the crude weighs, by the denominator.
fn scaled_weight(plant: &Plant, cut: &CutParams, c: u8) -> i64
    requires valid { is_valid plant.now cut.now ≡ true }
    requires crude { c < crude_count_of plant.now }
    ensures { result ≡ cut.now.q *ℤ weight_of cut.now c }
{
    plant.sound();
    product(cut.q, weight(cut, c))
}

/// By how much a unit of the crude exceeds it.
pub(crate) fn rise(plant: &Plant, cut: &CutParams, c: u8) -> i64
    requires valid { is_valid plant.now cut.now ≡ true }
    requires crude { c < crude_count_of plant.now }
    ensures value { result ≡ rise_of cut.now c }
    ensures small { unsigned_abs result ≤ most_rise }
{
    plant.sound();
    scaled_weight(plant, cut, c) - cut.p
}

/// Likewise of so many units.
fn weighed(rise: i64, amount: u32) -> i64
    requires small { unsigned_abs rise ≤ most_rise }
    requires amount { amount ≤ MOST_VOLUME }
    ensures value { result ≡ rise *ℤ pos amount }
    ensures small { unsigned_abs result ≤ most_rise * MOST_VOLUME }
{
    product(rise, amount.into())
}

/// By how much what the place holds at first does.
fn excess(plant: &Plant, cut: &CutParams, p: u8) -> i64
    requires valid { is_valid plant.now cut.now ≡ true }
    requires place { p < place_count_of plant.now }
    requires holds { HoldsCrude (place_of plant.now p).kind }
    ensures { result ≡ excess_of plant.now cut.now (initial_amounts_of plant.now p) }
{
    plant.sound();
    let mut sum = 0;
    for c in 0..plant.crude_count() {
        sum += weighed(rise(plant, cut, c), plant.initial(p, c));
    }
    sum
}

/// So much of it as is above 0, where the place is in the set.
fn place_excess(plant: &Plant, cut: &CutParams, p: u8) -> u64
    requires valid { is_valid plant.now cut.now ≡ true }
    requires place { p < place_count_of plant.now }
    ensures value { result ≡ place_excess_of plant.now cut.now p }
    ensures most { result ≤ most_rise * MOST_VOLUME }
{
    plant.sound();
    if is_inside(cut, p) {
        positive_part(excess(plant, cut, p))
    } else {
        0
    }
}

/// That of all places of the set.
pub(crate) fn first_excess(plant: &Plant, cut: &CutParams) -> u64
    requires valid { is_valid plant.now cut.now ≡ true }
    ensures value { result ≡ first_excess_of plant.now cut.now }
    ensures most { result ≤ MOST_PLACES * (most_rise * MOST_VOLUME) }
{
    plant.sound();
    let mut sum = 0;
    for p in 0..plant.place_count() {
        sum += place_excess(plant, cut, p);
    }
    sum
}

/// By how much the weights of a crude and of the next one differ.
fn weight_step(plant: &Plant, cut: &CutParams, c: u8) -> u64
    requires valid { is_valid plant.now cut.now ≡ true }
    requires crudes { c + 1 < crude_count_of plant.now }
    ensures value { result ≡ unsigned_abs (weight_of cut.now (c + 1) -ℤ weight_of cut.now c) }
    ensures most { result ≤ 2 * MOST_CUT_WEIGHT }
{
    plant.sound();
    (weight(cut, c + 1) - weight(cut, c)).unsigned_abs()
}

/// By how much the weights of neighbouring crudes differ, in all.
fn weight_variation(plant: &Plant, cut: &CutParams) -> u64
    requires valid { is_valid plant.now cut.now ≡ true }
    ensures value { result ≡ weight_variation_of plant.now cut.now }
    ensures most { result ≤ MOST_CRUDES * (2 * MOST_CUT_WEIGHT) }
{
    let mut sum = 0;
    for c in 0..plant.crude_count() - 1 {
        sum += weight_step(plant, cut, c);
    }
    sum
}

/// By so much at most one draw drifts.
pub(crate) fn drift(plant: &Plant, cut: &CutParams) -> u64
    requires valid { is_valid plant.now cut.now ≡ true }
    ensures value { result ≡ drift_of plant.now cut.now }
    ensures most { result ≤ MOST_CUT_DENOMINATOR * (MOST_CRUDES * (2 * MOST_CUT_WEIGHT)) }
{
    plant.sound();
    cut.q.unsigned_abs() * weight_variation(plant, cut)
}

/// By how much a unit of the crude exceeds the threshold that exceeds it most, and 0 where none does.
pub(crate) fn steepest(plant: &Plant, cut: &CutParams) -> u64
    requires valid { is_valid plant.now cut.now ≡ true }
    ensures value { result ≡ steepest_of plant.now cut.now }
    ensures most { result ≤ most_rise }
{
    plant.sound();
    let mut most = 0;
    for c in 0..plant.crude_count() {
        most = most.max(positive_part(rise(plant, cut, c)));
    }
    most
}
