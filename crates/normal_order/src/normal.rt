ghost use Rattle.std.specs.Prelude.{◌≡◌, ◌<◌, ◌≤◌, IfOk, length};
ghost use Rattle.std.specs.List.Sorted.{IsPermutation};
ghost use Rattle.plant_model.specs.Parts.{op_count_of};
ghost use Rattle.slot_words.specs.Swaps.{MeansTheSame};
ghost use Rattle.normal_order.specs.NormalWords.{AreKnown, IsNormalForm};
ghost use Rattle.normal_order.specs.inside.Seats.{seat_of, stands_behind};

use plant_model::Plant;
use replay_core::{Timed, Word};
use slot_words::word_laws;
use std::alloc::{AllocError, Global};

/// The normal word among those that are equivalent to the word. Of a word that breaks no rule it keeps the rules, what
/// places hold in the end, and the margin.
pub fn normalise(alloc: Global, plant: &Plant, word: Word) -> Result<Word, AllocError>
    requires { AreKnown plant.now word }
    ensures normal { IfOk result (IsNormalForm plant.now word) }
    ensures same { IfOk result (MeansTheSame plant.now word) }
    ensures entries { IfOk result (IsPermutation word) }
{
    word_laws(plant);
    let mut normal = Vec::new(alloc);
    for step in word.as_slice() {
        let seat = seat(plant, normal.as_slice(), step.op);
        normal.insert(seat, *step)?;
    }
    Ok(Word::from_vec(normal))
}

/// How many of the operations come before one that joins them: it stands behind the last that it depends on, and there
/// before the first that is greater.
fn seat(plant: &Plant, steps: &[Timed], op: u8) -> usize
    requires op { op < op_count_of plant.now }
    requires steps { AreKnown plant.now steps.now }
    ensures value { result ≡ seat_of plant.now op steps.now }
    ensures within { result ≤ length steps.now }
{
    let mut seat = 0;
    for (k, step) in steps.iter().enumerate() {
        if stands_behind(plant, op, step.op, seat == k) {
            seat = k + 1;
        }
    }
    seat
}

/// Whether an operation stands behind another that it joins last: it depends on it, or is no less, where nothing
/// greater was there before that it could have come ahead of.
#[tactic(auto, unfolding(plant_model::specs::Relations::independent_of))]
fn stands_behind(plant: &Plant, op: u8, other: u8, none_greater: bool) -> bool
    requires op { op < op_count_of plant.now }
    requires other { other < op_count_of plant.now }
    ensures { result ≡ stands_behind plant.now op other none_greater }
{
    plant.ordered(op, other) || none_greater && other <= op
}
