ghost use Rattle.std.specs.Prelude.{◌≡◌, ◌-◌, ◌<◌, ◌≤◌, true, length, IfOk, slice_index_or};
ghost use Rattle.std.specs.List.{swap};
ghost use Rattle.std.specs.List.Sorted.{IsPermutation};
ghost use Rattle.limits.specs.declared.TheConstants.{MOST_SLOTS};
ghost use Rattle.plant_model.specs.Relations.{independent_of};
ghost use Rattle.replay_core.specs.declared.order.Order.TheVariants.{BySlot};
ghost use Rattle.replay_core.specs.Legal.{IsLegalIn};
ghost use Rattle.replay_core.specs.Replays.{Replays};
ghost use Rattle.slot_words.specs.ByStart.{IsByStart};
ghost use Rattle.slot_words.specs.Laws.{IsPlanOfWord};
ghost use Rattle.slot_words.specs.Swaps.{AreEquivalent, MeansTheSame, op_at};

use crate::word_laws;
use plant_model::Plant;
use replay_core::{Order, Outcome, ReplayFault, Word, replay_in};
use std::alloc::{AllocError, Global};

/// Replays a word: refused with the first rule that it breaks, where the sixth rule asks the order of starts of
/// ordered operations alone.
pub fn slot_replay(alloc: Global, plant: &Plant, word: &Word) -> Result<Outcome, ReplayFault>
    requires { length word.now ≤ MOST_SLOTS }
    ensures { Replays plant.now BySlot word.now result }
{
    replay_in(alloc, plant, Order::BySlot, word.as_slice())
}

/// Lets the entry of the number, from 1, and the next one change places. It takes no memory.
pub fn swap(plant: &Plant, word: &mut Word, at: u32)
    requires from_one { 1 ≤ at }
    requires there { at < length word.old }
    requires independent { independent_of plant.now (op_at word.old (at - 1)) (op_at word.old at) ≡ true }
    ensures value { word.new ≡ swap word.old (at - 1) at }
    ensures equivalent { AreEquivalent plant.now word.old word.new }
    ensures same { MeansTheSame plant.now word.old word.new }
    ensures entries { IsPermutation word.old word.new }
{
    word_laws(plant);
    word.as_mut_slice().swap(at as usize - 1, at as usize);
}

/// The word in rising order of start, equal starts in the old order.
pub fn by_start(plant: &Plant, word: Word) -> Result<Word, AllocError>
    ensures sorted { IfOk result (IsByStart word) }
    ensures plan { IsLegalIn plant.now BySlot word → IfOk result (IsPlanOfWord plant.now word) }
{
    word_laws(plant);
    let mut steps = word.into_vec();
    steps.sort_by_key(|t| t.start)?;
    Ok(Word::from_vec(steps))
}
