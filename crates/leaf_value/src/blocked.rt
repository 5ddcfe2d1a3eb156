ghost use Rattle.std.specs.Prelude.{◌≡◌, ◌^◌, ◌<◌, ◌≤◌, ◌↔◌, All, IfOk, IsTrue, MatchOption, length, take};
ghost use Rattle.overlap_graph.specs.Independence.{independence_of};
ghost use Rattle.slot_automaton.specs.Normal.{IsFirstRefused};
ghost use Rattle.slot_box.specs.Boxes.{fixed_prefix};
ghost use Rattle.slot_forms.specs.Cases.{plain};
ghost use Rattle.leaf_value.specs.Blocked.{AreFixed, is_blocked};

use plant_model::Plant;
use slot_automaton::Automaton;
use slot_box::SlotBox;
use std::alloc::{AllocError, Global};

/// The operations to which the slots up to this one are fixed; none where one of them is not fixed to an operation of
/// the plant.
fn fixed_word(
    alloc: Global,
    plant: &Plant,
    bx: &SlotBox,
    at: u32,
) -> Result<Option<Vec<u8>>, AllocError>
    requires { at ≤ length bx.now }
    ensures { IfOk result (λ found. MatchOption found (AreFixed plant.now bx.now at → ⊥) (λ word.
        (word.items ≡ take at (fixed_prefix bx.now)) × AreFixed plant.now bx.now at)) }
{
    let mut word = Vec::new(alloc);
    for i in 0..at {
        let Some(op) = bx.fixed_at(i + 1) else {
            return Ok(None);
        };
        if op >= plant.op_count() {
            return Ok(None);
        }
        word.push(op)?;
    }
    Ok(Some(word))
}

/// Whether the automaton's first refused place of these operations is that of the last of them.
fn is_first_refused(automaton: &Automaton, word: &[u8], at: u32) -> bool
    requires known { All (λ op. op < length automaton.now) word.now }
    requires short { length word.now < 2 ^ 32 }
    ensures { IsTrue result ↔ IsFirstRefused automaton.now word.now at }
{
    automaton.first_refused(word) == Some(at)
}

/// Whether no form that is sought begins with the operations to which the slots up to this one are fixed, though some
/// may begin with those before it.
#[tactic(auto, using(crate::proofs::BlockedLaws::none_blocked, crate::proofs::BlockedLaws::free_not_blocked, crate::proofs::BlockedLaws::known_letters))]
pub fn is_blocked(
    alloc: Global,
    plant: &Plant,
    automaton: &Automaton,
    bx: &SlotBox,
    at: u32,
) -> Result<bool, AllocError>
    requires { automaton.now ≡ independence_of plant.now }
    ensures { IfOk result (λ blocked. blocked ≡ is_blocked (plain plant.now (length bx.now)) bx.now at) }
{
    if at == 0 || at > bx.len() {
        return Ok(false);
    }
    let Some(word) = fixed_word(alloc, plant, bx, at)? else {
        return Ok(false);
    };
    Ok(is_first_refused(automaton, &word, at))
}
