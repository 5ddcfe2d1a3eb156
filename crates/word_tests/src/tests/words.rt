use super::samples::{inlets, timed};
use plant_model::Plant;
use replay_core::{Broken, ReplayFault, Timed, replay};
use slot_words::{Word, by_start, slot_replay, swap, word_laws};
use std::alloc::{AllocError, Global};
use std::process::Abort;
use std::test::Fail;

/// The first inlet from minute 1 to 3 with 4 units, and the second from minute 0 to 2 with as many.
fn late_and_early(alloc: Global) -> Result<Word, Fail> {
    Ok(Word::new(alloc, &[timed(0, 1, 3, 4), timed(1, 0, 2, 4)])?)
}

/// The margin of a word, or the rule that it breaks first, and where; (0, 0) where memory runs out.
fn margin(alloc: Global, plant: &Plant, word: &Word) -> Result<i64, (u8, u32)> {
    if word.as_slice().len() > 40 {
        return Err((0, 0));
    }
    match slot_replay(alloc, plant, word) {
        Ok(outcome) => Ok(outcome.margin),
        Err(ReplayFault::Rule(Broken { rule, at })) => Err((rule, at)),
        Err(ReplayFault::Memory) => Err((0, 0)),
    }
}

#[test]
fn a_word_need_not_keep_the_clock(rt: HostRuntime) -> Result<(), Fail> {
    let plant = inlets(rt.alloc())?;
    let word = late_and_early(rt.alloc())?;
    assert_eq!(rt; margin(rt.alloc(), &plant, &word), Ok(0));
    assert!(rt; word.as_slice().len() <= 1000);
    let refused = replay(rt.alloc(), &plant, word.as_slice());
    assert!(rt; matches!(refused, Err(ReplayFault::Rule(Broken { rule: 6, at: 2 }))));
    word_laws(&plant);
    Ok(())
}

#[test]
fn other_rules_stay(rt: HostRuntime) -> Result<(), Fail> {
    let plant = inlets(rt.alloc())?;
    for (steps, wanted) in [
        ([timed(0, 0, 1, 4), timed(1, 0, 1, 5)], Err((10, 2))),
        ([timed(2, 2, 3, 2), timed(0, 0, 2, 4)], Err((6, 2))),
        ([timed(0, 0, 2, 4), timed(2, 1, 3, 2)], Err((7, 2))),
        ([timed(0, 0, 2, 4), timed(2, 2, 3, 6)], Ok(6)),
    ] {
        let word = Word::new(rt.alloc(), &steps)?;
        assert_eq!(rt; margin(rt.alloc(), &plant, &word), wanted);
    }
    Ok(())
}

/// The operations of the word as they start.
fn sorted(alloc: Global, plant: &Plant, steps: [Timed; 2]) -> Result<Word, AllocError> {
    by_start(plant, Word::new(alloc, &steps)?)
}

#[test]
fn sorts_by_start(rt: HostRuntime) -> Result<(), Fail> {
    let plant = inlets(rt.alloc())?;
    let (late, early) = (timed(0, 1, 3, 4), timed(1, 0, 2, 4));
    let plan = sorted(rt.alloc(), &plant, [late, early])?;
    assert_eq!(rt; plan.as_slice(), [early, late].as_slice());
    Ok(())
}

#[test]
fn keeps_the_order_of_those_that_start_together(rt: HostRuntime) -> Result<(), Fail> {
    let plant = inlets(rt.alloc())?;
    let (first, second) = (timed(1, 1, 2, 4), timed(0, 1, 3, 4));
    let plan = sorted(rt.alloc(), &plant, [first, second])?;
    assert_eq!(rt; plan.as_slice(), [first, second].as_slice());
    Ok(())
}

/// Lets the first two entries change places, where they may.
#[tactic(auto, unfolding(plant_model::specs::Relations::independent_of))]
fn swapped(rt: &impl Abort, plant: &Plant, word: &mut Word) {
    assert!(rt; plant.op_count() == 3);
    let [first, second] = word.as_slice() else {
        return;
    };
    let (v, w) = (first.op, second.op);
    assert!(rt; v < 3 && w < 3);
    if !plant.ordered(v, w) {
        swap(plant, word, 1);
    }
}

#[test]
fn swaps_inlets(rt: HostRuntime) -> Result<(), Fail> {
    let plant = inlets(rt.alloc())?;
    let mut word = late_and_early(rt.alloc())?;
    swapped(&rt, &plant, &mut word);
    assert_eq!(rt;
        word.as_slice(),
        [timed(1, 0, 2, 4), timed(0, 1, 3, 4)].as_slice()
    );
    Ok(())
}
