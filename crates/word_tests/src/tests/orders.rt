use super::samples::{inlets, timed};
use normal_order::{normal_order_laws, normalise};
use overlap_graph::independence;
use plant_model::Plant;
use replay_core::{Timed, Word};
use slot_automaton::Automaton;
use slot_words::{by_start, slot_replay};
use std::alloc::{AllocError, Global};
use std::test::Fail;

/// An operation and the minute at which it starts, a digit each: 15 is operation 1 at minute 5.
fn step(digits: u32) -> Timed {
    let start = digits % 10;
    timed((digits / 10 % 10) as u8, start, start + 1, 4)
}

fn word(alloc: Global, digits: &[u32]) -> Result<Word, AllocError> {
    let mut steps = Vec::new(alloc);
    for digits in digits {
        steps.push(step(*digits))?;
    }
    Ok(Word::from_vec(steps))
}

fn digits(alloc: Global, word: &Word) -> Result<Vec<u32>, AllocError> {
    let mut digits = Vec::new(alloc);
    for step in word.as_slice() {
        digits.push(10 * u32::from(step.op) + step.start % 10)?;
    }
    Ok(digits)
}

/// The normal form of a word, or no operation where it has one that the plant has not.
fn normal(alloc: Global, plant: &Plant, word: Word) -> Result<Word, AllocError> {
    if plant.op_count() != 3 || !word.as_slice().iter().all(|step| step.op < 3) {
        return Word::new(alloc, &[]);
    }
    normalise(alloc, plant, word)
}

fn normal_digits(alloc: Global, plant: &Plant, digits_of: &[u32]) -> Result<Vec<u32>, AllocError> {
    let word = word(alloc, digits_of)?;
    let normal = normal(alloc, plant, word)?;
    digits(alloc, &normal)
}

// Words and their normal forms. As with the other tables, the function beside it promises nothing of it, so that the
// proofs of the tests do not read it.
const FORMS: &[(&[u32], &[u32])] = &[
    (&[10, 1, 25], &[1, 10, 25]),
    (&[10, 21, 5], &[10, 21, 5]),
    (&[10, 11, 5, 3], &[5, 3, 10, 11]),
    (&[20, 11, 2, 23, 4], &[20, 2, 11, 23, 4]),
    (&[], &[]),
];

fn forms() -> &'static [(&'static [u32], &'static [u32])] {
    FORMS
}

#[test]
fn lesser_inlets_come_first(rt: HostRuntime) -> Result<(), Fail> {
    let plant = inlets(rt.alloc())?;
    for (digits, wanted) in forms() {
        assert_eq!(rt;
            normal_digits(rt.alloc(), &plant, digits)?.as_slice(),
            *wanted
        );
    }
    normal_order_laws(&plant);
    Ok(())
}

/// The length of the shortest prefix of the word that the automaton of the plant refuses.
fn first_refused(alloc: Global, plant: &Plant, word: &[u8]) -> Result<Option<u32>, Fail> {
    let masks = independence(alloc, plant)?;
    let automaton = Automaton::new(alloc, masks.as_slice())?;
    if masks.as_slice().len() != 3 || word.len() > 5 || !word.iter().all(|&op| op < 3) {
        return Err("the plant has three operations".into());
    }
    Ok(automaton.first_refused(word))
}

#[test]
fn the_automaton_takes_it(rt: HostRuntime) -> Result<(), Fail> {
    let plant = inlets(rt.alloc())?;
    assert_eq!(rt; first_refused(rt.alloc(), &plant, &[0, 1, 2])?, None);
    assert_eq!(rt; first_refused(rt.alloc(), &plant, &[1, 0])?, Some(2));
    Ok(())
}

/// Whether no rule of a word is broken.
fn is_legal(alloc: Global, plant: &Plant, word: &Word) -> bool {
    word.as_slice().len() <= 40 && slot_replay(alloc, plant, word).is_ok()
}

/// The second inlet from minute 0 to 2, and the first from 1 to 3, 4 units each.
#[test]
fn the_normal_word_runs_by_slots(rt: HostRuntime) -> Result<(), Fail> {
    let plant = inlets(rt.alloc())?;
    let (early, late) = (timed(1, 0, 2, 4), timed(0, 1, 3, 4));
    let word = Word::new(rt.alloc(), &[early, late])?;
    let normal = normal(rt.alloc(), &plant, word)?;
    assert_eq!(rt; normal.as_slice(), [late, early].as_slice());
    assert!(rt; is_legal(rt.alloc(), &plant, &normal));
    let plan = by_start(&plant, normal)?;
    assert_eq!(rt; plan.as_slice(), [early, late].as_slice());
    Ok(())
}
