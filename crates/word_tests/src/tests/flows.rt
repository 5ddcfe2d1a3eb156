use super::samples::{inlets, timed};
use plant_model::Plant;
use replay_core::{Outcome, Timed, Word};
use slot_words::slot_replay;
use std::alloc::Global;
use std::process::Abort;
use std::test::Fail;
use word_flows::flow_laws;

/// What a word of at most 40 operations comes to.
fn outcome(alloc: Global, plant: &Plant, steps: &[Timed]) -> Result<Outcome, Fail> {
    let word = Word::new(alloc, steps)?;
    if word.as_slice().len() > 40 {
        return Err("the word is long".into());
    }
    match slot_replay(alloc, plant, &word) {
        Ok(outcome) => Ok(outcome),
        Err(_) => Err("no outcome".into()),
    }
}

/// What the place holds in the end, in all, and 0 where there is no such place.
fn held(outcome: &Outcome, p: usize) -> u64 {
    match outcome.held.as_slice().get(p) {
        Some(amounts) => amounts.total(),
        None => 0,
    }
}

/// Of each place: what it holds at first, what comes in, and what goes out, in all.
fn assert_balances(rt: &impl Abort, outcome: &Outcome, flows: &[[u64; 3]]) {
    for (p, [first, inward, outward]) in flows.iter().enumerate() {
        let there_and_gone = held(outcome, p).checked_add(*outward);
        assert_eq!(rt; there_and_gone, first.checked_add(*inward), "place {p}");
    }
}

#[test]
fn inlets_balance(rt: HostRuntime) -> Result<(), Fail> {
    let plant = inlets(rt.alloc())?;
    let outcome = outcome(rt.alloc(), &plant, &[timed(0, 0, 2, 4), timed(1, 1, 3, 4)])?;
    assert_balances(&rt, &outcome, &[[5, 0, 4], [5, 0, 4], [2, 8, 0], [0, 0, 0]]);
    flow_laws(&plant);
    Ok(())
}

#[test]
fn an_inlet_and_a_charge_balance(rt: HostRuntime) -> Result<(), Fail> {
    let plant = inlets(rt.alloc())?;
    let outcome = outcome(rt.alloc(), &plant, &[timed(0, 0, 2, 4), timed(2, 2, 3, 6)])?;
    assert_balances(&rt, &outcome, &[[5, 0, 4], [5, 0, 0], [2, 4, 6], [0, 6, 0]]);
    Ok(())
}
