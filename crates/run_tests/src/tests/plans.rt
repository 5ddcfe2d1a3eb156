//! What `solve` finds of the sample plants, with one slot.

use super::runs::{Ended, SOUND, assert_claims, outcome};
use super::samples::{
    fixed_rate, half_tank, late_vessel, losing_charge, one_charge, slow_charge, two_vessels,
};
use crude_run::solve_alone;
use dossier_check::{Verdict, check};
use outer_edge::FreeGate;
use plant_text::read_plant;
use std::alloc::{AllocError, Global};
use std::sync::Wait;
use std::test::Fail;
use std::thread::Threads;

const FULL: &str = "solve plant --slots 1 --nodes 45 --workers 1";

const EIGHT: &str = "solve plant --slots 1 --nodes 8 --workers 1";

fn solved(
    rt: &(impl Threads + Wait + Sync),
    alloc: Global,
    line: &str,
    plant: &str,
) -> Result<Ended, AllocError> {
    outcome(rt, alloc, line, plant.as_bytes(), SOUND)
}

#[test]
fn charges_all_that_there_is(rt: HostRuntime) -> Result<(), Fail> {
    let ended = solved(&rt, rt.alloc(), FULL, one_charge())?;
    let lines = "\nanswer plan\nmargin 12\nbound 12\nplan 1\nop 1 c1 0 2 4\ncuts 0\n";
    assert_claims(&rt, &ended, 0, lines);
    Ok(())
}

#[test]
fn charges_nothing_at_a_loss(rt: HostRuntime) -> Result<(), Fail> {
    let ended = solved(&rt, rt.alloc(), EIGHT, losing_charge())?;
    let lines = "\nanswer plan\nmargin 0\nbound 0\nplan 0\ncuts 0\n";
    assert_claims(&rt, &ended, 0, lines);
    Ok(())
}

#[test]
fn waits_no_longer_than_it_must(rt: HostRuntime) -> Result<(), Fail> {
    let line = "solve plant --slots 1 --nodes 125 --workers 1";
    let ended = solved(&rt, rt.alloc(), line, late_vessel())?;
    let lines = "\nanswer plan\nmargin -10\nbound -10\nplan 1\nop 1 u1 1 3 4\ncuts 0\n";
    assert_claims(&rt, &ended, 0, lines);
    Ok(())
}

// A search that writes no entries says 12 where there is half a tank, and where half as much flows; and where more would
// have to flow than there is it finds nothing out.
#[test]
fn no_entries_would_not_do(rt: HostRuntime) -> Result<(), Fail> {
    let line = "solve plant --slots 1 --nodes 0 --workers 1";
    for (plant, status, lines) in [
        (half_tank(), 0, "\nanswer plan\nmargin 6\nbound 6\n"),
        (slow_charge(), 0, "\nanswer plan\nmargin 6\nbound 6\n"),
        (fixed_rate(), 3, "\ncuts 0\nnode 0 void "),
    ] {
        let ended = solved(&rt, rt.alloc(), line, plant)?;
        assert_claims(&rt, &ended, status, lines);
    }
    Ok(())
}

#[test]
fn finds_that_there_is_no_plan(rt: HostRuntime) -> Result<(), Fail> {
    let ended = solved(&rt, rt.alloc(), FULL, fixed_rate())?;
    let lines = "\nanswer infeasible\nmargin none\nbound none\nplan none\ncuts 0\n";
    assert_claims(&rt, &ended, 3, lines);
    Ok(())
}

#[test]
fn writes_what_the_checker_accepts(rt: HostRuntime) -> Result<(), Fail> {
    let alloc = rt.alloc();
    let plant = read_plant(alloc, one_charge().as_bytes())?;
    let answer = solve_alone(alloc, &plant, 1, 45, &FreeGate)?;
    let verdict = check(alloc, &plant, answer.text.as_slice())?;
    assert!(rt; matches!(&verdict, Verdict::Yes(_)));
    Ok(())
}

#[test]
fn writes_rows_that_the_checker_accepts(rt: HostRuntime) -> Result<(), Fail> {
    let alloc = rt.alloc();
    let plant = read_plant(alloc, two_vessels().as_bytes())?;
    let answer = solve_alone(alloc, &plant, 8, 200, &FreeGate)?;
    assert_eq!(rt; answer.status.code(), 0);
    let verdict = check(alloc, &plant, answer.text.as_slice())?;
    assert!(rt; matches!(&verdict, Verdict::Yes(_)));
    Ok(())
}
