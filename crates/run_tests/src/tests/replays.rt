//! What `replay` answers.

use super::runs::{Ended, Outside, SOUND, assert_claims, assert_ended, outcome_with};
use super::samples::{
    late_vessel, one_berth, one_charge, two_berths, two_inlets, two_inlets_ledger, two_inlets_plan,
    two_vessels,
};
use std::alloc::{AllocError, Global};
use std::process::Abort;
use std::sync::Wait;
use std::test::Fail;
use std::thread::Threads;

const REPLAY: &str = "replay plant plan";

fn replayed(
    rt: &(impl Threads + Wait + Sync),
    alloc: Global,
    plant: &str,
    plan: &[u8],
) -> Result<Ended, AllocError> {
    outcome_with(rt, alloc, REPLAY, plant.as_bytes(), plan, SOUND)
}

// A plan, the status, and lines that stand in the answer.
type Case = (&'static str, u8, &'static str);

fn one_charge_cases() -> &'static [Case] {
    &[
        ("", 0, "legal\nmargin 0\noperations 0\nunit U 0 0 0 0\n"),
        ("op 1 c1 0 1 2\n", 0, "legal\nmargin 6\noperations 1\n"),
        ("op 1 c1 0 1 3\n", 1, "illegal 5 1\n"),
        ("op 1 c1 0 1 0\n", 1, "illegal 4 1\n"),
        ("op 1 zz 0 1 2\n", 1, "illegal 1 1\n"),
        ("op 2 c1 0 1 2\n", 68, "refused plan line 1\n"),
        ("op 1 c1 0 1 2\nop 2 c1 1 2 2", 68, "refused plan line 2\n"),
    ]
}

fn two_inlets_cases() -> &'static [Case] {
    &[
        (
            "op 1 T1 0 2 4\nop 2 T2 1 3 4\n",
            0,
            "\nto C1 10 10\nunit U 0 0 0 0\n",
        ),
        (
            "op 1 T2 0 2 4\nop 2 T1 1 3 4\n",
            0,
            "\nto C1 10 10\nunit U 0 0 0 0\n",
        ),
        ("op 1 T1 0 2 4\nop 2 T2 1 3 5\n", 1, "illegal 10 2\n"),
        ("op 1 T2 0 2 5\nop 2 T1 1 3 4\n", 1, "illegal 10 2\n"),
        ("op 1 T1 0 2 4\nop 2 G 1 3 6\n", 1, "illegal 7 2\n"),
    ]
}

fn two_vessels_cases() -> &'static [Case] {
    &[(
        "op 1 u1 0 2880 1000000\nop 2 c1 0 5760 500000\nop 3 u2 5760 8640 1000000\nop 4 c2 5760 11520 500000\n",
        0,
        "legal\nmargin 7500000\noperations 4\n",
    )]
}

fn two_berths_cases() -> &'static [Case] {
    &[
        ("op 1 u1 0 2 4\nop 2 u2 0 2 4\n", 0, "legal\nmargin 0\n"),
        ("op 1 u2 0 2 4\nop 2 u1 0 2 4\n", 0, "legal\nmargin 0\n"),
        ("op 1 u2 0 1 2\nop 2 u1 1 2 2\n", 1, "illegal 12 0\n"),
    ]
}

fn one_berth_cases() -> &'static [Case] {
    &[
        ("op 1 u1 0 2 4\nop 2 u2 0 2 4\n", 1, "illegal 7 2\n"),
        ("op 1 u2 0 2 4\nop 2 u1 0 2 4\n", 1, "illegal 7 2\n"),
        ("op 1 u2 0 1 2\nop 2 u1 1 2 2\n", 1, "illegal 8 2\n"),
    ]
}

fn late_vessel_cases() -> &'static [Case] {
    &[
        ("op 1 u1 1 3 4\n", 0, "legal\nmargin -10\n"),
        ("op 1 u1 2 4 4\n", 0, "legal\nmargin -15\n"),
    ]
}

fn cases() -> [(&'static str, &'static [Case]); 6] {
    [
        (one_charge(), one_charge_cases()),
        (two_inlets(), two_inlets_cases()),
        (two_vessels(), two_vessels_cases()),
        (two_berths(), two_berths_cases()),
        (one_berth(), one_berth_cases()),
        (late_vessel(), late_vessel_cases()),
    ]
}

fn assert_replays(
    rt: &(impl Abort + Threads + Wait + Sync),
    alloc: Global,
    plant: &str,
    plans: &[Case],
) -> Result<(), Fail> {
    for (plan, status, lines) in plans {
        let ended = replayed(rt, alloc, plant, plan.as_bytes())?;
        assert_claims(rt, &ended, *status, lines);
    }
    Ok(())
}

#[test]
fn replays_plans(rt: HostRuntime) -> Result<(), Fail> {
    for (plant, plans) in cases() {
        assert_replays(&rt, rt.alloc(), plant, plans)?;
    }
    Ok(())
}

#[test]
fn writes_the_ledger(rt: HostRuntime) -> Result<(), Fail> {
    let ended = replayed(&rt, rt.alloc(), two_inlets(), two_inlets_plan().as_bytes())?;
    assert_ended(&rt, &ended, 0, two_inlets_ledger());
    Ok(())
}

// A plan file of so many blanks.
fn blanks(
    rt: &(impl Threads + Wait + Sync),
    alloc: Global,
    count: usize,
) -> Result<Ended, AllocError> {
    let plan = vec![in alloc; b' '; count]?;
    replayed(rt, alloc, one_charge(), &plan)
}

#[test]
fn reads_no_more_of_a_plan_than_the_limit(rt: HostRuntime) -> Result<(), Fail> {
    for (count, status, answer) in [
        (4_194_304, 68, "refused plan line 1\n"),
        (4_194_305, 67, "too long 2\n"),
    ] {
        let ended = blanks(&rt, rt.alloc(), count)?;
        assert_ended(&rt, &ended, status, answer);
    }
    Ok(())
}

// The plant is refused before the plan is read; the second read may fail.
#[test]
fn reads_the_plant_first(rt: HostRuntime) -> Result<(), Fail> {
    for (line, plant, read, status, answer) in [
        (
            "replay plant other",
            "{}",
            0,
            65,
            "refused plant shape plant 0 format\n",
        ),
        ("replay plant other", one_charge(), 0, 66, "read failed 2\n"),
        (REPLAY, one_charge(), 2, 66, "read failed 2\n"),
        (REPLAY, one_charge(), 1, 66, "read failed 1\n"),
    ] {
        let outside = Outside { read, ..SOUND };
        let ended = outcome_with(&rt, rt.alloc(), line, plant.as_bytes(), b"", outside)?;
        assert_ended(&rt, &ended, status, answer);
    }
    Ok(())
}
