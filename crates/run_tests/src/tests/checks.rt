//! What `check` answers, of `one_charge` and the dossiers on it.

use super::runs::{Ended, Outside, SOUND, assert_claims, assert_ended, outcome, outcome_with};
use super::samples::{
    fixed_rate, late_first, one_charge, one_charge_open, one_dual, split_once, two_inlets,
    two_units, two_vessels, with, yes_of_twelve,
};
use std::alloc::{AllocError, Global};
use std::process::Abort;
use std::sync::Wait;
use std::test::Fail;
use std::thread::Threads;

const CHECK: &str = "check plant dossier";

fn checked(
    rt: &(impl Threads + Wait + Sync),
    alloc: Global,
    dossier: &[u8],
) -> Result<Ended, AllocError> {
    outcome_with(rt, alloc, CHECK, one_charge().as_bytes(), dossier, SOUND)
}

#[test]
fn says_yes_of_one_dual(rt: HostRuntime) -> Result<(), Fail> {
    let ended = checked(&rt, rt.alloc(), one_dual().as_bytes())?;
    assert_ended(&rt, &ended, 0, yes_of_twelve());
    Ok(())
}

#[test]
fn says_yes_of_split_once(rt: HostRuntime) -> Result<(), Fail> {
    let ended = checked(&rt, rt.alloc(), split_once().as_bytes())?;
    assert_ended(&rt, &ended, 0, yes_of_twelve());
    Ok(())
}

#[test]
fn says_yes_of_what_solve_writes(rt: HostRuntime) -> Result<(), Fail> {
    let line = "solve plant --slots 1 --nodes 45 --workers 1";
    let solved = outcome(&rt, rt.alloc(), line, one_charge().as_bytes(), SOUND)?;
    let ended = checked(&rt, rt.alloc(), solved.written())?;
    assert_ended(&rt, &ended, 0, yes_of_twelve());
    Ok(())
}

// The plan of `fixed_rate` would have to run at every minute, and there is not enough crude.
#[test]
fn says_yes_where_there_is_no_plan(rt: HostRuntime) -> Result<(), Fail> {
    let alloc = rt.alloc();
    let plant = fixed_rate().as_bytes();
    let line = "solve plant --slots 1 --nodes 45 --workers 1";
    let solved = outcome(&rt, alloc, line, plant, SOUND)?;
    let ended = outcome_with(&rt, alloc, CHECK, plant, solved.written(), SOUND)?;
    let answer = "yes\nanswer infeasible\nmargin none\nbound none\n";
    assert_ended(&rt, &ended, 0, answer);
    Ok(())
}

#[test]
fn says_yes_of_a_bound_alone(rt: HostRuntime) -> Result<(), Fail> {
    let ended = checked(&rt, rt.alloc(), one_charge_open().as_bytes())?;
    let answer = "yes\nanswer open\nmargin none\nbound 12\n";
    assert_ended(&rt, &ended, 0, answer);
    Ok(())
}

// A part of the dossier, what stands in its place, and what is answered.
type Case = (&'static str, &'static str, &'static str);

fn single_box_cases() -> &'static [Case] {
    &[
        ("bound 12", "bound 11", "no 15 7\n"),
        ("bound 12", "bound 13", "no 15 7\n"),
        ("dual 1", "dual 1 1.1.0.0.0=4294967297", "no 9 11\n"),
        ("c1 0 2 4", "c1 0 1 3", "no 17 9\n"),
        ("c1 0 2 4", "c1 0 2 3", "no 18 6\n"),
        ("answer plan", "answer infeasible", "no 16 5\n"),
    ]
}

fn divided_box_cases() -> &'static [Case] {
    &[
        ("node 1 dual 1\n", "", "no 1 12\n"),
        ("split 0 1 ops", "split 1 1 ops", "no 4 11\n"),
        ("1 dual 1", "1 split 0 1 volume 4", "no 4 12\n"),
        ("1 dual 1", "1 point", "no 8 12\n"),
        ("2 point", "2 dead 1", "no 7 13\n"),
    ]
}

/// How `check` of the dossier with the other part ends, against this plant.
fn checked_with(
    rt: &(impl Threads + Wait + Sync),
    alloc: Global,
    plant: &str,
    file: &str,
    part: &str,
    other: &str,
) -> Result<Ended, Fail> {
    let changed = with(alloc, file, part, other)?;
    let ended = outcome_with(
        rt,
        alloc,
        CHECK,
        plant.as_bytes(),
        changed.as_bytes(),
        SOUND,
    )?;
    Ok(ended)
}

fn assert_refused(
    rt: &(impl Abort + Threads + Wait + Sync),
    alloc: Global,
    plant: &str,
    file: &str,
    refused: &[Case],
) -> Result<(), Fail> {
    for (part, other, answer) in refused {
        let ended = checked_with(rt, alloc, plant, file, part, other)?;
        assert_ended(rt, &ended, 1, answer);
    }
    Ok(())
}

#[test]
fn says_no_of_a_single_box(rt: HostRuntime) -> Result<(), Fail> {
    assert_refused(
        &rt,
        rt.alloc(),
        one_charge(),
        one_dual(),
        single_box_cases(),
    )
}

#[test]
fn says_no_of_a_divided_box(rt: HostRuntime) -> Result<(), Fail> {
    assert_refused(
        &rt,
        rt.alloc(),
        one_charge(),
        split_once(),
        divided_box_cases(),
    )
}

// Its starts fall from slot to slot: in the order of time no leaf had a value, and the bound would be none.
#[test]
fn reads_points_by_slots(rt: HostRuntime) -> Result<(), Fail> {
    let (plant, dossier) = (two_units().as_bytes(), late_first().as_bytes());
    let ended = outcome_with(&rt, rt.alloc(), CHECK, plant, dossier, SOUND)?;
    assert_ended(&rt, &ended, 0, "yes\nanswer plan\nmargin -2\nbound -2\n");
    Ok(())
}

fn late_first_cases() -> &'static [Case] {
    &[
        (
            "op 1 c2 0 1 1\nop 2 c1 1 2 1",
            "op 1 c1 1 2 1\nop 2 c2 0 1 1",
            "no 17 10\n",
        ),
        ("24 point", "24 void", "no 14 36\n"),
        ("24 point", "24 dual 1", "no 15 7\n"),
        ("24 point", "24 dead 2", "no 7 36\n"),
        ("9 dead 2", "9 dead 1", "no 7 21\n"),
        ("6 void 1.2.0.0.0=1 ", "6 void ", "no 14 18\n"),
        ("bound -2", "bound none", "no 15 7\n"),
    ]
}

#[test]
fn says_no_of_a_late_first_charge(rt: HostRuntime) -> Result<(), Fail> {
    assert_refused(
        &rt,
        rt.alloc(),
        two_units(),
        late_first(),
        late_first_cases(),
    )
}

/// Whether `one_dual` without this line and those below it is refused at it.
fn misses_line(rt: &(impl Threads + Wait + Sync), alloc: Global, line: u32) -> Result<bool, Fail> {
    let mut cut = String::new(alloc);
    let kept = (line as usize).saturating_sub(1);
    for part in one_dual().split_inclusive('\n').take(kept) {
        cut.push_str(part)?;
    }
    let answer = format!(in alloc; "no 1 {line}\n")?;
    Ok(checked(rt, alloc, cut.as_bytes())?.is(1, answer.as_str()))
}

#[test]
fn misses_the_next_line(rt: HostRuntime) -> Result<(), Fail> {
    for line in 1..=12 {
        assert!(rt; misses_line(&rt, rt.alloc(), line)?, "{line}");
    }
    Ok(())
}

// The plant is refused before the dossier is read.
#[test]
fn refuses_the_plant_first(rt: HostRuntime) -> Result<(), Fail> {
    let ended = outcome(&rt, rt.alloc(), "check dossier other", b"", SOUND)?;
    assert_ended(&rt, &ended, 65, "refused plant json\n");
    Ok(())
}

// The root of `two_inlets` could earn no more than 10.
#[test]
fn says_no_of_a_dossier_on_another_plant(rt: HostRuntime) -> Result<(), Fail> {
    let (plant, dossier) = (two_inlets().as_bytes(), one_dual().as_bytes());
    let ended = outcome_with(&rt, rt.alloc(), CHECK, plant, dossier, SOUND)?;
    assert_ended(&rt, &ended, 1, "no 15 7\n");
    Ok(())
}

// Three divisions reach no point of `two_vessels`, but a plan is built.
#[test]
fn says_yes_of_a_plan_of_a_whole_plant(rt: HostRuntime) -> Result<(), Fail> {
    let plant = two_vessels().as_bytes();
    let line = "solve plant --slots 8 --nodes 3 --workers 1";
    let solved = outcome(&rt, rt.alloc(), line, plant, SOUND)?;
    assert_claims(&rt, &solved, 0, "\nanswer plan\n");
    let ended = outcome_with(&rt, rt.alloc(), CHECK, plant, solved.written(), SOUND)?;
    assert_claims(&rt, &ended, 0, "yes\nanswer plan\nmargin 1");
    Ok(())
}

/// How `check` of `one_dual` ends where this is outside.
fn ended_by(
    rt: &(impl Threads + Wait + Sync),
    alloc: Global,
    line: &str,
    outside: Outside,
) -> Result<Ended, AllocError> {
    let plant = one_charge().as_bytes();
    outcome_with(rt, alloc, line, plant, one_dual().as_bytes(), outside)
}

#[test]
fn tells_which_read_failed(rt: HostRuntime) -> Result<(), Fail> {
    for (line, read, answer) in [
        (CHECK, 1, "read failed 1\n"),
        (CHECK, 2, "read failed 2\n"),
        ("check plant other", 0, "read failed 2\n"),
        ("check other dossier", 0, "read failed 1\n"),
    ] {
        let outside = Outside {
            read,
            piece: 4096,
            ..SOUND
        };
        let ended = ended_by(&rt, rt.alloc(), line, outside)?;
        assert_ended(&rt, &ended, 66, answer);
    }
    Ok(())
}

#[test]
fn writes_byte_by_byte(rt: HostRuntime) -> Result<(), Fail> {
    let outside = Outside { piece: 1, ..SOUND };
    let ended = ended_by(&rt, rt.alloc(), CHECK, outside)?;
    assert_ended(&rt, &ended, 0, yes_of_twelve());
    Ok(())
}

// The first so many bytes of the answer.
fn bytes(count: u32) -> &'static str {
    let text = yes_of_twelve();
    text.get(..count as usize).unwrap_or(text)
}

#[test]
fn keeps_the_bytes_before_a_fault(rt: HostRuntime) -> Result<(), Fail> {
    for write in 1..=35 {
        let outside = Outside {
            write,
            piece: 1,
            ..SOUND
        };
        let ended = ended_by(&rt, rt.alloc(), CHECK, outside)?;
        assert_ended(&rt, &ended, 74, bytes(write - 1));
    }
    Ok(())
}

#[test]
fn keeps_the_pieces_before_a_fault(rt: HostRuntime) -> Result<(), Fail> {
    let ended = ended_by(&rt, rt.alloc(), CHECK, Outside { write: 3, ..SOUND })?;
    assert_ended(&rt, &ended, 74, "yes\nanswer plan\nmarg");
    Ok(())
}

// Reading and writing fail.
#[test]
fn writes_nothing_where_all_fails(rt: HostRuntime) -> Result<(), Fail> {
    let outside = Outside {
        read: 1,
        write: 1,
        ..SOUND
    };
    let ended = ended_by(&rt, rt.alloc(), CHECK, outside)?;
    assert_ended(&rt, &ended, 74, "");
    Ok(())
}
