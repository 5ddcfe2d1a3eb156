//! What `solve` answers to the plant file that it reads.

use super::runs::{Ended, Outside, SOUND, assert_ended, outcome};
use super::samples::{late_vessel, one_berth, one_charge, one_dual, two_berths, two_vessels, with};
use std::alloc::{AllocError, Global};
use std::process::Abort;
use std::sync::Wait;
use std::test::Fail;
use std::thread::Threads;

const SOLVE: &str = "solve plant --slots 1 --nodes 0 --workers 1";

fn solved(
    rt: &(impl Threads + Wait + Sync),
    alloc: Global,
    plant: &[u8],
) -> Result<Ended, AllocError> {
    outcome(rt, alloc, SOLVE, plant, SOUND)
}

#[test]
fn plans_one_charge_without_a_node(rt: HostRuntime) -> Result<(), Fail> {
    let ended = solved(&rt, rt.alloc(), one_charge().as_bytes())?;
    assert_ended(&rt, &ended, 0, one_dual());
    Ok(())
}

// A part of the plant, what stands in its place, and what is answered.
type Case = (&'static str, &'static str, &'static str);

fn one_charge_cases() -> &'static [Case] {
    &[
        (r#"],"vessels""#, r#",],"vessels""#, "refused plant json\n"),
        (
            r#""horizon":2"#,
            r#""horizon":2.0"#,
            "refused plant shape plant 0 horizon\n",
        ),
        (
            r#":2,"properties":[],"crudes":[{"name":"A","margin":3"#,
            r#":0,"properties":[],"crudes":[{"name":"A","margin":1000001"#,
            "refused plant 1 plant 0 horizon\n",
        ),
    ]
}

fn two_vessels_cases() -> &'static [Case] {
    &[(
        r#""arrival":0,"amounts":[1000000,0]},{"name":"V2","arrival":5760"#,
        r#""arrival":5,"amounts":[1000000,0]},{"name":"V2","arrival":3"#,
        "refused plant 16 vessels 2 arrival\n",
    )]
}

fn two_berths_cases() -> &'static [Case] {
    &[
        (r#","berth":1"#, "", "refused plant shape vessels 1 berth\n"),
        (
            r#""berth":1"#,
            r#""berth":13"#,
            "refused plant 23 vessels 1 berth\n",
        ),
    ]
}

fn one_berth_cases() -> &'static [Case] {
    &[(
        r#""amounts":[4]"#,
        r#""amounts":[4],"berth":1"#,
        "refused plant shape vessels 1 entry\n",
    )]
}

fn late_vessel_cases() -> &'static [Case] {
    &[
        (
            r#""demurrage":5"#,
            r#""demurrage":1001"#,
            "refused plant 24 vessels 1 demurrage\n",
        ),
        (
            r#""format":3"#,
            r#""format":4"#,
            "refused plant shape plant 0 format\n",
        ),
    ]
}

fn cases() -> [(&'static str, &'static [Case]); 5] {
    [
        (one_charge(), one_charge_cases()),
        (two_vessels(), two_vessels_cases()),
        (two_berths(), two_berths_cases()),
        (one_berth(), one_berth_cases()),
        (late_vessel(), late_vessel_cases()),
    ]
}

/// How `solve` of the plant with the other part ends.
fn solved_with(
    rt: &(impl Threads + Wait + Sync),
    alloc: Global,
    plant: &str,
    case: Case,
) -> Result<Ended, Fail> {
    let changed = with(alloc, plant, case.0, case.1)?;
    Ok(solved(rt, alloc, changed.as_bytes())?)
}

fn assert_refused(
    rt: &(impl Abort + Threads + Wait + Sync),
    alloc: Global,
    plant: &str,
    refused: &[Case],
) -> Result<(), Fail> {
    for case in refused {
        let ended = solved_with(rt, alloc, plant, *case)?;
        assert_ended(rt, &ended, 65, case.2);
    }
    Ok(())
}

#[test]
fn refuses_plants(rt: HostRuntime) -> Result<(), Fail> {
    for (plant, refused) in cases() {
        assert_refused(&rt, rt.alloc(), plant, refused)?;
    }
    Ok(())
}

#[test]
fn cannot_read_what_is_not_there(rt: HostRuntime) -> Result<(), Fail> {
    let line = "solve other --slots 1 --nodes 0 --workers 1";
    let ended = outcome(&rt, rt.alloc(), line, one_charge().as_bytes(), SOUND)?;
    assert_ended(&rt, &ended, 66, "read failed 1\n");
    Ok(())
}

#[test]
fn tells_that_a_read_failed(rt: HostRuntime) -> Result<(), Fail> {
    let failing = Outside { read: 1, ..SOUND };
    let ended = outcome(&rt, rt.alloc(), SOLVE, one_charge().as_bytes(), failing)?;
    assert_ended(&rt, &ended, 66, "read failed 1\n");
    Ok(())
}

// A file of so many blanks.
fn blanks(alloc: Global, count: usize) -> Result<Vec<u8>, AllocError> {
    vec![in alloc; b' '; count]
}

#[test]
fn reads_no_more_than_the_limit(rt: HostRuntime) -> Result<(), Fail> {
    let alloc = rt.alloc();
    let ended = solved(&rt, alloc, &blanks(alloc, 4_194_304)?)?;
    assert_ended(&rt, &ended, 65, "refused plant json\n");
    let ended = solved(&rt, alloc, &blanks(alloc, 4_194_305)?)?;
    assert_ended(&rt, &ended, 67, "too long 1\n");
    Ok(())
}
