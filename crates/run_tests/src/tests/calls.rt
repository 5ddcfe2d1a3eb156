//! Each public call that takes memory, with enough of it.

use super::runs::{SOUND, shelf, sink};
use super::samples::{
    one_charge, one_dual, two_inlets, two_inlets_ledger, two_inlets_plan, yes_of_twelve,
};
use crude_run::{check_files, replay_files, show_file, solve_alone, solve_file_alone};
use outer_edge::FreeGate;
use plant_text::read_plant;
use std::alloc::Global;
use std::test::Fail;

#[test]
fn solves_a_plant(rt: HostRuntime) -> Result<(), Fail> {
    let plant = read_plant(rt.alloc(), one_charge().as_bytes())?;
    let answer = solve_alone(rt.alloc(), &plant, 1, 0, &FreeGate)?;
    assert_eq!(rt; answer.status.code(), 0);
    assert_eq!(rt; answer.text.as_slice(), one_dual().as_bytes());
    Ok(())
}

#[test]
fn solves_a_file(rt: HostRuntime) -> Result<(), Fail> {
    let mut shelf = shelf(rt.alloc(), one_charge().as_bytes(), b"", SOUND)?;
    let mut out = sink(rt.alloc(), SOUND)?;
    let status = solve_file_alone(rt.alloc(), "plant", 1, 0, &mut shelf, &mut out, &FreeGate);
    assert_eq!(rt; status.code(), 0);
    assert_eq!(rt; out.as_slice(), one_dual().as_bytes());
    Ok(())
}

#[test]
fn checks_a_file(rt: HostRuntime) -> Result<(), Fail> {
    let alloc = rt.alloc();
    let mut shelf = shelf(alloc, one_charge().as_bytes(), one_dual().as_bytes(), SOUND)?;
    let mut out = sink(alloc, SOUND)?;
    let status = check_files(alloc, "plant", "dossier", &mut shelf, &mut out);
    assert_eq!(rt; status.code(), 0);
    assert_eq!(rt; out.as_slice(), yes_of_twelve().as_bytes());
    Ok(())
}

#[test]
fn replays_a_file(rt: HostRuntime) -> Result<(), Fail> {
    let alloc = rt.alloc();
    let (plant, plan) = (two_inlets().as_bytes(), two_inlets_plan().as_bytes());
    let mut shelf = shelf(alloc, plant, plan, SOUND)?;
    let mut out = sink(alloc, SOUND)?;
    let status = replay_files(alloc, "plant", "plan", &mut shelf, &mut out);
    assert_eq!(rt; status.code(), 0);
    assert_eq!(rt; out.as_slice(), two_inlets_ledger().as_bytes());
    Ok(())
}

#[test]
fn shows_a_file(rt: HostRuntime) -> Result<(), Fail> {
    let alloc = rt.alloc();
    let mut shelf = shelf(alloc, one_charge().as_bytes(), b"", SOUND)?;
    let mut out = sink(alloc, SOUND)?;
    let status = show_file(alloc, "plant", &mut shelf, &mut out);
    assert_eq!(rt; status.code(), 0);
    assert_eq!(rt;
        out.as_slice().strip_suffix(b"\n"),
        Some(one_charge().as_bytes())
    );
    Ok(())
}
