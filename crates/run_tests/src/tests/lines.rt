//! Lines of words that are refused, whatever the files are.

use super::runs::{SOUND, outcome};
use super::samples::{one_charge, one_dual};
use std::alloc::{AllocError, Global};
use std::sync::Wait;
use std::test::Fail;
use std::thread::Threads;

fn is_refused(
    rt: &(impl Threads + Wait + Sync),
    alloc: Global,
    line: &str,
) -> Result<bool, AllocError> {
    let ended = outcome(rt, alloc, line, one_charge().as_bytes(), SOUND)?;
    Ok(ended.is(64, "refused words\n"))
}

#[test]
fn refuses_words(rt: HostRuntime) -> Result<(), Fail> {
    for line in [
        "",
        "--help",
        "solve",
        "solve -plant --slots 1 --nodes 0 --workers 1",
        "solve plant --slots 0 --nodes 0 --workers 1",
        "solve plant --slots 41 --nodes 0 --workers 1",
        "solve plant --slots 01 --nodes 0 --workers 1",
        "solve plant --slots 1 --nodes 65536 --workers 1",
        "solve plant --slots 1 --nodes 0 --workers 0",
        "solve plant --slots 1 --nodes 0 --workers 17",
        "solve plant --slots 1 --nodes 0 --workers 1 more",
        "check",
        "check plant",
        "check -plant dossier",
        "check plant -",
        "check plant dossier more",
        "Check plant dossier",
        "replay plant",
        "replay plant -plan",
        "replay plant plan more",
        "show",
        "show -plant",
        "show plant more",
        "make",
        "make 007",
        "make 4294967296",
        "make 0 --solve more",
    ] {
        assert!(rt; is_refused(&rt, rt.alloc(), line)?, "{line}");
    }
    Ok(())
}

// Until these commands are built.
#[test]
fn refuses_words_so_far(rt: HostRuntime) -> Result<(), Fail> {
    for line in [
        "root plant --slots 1",
        "replan plant plan --at 1 --slots 2 --nodes 45",
        "recheck plant plan dossier --at 1",
    ] {
        assert!(rt; is_refused(&rt, rt.alloc(), line)?, "{line}");
    }
    Ok(())
}

#[test]
fn takes_options_in_any_order(rt: HostRuntime) -> Result<(), Fail> {
    for line in [
        "solve plant --slots 1 --workers 1 --nodes 0",
        "solve plant --workers 1 --nodes 0 --slots 1",
    ] {
        let ended = outcome(&rt, rt.alloc(), line, one_charge().as_bytes(), SOUND)?;
        assert!(rt; ended.is(0, one_dual()), "{line}");
    }
    Ok(())
}
