//! What `make` answers to a number. The plant of 0 is written as a maker of its own has written it.

use super::runs::{Ended, SOUND, assert_ended, outcome, sink};
use super::samples::made_plant;
use crude_run::make_text;
use std::alloc::{AllocError, Global};
use std::sync::Wait;
use std::test::Fail;
use std::thread::Threads;

/// The first lines of the answer to `make 0 --solve`, up to the margin.
const TRIED: &str =
    "made 0\nsizes 4 1 5 1 11 7200\npoints 29\nbudget 8\nverdict yes\nanswer plan\nmargin ";

/// How a run ends, which reads no file.
fn made(rt: &(impl Threads + Wait + Sync), alloc: Global, line: &str) -> Result<Ended, AllocError> {
    outcome(rt, alloc, line, b"", SOUND)
}

#[test]
fn makes_the_plant_of_a_number(rt: HostRuntime) -> Result<(), Fail> {
    let wanted = format!(in rt.alloc(); "{}\n", made_plant())?;
    let ended = made(&rt, rt.alloc(), "make 0")?;
    assert_ended(&rt, &ended, 0, wanted.as_str());
    Ok(())
}

/// Whether the text goes on as it should, with a margin and a bound that are not below 0.
fn is_tried(text: &str) -> bool {
    let Some(rest) = text.strip_prefix(TRIED) else {
        return false;
    };
    let Some((margin, bound)) = rest.split_once("\nbound ") else {
        return false;
    };
    margin.parse::<u64>().is_ok() && bound.trim_end().parse::<u64>().is_ok()
}

#[test]
fn tries_the_plant_of_a_number(rt: HostRuntime) -> Result<(), Fail> {
    let alloc = rt.alloc();
    let mut out = sink(alloc, SOUND)?;
    assert_eq!(rt; make_text(alloc, 0, true, &mut out).code(), 0);
    let text = str::from_utf8(out.as_slice()).unwrap_or_default();
    assert!(rt; is_tried(text), "{text}");
    Ok(())
}
