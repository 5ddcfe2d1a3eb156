//! What `show` answers.

use super::runs::{Ended, SOUND, assert_ended, outcome};
use super::samples::{late_vessel, one_berth, one_charge, two_berths, two_inlets, two_vessels};
use std::alloc::{AllocError, Global};
use std::sync::Wait;
use std::test::Fail;
use std::thread::Threads;

/// The text with a blank on both sides of each mark of JSON.
fn with_blanks(alloc: Global, text: &str) -> Result<Vec<u8>, AllocError> {
    let mut spaced = Vec::new(alloc);
    for byte in text.as_bytes() {
        if matches!(*byte, b'{' | b'}' | b'[' | b']' | b',' | b':') {
            spaced.extend_from_slice(&[b' ', *byte, b' '])?;
        } else {
            spaced.push(*byte)?;
        }
    }
    Ok(spaced)
}

/// How `show` of the text with blanks ends.
fn shown(
    rt: &(impl Threads + Wait + Sync),
    alloc: Global,
    text: &str,
) -> Result<Ended, AllocError> {
    let plant = with_blanks(alloc, text)?;
    outcome(rt, alloc, "show plant", &plant, SOUND)
}

#[test]
fn shows_the_one_text_of_a_plant(rt: HostRuntime) -> Result<(), Fail> {
    for plant in [
        one_charge(),
        two_inlets(),
        two_vessels(),
        two_berths(),
        one_berth(),
        late_vessel(),
    ] {
        let wanted = format!(in rt.alloc(); "{plant}\n")?;
        let ended = shown(&rt, rt.alloc(), plant)?;
        assert_ended(&rt, &ended, 0, wanted.as_str());
    }
    Ok(())
}
