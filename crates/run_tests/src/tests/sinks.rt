//! What stands in the sink where one of its calls fails.

use super::runs::{Ended, Outside, PIECE, SOUND, assert_ended, outcome};
use super::samples::{one_charge, one_dual};
use std::alloc::{AllocError, Global};
use std::sync::Wait;
use std::test::Fail;
use std::thread::Threads;

// A run on `one_charge` where this call of the sink fails.
fn failed_at(
    rt: &(impl Threads + Wait + Sync),
    alloc: Global,
    call: u32,
) -> Result<Ended, AllocError> {
    let line = "solve plant --slots 1 --nodes 0 --workers 1";
    let failing = Outside {
        write: call,
        ..SOUND
    };
    outcome(rt, alloc, line, one_charge().as_bytes(), failing)
}

// The first so many pieces of a text.
fn pieces(text: &str, count: u32) -> &str {
    text.get(..(count as usize * PIECE as usize))
        .unwrap_or(text)
}

#[test]
fn keeps_the_pieces_before_a_fault(rt: HostRuntime) -> Result<(), Fail> {
    for call in 1..=13 {
        let ended = failed_at(&rt, rt.alloc(), call)?;
        let taken = pieces(one_dual(), call - 1);
        assert_ended(&rt, &ended, 74, taken);
    }
    Ok(())
}

#[test]
fn needs_no_further_call(rt: HostRuntime) -> Result<(), Fail> {
    let ended = failed_at(&rt, rt.alloc(), 14)?;
    assert_ended(&rt, &ended, 0, one_dual());
    Ok(())
}

// The read fails first, and then the sink.
#[test]
fn keeps_the_first_piece_of_a_refusal(rt: HostRuntime) -> Result<(), Fail> {
    let line = "solve plant --slots 1 --nodes 0 --workers 1";
    let failing = Outside {
        read: 1,
        write: 2,
        ..SOUND
    };
    let ended = outcome(&rt, rt.alloc(), line, one_charge().as_bytes(), failing)?;
    assert_ended(&rt, &ended, 74, "read faile");
    Ok(())
}
