//! What `solve` answers by several workers.

use super::runs::{
    Ended, Outside, SOUND, assert_claims, assert_ended, outcome, outcome_by, outcome_with, shelf,
    sink,
};
use super::samples::{one_charge, two_vessels, yes_of_twelve};
use command_line::Ask;
use crude_run::solve_file;
use outer_edge::{FreeGate, Gate};
use std::alloc::{AllocError, Global};
use std::process::Abort;
use std::sync::Wait;
use std::sync::atomic::{AtomicU64, Ordering};
use std::test::Fail;
use std::thread::Threads;

// What is found of `one_charge` with one slot, whoever searches.
const LINES: &str = "\nanswer plan\nmargin 12\nbound 12\nplan 1\nop 1 c1 0 2 4\ncuts 0\n";

#[test]
fn finds_what_one_worker_finds(rt: HostRuntime) -> Result<(), Fail> {
    for line in [
        "solve plant --slots 1 --nodes 45 --workers 2",
        "solve plant --slots 1 --nodes 45 --workers 16",
    ] {
        let solved = outcome(&rt, rt.alloc(), line, one_charge().as_bytes(), SOUND)?;
        assert_claims(&rt, &solved, 0, LINES);
    }
    Ok(())
}

#[test]
fn writes_what_the_checker_accepts(rt: HostRuntime) -> Result<(), Fail> {
    let (alloc, plant) = (rt.alloc(), two_vessels().as_bytes());
    let line = "solve plant --slots 8 --nodes 200 --workers 4";
    let solved = outcome(&rt, alloc, line, plant, SOUND)?;
    assert_claims(&rt, &solved, 0, "\nanswer plan\n");
    let line = "check plant dossier";
    let checked = outcome_with(&rt, alloc, line, plant, solved.written(), SOUND)?;
    assert_claims(&rt, &checked, 0, "yes\nanswer plan\n");
    Ok(())
}

#[test]
fn solves_a_file(rt: HostRuntime) -> Result<(), Fail> {
    let mut shelf = shelf(rt.alloc(), one_charge().as_bytes(), b"", SOUND)?;
    let mut out = sink(rt.alloc(), SOUND)?;
    let ask = Ask {
        slots: 1,
        nodes: 45,
        workers: 2,
    };
    let status = solve_file(
        &rt,
        rt.alloc(),
        "plant",
        ask,
        &mut shelf,
        &mut out,
        &FreeGate,
    );
    assert_eq!(rt; status.code(), 0);
    Ok(())
}

#[test]
fn writes_nothing_where_the_first_write_fails(rt: HostRuntime) -> Result<(), Fail> {
    let line = "solve plant --slots 1 --nodes 0 --workers 2";
    let failing = Outside { write: 1, ..SOUND };
    let solved = outcome(&rt, rt.alloc(), line, one_charge().as_bytes(), failing)?;
    assert_ended(&rt, &solved, 74, "");
    Ok(())
}

// How many turns are spent over all holds of a gate.
const TURNS: u64 = 1_000_000;

/// What a call of a gate waits for.
#[derive(Clone, Copy)]
enum Hold {
    /// That two workers are inside at one moment: each call of a worker but the first, and those of the first after its
    /// tenth ticket.
    TwoInside,
    /// That the next worker has called: the first call of each worker.
    NextWorker,
}

/// Holds workers back until what they wait for is there, or its turns are spent.
#[derive(Drop)]
struct Holding {
    hold: Hold,
    // how many workers are inside
    inside: AtomicU64,
    // whether two were
    met: AtomicU64,
    // one above the greatest number of a worker that has called
    called: AtomicU64,
    // the turns that were spent
    turns: AtomicU64,
}

impl Holding {
    fn new(hold: Hold) -> Holding {
        Holding {
            hold,
            inside: AtomicU64::new(0),
            met: AtomicU64::new(0),
            called: AtomicU64::new(0),
            turns: AtomicU64::new(0),
        }
    }

    /// Whether such a call is held.
    fn holds(&self, worker: u32, drawn: u32) -> bool {
        match self.hold {
            Hold::TwoInside => worker > 0 || drawn >= 10,
            Hold::NextWorker => drawn == 0,
        }
    }

    /// Whether what it waits for is there.
    fn is_there(&self, worker: u32) -> bool {
        match self.hold {
            Hold::TwoInside => {
                if self.inside.load(Ordering::SeqCst) >= 2 {
                    self.met.store(1, Ordering::SeqCst);
                }
                self.met.load(Ordering::SeqCst) == 1
            }
            Hold::NextWorker => self.called.load(Ordering::SeqCst) > u64::from(worker) + 1,
        }
    }

    /// Waits for it.
    fn wait(&self, worker: u32) {
        for _ in 0..TURNS {
            if self.is_there(worker) || self.turns.fetch_add(1, Ordering::SeqCst) >= TURNS {
                return;
            }
        }
    }
}

impl Gate for Holding {
    fn ticket(&self, worker: u32, drawn: u32) {
        self.inside.fetch_add(1, Ordering::SeqCst);
        self.called
            .fetch_max(u64::from(worker) + 1, Ordering::SeqCst);
        if self.holds(worker, drawn) {
            self.wait(worker);
        }
        self.inside.fetch_sub(1, Ordering::SeqCst);
    }
}

/// How a run of four workers ends that are held so.
fn held<R: Threads + Wait + Sync>(rt: &R, alloc: Global, hold: Hold) -> Result<Ended, AllocError> {
    let line = "solve plant --slots 1 --nodes 45 --workers 4";
    let shelf = shelf(alloc, one_charge().as_bytes(), b"", SOUND)?;
    outcome_by(rt, alloc, line, shelf, SOUND, &Holding::new(hold))
}

/// Four workers that are held so find what one finds, and the checker accepts it.
fn assert_held<R: Abort + Threads + Wait + Sync>(
    rt: &R,
    alloc: Global,
    hold: Hold,
) -> Result<(), Fail> {
    let solved = held(rt, alloc, hold)?;
    assert_claims(rt, &solved, 0, LINES);
    let (line, plant) = ("check plant dossier", one_charge().as_bytes());
    let checked = outcome_with(rt, alloc, line, plant, solved.written(), SOUND)?;
    assert_ended(rt, &checked, 0, yes_of_twelve());
    Ok(())
}

#[test]
fn workers_may_be_held_until_two_meet(rt: HostRuntime) -> Result<(), Fail> {
    assert_held(&rt, rt.alloc(), Hold::TwoInside)
}

#[test]
fn workers_may_be_held_until_the_next_has_come(rt: HostRuntime) -> Result<(), Fail> {
    assert_held(&rt, rt.alloc(), Hold::NextWorker)
}
