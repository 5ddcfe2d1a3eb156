//! A shelf that tells nothing of its files, and finds the second too long.

use super::runs::{SOUND, sink, words};
use super::samples::one_charge;
use crude_run::run;
use outer_edge::{FreeGate, Shelf, ShelfFault};
use std::alloc::Global;
use std::test::Fail;

/// It has the same plant under every name, and counts its reads.
#[derive(Drop)]
struct LongShelf {
    reads: u32,
    longs: u64,
}

impl Shelf for LongShelf {
    ghost use Rattle.std.specs.Prelude.{None};

    ghost told = { λ shelf name. None };

    ghost faults = { λ shelf name. 0 };

    ghost longs = { λ shelf name limit. shelf.longs };

    fn read(&mut self, alloc: Global, _name: &str, limit: u64) -> Result<Vec<u8>, ShelfFault> {
        self.reads = self.reads.saturating_add(1);
        let plant = one_charge().as_bytes();
        if self.reads == 2 || plant.len() as u64 > limit {
            self.longs = self.longs.saturating_add(1);
            return Err(ShelfFault::TooLong);
        }
        Vec::from_slice(alloc, plant).map_err(|_| ShelfFault::Memory)
    }
}

#[test]
fn finds_the_dossier_too_long(rt: HostRuntime) -> Result<(), Fail> {
    let alloc = rt.alloc();
    let mut shelf = LongShelf { reads: 0, longs: 0 };
    let mut out = sink(alloc, SOUND)?;
    let line = words(alloc, "check plant dossier")?;
    let status = run(&rt, alloc, &line, &mut shelf, &mut out, &FreeGate);
    assert_eq!(rt; status.code(), 67);
    assert_eq!(rt; out.as_slice(), b"too long 2\n".as_slice());
    Ok(())
}
