use super::samples::timed;
use greedy_plan::greedy;
use plant_model::{Pair, Plant};
use replay_core::Planned;
use sample_plants::{Berthed, OneCharge, one_charge, two_inlets, unloading};
use std::alloc::{AllocError, Global};
use std::test::Fail;

/// The greedy plan of the operations, if it is legal.
///
/// It promises nothing, so that the proofs of the tests do not read what is promised of it.
fn planned(alloc: Global, plant: &Plant, n: u32, ops: &[u8]) -> Result<Option<Planned>, Fail> {
    if n > 1000 || !ops.iter().all(|&v| v < plant.op_count()) {
        return Err("operations of the plant".into());
    }
    Ok(greedy(alloc, plant, n, ops)?)
}

/// The margin of the greedy plan of one charge, asked for twice.
fn twice(alloc: Global, charge: OneCharge, n: u32) -> Result<i64, Fail> {
    let plant = charge.plant(alloc)?;
    match planned(alloc, &plant, n, &[0, 0])? {
        Some(planned) => Ok(planned.margin),
        None => Err("a legal plan".into()),
    }
}

#[test]
fn moves_as_much_as_fits(rt: HostRuntime) -> Result<(), Fail> {
    for (n, margin) in [(1, 12), (40, 12), (0, 0)] {
        assert_eq!(rt; twice(rt.alloc(), one_charge(), n)?, margin);
    }
    Ok(())
}

/// The charge at a rate from `lo` to `hi`.
fn at_rate(lo: i64, hi: i64) -> OneCharge {
    one_charge().rated(Pair { lo, hi }, false)
}

#[test]
fn keeps_the_rate(rt: HostRuntime) -> Result<(), Fail> {
    for (lo, hi, margin) in [
        (0, 1440, 6),
        (2160, 2160, 9),
        (1000, 1000, 0),
        (1000, 1440, 6),
        (0, 0, 0),
    ] {
        assert_eq!(rt; twice(rt.alloc(), at_rate(lo, hi), 40)?, margin);
    }
    Ok(())
}

#[test]
fn each_waits_for_those_before(rt: HostRuntime) -> Result<(), Fail> {
    let plant = two_inlets(rt.alloc())?;
    let planned = planned(rt.alloc(), &plant, 40, &[0, 1, 2])?.ok_or("a legal plan")?;
    assert_eq!(rt; planned.margin, 10);
    assert_eq!(rt;
        planned.plan.as_slice(),
        [timed(0, 0, 1, 5), timed(1, 0, 1, 3), timed(2, 1, 2, 10)].as_slice()
    );
    Ok(())
}

/// Two vessels at one berth, of which each pays.
fn two_vessels(alloc: Global) -> Result<Plant, AllocError> {
    let vessel = Berthed {
        arrival: 0,
        berth: 1,
        demurrage: 1,
    };
    unloading(alloc, 6, &[vessel, vessel])
}

#[test]
fn vessels_keep_their_order(rt: HostRuntime) -> Result<(), Fail> {
    let plant = two_vessels(rt.alloc())?;
    let in_order = planned(rt.alloc(), &plant, 40, &[0, 1])?.ok_or("a legal plan")?;
    assert_eq!(rt; in_order.margin, -6);
    assert!(rt; planned(rt.alloc(), &plant, 40, &[1, 0])?.is_none());
    Ok(())
}
