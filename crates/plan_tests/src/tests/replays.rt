ghost use Rattle.std.specs.Prelude.{◌<◌};
ghost use Rattle.plant_model.specs.Parts.{place_count_of};

use super::samples::timed;
use plant_model::{Pair, Plant};
use replay_core::{Broken, Order, Replay, ReplayFault, Timed, replay, replay_in};
use sample_plants::{Berthed, late_vessel, one_charge, unloading};
use std::alloc::{AllocError, Global};
use std::process::Abort;
use std::test::Fail;

/// That rule is the first that is broken, there.
fn broken(rule: u8, at: u32) -> Result<i64, ReplayFault> {
    Err(ReplayFault::Rule(Broken { rule, at }))
}

/// The margin of the plan, or the first rule that it breaks.
fn margin(alloc: Global, plant: &Plant, plan: &[Timed]) -> Result<i64, ReplayFault> {
    if plan.len() > 1000 {
        return Err(ReplayFault::Memory);
    }
    match replay(alloc, plant, plan) {
        Ok(outcome) => Ok(outcome.margin),
        Err(fault) => Err(fault),
    }
}

fn sample(alloc: Global, rate: Pair, continuous: bool) -> Result<Plant, AllocError> {
    one_charge().rated(rate, continuous).plant(alloc)
}

#[test]
fn replays_one_charge(rt: HostRuntime) -> Result<(), Fail> {
    let alloc = rt.alloc();
    let plant = sample(alloc, Pair { lo: 0, hi: 2880 }, false)?;
    for (op, minutes, volume, wanted) in [
        (0, 1, 2, Ok(6)),
        (0, 2, 4, Ok(12)),
        (0, 1, 3, broken(5, 1)),
        (0, 1, 0, broken(4, 1)),
        (255, 1, 2, broken(1, 1)),
    ] {
        let plan = [timed(op, 0, minutes, volume)];
        assert_eq!(rt; margin(alloc, &plant, &plan), wanted);
    }
    Ok(())
}

#[test]
fn refuses_a_charge_at_a_fixed_rate(rt: HostRuntime) -> Result<(), Fail> {
    let alloc = rt.alloc();
    let plant = sample(alloc, Pair { lo: 4320, hi: 4320 }, true)?;
    assert_eq!(rt; margin(alloc, &plant, &[timed(0, 0, 2, 4)]), broken(5, 1));
    assert_eq!(rt; margin(alloc, &plant, &[timed(0, 0, 1, 3)]), broken(14, 1));
    Ok(())
}

/// Unit 1 has got one charge of one minute and two volume units, which earn 6.
fn assert_charged_once(rt: &impl Abort, replay: &Replay<'_>)
    requires { 1 < place_count_of replay.now.parts }
{
    assert_eq!(rt; replay.held(1).total(), 2);
    assert_eq!(rt; replay.charges(1), 1);
    assert_eq!(rt; replay.minutes(1), 1);
    assert_eq!(rt; replay.finish(), Ok(6));
}

#[test]
fn steps_and_finishes(rt: HostRuntime) -> Result<(), Fail> {
    let alloc = rt.alloc();
    let plant = sample(alloc, Pair { lo: 0, hi: 2880 }, false)?;
    assert!(rt; plant.place_count() == 2);
    let mut replay = Replay::new(alloc, &plant)?;
    replay.step(timed(0, 0, 1, 2))?;
    assert_charged_once(&rt, &replay);
    Ok(())
}

/// Two vessels that are there from the first minute, at these berths, within a horizon of 2 minutes.
fn two_berthed(alloc: Global, first: i64, second: i64) -> Result<Plant, AllocError> {
    let vessel = Berthed {
        arrival: 0,
        berth: first,
        demurrage: 0,
    };
    let other = Berthed {
        berth: second,
        ..vessel
    };
    unloading(alloc, 2, &[vessel, other])
}

/// Likewise of two operations that are to keep the order.
fn margin_in(
    alloc: Global,
    plant: &Plant,
    order: Order,
    plan: [Timed; 2],
) -> Result<i64, ReplayFault> {
    match replay_in(alloc, plant, order, plan.as_slice()) {
        Ok(outcome) => Ok(outcome.margin),
        Err(fault) => Err(fault),
    }
}

#[test]
fn vessels_of_two_berths_unload_at_once(rt: HostRuntime) -> Result<(), Fail> {
    let alloc = rt.alloc();
    let plant = two_berthed(alloc, 1, 2)?;
    for (plan, wanted) in [
        ([timed(0, 0, 2, 4), timed(1, 0, 2, 4)], Ok(0)),
        ([timed(1, 0, 2, 4), timed(0, 0, 2, 4)], Ok(0)),
        ([timed(1, 0, 1, 2), timed(0, 1, 2, 2)], broken(12, 0)),
    ] {
        assert_eq!(rt; margin_in(alloc, &plant, Order::ByStart, plan), wanted);
    }
    Ok(())
}

#[test]
fn vessels_of_one_berth_unload_in_their_order(rt: HostRuntime) -> Result<(), Fail> {
    let alloc = rt.alloc();
    let plant = two_berthed(alloc, 1, 1)?;
    for (plan, wanted) in [
        ([timed(0, 0, 2, 4), timed(1, 0, 2, 4)], broken(7, 2)),
        ([timed(1, 0, 2, 4), timed(0, 0, 2, 4)], broken(7, 2)),
        ([timed(1, 0, 1, 2), timed(0, 1, 2, 2)], broken(8, 2)),
    ] {
        assert_eq!(rt; margin_in(alloc, &plant, Order::ByStart, plan), wanted);
    }
    Ok(())
}

#[test]
fn slots_may_stand_in_another_order_than_starts(rt: HostRuntime) -> Result<(), Fail> {
    let alloc = rt.alloc();
    let plant = two_berthed(alloc, 1, 2)?;
    for (order, wanted) in [
        (Order::ByStart, broken(6, 2)),
        (Order::BySlot, broken(12, 1)),
    ] {
        let word = [timed(1, 1, 2, 2), timed(0, 0, 2, 4)];
        assert_eq!(rt; margin_in(alloc, &plant, order, word), wanted);
    }
    Ok(())
}

#[test]
fn a_vessel_pays_until_it_is_unloaded(rt: HostRuntime) -> Result<(), Fail> {
    let alloc = rt.alloc();
    let plant = late_vessel(alloc)?;
    for (start, end, wanted) in [(1, 3, Ok(-10)), (2, 4, Ok(-15)), (0, 2, broken(3, 1))] {
        assert_eq!(rt; margin(alloc, &plant, &[timed(0, start, end, 4)]), wanted);
    }
    Ok(())
}
