use plan_build::{Hint, OpList, build, build_within};
use plant_model::Plant;
use replay_core::Planned;
use sample_plants::{one_charge, two_vessels};
use std::alloc::Global;
use std::test::Fail;

/// What is built of the operations, within so much work where that is told.
///
/// It promises nothing, so that the proofs of the tests do not read what is promised of it.
fn built(
    alloc: Global,
    plant: &Plant,
    n: u32,
    ops: &[u8],
    work: Option<u32>,
) -> Result<Planned, Fail> {
    if n > 1000 || !ops.iter().all(|&v| v < plant.op_count()) {
        return Err("operations of the plant".into());
    }
    let hint = Hint {
        ops: OpList::new(alloc, ops)?,
    };
    let built = match work {
        Some(work) => build_within(alloc, plant, n, &hint, work)?,
        None => build(alloc, plant, n, &hint)?,
    };
    Ok(built.ok_or("a plan")?)
}

#[test]
fn one_charge_is_built(rt: HostRuntime) -> Result<(), Fail> {
    let plant = one_charge().plant(rt.alloc())?;
    let planned = built(rt.alloc(), &plant, 1, &[0], None)?;
    assert_eq!(rt; planned.margin, 12);
    Ok(())
}

/// No plan of 8 operations is known that earns more than 16,687,500. What is built is the same each time.
#[test]
fn two_vessels_are_planned_well(rt: HostRuntime) -> Result<(), Fail> {
    let plant = two_vessels(rt.alloc())?;
    let planned = built(rt.alloc(), &plant, 8, &[0, 6, 1, 7], None)?;
    assert!(rt; planned.margin >= 16_000_000);
    let again = built(rt.alloc(), &plant, 8, &[0, 6, 1, 7], Some(20_000))?;
    assert_eq!(rt; again.plan.as_slice(), planned.plan.as_slice());
    Ok(())
}
