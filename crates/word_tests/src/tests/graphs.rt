use overlap_graph::{clique_laws, cliques, independence, independent_mask};
use plant_model::Plant;
use sample_plants::{Berthed, two_inlets, unloading};
use std::alloc::{AllocError, Global};
use std::process::Abort;
use std::test::Fail;

/// Two vessels, which are unloaded at these berths.
fn vessels(alloc: Global, first: i64, second: i64) -> Result<Plant, AllocError> {
    let at = |berth| Berthed {
        arrival: 0,
        berth,
        demurrage: 0,
    };
    unloading(alloc, 2, &[at(first), at(second)])
}

/// The plant has these masks of independence, operation by operation, and these cliques.
fn assert_graph(
    rt: &impl Abort,
    alloc: Global,
    plant: &Plant,
    masks: &[u64],
    wanted: &[u64],
) -> Result<(), Fail> {
    assert_eq!(rt; independence(alloc, plant)?.as_slice(), masks);
    assert_eq!(rt; cliques(alloc, plant)?.as_slice(), wanted);
    clique_laws(plant);
    Ok(())
}

#[test]
fn inlets_are_independent_of_each_other(rt: HostRuntime) -> Result<(), Fail> {
    let plant = two_inlets(rt.alloc())?;
    assert_graph(&rt, rt.alloc(), &plant, &[2, 1, 0], &[5, 6])
}

#[test]
fn unloadings_are_at_two_berths(rt: HostRuntime) -> Result<(), Fail> {
    let plant = vessels(rt.alloc(), 1, 2)?;
    assert_graph(&rt, rt.alloc(), &plant, &[2, 1], &[1, 2])
}

#[test]
fn unloadings_are_not_at_one(rt: HostRuntime) -> Result<(), Fail> {
    let plant = vessels(rt.alloc(), 1, 1)?;
    assert_graph(&rt, rt.alloc(), &plant, &[0, 0], &[3])
}

#[test]
fn a_mask_takes_no_memory(rt: HostRuntime) -> Result<(), Fail> {
    let plant = two_inlets(rt.alloc())?;
    assert!(rt; plant.op_count() == 3);
    assert_eq!(rt; independent_mask(&plant, 0), 2);
    Ok(())
}
