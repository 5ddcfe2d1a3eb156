//! A worker among others, of whom there are none: what it hands on it finds on its own deck.

ghost use Rattle.std.specs.Prelude.{◌≤◌};
ghost use Rattle.limits.specs.declared.TheConstants.{MOST_NODES, MOST_SLOTS};

use super::alone::{Worked, assert_bounded, assert_counted, root_task, uncalled_gate};
use branch_worker::{Me, Site, work};
use cut_pool::CutPool;
use item_lists::Items;
use leaf_value::Scales;
use plant_model::Plant;
use sample_plants::two_inlets;
use search_board::Board;
use std::alloc::{AllocError, Global};
use std::sync::Wait;
use std::sync::atomic::Ordering;
use std::test::Fail;
use task_deck::deck;

/// Lets it search with so many slots and tickets.
fn work_on_deck<R: Wait>(
    rt: &R,
    alloc: Global,
    plant: &Plant,
    n: u32,
    budget: u32,
) -> Result<Worked, AllocError>
    requires some_slots { 1 ≤ n }
    requires most_slots { n ≤ MOST_SLOTS }
    requires most_nodes { budget ≤ MOST_NODES }
{
    let scales = Scales::new(alloc, plant, n)?;
    let (board, mut seat) = Board::new(alloc, budget)?;
    let (owner, door) = deck(alloc)?;
    let doors = Items::from_vec(vec![in alloc; door]?);
    let pool = CutPool::new(alloc)?;
    let site = Site {
        plant,
        cliques: &scales.cliques,
        automaton: &scales.automaton,
        n,
        board: &board,
        doors: &doors,
        pool: &pool,
    };
    board.say_busy(&mut seat, true);
    let me = Me {
        number: 0,
        seat,
        owner,
        passes: Items::new(alloc),
        first: Some(root_task(alloc, plant, n)?),
    };
    let gate = uncalled_gate();
    let done = work(rt, alloc, &site, me, &gate)?;
    let margin = match &done.found {
        Some(planned) => Some(planned.margin),
        None => None,
    };
    Ok(Worked {
        notes: done.notes,
        margin,
        closed: board.close(done.seat),
        workers: gate.workers.load(Ordering::SeqCst),
        drawn: gate.drawn.load(Ordering::SeqCst),
    })
}

#[test]
fn a_deck_keeps_what_it_is_given(rt: HostRuntime) -> Result<(), Fail> {
    let alloc = rt.alloc();
    let plant = two_inlets(alloc)?;
    for budget in [0, 1, 5, 40] {
        let worked = work_on_deck(&rt, alloc, &plant, 3, budget)?;
        assert_counted(&rt, &worked, budget, 0);
        assert_bounded(&rt, &worked, budget);
    }
    Ok(())
}
