//! One worker on a board of its own.

ghost use Rattle.std.specs.Prelude.{◌≤◌};
ghost use Rattle.limits.specs.declared.TheConstants.{MOST_NODES, MOST_SLOTS};

use branch_worker::{Alone, Site, work_alone};
use cut_pool::CutPool;
use item_lists::Items;
use leaf_value::Scales;
use outer_edge::Gate;
use plant_model::Plant;
use sample_plants::{one_charge, two_inlets};
use search_board::{Board, Closed};
use search_node::{NodeNote, Notes};
use slot_box::{Leaf, Node, Task};
use slot_forms::root_box;
use std::alloc::{AllocError, Global};
use std::process::Abort;
use std::sync::atomic::{AtomicU64, Ordering};
use std::test::Fail;

// The number by which the gate knows the worker.
const NUMBER: u32 = 3;

// Adds up what it is called with. All tests here have such a gate, since each kind of gate has the whole worker proved
// again for it.
#[derive(Drop)]
pub(crate) struct Counter {
    pub workers: AtomicU64,
    pub drawn: AtomicU64,
}

impl Gate for Counter {
    fn ticket(&self, worker: u32, drawn: u32) {
        self.workers.fetch_add(u64::from(worker), Ordering::SeqCst);
        self.drawn.fetch_add(u64::from(drawn), Ordering::SeqCst);
    }
}

/// What a worker did on a plant.
#[derive(Drop)]
pub(crate) struct Worked {
    pub notes: Notes,
    pub margin: Option<i64>,
    pub closed: Closed,
    /// The sum of the workers' numbers that the gate was called with.
    pub workers: u64,
    /// The sum of the numbers of tickets drawn so far.
    pub drawn: u64,
}

/// The task of the root.
pub(crate) fn root_task(alloc: Global, plant: &Plant, n: u32) -> Result<Task, AllocError>
    requires some_slots { 1 ≤ n }
    requires most_slots { n ≤ MOST_SLOTS }
{
    let root = root_box(alloc, plant, n)?;
    Ok(Task::new(0, root, 1, Items::new(alloc)))
}

/// A gate that was not called yet.
pub(crate) fn uncalled_gate() -> Counter {
    Counter {
        workers: AtomicU64::new(0),
        drawn: AtomicU64::new(0),
    }
}

/// Lets one worker search with so many slots and tickets.
fn work(alloc: Global, plant: &Plant, n: u32, budget: u32) -> Result<Worked, AllocError>
    requires some_slots { 1 ≤ n }
    requires most_slots { n ≤ MOST_SLOTS }
    requires most_nodes { budget ≤ MOST_NODES }
{
    let scales = Scales::new(alloc, plant, n)?;
    let (board, seat) = Board::new(alloc, budget)?;
    let doors = Items::new(alloc);
    let pool = CutPool::new(alloc)?;
    let site = Site {
        plant,
        cliques: &scales.cliques,
        automaton: &scales.automaton,
        n,
        board: &board,
        doors: &doors,
        pool: &pool,
    };
    let task = root_task(alloc, plant, n)?;
    let me = Alone {
        number: NUMBER,
        seat,
        first: Items::from_vec(vec![in alloc; task]?),
    };
    let gate = uncalled_gate();
    let done = work_alone(alloc, &site, me, &gate)?;
    let margin = match &done.found {
        Some(planned) => Some(planned.margin),
        None => None,
    };
    Ok(Worked {
        notes: done.notes,
        margin,
        closed: board.close(done.seat),
        workers: gate.workers.load(Ordering::SeqCst),
        drawn: gate.drawn.load(Ordering::SeqCst),
    })
}

/// Whether the note is that of a leaf that was left open.
fn is_open(note: &NodeNote) -> bool {
    matches!(&note.node, Node::Leaf(Leaf::Undone { .. }))
}

/// How many leaves were left open.
pub(crate) fn open_count(notes: &Notes) -> u64 {
    notes.as_slice().iter().filter(|note| is_open(note)).count() as u64
}

/// The greatest value of a leaf.
pub(crate) fn bound(notes: &Notes) -> Option<i64> {
    notes
        .as_slice()
        .iter()
        .filter(|note| matches!(&note.node, Node::Leaf(_)))
        .filter_map(|note| note.value)
        .max()
}

// A plan of one operation has 46 points, so that 45 tickets decide, whatever is tried first.
#[test]
fn a_ticket_for_each_point_but_one_decides(rt: HostRuntime) -> Result<(), Fail> {
    let alloc = rt.alloc();
    let worked = work(alloc, &one_charge().plant(alloc)?, 1, 45)?;
    assert_eq!(rt; worked.margin, Some(12));
    assert_eq!(rt; worked.closed.best, Some(12));
    assert_eq!(rt; bound(&worked.notes), Some(12));
    assert_eq!(rt; open_count(&worked.notes), 0);
    Ok(())
}

// Each ticket makes two nodes more. The gate is called before each, with the number of those before it, and with the
// number of all once more for each leaf that is left open.
pub(crate) fn assert_counted(rt: &impl Abort, worked: &Worked, budget: u32, number: u32) {
    let (tickets, open) = (worked.closed.tickets, open_count(&worked.notes));
    let nodes = worked.notes.as_slice().len() as u64;
    let calls = tickets.saturating_add(open);
    let before = tickets.saturating_mul(tickets.saturating_sub(1)) / 2;
    let drawn = before.saturating_add(open.saturating_mul(tickets));
    assert!(rt; tickets <= u64::from(budget), "{budget}");
    assert!(rt; open == 0 || tickets == u64::from(budget), "{budget}");
    assert_eq!(rt;
        nodes,
        tickets.saturating_mul(2).saturating_add(1),
        "{budget}"
    );
    assert_eq!(rt;
        worked.workers,
        calls.saturating_mul(u64::from(number)),
        "{budget}"
    );
    assert_eq!(rt; worked.drawn, drawn, "{budget}");
}

// The tank holds at most 10, and a second charge leaves but one filling, so the best plan of three operations fills the
// tank twice and charges 10. A smaller budget may miss it; where no leaf is left open it was found.
pub(crate) fn assert_bounded(rt: &impl Abort, worked: &Worked, budget: u32) {
    let bound = bound(&worked.notes);
    assert!(rt; worked.margin <= Some(10), "{budget}");
    assert!(rt; bound >= Some(10), "{budget}");
    assert_eq!(rt; worked.closed.best, worked.margin, "{budget}");
    if open_count(&worked.notes) == 0 {
        assert_eq!(rt; worked.margin, Some(10), "{budget}");
        assert_eq!(rt; bound, Some(10), "{budget}");
    }
}

#[test]
fn a_budget_may_be_spent(rt: HostRuntime) -> Result<(), Fail> {
    let alloc = rt.alloc();
    let plant = two_inlets(alloc)?;
    for budget in [0, 1, 5, 40] {
        let worked = work(alloc, &plant, 3, budget)?;
        assert_counted(&rt, &worked, budget, NUMBER);
        assert_bounded(&rt, &worked, budget);
    }
    Ok(())
}
