//! The search, by one worker or by several: the notes of all workers become a tree.

ghost use Rattle.std.specs.Prelude.{◌≡◌, ◌≤◌, IfOk, IfSome, None};
ghost use Rattle.limits.specs.declared.TheConstants.{MOST_NODES, MOST_SLOTS, MOST_WORKERS};
ghost use Rattle.greedy_plan.specs.Greedy.{all_operations};
ghost use Rattle.plan_build.specs.Built.{IsBuilt, IsPlanned, found_margin};
ghost use Rattle.crude_run.specs.Searched.{IsBegun, IsFound, IsGreatestNoted, IsSearched, all_noted, leaf_value_noted};
ghost use Rattle.crude_run.specs.Worked.{root_task};

use crate::first_plan::first_plan;
use command_line::Ask;
use item_lists::Items;
use leaf_value::{Scales, greater};
use outer_edge::Gate;
use plan_build::better;
use plant_model::Plant;
use replay_core::Planned;
use search_board::{Board, Seat};
use search_gather::gather;
use search_node::{NodeNote, Notes, value_laws};
use search_team::{Scene, Together};
use slot_box::{Node, NodeList, Task, node_list_laws};
use slot_forms::{form_laws, root_box};
use std::alloc::{AllocError, Global};
use std::sync::Wait;
use std::thread::Threads;

/// What a search begins with.
#[derive(Drop)]
struct Begun {
    scales: Scales,
    /// The plan of all operations, or a better one.
    first: Option<Planned>,
    board: Board,
    /// The first seat of the board: the margin of the first plan is offered, and was looked at.
    seat: Seat,
    root: Task,
}

/// What a search has found.
#[derive(Debug, Drop)]
pub struct Found {
    /// The number of inner nodes.
    pub tickets: u32,
    /// The nodes by their ids.
    pub tree: NodeList,
    pub best: Option<Planned>,
    /// The greatest value of a leaf, in margin units.
    pub bound: Option<i64>,
}

/// The value of a leaf that was noted.
fn leaf_value_noted(note: &NodeNote) -> Option<i64>
    ensures { result ≡ leaf_value_noted note.now }
{
    match &note.node {
        Node::Inner { .. } => None,
        Node::Leaf(_) => note.value,
    }
}

/// The greatest value of a leaf that was noted.
fn greatest_noted(notes: &[NodeNote]) -> Option<i64>
    ensures { IsGreatestNoted notes.now result }
{
    let mut bound = None;
    for note in notes {
        bound = greater(bound, leaf_value_noted(note));
    }
    bound
}

/// The greatest value of a leaf in the notes of all workers.
fn greatest_of_all(lists: &[Notes]) -> Option<i64>
    ensures { IsGreatestNoted (all_noted lists.now) result }
{
    let mut bound = None;
    for notes in lists {
        bound = greater(bound, greatest_noted(notes.as_slice()));
    }
    bound
}

/// The task of the root.
fn root_task(alloc: Global, plant: &Plant, slots: u32) -> Result<Task, AllocError>
    requires some_slots { 1 ≤ slots }
    requires most_slots { slots ≤ MOST_SLOTS }
    ensures { IfOk result (λ task. task ≡ root_task plant.now slots) }
{
    let root = root_box(alloc, plant, slots)?;
    Ok(Task::new(0, root, 1, Items::new(alloc)))
}

/// Offers the margin of the first plan, if there is one.
fn offer_first(plant: &Plant, slots: u32, board: &Board, seat: &mut Seat, first: &Option<Planned>)
    requires slots { slots ≤ MOST_SLOTS }
    requires plan { IfSome first.now (IsPlanned plant.now slots) }
    requires board { seat.old.board ≡ board.now }
    requires fresh { seat.old.offer ≡ None }
    ensures { seat.new ≡ record seat.old { offer = found_margin first.now } }
{
    value_laws(plant);
    if let Some(planned) = first {
        board.offer(seat, planned.margin);
    }
}

/// Begins a search: with a plan of all operations, whose margin every worker knows from the first.
fn begin_search(alloc: Global, plant: &Plant, ask: Ask) -> Result<Begun, AllocError>
    requires some_slots { 1 ≤ ask.slots }
    requires most_slots { ask.slots ≤ MOST_SLOTS }
    requires most_nodes { ask.nodes ≤ MOST_NODES }
    ensures { IfOk result (IsBegun plant.now ask.slots ask.nodes) }
{
    let scales = Scales::new(alloc, plant, ask.slots)?;
    let first = first_plan(alloc, plant, ask.slots)?;
    let root = root_task(alloc, plant, ask.slots)?;
    let (board, mut seat) = Board::new(alloc, ask.nodes)?;
    offer_first(plant, ask.slots, &board, &mut seat, &first);
    // the workers' seats begin with what this one has seen
    let _ = board.best(&mut seat);
    Ok(Begun {
        scales,
        first,
        board,
        seat,
        root,
    })
}

/// Ends a search: closes the board, and makes a tree of what was noted.
fn end_search(
    alloc: Global,
    plant: &Plant,
    ask: Ask,
    board: Board,
    first: Option<Planned>,
    together: Together,
) -> Result<Found, AllocError>
    requires some_slots { 1 ≤ ask.slots }
    requires most_slots { ask.slots ≤ MOST_SLOTS }
    requires most_nodes { ask.nodes ≤ MOST_NODES }
    requires tickets { board.budget ≡ ask.nodes }
    requires built { IsBuilt plant.now ask.slots (all_operations plant.now) first }
    requires searched { IsSearched plant.now ask.slots ask.workers board (found_margin first) together }
    ensures { IfOk result (IsFound plant.now ask.slots ask.nodes ask.workers) }
{
    node_list_laws();
    form_laws(plant);
    let Together {
        seat,
        notes,
        cuts,
        found,
    } = together;
    let closed = board.close(seat);
    let bound = greatest_of_all(notes.as_slice());
    let tree = gather(alloc, notes, cuts)?;
    Ok(Found {
        tickets: closed.tickets as u32,
        tree: tree.nodes,
        best: better(first, found),
        bound,
    })
}

/// Searches for the plans of at most so many operations with at most so many divisions of boxes, by one worker.
pub(crate) fn search_alone<G: Gate>(
    alloc: Global,
    plant: &Plant,
    ask: Ask,
    gate: &G,
) -> Result<Found, AllocError>
    requires some_slots { 1 ≤ ask.slots }
    requires most_slots { ask.slots ≤ MOST_SLOTS }
    requires most_nodes { ask.nodes ≤ MOST_NODES }
    requires one { ask.workers ≡ 1 }
    ensures { IfOk result (IsFound plant.now ask.slots ask.nodes ask.workers) }
{
    let Begun {
        scales,
        first,
        board,
        seat,
        root,
    } = begin_search(alloc, plant, ask)?;
    let scene = Scene {
        plant,
        cliques: &scales.cliques,
        automaton: &scales.automaton,
        n: ask.slots,
        board: &board,
    };
    let together = search_team::search_alone(alloc, &scene, seat, root, gate)?;
    end_search(alloc, plant, ask, board, first, together)
}

/// The same search, by several workers.
pub(crate) fn search_together<R: Threads + Wait + Sync, G: Gate>(
    rt: &R,
    alloc: Global,
    plant: &Plant,
    ask: Ask,
    gate: &G,
) -> Result<Found, AllocError>
    requires some_slots { 1 ≤ ask.slots }
    requires most_slots { ask.slots ≤ MOST_SLOTS }
    requires most_nodes { ask.nodes ≤ MOST_NODES }
    requires several { 2 ≤ ask.workers }
    requires most_workers { ask.workers ≤ MOST_WORKERS }
    ensures { IfOk result (IsFound plant.now ask.slots ask.nodes ask.workers) }
{
    let Begun {
        scales,
        first,
        board,
        seat,
        root,
    } = begin_search(alloc, plant, ask)?;
    let scene = Scene {
        plant,
        cliques: &scales.cliques,
        automaton: &scales.automaton,
        n: ask.slots,
        board: &board,
    };
    let together = search_team::search_together(rt, alloc, &scene, seat, root, ask.workers, gate)?;
    end_search(alloc, plant, ask, board, first, together)
}
