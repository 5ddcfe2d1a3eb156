ghost use Rattle.std.specs.Prelude.{◌≡◌, ◌≤◌, IfOk};
ghost use Rattle.limits.specs.declared.TheConstants.{MOST_NODES, MOST_SLOTS, MOST_WORKERS};
ghost use Rattle.command_line.specs.declared.command.Ask.{Ask};
ghost use Rattle.crude_run.specs.Searched.{IsFound};
ghost use Rattle.crude_run.specs.Solving.{Solves, status_of};
ghost use Rattle.crude_run.specs.Files.{files_between};
ghost use Rattle.crude_run.specs.Answered.{Serves, Answered, outlet_between};
ghost use Rattle.crude_run.specs.Hidden.{HidesNoFault};
ghost use Rattle.crude_run.specs.Stopping.{IfDue, ShowsFaults};
ghost use Rattle.command_line.specs.declared.command.Command.TheVariants.{Solve};

use crate::answer::Answer;
use crate::conclude::conclude;
use crate::opening::{Stop, open_plant};
use crate::search::{Found, search_alone, search_together};
use crate::send::finish;
use crate::status::{INFEASIBLE, NONE_FOUND, PLAN_FOUND, Status};
use command_line::Ask;
use dossier_text::{Word3, write_dossier};
use item_lists::Copies;
use outer_edge::{Gate, Shelf, Sink};
use plant_model::Plant;
use std::alloc::{AllocError, Global};
use std::sync::Wait;
use std::thread::Threads;

/// Plans for a plant, by one worker: the status and the text of a dossier, with a legal plan of at most `slots`
/// operations, where one is found, and a bound that no such plan exceeds, by a tree of at most `nodes` inner
/// nodes.
pub fn solve_alone<G: Gate>(
    alloc: Global,
    plant: &Plant,
    slots: u32,
    nodes: u32,
    gate: &G,
) -> Result<Answer, AllocError>
    requires some_slots { 1 ≤ slots }
    requires most_slots { slots ≤ MOST_SLOTS }
    requires most_nodes { nodes ≤ MOST_NODES }
    ensures { IfOk result (Solves plant.now slots nodes 1) }
{
    let ask = Ask {
        slots,
        nodes,
        workers: 1,
    };
    let found = search_alone(alloc, plant, ask, gate)?;
    answer_of(alloc, plant, ask, found)
}

/// Likewise by several workers.
fn solve_together<R: Threads + Wait + Sync, G: Gate>(
    rt: &R,
    alloc: Global,
    plant: &Plant,
    ask: Ask,
    gate: &G,
) -> Result<Answer, AllocError>
    requires some_slots { 1 ≤ ask.slots }
    requires most_slots { ask.slots ≤ MOST_SLOTS }
    requires most_nodes { ask.nodes ≤ MOST_NODES }
    requires several { 2 ≤ ask.workers }
    requires most_workers { ask.workers ≤ MOST_WORKERS }
    ensures { IfOk result (Solves plant.now ask.slots ask.nodes ask.workers) }
{
    let found = search_together(rt, alloc, plant, ask, gate)?;
    answer_of(alloc, plant, ask, found)
}

/// The text of the dossier of what was found, with its status.
fn answer_of(alloc: Global, plant: &Plant, ask: Ask, found: Found) -> Result<Answer, AllocError>
    requires some_slots { 1 ≤ ask.slots }
    requires most_slots { ask.slots ≤ MOST_SLOTS }
    requires most_nodes { ask.nodes ≤ MOST_NODES }
    requires found { IsFound plant.now ask.slots ask.nodes ask.workers found }
    ensures { IfOk result (Solves plant.now ask.slots ask.nodes ask.workers) }
{
    let dossier = conclude(alloc, plant, ask, found)?;
    let text = write_dossier(alloc, &dossier)?;
    Ok(Answer {
        status: Status::new(status_of(dossier.answer)),
        text: Copies::from_vec(text),
    })
}

/// The status that goes with an answer.
fn status_of(answer: Word3) -> u8
    ensures { result ≡ status_of answer }
{
    match answer {
        Word3::Plan => PLAN_FOUND,
        Word3::Infeasible => INFEASIBLE,
        Word3::Open3 => NONE_FOUND,
    }
}

/// `solve` for one worker: reads the plant file, and writes the answer.
pub fn solve_file_alone<H: Shelf, K: Sink, G: Gate>(
    alloc: Global,
    plant: &str,
    slots: u32,
    nodes: u32,
    shelf: &mut H,
    out: &mut K,
    gate: &G,
) -> Status
    requires some_slots { 1 ≤ slots }
    requires most_slots { slots ≤ MOST_SLOTS }
    requires most_nodes { nodes ≤ MOST_NODES }
    ensures answered { let ask : Ask = record { slots = slots; nodes = nodes; workers = 1 } in
        Answered (Serves (Solve plant.now ask) (files_between H.told H.faults H.longs shelf.old shelf.new))
        (outlet_between K.taken K.faults out.old out.new) result }
    ensures hidden { HidesNoFault (files_between H.told H.faults H.longs shelf.old shelf.new)
        (outlet_between K.taken K.faults out.old out.new) result }
{
    let outcome = solved_alone(alloc, plant, slots, nodes, shelf, gate);
    finish(outcome, out)
}

/// The answer of one worker to the plant file.
fn solved_alone<H: Shelf, G: Gate>(
    alloc: Global,
    plant: &str,
    slots: u32,
    nodes: u32,
    shelf: &mut H,
    gate: &G,
) -> Result<Answer, Stop>
    requires some_slots { 1 ≤ slots }
    requires most_slots { slots ≤ MOST_SLOTS }
    requires most_nodes { nodes ≤ MOST_NODES }
    ensures due { let ask : Ask = record { slots = slots; nodes = nodes; workers = 1 } in
        IfDue result (Serves (Solve plant.now ask) (files_between H.told H.faults H.longs shelf.old shelf.new)) }
    ensures shown { ShowsFaults (files_between H.told H.faults H.longs shelf.old shelf.new) result }
{
    let plant = open_plant(alloc, plant, shelf)?;
    let answer = solve_alone(alloc, &plant, slots, nodes, gate)?;
    Ok(answer)
}

/// `solve` for two workers and more, each in a thread: reads the plant file, and writes the answer.
pub fn solve_file<R: Threads + Wait + Sync, H: Shelf, K: Sink, G: Gate>(
    rt: &R,
    alloc: Global,
    plant: &str,
    ask: Ask,
    shelf: &mut H,
    out: &mut K,
    gate: &G,
) -> Status
    requires some_slots { 1 ≤ ask.slots }
    requires most_slots { ask.slots ≤ MOST_SLOTS }
    requires most_nodes { ask.nodes ≤ MOST_NODES }
    requires several { 2 ≤ ask.workers }
    requires most_workers { ask.workers ≤ MOST_WORKERS }
    ensures answered { Answered
        (Serves (Solve plant.now ask) (files_between H.told H.faults H.longs shelf.old shelf.new))
        (outlet_between K.taken K.faults out.old out.new) result }
    ensures hidden { HidesNoFault (files_between H.told H.faults H.longs shelf.old shelf.new)
        (outlet_between K.taken K.faults out.old out.new) result }
{
    let outcome = solved_together(rt, alloc, plant, ask, shelf, gate);
    finish(outcome, out)
}

/// The answer of several workers to the plant file.
fn solved_together<R: Threads + Wait + Sync, H: Shelf, G: Gate>(
    rt: &R,
    alloc: Global,
    plant: &str,
    ask: Ask,
    shelf: &mut H,
    gate: &G,
) -> Result<Answer, Stop>
    requires some_slots { 1 ≤ ask.slots }
    requires most_slots { ask.slots ≤ MOST_SLOTS }
    requires most_nodes { ask.nodes ≤ MOST_NODES }
    requires several { 2 ≤ ask.workers }
    requires most_workers { ask.workers ≤ MOST_WORKERS }
    ensures due { IfDue result
        (Serves (Solve plant.now ask) (files_between H.told H.faults H.longs shelf.old shelf.new)) }
    ensures shown { ShowsFaults (files_between H.told H.faults H.longs shelf.old shelf.new) result }
{
    let plant = open_plant(alloc, plant, shelf)?;
    let answer = solve_together(rt, alloc, &plant, ask, gate)?;
    Ok(answer)
}
