ghost use Rattle.std.specs.Prelude.{◌≡◌, ◌<◌, ◌≤◌, map, string_bytes};
ghost use Rattle.limits.specs.declared.TheConstants.{MOST_NODES, MOST_SLOTS, MOST_WORKERS};
ghost use Rattle.command_line.specs.declared.command.Command.TheVariants.{Solve};
ghost use Rattle.command_line.specs.PlainLine.{IsInRange};
ghost use Rattle.crude_run.specs.Texts.{words_refused};
ghost use Rattle.crude_run.specs.Files.{files_between};
ghost use Rattle.crude_run.specs.Answered.{CallsFor, Serves, Answered, outlet_between};
ghost use Rattle.crude_run.specs.Completeness.{IsComplete};
ghost use Rattle.crude_run.specs.Hidden.{HidesNoFault};

use crate::answer::words_refused;
use crate::check::check_files;
use crate::make::make_text;
use crate::opening::stop_with;
use crate::replay::replay_files;
use crate::send::finish;
use crate::show::show_file;
use crate::solve::{solve_file, solve_file_alone};
use crate::status::{NO_MEMORY, Status, WRITE_FAILED};
use command_line::{Ask, Command, WordFault, line_laws, read_words};
use outer_edge::{Gate, Shelf, Sink};
use std::alloc::Global;
use std::sync::Wait;
use std::thread::Threads;

/// Does what the words ask for: reads files from the shelf, and writes the answer into the sink.
///
/// The words are those after the program's name. No byte is written before the whole text is there. Several workers
/// run in threads, and whoever calls waits for them.
pub fn run<R: Threads + Wait + Sync, H: Shelf, K: Sink, G: Gate>(
    rt: &R,
    alloc: Global,
    words: &[String],
    shelf: &mut H,
    out: &mut K,
    gate: &G,
) -> Status
    ensures answered { Answered
        (CallsFor (map string_bytes words.now) (files_between H.told H.faults H.longs shelf.old shelf.new))
        (outlet_between K.taken K.faults out.old out.new) result }
    ensures complete { IsComplete (map string_bytes words.now)
        (files_between H.told H.faults H.longs shelf.old shelf.new)
        (outlet_between K.taken K.faults out.old out.new) result }
    ensures hidden { HidesNoFault (files_between H.told H.faults H.longs shelf.old shelf.new)
        (outlet_between K.taken K.faults out.old out.new) result }
{
    line_laws();
    serve(rt, alloc, words, shelf, out, gate)
}

/// Refuses the words.
fn refuse_words<K: Sink>(alloc: Global, out: &mut K) -> Status
    ensures answered { Answered (λ answer. answer ≡ words_refused)
        (outlet_between K.taken K.faults out.old out.new) result }
    ensures cut_off { K.faults out.old < K.faults out.new → result ≡ WRITE_FAILED }
{
    finish(Err(stop_with(words_refused(alloc))), out)
}

/// Serves the command of the words, or refuses them.
fn serve<R: Threads + Wait + Sync, H: Shelf, K: Sink, G: Gate>(
    rt: &R,
    alloc: Global,
    words: &[String],
    shelf: &mut H,
    out: &mut K,
    gate: &G,
) -> Status
    ensures answered { Answered
        (CallsFor (map string_bytes words.now) (files_between H.told H.faults H.longs shelf.old shelf.new))
        (outlet_between K.taken K.faults out.old out.new) result }
    ensures hidden { HidesNoFault (files_between H.told H.faults H.longs shelf.old shelf.new)
        (outlet_between K.taken K.faults out.old out.new) result }
{
    match read_words(alloc, words) {
        Ok(command) => serve_command(rt, alloc, &command, shelf, out, gate),
        Err(WordFault::Words) => refuse_words(alloc, out),
        Err(WordFault::Memory) => Status::new(NO_MEMORY),
    }
}

/// Serves the command.
fn serve_command<R: Threads + Wait + Sync, H: Shelf, K: Sink, G: Gate>(
    rt: &R,
    alloc: Global,
    command: &Command,
    shelf: &mut H,
    out: &mut K,
    gate: &G,
) -> Status
    requires { IsInRange command.now }
    ensures answered { Answered
        (Serves command.now (files_between H.told H.faults H.longs shelf.old shelf.new))
        (outlet_between K.taken K.faults out.old out.new) result }
    ensures hidden { HidesNoFault (files_between H.told H.faults H.longs shelf.old shelf.new)
        (outlet_between K.taken K.faults out.old out.new) result }
{
    match command {
        Command::Solve { plant, ask } => {
            solve_as_asked(rt, alloc, plant.as_str(), *ask, shelf, out, gate)
        }
        Command::Check { plant, dossier } => {
            check_files(alloc, plant.as_str(), dossier.as_str(), shelf, out)
        }
        Command::Replay { plant, plan } => {
            replay_files(alloc, plant.as_str(), plan.as_str(), shelf, out)
        }
        Command::Show { plant } => show_file(alloc, plant.as_str(), shelf, out),
        Command::Make { number, solve } => make_text(alloc, *number, *solve, out),
        // not built yet
        Command::Root { .. } => refuse_words(alloc, out),
        Command::Replan { .. } => refuse_words(alloc, out),
        Command::Recheck { .. } => refuse_words(alloc, out),
    }
}

/// `solve` by as many workers as were asked for: one needs no thread.
fn solve_as_asked<R: Threads + Wait + Sync, H: Shelf, K: Sink, G: Gate>(
    rt: &R,
    alloc: Global,
    plant: &str,
    ask: Ask,
    shelf: &mut H,
    out: &mut K,
    gate: &G,
) -> Status
    requires some_slots { 1 ≤ ask.slots }
    requires most_slots { ask.slots ≤ MOST_SLOTS }
    requires most_nodes { ask.nodes ≤ MOST_NODES }
    requires some_workers { 1 ≤ ask.workers }
    requires most_workers { ask.workers ≤ MOST_WORKERS }
    ensures answered { Answered
        (Serves (Solve plant.now ask) (files_between H.told H.faults H.longs shelf.old shelf.new))
        (outlet_between K.taken K.faults out.old out.new) result }
    ensures hidden { HidesNoFault (files_between H.told H.faults H.longs shelf.old shelf.new)
        (outlet_between K.taken K.faults out.old out.new) result }
{
    if ask.workers == 1 {
        solve_file_alone(alloc, plant, ask.slots, ask.nodes, shelf, out, gate)
    } else {
        solve_file(rt, alloc, plant, ask, shelf, out, gate)
    }
}
