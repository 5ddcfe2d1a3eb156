ghost use Rattle.std.specs.Prelude.{IfOk};
ghost use Rattle.command_line.specs.declared.command.Command.TheVariants.{Check};
ghost use Rattle.crude_run.specs.Files.{files_between};
ghost use Rattle.crude_run.specs.Checking.{Checks};
ghost use Rattle.crude_run.specs.Answered.{Serves, Answered, outlet_between};
ghost use Rattle.crude_run.specs.Hidden.{HidesNoFault};
ghost use Rattle.crude_run.specs.Stopping.{IfDue, ShowsFaults};

use crate::answer::{Answer, accepted, not_accepted};
use crate::opening::{Stop, open_both};
use crate::send::finish;
use crate::status::Status;
use dossier_check::{Verdict, check};
use limits::DOSSIER_FILE_LIMIT;
use outer_edge::{Shelf, Sink};
use plant_model::Plant;
use std::alloc::{AllocError, Global};

/// `check`: reads the plant file and then the dossier, and writes the verdict.
pub fn check_files<H: Shelf, K: Sink>(
    alloc: Global,
    plant: &str,
    dossier: &str,
    shelf: &mut H,
    out: &mut K,
) -> Status
    ensures answered { Answered
        (Serves (Check plant.now dossier.now) (files_between H.told H.faults H.longs shelf.old shelf.new))
        (outlet_between K.taken K.faults out.old out.new) result }
    ensures hidden { HidesNoFault (files_between H.told H.faults H.longs shelf.old shelf.new)
        (outlet_between K.taken K.faults out.old out.new) result }
{
    let outcome = check_both(alloc, plant, dossier, shelf);
    finish(outcome, out)
}

/// The answer to the two files.
fn check_both<H: Shelf>(
    alloc: Global,
    plant: &str,
    dossier: &str,
    shelf: &mut H,
) -> Result<Answer, Stop>
    ensures due { IfDue result
        (Serves (Check plant.now dossier.now) (files_between H.told H.faults H.longs shelf.old shelf.new)) }
    ensures shown { ShowsFaults (files_between H.told H.faults H.longs shelf.old shelf.new) result }
{
    let opened = open_both(alloc, plant, dossier, DOSSIER_FILE_LIMIT, shelf)?;
    let answer = check_text(alloc, &opened.plant, &opened.bytes)?;
    Ok(answer)
}

/// The answer to the bytes of a dossier.
fn check_text(alloc: Global, plant: &Plant, bytes: &[u8]) -> Result<Answer, AllocError>
    ensures { IfOk result (Checks plant.now bytes.now) }
{
    match check(alloc, plant, bytes)? {
        Verdict::Yes(claim) => accepted(alloc, claim.answer, claim.margin, claim.bound),
        Verdict::No { reason, line } => not_accepted(alloc, reason, line),
    }
}
