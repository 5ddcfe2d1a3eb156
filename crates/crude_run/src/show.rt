ghost use Rattle.std.specs.Prelude.{IfOk};
ghost use Rattle.command_line.specs.declared.command.Command.TheVariants.{Show};
ghost use Rattle.crude_run.specs.Files.{files_between};
ghost use Rattle.crude_run.specs.Replaying.{Shows};
ghost use Rattle.crude_run.specs.Answered.{Serves, Answered, outlet_between};
ghost use Rattle.crude_run.specs.Hidden.{HidesNoFault};
ghost use Rattle.crude_run.specs.Stopping.{IfDue, ShowsFaults};

use crate::answer::{Answer, shown};
use crate::opening::{Stop, open_plant};
use crate::send::finish;
use crate::status::Status;
use outer_edge::{Shelf, Sink};
use plant_model::Plant;
use plant_text::print_plant;
use std::alloc::{AllocError, Global};

/// `show`: reads the plant file, and writes the one text of its plant.
pub fn show_file<H: Shelf, K: Sink>(
    alloc: Global,
    plant: &str,
    shelf: &mut H,
    out: &mut K,
) -> Status
    ensures answered { Answered
        (Serves (Show plant.now) (files_between H.told H.faults H.longs shelf.old shelf.new))
        (outlet_between K.taken K.faults out.old out.new) result }
    ensures hidden { HidesNoFault (files_between H.told H.faults H.longs shelf.old shelf.new)
        (outlet_between K.taken K.faults out.old out.new) result }
{
    let outcome = show_plant(alloc, plant, shelf);
    finish(outcome, out)
}

/// The answer to the plant file.
fn show_plant<H: Shelf>(alloc: Global, plant: &str, shelf: &mut H) -> Result<Answer, Stop>
    ensures due { IfDue result
        (Serves (Show plant.now) (files_between H.told H.faults H.longs shelf.old shelf.new)) }
    ensures shown { ShowsFaults (files_between H.told H.faults H.longs shelf.old shelf.new) result }
{
    let plant = open_plant(alloc, plant, shelf)?;
    let answer = show(alloc, &plant)?;
    Ok(answer)
}

/// The answer to a plant.
pub(crate) fn show(alloc: Global, plant: &Plant) -> Result<Answer, AllocError>
    ensures { IfOk result (Shows plant.now) }
{
    Ok(shown(print_plant(alloc, plant)?))
}
