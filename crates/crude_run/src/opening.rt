//! The files of a command, read in their order, and why a command goes no further.

ghost use Rattle.std.specs.Prelude.{◌≡◌, Ok, IfOk};
ghost use Rattle.plant_text.specs.PlantText.{plant_of};
ghost use Rattle.crude_run.specs.Files.{files_between, bytes, MayGive};
ghost use Rattle.crude_run.specs.Answered.{OfPlant, OfFile, OfPlantFile};
ghost use Rattle.crude_run.specs.Stopping.{IfStopped, NoAnswer, MayGivePlant, MayGiveBoth, IsLater, ShowsFaults, stop_of};

use crate::answer::{Answer, fault_refused, json_refused, read_failed, shape_refused, too_long};
use crate::files::{PLANT_FILE, SECOND_FILE};
use limits::PLANT_FILE_LIMIT;
use outer_edge::{Shelf, ShelfFault};
use plant_model::Plant;
use plant_text::{PlantTextFault, read_plant};
use std::alloc::{AllocError, Global};

/// Why a command goes no further.
#[derive(Debug, Drop)]
pub(crate) enum Stop {
    /// This answer is due.
    Due(Answer),
    /// Memory ran out.
    Memory,
}

impl From<AllocError> for Stop {
    ghost use Rattle.std.specs.Prelude.{◌≡◌};
    ghost use Rattle.crude_run.specs.declared.opening.Stop.TheVariants.{Memory};

    ghost from_gives = { λ _ stop. stop ≡ Memory };

    fn from(_refused: AllocError) -> Stop {
        Stop::Memory
    }
}

/// Stops with the answer, if there was memory for it.
pub(crate) fn stop_with(answer: Result<Answer, AllocError>) -> Stop
    ensures { result ≡ stop_of answer }
{
    match answer {
        Ok(answer) => Stop::Due(answer),
        Err(AllocError) => Stop::Memory,
    }
}

/// The bytes of the command's file of this number, counted from 1.
pub(crate) fn open_file<H: Shelf>(
    alloc: Global,
    number: u64,
    name: &str,
    limit: u64,
    shelf: &mut H,
) -> Result<Vec<u8>, Stop>
    ensures read { IfOk result (λ file. MayGive (files_between H.told H.faults H.longs shelf.old shelf.new) name.now
        limit (bytes file.items)) }
    ensures stopped { IfStopped result
        (OfFile (files_between H.told H.faults H.longs shelf.old shelf.new) number name.now limit NoAnswer) }
    ensures later { IsLater H.told H.faults H.longs shelf.old shelf.new }
    ensures shown { ShowsFaults (files_between H.told H.faults H.longs shelf.old shelf.new) result }
{
    match shelf.read(alloc, name, limit) {
        Ok(bytes) => Ok(bytes),
        Err(ShelfFault::Failed) => Err(stop_with(read_failed(alloc, number))),
        Err(ShelfFault::TooLong) => Err(stop_with(too_long(alloc, number))),
        Err(ShelfFault::Memory) => Err(Stop::Memory),
    }
}

/// The plant of a plant text.
fn plant_of_text(alloc: Global, text: &[u8]) -> Result<Plant, Stop>
    ensures plant { IfOk result (λ plant. plant_of text.now ≡ Ok plant) }
    ensures stopped { IfStopped result (OfPlant NoAnswer (plant_of text.now)) }
{
    match read_plant(alloc, text) {
        Ok(plant) => Ok(plant),
        Err(PlantTextFault::Json) => Err(stop_with(json_refused(alloc))),
        Err(PlantTextFault::Shape(place)) => Err(stop_with(shape_refused(alloc, place))),
        Err(PlantTextFault::Plant(fault)) => Err(stop_with(fault_refused(alloc, fault))),
        Err(PlantTextFault::Memory) => Err(Stop::Memory),
    }
}

/// The plant of the plant file, which every command names first.
pub(crate) fn open_plant<H: Shelf>(alloc: Global, name: &str, shelf: &mut H) -> Result<Plant, Stop>
    ensures plant { IfOk result (MayGivePlant (files_between H.told H.faults H.longs shelf.old shelf.new) name.now) }
    ensures stopped { IfStopped result
        (OfPlantFile (files_between H.told H.faults H.longs shelf.old shelf.new) name.now NoAnswer) }
    ensures later { IsLater H.told H.faults H.longs shelf.old shelf.new }
    ensures shown { ShowsFaults (files_between H.told H.faults H.longs shelf.old shelf.new) result }
{
    let text = open_file(alloc, PLANT_FILE, name, PLANT_FILE_LIMIT, shelf)?;
    plant_of_text(alloc, &text)
}

/// The plant and the second file of a command that names two.
#[derive(Drop)]
pub(crate) struct Opened {
    pub(crate) plant: Plant,
    pub(crate) bytes: Vec<u8>,
}

/// The plant of the plant file, and then the bytes of the second file.
pub(crate) fn open_both<H: Shelf>(
    alloc: Global,
    plant: &str,
    second: &str,
    limit: u64,
    shelf: &mut H,
) -> Result<Opened, Stop>
    ensures opened { IfOk result (λ both. MayGiveBoth (files_between H.told H.faults H.longs shelf.old shelf.new)
        plant.now second.now limit both.plant both.bytes.items) }
    ensures stopped { let files = files_between H.told H.faults H.longs shelf.old shelf.new in
        IfStopped result (OfPlantFile files plant.now (λ parts. OfFile files 2 second.now limit NoAnswer)) }
    ensures shown { ShowsFaults (files_between H.told H.faults H.longs shelf.old shelf.new) result }
{
    let plant = open_plant(alloc, plant, shelf)?;
    let bytes = open_file(alloc, SECOND_FILE, second, limit, shelf)?;
    Ok(Opened { plant, bytes })
}
