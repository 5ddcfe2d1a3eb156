ghost use Rattle.std.specs.Prelude.{◌≡◌, ◌+◌, ◌^◌, ◌<◌, length};
ghost use Rattle.std.specs.Result.{result_err};
ghost use Rattle.item_lists.specs.Faults.{first_of, unless};
ghost use Rattle.plant_model.specs.Faults.{fault, FirstOfEach};

use crate::place::{Key, Place, PlantFault, Section};
use item_lists::expect;

/// The fault at the place, where the test does not hold.
pub(crate) fn expect_at(
    holds: bool,
    number: u8,
    section: Section,
    index: u32,
    key: Key,
) -> Result<(), PlantFault>
    ensures { result_err result ≡ first_of (unless holds (fault number section index key)) }
{
    let place = Place {
        section,
        index,
        key,
    };
    expect(holds, PlantFault { number, place })
}

/// The first fault of the entries, which are numbered from 1.
pub(crate) fn first_of_each<T, F: Fn(u32, &T) -> Result<(), PlantFault>>(
    entries: &[T],
    fault_of: F,
) -> Result<(), PlantFault>
    requires callable { F.IsAlwaysCallable fault_of }
    requires few { length entries.now + 1 < 2 ^ 32 }
    ensures { FirstOfEach (F.post fault_of) entries.now result }
{
    let mut index = 1;
    for entry in entries {
        fault_of(index, entry)?;
        index += 1;
    }
    Ok(())
}
