ghost use Rattle.std.specs.Prelude.{◌≡◌};
ghost use Rattle.outer_edge.specs.CallList.{is_listed};

use item_lists::Copies;

/// Numbers of calls, from 1: those that are to fail.
pub type CallList = Copies<u32>;

pub(crate) fn has_call(calls: &CallList, number: u64) -> bool
    ensures { result ≡ is_listed calls.now number }
{
    calls
        .as_slice()
        .iter()
        .any(|&call| u64::from(call) == number)
}
