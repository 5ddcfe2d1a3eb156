ghost use Rattle.std.specs.Prelude.{◌≡◌, ℕ, ◌<◌, length, slice_index_or};
ghost use Rattle.replay_core.specs.inside.Tally.{tally_after, CanCount};

use crate::timed::Timed;
use plant_model::{Op, OpKind};

/// What a unit has got and a charging tank has given so far: how many charges, for how many minutes
/// in all, and how many volume units; and until which minute a vessel was unloaded.
#[derive(Clone, Copy, Debug, PartialEq, Eq)]
pub struct Tally {
    pub charges: u32,
    pub minutes: u64,
    pub charged: u64,
    pub last_end: u32,
}

/// Counts the operation: a charge at its tank and its unit, an unloading at its vessel.
#[tactic(auto, unfolding(crate::specs::inside::Tally::tally_after))]
pub(crate) fn count(tallies: &mut [Tally], op: Op, t: Timed)
    requires { CanCount tallies.old op t }
    ensures { (p : ℕ) (d : Tally) → p < length tallies.old
        → slice_index_or tallies.new p d ≡ tally_after op t p (slice_index_or tallies.old p d) }
{
    match op.kind {
        OpKind::Charge => {
            let unit = &mut tallies[op.to as usize];
            unit.charges += 1;
            unit.minutes += u64::from(t.end - t.start);
            tallies[op.from as usize].charged += u64::from(t.volume);
        }
        OpKind::Unload => {
            let vessel = &mut tallies[op.from as usize];
            vessel.last_end = t.end.max(vessel.last_end);
        }
        OpKind::Transfer => {}
    }
}
