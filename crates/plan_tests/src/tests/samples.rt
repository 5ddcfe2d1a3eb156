//! Operations of plans.

use replay_core::Timed;

pub fn timed(op: u8, start: u32, end: u32, volume: u32) -> Timed {
    Timed {
        op,
        start,
        end,
        volume,
    }
}
