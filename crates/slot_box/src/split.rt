ghost use Rattle.std.specs.Prelude.{◌≡◌, ◌-◌, IsTrue, bit_and};
ghost use Rattle.slot_box.specs.Slots.{IsSlot};
ghost use Rattle.slot_box.specs.Splits.{is_cut_by, divides, left_half, right_half};

use crate::{Slot, Span};
use std::alloc::AllocError;

/// By what the slot is divided.
#[derive(Clone, Copy, Debug, PartialEq, Eq)]
pub enum SplitKind {
    /// The entries of this set go left, the others right.
    Ops(u64),
    /// Volumes below this number go left, the others right; likewise below.
    Volume(u32),
    Start(u32),
    End(u32),
}

/// A way to divide a box in two at one of its slots, numbered from 1.
#[derive(Clone, Copy, Debug, PartialEq, Eq)]
pub struct Split {
    pub slot: u32,
    pub kind: SplitKind,
}

/// Why a box was not divided.
#[derive(Clone, Copy, Debug, PartialEq, Eq)]
pub enum SplitFault {
    /// The slot is not one of the box, or a part would have no point.
    BadSplit,
    Memory,
}

impl From<AllocError> for SplitFault {
    ghost use Rattle.slot_box.specs.declared.split.SplitFault.TheVariants.{Memory};

    ghost from_gives = { λ _ fault. fault ≡ Memory };

    fn from(_error: AllocError) -> SplitFault {
        SplitFault::Memory
    }
}

fn is_cut_by(span: Span, x: u32) -> bool
    ensures { result ≡ is_cut_by span x }
{
    span.lo < x && x <= span.hi
}

pub(crate) fn divides(slot: Slot, kind: SplitKind) -> bool
    ensures { result ≡ divides slot kind }
{
    match kind {
        SplitKind::Ops(set) => {
            let going = slot.live() & set;
            0 < going && going < slot.live()
        }
        SplitKind::Volume(x) => is_cut_by(slot.volume, x) && 0 < slot.operations(),
        SplitKind::Start(x) => is_cut_by(slot.start, x) && 0 < slot.operations(),
        SplitKind::End(x) => is_cut_by(slot.end, x) && 0 < slot.operations(),
    }
}

/// The entries of the set that are not in the other.
fn without(set: u64, other: u64) -> u64
    ensures { result ≡ set - bit_and set other }
{
    set & !other
}

pub(crate) fn left_half(slot: Slot, kind: SplitKind) -> Slot
    requires shape { IsSlot slot }
    requires divided { IsTrue (divides slot kind) }
    ensures value { result ≡ left_half slot kind }
    ensures shape { IsSlot result }
{
    let mut half = slot;
    match kind {
        SplitKind::Ops(set) => half.ops &= set,
        SplitKind::Volume(x) => half.volume.hi = x - 1,
        SplitKind::Start(x) => half.start.hi = x - 1,
        SplitKind::End(x) => half.end.hi = x - 1,
    }
    half
}

pub(crate) fn right_half(slot: Slot, kind: SplitKind) -> Slot
    requires shape { IsSlot slot }
    requires divided { IsTrue (divides slot kind) }
    ensures value { result ≡ right_half slot kind }
    ensures shape { IsSlot result }
{
    let mut half = slot;
    match kind {
        SplitKind::Ops(set) => half.ops = without(half.ops, set),
        SplitKind::Volume(x) => half.volume.lo = x,
        SplitKind::Start(x) => half.start.lo = x,
        SplitKind::End(x) => half.end.lo = x,
    }
    half
}
