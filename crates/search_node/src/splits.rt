//! How a box is divided.
//!
//! Free: which slot, by what, and which entries go left. Owed: that the split is lawful and even, and that there is one
//! wherever the box has a second point.
//!
//! The slot with the most live entries is divided, the first of such slots. Its entries stand in the order of
//! unloadings, transfers and charges, each by source and destination, and idle last; the upper half of them goes left.
//! Where each slot has one entry, the widest interval is cut, a volume before a minute.

ghost use Rattle.std.specs.Prelude.{◌≡◌, ◌⊎◌, ◌+◌, ◌-◌, ◌/◌, ◌<◌, ◌≤◌, ◌↔◌, length, All, IfSome, MatchOption};
ghost use Rattle.slot_box.specs.Boxes.{IsBox, points_of, slot_at};
ghost use Rattle.slot_box.specs.Splits.{IsLawfulSplit};
ghost use Rattle.slot_box.specs.Even.{IsEvenSplit};
ghost use Rattle.search_node.specs.inside.Splitting.{Follows, HasOneEntry, HasOneTime, HasOneVolume, IsGood, MayChoose};

use crate::halves::upper_half;
use plant_model::Plant;
use slot_box::{Slot, SlotBox, Span, Split, SplitKind};

/// The slot with the most live entries, the first of equals, where one has two or more.
fn widest_choice(bx: &SlotBox) -> Option<u32>
    ensures shape { IsBox bx.now }
    ensures found { MatchOption result (All HasOneEntry bx.now) (MayChoose bx.now) }
{
    let mut widest = None;
    let mut most = 1;
    for i in 0..bx.len() {
        let count = bx.live(i + 1).count_ones();
        if count > most {
            most = count;
            widest = Some(i + 1);
        }
    }
    widest
}

/// An interval of a slot that may be cut, and how wide it is.
#[derive(Clone, Copy, Debug, PartialEq, Eq)]
struct Cut {
    split: Split,
    width: u32,
}

/// The number in the middle of an interval.
fn middle(span: Span) -> u32
    requires order { span.lo ≤ span.hi }
    ensures { result ≡ span.lo + (span.hi - span.lo + 1) / 2 }
{
    span.hi - (span.hi - span.lo) / 2
}

/// The wider of a cut and the one of another interval of a slot; of equals the first.
fn wider(best: Option<Cut>, span: Span, slot: u32, kind: SplitKind) -> Option<Cut>
    requires { span.lo ≤ span.hi }
    ensures none { (result ≡ None) ↔ ((best ≡ None) × (span.lo ≡ span.hi)) }
    ensures some { IfSome result (λ cut. (best ≡ Some cut)
        ⊎ ((span.lo < span.hi) × (cut.split ≡ record { slot = slot; kind = kind }))) }
{
    let width = span.hi - span.lo;
    let split = Split { slot, kind };
    match best {
        Some(cut) if width <= cut.width => Some(cut),
        Some(_) => Some(Cut { split, width }),
        None if width == 0 => None,
        None => Some(Cut { split, width }),
    }
}

/// The wider of a cut and that of a slot's volumes, which count where the slot is fixed to an operation.
fn wider_volume(bx: &SlotBox, slot: u32, best: Option<Cut>) -> Option<Cut>
    requires shape { IsBox bx.now }
    requires from_one { 1 ≤ slot }
    requires there { slot ≤ length bx.now }
    requires one { HasOneEntry (slot_at bx.now slot) }
    ensures { Follows (HasOneVolume (slot_at bx.now slot)) bx.now best result }
{
    if bx.fixed_at(slot).is_none() {
        return best;
    }
    let span = bx.slot(slot).volume;
    wider(best, span, slot, SplitKind::Volume(middle(span)))
}

/// Likewise of its starts and its ends.
fn wider_minutes(bx: &SlotBox, slot: u32, best: Option<Cut>) -> Option<Cut>
    requires shape { IsBox bx.now }
    requires from_one { 1 ≤ slot }
    requires there { slot ≤ length bx.now }
    requires one { HasOneEntry (slot_at bx.now slot) }
    ensures { Follows (HasOneTime (slot_at bx.now slot)) bx.now best result }
{
    if bx.fixed_at(slot).is_none() {
        return best;
    }
    let Slot { start, end, .. } = bx.slot(slot);
    let first = wider(best, start, slot, SplitKind::Start(middle(start)));
    wider(first, end, slot, SplitKind::End(middle(end)))
}

/// The widest interval of volumes.
fn widest_volume(bx: &SlotBox) -> Option<Cut>
    requires { All HasOneEntry bx.now }
    ensures shape { IsBox bx.now }
    ensures found { MatchOption result (All HasOneVolume bx.now) (λ cut. IsGood bx.now cut.split) }
{
    let mut best = None;
    for i in 0..bx.len() {
        best = wider_volume(bx, i + 1, best);
    }
    best
}

/// The widest interval of minutes.
fn widest_minutes(bx: &SlotBox) -> Option<Cut>
    requires { All HasOneEntry bx.now }
    ensures { MatchOption result (All HasOneTime bx.now) (λ cut. IsGood bx.now cut.split) }
{
    let mut best = None;
    for i in 0..bx.len() {
        best = wider_minutes(bx, i + 1, best);
    }
    best
}

/// The cut of the widest interval, where each slot has one entry.
fn widest_cut(bx: &SlotBox) -> Option<Split>
    requires { All HasOneEntry bx.now }
    ensures lawful { MatchOption result (points_of bx.now ≡ 1) (IsLawfulSplit bx.now) }
    ensures even { IfSome result (IsEvenSplit bx.now) }
{
    match widest_volume(bx) {
        Some(cut) => Some(cut.split),
        None => Some(widest_minutes(bx)?.split),
    }
}

/// A lawful and even split of a box with a second point.
pub(crate) fn even_split(plant: &Plant, bx: &SlotBox) -> Option<Split>
    ensures lawful { MatchOption result (points_of bx.now ≡ 1) (IsLawfulSplit bx.now) }
    ensures even { IfSome result (IsEvenSplit bx.now) }
{
    match widest_choice(bx) {
        None => widest_cut(bx),
        Some(slot) => Some(Split {
            slot,
            kind: SplitKind::Ops(upper_half(plant, bx.live(slot))),
        }),
    }
}
