ghost use Rattle.std.specs.Prelude.{◌≡◌, ℕ, ◌+◌, ◌-◌, ◌^◌, ◌<◌, ◌≤◌, ◌↔◌, min, length, slice_set, All, IsTrue, IsBitSet, IfSome, IfOk, OnOk, List};
ghost use Rattle.limits.specs.declared.TheConstants.{MOST_HORIZON, MOST_OPERATIONS, MOST_SLOTS, MOST_VOLUME};
ghost use Rattle.slot_box.specs.Boxes.{points_of};
ghost use Rattle.slot_box.specs.Slots.{IsSlot, ways_of};

use crate::split::{divides, left_half, right_half};
use crate::{IDLE, Slot, Span, Split, SplitFault};
use std::alloc::{AllocError, Global};
use std::marker::Model;

/// What is allowed in each of a number of slots. A box always has a point.
#[derive(Debug, Drop)]
pub struct SlotBox {
    slots: Vec<Slot>,
}

impl Model for SlotBox {
    ghost use Rattle.std.specs.Prelude.{List};
    ghost use Rattle.slot_box.specs.declared.slot.Slot.{Slot};
    ghost use Rattle.slot_box.specs.Boxes.{IsBox};

    ghost Value = { List Slot };

    ghost view = { λ bx. bx.slots.items };

    ghost invariant = { λ bx. IsBox bx.slots.items };
}

impl SlotBox {
    ghost use Rattle.slot_box.specs.Boxes.{IsBox, IsPoint, HasPoint, HasOnePoint, IsWithinRoot, StaysWithinRoot, RunsAlways, root_of, slot_at, only_point};
    ghost use Rattle.slot_box.specs.Counting.{IsCountOf};
    ghost use Rattle.slot_box.specs.Slots.{IsLive, IsFixedTo, live_of, fixed_of};
    ghost use Rattle.slot_box.specs.Splits.{IsLawfulSplit, IsPartition, left_of, right_of, is_lawful};

    /// The box of all that `ops` operations, volumes up to `volume` and minutes up to `horizon` allow
    /// in `n` slots.
    pub fn root(
        alloc: Global,
        n: u32,
        ops: u8,
        volume: u32,
        horizon: u32,
    ) -> Result<SlotBox, AllocError>
        requires some_slots { 1 ≤ n }
        requires most_slots { n ≤ MOST_SLOTS }
        requires most_ops { ops ≤ MOST_OPERATIONS }
        requires most_volume { volume ≤ MOST_VOLUME }
        requires some_minutes { 1 ≤ horizon }
        requires most_minutes { horizon ≤ MOST_HORIZON }
        ensures value { IfOk result (λ bx. bx ≡ root_of n ops volume horizon) }
        ensures within { IfOk result (λ bx. IsWithinRoot ops volume horizon bx) }
    {
        let whole = Slot {
            ops: IDLE + ((1 << ops) - 1),
            volume: Span { lo: 0, hi: volume },
            start: Span { lo: 0, hi: horizon },
            end: Span { lo: 0, hi: horizon },
        };
        Ok(SlotBox {
            slots: vec![in alloc; whole; n as usize]?,
        })
    }

    /// The slot of this number, from 1.
    pub fn slot(&self, i: u32) -> Slot
        requires from_one { 1 ≤ i }
        requires there { i ≤ length self.now }
        ensures value { result ≡ slot_at self.now i }
        ensures shape { IsSlot result }
    {
        self.slots[(i - 1) as usize]
    }

    /// The number of slots.
    pub fn len(&self) -> u32
        ensures value { result ≡ length self.now }
        ensures shape { IsBox self.now }
    {
        self.slots.len() as u32
    }

    /// The set of the live entries of a slot: bit `v` for operation `v`, bit 63 for idle.
    pub fn live(&self, i: u32) -> u64
        requires from_one { 1 ≤ i }
        requires there { i ≤ length self.now }
        ensures value { result ≡ live_of (slot_at self.now i) }
        ensures each { (bit : ℕ) → IsBitSet result bit ↔ IsLive (slot_at self.now i) bit }
    {
        self.slot(i).live()
    }

    /// The operation to which a slot is fixed.
    pub fn fixed_at(&self, i: u32) -> Option<u8>
        requires from_one { 1 ≤ i }
        requires there { i ≤ length self.now }
        ensures value { result ≡ fixed_of (slot_at self.now i) }
        ensures some { (op : ℕ) → (result ≡ Some op) ↔ IsFixedTo (slot_at self.now i) op }
        ensures runs { IfSome result (RunsAlways self.now i) }
    {
        self.slot(i).fixed()
    }

    /// Whether the box has just one point.
    pub fn is_point(&self) -> bool
        ensures one { IsTrue result ↔ HasOnePoint self.now }
        ensures number { IsTrue result ↔ (points_of self.now ≡ 1) }
        ensures point { IsTrue result → IsPoint self.now (only_point self.now) }
    {
        let _ = &self.slots;
        self.points() == 1
    }

    /// How many points there are. Past the greatest `u128` it is that number.
    pub fn points(&self) -> u128
        ensures value { result ≡ min (points_of self.now) (2 ^ 128 - 1) }
        ensures some { HasPoint self.now }
        ensures number { IsCountOf (IsPoint self.now) (points_of self.now) }
    {
        points_in(&self.slots)
    }

    /// The two parts of the box. A split that is not lawful is refused as such, whatever memory there is.
    pub fn split(&self, alloc: Global, split: Split) -> Result<(SlotBox, SlotBox), SplitFault>
        ensures bad { (result ≡ Err SplitFault.BadSplit) ↔ (¬ (IsLawfulSplit self.now split)) }
        ensures lawful { OnOk result (IsLawfulSplit self.now split) }
        ensures left { IfOk result (λ parts. parts.0 ≡ left_of self.now split) }
        ensures right { IfOk result (λ parts. parts.1 ≡ right_of self.now split) }
        ensures points { IfOk result (λ parts. IsPartition self.now split parts.0 parts.1) }
        ensures count { IfOk result (λ parts. points_of parts.0 + points_of parts.1 ≡ points_of self.now) }
        ensures within { IfOk result (λ parts. StaysWithinRoot self.now parts.0 × StaysWithinRoot self.now parts.1) }
    {
        if !self.is_lawful(split) {
            return Err(SplitFault::BadSplit);
        }
        Ok(self.divide(alloc, split)?)
    }

    /// The two parts of the box by a split that is known to be lawful.
    pub fn divide(&self, alloc: Global, split: Split) -> Result<(SlotBox, SlotBox), AllocError>
        requires { IsLawfulSplit self.now split }
        ensures left { IfOk result (λ parts. parts.0 ≡ left_of self.now split) }
        ensures right { IfOk result (λ parts. parts.1 ≡ right_of self.now split) }
        ensures points { IfOk result (λ parts. IsPartition self.now split parts.0 parts.1) }
        ensures count { IfOk result (λ parts. points_of parts.0 + points_of parts.1 ≡ points_of self.now) }
        ensures within { IfOk result (λ parts. StaysWithinRoot self.now parts.0 × StaysWithinRoot self.now parts.1) }
    {
        let _ = &self.slots;
        let slot = self.slot(split.slot);
        let left = self.with_slot(alloc, split.slot, left_half(slot, split.kind))?;
        let right = self.with_slot(alloc, split.slot, right_half(slot, split.kind))?;
        Ok((left, right))
    }

    /// A box of the same slots.
    pub fn copy(&self, alloc: Global) -> Result<SlotBox, AllocError>
        ensures { IfOk result (λ bx. bx ≡ self.now) }
    {
        Ok(SlotBox {
            slots: Vec::from_slice(alloc, &self.slots)?,
        })
    }

    fn is_lawful(&self, split: Split) -> bool
        ensures { IsTrue result ↔ IsLawfulSplit self.now split }
    {
        let _ = &self.slots;
        self.passes(split)
    }

    fn passes(&self, split: Split) -> bool
        ensures { result ≡ is_lawful self.now split }
    {
        1 <= split.slot && split.slot <= self.len() && divides(self.slot(split.slot), split.kind)
    }

    /// A copy of the box with another slot in the place of one.
    fn with_slot(&self, alloc: Global, i: u32, slot: Slot) -> Result<SlotBox, AllocError>
        requires from_one { 1 ≤ i }
        requires there { i ≤ length self.now }
        requires slot { IsSlot slot }
        ensures { IfOk result (λ bx. bx ≡ slice_set self.now (i - 1) slot) }
    {
        Ok(SlotBox {
            slots: with_item(alloc, &self.slots, (i - 1) as usize, slot)?,
        })
    }
}

/// A copy of the slots with another one at a place.
fn with_item(alloc: Global, slots: &[Slot], at: usize, slot: Slot) -> Result<Vec<Slot>, AllocError>
    requires { at < length slots.now }
    ensures { IfOk result (λ copy. copy.items ≡ slice_set slots.now at slot) }
{
    let mut copy = Vec::from_slice(alloc, slots)?;
    copy[at] = slot;
    Ok(copy)
}

/// The product of the ways of the slots. Past the greatest `u128` it is that number.
fn points_in(slots: &[Slot]) -> u128
    requires { All IsSlot slots.now }
    ensures { result ≡ min (points_of slots.now) (2 ^ 128 - 1) }
{
    let mut points: u128 = 1;
    for slot in slots {
        points = points.saturating_mul(slot.ways());
    }
    points
}

#[cfg(test)]
mod tests {
    use super::*;
    use crate::SplitKind;
    use std::test::Fail;

    fn at(slot: u32, kind: SplitKind) -> Split {
        Split { slot, kind }
    }

    #[test]
    fn a_root_box_allows_all(rt: HostRuntime) -> Result<(), Fail> {
        let bx = SlotBox::root(rt.alloc(), 2, 3, 10, 60)?;
        assert_eq!(rt; bx.len(), 2);
        let whole = Slot {
            ops: 0x8000_0000_0000_0007,
            volume: Span { lo: 0, hi: 10 },
            start: Span { lo: 0, hi: 60 },
            end: Span { lo: 0, hi: 60 },
        };
        assert_eq!(rt; bx.slot(1), whole);
        assert_eq!(rt; bx.copy(rt.alloc())?.slot(2), whole);
        assert_eq!(rt;
            SlotBox::root(rt.alloc(), 40, 48, 10_000_000, 100_000)?.points(),
            u128::MAX
        );
        Ok(())
    }

    // one slot of one charge of up to 4 units in 2 minutes, or idle
    fn one_charge(alloc: Global) -> Result<SlotBox, AllocError> {
        SlotBox::root(alloc, 1, 1, 4, 2)
    }

    #[test]
    fn a_split_that_is_not_lawful_is_refused(rt: HostRuntime) -> Result<(), Fail> {
        let root = one_charge(rt.alloc())?;
        let bad = root.split(rt.alloc(), at(1, SplitKind::Volume(0)));
        assert_eq!(rt; bad.err(), Some(SplitFault::BadSplit));
        let bad = root.split(rt.alloc(), at(2, SplitKind::Volume(1)));
        assert_eq!(rt; bad.err(), Some(SplitFault::BadSplit));
        Ok(())
    }

    #[test]
    fn the_charge_and_idle_go_apart(rt: HostRuntime) -> Result<(), Fail> {
        let root = one_charge(rt.alloc())?;
        assert_eq!(rt; root.points(), 46);
        assert!(rt; !root.is_point());
        let (left, right) = root.split(rt.alloc(), at(1, SplitKind::Ops(1)))?;
        assert_eq!(rt; left.points(), 45);
        assert_eq!(rt; left.len(), 1);
        assert_eq!(rt; left.fixed_at(1), Some(0));
        assert_eq!(rt; right.points(), 1);
        assert!(rt; right.is_point());
        assert_eq!(rt; right.len(), 1);
        assert_eq!(rt; right.live(1), IDLE);
        assert_eq!(rt; right.fixed_at(1), None);
        Ok(())
    }

    // idle is no longer live where a volume is wanted
    #[test]
    fn volumes_go_apart(rt: HostRuntime) -> Result<(), Fail> {
        let root = one_charge(rt.alloc())?;
        let (left, right) = root.split(rt.alloc(), at(1, SplitKind::Volume(2)))?;
        assert_eq!(rt; left.points(), 19);
        assert_eq!(rt; right.points(), 27);
        assert_eq!(rt; right.len(), 1);
        assert_eq!(rt; right.fixed_at(1), Some(0));
        Ok(())
    }
}
