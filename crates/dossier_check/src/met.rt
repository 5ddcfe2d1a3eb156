//! What is kept of the nodes that were met: the tickets that are held, and the boxes of the nodes that
//! are still to come.

ghost use Rattle.std.specs.Prelude.{◌≡◌, ℕ, ◌+◌, ◌*◌, ◌<◌, ◌≤◌, nat_lt, not, ◌&&◌, false, true, List, [], ◌∷◌, Some, None, length, slice_index_or, slice_set, replicate, IfOk, IfSome};
ghost use Rattle.limits.specs.declared.TheConstants.{MOST_NODES};
ghost use Rattle.slot_box.specs.declared.slot.Slot.{Slot};
ghost use Rattle.slot_box.specs.declared.split.Split.{Split};
ghost use Rattle.slot_box.specs.Splits.{left_of, right_of};
ghost use Rattle.dossier_check.specs.Earlier.{Holder};
ghost use Rattle.dossier_check.specs.inside.Walks.{Keeps, KeepsWith, IsSized};

use slot_box::SlotBox;
use std::alloc::{AllocError, Global};

/// What is kept of the nodes that were met.
#[derive(Debug, Drop)]
pub(crate) struct Met {
    /// By tickets: whether an inner node holds it.
    pub(crate) held: Vec<bool>,
    /// By ids: the box of a node that is still to come, where its parent was met. A node takes its own.
    pub(crate) waiting: Vec<Option<SlotBox>>,
}

/// The boxes of nodes that wait: this one for node 0, and none so far for so many others.
fn waiting_with(
    alloc: Global,
    root: SlotBox,
    others: u32,
) -> Result<Vec<Option<SlotBox>>, AllocError>
    ensures { IfOk result (λ waiting. waiting.items ≡ Some root ∷ replicate others None) }
{
    let mut waiting = Vec::new(alloc);
    waiting.push(Some(root))?;
    for _node in 0..others {
        waiting.push(None)?;
    }
    Ok(waiting)
}

impl Met {
    /// Before any node was met: t tickets, none of them held, and the root box for node 0.
    pub(crate) fn none(alloc: Global, t: u32, root: SlotBox) -> Result<Met, AllocError>
        requires { t ≤ MOST_NODES }
        ensures keeps { IfOk result (Keeps root t [] 0) }
        ensures sized { IfOk result (IsSized (length root)) }
    {
        Ok(Met {
            held: vec![in alloc; false; t as usize]?,
            waiting: waiting_with(alloc, root, 2 * t)?,
        })
    }

    /// The box of the node of this id, which is taken out.
    pub(crate) fn take(&mut self, id: u32) -> Option<SlotBox>
        requires { id < length self.old.waiting.items }
        ensures value { result ≡ slice_index_or self.old.waiting.items id None }
        ensures waiting { self.new.waiting.items ≡ slice_set self.old.waiting.items id None }
        ensures held { self.new.held.items ≡ self.old.held.items }
        ensures keeps { (root : List Slot) (t : ℕ) (earlier : List Holder) → Keeps root t earlier id self.old
            → Keeps root t earlier (id + 1) self.new }
        ensures sized { (n : ℕ) → IsSized n self.old → IsSized n self.new }
        ensures size { (n : ℕ) → IsSized n self.old → IfSome result (λ bx. length bx ≡ n) }
    {
        self.waiting[id as usize].take()
    }

    /// Whether the ticket is one of those that there are, and no node holds it yet.
    pub(crate) fn is_free(&self, ticket: u32) -> bool
        ensures { result ≡ (nat_lt ticket (length self.now.held.items)
            && not (slice_index_or self.now.held.items ticket false)) }
    {
        (ticket as usize) < self.held.len() && !self.held[ticket as usize]
    }

    /// Has the ticket held, and the two parts of its holder's box wait.
    pub(crate) fn hold(&mut self, ticket: u32, left: SlotBox, right: SlotBox)
        requires ticket { ticket < length self.old.held.items }
        requires nodes { length self.old.waiting.items ≡ 2 * length self.old.held.items + 1 }
        requires few { length self.old.held.items ≤ MOST_NODES }
        ensures held { self.new.held.items ≡ slice_set self.old.held.items ticket true }
        ensures waiting { self.new.waiting.items
            ≡ slice_set (slice_set self.old.waiting.items (2 * ticket + 1) (Some left)) (2 * ticket + 2) (Some right) }
        ensures keeps { let t = length self.old.held.items in
            (root box : List Slot) (earlier : List Holder) (split : Split) (id : ℕ)
            → left ≡ left_of box split → right ≡ right_of box split → Keeps root t earlier id self.old
            → KeepsWith root t earlier id box ticket split self.new }
        ensures sized { (n : ℕ) → length left ≡ n → length right ≡ n → IsSized n self.old → IsSized n self.new }
    {
        self.held[ticket as usize] = true;
        self.waiting[2 * ticket as usize + 1] = Some(left);
        self.waiting[2 * ticket as usize + 2] = Some(right);
    }
}
