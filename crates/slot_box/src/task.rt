ghost use Rattle.std.specs.Prelude.{◌≡◌, ℕ, ◌≤◌, length, All};
ghost use Rattle.limits.specs.declared.TheConstants.{MOST_MULTIPLIER};
ghost use Rattle.slot_box.specs.Boxes.{IsBox};
ghost use Rattle.slot_box.specs.Tasks.{IsWarmStart};

use crate::{SlotBox, Term, Terms};
use item_lists::Items;
use std::marker::Model;

/// A node of the search tree that is still to be examined: its number, its box, and the denominator
/// and entries of its parent's leaf, to start from. They are within their limits.
#[derive(Debug, Drop)]
pub struct Task {
    id: u32,
    bx: SlotBox,
    q: u64,
    warm: Terms,
}

impl Model for Task {
    ghost use Rattle.slot_box.specs.Tasks.{TaskParts, IsTask, task_of};

    ghost Value = { TaskParts };

    ghost view = { λ task. task_of task.id task.bx task.q task.warm };

    ghost invariant = { λ task. IsTask (task_of task.id task.bx task.q task.warm) };
}

pub type Tasks = Items<Task>;

impl Task {
    /// The task of a node.
    pub fn new(id: u32, bx: SlotBox, q: u64, warm: Terms) -> Task
        requires some_q { 1 ≤ q }
        requires most_q { q ≤ MOST_MULTIPLIER }
        requires warm { IsWarmStart warm }
        ensures id { result.id ≡ id }
        ensures bx { result.box ≡ bx }
        ensures q { result.q ≡ q }
        ensures warm { result.entries ≡ warm }
    {
        Task { id, bx, q, warm }
    }

    /// The number of the node.
    pub fn id(&self) -> u32
        ensures { result ≡ self.now.id }
    {
        self.id
    }

    /// The box of the node.
    pub fn bx(&self) -> &SlotBox
        ensures value { result.now ≡ self.now.box }
        ensures shape { IsBox self.now.box }
    {
        &self.bx
    }

    /// The denominator to start from.
    pub fn q(&self) -> u64
        ensures value { result ≡ self.now.q }
        ensures some { 1 ≤ result }
        ensures most { result ≤ MOST_MULTIPLIER }
    {
        self.q
    }

    /// The entries to start from.
    pub fn warm(&self) -> &[Term]
        ensures value { result.now ≡ self.now.entries }
        ensures limits { IsWarmStart self.now.entries }
    {
        self.warm.as_slice()
    }

    /// The box alone.
    pub fn into_box(self) -> SlotBox
        ensures { result ≡ self.box }
    {
        let Task { bx, .. } = self;
        bx
    }
}

#[cfg(test)]
mod tests {
    use super::*;
    use std::test::Fail;

    #[test]
    fn a_task_has_what_it_was_made_of(rt: HostRuntime) -> Result<(), Fail> {
        let bx = SlotBox::root(rt.alloc(), 2, 1, 4, 2)?;
        let task = Task::new(7, bx, 3, Terms::new(rt.alloc()));
        assert_eq!(rt; task.id(), 7);
        assert_eq!(rt; task.q(), 3);
        assert_eq!(rt; task.bx().len(), 2);
        assert_eq!(rt; task.warm().len(), 0);
        assert_eq!(rt; task.into_box().len(), 2);
        Ok(())
    }
}
