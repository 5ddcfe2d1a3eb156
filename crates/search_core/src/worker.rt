ghost use Rattle.std.specs.Prelude.{◌≡◌, ◌+◌, ◌*◌, ◌^◌, ◌<◌, IsTrue, Some, OnOk, OnErr, nat_lt};
ghost use Rattle.search_core.specs.Cores.{fresh_worker};
ghost use Rattle.search_core.specs.Events.{can_take, can_draw, can_close, taking, drawing, dividing};
ghost use Rattle.number_laws.specs.Missing.{greater};

use crate::queue::Queue;
use std::alloc::{AllocError, Global};

/// What one worker has.
#[derive(Drop)]
pub(crate) struct Worker {
    /// The node that it works on.
    pub(crate) hand: Option<u32>,
    /// The ticket that it holds for that node.
    pub(crate) ticket: Option<u32>,
    /// Whether it was refused a ticket.
    pub(crate) spent: bool,
    /// Nodes that wait for it alone.
    pub(crate) kept: Queue,
    /// Nodes that wait for whoever takes them first.
    pub(crate) deck: Queue,
    /// The greatest margin that it has offered.
    pub(crate) offered: Option<i64>,
    /// The best margin when it looked last.
    pub(crate) seen: Option<i64>,
    /// How many cuts stand on its list.
    pub(crate) cuts: u32,
}

impl Worker {
    pub(crate) fn new(alloc: Global, hand: Option<u32>) -> Worker
        ensures { result ≡ fresh_worker hand }
    {
        Worker {
            hand,
            ticket: None,
            spent: false,
            kept: Queue::new(alloc),
            deck: Queue::new(alloc),
            offered: None,
            seen: None,
            cuts: 0,
        }
    }

    pub(crate) fn can_take(&self) -> bool
        ensures { result ≡ can_take self.now }
    {
        self.hand.is_none() && (!self.kept.is_empty() || !self.deck.is_empty())
    }

    pub(crate) fn can_draw(&self) -> bool
        ensures { result ≡ can_draw self.now }
    {
        self.hand.is_some() && self.ticket.is_none() && !self.spent
    }

    pub(crate) fn can_close(&self) -> bool
        ensures { result ≡ can_close self.now }
    {
        self.hand.is_some() && self.ticket.is_none()
    }

    pub(crate) fn take(&mut self)
        requires { IsTrue (can_take self.old) }
        ensures { self.new ≡ taking self.old }
    {
        match self.kept.pop() {
            Some(id) => self.hand = Some(id),
            None => self.hand = self.deck.pop(),
        }
    }

    /// Gets the ticket of this number, or is spent.
    pub(crate) fn draw(&mut self, budget: u32, number: u32)
        ensures { self.new ≡ drawing budget number self.old }
    {
        if number < budget {
            self.ticket = Some(number);
        } else {
            self.spent = true;
        }
    }

    /// Goes on with the left part. Where memory is refused for the right part nothing changes.
    pub(crate) fn divide(&mut self, to_kept: bool, ticket: u32) -> Result<(), AllocError>
        requires { 2 * ticket + 2 < 2 ^ 32 }
        ensures ok { OnOk result (self.new ≡ dividing to_kept ticket self.old) }
        ensures err { OnErr result (self.new ≡ self.old) }
    {
        let right = 2 * ticket + 2;
        if to_kept {
            self.kept.push(right)?;
        } else {
            self.deck.push(right)?;
        }
        self.hand = Some(2 * ticket + 1);
        self.ticket = None;
        Ok(())
    }
}

/// The greater of a margin and the best so far.
pub(crate) fn better(best: Option<i64>, margin: i64) -> Option<i64>
    ensures { result ≡ greater best (Some margin) }
{
    match best {
        None => Some(margin),
        Some(best) => Some(if best < margin { margin } else { best }),
    }
}
