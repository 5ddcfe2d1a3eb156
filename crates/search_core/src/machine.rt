ghost use Rattle.std.specs.Prelude.{◌≡◌, ◌-◌, ◌^◌, ◌<◌, ◌≤◌, ◌∷◌, IsTrue, None, Some, IfOk, OnOk, OnErr, replicate};
ghost use Rattle.search_core.specs.Cores.{first_core, fresh_worker, worker_at};
ghost use Rattle.search_core.specs.Events.{is_known, is_enabled, after, with_note, ticket_in};
ghost use Rattle.search_core.specs.Good.{IsGood};

use crate::Event;
use crate::note::CoreNote;
use crate::worker::{Worker, better};
use item_lists::Items;
use limits::MOST_OWN_CUTS;
use std::alloc::{AllocError, Global};
use std::marker::Model;

/// The machine itself, which does what it is told as long as that can be done. It is seen as the state that it is in.
#[derive(Drop)]
pub(crate) struct Machine {
    workers: Vec<Worker>,
    /// How often a ticket was asked for.
    counter: u32,
    budget: u32,
    best: Option<i64>,
    notes: Items<CoreNote>,
}

impl Model for Machine {
    ghost use Rattle.search_core.specs.Cores.{Core, core_of};

    ghost Value = { Core };

    ghost view = { λ machine. core_of machine.workers.items machine.counter machine.budget machine.best machine.notes };
}

/// So many workers, the first with node 0 in hand.
fn fresh_workers(alloc: Global, count: u32) -> Result<Vec<Worker>, AllocError>
    requires { 1 ≤ count }
    ensures { IfOk result (λ workers.
        workers.items ≡ fresh_worker (Some 0) ∷ replicate (count - 1) (fresh_worker None)) }
{
    let mut workers = Vec::new(alloc);
    workers.push(Worker::new(alloc, Some(0)))?;
    for made in 1..count {
        workers.push(Worker::new(alloc, None))?;
    }
    Ok(workers)
}

impl Machine {
    pub(crate) fn new(alloc: Global, workers: u32, budget: u32) -> Result<Machine, AllocError>
        requires { 1 ≤ workers }
        ensures { IfOk result (λ machine. machine ≡ first_core workers budget) }
    {
        Ok(Machine {
            workers: fresh_workers(alloc, workers)?,
            counter: 0,
            budget,
            best: None,
            notes: Items::new(alloc),
        })
    }

    pub(crate) fn notes(&self) -> &[CoreNote]
        ensures { result.now ≡ self.now.notes }
    {
        self.notes.as_slice()
    }

    fn is_known(&self, w: u32) -> bool
        ensures { result ≡ is_known self.now w }
    {
        (w as usize) < self.workers.len()
    }

    fn can_steal(&self, w: u32, from: u32) -> bool
        ensures { result ≡ is_enabled self.now (Event.Steal w from) }
    {
        self.is_known(w)
            && self.is_known(from)
            && !(w == from)
            && self.workers[w as usize].hand.is_none()
            && !self.workers[from as usize].deck.is_empty()
    }

    pub(crate) fn is_enabled(&self, event: Event) -> bool
        ensures { result ≡ is_enabled self.now event }
    {
        match event {
            Event::Take { w } => self.is_known(w) && self.workers[w as usize].can_take(),
            Event::Steal { w, from } => self.can_steal(w, from),
            Event::Ticket { w } => self.is_known(w) && self.workers[w as usize].can_draw(),
            Event::Split { w, .. } => self.is_known(w) && self.workers[w as usize].ticket.is_some(),
            Event::Close { w } => self.is_known(w) && self.workers[w as usize].can_close(),
            Event::Offer { w, .. } => self.is_known(w),
            Event::See { w } => self.is_known(w),
            Event::PushCut { w } => {
                self.is_known(w) && self.workers[w as usize].cuts < MOST_OWN_CUTS
            }
        }
    }

    fn take(&mut self, w: u32)
        requires { IsTrue (is_enabled self.old (Event.Take w)) }
        ensures { self.new ≡ after self.old (Event.Take w) }
    {
        self.workers[w as usize].take();
    }

    fn steal(&mut self, w: u32, from: u32)
        requires { IsTrue (is_enabled self.old (Event.Steal w from)) }
        ensures { self.new ≡ after self.old (Event.Steal w from) }
    {
        let id = self.workers[from as usize].deck.pop();
        self.workers[w as usize].hand = id;
    }

    fn draw(&mut self, w: u32)
        requires known { IsTrue (is_enabled self.old (Event.Ticket w)) }
        requires small { self.old.counter < 2 ^ 31 }
        ensures { self.new ≡ after self.old (Event.Ticket w) }
    {
        self.workers[w as usize].draw(self.budget, self.counter);
        self.counter += 1;
    }

    /// Notes what became of the node in hand.
    fn note(&mut self, w: u32, ticket: Option<u32>) -> Result<(), AllocError>
        requires { IsTrue (is_known self.old w) }
        ensures ok { OnOk result (self.new ≡ with_note self.old w ticket) }
        ensures err { OnErr result (self.new ≡ self.old) }
    {
        let id = self.workers[w as usize].hand.unwrap_or(0);
        self.notes
            .push(CoreNote {
                worker: w,
                id,
                ticket,
            })
            .map_err(|_| AllocError)
    }

    fn split(&mut self, w: u32, to_kept: bool) -> Result<(), AllocError>
        requires known { IsTrue (is_enabled self.old (Event.Split w to_kept)) }
        requires small { ticket_in (worker_at self.old w) < 2 ^ 30 }
        ensures ok { OnOk result (self.new ≡ after self.old (Event.Split w to_kept)) }
        ensures err { OnErr result (self.new ≡ self.old) }
    {
        let ticket = self.workers[w as usize].ticket;
        self.note(w, ticket)?;
        let divided = self.workers[w as usize].divide(to_kept, ticket.unwrap_or(0));
        if divided.is_err() {
            self.notes.pop();
        }
        divided
    }

    fn close(&mut self, w: u32) -> Result<(), AllocError>
        requires { IsTrue (is_enabled self.old (Event.Close w)) }
        ensures ok { OnOk result (self.new ≡ after self.old (Event.Close w)) }
        ensures err { OnErr result (self.new ≡ self.old) }
    {
        self.note(w, None)?;
        self.workers[w as usize].hand = None;
        Ok(())
    }

    fn offer(&mut self, w: u32, margin: i64)
        requires { IsTrue (is_enabled self.old (Event.Offer w margin)) }
        ensures { self.new ≡ after self.old (Event.Offer w margin) }
    {
        let offered = better(self.workers[w as usize].offered, margin);
        self.workers[w as usize].offered = offered;
        self.best = better(self.best, margin);
    }

    fn see(&mut self, w: u32)
        requires { IsTrue (is_enabled self.old (Event.See w)) }
        ensures { self.new ≡ after self.old (Event.See w) }
    {
        self.workers[w as usize].seen = self.best;
    }

    fn push_cut(&mut self, w: u32)
        requires { IsTrue (is_enabled self.old (Event.PushCut w)) }
        ensures { self.new ≡ after self.old (Event.PushCut w) }
    {
        self.workers[w as usize].cuts += 1;
    }

    /// Does what the event says. Where memory is refused nothing changes.
    pub(crate) fn apply(&mut self, event: Event) -> Result<(), AllocError>
        requires can { IsTrue (is_enabled self.old event) }
        requires good { IsGood self.old }
        ensures ok { OnOk result (self.new ≡ after self.old event) }
        ensures err { OnErr result (self.new ≡ self.old) }
    {
        match event {
            Event::Take { w } => self.take(w),
            Event::Steal { w, from } => self.steal(w, from),
            Event::Ticket { w } => self.draw(w),
            Event::Split { w, kept } => return self.split(w, kept),
            Event::Close { w } => return self.close(w),
            Event::Offer { w, margin } => self.offer(w, margin),
            Event::See { w } => self.see(w),
            Event::PushCut { w } => self.push_cut(w),
        }
        Ok(())
    }
}
