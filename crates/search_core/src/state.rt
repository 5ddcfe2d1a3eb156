use crate::machine::Machine;
use crate::note::CoreNote;
use crate::{CoreFault, Event};
use std::alloc::{AllocError, Global};
use std::marker::Model;

/// The machine, which is good at all times. It is seen as the state that it is in.
#[derive(Drop)]
pub struct CoreState {
    machine: Machine,
}

impl Model for CoreState {
    ghost use Rattle.search_core.specs.Cores.{Core};
    ghost use Rattle.search_core.specs.Good.{IsGood};

    ghost Value = { Core };

    ghost view = { λ state. state.machine };

    ghost invariant = { λ state. IsGood state.machine };
}

impl CoreState {
    ghost use Rattle.std.specs.Prelude.{◌≡◌, ◌+◌, ◌<◌, ◌≤◌, ◌↔◌, IsTrue, Err, IfOk, OnOk, OnErr, length, slice_get, Some};
    ghost use Rattle.limits.specs.declared.TheConstants.{MOST_NODES, MOST_WORKERS};
    ghost use Rattle.search_core.specs.Cores.{first_core};
    ghost use Rattle.search_core.specs.Events.{is_enabled, after};
    ghost use Rattle.search_core.specs.Good.{IsGood};
    ghost use Rattle.search_core.specs.Laws.{GivesTheBudget, SettlesWhenIdle};

    /// So many workers and this budget. Worker 0 has node 0 in hand. One worker more than a search has may end it.
    pub fn new(alloc: Global, workers: u32, budget: u32) -> Result<CoreState, AllocError>
        requires some_workers { 1 ≤ workers }
        requires most_workers { workers ≤ MOST_WORKERS + 1 }
        requires budget { budget ≤ MOST_NODES }
        ensures first { IfOk result (λ core. core ≡ first_core workers budget) }
        ensures good { IfOk result IsGood }
        ensures given { IfOk result GivesTheBudget }
        ensures settled { IfOk result SettlesWhenIdle }
    {
        Ok(CoreState {
            machine: Machine::new(alloc, workers, budget)?,
        })
    }

    /// Lets the event come, unless its condition fails.
    pub fn step(&mut self, event: Event) -> Result<(), CoreFault>
        ensures refused { (result ≡ Err CoreFault.NotEnabled) ↔ ¬ (IsTrue (is_enabled self.old event)) }
        ensures ok { OnOk result (IsTrue (is_enabled self.old event) × (self.new ≡ after self.old event)) }
        ensures err { OnErr result (self.new ≡ self.old) }
        ensures good { IsGood self.new }
        ensures given { GivesTheBudget self.new }
        ensures settled { SettlesWhenIdle self.new }
    {
        if !self.machine.is_enabled(event) {
            return Err(CoreFault::NotEnabled);
        }
        self.machine.apply(event).map_err(|_| CoreFault::Memory)
    }

    /// How many notes were written.
    pub fn note_count(&self) -> u32
        ensures { result ≡ length self.now.notes }
    {
        self.machine.notes().len() as u32
    }

    /// The note of this number, from 0, in the order of the events.
    pub fn note(&self, k: u32) -> CoreNote
        requires { k < length self.now.notes }
        ensures { slice_get self.now.notes k ≡ Some result }
    {
        self.machine.notes()[k as usize]
    }
}
