use crate::mask::{below, contains};
use item_lists::Copies;
use std::alloc::{AllocError, Global};
use std::marker::Model;

/// Reads words of operations, letter by letter, and refuses those that are not normal. It is seen as
/// the masks of independence, one for each operation.
#[derive(Debug, Drop)]
pub struct Automaton {
    independent: Copies<u64>,
}

impl Model for Automaton {
    ghost use Rattle.std.specs.Prelude.{ℕ, List, length, ◌≤◌};

    ghost Value = { List ℕ };

    ghost view = { λ automaton. automaton.independent };

    ghost use Rattle.limits.specs.declared.TheConstants.{MOST_OPERATIONS};

    ghost invariant = { λ automaton. length automaton.independent ≤ MOST_OPERATIONS };
}

impl Automaton {
    ghost use Rattle.std.specs.Prelude.{◌≡◌, ◌^◌, ◌<◌, ◌≤◌, ◌↔◌, length, All, IfOk, IfSome, IsNone, IsBitSet};
    ghost use Rattle.limits.specs.declared.TheConstants.{MOST_OPERATIONS};
    ghost use Rattle.slot_automaton.specs.Normal.{IsNormal, IsFirstRefused};
    ghost use Rattle.slot_automaton.specs.Blocked.{next_blocked, IsNextBlocked};

    /// The automaton of these masks: bit `a` of mask `b` says that `a` is independent of `b`.
    pub fn new(alloc: Global, independent: &[u64]) -> Result<Automaton, AllocError>
        requires { length independent.now ≤ MOST_OPERATIONS }
        ensures { IfOk result (λ automaton. automaton ≡ independent.now) }
    {
        Ok(Automaton {
            independent: Copies::new(alloc, independent)?,
        })
    }

    /// The state before the first letter: no operation is blocked.
    pub fn start(&self) -> u64
        ensures { result ≡ 0 }
    {
        0
    }

    /// Reads one operation in the state, which is the mask of the blocked ones, and gives the state
    /// after it.
    pub fn step(&self, state: u64, op: u8) -> Option<u64>
        requires { op < length self.now }
        ensures refused { IsNone result ↔ IsBitSet state op }
        ensures next { IfSome result (λ next. next ≡ next_blocked self.now state op) }
        ensures blocked { IfSome result (IsNextBlocked self.now state op) }
    {
        let independent = self.independent.as_slice();
        if contains(state, op) {
            return None;
        }
        Some((state | below(op)) & independent[op as usize])
    }

    /// The place, from 1, of the first letter that is refused.
    pub fn first_refused(&self, word: &[u8]) -> Option<u32>
        requires known { All (λ op. op < length self.now) word.now }
        requires short { length word.now < 2 ^ 32 }
        ensures none { IsNone result ↔ IsNormal self.now word.now }
        ensures first { IfSome result (IsFirstRefused self.now word.now) }
    {
        let mut state = self.start();
        for (read, &op) in word.iter().enumerate() {
            let Some(next) = self.step(state, op) else {
                return Some(read as u32 + 1);
            };
            state = next;
        }
        None
    }
}

// Threads share the automaton.
fn may_cross<T: Send + Sync>(_value: &T) {}

fn automaton_may_cross(automaton: &Automaton) {
    may_cross(automaton);
}
