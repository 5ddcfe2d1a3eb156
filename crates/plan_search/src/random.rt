//! Choices that look random, the same for the same hint.

ghost use Rattle.std.specs.Prelude.{◌<◌};

use rand_core::utils::NextWord;
use rand_pcg::Pcg32;

/// The stream of the numbers that are drawn.
const STREAM: u64 = 1;

/// How often chance says no at most.
const MOST_REFUSALS: u32 = 12;

/// A source of choices.
#[derive(Drop)]
pub(crate) struct Random {
    words: Pcg32,
}

/// One number for a list of operations.
fn seed_of(ops: &[u8]) -> u64 {
    let mut seed = 13u64;
    for v in ops {
        seed = seed.wrapping_mul(1_000_003).wrapping_add(u64::from(*v) + 1);
    }
    seed
}

impl Random {
    pub(crate) fn new(ops: &[u8]) -> Random {
        Random {
            words: Pcg32::new(seed_of(ops), STREAM),
        }
    }

    /// A number below the limit, and 0 where the limit is 0.
    pub(crate) fn below(&mut self, limit: usize) -> usize
        ensures { 0 < limit → result < limit }
    {
        let word: u32 = self.words.next_word();
        if limit == 0 {
            return 0;
        }
        word as usize % limit
    }

    /// Once in so many times.
    pub(crate) fn once_in(&mut self, times: usize) -> bool {
        self.below(times) == 0
    }

    /// How often chance says no before it says yes, each half the time; no more than a limit.
    pub(crate) fn refusals(&mut self) -> u32 {
        for refused in 0..MOST_REFUSALS {
            if self.once_in(2) {
                return refused;
            }
        }
        MOST_REFUSALS
    }

    /// One of the items, where there is one.
    pub(crate) fn one_of<T: Copy>(&mut self, items: &[T]) -> Option<T> {
        let at = self.below(items.len());
        items.get(at).copied()
    }
}
