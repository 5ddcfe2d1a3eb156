ghost use Rattle.std.specs.Prelude.{◌≡◌, ℕ, ◌+◌, ◌^◌, ◌<◌, ◌≤◌, pos};
ghost use Rattle.plant_maker.specs.Picks.{next_state, state_after, pick};

use std::marker::Model;

/// What a state is multiplied by, and what is then added.
const FACTOR: u64 = 1_103_515_245;

const SUMMAND: u64 = 12_345;

/// States have 32 bits, of which the lower 16 are not drawn.
const STATES: u64 = 1 << 32;

const LOWER_STATES: u64 = 1 << 16;

/// A day, in minutes.
pub(crate) const DAY: u32 = 1_440;

fn next_state(state: u64) -> u64
    requires { state < 2 ^ 32 }
    ensures value { result ≡ next_state state }
    ensures small { result < 2 ^ 32 }
{
    (state * FACTOR + SUMMAND) % STATES
}

/// The state behind so many picks.
#[tactic(auto, using(crate::proofs::PickLaws::pick_laws))]
fn state_after(number: u32, picks: u32) -> u64
    ensures value { result ≡ state_after number picks }
    ensures small { result < 2 ^ 32 }
{
    let mut state = u64::from(number);
    for _done in 0..picks {
        state = next_state(state);
    }
    state
}

/// One of so many numbers, from 0 on. Picks are few, so that each is made from the number anew.
#[tactic(auto, unfolding(crate::specs::Picks::draw_of))]
fn pick(number: u32, place: u32, count: u32) -> u32
    requires place { place < u32.MAX }
    requires count { 0 < count }
    ensures value { result ≡ pick number place count }
    ensures small { result < count }
{
    (state_after(number, place + 1) / LOWER_STATES) as u32 % count
}

/// The picks of a number, and what they decide.
#[derive(Debug, Drop)]
pub(crate) struct Picks {
    number: u32,
}

impl Model for Picks {
    ghost Value = { ℕ };

    ghost view = { λ picks. picks.number };
}

impl Picks {
    ghost use Rattle.plant_maker.specs.Choices.{choices_of};

    pub(crate) fn new(number: u32) -> Picks
        ensures { result ≡ number }
    {
        Picks { number }
    }

    /// In minutes.
    #[tactic(auto, unfolding(crate::specs::Choices::choices_of))]
    pub(crate) fn horizon(&self) -> i64
        ensures { result ≡ pos (choices_of self.now).horizon }
    {
        i64::from(DAY * (5 + pick(self.number, 0, 6)))
    }

    #[tactic(auto, unfolding(crate::specs::Choices::choices_of))]
    pub(crate) fn crudes(&self) -> u8
        ensures value { result ≡ (choices_of self.now).crudes }
        ensures least { 2 ≤ result }
        ensures most { result ≤ 4 }
    {
        2 + pick(self.number, 1, 3) as u8
    }

    #[tactic(auto, unfolding(crate::specs::Choices::choices_of))]
    pub(crate) fn vessels(&self) -> u8
        ensures value { result ≡ (choices_of self.now).vessels }
        ensures most { result ≤ 3 }
    {
        1 + pick(self.number, 2, 3) as u8
    }

    #[tactic(auto, unfolding(crate::specs::Choices::choices_of))]
    pub(crate) fn storage(&self) -> u8
        ensures value { result ≡ (choices_of self.now).storage }
        ensures most { result ≤ 3 }
    {
        2 + pick(self.number, 3, 2) as u8
    }

    /// Of each volume unit of the crude.
    #[tactic(auto, unfolding(crate::specs::Choices::choices_of))]
    pub(crate) fn margin(&self, crude: u8) -> i64
        ensures { result ≡ pos ((choices_of self.now).margin crude) }
    {
        let place = 4 + 2 * u32::from(crude);
        i64::from(1 + pick(self.number, place, 20))
    }

    #[tactic(auto, unfolding(crate::specs::Choices::choices_of))]
    pub(crate) fn sulphur(&self, crude: u8) -> i64
        ensures { result ≡ pos ((choices_of self.now).sulphur crude) }
    {
        let place = 5 + 2 * u32::from(crude);
        i64::from(10 + pick(self.number, place, 50))
    }

    /// In volume units.
    #[tactic(auto, unfolding(crate::specs::Choices::choices_of))]
    pub(crate) fn cargo(&self, vessel: u8) -> i64
        ensures { result ≡ pos ((choices_of self.now).cargo vessel) }
    {
        let place = 4 + 2 * u32::from(self.crudes()) + u32::from(vessel);
        i64::from(100_000 * (1 + pick(self.number, place, 5)))
    }

    /// In volume units.
    #[tactic(auto, unfolding(crate::specs::Choices::choices_of))]
    pub(crate) fn stock(&self, tank: u8) -> i64
        ensures { result ≡ pos ((choices_of self.now).stock tank) }
    {
        let vessels = u32::from(self.vessels());
        let place = 4 + 2 * u32::from(self.crudes()) + vessels + u32::from(tank);
        i64::from(50_000 * (1 + pick(self.number, place, 4)))
    }
}
