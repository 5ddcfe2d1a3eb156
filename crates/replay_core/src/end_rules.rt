//! The rules that are asked at the end, of every place.

ghost use Rattle.std.specs.Prelude.{◌≡◌};
ghost use Rattle.replay_core.specs.inside.EndRules.{number_of};

/// A rule that is asked of a place once all has run.
#[derive(Clone, Copy, Debug, PartialEq, Eq)]
pub enum EndRule {
    /// A vessel is empty.
    Emptied,
    /// From a charging tank was charged what is demanded of it.
    Demand,
    /// A unit was charged as long and as often as it takes.
    Charges,
}

impl EndRule {
    /// The number that a broken rule is told by.
    pub(crate) fn number(self) -> u8
        ensures { result ≡ number_of self }
    {
        match self {
            EndRule::Emptied => 12,
            EndRule::Demand => 13,
            EndRule::Charges => 14,
        }
    }
}
