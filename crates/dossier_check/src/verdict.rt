ghost use Rattle.std.specs.Prelude.{◌≡◌};
ghost use Rattle.dossier_check.specs.NodeReasons.{reason as reason_at};
ghost use Rattle.dossier_check.specs.declared.verdict.Refusal.TheVariants.{First, Memory};

use dossier_text::Word3;
use replay_core::Word;
use std::alloc::AllocError;

/// Why a dossier is not accepted: the number of the test that it fails, and the line where.
#[derive(Clone, Copy, Debug, PartialEq, Eq)]
pub(crate) struct Reason {
    pub(crate) reason: u8,
    pub(crate) line: u32,
}

impl Reason {
    /// The reason of this number, which stands in this line.
    pub(crate) fn at(reason: u8, line: u32) -> Reason
        ensures { result ≡ reason_at reason line }
    {
        Reason { reason, line }
    }
}

/// What an accepted dossier claims.
#[derive(Debug, Drop)]
pub struct Claim {
    /// The most operations of the plans that it speaks of.
    pub slots: u32,
    /// What it claims of them: a plan with a bound, that there is none, or a bound alone.
    pub answer: Word3,
    /// With `answer plan`: a legal plan of at most `slots` operations.
    pub plan: Option<Word>,
    /// What that plan earns, in margin units.
    pub margin: Option<i64>,
    /// What no legal plan of at most `slots` operations exceeds, in margin units.
    pub bound: Option<i64>,
}

/// Whether bytes are an accepted dossier.
#[derive(Debug, Drop)]
pub enum Verdict {
    /// They are, and it claims this.
    Yes(Claim),
    /// They are not, for this reason first.
    No {
        /// Its number, 1 to 18.
        reason: u8,
        /// Where it stands in the text, from line 1 on.
        line: u32,
    },
}

/// Why a test was not passed.
#[derive(Clone, Copy, Debug, PartialEq, Eq)]
pub(crate) enum Refusal {
    /// The first reason that stands.
    First(Reason),
    Memory,
}

impl From<Reason> for Refusal {
    ghost from_gives = { λ reason refusal. refusal ≡ First reason };

    fn from(reason: Reason) -> Refusal {
        Refusal::First(reason)
    }
}

impl From<AllocError> for Refusal {
    ghost from_gives = { λ _ refusal. refusal ≡ Memory };

    fn from(_error: AllocError) -> Refusal {
        Refusal::Memory
    }
}
