ghost use Rattle.std.specs.Prelude.{◌≡◌};

use std::marker::Model;

/// `solve` found a plan.
pub const PLAN_FOUND: u8 = 0;
/// `check` says yes: the dossier is accepted.
pub const ACCEPTED: u8 = 0;
/// `check` says no: the dossier is not accepted.
pub const NOT_ACCEPTED: u8 = 1;
/// `replay` finds the plan legal.
pub const LEGAL: u8 = 0;
/// `replay` finds that the plan breaks a rule.
pub const ILLEGAL: u8 = 1;
/// `show` shows the plant.
pub const SHOWN: u8 = 0;
/// `make` shows the plant of a number, or has tried it.
pub const MADE: u8 = 0;
/// `solve` says that there is no legal plan of at most so many operations.
pub const INFEASIBLE: u8 = 3;
/// `solve` found no plan.
pub const NONE_FOUND: u8 = 4;
/// The words are no plain line.
pub const WORDS_REFUSED: u8 = 64;
/// The plant text is no plant.
pub const PLANT_REFUSED: u8 = 65;
/// A file could not be read.
pub const READ_FAILED: u8 = 66;
/// A file has more bytes than its limit.
pub const TOO_LONG: u8 = 67;
/// The plan file has a line that is none of a plan.
pub const PLAN_REFUSED: u8 = 68;
/// Memory ran out.
pub const NO_MEMORY: u8 = 71;
/// The text could not be written.
pub const WRITE_FAILED: u8 = 74;

/// How the program ends.
#[derive(Clone, Copy, Debug, PartialEq, Eq)]
pub struct Status {
    code: u8,
}

impl Model for Status {
    ghost use Rattle.std.specs.Prelude.{ℕ};

    ghost Value = { ℕ };

    ghost view = { λ status. status.code };

    ghost inverse = { λ code. record { code = code } };
}

impl Status {
    pub(crate) fn new(code: u8) -> Status
        ensures { result ≡ code }
    {
        Status { code }
    }

    /// The number with which the process ends.
    pub fn code(&self) -> u8
        ensures { result ≡ self.now }
    {
        self.code
    }
}
