use std::alloc::{AllocError, Global};
use std::marker::Model;
use thiserror::Error;

/// The name of a file, as it stood on the command line.
#[derive(Debug, Drop)]
pub struct FileName {
    text: String,
}

impl Model for FileName {
    ghost use Rattle.std.specs.Prelude.{List, ℕ, string_bytes};

    ghost Value = { List ℕ };

    ghost view = { λ name. string_bytes name.text };
}

impl FileName {
    ghost use Rattle.std.specs.Prelude.{◌≡◌, IfOk};

    /// The file of this name.
    pub(crate) fn new(alloc: Global, name: &str) -> Result<FileName, AllocError>
        ensures { IfOk result (λ file. file ≡ name.now) }
    {
        let text = String::from_str(alloc, name)?;
        Ok(FileName { text })
    }

    /// The name's text.
    pub fn as_str(&self) -> &str
        ensures { result.now ≡ self.now }
    {
        self.text.as_str()
    }
}

/// How much a search may do.
#[derive(Clone, Copy, Debug, PartialEq, Eq)]
pub struct Ask {
    /// The most operations of a plan.
    pub slots: u32,
    /// The most inner nodes of the search tree.
    pub nodes: u32,
    /// How many workers search.
    pub workers: u32,
}

/// What a plain line asks for.
#[derive(Debug, Drop)]
pub enum Command {
    /// For the plant of this file a legal plan of at most so many operations, and a bound that no such plan exceeds.
    Solve {
        plant: FileName,
        ask: Ask,
    },
    /// Whether the dossier of the second file is accepted for the plant of the first.
    Check {
        plant: FileName,
        dossier: FileName,
    },
    /// How the plan of the second file runs in the plant of the first: its ledger, or the first rule that it breaks.
    Replay {
        plant: FileName,
        plan: FileName,
    },
    /// The one text of the plant of this file.
    Show {
        plant: FileName,
    },
    /// The plant that is made from this number, or what a small search finds of it.
    Make {
        number: u32,
        solve: bool,
    },
    /// How tight the bound of the root box is, for the plant of this file and so many slots.
    Root {
        plant: FileName,
        slots: u32,
    },
    /// The rest of a plan of which the operations that start before this minute stay, for the plant of the first file
    /// and the plan of the second.
    Replan {
        plant: FileName,
        plan: FileName,
        at: u32,
        slots: u32,
        nodes: u32,
    },
    /// Whether the dossier of the third file is accepted for such a rest.
    Recheck {
        plant: FileName,
        plan: FileName,
        dossier: FileName,
        at: u32,
    },
}

/// Why words are no command.
#[derive(Clone, Copy, Debug, PartialEq, Eq, Error)]
pub enum WordFault {
    /// They are no plain line in range.
    #[error("no plain line")]
    Words,
    /// Memory ran out.
    #[error("out of memory")]
    Memory,
}

impl From<AllocError> for WordFault {
    ghost use Rattle.std.specs.Prelude.{◌≡◌};
    ghost use Rattle.command_line.specs.declared.command.WordFault.TheVariants.{Memory};

    ghost from_gives = { λ _ fault. fault ≡ Memory };

    fn from(_refused: AllocError) -> WordFault {
        WordFault::Memory
    }
}
