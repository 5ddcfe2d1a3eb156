ghost use Rattle.std.specs.Prelude.{◌≡◌};
ghost use Rattle.dossier_text.specs.Faults.{Gives};
ghost use Rattle.dossier_text.specs.inside.TermReading.{few_words};

use crate::fault::DossierFault;
use crate::steps::{formed, keep};
use item_lists::Items;
use line_text::Words;
use std::alloc::Global;

/// What is one word of a line, one of many of its kind.
pub trait WordItem: Sized + Drop {
    ghost use Rattle.std.specs.Prelude.{◌≡◌, ℕ, List, Option};

    /// The item that the word is.
    ghost said: { List ℕ → Option Self };

    /// Reads the word.
    fn read(word: &[u8]) -> Option<Self>
        ensures { result ≡ said word.now };
}

/// The items that the words are, no more than so many.
pub fn few_words<X: WordItem>(
    alloc: Global,
    line: u32,
    most: u32,
    words: Words<'_>,
) -> Result<Items<X>, DossierFault>
    ensures { Gives (λ items. items) result (few_words X.said line most words.entry) }
{
    let mut items = Items::new(alloc);
    let mut too_many = false;
    for word in words {
        let item = formed(line, X::read(word))?;
        if items.as_slice().len() < most as usize {
            keep(&mut items, item)?;
        } else {
            too_many = true;
        }
    }
    if too_many {
        Err(DossierFault::TooMany(line))
    } else {
        Ok(items)
    }
}
