ghost use Rattle.std.specs.Prelude.{◌≡◌};
ghost use Rattle.dossier_text.specs.Faults.{Gives};
ghost use Rattle.line_text.specs.Decimal.{signed_of};
ghost use Rattle.dossier_text.specs.inside.CutReading.{weights_at, cut_at};
ghost use Rattle.dossier_text.specs.inside.ListReading.{any_cut_at};

use crate::dossier::CutLine;
use crate::fault::DossierFault;
use crate::list_lines::LineItem;
use crate::list_words::{WordItem, few_words};
use crate::steps::formed;
use limits::MOST_CRUDES;
use line_text::{Words, read_signed};
use plant_model::Numbers;
use std::alloc::Global;

impl WordItem for i64 {
    ghost said = { signed_of };

    fn read(word: &[u8]) -> Option<i64> {
        read_signed(word)
    }
}

/// The weights that the words are, of which there is at least one.
#[tactic(auto, unfolding(crate::specs::inside::CutReading::weights_at))]
fn weights_at(alloc: Global, line: u32, words: Words<'_>) -> Result<Numbers, DossierFault>
    ensures { Gives (λ weights. weights) result (weights_at line words.entry) }
{
    let weights = few_words(alloc, line, u32::from(MOST_CRUDES), words)?.into_vec();
    if weights.is_empty() {
        Err(DossierFault::Line(line))
    } else {
        Ok(Numbers::from_vec(weights))
    }
}

/// What the text of a cut's line says.
#[tactic(auto, unfolding(crate::specs::inside::CutReading::cut_at))]
fn cut_at(alloc: Global, line: u32, text: &[u8]) -> Result<CutLine, DossierFault>
    ensures { Gives (λ cut. cut) result (cut_at line text.now) }
{
    let mut words = Words::new(text);
    formed(line, words.key(b"cut"))?;
    let places = formed(line, words.decimal(u64::MAX))?;
    let p = formed(line, words.signed())?;
    let q = formed(line, words.signed())?;
    let weights = weights_at(alloc, line, words)?;
    Ok(CutLine {
        places,
        p,
        q,
        weights,
    })
}

impl LineItem for CutLine {
    ghost said = { any_cut_at };

    fn read(alloc: Global, line: u32, _index: u32, text: &[u8]) -> Result<CutLine, DossierFault> {
        cut_at(alloc, line, text)
    }
}
