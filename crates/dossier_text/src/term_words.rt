ghost use Rattle.std.specs.Prelude.{◌≡◌};
ghost use Rattle.dossier_text.specs.Faults.{Gives};
ghost use Rattle.dossier_text.specs.inside.TermReading.{row_of, cut_row_of, term_of, terms_at};

use crate::fault::DossierFault;
use crate::list_words::{WordItem, few_words};
use crate::steps::BITS_32;
use limits::MOST_ROWS;
use line_text::{Words, read_before, read_decimal, split_at_mark};
use slot_box::{RowName, Term, Terms};
use std::alloc::Global;

const BITS_8: u64 = 0xff;

const BITS_16: u64 = 0xffff;

/// The row of which the family's digits, and the rest behind the dot, are given.
#[tactic(auto, unfolding(crate::specs::inside::TermReading::row_of))]
fn row_of(digits: &[u8], rest: &[u8]) -> Option<Term>
    ensures { result ≡ row_of digits.now rest.now }
{
    let family = read_decimal(digits, BITS_8)? as u8;
    let (a, rest) = read_before(rest, b'.', BITS_16)?;
    let (b, rest) = read_before(rest, b'.', BITS_16)?;
    let (c, rest) = read_before(rest, b'.', BITS_16)?;
    let (d, rest) = read_before(rest, b'=', BITS_16)?;
    let y = read_decimal(rest, u64::MAX)?;
    Some(Term::Row {
        name: RowName {
            family,
            a: a as u16,
            b: b as u16,
            c: c as u16,
            d: d as u16,
        },
        y,
    })
}

/// The row of a cut of which the rest behind `cut` and the dot is given.
#[tactic(auto, unfolding(crate::specs::inside::TermReading::cut_row_of))]
fn cut_row_of(rest: &[u8]) -> Option<Term>
    ensures { result ≡ cut_row_of rest.now }
{
    let (cut, rest) = read_before(rest, b'.', BITS_32)?;
    let (slot, rest) = read_before(rest, b'.', BITS_32)?;
    let (op, rest) = read_before(rest, b'=', BITS_8)?;
    let y = read_decimal(rest, u64::MAX)?;
    Some(Term::Cut {
        cut: cut as u32,
        slot: slot as u32,
        op: op as u8,
        y,
    })
}

/// The entry that the word is.
#[tactic(auto, unfolding(crate::specs::inside::TermReading::term_of))]
fn term_of(word: &[u8]) -> Option<Term>
    ensures { result ≡ term_of word.now }
{
    let (front, rest) = split_at_mark(word, b'.')?;
    if front == b"cut".as_slice() {
        cut_row_of(rest)
    } else {
        row_of(front, rest)
    }
}

impl WordItem for Term {
    ghost said = { term_of };

    fn read(word: &[u8]) -> Option<Term> {
        term_of(word)
    }
}

/// The entries that the words are.
pub fn terms_at(alloc: Global, line: u32, words: Words<'_>) -> Result<Terms, DossierFault>
    ensures { Gives (λ terms. terms) result (terms_at line words.entry) }
{
    few_words(alloc, line, MOST_ROWS, words)
}
