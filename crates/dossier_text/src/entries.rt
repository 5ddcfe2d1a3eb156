ghost use Rattle.std.specs.Prelude.{◌≡◌, ◌∷◌, ◌++◌, map, OnOk};
ghost use Rattle.line_text.specs.Words.{spaced};
ghost use Rattle.dossier_text.specs.Entries.{term_word, signed_word};

use line_text::{push_decimal, push_marked, push_signed, push_text};
use slot_box::{RowName, Term};
use std::alloc::AllocError;

/// Writes a row's name and its multiplier.
fn write_row(out: &mut Vec<u8>, name: RowName, y: u64) -> Result<(), AllocError>
    ensures { OnOk result (out.new.items ≡ out.old.items ++ term_word (Term.Row name y)) }
{
    push_decimal(out, u64::from(name.family))?;
    push_marked(out, b'.', u64::from(name.a))?;
    push_marked(out, b'.', u64::from(name.b))?;
    push_marked(out, b'.', u64::from(name.c))?;
    push_marked(out, b'.', u64::from(name.d))?;
    push_marked(out, b'=', y)?;
    Ok(())
}

/// Writes an entry of a leaf.
pub fn write_term(out: &mut Vec<u8>, term: &Term) -> Result<(), AllocError>
    ensures { OnOk result (out.new.items ≡ out.old.items ++ term_word term.now) }
{
    match *term {
        Term::Row { name, y } => write_row(out, name, y),
        Term::Cut { cut, slot, op, y } => {
            push_text(out, b"cut")?;
            push_marked(out, b'.', u64::from(cut))?;
            push_marked(out, b'.', u64::from(slot))?;
            push_marked(out, b'.', u64::from(op))?;
            push_marked(out, b'=', y)?;
            Ok(())
        }
    }
}

/// Writes the entries, each behind a blank.
pub fn write_terms(out: &mut Vec<u8>, terms: &[Term]) -> Result<(), AllocError>
    ensures { OnOk result (out.new.items ≡ out.old.items ++ spaced (map term_word terms.now)) }
{
    for term in terms {
        push_text(out, b" ")?;
        write_term(out, term)?;
    }
    Ok(())
}
