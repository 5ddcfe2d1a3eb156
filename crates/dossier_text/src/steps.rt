ghost use Rattle.std.specs.Prelude.{◌≡◌, ◌≤◌, ◌<◌, ◌+◌, ◌^◌, [], ◌∷◌, ◌++◌, OnOk, IfOk, IfErr};
ghost use Rattle.dossier_text.specs.Faults.{formed, limited, line_at, Gives};
ghost use Rattle.dossier_text.specs.inside.WordReading.{word_at, number_at};

use crate::fault::DossierFault;
use item_lists::Items;
use line_text::{Lines, Words};

/// The greatest number of 32 bits.
pub const BITS_32: u64 = 0xffff_ffff;

/// What the line says, where it has its form.
pub fn formed<X>(line: u32, read: Option<X>) -> Result<X, DossierFault>
    ensures { result ≡ formed line read }
{
    match read {
        None => Err(DossierFault::Line(line)),
        Some(answer) => Ok(answer),
    }
}

/// The count, where it is not too great.
pub fn limited(line: u32, most: u32, count: u32) -> Result<u32, DossierFault>
    ensures { result ≡ limited line most count count }
{
    if count <= most {
        Ok(count)
    } else {
        Err(DossierFault::TooMany(line))
    }
}

/// The next line without its line feed.
pub fn next_line<'a>(lines: &mut Lines<'a>) -> Result<&'a [u8], DossierFault>
    requires { lines.old.number + 1 < 2 ^ 32 }
    ensures exact { Gives (λ text. (text.now, lines.new.rest)) result (line_at lines.old.number lines.old.rest) }
    ensures next { OnOk result (lines.new.number ≡ lines.old.number + 1) }
{
    formed(lines.number(), lines.next_line())
}

/// The number that the one word left is.
#[tactic(auto, unfolding(crate::specs::inside::WordReading::number_at))]
pub fn number_at(line: u32, limit: u64, mut words: Words<'_>) -> Result<u64, DossierFault>
    ensures exact { Gives (λ number. number) result (number_at line limit words.entry) }
    ensures within { IfOk result (λ number. number ≤ limit) }
{
    let number = formed(line, words.decimal(limit))?;
    formed(line, words.end())?;
    Ok(number)
}

/// The one word left.
#[tactic(auto, unfolding(crate::specs::inside::WordReading::word_at))]
pub fn word_at<'a>(line: u32, mut words: Words<'a>) -> Result<&'a [u8], DossierFault>
    ensures { Gives (λ word. word.now) result (word_at line words.entry) }
{
    let word = formed(line, words.next())?;
    formed(line, words.end())?;
    Ok(word)
}

/// Adds the item at the end.
pub fn keep<X: Drop>(list: &mut Items<X>, item: X) -> Result<(), DossierFault>
    ensures kept { OnOk result (list.new ≡ list.old ++ item ∷ []) }
    ensures memory { IfErr result (λ fault. fault ≡ DossierFault.Memory) }
{
    match list.push(item) {
        Ok(()) => Ok(()),
        Err(_) => Err(DossierFault::Memory),
    }
}
