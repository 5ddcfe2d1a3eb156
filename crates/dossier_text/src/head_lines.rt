ghost use Rattle.std.specs.Prelude.{◌≡◌, ◌≤◌, ◌<◌, ◌+◌, ◌^◌, IfOk, IfSome, OnOk};
ghost use Rattle.limits.specs.declared.TheConstants.{MOST_SLOTS, MOST_NODES};
ghost use Rattle.dossier_text.specs.Faults.{Gives};
ghost use Rattle.dossier_text.specs.inside.HeadReading.{fixed_at, format_at, count_in, count_at, sizes_at, word_in, answer_of, answer_at, claim_of, claimed_at, claim_at, plan_count_of, plan_count_at};

use crate::dossier::Word3;
use crate::fault::DossierFault;
use crate::steps::{BITS_32, formed, limited, next_line, number_at, word_at};
use limits::{MOST_NODES, MOST_SLOTS};
use line_text::{Lines, Words, read_decimal, read_signed};

/// How large a dossier is.
#[derive(Clone, Copy)]
pub struct Sizes {
    pub slots: u32,
    pub nodes: u32,
}

/// What a dossier claims.
#[derive(Clone, Copy)]
pub struct Claim {
    pub answer: Word3,
    pub margin: Option<i64>,
    pub bound: Option<i64>,
}

/// Passes over this very line.
#[tactic(auto, unfolding(crate::specs::inside::HeadReading::fixed_at))]
pub fn fixed_at(text: &[u8], lines: &mut Lines<'_>) -> Result<(), DossierFault>
    requires { lines.old.number + 1 < 2 ^ 32 }
    ensures exact { Gives (λ _. lines.new.rest) result (fixed_at lines.old.number text.now lines.old.rest) }
    ensures next { OnOk result (lines.new.number ≡ lines.old.number + 1) }
{
    let line = lines.number();
    let found = next_line(lines)?;
    if found == text {
        Ok(())
    } else {
        Err(DossierFault::Line(line))
    }
}

/// Passes over the two lines of the format.
#[tactic(auto, unfolding(crate::specs::inside::HeadReading::format_at))]
pub fn format_at(lines: &mut Lines<'_>) -> Result<(), DossierFault>
    requires { lines.old.number ≡ 1 }
    ensures exact { Gives (λ _. lines.new.rest) result (format_at lines.old.rest) }
    ensures next { OnOk result (lines.new.number ≡ 3) }
{
    fixed_at(b"crude dossier 1", lines)?;
    fixed_at(b"order slots", lines)
}

#[tactic(auto, unfolding(crate::specs::inside::HeadReading::count_in))]
fn count_in(line: u32, key: &[u8], most: u32, text: &[u8]) -> Result<u32, DossierFault>
    ensures exact { Gives (λ count. count) result (count_in line key.now most text.now) }
    ensures within { IfOk result (λ count. count ≤ most) }
{
    let mut words = Words::new(text);
    formed(line, words.key(key))?;
    let count = number_at(line, BITS_32, words)? as u32;
    limited(line, most, count)
}

/// The count behind this word, which is to be at most so much.
#[tactic(auto, unfolding(crate::specs::inside::HeadReading::count_at))]
pub fn count_at(key: &[u8], most: u32, lines: &mut Lines<'_>) -> Result<u32, DossierFault>
    requires { lines.old.number + 1 < 2 ^ 32 }
    ensures exact { Gives (λ count. (count, lines.new.rest)) result
        (count_at lines.old.number key.now most lines.old.rest) }
    ensures within { IfOk result (λ count. count ≤ most) }
    ensures next { OnOk result (lines.new.number ≡ lines.old.number + 1) }
{
    let line = lines.number();
    let text = next_line(lines)?;
    count_in(line, key, most, text)
}

/// How large the dossier is.
#[tactic(auto, unfolding(crate::specs::inside::HeadReading::sizes_at))]
pub fn sizes_at(lines: &mut Lines<'_>) -> Result<Sizes, DossierFault>
    requires { lines.old.number ≡ 3 }
    ensures exact { Gives (λ sizes. (sizes, lines.new.rest)) result (sizes_at lines.old.rest) }
    ensures within { IfOk result (λ sizes. sizes.nodes ≤ MOST_NODES) }
    ensures next { OnOk result (lines.new.number ≡ 5) }
{
    let slots = count_at(b"slots", u32::MAX, lines)?;
    let nodes = count_at(b"nodes", MOST_NODES, lines)?;
    Ok(Sizes { slots, nodes })
}

#[tactic(auto, unfolding(crate::specs::inside::HeadReading::word_in))]
fn word_in<'a>(line: u32, key: &[u8], text: &'a [u8]) -> Result<&'a [u8], DossierFault>
    ensures { Gives (λ word. word.now) result (word_in line key.now text.now) }
{
    let mut words = Words::new(text);
    formed(line, words.key(key))?;
    word_at(line, words)
}

#[tactic(auto, unfolding(crate::specs::inside::HeadReading::answer_of))]
fn answer_of(line: u32, word: &[u8]) -> Result<Word3, DossierFault>
    ensures { Gives (λ answer. answer) result (answer_of line word.now) }
{
    if word == b"plan".as_slice() {
        Ok(Word3::Plan)
    } else if word == b"infeasible".as_slice() {
        Ok(Word3::Infeasible)
    } else if word == b"open".as_slice() {
        Ok(Word3::Open3)
    } else {
        Err(DossierFault::Line(line))
    }
}

#[tactic(auto, unfolding(crate::specs::inside::HeadReading::answer_at))]
fn answer_at(lines: &mut Lines<'_>) -> Result<Word3, DossierFault>
    requires { lines.old.number ≡ 5 }
    ensures exact { Gives (λ answer. (answer, lines.new.rest)) result (answer_at lines.old.rest) }
    ensures next { OnOk result (lines.new.number ≡ 6) }
{
    let line = lines.number();
    let text = next_line(lines)?;
    let word = word_in(line, b"answer", text)?;
    answer_of(line, word)
}

#[tactic(auto, unfolding(crate::specs::inside::HeadReading::claim_of))]
fn claim_of(line: u32, word: &[u8]) -> Result<Option<i64>, DossierFault>
    ensures { Gives (λ claim. claim) result (claim_of line word.now) }
{
    if word == b"none".as_slice() {
        return Ok(None);
    }
    let number = formed(line, read_signed(word))?;
    Ok(Some(number))
}

#[tactic(auto, unfolding(crate::specs::inside::HeadReading::claimed_at))]
fn claimed_at(key: &[u8], lines: &mut Lines<'_>) -> Result<Option<i64>, DossierFault>
    requires { lines.old.number + 1 < 2 ^ 32 }
    ensures exact { Gives (λ claim. (claim, lines.new.rest)) result
        (claimed_at lines.old.number key.now lines.old.rest) }
    ensures next { OnOk result (lines.new.number ≡ lines.old.number + 1) }
{
    let line = lines.number();
    let text = next_line(lines)?;
    let word = word_in(line, key, text)?;
    claim_of(line, word)
}

/// What the dossier claims.
#[tactic(auto, unfolding(crate::specs::inside::HeadReading::claim_at))]
pub fn claim_at(lines: &mut Lines<'_>) -> Result<Claim, DossierFault>
    requires { lines.old.number ≡ 5 }
    ensures exact { Gives (λ claim. (claim, lines.new.rest)) result (claim_at lines.old.rest) }
    ensures next { OnOk result (lines.new.number ≡ 8) }
{
    let answer = answer_at(lines)?;
    let margin = claimed_at(b"margin", lines)?;
    let bound = claimed_at(b"bound", lines)?;
    Ok(Claim {
        answer,
        margin,
        bound,
    })
}

#[tactic(auto, unfolding(crate::specs::inside::HeadReading::plan_count_of))]
fn plan_count_of(line: u32, word: &[u8]) -> Result<Option<u32>, DossierFault>
    ensures exact { Gives (λ count. count) result (plan_count_of line word.now) }
    ensures within { IfOk result (λ count. IfSome count (λ few. few ≤ MOST_SLOTS)) }
{
    if word == b"none".as_slice() {
        return Ok(None);
    }
    let count = formed(line, read_decimal(word, BITS_32))? as u32;
    let few = limited(line, u32::from(MOST_SLOTS), count)?;
    Ok(Some(few))
}

/// The number of operations, where there is a plan.
#[tactic(auto, unfolding(crate::specs::inside::HeadReading::plan_count_at))]
pub fn plan_count_at(lines: &mut Lines<'_>) -> Result<Option<u32>, DossierFault>
    requires { lines.old.number ≡ 8 }
    ensures exact { Gives (λ count. (count, lines.new.rest)) result (plan_count_at lines.old.rest) }
    ensures within { IfOk result (λ count. IfSome count (λ few. few ≤ MOST_SLOTS)) }
    ensures next { OnOk result (lines.new.number ≡ 9) }
{
    let line = lines.number();
    let text = next_line(lines)?;
    let word = word_in(line, b"plan", text)?;
    plan_count_of(line, word)
}
