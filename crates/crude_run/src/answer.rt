ghost use Rattle.std.specs.Prelude.{◌≡◌, ◌++◌, ◌∷◌, decimal, IfOk};
ghost use Rattle.crude_run.specs.Numbers.{status_legal, status_shown};
ghost use Rattle.crude_run.specs.Texts.{one_line, words_refused, json_refused, shape_refused, fault_refused, read_failed, too_long, accepted, not_accepted, plan_refused, illegal};

use crate::status::{
    ACCEPTED, ILLEGAL, LEGAL, NOT_ACCEPTED, PLAN_REFUSED, PLANT_REFUSED, READ_FAILED, SHOWN,
    Status, TOO_LONG, WORDS_REFUSED,
};
use dossier_text::{Word3, write_claim};
use item_lists::Copies;
use line_text::{push_number, push_text, push_word};
use plant_model::{Place, PlantFault, Text};
use plant_text::print_place;
use replay_core::Broken;
use std::alloc::{AllocError, Global};

/// A status with the whole text that goes with it.
#[derive(Debug, Drop)]
pub struct Answer {
    /// The status that goes with the text.
    pub status: Status,
    /// Each of its lines ends with a line feed.
    pub text: Text,
}

/// An answer of one line.
fn one_line(alloc: Global, code: u8, words: &[u8]) -> Result<Answer, AllocError>
    ensures { IfOk result (λ answer. answer ≡ one_line code words.now) }
{
    let mut text = Vec::with_capacity(alloc, words.len())?;
    push_text(&mut text, words)?;
    push_text(&mut text, b"\n")?;
    Ok(Answer {
        status: Status::new(code),
        text: Copies::from_vec(text),
    })
}

pub(crate) fn words_refused(alloc: Global) -> Result<Answer, AllocError>
    ensures { IfOk result (λ answer. answer ≡ words_refused) }
{
    one_line(alloc, WORDS_REFUSED, b"refused words")
}

pub(crate) fn json_refused(alloc: Global) -> Result<Answer, AllocError>
    ensures { IfOk result (λ answer. answer ≡ json_refused) }
{
    one_line(alloc, PLANT_REFUSED, b"refused plant json")
}

pub(crate) fn shape_refused(alloc: Global, place: Place) -> Result<Answer, AllocError>
    ensures { IfOk result (λ answer. answer ≡ shape_refused place) }
{
    let place = print_place(alloc, &place)?;
    let mut words = Vec::new(alloc);
    push_text(&mut words, b"refused plant shape")?;
    push_word(&mut words, &place)?;
    one_line(alloc, PLANT_REFUSED, &words)
}

pub(crate) fn fault_refused(alloc: Global, fault: PlantFault) -> Result<Answer, AllocError>
    ensures { IfOk result (λ answer. answer ≡ fault_refused fault) }
{
    let place = print_place(alloc, &fault.place)?;
    let mut words = Vec::new(alloc);
    push_text(&mut words, b"refused plant")?;
    push_number(&mut words, u64::from(fault.number))?;
    push_word(&mut words, &place)?;
    one_line(alloc, PLANT_REFUSED, &words)
}

/// An answer of one line that ends in a number.
fn numbered(alloc: Global, code: u8, words: &[u8], number: u64) -> Result<Answer, AllocError>
    ensures { IfOk result (λ answer. answer ≡ one_line code (words.now ++ 32 ∷ decimal number)) }
{
    let mut line = Vec::new(alloc);
    push_text(&mut line, words)?;
    push_number(&mut line, number)?;
    one_line(alloc, code, &line)
}

pub(crate) fn read_failed(alloc: Global, number: u64) -> Result<Answer, AllocError>
    ensures { IfOk result (λ answer. answer ≡ read_failed number) }
{
    numbered(alloc, READ_FAILED, b"read failed", number)
}

pub(crate) fn too_long(alloc: Global, number: u64) -> Result<Answer, AllocError>
    ensures { IfOk result (λ answer. answer ≡ too_long number) }
{
    numbered(alloc, TOO_LONG, b"too long", number)
}

pub(crate) fn accepted(
    alloc: Global,
    answer: Word3,
    margin: Option<i64>,
    bound: Option<i64>,
) -> Result<Answer, AllocError>
    ensures { IfOk result (λ due. due ≡ accepted answer margin bound) }
{
    let mut text = Vec::new(alloc);
    push_text(&mut text, b"yes\n")?;
    write_claim(&mut text, answer, margin, bound)?;
    Ok(Answer {
        status: Status::new(ACCEPTED),
        text: Copies::from_vec(text),
    })
}

pub(crate) fn not_accepted(alloc: Global, reason: u8, line: u32) -> Result<Answer, AllocError>
    ensures { IfOk result (λ answer. answer ≡ not_accepted reason line) }
{
    twice_numbered(
        alloc,
        NOT_ACCEPTED,
        b"no",
        u64::from(reason),
        u64::from(line),
    )
}

pub(crate) fn plan_refused(alloc: Global, line: u32) -> Result<Answer, AllocError>
    ensures { IfOk result (λ answer. answer ≡ plan_refused line) }
{
    numbered(alloc, PLAN_REFUSED, b"refused plan line", u64::from(line))
}

/// An answer of one line that ends in two numbers.
fn twice_numbered(
    alloc: Global,
    code: u8,
    words: &[u8],
    first: u64,
    second: u64,
) -> Result<Answer, AllocError>
    ensures { IfOk result (λ answer. answer
        ≡ one_line code (words.now ++ 32 ∷ decimal first ++ 32 ∷ decimal second)) }
{
    let mut line = Vec::new(alloc);
    push_text(&mut line, words)?;
    push_number(&mut line, first)?;
    push_number(&mut line, second)?;
    one_line(alloc, code, &line)
}

pub(crate) fn illegal(alloc: Global, broken: Broken) -> Result<Answer, AllocError>
    ensures { IfOk result (λ answer. answer ≡ illegal broken) }
{
    twice_numbered(
        alloc,
        ILLEGAL,
        b"illegal",
        u64::from(broken.rule),
        u64::from(broken.at),
    )
}

/// The answer that has this text, the ledger of a plan.
pub(crate) fn legal(ledger: Vec<u8>) -> Answer
    ensures { result ≡ record { status = status_legal; text = ledger.items } }
{
    Answer {
        status: Status::new(LEGAL),
        text: Copies::from_vec(ledger),
    }
}

/// The answer that has this text, that of a plant.
pub(crate) fn shown(plant: Vec<u8>) -> Answer
    ensures { result ≡ record { status = status_shown; text = plant.items } }
{
    Answer {
        status: Status::new(SHOWN),
        text: Copies::from_vec(plant),
    }
}
