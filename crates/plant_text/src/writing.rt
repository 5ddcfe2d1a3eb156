ghost use Rattle.std.specs.Prelude.{◌≡◌, ℕ, List, [], ◌∷◌, ◌++◌, map, OnOk};
ghost use Rattle.std.specs.Fmt.{signed_decimal};
ghost use Rattle.plant_text.specs.Canonical.{behind_commas, list_text, quoted, flag_text, numbers_text, pair_text};

use line_text::{push_signed, push_text};
use plant_model::{Name, Pair};
use std::alloc::AllocError;

/// Writes one item of a list.
pub(crate) trait ItemWriter {
    /// What the item tells.
    type Item;

    /// The text of an item.
    ghost text: { Self → Self.Item → List ℕ };

    fn write(&self, out: &mut Vec<u8>, item: &Self::Item) -> Result<(), AllocError>
        ensures { OnOk result (out.new.items ≡ out.old.items ++ text self.now item.now) };
}

/// Writes the items, each behind a comma.
fn write_behind_commas<W: ItemWriter>(
    out: &mut Vec<u8>,
    writer: &W,
    items: &[W::Item],
) -> Result<(), AllocError>
    ensures { OnOk result (out.new.items ≡ out.old.items ++ behind_commas (map (W.text writer.now) items.now)) }
{
    for item in items {
        push_text(out, b",")?;
        writer.write(out, item)?;
    }
    Ok(())
}

/// Writes the list of the items.
pub(crate) fn write_list<W: ItemWriter>(
    out: &mut Vec<u8>,
    writer: &W,
    items: &[W::Item],
) -> Result<(), AllocError>
    ensures { OnOk result (out.new.items ≡ out.old.items ++ list_text (map (W.text writer.now) items.now)) }
{
    push_text(out, b"[")?;
    if let [first, others @ ..] = items {
        writer.write(out, first)?;
        write_behind_commas(out, writer, others)?;
    }
    push_text(out, b"]")
}

/// Writes the word in quotes.
pub(crate) fn write_quoted(out: &mut Vec<u8>, word: &[u8]) -> Result<(), AllocError>
    ensures { OnOk result (out.new.items ≡ out.old.items ++ quoted word.now) }
{
    push_text(out, b"\"")?;
    push_text(out, word)?;
    push_text(out, b"\"")
}

pub(crate) fn write_flag(out: &mut Vec<u8>, flag: bool) -> Result<(), AllocError>
    ensures { OnOk result (out.new.items ≡ out.old.items ++ flag_text flag) }
{
    if flag {
        push_text(out, b"true")
    } else {
        push_text(out, b"false")
    }
}

pub(crate) fn write_pair(out: &mut Vec<u8>, pair: Pair) -> Result<(), AllocError>
    ensures { OnOk result (out.new.items ≡ out.old.items ++ pair_text pair) }
{
    push_text(out, b"[")?;
    push_signed(out, pair.lo)?;
    push_text(out, b",")?;
    push_signed(out, pair.hi)?;
    push_text(out, b"]")
}

/// Names, in quotes.
#[derive(Drop)]
pub(crate) struct NameWriter;

impl ItemWriter for NameWriter {
    type Item = Name;

    ghost text = { λ _. quoted };

    fn write(&self, out: &mut Vec<u8>, item: &Name) -> Result<(), AllocError> {
        write_quoted(out, item.as_slice())
    }
}

/// Whole numbers.
#[derive(Drop)]
struct NumberWriter;

impl ItemWriter for NumberWriter {
    type Item = i64;

    ghost text = { λ _. signed_decimal };

    fn write(&self, out: &mut Vec<u8>, item: &i64) -> Result<(), AllocError> {
        push_signed(out, *item)
    }
}

/// Pairs of whole numbers.
#[derive(Drop)]
struct PairWriter;

impl ItemWriter for PairWriter {
    type Item = Pair;

    ghost text = { λ _. pair_text };

    fn write(&self, out: &mut Vec<u8>, item: &Pair) -> Result<(), AllocError> {
        write_pair(out, *item)
    }
}

pub(crate) fn write_numbers(out: &mut Vec<u8>, numbers: &[i64]) -> Result<(), AllocError>
    ensures { OnOk result (out.new.items ≡ out.old.items ++ numbers_text numbers.now) }
{
    write_list(out, &NumberWriter, numbers)
}

pub(crate) fn write_pairs(out: &mut Vec<u8>, pairs: &[Pair]) -> Result<(), AllocError>
    ensures { OnOk result (out.new.items ≡ out.old.items ++ list_text (map pair_text pairs.now)) }
{
    write_list(out, &PairWriter, pairs)
}
