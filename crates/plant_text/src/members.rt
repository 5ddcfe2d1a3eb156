//! The members of an object: a key, and under it a value of one kind. Each is written behind the byte that stands
//! before it, which is the brace that opens the object, or the comma behind another member.
#![tactic(auto, unfolding(crate::specs::Canonical::member_text))]

ghost use Rattle.std.specs.Prelude.{◌≡◌, [], ◌∷◌, ◌++◌, map, OnOk};
ghost use Rattle.std.specs.Fmt.{signed_decimal};
ghost use Rattle.plant_text.specs.Canonical.{list_text, quoted, under, flag_text, numbers_text, pair_text};

use crate::names::key_name;
use crate::writing::{write_flag, write_numbers, write_pair, write_pairs, write_quoted};
use line_text::{push_signed, push_text};
use plant_model::{Key, Pair};
use std::alloc::AllocError;

fn write_key(out: &mut Vec<u8>, mark: u8, key: Key) -> Result<(), AllocError>
    ensures { OnOk result (out.new.items ≡ out.old.items ++ mark ∷ under key []) }
{
    out.push(mark)?;
    write_quoted(out, key_name(key).as_bytes())?;
    push_text(out, b":")
}

pub(crate) fn name_member(
    out: &mut Vec<u8>,
    mark: u8,
    key: Key,
    name: &[u8],
) -> Result<(), AllocError>
    ensures { OnOk result (out.new.items ≡ out.old.items ++ mark ∷ under key (quoted name.now)) }
{
    write_key(out, mark, key)?;
    write_quoted(out, name)
}

pub(crate) fn number_member(
    out: &mut Vec<u8>,
    mark: u8,
    key: Key,
    number: i64,
) -> Result<(), AllocError>
    ensures { OnOk result (out.new.items ≡ out.old.items ++ mark ∷ under key (signed_decimal number)) }
{
    write_key(out, mark, key)?;
    push_signed(out, number)
}

pub(crate) fn flag_member(
    out: &mut Vec<u8>,
    mark: u8,
    key: Key,
    flag: bool,
) -> Result<(), AllocError>
    ensures { OnOk result (out.new.items ≡ out.old.items ++ mark ∷ under key (flag_text flag)) }
{
    write_key(out, mark, key)?;
    write_flag(out, flag)
}

pub(crate) fn pair_member(
    out: &mut Vec<u8>,
    mark: u8,
    key: Key,
    pair: Pair,
) -> Result<(), AllocError>
    ensures { OnOk result (out.new.items ≡ out.old.items ++ mark ∷ under key (pair_text pair)) }
{
    write_key(out, mark, key)?;
    write_pair(out, pair)
}

pub(crate) fn numbers_member(
    out: &mut Vec<u8>,
    mark: u8,
    key: Key,
    numbers: &[i64],
) -> Result<(), AllocError>
    ensures { OnOk result (out.new.items ≡ out.old.items ++ mark ∷ under key (numbers_text numbers.now)) }
{
    write_key(out, mark, key)?;
    write_numbers(out, numbers)
}

pub(crate) fn pairs_member(
    out: &mut Vec<u8>,
    mark: u8,
    key: Key,
    pairs: &[Pair],
) -> Result<(), AllocError>
    ensures { OnOk result (out.new.items
        ≡ out.old.items ++ mark ∷ under key (list_text (map pair_text pairs.now))) }
{
    write_key(out, mark, key)?;
    write_pairs(out, pairs)
}
