ghost use Rattle.std.specs.Prelude.{◌≡◌, IfOk, option_map};
ghost use Rattle.serde_json.specs.View.{view, items_view};
ghost use Rattle.plant_text.specs.Walk.{format_of};
ghost use Rattle.plant_text.specs.Kinds.{whole_number, whole_numbers, each_in, pair_in, pair, pairs};

use item_lists::{Copies, Items};
use plant_model::{Numbers, Pair, Pairs};
use serde_json::Value;
use std::alloc::{AllocError, Global};

/// The whole number that a value is.
pub(crate) fn whole_number(value: &Value) -> Option<i64>
    ensures { result ≡ whole_number (view value.now) }
{
    value.as_i64()
}

/// A format of plant texts. Format 2 tells the berths of vessels, format 3 their demurrage too.
#[derive(Clone, Copy)]
pub(crate) enum PlantFormat {
    One,
    Two,
    Three,
}

/// The format that a value is the number of.
pub(crate) fn format_of(value: &Value) -> Option<PlantFormat>
    ensures { result ≡ format_of (view value.now) }
{
    match whole_number(value)? {
        1 => Some(PlantFormat::One),
        2 => Some(PlantFormat::Two),
        3 => Some(PlantFormat::Three),
        _ => None,
    }
}

fn whole_numbers_in(alloc: Global, values: &[Value]) -> Result<Option<Vec<i64>>, AllocError>
    ensures { IfOk result (λ found. option_map (λ v. v.items) found ≡ each_in whole_number (items_view values.now)) }
{
    let mut numbers = Vec::with_capacity(alloc, values.len())?;
    for value in values {
        let Some(number) = whole_number(value) else {
            return Ok(None);
        };
        numbers.push(number)?;
    }
    Ok(Some(numbers))
}

/// The list of whole numbers that a value is.
pub(crate) fn whole_numbers(alloc: Global, value: &Value) -> Result<Option<Numbers>, AllocError>
    ensures { IfOk result (λ found. found ≡ whole_numbers (view value.now)) }
{
    match value.as_array() {
        Some(values) => Ok(whole_numbers_in(alloc, values)?.map(Copies::from_vec)),
        None => Ok(None),
    }
}

fn pair_in(values: &[Value]) -> Option<Pair>
    ensures { result ≡ pair_in (items_view values.now) }
{
    match values {
        [lo, hi] => Some(Pair {
            lo: whole_number(lo)?,
            hi: whole_number(hi)?,
        }),
        _ => None,
    }
}

/// The pair that a value is.
pub(crate) fn pair(value: &Value) -> Option<Pair>
    ensures { result ≡ pair (view value.now) }
{
    pair_in(value.as_array()?)
}

fn pairs_in(alloc: Global, values: &[Value]) -> Result<Option<Pairs>, AllocError>
    ensures { IfOk result (λ found. found ≡ each_in pair (items_view values.now)) }
{
    let mut found = Vec::with_capacity(alloc, values.len())?;
    for value in values {
        let Some(ends) = pair(value) else {
            return Ok(None);
        };
        found.push(ends)?;
    }
    Ok(Some(Items::from_vec(found)))
}

/// The list of pairs that a value is.
pub(crate) fn pairs(alloc: Global, value: &Value) -> Result<Option<Pairs>, AllocError>
    ensures { IfOk result (λ found. found ≡ pairs (view value.now)) }
{
    match value.as_array() {
        Some(values) => pairs_in(alloc, values),
        None => Ok(None),
    }
}
