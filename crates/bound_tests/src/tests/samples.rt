//! One operation in one slot, and systems of rows on its columns.
//!
//! The rows and sums promise no more than that no column stands twice in them, so that the proofs of the tests do not
//! read the factors.

ghost use Rattle.std.specs.Prelude.{◌≡◌, IfOk};
ghost use Rattle.linear_form.specs.Rows.{HasEachOnce};

use linear_form::{Column, Objective, Part, Ranges, Row, RowList, RowTerm};
use std::alloc::{AllocError, Global};
use std::test::Fail;

/// A column of operation 0 in slot 1.
fn column(part: Part) -> Column
    ensures { result ≡ record { slot = 1; entry = 0; part = part } }
{
    Column {
        slot: 1,
        entry: 0,
        part,
    }
}

fn term(part: Part, factor: i64) -> RowTerm {
    RowTerm {
        column: column(part),
        factor,
    }
}

/// Lets a column of the operation go from 0 to `most`, where there is such a column.
fn widen(ranges: &mut Ranges, part: Part, most: i64) {
    if ranges.slots() == 0 || ranges.ops() == 0 {
        return;
    }
    match part {
        Part::A(crude) if crude >= ranges.crudes() => {}
        Part::W => {}
        _ => ranges.set(column(part), 0, most),
    }
}

/// The operation draws up to `most` of each of three crudes, and starts and ends from 0 to 2.
pub fn one_operation(alloc: Global, most: i64) -> Result<Ranges, AllocError> {
    let mut ranges = Ranges::new(alloc, 1, 1, 3, 0)?;
    for (part, most) in [
        (Part::Z, 1),
        (Part::A(0), most),
        (Part::A(1), most),
        (Part::A(2), most),
        (Part::S, 2),
        (Part::E, 2),
    ] {
        widen(&mut ranges, part, most);
    }
    Ok(ranges)
}

/// A row of one column.
pub fn of_one(alloc: Global, a: (Part, i64), right: i64) -> Result<Row, AllocError> {
    Row::new(alloc, &[term(a.0, a.1)], right)
}

/// A row of two columns.
pub fn of_two(alloc: Global, a: (Part, i64), b: (Part, i64), right: i64) -> Result<Row, Fail> {
    let (a, b) = (term(a.0, a.1), term(b.0, b.1));
    if a.column == b.column {
        return Err("a column stands twice".into());
    }
    Ok(Row::new(alloc, &[a, b], right)?)
}

/// A row of three columns.
pub fn of_three(alloc: Global, [a, b, c]: [(Part, i64); 3], right: i64) -> Result<Row, Fail> {
    let (a, b, c) = (term(a.0, a.1), term(b.0, b.1), term(c.0, c.1));
    if a.column == b.column || a.column == c.column || b.column == c.column {
        return Err("a column stands twice".into());
    }
    Ok(Row::new(alloc, &[a, b, c], right)?)
}

/// The sum of a row, to be made great.
pub fn sum_of(alloc: Global, row: &Row) -> Result<Objective, AllocError>
    ensures { IfOk result (λ sum. HasEachOnce sum) }
{
    Ok(Objective::from_vec(Vec::from_slice(alloc, row.terms())?))
}

pub fn alone(alloc: Global, row: Row) -> Result<RowList, AllocError> {
    Ok(RowList::from_vec(vec![in alloc; row]?))
}

pub fn both(alloc: Global, first: Row, second: Row) -> Result<RowList, AllocError> {
    Ok(RowList::from_vec(vec![in alloc; first, second]?))
}

/// A charge earns 3 a unit.
pub fn earned_by_charge(alloc: Global) -> Result<Objective, Fail>
    ensures { IfOk result (λ sum. HasEachOnce sum) }
{
    let row = of_one(alloc, (Part::A(0), 3), 0)?;
    Ok(sum_of(alloc, &row)?)
}

/// In half of the tank there are 2 units.
pub fn half_a_tank(alloc: Global) -> Result<RowList, Fail> {
    let row = of_one(alloc, (Part::A(0), 1), 2)?;
    Ok(alone(alloc, row)?)
}

/// A unit a minute at most.
pub fn slow(alloc: Global) -> Result<RowList, Fail> {
    let terms = [(Part::A(0), 1440), (Part::E, -1440), (Part::S, 1440)];
    let row = of_three(alloc, terms, 0)?;
    Ok(alone(alloc, row)?)
}

/// Three units a minute at least, and two minutes at least.
pub fn fixed_rate(alloc: Global) -> Result<RowList, Fail> {
    let terms = [(Part::E, 4320), (Part::S, -4320), (Part::A(0), -1440)];
    let slowest = of_three(alloc, terms, 0)?;
    let shortest = of_two(alloc, (Part::S, 1), (Part::E, -1), -2)?;
    Ok(both(alloc, slowest, shortest)?)
}

/// Three rows on three amounts.
pub fn three_rows(alloc: Global) -> Result<RowList, Fail> {
    let [a, b, c] = [Part::A(0), Part::A(1), Part::A(2)];
    let first = of_three(alloc, [(a, 1), (b, 1), (c, 2)], 4)?;
    let second = of_two(alloc, (a, 2), (c, 3), 5)?;
    let third = of_three(alloc, [(a, 2), (b, 1), (c, 3)], 7)?;
    Ok(RowList::from_vec(vec![in alloc; first, second, third]?))
}

/// What the three amounts earn.
pub fn earned_by_three(alloc: Global) -> Result<Objective, Fail>
    ensures { IfOk result (λ sum. HasEachOnce sum) }
{
    let terms = [(Part::A(0), 300), (Part::A(1), 200), (Part::A(2), 400)];
    let row = of_three(alloc, terms, 0)?;
    Ok(sum_of(alloc, &row)?)
}

/// What two amounts earn.
pub fn earned_by_two(alloc: Global, first: i64, second: i64) -> Result<Objective, Fail>
    ensures { IfOk result (λ sum. HasEachOnce sum) }
{
    let row = of_two(alloc, (Part::A(0), first), (Part::A(1), second), 0)?;
    Ok(sum_of(alloc, &row)?)
}

/// A row on two amounts.
fn on_two(alloc: Global, [first, second, right]: [i64; 3]) -> Result<Row, Fail> {
    of_two(alloc, (Part::A(0), first), (Part::A(1), second), right)
}

/// Two rows on two amounts, each by its two factors and what the sum is at most.
pub fn two_rows(alloc: Global, first: [i64; 3], second: [i64; 3]) -> Result<RowList, Fail> {
    let first = on_two(alloc, first)?;
    let second = on_two(alloc, second)?;
    Ok(both(alloc, first, second)?)
}
