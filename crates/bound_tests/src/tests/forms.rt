ghost use Rattle.std.specs.Prelude.{◌≡◌, IfOk};
ghost use Rattle.linear_form.specs.Columns.{Extent, IsColumn};

use linear_form::{
    Column, IDLE_ENTRY, Objective, Part, Ranges, Row, RowList, RowTerm, column_laws,
};
use std::alloc::{AllocError, Global};
use std::test::Fail;

const IDLE: Column = Column {
    slot: 2,
    entry: IDLE_ENTRY,
    part: Part::Z,
};

const DRAWN: Column = Column {
    slot: 1,
    entry: 2,
    part: Part::A(1),
};

const WAITED: Column = Column {
    slot: 0,
    entry: 1,
    part: Part::W,
};

const TERMS: [RowTerm; 2] = [
    RowTerm {
        column: DRAWN,
        factor: -1440,
    },
    RowTerm {
        column: IDLE,
        factor: 3,
    },
];

fn row(alloc: Global) -> Result<Row, AllocError> {
    Row::new(alloc, &TERMS, -7)
}

#[test]
fn a_row_is_its_terms(rt: HostRuntime) -> Result<(), Fail> {
    let row = row(rt.alloc())?;
    assert_eq!(rt; row.terms(), TERMS.as_slice());
    assert_eq!(rt; row.right(), -7);
    Ok(())
}

#[test]
fn a_system_is_a_list_of_rows(rt: HostRuntime) -> Result<(), Fail> {
    let mut rows: RowList = RowList::new(rt.alloc());
    assert!(rt; rows.push(row(rt.alloc())?).is_ok());
    assert_eq!(rt; rows.as_slice().len(), 1);
    Ok(())
}

#[test]
fn an_objective_is_a_list_of_terms(rt: HostRuntime) {
    let [drawn, _] = TERMS;
    let mut objective: Objective = Objective::new(rt.alloc());
    assert!(rt; objective.push(drawn).is_ok());
    assert_eq!(rt; objective.as_slice(), [drawn].as_slice());
}

/// Gives a column its range.
fn set(ranges: &mut Ranges, column: Column, lo: i64, hi: i64)
    requires { IsColumn ranges.old.extent column }
    ensures { ranges.new.extent ≡ ranges.old.extent }
{
    ranges.set(column, lo, hi);
}

fn is_ranged(ranges: &Ranges, column: Column, lo: i64, hi: i64) -> bool
    requires { IsColumn ranges.now.extent column }
{
    ranges.get(column) == (lo, hi)
}

/// Two slots, three operations, two crudes and two vessels, where three columns have a range.
fn sample(alloc: Global) -> Result<Ranges, AllocError>
    ensures { IfOk result (λ ranges.
        ranges.extent ≡ record { slots = 2; ops = 3; crudes = 2; vessels = 2 }) }
{
    let mut ranges = Ranges::new(alloc, 2, 3, 2, 2)?;
    set(&mut ranges, IDLE, 0, 1);
    set(&mut ranges, DRAWN, -5, i64::MAX);
    set(&mut ranges, WAITED, 0, 60);
    Ok(ranges)
}

#[test]
fn counts_columns(rt: HostRuntime) -> Result<(), Fail> {
    let ranges = sample(rt.alloc())?;
    assert_eq!(rt; ranges.slots(), 2);
    assert_eq!(rt; ranges.ops(), 3);
    assert_eq!(rt; ranges.crudes(), 2);
    assert_eq!(rt; ranges.vessels(), 2);
    assert_eq!(rt; ranges.ends().len(), 34);
    Ok(())
}

#[test]
fn each_column_keeps_its_range(rt: HostRuntime) -> Result<(), Fail> {
    let ranges = sample(rt.alloc())?;
    assert!(rt; is_ranged(&ranges, IDLE, 0, 1));
    assert!(rt; is_ranged(&ranges, DRAWN, -5, i64::MAX));
    assert!(rt; is_ranged(&ranges, WAITED, 0, 60));
    let start = Column {
        part: Part::S,
        ..DRAWN
    };
    assert!(rt; is_ranged(&ranges, start, 0, 0));
    Ok(())
}

#[test]
fn numbers_columns(rt: HostRuntime) -> Result<(), Fail> {
    let ranges = sample(rt.alloc())?;
    assert_eq!(rt; ranges.number(IDLE), 1);
    assert_eq!(rt; ranges.number(DRAWN), 16);
    assert_eq!(rt; ranges.number(WAITED), 33);
    column_laws();
    Ok(())
}
