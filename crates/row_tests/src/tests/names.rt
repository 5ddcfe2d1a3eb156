//! Rows that were worked out by hand from what each family says, names that have none, and sums over rows.

mod duals;
mod tables;

use linear_form::{Part, Row, RowTerm};
use named_rows::{named_row, named_row_laws};
use overlap_graph::cliques;
use plant_model::Plant;
use sample_plants::{Berthed, two_vessels, unloading};
use slot_box::RowName;
use std::alloc::{AllocError, Global};
use std::test::Fail;
use tables::{past, rows};

fn row_name([family, a, b, c, d]: [u16; 5]) -> RowName {
    let family = u8::try_from(family).unwrap_or(u8::MAX);
    RowName { family, a, b, c, d }
}

/// The row of the name over forms of so many slots, if there is one.
pub(crate) fn row_of(
    alloc: Global,
    plant: &Plant,
    slots: u32,
    name: [u16; 5],
) -> Result<Option<Row>, AllocError> {
    let cliques = cliques(alloc, plant)?;
    named_row(alloc, plant, &cliques, slots, row_name(name))
}

fn part_text(alloc: Global, part: Part) -> Result<String, AllocError> {
    match part {
        Part::Z => String::from_str(alloc, "z"),
        Part::A(crude) => format!(in alloc; "a{crude}"),
        Part::S => String::from_str(alloc, "s"),
        Part::E => String::from_str(alloc, "e"),
        Part::W => String::from_str(alloc, "w"),
    }
}

fn term_text(alloc: Global, term: RowTerm) -> Result<String, AllocError> {
    let part = part_text(alloc, term.column.part)?;
    let (slot, entry, part) = (term.column.slot, term.column.entry, part.as_str());
    format!(in alloc; " {slot}.{entry}.{part}*{}", term.factor)
}

/// What the sum of the row is at most, and its terms.
pub(crate) fn row_text(alloc: Global, row: &Row) -> Result<String, AllocError> {
    let mut text = row.right().to_string(alloc)?;
    for term in row.terms() {
        let term = term_text(alloc, *term)?;
        text.push_str(term.as_str())?;
    }
    Ok(text)
}

/// The row of the name over forms of three slots, as text.
fn told(alloc: Global, plant: &Plant, name: [u16; 5]) -> Result<String, AllocError> {
    match row_of(alloc, plant, 3, name)? {
        Some(row) => row_text(alloc, &row),
        None => String::from_str(alloc, "none"),
    }
}

#[test]
fn rows_of_each_family(rt: HostRuntime) -> Result<(), Fail> {
    let plant = two_vessels(rt.alloc())?;
    for (name, wanted) in rows() {
        assert_eq!(rt; told(rt.alloc(), &plant, *name)?.as_str(), *wanted);
    }
    named_row_laws(&plant);
    Ok(())
}

#[test]
fn names_past_the_ranges_have_no_row(rt: HostRuntime) -> Result<(), Fail> {
    let plant = two_vessels(rt.alloc())?;
    for name in past() {
        assert_eq!(rt;
            told(rt.alloc(), &plant, *name)?.as_str(),
            "none",
            "{name:?}"
        );
    }
    Ok(())
}

/// Whether the vessels at berth 1 and at this one are unloaded in their order.
fn is_ordered(alloc: Global, berth: i64) -> Result<bool, Fail> {
    let at = |berth| Berthed {
        arrival: 0,
        berth,
        demurrage: 0,
    };
    let plant = unloading(alloc, 2, &[at(1), at(berth)])?;
    Ok(row_of(alloc, &plant, 2, [15, 1, 2, 1, 0])?.is_some())
}

/// The vessels of one berth are unloaded in their order, those of two in any.
#[test]
fn order_is_kept_at_a_berth(rt: HostRuntime) -> Result<(), Fail> {
    assert!(rt; is_ordered(rt.alloc(), 1)?);
    assert!(rt; !is_ordered(rt.alloc(), 2)?);
    Ok(())
}
