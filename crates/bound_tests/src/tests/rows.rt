use item_lists::Items;
use linear_form::{Column, IDLE_ENTRY, Part, RowTerm};
use plant_model::Plant;
use row_forms::{Figure, Inequality, Piece, Which, build_row, build_terms, row_form_laws};
use sample_plants::{Berthed, one_charge, unloading};
use std::alloc::{AllocError, Global};
use std::test::Fail;

/// Two vessels that arrive at minutes 1 and 2: `u1` unloads V1 into S1, `u2` V2 into S2.
fn two_vessels(alloc: Global) -> Result<Plant, AllocError> {
    let first = Berthed {
        arrival: 1,
        berth: 1,
        demurrage: 5,
    };
    let second = Berthed {
        arrival: 2,
        ..first
    };
    unloading(alloc, 4, &[first, second])
}

fn term(slot: u32, entry: u8, part: Part, factor: i64) -> RowTerm {
    let column = Column { slot, entry, part };
    RowTerm { column, factor }
}

#[test]
fn a_row_of_waiting_has_ends_choices_and_the_vessel(rt: HostRuntime) -> Result<(), Fail> {
    let plant = two_vessels(rt.alloc())?;
    let pieces = vec![in rt.alloc();
        Piece::new(1, 1, 1, Which::From(0), Figure::End),
        Piece::new(-1, 1, 1, Which::From(0), Figure::Choice),
        Piece::wait(-1, 0),
    ]?;
    let inequality = Inequality {
        pieces: Items::from_vec(pieces),
        right: 7,
    };
    let row = build_row(rt.alloc(), &plant, 2, &inequality)?;
    let expected = [
        term(1, 0, Part::Z, -1),
        term(1, 0, Part::E, 1),
        term(0, 0, Part::W, -1),
    ];
    assert_eq!(rt; row.terms(), expected.as_slice());
    assert_eq!(rt; row.right(), 7);
    row_form_laws(&plant);
    Ok(())
}

#[test]
fn pieces_that_meet_in_a_column_add_up(rt: HostRuntime) -> Result<(), Fail> {
    let plant = two_vessels(rt.alloc())?;
    let pieces = [
        Piece::new(1, 1, 1, Which::Among(0b11), Figure::End),
        Piece::new(-1, 1, 1, Which::One(1), Figure::End),
        Piece::new(-1, 2, 2, Which::Any, Figure::Choice),
        Piece::new(3, 2, 3, Which::Idle, Figure::Choice),
        Piece::new(4, 1, 2, Which::Into(3), Figure::Volume),
    ];
    let terms = build_terms(rt.alloc(), &plant, 2, &pieces)?;
    let expected = [
        term(1, 0, Part::E, 1),
        term(1, 1, Part::A(0), 4),
        term(2, IDLE_ENTRY, Part::Z, 2),
        term(2, 0, Part::Z, -1),
        term(2, 1, Part::Z, -1),
        term(2, 1, Part::A(0), 4),
    ];
    assert_eq!(rt; terms.as_slice(), expected.as_slice());
    Ok(())
}

#[test]
fn charges_earn_by_what_they_draw(rt: HostRuntime) -> Result<(), Fail> {
    let plant = one_charge().plant(rt.alloc())?;
    let pieces = [
        Piece::new(3, 1, 1, Which::Charges, Figure::Amount(0)),
        Piece::new(-2, 1, 1, Which::Charges, Figure::Start),
    ];
    let terms = build_terms(rt.alloc(), &plant, 1, &pieces)?;
    let expected = [term(1, 0, Part::S, -2), term(1, 0, Part::A(0), 3)];
    assert_eq!(rt; terms.as_slice(), expected.as_slice());
    Ok(())
}
