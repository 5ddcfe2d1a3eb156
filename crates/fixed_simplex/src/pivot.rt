use crate::fixed::{ONE, add_scaled, at, copy_first, divide_all, divided, product_sum, put};
use crate::inverse::Matrix;
use crate::ratio::Entering;
use crate::scale::{Entry, Program};
use crate::solving::{Basis, Leaving, Work};

/// A pivot that is refused: about a thousand-millionth.
const TINY: i128 = ONE >> 30;

/// The factor of a column in a row.
fn factor_in(entries: &[Entry], column: usize) -> i128 {
    for entry in entries {
        if entry.column == column {
            return entry.factor;
        }
    }
    0
}

/// The factors of a column in the tight rows.
fn find_factors(program: &Program, basis: &Basis, column: usize, factors: &mut [i128]) {
    for q in 0..basis.count {
        put(factors, q, factor_in(program.row(basis.row_at(q)), column));
    }
}

/// A column in terms of the basic columns.
fn find_steps(program: &Program, basis: &Basis, column: usize, work: &mut Work) -> Option<()> {
    find_factors(program, basis, column, work.factors.as_mut_slice());
    for p in 0..basis.count {
        let step = product_sum(basis.inverse.row(p), work.factors.as_slice(), basis.count)?;
        put(work.steps.as_mut_slice(), p, step);
    }
    Some(())
}

/// Takes so many times the factors from each row of the inverse but one.
fn take_factors(
    inverse: &mut Matrix,
    steps: &[i128],
    factors: &[i128],
    count: usize,
    but: usize,
) -> Option<()> {
    for p in 0..count {
        let step = at(steps, p, 0);
        if p != but && step != 0 {
            add_scaled(inverse.row_mut(p), factors, step.checked_neg()?, count)?;
        }
    }
    Some(())
}

/// Sets the numbers of a column of the inverse to so many of them by the pivot, turned round.
fn put_steps(inverse: &mut Matrix, steps: &[i128], pivot: i128, count: usize) -> Option<()> {
    for p in 0..count {
        let step = divided(at(steps, p, 0), pivot)?;
        inverse.set(p, count, step.checked_neg()?);
    }
    Some(())
}

/// A row becomes tight, and a column basic.
fn grow(basis: &mut Basis, work: &mut Work, row: usize, column: usize) -> Option<()> {
    let count = basis.count;
    let pivot = at(work.reduced.as_slice(), column, 0);
    let factors = work.factors.as_mut_slice();
    copy_first(factors, work.slopes.as_slice(), count, true);
    divide_all(factors, pivot, count)?;
    let steps = work.steps.as_slice();
    take_factors(&mut basis.inverse, steps, factors, count, count)?;
    put_steps(&mut basis.inverse, steps, pivot, count)?;
    copy_first(basis.inverse.row_mut(count), factors, count, false);
    basis.inverse.set(count, count, divided(ONE, pivot)?);
    basis.put_row(count, row);
    basis.put_column(count, column);
    basis.count = count.saturating_add(1);
    Some(())
}

/// Copies the numbers of a column of the inverse.
fn copy_column(inverse: &Matrix, q: usize, count: usize, target: &mut [i128]) {
    for p in 0..count {
        put(target, p, inverse.get(p, q));
    }
}

/// Sets the numbers of a column of the inverse to these by the pivot.
fn put_divided(
    inverse: &mut Matrix,
    q: usize,
    numbers: &[i128],
    pivot: i128,
    count: usize,
) -> Option<()> {
    for p in 0..count {
        inverse.set(p, q, divided(at(numbers, p, 0), pivot)?);
    }
    Some(())
}

/// A row becomes tight for the one at a place.
fn exchange_rows(basis: &mut Basis, work: &mut Work, row: usize, place: usize) -> Option<()> {
    let count = basis.count;
    let pivot = at(work.slopes.as_slice(), place, 0);
    let factors = work.factors.as_mut_slice();
    copy_first(factors, work.slopes.as_slice(), count, false);
    put(factors, place, 0);
    divide_all(factors, pivot, count)?;
    let steps = work.steps.as_mut_slice();
    copy_column(&basis.inverse, place, count, steps);
    take_factors(&mut basis.inverse, steps, factors, count, count)?;
    put_divided(&mut basis.inverse, place, steps, pivot, count)?;
    basis.drop_row(place);
    basis.put_row(place, row);
    Some(())
}

/// A column becomes basic for the one at a place, which goes to an end.
fn exchange_columns(
    basis: &mut Basis,
    work: &mut Work,
    place: usize,
    above: bool,
    column: usize,
) -> Option<()> {
    let count = basis.count;
    let pivot = at(work.steps.as_slice(), place, 0);
    divide_all(basis.inverse.row_mut(place), pivot, count)?;
    let factors = work.factors.as_mut_slice();
    copy_first(factors, basis.inverse.row(place), count, false);
    let steps = work.steps.as_slice();
    take_factors(&mut basis.inverse, steps, factors, count, place)?;
    basis.drop_column(place, above);
    basis.put_column(place, column);
    Some(())
}

/// The last row of the inverse takes the place of another.
fn move_last_column(basis: &mut Basis, work: &mut Work, place: usize) {
    let last = basis.count.saturating_sub(1);
    if place != last {
        let factors = work.factors.as_mut_slice();
        copy_first(factors, basis.inverse.row(last), basis.count, false);
        copy_first(basis.inverse.row_mut(place), factors, basis.count, false);
        let column = basis.column_at(last);
        basis.put_column(place, column);
    }
}

/// The last tight row takes the place of another.
fn move_last_row(basis: &mut Basis, place: usize) {
    let last = basis.count.saturating_sub(1);
    if place != last {
        for p in 0..basis.count {
            let number = basis.inverse.get(p, last);
            basis.inverse.set(p, place, number);
        }
        let row = basis.row_at(last);
        basis.put_row(place, row);
    }
}

/// The column at a place goes to an end, and a tight row is let go.
fn shrink(
    basis: &mut Basis,
    work: &mut Work,
    place: usize,
    above: bool,
    row_place: usize,
) -> Option<()> {
    let count = basis.count;
    let pivot = basis.inverse.get(place, row_place);
    let factors = work.factors.as_mut_slice();
    copy_first(factors, basis.inverse.row(place), count, false);
    divide_all(factors, pivot, count)?;
    let steps = work.steps.as_mut_slice();
    copy_column(&basis.inverse, row_place, count, steps);
    take_factors(&mut basis.inverse, steps, factors, count, place)?;
    basis.drop_column(place, above);
    basis.drop_row(row_place);
    move_last_column(basis, work, place);
    move_last_row(basis, row_place);
    basis.count = count.saturating_sub(1);
    Some(())
}

/// Changes the basis and its inverse by what leaves and what enters.
pub(crate) fn exchange(
    program: &Program,
    basis: &mut Basis,
    work: &mut Work,
    leaving: Leaving,
    entering: Entering,
) -> Option<()> {
    if let Entering::Column(column) = entering {
        find_steps(program, basis, column, work)?;
    }
    match (leaving, entering) {
        (Leaving::Row(row), Entering::Column(column)) => grow(basis, work, row, column),
        (Leaving::Row(row), Entering::Row(place)) => exchange_rows(basis, work, row, place),
        (Leaving::Column { place, above }, Entering::Column(column)) => {
            exchange_columns(basis, work, place, above, column)
        }
        (Leaving::Column { place, above }, Entering::Row(row_place)) => {
            shrink(basis, work, place, above, row_place)
        }
    }
}

/// Writes a tight row's factors in the basic columns.
fn fill_row(basis: &Basis, entries: &[Entry], kernel: &mut [i128]) {
    kernel.fill(0);
    for entry in entries {
        if let Some(place) = basis.column_place(entry.column) {
            put(kernel, place, entry.factor);
        }
    }
}

/// Writes the tight rows' factors in the basic columns, and beside them the unit matrix.
fn fill_kernel(program: &Program, basis: &Basis, work: &mut Work) {
    for q in 0..basis.count {
        fill_row(basis, program.row(basis.row_at(q)), work.kernel.row_mut(q));
        work.fresh.row_mut(q).fill(0);
        work.fresh.set(q, q, ONE);
        put(work.row_of.as_mut_slice(), q, usize::MAX);
    }
}

/// Whether one of the first so many columns has its 1 in that row.
fn is_taken(row_of: &[usize], row: usize, count: usize) -> bool {
    for c in 0..count.min(row_of.len()) {
        if row_of[c] == row {
            return true;
        }
    }
    false
}

/// The row of the greatest number in a column, of those that no earlier column has.
fn pivot_row(kernel: &Matrix, row_of: &[usize], column: usize, count: usize) -> Option<usize> {
    let mut greatest: u128 = TINY.unsigned_abs();
    let mut found = None;
    for row in 0..count {
        let size = kernel.get(row, column).unsigned_abs();
        if size > greatest && !is_taken(row_of, row, column) {
            greatest = size;
            found = Some(row);
        }
    }
    found
}

/// Makes a column of the kernel that of the unit matrix, and does the same steps on the fresh inverse.
fn clear_column(work: &mut Work, column: usize, count: usize) -> Option<()> {
    let row = pivot_row(&work.kernel, work.row_of.as_slice(), column, count)?;
    put(work.row_of.as_mut_slice(), column, row);
    let pivot = work.kernel.get(row, column);
    divide_all(work.kernel.row_mut(row), pivot, count)?;
    divide_all(work.fresh.row_mut(row), pivot, count)?;
    copy_column(&work.kernel, column, count, work.steps.as_mut_slice());
    copy_first(
        work.factors.as_mut_slice(),
        work.kernel.row(row),
        count,
        false,
    );
    let steps = work.steps.as_slice();
    take_factors(&mut work.kernel, steps, work.factors.as_slice(), count, row)?;
    copy_first(
        work.factors.as_mut_slice(),
        work.fresh.row(row),
        count,
        false,
    );
    take_factors(&mut work.fresh, steps, work.factors.as_slice(), count, row)
}

/// Makes the inverse anew from the tight rows and the basic columns.
pub(crate) fn rebuild(program: &Program, basis: &mut Basis, work: &mut Work) -> Option<()> {
    let count = basis.count;
    fill_kernel(program, basis, work);
    for column in 0..count {
        clear_column(work, column, count)?;
    }
    for p in 0..count {
        let row = at(work.row_of.as_slice(), p, usize::MAX);
        copy_first(basis.inverse.row_mut(p), work.fresh.row(row), count, false);
    }
    Some(())
}
