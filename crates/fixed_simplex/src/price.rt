use crate::fixed::{ONE, add_scaled, at, copy_first, product_sum, put, times};
use crate::scale::{Entry, Program};
use crate::solving::{Basis, Leaving, Suspects, Work};

/// A weight that counts as 0: about a ten-millionth.
const TINY: i128 = ONE >> 23;

/// The price of each tight row, by the gains of the basic columns.
pub(crate) fn find_prices(gains: &[i128], basis: &Basis, prices: &mut [i128]) -> Option<()> {
    prices.fill(0);
    for p in 0..basis.count {
        let gain = at(gains, basis.column_at(p), 0);
        add_scaled(prices, basis.inverse.row(p), gain, basis.count)?;
    }
    Some(())
}

/// Takes so many times the entries away.
fn take_row(sums: &mut [i128], entries: &[Entry], price: i128) -> Option<()> {
    if price == 0 {
        return Some(());
    }
    for entry in entries {
        let part = times(price, entry.factor)?;
        let sum = at(sums, entry.column, 0).checked_sub(part)?;
        put(sums, entry.column, sum);
    }
    Some(())
}

/// What the prices leave of each column's gain.
pub(crate) fn find_weights(
    program: &Program,
    gains: &[i128],
    basis: &Basis,
    prices: &[i128],
    weights: &mut [i128],
) -> Option<()> {
    copy_first(weights, gains, weights.len(), false);
    for q in 0..basis.count {
        take_row(weights, program.row(basis.row_at(q)), at(prices, q, 0))?;
    }
    Some(())
}

/// The sum of the entries at these values.
fn activity(entries: &[Entry], values: &[i128]) -> Option<i128> {
    let mut sum: i128 = 0;
    for entry in entries {
        let value = at(values, entry.column, 0);
        if value != 0 {
            sum = sum.checked_add(times(entry.factor, value)?)?;
        }
    }
    Some(sum)
}

/// Puts each free column that is not basic at the end that earns more, and the others at 0.
fn place_columns(program: &Program, basis: &mut Basis, weights: &[i128], values: &mut [i128]) {
    for j in program.free.as_slice() {
        let weight = at(weights, *j, 0);
        if weight > TINY || weight < -TINY {
            basis.set_at_most(*j, weight > 0);
        }
        let value = if basis.column_place(*j).is_some() {
            0
        } else if basis.is_at_most(*j) {
            at(program.most.as_slice(), *j, 0)
        } else {
            at(program.least.as_slice(), *j, 0)
        };
        put(values, *j, value);
    }
}

/// What each tight row still has for the basic columns.
fn find_rests(program: &Program, basis: &Basis, values: &[i128], rests: &mut [i128]) -> Option<()> {
    for q in 0..basis.count {
        let r = basis.row_at(q);
        let used = activity(program.row(r), values)?;
        let rest = at(program.rights.as_slice(), r, 0).checked_sub(used)?;
        put(rests, q, rest);
    }
    Some(())
}

/// The value of each column at the basis.
pub(crate) fn find_values(program: &Program, basis: &mut Basis, work: &mut Work) -> Option<()> {
    place_columns(
        program,
        basis,
        work.weights.as_slice(),
        work.values.as_mut_slice(),
    );
    find_rests(
        program,
        basis,
        work.values.as_slice(),
        work.rests.as_mut_slice(),
    )?;
    for p in 0..basis.count {
        let value = product_sum(basis.inverse.row(p), work.rests.as_slice(), basis.count)?;
        put(work.values.as_mut_slice(), basis.column_at(p), value);
    }
    Some(())
}

/// The basic column that is farthest beyond its range, and by how much; `least` where none is farther.
fn farthest_column(
    program: &Program,
    basis: &Basis,
    values: &[i128],
    least: i128,
) -> Option<(Option<Leaving>, i128)> {
    let mut farthest = least;
    let mut found = None;
    for place in 0..basis.count {
        let j = basis.column_at(place);
        let value = at(values, j, 0);
        let above = value.checked_sub(at(program.most.as_slice(), j, 0))?;
        let below = at(program.least.as_slice(), j, 0).checked_sub(value)?;
        if above.max(below) > farthest {
            farthest = above.max(below);
            found = Some(Leaving::Column {
                place,
                above: above > below,
            });
        }
    }
    Some((found, farthest))
}

/// By how much a row is violated, if it is not tight.
fn violation_of(program: &Program, basis: &Basis, values: &[i128], row: usize) -> Option<i128> {
    if basis.row_place(row).is_some() {
        return Some(0);
    }
    let used = activity(program.row(row), values)?;
    used.checked_sub(at(program.rights.as_slice(), row, 0))
}

/// The row of these that is violated most, and by how much; `least` where none is violated more.
fn worst_row(
    program: &Program,
    basis: &Basis,
    values: &[i128],
    rows: &[usize],
    least: i128,
) -> Option<(Option<Leaving>, i128)> {
    let mut worst = least;
    let mut found = None;
    for row in rows {
        let violation = violation_of(program, basis, values, *row)?;
        if violation > worst {
            worst = violation;
            found = Some(Leaving::Row(*row));
        }
    }
    Some((found, worst))
}

/// Suspects each of the first so many rows that is violated by more than 1.
fn suspect_violated(
    program: &Program,
    basis: &Basis,
    values: &[i128],
    pool: usize,
    suspects: &mut Suspects,
) -> Option<()> {
    suspects.count = 0;
    for row in 0..pool.min(program.row_count()) {
        if violation_of(program, basis, values, row)? > ONE {
            suspects.add(row);
        }
    }
    Some(())
}

/// The worst of the suspects, and by how much it is violated; `least` where none is violated more.
fn worst_suspect(
    program: &Program,
    basis: &Basis,
    work: &Work,
    least: i128,
) -> Option<(Option<Leaving>, i128)> {
    let rows = work.suspects.rows();
    worst_row(program, basis, work.values.as_slice(), rows, least)
}

/// What is violated most, by more than 1, and by how much: of the basic columns and of the rows that were violated when
/// all of the first so many were looked at last. Where none of these is, all are looked at.
pub(crate) fn find_leaving(
    program: &Program,
    basis: &Basis,
    pool: usize,
    work: &mut Work,
) -> Option<Option<(Leaving, i128)>> {
    let (column, farthest) = farthest_column(program, basis, work.values.as_slice(), ONE)?;
    let (row, worst) = worst_suspect(program, basis, work, farthest)?;
    if let Some(leaving) = row.or(column) {
        return Some(Some((leaving, worst)));
    }
    let values = work.values.as_slice();
    suspect_violated(program, basis, values, pool, &mut work.suspects)?;
    let (row, worst) = worst_suspect(program, basis, work, ONE)?;
    Some(row.map(|leaving| (leaving, worst)))
}

/// The leaving row in terms of the tight rows: its factors in the basic columns by the inverse.
fn row_slopes(basis: &Basis, entries: &[Entry], slopes: &mut [i128]) -> Option<()> {
    for entry in entries {
        if let Some(place) = basis.column_place(entry.column) {
            add_scaled(slopes, basis.inverse.row(place), entry.factor, basis.count)?;
        }
    }
    Some(())
}

/// What is left of each column once the tight rows are taken away by the slopes.
fn take_slopes(
    program: &Program,
    basis: &Basis,
    slopes: &[i128],
    reduced: &mut [i128],
) -> Option<()> {
    for q in 0..basis.count {
        take_row(reduced, program.row(basis.row_at(q)), at(slopes, q, 0))?;
    }
    Some(())
}

/// What leaves in terms of the tight rows, and what it then still has of each column.
pub(crate) fn find_slopes(
    program: &Program,
    basis: &Basis,
    leaving: Leaving,
    work: &mut Work,
) -> Option<()> {
    work.slopes.as_mut_slice().fill(0);
    work.reduced.as_mut_slice().fill(0);
    match leaving {
        Leaving::Row(r) => {
            row_slopes(basis, program.row(r), work.slopes.as_mut_slice())?;
            take_row(work.reduced.as_mut_slice(), program.row(r), -ONE)?;
        }
        Leaving::Column { place, above } => {
            let row = basis.inverse.row(place);
            copy_first(work.slopes.as_mut_slice(), row, basis.count, !above);
        }
    }
    take_slopes(
        program,
        basis,
        work.slopes.as_slice(),
        work.reduced.as_mut_slice(),
    )
}

/// What the tight rows come to by their prices.
fn right_value(program: &Program, basis: &Basis, prices: &[i128]) -> Option<i128> {
    let mut sum: i128 = 0;
    for q in 0..basis.count {
        let right = at(program.rights.as_slice(), basis.row_at(q), 0);
        sum = sum.checked_add(times(at(prices, q, 0), right)?)?;
    }
    Some(sum)
}

/// The dual value of the program: the tight rows by their prices, and the most that each column earns besides.
pub(crate) fn dual_value(
    program: &Program,
    basis: &Basis,
    prices: &[i128],
    weights: &[i128],
) -> Option<i128> {
    let mut sum = right_value(program, basis, prices)?.checked_add(program.fixed_gain)?;
    for j in program.free.as_slice() {
        let weight = at(weights, *j, 0);
        if weight != 0 && basis.column_place(*j).is_none() {
            let end = if weight > 0 {
                at(program.most.as_slice(), *j, 0)
            } else {
                at(program.least.as_slice(), *j, 0)
            };
            sum = sum.checked_add(times(weight, end)?)?;
        }
    }
    Some(sum)
}
