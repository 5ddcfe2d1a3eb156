ghost use Rattle.std.specs.Prelude.{◌<◌, ◌≤◌, length};

use crate::fixed::{ONE, at, divided, put, times};
use crate::scale::Program;
use crate::solving::{Basis, Work};

/// A slope that counts as 0: about a ten-millionth.
const TINY: i128 = ONE >> 23;

/// Ratios that are as near as this count as equal.
const NEAR: i128 = ONE >> 26;

/// A loss that ends every walk.
const ENDLESS: i128 = 1 << 120;

/// What enters: a column becomes basic, or the tight row at a place is let go.
#[derive(Clone, Copy)]
pub(crate) enum Entering {
    Column(usize),
    Row(usize),
}

impl Entering {
    pub fn is_column(self) -> bool {
        match self {
            Entering::Column(_) => true,
            Entering::Row(_) => false,
        }
    }
}

/// How far the prices can go until a weight, or a price, is 0.
#[derive(Clone, Copy)]
pub(crate) struct Break {
    ratio: i128,
    size: i128,
    entering: Entering,
}

impl Break {
    pub const NONE: Break = Break {
        ratio: 0,
        size: 0,
        entering: Entering::Row(0),
    };
}

fn break_of(level: i128, size: i128, entering: Entering) -> Option<Break> {
    Some(Break {
        ratio: divided(level, size)?.max(0),
        size,
        entering,
    })
}

/// The breaks of the columns that are not basic. Gives how many there are.
fn column_breaks(
    program: &Program,
    basis: &Basis,
    weights: &[i128],
    reduced: &[i128],
    breaks: &mut [Break],
) -> Option<usize> {
    let mut count: usize = 0;
    for j in program.free.as_slice() {
        let most = basis.is_at_most(*j);
        let less = at(reduced, *j, 0);
        let slope = if most { less } else { less.checked_neg()? };
        if slope > TINY && basis.column_place(*j).is_none() {
            let weight = at(weights, *j, 0);
            let level = if most { weight } else { weight.checked_neg()? };
            put(breaks, count, break_of(level, slope, Entering::Column(*j))?);
            count = count.saturating_add(1);
        }
    }
    Some(count)
}

/// The breaks of the tight rows, after so many others. Gives how many there are then.
fn row_breaks(
    basis: &Basis,
    prices: &[i128],
    slopes: &[i128],
    before: usize,
    breaks: &mut [Break],
) -> Option<usize> {
    let mut count = before;
    for q in 0..basis.count {
        let slope = at(slopes, q, 0);
        if slope > TINY {
            put(
                breaks,
                count,
                break_of(at(prices, q, 0), slope, Entering::Row(q))?,
            );
            count = count.saturating_add(1);
        }
    }
    Some(count)
}

/// Where the breaks end that are as near as the one at `from`.
fn end_of_near(breaks: &[Break], from: usize) -> usize
    requires { from < length breaks.now }
    ensures begin { from ≤ result }
    ensures end { result ≤ length breaks.now }
{
    let first = at(breaks, from, Break::NONE).ratio;
    for k in from..breaks.len() {
        if breaks[k].ratio > first.saturating_add(NEAR) {
            return k;
        }
    }
    breaks.len()
}

/// What is lost of the violation where all these breaks are passed: their columns go to their other ends.
fn loss_of(program: &Program, breaks: &[Break]) -> Option<i128> {
    let mut loss: i128 = 0;
    for point in breaks {
        match point.entering {
            Entering::Row(_) => return Some(ENDLESS),
            Entering::Column(j) => {
                let least = at(program.least.as_slice(), j, 0);
                let length = at(program.most.as_slice(), j, 0).checked_sub(least)?;
                loss = loss.checked_add(times(point.size, length)?)?;
            }
        }
    }
    Some(loss)
}

/// The break of the greatest slope.
fn steepest(breaks: &[Break]) -> Option<Entering> {
    let mut size = 0;
    let mut found = None;
    for point in breaks {
        if point.size > size {
            size = point.size;
            found = Some(point.entering);
        }
    }
    found
}

/// Where the sorted breaks are passed no longer: the ones before that place are passed, and that enters.
fn end_of_walk(
    program: &Program,
    breaks: &[Break],
    violation: i128,
) -> Option<Option<(usize, Entering)>> {
    let mut from = 0;
    let mut left = violation;
    for _group in 0..breaks.len() {
        if from >= breaks.len() {
            return Some(None);
        }
        let to = end_of_near(breaks, from);
        let loss = loss_of(program, &breaks[from..to])?;
        left = left.checked_sub(loss)?;
        if left <= (violation >> 23).saturating_add(1 << 10) {
            return Some(steepest(&breaks[from..to]).map(|entering| (from, entering)));
        }
        from = to;
    }
    Some(None)
}

/// The columns of these breaks go to their other ends.
fn turn_columns(basis: &mut Basis, breaks: &[Break]) {
    for point in breaks {
        if let Entering::Column(j) = point.entering {
            basis.set_at_most(j, !basis.is_at_most(j));
        }
    }
}

/// What enters for what leaves, if anything can.
pub(crate) fn find_entering(
    program: &Program,
    basis: &mut Basis,
    work: &mut Work,
    violation: i128,
) -> Option<Option<Entering>> {
    let breaks = work.breaks.as_mut_slice();
    let columns = column_breaks(
        program,
        basis,
        work.weights.as_slice(),
        work.reduced.as_slice(),
        breaks,
    )?;
    let slopes = work.slopes.as_slice();
    let count = row_breaks(basis, work.prices.as_slice(), slopes, columns, breaks)?;
    let count = count.min(breaks.len());
    let breaks = &mut breaks[..count];
    breaks.sort_unstable_by_key(|point| point.ratio);
    let Some((passed, entering)) = end_of_walk(program, breaks, violation)? else {
        return Some(None);
    };
    turn_columns(basis, &breaks[..passed.min(breaks.len())]);
    Some(Some(entering))
}
