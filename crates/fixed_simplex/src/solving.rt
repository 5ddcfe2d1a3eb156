use crate::course::Course;
use crate::fixed::{FRACTION, at, put, shifted};
use crate::inverse::Matrix;
use crate::pivot::{exchange, rebuild};
use crate::price::{dual_value, find_leaving, find_prices, find_slopes, find_values, find_weights};
use crate::ratio::{Break, find_entering};
use crate::scale::Program;
use limits::MOST_ROWS;
use std::alloc::{AllocError, Global};

/// After so many pivots the inverse is made anew.
const REBUILD_EVERY: u32 = 100;

/// Once in so many pivots it is asked whether the value is enough.
const ASKED_EVERY: u32 = 8;

/// By which power of two, of the value that is enough, it is to come down further.
const GOAL_BITS: u32 = 8;

/// The place of what has none.
const NOWHERE: usize = usize::MAX;

/// Rows that are tight, as many columns that are basic, and at which end the other columns stand.
#[derive(Drop)]
pub(crate) struct Basis {
    /// How many rows are tight.
    pub count: usize,
    rows: Vec<usize>,
    columns: Vec<usize>,
    row_places: Vec<usize>,
    column_places: Vec<usize>,
    at_most: Vec<bool>,
    /// The inverse of the tight rows' factors in the basic columns: a row for each basic column.
    pub inverse: Matrix,
}

/// How many rows can be tight at most: each pivot makes one more tight.
fn width_of(program: &Program, pivots: u32) -> usize {
    program
        .row_count()
        .min(program.column_count())
        .min(MOST_ROWS as usize)
        .min(pivots as usize)
}

impl Basis {
    /// No row is tight, and each column is at the end that earns more.
    pub fn new(alloc: Global, program: &Program, pivots: u32) -> Result<Basis, AllocError> {
        let rows = program.row_count();
        let columns = program.column_count();
        let width = width_of(program, pivots);
        let mut at_most = vec![in alloc; false; columns]?;
        for j in 0..columns {
            let gain = at(program.moved_gains.as_slice(), j, 0);
            put(at_most.as_mut_slice(), j, gain > 0);
        }
        Ok(Basis {
            count: 0,
            rows: vec![in alloc; 0usize; width]?,
            columns: vec![in alloc; 0usize; width]?,
            row_places: vec![in alloc; NOWHERE; rows]?,
            column_places: vec![in alloc; NOWHERE; columns]?,
            at_most,
            inverse: Matrix::new(alloc, width)?,
        })
    }

    /// Whether no further row can be tight.
    pub fn is_full(&self) -> bool {
        self.count >= self.rows.len()
    }

    /// The tight row at a place.
    pub fn row_at(&self, place: usize) -> usize {
        at(self.rows.as_slice(), place, NOWHERE)
    }

    /// The basic column at a place.
    pub fn column_at(&self, place: usize) -> usize {
        at(self.columns.as_slice(), place, NOWHERE)
    }

    /// The place of a tight row.
    pub fn row_place(&self, row: usize) -> Option<usize> {
        let place = at(self.row_places.as_slice(), row, NOWHERE);
        if place < self.count {
            Some(place)
        } else {
            None
        }
    }

    /// The place of a basic column.
    pub fn column_place(&self, column: usize) -> Option<usize> {
        let place = at(self.column_places.as_slice(), column, NOWHERE);
        if place < self.count {
            Some(place)
        } else {
            None
        }
    }

    /// Puts a row at a place.
    pub fn put_row(&mut self, place: usize, row: usize) {
        put(self.rows.as_mut_slice(), place, row);
        put(self.row_places.as_mut_slice(), row, place);
    }

    /// Puts a column at a place.
    pub fn put_column(&mut self, place: usize, column: usize) {
        put(self.columns.as_mut_slice(), place, column);
        put(self.column_places.as_mut_slice(), column, place);
    }

    /// The row at a place is no longer tight.
    pub fn drop_row(&mut self, place: usize) {
        let row = self.row_at(place);
        put(self.row_places.as_mut_slice(), row, NOWHERE);
    }

    /// The column at a place is no longer basic, and stands at an end.
    pub fn drop_column(&mut self, place: usize, most: bool) {
        let column = self.column_at(place);
        put(self.column_places.as_mut_slice(), column, NOWHERE);
        self.set_at_most(column, most);
    }

    /// Whether a column that is not basic stands at its greatest end.
    pub fn is_at_most(&self, column: usize) -> bool {
        at(self.at_most.as_slice(), column, false)
    }

    pub fn set_at_most(&mut self, column: usize, most: bool) {
        put(self.at_most.as_mut_slice(), column, most);
    }
}

/// Rows that were violated when all were looked at last.
#[derive(Drop)]
pub(crate) struct Suspects {
    rows: Vec<usize>,
    /// How many there are.
    pub count: usize,
}

impl Suspects {
    pub fn add(&mut self, row: usize) {
        put(self.rows.as_mut_slice(), self.count, row);
        self.count = self.count.saturating_add(1);
    }

    pub fn rows(&self) -> &[usize] {
        &self.rows[..self.count.min(self.rows.len())]
    }
}

/// What is computed anew at each pivot.
#[derive(Drop)]
pub(crate) struct Work {
    /// The price of each tight row.
    pub prices: Vec<i128>,
    /// What is left of each column's gain.
    pub weights: Vec<i128>,
    /// The number of each column.
    pub values: Vec<i128>,
    /// What each tight row still has for the basic columns.
    pub rests: Vec<i128>,
    /// The leaving row or column in terms of the tight rows.
    pub slopes: Vec<i128>,
    /// And what it then still has of each column.
    pub reduced: Vec<i128>,
    /// The entering column in terms of the basic ones.
    pub steps: Vec<i128>,
    /// The factors of a change of the inverse.
    pub factors: Vec<i128>,
    pub breaks: Vec<Break>,
    pub suspects: Suspects,
    /// The tight rows' factors in the basic columns, and what becomes their inverse.
    pub kernel: Matrix,
    pub fresh: Matrix,
    /// For each column of the kernel the row in which it has its 1.
    pub row_of: Vec<usize>,
}

impl Work {
    pub fn new(alloc: Global, program: &Program, pivots: u32) -> Result<Work, AllocError> {
        let columns = program.column_count();
        let width = width_of(program, pivots);
        Ok(Work {
            prices: vec![in alloc; 0i128; width]?,
            weights: vec![in alloc; 0i128; columns]?,
            values: Vec::from_slice(alloc, program.least.as_slice())?,
            rests: vec![in alloc; 0i128; width]?,
            slopes: vec![in alloc; 0i128; width]?,
            reduced: vec![in alloc; 0i128; columns]?,
            steps: vec![in alloc; 0i128; width]?,
            factors: vec![in alloc; 0i128; width]?,
            breaks: vec![in alloc; Break::NONE; columns.saturating_add(width)]?,
            suspects: Suspects {
                rows: vec![in alloc; 0usize; program.row_count()]?,
                count: 0,
            },
            kernel: Matrix::new(alloc, width)?,
            fresh: Matrix::new(alloc, width)?,
            row_of: vec![in alloc; NOWHERE; width]?,
        })
    }
}

/// What leaves: a violated row, which becomes tight, or a basic column beyond an end of its range.
#[derive(Clone, Copy)]
pub(crate) enum Leaving {
    Row(usize),
    Column { place: usize, above: bool },
}

/// Why the solver stopped.
#[derive(Clone, Copy)]
pub(crate) enum Stopped {
    /// No row and no range is violated.
    Optimal,
    /// Nothing can meet what is violated.
    Empty(Leaving),
    /// The value has come down far enough.
    Enough,
    /// There were so many pivots, or so many tight rows.
    Limit,
    /// A number would have left its bits.
    TooLarge,
}

/// Whether the value at the basis has come down to what is enough.
fn is_enough(program: &Program, basis: &Basis, work: &Work, enough: Option<i128>) -> Option<bool> {
    let Some(enough) = enough else {
        return Some(false);
    };
    let value = dual_value(
        program,
        basis,
        work.prices.as_slice(),
        work.weights.as_slice(),
    )?;
    Some(value <= enough)
}

/// One pivot, or why there is none; nothing where a number would leave its bits.
fn step(
    program: &Program,
    basis: &mut Basis,
    work: &mut Work,
    pool: usize,
    enough: Option<i128>,
) -> Option<Option<Stopped>> {
    find_prices(
        program.moved_gains.as_slice(),
        basis,
        work.prices.as_mut_slice(),
    )?;
    find_weights(
        program,
        program.moved_gains.as_slice(),
        basis,
        work.prices.as_slice(),
        work.weights.as_mut_slice(),
    )?;
    if is_enough(program, basis, work, enough)? {
        return Some(Some(Stopped::Enough));
    }
    find_values(program, basis, work)?;
    let Some((leaving, violation)) = find_leaving(program, basis, pool, work)? else {
        return Some(Some(Stopped::Optimal));
    };
    find_slopes(program, basis, leaving, work)?;
    let Some(entering) = find_entering(program, basis, work, violation)? else {
        return Some(Some(Stopped::Empty(leaving)));
    };
    if basis.is_full() && matches!(&leaving, Leaving::Row(_)) && entering.is_column() {
        return Some(Some(Stopped::Limit));
    }
    exchange(program, basis, work, leaving, entering)?;
    Some(None)
}

/// Goes on from a basis for so many pivots, over the first so many rows. Says how many pivots are left.
fn solve(
    program: &Program,
    basis: &mut Basis,
    work: &mut Work,
    pool: usize,
    pivots: u32,
    enough: Option<i128>,
) -> (Stopped, u32) {
    work.suspects.count = 0;
    for pivot in 0..pivots {
        let asked = if pivot % ASKED_EVERY == ASKED_EVERY - 1 {
            enough
        } else {
            None
        };
        match step(program, basis, work, pool, asked) {
            None => return (Stopped::TooLarge, 0),
            Some(Some(stopped)) => return (stopped, pivots - pivot),
            Some(None) => {}
        }
        if pivot % REBUILD_EVERY == REBUILD_EVERY - 1 && rebuild(program, basis, work).is_none() {
            return (Stopped::TooLarge, 0);
        }
    }
    (Stopped::Limit, 0)
}

/// What a value has to come down to, scaled: a little further than is asked, since prices are rounded in the end.
fn scaled_goal(program: &Program, enough: Option<i64>) -> Option<i128> {
    let goal = i128::from(enough?);
    let goal = goal.saturating_sub(goal.saturating_abs() >> GOAL_BITS);
    Some(shifted(goal, program.gain_shift.saturating_add(FRACTION)))
}

/// Solves over the first rows of each stage in turn, from the basis of the stage before, until nothing can be met, the
/// value is enough, or so many pivots have been made in all.
pub(crate) fn solve_in_stages(
    program: &Program,
    basis: &mut Basis,
    work: &mut Work,
    course: &Course,
) -> Stopped {
    let goal = scaled_goal(program, course.enough);
    let mut left = course.pivots;
    for pool in course.stages {
        let (stopped, rest) = solve(program, basis, work, *pool, left, goal);
        if !matches!(&stopped, Stopped::Optimal) {
            return stopped;
        }
        left = rest;
    }
    Stopped::Optimal
}
