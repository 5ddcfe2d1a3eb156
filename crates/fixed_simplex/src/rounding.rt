ghost use Rattle.std.specs.Prelude.{◌≡◌, ◌≤◌, length, All, IfOk, IfSome};
ghost use Rattle.linear_form.specs.Columns.{count_of};
ghost use Rattle.dual_bound.specs.Conditions.{IsSystem, IsObjective, IsGuess};
ghost use Rattle.fixed_simplex.specs.inside.Problems.{IsWhole};
ghost use Rattle.limits.specs.declared.TheConstants.{MOST_MULTIPLIER, SIMPLEX_COLUMNS};

use crate::course::Course;
use crate::denominators::{common, finest, greatest_of};
use crate::fixed::{ONE, at, bits_of, put, shifted};
use crate::price::{dual_value, find_prices, find_weights};
use crate::problem::Problem;
use crate::scale::{Program, program_of};
use crate::solving::{Basis, Leaving, Stopped, Work, solve_in_stages};
use dual_bound::{Guess, YList, bound, shows_empty};
use limits::{MOST_MULTIPLIER, SIMPLEX_PIVOTS};
use linear_form::{Objective, Ranges, RowList};
use std::alloc::{AllocError, Global};

/// The denominators that are tried.
const DENOMINATORS: [u64; 7] = [1, 2, 3, 4, 6, 8, 12];

/// The greatest numbers to which a row's share in a contradiction is rounded.
const GREATEST_SHARES: [u64; 4] = [1, 1_000, 1_000_000, 4_000_000_000];

/// By which powers of two the price of a row of shift 0 may miss a whole number.
const MISSES: [i32; 2] = [-16, -24];

/// What an optimum may lack to be a whole number: about a thousandth.
const NEARLY: i128 = ONE >> 10;

/// So many times the number by the unit, rounded, within the limit of multipliers.
fn rounded(number: i128, times: u64, unit: i128) -> u64
    ensures { result ≤ MOST_MULTIPLIER }
{
    let product = number.saturating_mul(i128::from(times));
    let quotient = match product.saturating_add(unit >> 1).checked_div_euclid(unit) {
        Some(quotient) => quotient,
        None => 0,
    };
    quotient.clamp(0, i128::from(MOST_MULTIPLIER)) as u64
}

/// A guess by a number for each row, so many times each, by the unit.
fn guess_of(
    alloc: Global,
    numbers: &[i128],
    times: u64,
    unit: i128,
    q: u64,
) -> Result<Guess, AllocError>
    ensures as_many { IfOk result (λ guess. length guess.y ≡ length numbers.now) }
    ensures within { IfOk result (λ guess. All (λ y. y ≤ MOST_MULTIPLIER) guess.y) }
    ensures q { IfOk result (λ guess. guess.q ≡ q) }
{
    let mut y = Vec::new(alloc);
    for number in numbers {
        y.push(rounded(*number, times, unit))?;
    }
    Ok(Guess {
        y: YList::from_vec(y),
        q,
    })
}

/// The price of each row, in the numbers of the rows as they were given: 40 bits after the point.
fn row_prices(program: &Program, basis: &Basis, prices: &[i128], numbers: &mut [i128]) {
    numbers.fill(0);
    for q in 0..basis.count {
        let r = basis.row_at(q);
        let shift = at(program.row_shifts.as_slice(), r, 0).saturating_sub(program.gain_shift);
        put(numbers, r, shifted(at(prices, q, 0).max(0), shift));
    }
}

/// The prices of the rows by these gains.
fn price_rows(
    program: &Program,
    gains: &[i128],
    basis: &Basis,
    work: &mut Work,
    numbers: &mut [i128],
) {
    let prices = work.prices.as_mut_slice();
    if find_prices(gains, basis, prices).is_none() {
        prices.fill(0);
    }
    row_prices(program, basis, prices, numbers);
}

/// The value of the program at the basis by the prices there, as the objective was given, rounded down.
fn optimum(program: &Program, basis: &Basis, work: &mut Work) -> Option<i128> {
    let prices = work.prices.as_slice();
    let weights = work.weights.as_mut_slice();
    find_weights(program, program.gains.as_slice(), basis, prices, weights)?;
    let value = dual_value(program, basis, prices, weights)?;
    let given = shifted(value, 0i32.saturating_sub(program.gain_shift));
    Some(given.saturating_add(NEARLY) >> 40)
}

/// The bits of the greatest number once each is shifted by its row.
fn greatest_bits(numbers: &[i128], shifts: &[i32]) -> i32 {
    let mut greatest = -500;
    for r in 0..numbers.len() {
        if numbers[r] > 0 {
            let bits = bits_of(numbers[r].unsigned_abs());
            greatest = greatest.max(bits.saturating_add(at(shifts, r, 0)));
        }
    }
    greatest
}

/// Gives the rows their shares in the contradiction that the slopes show, in the numbers of the rows as they were
/// given but for one factor.
fn share_rows(
    program: &Program,
    basis: &Basis,
    leaving: Leaving,
    slopes: &[i128],
    numbers: &mut [i128],
) {
    numbers.fill(0);
    for q in 0..basis.count {
        let share = at(slopes, q, 0).saturating_neg().max(0);
        put(numbers, basis.row_at(q), share);
    }
    if let Leaving::Row(r) = leaving {
        put(numbers, r, ONE);
    }
    let shifts = program.row_shifts.as_slice();
    let greatest = greatest_bits(numbers, shifts);
    for r in 0..numbers.len() {
        let shift = at(shifts, r, 0).saturating_sub(greatest).saturating_add(60);
        numbers[r] = shifted(numbers[r], shift);
    }
}

/// A guess that shows that the rows have no point, made of the rows' shares in a contradiction.
fn find_contradiction(
    alloc: Global,
    rows: &RowList,
    ranges: &Ranges,
    numbers: &[i128],
) -> Result<Option<Guess>, AllocError>
    requires system { IsSystem rows.now ranges.now }
    requires numbers { length numbers.now ≡ length rows.now }
    ensures { IfOk result (λ found. IfSome found (λ guess. IsGuess rows.now guess.y guess.q)) }
{
    let unit = greatest_of(numbers).max(1);
    for share in GREATEST_SHARES {
        let guess = guess_of(alloc, numbers, share, unit, 1)?;
        if shows_empty(rows, ranges, &guess) {
            return Ok(Some(guess));
        }
    }
    Ok(None)
}

/// A guess and its bound.
#[derive(Drop)]
struct Best {
    guess: Guess,
    value: i128,
}

/// Tries the guess of a denominator, and keeps it where its bound is less.
fn try_denominator(
    alloc: Global,
    problem: &Problem,
    numbers: &[i128],
    q: u64,
    best: Best,
) -> Result<Best, AllocError>
    requires whole { IsWhole problem.now }
    requires numbers { length numbers.now ≡ length problem.now.rows.now }
    requires some { 1 ≤ q }
    requires most { q ≤ MOST_MULTIPLIER }
    requires best { IsGuess problem.now.rows.now best.guess.y best.guess.q }
    ensures { IfOk result (λ best. IsGuess problem.now.rows.now best.guess.y best.guess.q) }
{
    let guess = guess_of(alloc, numbers, q, ONE, q)?;
    let value = bound(problem.rows, problem.ranges, problem.objective, &guess);
    if value < best.value {
        Ok(Best { guess, value })
    } else {
        Ok(best)
    }
}

/// Tries the small denominators, of those up to the finest one, until the bound is the target.
fn try_small(
    alloc: Global,
    problem: &Problem,
    numbers: &[i128],
    target: i128,
    first: Best,
) -> Result<Best, AllocError>
    requires whole { IsWhole problem.now }
    requires numbers { length numbers.now ≡ length problem.now.rows.now }
    requires first { IsGuess problem.now.rows.now first.guess.y first.guess.q }
    ensures { IfOk result (λ best. IsGuess problem.now.rows.now best.guess.y best.guess.q) }
{
    let finest = finest(numbers);
    let mut best = first;
    for q in DENOMINATORS {
        if best.value <= target || q > finest {
            return Ok(best);
        }
        best = try_denominator(alloc, problem, numbers, q, best)?;
    }
    Ok(best)
}

/// Tries the small denominators, then those that all numbers have in common, then the finest.
fn try_all(
    alloc: Global,
    problem: &Problem,
    numbers: &[i128],
    shifts: &[i32],
    target: i128,
    first: Best,
) -> Result<Best, AllocError>
    requires whole { IsWhole problem.now }
    requires numbers { length numbers.now ≡ length problem.now.rows.now }
    requires first { IsGuess problem.now.rows.now first.guess.y first.guess.q }
    ensures { IfOk result (λ best. IsGuess problem.now.rows.now best.guess.y best.guess.q) }
{
    let finest = finest(numbers);
    let mut best = try_small(alloc, problem, numbers, target, first)?;
    for miss in MISSES {
        if best.value <= target {
            return Ok(best);
        }
        let shared = common(numbers, shifts, miss, finest);
        best = try_denominator(alloc, problem, numbers, shared, best)?;
    }
    try_denominator(alloc, problem, numbers, finest, best)
}

/// No multipliers at all.
fn zeros(alloc: Global, problem: &Problem) -> Result<Best, AllocError>
    requires { IsWhole problem.now }
    ensures { IfOk result (λ best. IsGuess problem.now.rows.now best.guess.y best.guess.q) }
{
    let numbers = vec![in alloc; 0i128; problem.rows.as_slice().len()]?;
    let guess = guess_of(alloc, numbers.as_slice(), 1, ONE, 1)?;
    let value = bound(problem.rows, problem.ranges, problem.objective, &guess);
    Ok(Best { guess, value })
}

/// Rounds the prices of the rows at a basis, and keeps the guess of least bound.
fn round_prices(
    alloc: Global,
    problem: &Problem,
    program: &Program,
    basis: &Basis,
    work: &mut Work,
    numbers: &mut [i128],
) -> Result<Guess, AllocError>
    requires whole { IsWhole problem.now }
    requires numbers { length numbers.old ≡ length problem.now.rows.now }
    ensures { IfOk result (λ guess. IsGuess problem.now.rows.now guess.y guess.q) }
{
    let none = zeros(alloc, problem)?;
    price_rows(program, program.gains.as_slice(), basis, work, numbers);
    let target = optimum(program, basis, work).unwrap_or(i128::MIN);
    let shifts = program.row_shifts.as_slice();
    let best = try_all(alloc, problem, numbers, shifts, target, none)?;
    price_rows(
        program,
        program.moved_gains.as_slice(),
        basis,
        work,
        numbers,
    );
    let best = try_all(alloc, problem, numbers, shifts, target, best)?;
    let Best { guess, value: _ } = best;
    Ok(guess)
}

/// A multiplier for each row, from the linear program over the rows and ranges. Where it has no point, the guess
/// is meant to show that.
pub fn multipliers(
    alloc: Global,
    rows: &RowList,
    ranges: &Ranges,
    objective: &Objective,
) -> Result<Guess, AllocError>
    requires system { IsSystem rows.now ranges.now }
    requires objective { IsObjective ranges.now objective.now }
    requires columns { count_of ranges.now.extent ≤ SIMPLEX_COLUMNS }
    ensures { IfOk result (λ guess. IsGuess rows.now guess.y guess.q) }
{
    let course = Course {
        stages: &[rows.as_slice().len()],
        pivots: SIMPLEX_PIVOTS,
        enough: None,
    };
    multipliers_by(alloc, rows, ranges, objective, &course)
}

/// The same by a course of stages: what it has come to in the end serves.
pub fn multipliers_by(
    alloc: Global,
    rows: &RowList,
    ranges: &Ranges,
    objective: &Objective,
    course: &Course<'_>,
) -> Result<Guess, AllocError>
    requires system { IsSystem rows.now ranges.now }
    requires objective { IsObjective ranges.now objective.now }
    requires columns { count_of ranges.now.extent ≤ SIMPLEX_COLUMNS }
    ensures { IfOk result (λ guess. IsGuess rows.now guess.y guess.q) }
{
    let program = program_of(alloc, rows, ranges, objective)?;
    let mut basis = Basis::new(alloc, &program, course.pivots)?;
    let mut work = Work::new(alloc, &program, course.pivots)?;
    let mut numbers = vec![in alloc; 0i128; rows.as_slice().len()]?;
    let stopped = solve_in_stages(&program, &mut basis, &mut work, course);
    let numbers = numbers.as_mut_slice();
    if let Stopped::Empty(leaving) = stopped {
        share_rows(&program, &basis, leaving, work.slopes.as_slice(), numbers);
        if let Some(guess) = find_contradiction(alloc, rows, ranges, numbers)? {
            return Ok(guess);
        }
    }
    let problem = Problem {
        rows,
        ranges,
        objective,
    };
    round_prices(alloc, &problem, &program, &basis, &mut work, numbers)
}
