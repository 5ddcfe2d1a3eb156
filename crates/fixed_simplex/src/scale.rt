ghost use Rattle.std.specs.Prelude.{All};
ghost use Rattle.dual_bound.specs.Conditions.{AreColumns};

use crate::fixed::{FRACTION, at, bits_of, put, shifted};
use linear_form::{Interval, Objective, Part, Ranges, Row, RowList, RowTerm};
use std::alloc::{AllocError, Global};

/// How many bits the greatest end of a group of columns has once it is scaled.
const END_BITS: i32 = 22;

/// How many bits the greatest factor of the objective has once it is scaled.
const GAIN_BITS: i32 = 12;

/// A column with its factor in a row.
#[derive(Clone, Copy)]
pub(crate) struct Entry {
    pub column: usize,
    group: usize,
    pub factor: i128,
}

/// Rows, ranges and an objective in scaled numbers. A scaled row is the row by two to the power of its shift, and so
/// are a scaled column and the objective.
#[derive(Drop)]
pub(crate) struct Program {
    starts: Vec<usize>,
    entries: Vec<Entry>,
    pub rights: Vec<i128>,
    pub row_shifts: Vec<i32>,
    /// The objective.
    pub gains: Vec<i128>,
    /// The objective, each factor a little greater, no two by the same amount.
    pub moved_gains: Vec<i128>,
    pub gain_shift: i32,
    /// What the columns earn that have one number alone. They stand in no row.
    pub fixed_gain: i128,
    pub least: Vec<i128>,
    pub most: Vec<i128>,
    /// The other columns.
    pub free: Vec<usize>,
}

impl Program {
    pub fn row_count(&self) -> usize {
        self.rights.len()
    }

    pub fn column_count(&self) -> usize {
        self.gains.len()
    }

    /// The entries of row `r`, none where there is no such row.
    pub fn row(&self, r: usize) -> &[Entry] {
        let entries = self.entries.as_slice();
        let to = at(self.starts.as_slice(), r.saturating_add(1), 0).min(entries.len());
        let from = at(self.starts.as_slice(), r, 0).min(to);
        &entries[from..to]
    }
}

/// The group of columns that are scaled alike: choices, amounts, minutes.
fn group_of(part: Part) -> usize {
    match part {
        Part::Z => 0,
        Part::A(_) => 1,
        Part::S | Part::E | Part::W => 2,
    }
}

/// Copies the terms whose columns have more than one number, and gives what the others come to.
fn copy_terms(
    entries: &mut Vec<Entry>,
    terms: &[RowTerm],
    ranges: &Ranges,
) -> Result<i128, AllocError>
    requires { AreColumns ranges.now.extent terms.now }
{
    let ends = ranges.ends();
    let mut fixed: i128 = 0;
    for term in terms {
        let column = ranges.number(term.column);
        let Interval { lo, hi } = ends[column];
        let factor = i128::from(term.factor);
        if lo < hi {
            entries.push(Entry {
                column,
                group: group_of(term.column.part),
                factor,
            })?;
        } else {
            fixed = fixed.saturating_add(factor.saturating_mul(i128::from(lo)));
        }
    }
    Ok(fixed)
}

/// Copies the rows: where the entries of each begin and the last ends, and what each has for its entries.
fn copy_rows(
    entries: &mut Vec<Entry>,
    starts: &mut Vec<usize>,
    rights: &mut Vec<i128>,
    rows: &[Row],
    ranges: &Ranges,
) -> Result<(), AllocError>
    requires { All (λ row. AreColumns ranges.now.extent row.terms) rows.now }
{
    starts.push(0)?;
    for r in 0..rows.len() {
        let fixed = copy_terms(entries, rows[r].terms(), ranges)?;
        starts.push(entries.len())?;
        rights.push(i128::from(rows[r].right()).saturating_sub(fixed))?;
    }
    Ok(())
}

/// The columns that have more than one number.
fn free_columns(alloc: Global, ends: &[Interval]) -> Result<Vec<usize>, AllocError> {
    let mut free = Vec::new(alloc);
    for j in 0..ends.len() {
        if ends[j].lo < ends[j].hi {
            free.push(j)?;
        }
    }
    Ok(free)
}

/// The greatest absolute end of each group.
fn find_reaches(entries: &[Entry], ends: &[Interval], reaches: &mut [u128]) {
    let none = Interval { lo: 0, hi: 0 };
    for entry in entries {
        let range = at(ends, entry.column, none);
        let reach = range.lo.unsigned_abs().max(range.hi.unsigned_abs());
        let before = at(reaches, entry.group, 0);
        put(reaches, entry.group, before.max(u128::from(reach)));
    }
}

/// Gives each column the shift of its group.
fn shift_columns(entries: &[Entry], reaches: &[u128], shifts: &mut [i32]) {
    for entry in entries {
        let bits = bits_of(at(reaches, entry.group, 0));
        put(shifts, entry.column, END_BITS.saturating_sub(bits));
    }
}

/// The bits that the greatest factor has once the columns are scaled.
fn greatest_bits(entries: &[Entry], shifts: &[i32]) -> i32 {
    let mut greatest = -200;
    for entry in entries {
        let bits = bits_of(entry.factor.unsigned_abs());
        if bits > 0 {
            greatest = greatest.max(bits.saturating_sub(at(shifts, entry.column, 0)));
        }
    }
    greatest
}

/// Scales the factors of a row.
fn scale_row(entries: &mut [Entry], shifts: &[i32], row_shift: i32) {
    for k in 0..entries.len() {
        let shift = row_shift.saturating_sub(at(shifts, entries[k].column, 0));
        entries[k].factor = shifted(entries[k].factor, shift.saturating_add(FRACTION));
    }
}

/// Scales the rows: the greatest factor of each comes to a half or more, and less than 1.
fn scale_rows(entries: &mut [Entry], starts: &[usize], shifts: &[i32], row_shifts: &mut [i32]) {
    for r in 0..row_shifts.len() {
        let to = at(starts, r + 1, 0).min(entries.len());
        let from = at(starts, r, 0).min(to);
        let row = &mut entries[from..to];
        let row_shift = 0i32.saturating_sub(greatest_bits(row, shifts));
        scale_row(row, shifts, row_shift);
        row_shifts[r] = row_shift;
    }
}

/// Scales the right sides.
fn scale_rights(row_shifts: &[i32], rights: &mut [i128]) {
    for r in 0..rights.len() {
        let shift = FRACTION.saturating_add(at(row_shifts, r, 0));
        rights[r] = shifted(rights[r], shift);
    }
}

/// The ends of the ranges, scaled.
fn scale_ends(ends: &[Interval], shifts: &[i32], least: &mut [i128], most: &mut [i128]) {
    for j in 0..ends.len() {
        let shift = FRACTION.saturating_add(at(shifts, j, 0));
        put(least, j, shifted(i128::from(ends[j].lo), shift));
        put(most, j, shifted(i128::from(ends[j].hi), shift));
    }
}

/// The objective, scaled, and by how much.
fn scale_gains(entries: &[Entry], shifts: &[i32], gains: &mut [i128]) -> i32 {
    let gain_shift = GAIN_BITS.saturating_sub(greatest_bits(entries, shifts));
    for entry in entries {
        let shift = gain_shift.saturating_sub(at(shifts, entry.column, 0));
        put(
            gains,
            entry.column,
            shifted(entry.factor, shift.saturating_add(FRACTION)),
        );
    }
    gain_shift
}

/// Moves each gain by an amount of its own, those of nothing by a tenth as much.
fn move_gains(gains: &mut [i128]) {
    let mut chance: u64 = 7;
    for gain in gains.iter_mut() {
        chance = chance
            .wrapping_mul(6_364_136_223_846_793_005)
            .wrapping_add(1_442_695_040_888_963_407);
        let amount = i128::from((chance >> 33) % 1000 + 1) << 25;
        let more = if *gain == 0 { amount / 10 } else { amount };
        *gain = gain.saturating_add(more);
    }
}

/// Scales what is given.
pub(crate) fn program_of(
    alloc: Global,
    rows: &RowList,
    ranges: &Ranges,
    objective: &Objective,
) -> Result<Program, AllocError>
    requires rows { All (λ row. AreColumns ranges.now.extent row.terms) rows.now }
    requires objective { AreColumns ranges.now.extent objective.now }
{
    let rows = rows.as_slice();
    let ends = ranges.ends();
    let mut entries = Vec::new(alloc);
    let mut starts = Vec::new(alloc);
    let mut rights = Vec::new(alloc);
    copy_rows(&mut entries, &mut starts, &mut rights, rows, ranges)?;
    let mut goal = Vec::new(alloc);
    let fixed = copy_terms(&mut goal, objective.as_slice(), ranges)?;
    let mut reaches = [0u128; 3];
    find_reaches(entries.as_slice(), ends, &mut reaches);
    find_reaches(goal.as_slice(), ends, &mut reaches);
    let mut shifts = vec![in alloc; 0i32; ends.len()]?;
    shift_columns(entries.as_slice(), &reaches, shifts.as_mut_slice());
    shift_columns(goal.as_slice(), &reaches, shifts.as_mut_slice());
    let mut row_shifts = vec![in alloc; 0i32; rows.len()]?;
    scale_rows(
        entries.as_mut_slice(),
        starts.as_slice(),
        shifts.as_slice(),
        row_shifts.as_mut_slice(),
    );
    scale_rights(row_shifts.as_slice(), rights.as_mut_slice());
    let mut least = vec![in alloc; 0i128; ends.len()]?;
    let mut most = vec![in alloc; 0i128; ends.len()]?;
    scale_ends(
        ends,
        shifts.as_slice(),
        least.as_mut_slice(),
        most.as_mut_slice(),
    );
    let mut gains = vec![in alloc; 0i128; ends.len()]?;
    let gain_shift = scale_gains(goal.as_slice(), shifts.as_slice(), gains.as_mut_slice());
    let mut moved_gains = Vec::from_slice(alloc, gains.as_slice())?;
    move_gains(moved_gains.as_mut_slice());
    Ok(Program {
        starts,
        entries,
        rights,
        row_shifts,
        gains,
        moved_gains,
        gain_shift,
        fixed_gain: shifted(fixed, gain_shift.saturating_add(FRACTION)),
        least,
        most,
        free: free_columns(alloc, ends)?,
    })
}
