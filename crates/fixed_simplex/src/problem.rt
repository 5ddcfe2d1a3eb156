use linear_form::{Objective, Ranges, RowList};

/// Rows, the ranges of their columns, and an objective over these, whose multipliers are looked for.
#[derive(Drop)]
pub(crate) struct Problem<'a> {
    pub rows: &'a RowList,
    pub ranges: &'a Ranges,
    pub objective: &'a Objective,
}
