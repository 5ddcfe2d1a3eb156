use linear_form::{Ranges, Row, RowTerm};

/// Rows, the ranges of their columns, and an objective over these, which are weighed together.
#[derive(Drop)]
pub(crate) struct System<'a> {
    pub rows: &'a [Row],
    pub ranges: &'a Ranges,
    pub objective: &'a [RowTerm],
}
