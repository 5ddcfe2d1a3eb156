ghost use Rattle.std.specs.Prelude.{◌≡◌, IfOk};

use crate::Column;
use item_lists::Items;
use std::alloc::{AllocError, Global};
use std::marker::Model;

/// A column taken with a factor.
#[derive(Clone, Copy, Debug, PartialEq, Eq)]
pub struct RowTerm {
    pub column: Column,
    pub factor: i64,
}

/// The terms of a sum.
pub type RowTerms = Items<RowTerm>;

/// A sum of columns that is to be made great.
pub type Objective = Items<RowTerm>;

/// Says that the sum of its terms is at most `right`. No column stands twice among the terms.
#[derive(Debug, Drop)]
pub struct Row {
    terms: RowTerms,
    right: i64,
}

/// Rows that are to hold together.
pub type RowList = Items<Row>;

impl Model for Row {
    ghost use Rattle.linear_form.specs.Rows.{RowForm, HasEachOnce};

    ghost Value = { RowForm };

    ghost view = { λ row. record { terms = row.terms; right = row.right } };

    ghost invariant = { λ row. HasEachOnce row.terms };
}

impl Row {
    ghost use Rattle.linear_form.specs.Rows.{RowForm, HasEachOnce};

    /// The row with a copy of these terms.
    pub fn new(alloc: Global, terms: &[RowTerm], right: i64) -> Result<Row, AllocError>
        requires { HasEachOnce terms.now }
        ensures { IfOk result (λ row. row ≡ record { terms = terms.now; right = right }) }
    {
        let terms = Items::from_vec(Vec::from_slice(alloc, terms)?);
        Ok(Row { terms, right })
    }

    /// The terms, in their order.
    pub fn terms(&self) -> &[RowTerm]
        ensures value { result.now ≡ self.now.terms }
        ensures once { HasEachOnce self.now.terms }
    {
        self.terms.as_slice()
    }

    /// What the sum of the terms is at most.
    pub fn right(&self) -> i64
        ensures value { result ≡ self.now.right }
        ensures once { HasEachOnce self.now.terms }
    {
        self.right
    }
}
