//! Rows under their names, no more of them than a leaf may name.

ghost use Rattle.std.specs.Prelude.{◌≡◌, ◌<◌, ◌≤◌, ◌↔◌, ℕ, [], ◌∷◌, ◌++◌, length, IfOk, IfSome, IsTrue, OnOk};
ghost use Rattle.limits.specs.declared.TheConstants.{MOST_ROWS};
ghost use Rattle.named_rows.specs.NamedRows.{IsNamed};
ghost use Rattle.plant_model.specs.declared.parts.Parts.{Parts};
ghost use Rattle.row_forms.specs.Fits.{IsFitRow};

use item_lists::Items;
use limits::MOST_ROWS;
use linear_form::{Row, RowList};
use slot_box::RowName;
use std::alloc::{AllocError, Global};

/// Rows, and the name of each.
#[derive(Debug, Drop)]
pub struct RowBlock {
    pub names: Items<RowName>,
    pub rows: RowList,
}

/// A row with the same terms and the same right side.
pub(crate) fn copy_row(alloc: Global, row: &Row) -> Result<Row, AllocError>
    ensures { IfOk result (λ copy. copy ≡ row.now) }
{
    Row::new(alloc, row.terms(), row.right())
}

impl RowBlock {
    ghost use Rattle.search_node.specs.Tables.{IsBlockOf};

    /// A block without rows.
    pub(crate) fn new(alloc: Global) -> RowBlock
        ensures names { result.names ≡ [] }
        ensures rows { result.rows ≡ [] }
    {
        RowBlock {
            names: Items::new(alloc),
            rows: RowList::new(alloc),
        }
    }

    /// Whether there is no room for another row.
    pub(crate) fn is_full(&self) -> bool
        ensures { IsTrue result ↔ (MOST_ROWS ≤ length self.now.names) }
    {
        self.names.as_slice().len() >= MOST_ROWS as usize
    }

    /// Adds a row under its name.
    pub(crate) fn push(&mut self, name: RowName, row: Row) -> Result<(), AllocError>
        requires { length self.old.names < MOST_ROWS }
        ensures names { OnOk result (self.new.names ≡ self.old.names ++ name ∷ []) }
        ensures rows { OnOk result (self.new.rows ≡ self.old.rows ++ row ∷ []) }
        ensures block { (parts : Parts) (n : ℕ) → IsBlockOf parts n self.old → IsNamed parts n name row
            → IsFitRow parts n row → OnOk result (IsBlockOf parts n self.new) }
    {
        self.names.push(name).map_err(|_| AllocError)?;
        self.rows.push(row).map_err(|_| AllocError)?;
        Ok(())
    }

    /// The row of a name, where the block has it.
    pub(crate) fn find(&self, name: RowName) -> Option<&Row>
        ensures { (parts : Parts) (n : ℕ) → IsBlockOf parts n self.now → IfSome result (λ row.
            IsNamed parts n name row.now × IsFitRow parts n row.now) }
    {
        let place = self
            .names
            .as_slice()
            .iter()
            .position(|other| *other == name)?;
        self.rows.as_slice().get(place)
    }
}
