use crate::fixed::{at, put};
use std::alloc::{AllocError, Global};

/// The greatest width of a matrix.
const WIDEST: usize = 512;

/// As many rows as columns. Outside there is 0.
#[derive(Drop)]
pub(crate) struct Matrix {
    width: usize,
    cells: Vec<i128>,
}

impl Matrix {
    /// All 0.
    pub fn new(alloc: Global, width: usize) -> Result<Matrix, AllocError> {
        let width = width.min(WIDEST);
        Ok(Matrix {
            width,
            cells: vec![in alloc; 0i128; width * width]?,
        })
    }

    /// Row `p`, which is empty where there is none.
    pub fn row(&self, p: usize) -> &[i128] {
        let cells = self.cells.as_slice();
        let from = p.saturating_mul(self.width).min(cells.len());
        let to = from.saturating_add(self.width).min(cells.len());
        &cells[from..to]
    }

    /// Row `p` for writing.
    pub fn row_mut(&mut self, p: usize) -> &mut [i128] {
        let width = self.width;
        let cells = self.cells.as_mut_slice();
        let from = p.saturating_mul(width).min(cells.len());
        let to = from.saturating_add(width).min(cells.len());
        &mut cells[from..to]
    }

    pub fn get(&self, p: usize, q: usize) -> i128 {
        at(self.row(p), q, 0)
    }

    pub fn set(&mut self, p: usize, q: usize, number: i128) {
        put(self.row_mut(p), q, number);
    }
}
