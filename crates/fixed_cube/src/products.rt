// Products.

use crate::cells::FixedCells;
use cube_val::Table;

/// A product of a task.
#[derive(Debug, Drop)]
pub enum FixedProduct {
    /// Joined rows, of the flat step.
    Rows(Table),
    /// Cells, of the base and of the seal step.
    Cells(FixedCells),
}

/// Why bytes gave no product.
#[derive(Clone, Copy, Debug, PartialEq, Eq)]
pub enum ProductFault {
    /// They are no product of the task.
    Damaged,
    /// Memory was refused. Nothing is said of the bytes.
    Memory,
}
