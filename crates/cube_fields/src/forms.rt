// What a cell table is read by.

use cube_val::Items;
use measure_laws::MeasureForm;

/// A cell behind the count of rows.
#[derive(Clone, Copy)]
pub struct CellField {
    /// The form of measure. A second count of rows is none.
    pub form: MeasureForm,
    /// The size of the measure's dictionary; 0 for a measure without one.
    pub size: u32,
}

/// Two cells of a row, by their places: the least and the greatest value of one column.
#[derive(Clone, Copy)]
pub struct Extremes {
    /// The place of the least value.
    pub least: usize,
    /// The place of the greatest value.
    pub greatest: usize,
}

/// What the cell tables of a cube have in common.
#[derive(Drop)]
pub struct CellTableForm {
    /// For each dimension the size of its dictionary.
    pub sizes: Items<u32>,
    /// The cells behind the count.
    pub cells: Items<CellField>,
    /// The least values that may not be greater than a greatest one.
    pub extremes: Items<Extremes>,
    /// The most rows that a table counts.
    pub most: u32,
}
