// Cells of the base cuboid, and lists of them.

ghost use Rattle.std.specs.Prelude.{◌≡◌, ◌≤◌, ◌++◌, ◌<◌, ◌^◌, length, OnOk, Some, None, if◌then◌else◌};
ghost use Rattle.byte_frame.specs.Outcomes.{Gives};
ghost use Rattle.measure_laws.specs.Measures.{IsSum};
ghost use Rattle.fixed_cube.specs.CellTests.{AreCells, counts_fit, is_cell_sum};
ghost use Rattle.fixed_cube.specs.Cells.{cell_below};
ghost use Rattle.fixed_cube.specs.Reading.{cell_at, cells_at};
ghost use Rattle.fixed_cube.specs.Spelling.{cell_text, cells_text};

use crate::columns::{KEY_COLUMNS, ROW_LIMIT};
use byte_frame::{
    Below, FieldReader, ReadError, Reads, put_i128, put_u32, put_u64, read_list, rise,
};
use cube_val::Row;
use measure_laws::Sum;
use std::alloc::{AllocError, Global};
use std::cmp::Ordering;
use std::marker::Model;
use step_fields::{RowOf, put_row};

/// A cell of the base cuboid: D1 and D2, and the sum of M over their rows with how many these are.
#[derive(Debug, Drop)]
pub struct FixedCell {
    key: Row,
    sum: Sum,
}

impl Model for FixedCell {
    ghost use Rattle.std.specs.Prelude.{List};
    ghost use Rattle.cube_val.specs.declared.val.Val.{Val};
    ghost use Rattle.measure_laws.specs.Measures.{Summed};

    ghost Value = { List Val × Summed };

    ghost view = { λ c. (c.key, c.sum) };
}

impl FixedCell {
    /// The cell of a key and a sum.
    pub fn of(key: Row, sum: Sum) -> FixedCell
        ensures { result ≡ (key, sum) }
    {
        FixedCell { key, sum }
    }

    /// D1 and D2.
    pub fn key(&self) -> &Row
        ensures { result.now ≡ self.now.0 }
    {
        &self.key
    }

    /// The sum of M, with the number of rows.
    pub fn sum(&self) -> &Sum
        ensures { result.now ≡ self.now.1 }
    {
        &self.sum
    }
}

impl Below for FixedCell {
    ghost use Rattle.fixed_cube.specs.Cells.{cell_below};

    ghost below = { cell_below };

    fn below(&self, other: &FixedCell) -> bool {
        match self.key.cmp(&other.key) {
            Ordering::Less => true,
            Ordering::Equal => false,
            Ordering::Greater => false,
        }
    }
}

/// The cells of a base cuboid: their keys rise, and they count at most 200,000 rows. Contracts see the list of the
/// cells.
#[derive(Debug, Drop)]
pub struct FixedCells {
    cells: Vec<FixedCell>,
}

impl Model for FixedCells {
    ghost use Rattle.std.specs.Prelude.{List};
    ghost use Rattle.cube_val.specs.declared.val.Val.{Val};
    ghost use Rattle.measure_laws.specs.Measures.{Summed};
    ghost use Rattle.fixed_cube.specs.CellTests.{AreCells};

    ghost Value = { List (List Val × Summed) };

    ghost view = { λ c. c.cells.items };

    ghost invariant = { λ c. AreCells c.cells.items };
}

impl FixedCells {
    // The list of these cells.
    pub(crate) fn of(cells: Vec<FixedCell>) -> FixedCells
        requires { AreCells cells.items }
        ensures { result ≡ cells.items }
    {
        FixedCells { cells }
    }

    /// The cells in order.
    pub fn as_slice(&self) -> &[FixedCell]
        ensures cells { result.now ≡ self.now }
        ensures kept { AreCells self.now }
    {
        self.cells.as_slice()
    }
}

// The sum of a cell with this count, where a cell can have it.
fn cell_sum(items: u64, total: i128) -> Option<Sum>
    ensures { result ≡ (if is_cell_sum (record { items = items; total = total }) then Some (record { items = items; total = total }) else None) }
{
    if items < 1 || items > ROW_LIMIT as u64 {
        return None;
    }
    let most = i128::from(items) * 9_223_372_036_854_775_808;
    if total < -most || total > most {
        return None;
    }
    Some(Sum::of(items, total))
}

// The form of a cell.
#[derive(Drop)]
struct CellForm;

impl Reads<FixedCell> for CellForm {
    ghost use Rattle.fixed_cube.specs.Reading.{cell_at};

    ghost at = { λ _. cell_at };

    fn read(&self, alloc: Global, r: &mut FieldReader) -> Result<FixedCell, ReadError> {
        let form = RowOf {
            columns: &KEY_COLUMNS,
        };
        let key = match form.read(alloc, r) {
            Ok(key) => key,
            Err(e) => return Err(e),
        };
        let Some(items) = r.take_u64() else {
            return Err(ReadError::Malformed);
        };
        let Some(total) = r.take_i128() else {
            return Err(ReadError::Malformed);
        };
        match cell_sum(items, total) {
            Some(sum) => Ok(FixedCell::of(key, sum)),
            None => Err(ReadError::Malformed),
        }
    }
}

// Whether each count is at least 1, and together they are at most so many.
fn are_counts(cells: &[FixedCell], most: u64) -> bool
    ensures { result ≡ counts_fit most cells.now }
{
    let mut left = most;
    for cell in cells {
        let count = cell.sum.items();
        if count < 1 || count > left {
            return false;
        }
        left -= count;
    }
    true
}

/// A list of cells. It is malformed where keys don't rise, where a count is 0, and where the counts add up to more than
/// 200,000 or a sum is greater than so many numbers can bring it.
pub fn read_cells(alloc: Global, r: &mut FieldReader) -> Result<FixedCells, ReadError>
    ensures { Gives (λ cells. (cells, r.new)) result (cells_at r.old) }
{
    let cells: Vec<FixedCell> = match read_list(alloc, &CellForm, ROW_LIMIT, r) {
        Ok(cells) => cells,
        Err(e) => return Err(e),
    };
    if !are_counts(&cells, ROW_LIMIT as u64) {
        return Err(ReadError::Malformed);
    }
    if !rise(&cells) {
        return Err(ReadError::Malformed);
    }
    Ok(FixedCells::of(cells))
}

// Puts a cell.
fn put_cell(out: &mut Vec<u8>, cell: &FixedCell) -> Result<(), AllocError>
    ensures { OnOk result (out.new.items ≡ out.old.items ++ cell_text cell.now) }
{
    put_row(out, cell.key())?;
    let sum = cell.sum();
    put_u64(out, sum.items())?;
    put_i128(out, sum.value())
}

/// Puts a list of cells.
pub fn put_cells(out: &mut Vec<u8>, cells: &FixedCells) -> Result<(), AllocError>
    ensures { OnOk result (out.new.items ≡ out.old.items ++ cells_text cells.now) }
{
    let cells = cells.as_slice();
    put_u32(out, cells.len() as u32)?;
    for cell in cells {
        put_cell(out, cell)?;
    }
    Ok(())
}
