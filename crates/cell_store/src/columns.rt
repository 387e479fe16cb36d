// The columns of a table: for each dimension the numbers of all rows, and the cells of all rows one after another.

ghost use Rattle.std.specs.Prelude.{◌≡◌, ◌<◌, ◌+◌, ◌*◌, ◌≤◌, [], All, IfOk, OnOk, length, replicate, slice_index, vec_len};
ghost use Rattle.cell_store.specs.Columns.{HasRoom, cells_at, key_at, lists_of, with_key};

use crate::cell::Cell;
use std::alloc::{AllocError, Global};

/// So many columns, none of which has a number.
pub(crate) fn no_columns(alloc: Global, count: u32) -> Result<Vec<Vec<u32>>, AllocError>
    ensures { IfOk result (λ columns. lists_of columns.items ≡ replicate count []) }
{
    let mut columns = Vec::with_capacity(alloc, count as usize)?;
    for _ in 0..count {
        columns.push(Vec::new(alloc))?;
    }
    Ok(columns)
}

/// Makes room for one more number in each column.
pub(crate) fn reserve_each(columns: &mut [Vec<u32>]) -> Result<(), AllocError>
    ensures same { lists_of columns.new ≡ lists_of columns.old }
    ensures room { OnOk result (All HasRoom columns.new) }
{
    for column in columns.iter_mut() {
        column.reserve(1)?;
    }
    Ok(())
}

/// Puts the numbers of a key behind the columns, which have room.
pub(crate) fn put_key(columns: &mut [Vec<u32>], key: &[u32])
    requires width { length key.now ≡ length columns.old }
    requires room { All HasRoom columns.old }
    ensures { lists_of columns.new ≡ with_key (lists_of columns.old) key.now }
{
    for (d, column) in columns.iter_mut().enumerate() {
        column.push(key[d]).unwrap();
    }
}

/// Writes the numbers of the row at a place into a key.
pub(crate) fn read_key(columns: &[Vec<u32>], place: usize, key: &mut [u32])
    requires width { length key.old ≡ length columns.now }
    requires in_range { All (λ column. place < vec_len column) columns.now }
    ensures { key.new ≡ key_at (lists_of columns.now) place }
{
    for (d, id) in key.iter_mut().enumerate() {
        *id = id_at(&columns[d], place);
    }
}

/// The number of the row at a place in a column.
pub(crate) fn id_at(column: &Vec<u32>, place: usize) -> u32
    requires { place < vec_len column.now }
    ensures { result ≡ slice_index column.now.items place }
{
    column[place]
}

/// The cells of the row at a place, where each row has so many.
pub(crate) fn cells_at(cells: &[Cell], width: usize, place: usize) -> &[Cell]
    requires { place * width + width ≤ length cells.now }
    ensures { result.now ≡ cells_at width cells.now place }
{
    let start = place * width;
    &cells[start..start + width]
}
