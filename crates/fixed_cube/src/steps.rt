// The steps themselves.

ghost use Rattle.std.specs.Prelude.{◌≡◌, ◌≤◌, ◌+◌, ◌^◌, IfOk, OnOk, length, map, [], ◌∷◌};
ghost use Rattle.std.specs.BTreeMap.{IsOrdered, get};
ghost use Rattle.std.specs.Option.{ForSome};
ghost use Rattle.aggregation.specs.Cells.{Adds};
ghost use Rattle.cube_val.specs.Order.{number_of, row_cmp};
ghost use Rattle.measure_laws.specs.Measures.{merged_sum, most_items, summed};
ghost use Rattle.plain_answer.specs.Aggregates.{cell};
ghost use Rattle.step_fields.specs.Fits.{FitsRows};
ghost use Rattle.step_fields.specs.Spelling.{rows_text};
ghost use Rattle.fixed_cube.specs.Cells.{base_of};
ghost use Rattle.fixed_cube.specs.Columns.{fact_columns, joined_columns, row_limit};
ghost use Rattle.fixed_cube.specs.Spelling.{cells_text};
ghost use Rattle.fixed_cube.specs.Rows.{day_in, has_day, item_of_row, joined, joined_row, key_of_row, lies_in};
ghost use Rattle.fixed_cube.specs.Tasks.{FitsTask, made_of};

use crate::cells::{FixedCell, FixedCells, put_cells};
use crate::task::{FixedTask, FlatWork};
use calendar::Day;
use cube_val::{Row, Table, Val};
use measure_laws::{Measure, Sum};
use range_list::Range;
use std::alloc::{AllocError, Global};
use std::collections::BTreeMap;
use step_fields::put_rows;

// A copy of a row's value in a column.
pub(crate) fn copy_cell(row: &Row, column: usize) -> Result<Val, AllocError>
    ensures { IfOk result (λ v. v ≡ cell row.now column) }
{
    match row.vals().get(column) {
        Some(v) => v.copy(),
        None => Ok(Val::Null),
    }
}

// The day that a value is the text of.
fn day_in(v: &Val) -> Option<Day>
    ensures { result ≡ day_in v.now }
{
    match v {
        Val::Text(text) => Day::read(text.bytes()),
        Val::Int(_) => None,
        Val::Null => None,
    }
}

// Whether there is a day and it lies in the range.
fn has_day(range: &Range, day: Option<Day>) -> bool
    ensures { result ≡ has_day range.now day }
{
    match day {
        Some(day) => range.start() <= day && day < range.end(),
        None => false,
    }
}

// Whether the row's DT lies in the range.
fn lies_in(range: &Range, row: &Row) -> bool
    ensures { result ≡ lies_in range.now row.now }
{
    match row.vals().first() {
        Some(v) => has_day(range, day_in(v)),
        None => false,
    }
}

// D1, D2 and M of a row of F.
fn joined_row(alloc: Global, row: &Row) -> Result<Row, AllocError>
    ensures { IfOk result (λ joined. joined ≡ joined_row row.now) }
{
    let mut joined = Row::new(alloc);
    joined.push(copy_cell(row, 1)?)?;
    joined.push(copy_cell(row, 2)?)?;
    joined.push(copy_cell(row, 3)?)?;
    Ok(joined)
}

// The joined rows of a range.
fn joined(alloc: Global, range: &Range, rows: &[Row]) -> Result<Vec<Row>, AllocError>
    ensures { IfOk result (λ found. found.items ≡ joined range.now rows.now) }
{
    let mut found = Vec::new(alloc);
    for row in rows {
        if lies_in(range, row) {
            let row = joined_row(alloc, row)?;
            found.push(row)?;
        }
    }
    Ok(found)
}

// D1 and D2 of a joined row.
fn key_of(alloc: Global, row: &Row) -> Result<Row, AllocError>
    ensures { IfOk result (λ key. key ≡ key_of_row row.now) }
{
    let mut key = Row::new(alloc);
    key.push(copy_cell(row, 0)?)?;
    key.push(copy_cell(row, 1)?)?;
    Ok(key)
}

// M of a joined row.
fn item_of(row: &Row) -> i64
    ensures { result ≡ item_of_row row.now }
{
    match row.vals().get(2) {
        Some(Val::Int(n)) => *n,
        Some(Val::Null) => 0,
        Some(Val::Text(_)) => 0,
        None => 0,
    }
}

// Adds a sum to the cell of a key.
pub(crate) fn add(cells: &mut BTreeMap<Row, Sum>, key: Row, part: Sum) -> Result<(), AllocError>
    requires { ForSome (get row_cmp cells.old key) (λ cell. cell.items + part.items ≤ most_items) }
    ensures adds { OnOk result (Adds row_cmp merged_sum cells.old cells.new key part) }
    ensures ordered { IsOrdered row_cmp cells.new }
{
    if let Some(cell) = cells.get_mut(&key) {
        return cell.merge(&part);
    }
    cells.insert(key, part)?;
    Ok(())
}

// The sum of one item.
fn sum_of_one(alloc: Global, item: i64) -> Result<Sum, AllocError>
    ensures { IfOk result (λ sum. sum ≡ summed (item ∷ [])) }
{
    let mut sum = Sum::zero(alloc);
    sum.add(item)?;
    Ok(sum)
}

// The cells of the base cuboid, by their keys.
fn base_map(alloc: Global, rows: &[Row]) -> Result<BTreeMap<Row, Sum>, AllocError>
    requires { length rows.now ≤ most_items }
    ensures { IfOk result (λ cells. cells.entries ≡ base_of rows.now) }
{
    let mut cells = BTreeMap::new(alloc);
    for row in rows {
        let key = key_of(alloc, row)?;
        let one = sum_of_one(alloc, item_of(row))?;
        add(&mut cells, key, one)?;
    }
    Ok(cells)
}

// The cells in a list.
pub(crate) fn list_of(
    alloc: Global,
    cells: BTreeMap<Row, Sum>,
) -> Result<Vec<FixedCell>, AllocError>
    ensures { IfOk result (λ list. list.items ≡ cells.entries) }
{
    let mut list = Vec::new(alloc);
    for (key, sum) in cells {
        list.push(FixedCell::of(key, sum))?;
    }
    Ok(list)
}

/// The base cuboid of joined rows.
pub fn base(alloc: Global, rows: &[Row]) -> Result<FixedCells, AllocError>
    requires { FitsRows joined_columns row_limit rows.now }
    ensures { IfOk result (λ cells. cells ≡ base_of rows.now) }
{
    let cells = base_map(alloc, rows)?;
    let cells = list_of(alloc, cells)?;
    Ok(FixedCells::of(cells))
}

// The product of a flat task.
fn flat_product(alloc: Global, work: &FlatWork) -> Result<Vec<u8>, AllocError>
    requires { FitsRows fact_columns row_limit work.now.1 }
    ensures { IfOk result (λ product. product.items ≡ rows_text (joined work.now.0 work.now.1)) }
{
    let range = work.range();
    let table = work.rows();
    let found = joined(alloc, range, table.rows())?;
    let mut out = Vec::new(alloc);
    put_rows(&mut out, &found)?;
    Ok(out)
}

// The bytes of cells.
fn cells_product(alloc: Global, cells: &FixedCells) -> Result<Vec<u8>, AllocError>
    ensures { IfOk result (λ product. product.items ≡ cells_text cells.now) }
{
    let mut out = Vec::new(alloc);
    put_cells(&mut out, cells)?;
    Ok(out)
}

// The product of a base task.
fn base_product(alloc: Global, rows: &Table) -> Result<Vec<u8>, AllocError>
    requires { FitsRows joined_columns row_limit rows.now }
    ensures { IfOk result (λ product. product.items ≡ cells_text (base_of rows.now)) }
{
    let cells = base(alloc, rows.rows())?;
    cells_product(alloc, &cells)
}

/// The product of a task, as bytes.
pub fn product(alloc: Global, task: &FixedTask) -> Result<Vec<u8>, AllocError>
    requires { FitsTask task.now }
    ensures { IfOk result (λ product. product.items ≡ made_of task.now) }
{
    match task {
        FixedTask::Flat(work) => flat_product(alloc, work),
        FixedTask::Base(rows) => base_product(alloc, rows),
        FixedTask::Seal(cells) => cells_product(alloc, cells),
    }
}
