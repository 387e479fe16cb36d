// Cell tables.

ghost use Rattle.std.specs.Prelude.{◌≡◌, ◌<◌, ◌^◌, IfOk, slice_index_or};
ghost use Rattle.byte_frame.specs.Outcomes.{Gives};
ghost use Rattle.cell_store.specs.Cells.{IsCellTable};
ghost use Rattle.cube_fields.specs.Cells.{count_in, dims_in, measures_of, sizes_in};
ghost use Rattle.cube_fields.specs.Reading.{counts_fit, rows_at, table_at, table_from, tables_at};

use crate::cells::RowOf;
use crate::each::{ReadsIn, read_behind};
use crate::forms::CellTableForm;
use crate::order::keys_rise;
use agg_group::Mask;
use byte_frame::{FieldReader, ReadError, read_list};
use cell_store::{Cell, CellRow, CellTable};
use measure_laws::MeasureForm;
use std::alloc::{AllocError, Global};

// The dimensions of the mask, rising.
fn dims_of(alloc: Global, mask: Mask) -> Result<Vec<u32>, AllocError>
    ensures { IfOk result (λ v. v.items ≡ dims_in mask) }
{
    let mut dims = Vec::new(alloc);
    for d in 0..64 {
        if mask.has(d) {
            dims.push(d)?;
        }
    }
    Ok(dims)
}

// The sizes of the dictionaries of the mask's dimensions, in the rising order of its bits.
fn sizes_in(alloc: Global, sizes: &[u32], mask: Mask) -> Result<Vec<u32>, AllocError>
    ensures { IfOk result (λ v. v.items ≡ sizes_in sizes.now mask) }
{
    let dims = dims_of(alloc, mask)?;
    let mut found = Vec::new(alloc);
    for d in &dims {
        found.push(size_at(sizes, *d))?;
    }
    Ok(found)
}

// The size of a dimension's dictionary, or 0 where there is no such dimension.
fn size_at(sizes: &[u32], d: u32) -> u32
    ensures { result ≡ slice_index_or sizes.now d 0 }
{
    match sizes.get(d as usize) {
        Some(size) => *size,
        None => 0,
    }
}

// The forms of measure of all cells, the count first.
fn measures_of(alloc: Global, form: &CellTableForm) -> Result<Vec<MeasureForm>, AllocError>
    ensures { IfOk result (λ v. v.items ≡ measures_of form.now) }
{
    let mut measures = Vec::new(alloc);
    measures.push(MeasureForm::Count)?;
    for cell in form.cells.as_slice() {
        measures.push(cell.form)?;
    }
    Ok(measures)
}

// How many rows a row of a table counts.
fn count_in(row: &CellRow) -> u64
    ensures { result ≡ count_in row.now.1 }
{
    match row.cells() {
        [Cell::Count(count), ..] => count.value(),
        _ => 0,
    }
}

// Whether the counts are together at most so many.
fn counts_fit(rows: &[CellRow], most: u32) -> bool
    ensures { result ≡ counts_fit most rows.now }
{
    let mut left = u64::from(most);
    for row in rows {
        let count = count_in(row);
        if count > left {
            return false;
        }
        left -= count;
    }
    true
}

// The rows of a table.
fn read_rows(
    alloc: Global,
    sizes: &[u32],
    form: &CellTableForm,
    r: &mut FieldReader,
) -> Result<Vec<CellRow>, ReadError>
    ensures rows { Gives (λ rows. (rows.items, r.new)) result (rows_at sizes.now form.now r.old) }
    ensures small { form.now.most < 2 ^ 32 }
{
    let rows: Vec<CellRow> = match read_list(alloc, &RowOf { sizes, form }, form.most, r) {
        Ok(rows) => rows,
        Err(e) => return Err(e),
    };
    if !keys_rise(rows.as_slice()) {
        return Err(ReadError::Malformed);
    }
    if !counts_fit(rows.as_slice(), form.most) {
        return Err(ReadError::Malformed);
    }
    Ok(rows)
}

// The table of these rows.
fn table_of(
    alloc: Global,
    form: &CellTableForm,
    mask: Mask,
    rows: Vec<CellRow>,
) -> Result<CellTable, AllocError>
    requires { IsCellTable mask (measures_of form.now) rows.items }
    ensures { IfOk result (λ t. t ≡ table_from form.now (mask.0, rows.items)) }
{
    let measures = measures_of(alloc, form)?;
    CellTable::of_rows(alloc, mask, measures.as_slice(), rows)
}

/// The cell table of the mask. It is malformed where its keys don't rise, a number isn't below its dictionary's size, a
/// count is 0, the counts add up to more than the form's limit, or a cell can't be of as many items as its row counts.
#[tactic(auto, unfolding(crate::specs::Reading::table_at))]
pub fn read_table(
    alloc: Global,
    form: &CellTableForm,
    mask: Mask,
    r: &mut FieldReader,
) -> Result<CellTable, ReadError>
    ensures { Gives (λ table. (table, r.new)) result (table_at form.now mask r.old) }
{
    let Some(number) = r.take_u64() else {
        return Err(ReadError::Malformed);
    };
    if number != mask.0 {
        return Err(ReadError::Malformed);
    }
    let sizes = sizes_in(alloc, form.sizes.as_slice(), mask)?;
    let rows = match read_rows(alloc, sizes.as_slice(), form, r) {
        Ok(rows) => rows,
        Err(e) => return Err(e),
    };
    let table = table_of(alloc, form, mask, rows)?;
    Ok(table)
}

impl ReadsIn<CellTableForm, CellTable> for Mask {
    ghost use Rattle.cube_fields.specs.Reading.{table_at};

    ghost at = { table_at };

    fn read_in(
        &self,
        alloc: Global,
        env: &CellTableForm,
        r: &mut FieldReader,
    ) -> Result<CellTable, ReadError> {
        read_table(alloc, env, *self, r)
    }
}

/// A cell table for each mask, behind their number.
pub fn read_tables(
    alloc: Global,
    form: &CellTableForm,
    masks: &[Mask],
    r: &mut FieldReader,
) -> Result<Vec<CellTable>, ReadError>
    ensures { Gives (λ tables. (tables.items, r.new)) result (tables_at form.now masks.now r.old) }
{
    let Some(count) = r.take_u32() else {
        return Err(ReadError::Malformed);
    };
    if count as usize != masks.len() {
        return Err(ReadError::Malformed);
    }
    read_behind(Vec::new(alloc), alloc, form, masks, r)
}
