// Rows and lists of rows.

ghost use Rattle.std.specs.Prelude.{◌≡◌, ◌<◌, ◌^◌, ◌++◌, length, OnOk};
ghost use Rattle.byte_frame.specs.Outcomes.{Gives};
ghost use Rattle.step_fields.specs.Reading.{row_at, rows_at};
ghost use Rattle.step_fields.specs.Spelling.{row_text, rows_text};

use crate::column::Column;
use crate::values::put_val;
use byte_frame::{FieldReader, ReadError, Reads, put_u32, read_each, read_list};
use cube_val::{Row, Table};
use std::alloc::{AllocError, Global};

/// The columns of a row, as the context in which one is read.
#[derive(Clone, Copy)]
pub struct RowOf<'a> {
    /// The columns, in the order of the row's values.
    pub columns: &'a [Column],
}

impl<'a> Reads<Row> for RowOf<'a> {
    ghost use Rattle.step_fields.specs.Reading.{row_at};

    ghost at = { λ form. row_at form.columns.now };

    fn read(&self, alloc: Global, r: &mut FieldReader) -> Result<Row, ReadError> {
        match read_each(alloc, self.columns, r) {
            Ok(vals) => Ok(Row::of(vals)),
            Err(e) => Err(e),
        }
    }
}

/// A list of at most so many rows of these columns.
pub fn read_rows(
    alloc: Global,
    columns: &[Column],
    limit: u32,
    r: &mut FieldReader,
) -> Result<Table, ReadError>
    ensures { Gives (λ table. (table, r.new)) result (rows_at columns.now limit r.old) }
{
    match read_list(alloc, &RowOf { columns }, limit, r) {
        Ok(rows) => Ok(Table::of(rows)),
        Err(e) => Err(e),
    }
}

/// Puts the values of a row.
pub fn put_row(out: &mut Vec<u8>, row: &Row) -> Result<(), AllocError>
    ensures { OnOk result (out.new.items ≡ out.old.items ++ row_text row.now) }
{
    for v in row.vals() {
        put_val(out, v)?;
    }
    Ok(())
}

/// Puts a list of rows.
pub fn put_rows(out: &mut Vec<u8>, rows: &[Row]) -> Result<(), AllocError>
    requires { length rows.now < 2 ^ 32 }
    ensures { OnOk result (out.new.items ≡ out.old.items ++ rows_text rows.now) }
{
    put_u32(out, rows.len() as u32)?;
    for row in rows {
        put_row(out, row)?;
    }
    Ok(())
}
