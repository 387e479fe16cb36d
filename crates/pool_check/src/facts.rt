// Rows that are loaded, and ranges of days.

ghost use Rattle.std.specs.Prelude.{IfOk};
ghost use Rattle.fixed_cube.specs.Columns.{fact_columns, row_limit};
ghost use Rattle.step_fields.specs.Fits.{FitsRows};

use byte_frame::{FieldReader, ReadError};
use calendar::Day;
use check_lines::{Words, known, out_of_memory, unknown_line};
use cube_val::Table;
use fixed_cube::{FACT_COLUMNS, ROW_LIMIT};
use range_list::Range;
use std::alloc::Global;
use std::io;
use step_fields::read_rows;

// One row of the first and one of the second of January, and one of the first of February, with the numbers 1, 2 and 3.
const FIRST: &[u8] =
    b"\0\0\0\x03\x02\x0a2012-01-01\x02\x01a\x02\x01x\x01\0\0\0\0\0\0\0\x01\x02\x0a2012-01-02\x02\x01b\x02\x01x\x01\0\0\0\0\0\0\0\x02\x02\x0a2012-02-01\x02\x01a\x02\x01y\x01\0\0\0\0\0\0\0\x03";

// The same rows with ten times these numbers.
const CHANGED: &[u8] =
    b"\0\0\0\x03\x02\x0a2012-01-01\x02\x01a\x02\x01x\x01\0\0\0\0\0\0\0\x0a\x02\x0a2012-01-02\x02\x01b\x02\x01x\x01\0\0\0\0\0\0\0\x14\x02\x0a2012-02-01\x02\x01a\x02\x01y\x01\0\0\0\0\0\0\0\x1e";

// Rows that are read fit.
fn read_table(alloc: Global, bytes: &[u8]) -> io::Result<Table>
    ensures { IfOk result (λ table. FitsRows fact_columns row_limit table) }
{
    let mut reader = FieldReader::new(bytes);
    match read_rows(alloc, &FACT_COLUMNS, ROW_LIMIT, &mut reader) {
        Ok(table) => Ok(table),
        Err(ReadError::Malformed) => Err(unknown_line()),
        Err(ReadError::Memory) => Err(out_of_memory()),
    }
}

/// The rows of this name.
pub fn rows_named(alloc: Global, name: &str) -> io::Result<Table>
    ensures { IfOk result (λ table. FitsRows fact_columns row_limit table) }
{
    match name {
        "first" => read_table(alloc, FIRST),
        "changed" => read_table(alloc, CHANGED),
        _ => Err(unknown_line()),
    }
}

// The day that the next word is.
fn day(words: &mut Words<'_>) -> io::Result<Day> {
    known(Day::read(words.next()?.as_bytes()))
}

/// The days from the next word on to before the one behind it.
pub fn range(words: &mut Words<'_>) -> io::Result<Range> {
    let start = day(words)?;
    known(Range::new(start, day(words)?))
}
