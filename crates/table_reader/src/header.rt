// The columns of a form, found in the header of a file.

ghost use Rattle.std.specs.Prelude.{◌≡◌, IfOk, length, position};
ghost use Rattle.std.specs.List.{position_or_len};
ghost use Rattle.csv.specs.Records.{fields_of};
ghost use Rattle.table_reader.specs.Columns.{columns_of, header_fault, header_fault_at, is_missing, is_repeated, names, times_in};

use crate::fault::{TableFault, TableKind};
use crate::records::field_at;
use csv::ByteRecord;
use cube_val::{ColDesc, ColType, TableForm};
use std::alloc::{AllocError, Global};

/// A column as it is read.
#[derive(Clone, Copy, Debug)]
pub struct Column {
    /// The type of its values.
    pub ty: ColType,
    /// Whether no null may stand in it.
    pub no_null: bool,
    /// The place of its field in each record.
    pub place: usize,
}

// A fault of the header at a column of the form.
fn fault_at(place: usize, kind: TableKind) -> TableFault
    ensures { result ≡ header_fault_at kind place }
{
    TableFault {
        row: 0,
        column: Some(place),
        kind,
    }
}

// Whether a field of the header names the column.
fn names(column: &ColDesc, field: &[u8]) -> bool
    ensures { result ≡ names column.now field.now }
{
    field.eq_ignore_ascii_case(column.name.bytes())
}

// How many fields of the header name the column.
fn times_in(header: &ByteRecord, column: &ColDesc) -> usize
    ensures { result ≡ times_in (fields_of header.now) column.now }
{
    let mut times = 0;
    for i in 0..header.len() {
        if names(column, field_at(header, i)) {
            times += 1;
        }
    }
    times
}

// The place of the first field of the header that names the column.
fn place_in(header: &ByteRecord, column: &ColDesc) -> usize
    ensures { result ≡ position_or_len (names column.now) (fields_of header.now) }
{
    for i in 0..header.len() {
        if names(column, field_at(header, i)) {
            return i;
        }
    }
    header.len()
}

// Whether no field of the header names the column.
fn is_missing(header: &ByteRecord, column: &ColDesc) -> bool
    ensures { result ≡ is_missing (fields_of header.now) column.now }
{
    times_in(header, column) == 0
}

// Whether more than one field of the header names the column.
fn is_repeated(header: &ByteRecord, column: &ColDesc) -> bool
    ensures { result ≡ is_repeated (fields_of header.now) column.now }
{
    1 < times_in(header, column)
}

// The first column that no field of the header names.
fn first_missing(header: &ByteRecord, columns: &[ColDesc]) -> Option<usize>
    ensures { result ≡ position (is_missing (fields_of header.now)) columns.now }
{
    columns.iter().position(|column| is_missing(header, column))
}

// The first column that more than one field of the header names.
fn first_repeated(header: &ByteRecord, columns: &[ColDesc]) -> Option<usize>
    ensures { result ≡ position (is_repeated (fields_of header.now)) columns.now }
{
    columns
        .iter()
        .position(|column| is_repeated(header, column))
}

/// The first fault of the header: the first column of the form that is missing, or else the first that stands twice.
pub fn header_fault(header: &ByteRecord, columns: &[ColDesc]) -> Option<TableFault>
    ensures { result ≡ header_fault columns.now (fields_of header.now) }
{
    if let Some(place) = first_missing(header, columns) {
        return Some(fault_at(place, TableKind::MissingColumn));
    }
    match first_repeated(header, columns) {
        Some(place) => Some(fault_at(place, TableKind::RepeatedColumn)),
        None => None,
    }
}

/// The columns of the form as they are read, with the places of their fields.
pub fn columns_of(
    alloc: Global,
    form: &TableForm,
    header: &ByteRecord,
) -> Result<Vec<Column>, AllocError>
    requires { length form.now.no_null ≡ length form.now.cols }
    ensures { IfOk result (λ columns. columns.items ≡ columns_of form.now (fields_of header.now)) }
{
    let mut columns = Vec::with_capacity(alloc, form.cols.len())?;
    for i in 0..form.cols.len() {
        let column = form.cols.get(i);
        columns.push(Column {
            ty: column.ty,
            no_null: *form.no_null.get(i),
            place: place_in(header, column),
        })?;
    }
    Ok(columns)
}
