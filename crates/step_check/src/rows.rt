// Rows of a date, a text and a decimal.

use crate::fields::mark_of;
use byte_frame::{FieldReader, ReadError, Reads, read_list};
use cube_val::{ColType, Row, Table, Val};
use std::alloc::{AllocError, Global};
use step_fields::{Column, RowOf, put_row, put_rows, put_val, read_rows};

// A text, which may be null.
const TEXT: Column = Column {
    ty: ColType::Text,
    no_null: false,
};

// A date, a text and a decimal that may not be null.
const COLUMNS: [Column; 3] = [
    Column {
        ty: ColType::Date,
        no_null: false,
    },
    TEXT,
    Column {
        ty: ColType::Decimal,
        no_null: true,
    },
];

// A value: a decimal in units of 1/10000.
fn text_of_val(alloc: Global, val: &Val) -> Result<String, AllocError> {
    match val {
        Val::Null => String::from_str(alloc, "null"),
        Val::Int(number) => number.to_string(alloc),
        Val::Text(text) => String::from_str(alloc, str::from_utf8(text.bytes()).unwrap_or("?")),
    }
}

// Adds the values of a row, each behind a space, and a bar.
fn add_row(alloc: Global, text: &mut String, row: &Row) -> Result<(), AllocError> {
    for val in row.vals() {
        let shown = text_of_val(alloc, val)?;
        text.push_str(shown.as_str())?;
        text.push_str(" ")?;
    }
    text.push_str("| ")
}

fn text_of_table(alloc: Global, table: &Table) -> Result<String, AllocError> {
    let mut text = String::new(alloc);
    for i in 0..table.len() {
        add_row(alloc, &mut text, table.row(i))?;
    }
    Ok(text)
}

// Whether the rows are written as the bytes in front.
fn are_put(alloc: Global, limit: u8, bytes: &[u8]) -> Result<bool, ReadError> {
    let form = RowOf { columns: &COLUMNS };
    let rows = read_list(alloc, &form, u32::from(limit), &mut FieldReader::new(bytes))?;
    let mut written = Vec::new(alloc);
    if rows.len() <= 255 {
        put_rows(&mut written, rows.as_slice())?;
    }
    Ok(bytes.starts_with(written.as_slice()))
}

/// Rows behind their count, which is at most the limit.
pub(crate) fn rows_text(alloc: Global, limit: u8, bytes: &[u8]) -> Result<String, ReadError> {
    let mut r = FieldReader::new(bytes);
    let table = read_rows(alloc, &COLUMNS, u32::from(limit), &mut r)?;
    let text = text_of_table(alloc, &table)?;
    let mark = mark_of(are_put(alloc, limit, bytes)?);
    Ok(format!(in alloc; "{text}left {}{mark}", r.left())?)
}

// Whether the row is written as the bytes in front.
fn is_row_put(alloc: Global, row: &Row, bytes: &[u8]) -> Result<bool, AllocError> {
    let mut written = Vec::new(alloc);
    put_row(&mut written, row)?;
    Ok(bytes.starts_with(written.as_slice()))
}

/// One row.
pub(crate) fn row_text(alloc: Global, bytes: &[u8]) -> Result<String, ReadError> {
    let mut r = FieldReader::new(bytes);
    let row = RowOf { columns: &COLUMNS }.read(alloc, &mut r)?;
    let mut text = String::new(alloc);
    add_row(alloc, &mut text, &row)?;
    let mark = mark_of(is_row_put(alloc, &row, bytes)?);
    Ok(format!(in alloc; "{text}left {}{mark}", r.left())?)
}

// Whether the value is written as the bytes in front.
fn is_val_put(alloc: Global, val: &Val, bytes: &[u8]) -> Result<bool, AllocError> {
    let mut written = Vec::new(alloc);
    put_val(&mut written, val)?;
    Ok(bytes.starts_with(written.as_slice()))
}

/// One text.
pub(crate) fn value_text(alloc: Global, bytes: &[u8]) -> Result<String, ReadError> {
    let mut r = FieldReader::new(bytes);
    let val = TEXT.read(alloc, &mut r)?;
    let text = text_of_val(alloc, &val)?;
    let mark = mark_of(is_val_put(alloc, &val, bytes)?);
    Ok(format!(in alloc; "{text} left {}{mark}", r.left())?)
}
