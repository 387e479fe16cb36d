// The rows of a table file, or its first fault.

ghost use Rattle.std.specs.Prelude.{◌≡◌, ◌<◌, All, length};
ghost use Rattle.std.specs.Bool.{OnTrue};

use crate::values::{column_in, put_value};
use crate::words::{decoded, sides};
use check_lines::{Words, out_of_memory, parsed, unknown_line};
use cube_val::{Items, Row, Table, TableForm};
use percent_encoding::percent_decode_str;
use std::alloc::{AllocError, Global};
use std::io;
use std::io::Write;
use table_reader::{TableFault, TableRefusal, read_table};

// Adds the columns that a word writes, with commas between them: `NAME:TYPE`, with a `!` behind where no null may stand in it.
fn add_columns(alloc: Global, form: &mut TableForm, word: &str) -> io::Result<()> {
    for column in word.split(',') {
        let name = column.strip_suffix('!').unwrap_or(column);
        form.cols.push(column_in(alloc, name)?)?;
        form.no_null.push(name.len() < column.len())?;
    }
    Ok(())
}

// Adds the places of the key's columns, with commas between them.
fn add_key(form: &mut TableForm, word: &str) -> io::Result<()> {
    for place in word.split(',') {
        form.key.push(parsed(place)?)?;
    }
    Ok(())
}

// The form that a word writes: its columns, and the places of its key's columns behind a slash.
fn form_in(alloc: Global, word: &str) -> io::Result<TableForm> {
    let (columns, key) = sides(word, '/')?;
    let mut form = TableForm {
        cols: Items::new(alloc),
        no_null: Items::new(alloc),
        key: Items::new(alloc),
    };
    add_columns(alloc, &mut form, columns)?;
    add_key(&mut form, key)?;
    Ok(form)
}

// Whether each column has its mark, and each place of the key is one of a column.
fn is_sound(form: &TableForm) -> bool
    ensures no_null { OnTrue result (length form.now.no_null ≡ length form.now.cols) }
    ensures key { OnTrue result (All (λ place. place < length form.now.cols) form.now.key) }
{
    let width = form.cols.len();
    form.no_null.len() == width && form.key.as_slice().iter().all(|place| *place < width)
}

// Writes the rows of the table file that the bytes are, or how many they are, or its first fault.
fn put_file<W: Write>(
    alloc: Global,
    form: &TableForm,
    bytes: &[u8],
    with_rows: bool,
    out: &mut W,
) -> io::Result<()> {
    if !is_sound(form) {
        return Err(unknown_line());
    }
    match read_table(alloc, form, bytes) {
        Ok(table) => put_table(alloc, &table, with_rows, out),
        Err(TableRefusal::Fault(fault)) => put_fault(fault, out),
        Err(TableRefusal::Memory) => Err(out_of_memory()),
    }
}

// Writes how many rows there are, and the rows where they are asked for.
fn put_table<W: Write>(
    alloc: Global,
    table: &Table,
    with_rows: bool,
    out: &mut W,
) -> io::Result<()> {
    write!(out, "{} rows", table.len())?;
    if with_rows {
        for row in table.rows() {
            put_row(alloc, row, out)?;
        }
    }
    Ok(())
}

// Writes the values of a row, in brackets.
fn put_row<W: Write>(alloc: Global, row: &Row, out: &mut W) -> io::Result<()> {
    let mut between: &[u8] = b" [";
    for v in row.vals() {
        out.write_all(between)?;
        put_value(alloc, v, out)?;
        between = b"|";
    }
    out.write_all(b"]")
}

// Writes the row of a fault, the column where it has one, and its kind.
fn put_fault<W: Write>(fault: TableFault, out: &mut W) -> io::Result<()> {
    write!(out, "row {} ", fault.row)?;
    if let Some(column) = fault.column {
        write!(out, "column {column} ")?;
    }
    write!(out, "{:?}", fault.kind)
}

/// `table FORM BYTES`: the rows of the table file that the bytes are, or its first fault.
pub fn answer_table<W: Write>(alloc: Global, words: &mut Words<'_>, out: &mut W) -> io::Result<()> {
    let form = form_in(alloc, words.next()?)?;
    let bytes = decoded(alloc, words.rest())?;
    put_file(alloc, &form, bytes.as_slice(), true, out)
}

// Adds so many rows, each with a key of its own.
fn add_rows(alloc: Global, bytes: &mut Vec<u8>, count: usize) -> Result<(), AllocError> {
    for row in 0..count {
        let text = format!(in alloc; "a,{row},1,\\N\n")?;
        bytes.extend_from_slice(text.as_bytes())?;
    }
    Ok(())
}

// A file of so many rows, each with a key of its own, and then a text.
fn long_file(alloc: Global, count: usize, last: &str) -> Result<Vec<u8>, AllocError> {
    let mut bytes = Vec::from_slice(alloc, b"name,n,amount,day\n".as_slice())?;
    add_rows(alloc, &mut bytes, count)?;
    percent_decode_str(last).append_to(&mut bytes)?;
    Ok(bytes)
}

/// `long COUNT FORM BYTES`: how many rows the table file has that consists of so many rows and then these bytes, or its first fault.
pub fn answer_long<W: Write>(alloc: Global, words: &mut Words<'_>, out: &mut W) -> io::Result<()> {
    let count = parsed(words.next()?)?;
    let form = form_in(alloc, words.next()?)?;
    let bytes = long_file(alloc, count, words.rest())?;
    put_file(alloc, &form, bytes.as_slice(), false, out)
}
