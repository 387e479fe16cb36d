// Values, rows, tables and forms.

ghost use Rattle.cube_val.specs.Values.{FitsType};

use crate::words::{decoded, put_bytes, sides};
use check_lines::{Words, out_of_memory, parsed, unknown_line};
use cube_val::{
    ColDesc, ColType, Items, NameText, ReadVal, Row, Table, TableSet, Val, cmp, decimal_text,
    read_val, val_text,
};
use std::alloc::{AllocError, Global};
use std::io;
use std::io::Write;
use std::sync::Arc;

// The type that a word names.
fn type_in(word: &str) -> io::Result<ColType> {
    match word {
        "int" => Ok(ColType::Int),
        "decimal" => Ok(ColType::Decimal),
        "text" => Ok(ColType::Text),
        "date" => Ok(ColType::Date),
        _ => Err(unknown_line()),
    }
}

/// The value that percent-encoded bytes write in a column of the type.
pub fn read_in(alloc: Global, ty: ColType, text: &str) -> io::Result<Val> {
    let bytes = decoded(alloc, text)?;
    match read_val(alloc, ty, bytes.as_slice()) {
        Ok(v) => Ok(v),
        Err(ReadVal::BadValue) => Err(unknown_line()),
        Err(ReadVal::Memory) => Err(out_of_memory()),
    }
}

// The value that the bytes behind the type and a colon write.
fn value_in(alloc: Global, word: &str) -> io::Result<Val> {
    let (ty, text) = sides(word, ':')?;
    read_in(alloc, type_in(ty)?, text)
}

/// Writes a value as it is kept: a decimal as its units.
pub fn put_value<W: Write>(alloc: Global, v: &Val, out: &mut W) -> io::Result<()> {
    match v {
        Val::Null => out.write_all(b"\\N"),
        Val::Int(number) => write!(out, "{number}"),
        Val::Text(text) => put_bytes(alloc, text.bytes(), out),
    }
}

/// `value TYPE BYTES`: the kind of the value that the bytes write, itself, and what is printed of it, or `BadValue`.
pub fn answer_value<W: Write>(alloc: Global, words: &mut Words<'_>, out: &mut W) -> io::Result<()> {
    let ty = type_in(words.next()?)?;
    let bytes = decoded(alloc, words.rest())?;
    match read_val(alloc, ty, bytes.as_slice()) {
        Ok(v) => put_read(alloc, ty, &v, out),
        Err(ReadVal::BadValue) => out.write_all(b"BadValue"),
        Err(ReadVal::Memory) => Err(out_of_memory()),
    }
}

// Writes the kind of a value, and a number itself.
fn put_kind<W: Write>(v: &Val, out: &mut W) -> io::Result<()> {
    match v {
        Val::Null => out.write_all(b"Null "),
        Val::Int(number) => write!(out, "Int {number} "),
        Val::Text(_) => out.write_all(b"Text "),
    }
}

// Writes a value that was read, and what is printed of it.
fn put_read<W: Write>(alloc: Global, ty: ColType, v: &Val, out: &mut W) -> io::Result<()>
    requires { FitsType ty v.now }
{
    put_kind(v, out)?;
    let text = val_text(alloc, ty, v)?;
    put_bytes(alloc, text.as_slice(), out)
}

/// `units N`: what is printed of so many units of 1/10000.
pub fn answer_units<W: Write>(alloc: Global, word: &str, out: &mut W) -> io::Result<()> {
    let text = decimal_text(alloc, parsed(word)?)?;
    out.write_all(text.as_slice())
}

/// `order TYPE:BYTES TYPE:BYTES`: how the first value is ordered to the second.
pub fn answer_order<W: Write>(alloc: Global, words: &mut Words<'_>, out: &mut W) -> io::Result<()> {
    let first = value_in(alloc, words.next()?)?;
    let second = value_in(alloc, words.next()?)?;
    write!(out, "{:?}", cmp(&first, &second))
}

// The row of the values that words write.
fn row_in(alloc: Global, words: &str) -> io::Result<Row> {
    let mut row = Row::new(alloc);
    if words.is_empty() {
        return Ok(row);
    }
    for word in words.split(' ') {
        row.push(value_in(alloc, word)?)?;
    }
    Ok(row)
}

// Writes whether a copy of a value equals it, and the copy.
fn put_copy<W: Write>(alloc: Global, v: &Val, out: &mut W) -> io::Result<()> {
    let copy = v.copy()?;
    write!(out, " {} ", copy == *v)?;
    put_value(alloc, &copy, out)
}

// Writes how many values a row has, and copies of them.
fn put_row<W: Write>(alloc: Global, row: &Row, out: &mut W) -> io::Result<()> {
    write!(out, "{} {}", row.len(), row.is_empty())?;
    for i in 0..row.len() {
        put_copy(alloc, row.get(i), out)?;
    }
    Ok(())
}

/// `row TYPE:BYTES ..`: how many values the row has, whether it has none, and for each of them whether a copy equals it, and the copy.
pub fn answer_row<W: Write>(alloc: Global, words: &str, out: &mut W) -> io::Result<()> {
    let row = row_in(alloc, words)?;
    put_row(alloc, &row, out)
}

// The table of the rows that words write.
fn table_in(alloc: Global, words: &str) -> io::Result<Table> {
    let mut table = Table::new(alloc);
    if words.is_empty() {
        return Ok(table);
    }
    for row in words.split('|') {
        table.push(row_in(alloc, row)?)?;
    }
    Ok(table)
}

// The set of one table.
fn set_of(alloc: Global, table: Table) -> Result<TableSet, AllocError> {
    let mut tables = Vec::new(alloc);
    tables.push(Arc::new(alloc, table)?)?;
    Ok(TableSet::new(tables))
}

/// `rows TYPE:BYTES ..|TYPE:BYTES ..`: how many tables a copy of a set of this one table has and whether it has none, how many rows
/// the table has and whether it has none, and the rows.
pub fn answer_rows<W: Write>(alloc: Global, words: &str, out: &mut W) -> io::Result<()> {
    let set = set_of(alloc, table_in(alloc, words)?)?;
    let copy = set.copy(alloc)?;
    put_set(alloc, &copy, out)
}

// Writes how many tables a set has, and the first table.
fn put_set<W: Write>(alloc: Global, set: &TableSet, out: &mut W) -> io::Result<()> {
    write!(out, "{} {}", set.len(), set.is_empty())?;
    if 0 < set.len() {
        put_table(alloc, set.table(0), out)?;
    }
    Ok(())
}

// Writes how many rows a table has, and the rows.
fn put_table<W: Write>(alloc: Global, table: &Table, out: &mut W) -> io::Result<()> {
    write!(out, " {} {}", table.len(), table.is_empty())?;
    for row in table.rows() {
        out.write_all(b" | ")?;
        put_row(alloc, row, out)?;
    }
    Ok(())
}

/// `name BYTES`: the name of a copy, and whether it equals the first.
pub fn answer_name<W: Write>(alloc: Global, word: &str, out: &mut W) -> io::Result<()> {
    let name = NameText::new(alloc, word.as_bytes())?;
    let copy = name.copy()?;
    out.write_all(copy.bytes())?;
    write!(out, " {}", copy == name)
}

/// The column that its name and its type write, which stand on both sides of a colon.
pub fn column_in(alloc: Global, word: &str) -> io::Result<ColDesc> {
    let (name, ty) = sides(word, ':')?;
    let ty = type_in(ty)?;
    let name = NameText::new(alloc, name.as_bytes())?;
    Ok(ColDesc { name, ty })
}

// The columns that words write.
fn columns_in(alloc: Global, words: &str) -> io::Result<Items<ColDesc>> {
    let mut columns = Items::new(alloc);
    for word in words.split(' ') {
        columns.push(column_in(alloc, word)?)?;
    }
    Ok(columns)
}

// Copies of the columns.
fn copies_of(alloc: Global, columns: &Items<ColDesc>) -> Result<Items<ColDesc>, AllocError> {
    let mut copies = Vec::new(alloc);
    for column in columns.as_slice() {
        copies.push(column.copy()?)?;
    }
    Ok(Items::of(copies))
}

// Writes the names of columns, each behind a space.
fn put_names<W: Write>(columns: &[ColDesc], out: &mut W) -> io::Result<()> {
    for column in columns {
        out.write_all(b" ")?;
        out.write_all(column.name.bytes())?;
    }
    Ok(())
}

/// `columns NAME:TYPE ..`: how many columns there are, whether there is none, whether the list of their copies equals them, and the
/// names of the copies, taken out of the list.
pub fn answer_columns<W: Write>(alloc: Global, words: &str, out: &mut W) -> io::Result<()> {
    let columns = columns_in(alloc, words)?;
    let copies = copies_of(alloc, &columns)?;
    let (len, is_empty, is_equal) = (columns.len(), columns.is_empty(), copies == columns);
    write!(out, "{len} {is_empty} {is_equal}")?;
    put_names(copies.into_vec().as_slice(), out)
}

// The places that words write.
fn places_in(alloc: Global, words: &str) -> io::Result<Vec<usize>> {
    let mut places = Vec::new(alloc);
    if words.is_empty() {
        return Ok(places);
    }
    for word in words.split(' ') {
        places.push(parsed(word)?)?;
    }
    Ok(places)
}

// Writes places, each behind a space.
fn put_places<W: Write>(places: &[usize], out: &mut W) -> io::Result<()> {
    for place in places {
        write!(out, " {place}")?;
    }
    Ok(())
}

/// `places N ..`: how many places the list has that is made of these, whether it has none, and what is taken out of it.
pub fn answer_places<W: Write>(alloc: Global, words: &str, out: &mut W) -> io::Result<()> {
    let places = places_in(alloc, words)?;
    let list = Items::from_slice(alloc, places.as_slice())?;
    write!(out, "{} {}", list.len(), list.is_empty())?;
    put_places(list.into_vec().as_slice(), out)
}
