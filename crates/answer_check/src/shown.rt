// Answers, written.

use check_lines::unknown_line;
use cube_val::decimal_text;
use plain_answer::{AnswerTable, OutVal, PlainRow};
use std::alloc::Global;
use std::io;
use std::io::Write;

// Writes a value.
fn put_value<W: Write>(alloc: Global, v: &OutVal, out: &mut W) -> io::Result<()> {
    match v {
        OutVal::Null => out.write_all(b"null"),
        OutVal::Whole(number) => write!(out, "{number}"),
        OutVal::Units(units) => out.write_all(decimal_text(alloc, *units)?.as_slice()),
        OutVal::Text(text) => out.write_all(text.bytes()),
    }
}

// Writes values with a comma before each but the first.
fn put_row<W: Write>(alloc: Global, row: &[OutVal], out: &mut W) -> io::Result<()> {
    let mut first = true;
    for v in row {
        if !first {
            out.write_all(b",")?;
        }
        first = false;
        put_value(alloc, v, out)?;
    }
    Ok(())
}

// Ends the program where a copy of the table is not equal to it.
fn check_copy(alloc: Global, table: &AnswerTable) -> io::Result<()> {
    let copy = table.copy(alloc)?;
    if copy == *table {
        Ok(())
    } else {
        Err(unknown_line())
    }
}

/// Writes the rows of a table between bars. The table is copied too, and an equal copy is wanted.
pub(crate) fn put_table<W: Write>(
    alloc: Global,
    table: &AnswerTable,
    out: &mut W,
) -> io::Result<()> {
    check_copy(alloc, table)?;
    for row in table.rows.as_slice() {
        out.write_all(b"|")?;
        put_row(alloc, row.as_slice(), out)?;
    }
    out.write_all(b"|\n")
}

/// Writes groups between bars: how many values the key has, and the aggregates.
pub(crate) fn put_groups<W: Write>(
    alloc: Global,
    groups: &[PlainRow],
    out: &mut W,
) -> io::Result<()> {
    for group in groups {
        write!(out, "|{},", group.key.len())?;
        put_row(alloc, group.values.as_slice(), out)?;
    }
    out.write_all(b"|\n")
}
