// Queries and their first faults.

use check_lines::{Words, out_of_memory, unescaped, unknown_line};
use sql_reader::{Query, SqlFault, SqlRefusal, read_sql};
use std::alloc::{AllocError, Global};
use std::io;
use std::io::Write;

// The fault of a text, or none where it is a query; without the query itself.
fn first_fault<T: Drop>(read: Result<T, SqlRefusal>) -> Result<Option<SqlFault>, AllocError> {
    match read {
        Ok(_) => Ok(None),
        Err(SqlRefusal::Fault(fault)) => Ok(Some(fault)),
        Err(SqlRefusal::Memory) => Err(AllocError),
    }
}

/// Writes the fault, or the word where there is none.
pub fn put_fault<W: Write>(fault: Option<SqlFault>, word: &str, out: &mut W) -> io::Result<()> {
    match fault {
        None => writeln!(out, "{word}"),
        Some(fault) => writeln!(out, "{} {}", fault.kind.as_str(), fault.place),
    }
}

pub fn answer_query<W: Write>(alloc: Global, text: &[u8], out: &mut W) -> io::Result<()> {
    put_fault(first_fault(read_sql(alloc, text))?, "query", out)
}

pub fn answer_padded<W: Write>(alloc: Global, words: Words<'_>, out: &mut W) -> io::Result<()> {
    let mut words = words;
    let count = words.number()? as usize;
    let mut text = unescaped(alloc, words.rest())?;
    for _ in text.len()..count {
        text.push(b' ')?;
    }
    answer_query(alloc, text.as_slice(), out)
}

// The query that was read; an error where the text is none.
fn no_fault<T>(read: Result<T, SqlRefusal>) -> io::Result<T> {
    match read {
        Ok(query) => Ok(query),
        Err(SqlRefusal::Fault(_)) => Err(unknown_line()),
        Err(SqlRefusal::Memory) => Err(out_of_memory()),
    }
}

/// The query that a text is; an error where it is none.
pub fn query_of(alloc: Global, text: &[u8]) -> io::Result<Query> {
    no_fault(read_sql(alloc, text))
}
