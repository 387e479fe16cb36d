// Numbers and files of a line, and how answers are written.

use check_lines::{known, parsed, put_escaped, unescaped};
use outside::Entry;
use std::alloc::Global;
use std::fmt::Debug;
use std::io;
use std::io::Write;

/// The numbers that a word lists.
pub(crate) fn numbers(alloc: Global, word: &str) -> io::Result<Vec<u32>> {
    let mut numbers = Vec::new(alloc);
    if word == "-" {
        return Ok(numbers);
    }
    for number in word.split(',') {
        numbers.push(parsed::<u32>(number)?)?;
    }
    Ok(numbers)
}

/// What stands before and behind the first `=`.
pub(crate) fn parts(word: &str) -> io::Result<(&str, &str)> {
    known(word.split_once('='))
}

// The file that a word gives.
fn file(alloc: Global, word: &str) -> io::Result<Entry> {
    let (path, text) = parts(word)?;
    let bytes = unescaped(alloc, text)?;
    let path = String::from_str(alloc, path)?;
    Ok(Entry { path, bytes })
}

/// The files that a word lists.
pub(crate) fn files(alloc: Global, word: &str) -> io::Result<Vec<Entry>> {
    let mut files = Vec::new(alloc);
    if word == "-" {
        return Ok(files);
    }
    for word in word.split(',') {
        files.push(file(alloc, word)?)?;
    }
    Ok(files)
}

/// Writes bytes as an answer, in quotes.
pub(crate) fn put_bytes<W: Write>(out: &mut W, bytes: &[u8]) -> io::Result<()> {
    out.write_all(b"; '")?;
    put_escaped(out, bytes)?;
    out.write_all(b"'")
}

/// Writes the bytes that a call answers, or the name of its fault.
pub(crate) fn put_answer<F: Debug, W: Write>(
    out: &mut W,
    answer: &Result<Vec<u8>, F>,
) -> io::Result<()> {
    match answer {
        Ok(bytes) => put_bytes(out, bytes.as_slice()),
        Err(fault) => write!(out, "; {fault:?}"),
    }
}

/// Writes `ok`, or the name of a fault.
pub(crate) fn put_done<F: Debug, W: Write>(out: &mut W, answer: &Result<(), F>) -> io::Result<()> {
    match answer {
        Ok(()) => out.write_all(b"; ok"),
        Err(fault) => write!(out, "; {fault:?}"),
    }
}
