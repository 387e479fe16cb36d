// What readers of fields find in front of bytes.

use crate::fields::{day_text, fields_text, range_text};
use crate::frames::{flips_text, frame_text};
use crate::lists::{counted_text, each_text, items_text, list_text, rising_text};
use crate::rows::{row_text, rows_text, value_text};
use byte_frame::ReadError;
use check_lines::{bytes_of, out_of_memory, unknown_line};
use std::alloc::Global;
use std::io;
use std::io::Write;

// A reader that takes the bytes alone, and says what it found and how many bytes are left.
#[derive(Clone, Copy)]
enum Reader {
    // The version, the digest and the body of a frame.
    Frame,
    // How many of the frames with one bit of a byte turned are none.
    Flips,
    // A number of 1, 2, 4 and 8 bytes, a signed one of 8 and 16, and a further one of 4.
    Fields,
    // A range of days.
    Range,
    // A day.
    Day,
    // A row of a date, a text and a decimal that is never null.
    Row,
    // A text.
    Value,
}

// A reader of what stands behind a byte.
#[derive(Clone, Copy)]
enum Counted {
    // Numbers of two bytes behind their count; the byte is the limit of that.
    List,
    // So many numbers of two bytes.
    Items,
    // A number of two bytes for each of so many contexts.
    Each,
    // The same behind their count.
    Counted,
    // Whether so many numbers of two bytes rise.
    Rising,
    // Rows behind their count; the byte is the limit of that.
    Rows,
}

fn reader_of(kind: &str) -> Option<Reader> {
    match kind {
        "frame" => Some(Reader::Frame),
        "flips" => Some(Reader::Flips),
        "fields" => Some(Reader::Fields),
        "range" => Some(Reader::Range),
        "day" => Some(Reader::Day),
        "row" => Some(Reader::Row),
        "value" => Some(Reader::Value),
        _ => None,
    }
}

fn counted_of(kind: &str) -> Option<Counted> {
    match kind {
        "list" => Some(Counted::List),
        "items" => Some(Counted::Items),
        "each" => Some(Counted::Each),
        "counted" => Some(Counted::Counted),
        "rising" => Some(Counted::Rising),
        "rows" => Some(Counted::Rows),
        _ => None,
    }
}

// What the reader finds in the bytes.
fn found_by(alloc: Global, reader: Reader, bytes: &[u8]) -> Result<String, ReadError> {
    match reader {
        Reader::Frame => frame_text(alloc, bytes),
        Reader::Flips => flips_text(alloc, bytes),
        Reader::Fields => fields_text(alloc, bytes),
        Reader::Range => range_text(alloc, bytes),
        Reader::Day => day_text(alloc, bytes),
        Reader::Row => row_text(alloc, bytes),
        Reader::Value => value_text(alloc, bytes),
    }
}

// What the reader finds in the bytes behind the first.
fn found_behind(alloc: Global, reader: Counted, bytes: &[u8]) -> Result<String, ReadError> {
    let [count, rest @ ..] = bytes else {
        return Err(ReadError::Malformed);
    };
    match reader {
        Counted::List => list_text(alloc, *count, rest),
        Counted::Items => items_text(alloc, *count, rest),
        Counted::Each => each_text(alloc, *count, rest),
        Counted::Counted => counted_text(alloc, *count, rest),
        Counted::Rising => rising_text(alloc, *count, rest),
        Counted::Rows => rows_text(alloc, *count, rest),
    }
}

// What the reader that the word names finds in the bytes.
fn found_text(alloc: Global, kind: &str, bytes: &[u8]) -> io::Result<Result<String, ReadError>> {
    if let Some(reader) = reader_of(kind) {
        return Ok(found_by(alloc, reader, bytes));
    }
    match counted_of(kind) {
        Some(reader) => Ok(found_behind(alloc, reader, bytes)),
        None => Err(unknown_line()),
    }
}

/// Writes what the reader of a kind finds in bytes, or `none`.
pub(crate) fn answer_read<W: Write>(alloc: Global, rest: &[u8], out: &mut W) -> io::Result<()> {
    let Some((kind, digits)) = str::from_utf8(rest).unwrap_or("").split_once(' ') else {
        return Err(unknown_line());
    };
    let bytes = bytes_of(alloc, digits.as_bytes())?;
    match found_text(alloc, kind, bytes.as_slice())? {
        Ok(text) => writeln!(out, "{text}"),
        Err(ReadError::Malformed) => out.write_all(b"none\n"),
        Err(ReadError::Memory) => Err(out_of_memory()),
    }
}
