// Numbers, bytes and days.

use byte_frame::{
    FieldReader, ReadError, put_bytes, put_i64, put_i128, put_u8, put_u16, put_u32, put_u64,
};
use std::alloc::{AllocError, Global};
use step_fields::{put_day, put_range, take_day, take_range};

/// Bytes as hexadecimal digits.
pub(crate) fn digits_of(alloc: Global, bytes: &[u8]) -> Result<String, AllocError> {
    let mut text = String::new(alloc);
    for byte in bytes {
        let digits = format!(in alloc; "{byte:02x}")?;
        text.push_str(digits.as_str())?;
    }
    Ok(text)
}

/// What stands behind what was read.
pub(crate) fn mark_of(same: bool) -> &'static str {
    if same { "" } else { " changed" }
}

// Numbers of each width.
#[derive(Clone, Copy)]
struct Fields {
    a: u8,
    b: u16,
    c: u32,
    d: u64,
    e: i64,
    f: i128,
}

fn take_fields(r: &mut FieldReader) -> Option<Fields> {
    let a = r.take_u8()?;
    let b = r.take_u16()?;
    let c = r.take_u32()?;
    let d = r.take_u64()?;
    let e = r.take_i64()?;
    let f = r.take_i128()?;
    Some(Fields { a, b, c, d, e, f })
}

fn put_fields(out: &mut Vec<u8>, fields: &Fields, rest: &[u8]) -> Result<(), AllocError> {
    put_u8(out, fields.a)?;
    put_u16(out, fields.b)?;
    put_u32(out, fields.c)?;
    put_u64(out, fields.d)?;
    put_i64(out, fields.e)?;
    put_i128(out, fields.f)?;
    put_bytes(out, rest)
}

// Whether the fields and the rest are written as the bytes.
fn are_put(alloc: Global, fields: &Fields, rest: &[u8], bytes: &[u8]) -> Result<bool, AllocError> {
    let mut written = Vec::new(alloc);
    put_fields(&mut written, fields, rest)?;
    Ok(written.as_slice() == bytes)
}

// The fields, and what is left behind them.
fn text_of(alloc: Global, fields: &Fields, rest: &[u8], mark: &str) -> Result<String, AllocError> {
    let left = digits_of(alloc, rest)?;
    let Fields { a, b, c, d, e, f } = *fields;
    format!(in alloc; "{a} {b} {c} {d} {e} {f} left {left}{mark}")
}

/// Numbers of each width. Where fewer than four bytes are left behind them, no further number is taken, and they stay.
pub(crate) fn fields_text(alloc: Global, bytes: &[u8]) -> Result<String, ReadError> {
    let mut r = FieldReader::new(bytes);
    let Some(fields) = take_fields(&mut r) else {
        return Err(ReadError::Malformed);
    };
    if r.take_u32().is_some() {
        return Err(ReadError::Malformed);
    }
    let rest = r.take_bytes(r.left()).unwrap_or(&[]);
    if r.take_u8().is_some() {
        return Err(ReadError::Malformed);
    }
    let same = are_put(alloc, &fields, rest, bytes)?;
    Ok(text_of(alloc, &fields, rest, mark_of(same))?)
}

/// A range of days.
pub(crate) fn range_text(alloc: Global, bytes: &[u8]) -> Result<String, ReadError> {
    let mut r = FieldReader::new(bytes);
    let Some(range) = take_range(&mut r) else {
        return Err(ReadError::Malformed);
    };
    let mut written = Vec::new(alloc);
    put_range(&mut written, &range)?;
    let mark = mark_of(bytes.starts_with(written.as_slice()));
    let (start, end) = (range.start().text(), range.end().text());
    let start = str::from_utf8(&start).unwrap_or("?");
    let end = str::from_utf8(&end).unwrap_or("?");
    Ok(format!(in alloc; "{start} {end} left {}{mark}", r.left())?)
}

/// A day.
pub(crate) fn day_text(alloc: Global, bytes: &[u8]) -> Result<String, ReadError> {
    let mut r = FieldReader::new(bytes);
    let Some(day) = take_day(&mut r) else {
        return Err(ReadError::Malformed);
    };
    let mut written = Vec::new(alloc);
    put_day(&mut written, day)?;
    let mark = mark_of(bytes.starts_with(written.as_slice()));
    let text = day.text();
    let text = str::from_utf8(&text).unwrap_or("?");
    Ok(format!(in alloc; "{text} left {}{mark}", r.left())?)
}
