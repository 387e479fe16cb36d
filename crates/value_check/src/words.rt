// Words, and bytes as they stand in them.

use check_lines::known;
use percent_encoding::{CONTROLS, percent_decode_str, percent_encode};
use std::alloc::{AllocError, Global};
use std::io;
use std::io::Write;

/// What stands on both sides of the first such byte.
pub fn sides(word: &str, byte: char) -> io::Result<(&str, &str)> {
    known(word.split_once(byte))
}

/// The bytes that percent-encoded bytes stand for.
pub fn decoded(alloc: Global, text: &str) -> Result<Vec<u8>, AllocError> {
    let mut bytes = Vec::new(alloc);
    percent_decode_str(text).append_to(&mut bytes)?;
    Ok(bytes)
}

/// Writes bytes percent-encoded.
pub fn put_bytes<W: Write>(alloc: Global, bytes: &[u8], out: &mut W) -> io::Result<()> {
    let mut text = String::new(alloc);
    percent_encode(bytes, CONTROLS.add(b'%')).append_to(&mut text)?;
    out.write_all(text.as_bytes())
}
