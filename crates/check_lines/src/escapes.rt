// Texts with escapes.

use crate::{bytes_of, unknown_line};
use std::alloc::Global;
use std::io;
use std::io::Write;

/// The bytes that a text stands for: `\n`, `\r` and `\t` are a line feed, a carriage return and a tab, `\x` with two hexadecimal digits
/// (0 to 9, a to f) is that byte, and everything else is itself. An error where another byte follows a backslash.
pub fn unescaped(alloc: Global, text: &str) -> io::Result<Vec<u8>> {
    let mut pieces = text.split('\\');
    let mut bytes = Vec::new(alloc);
    bytes.extend_from_slice(pieces.next().unwrap_or("").as_bytes())?;
    for piece in pieces {
        put_piece(alloc, &mut bytes, piece.as_bytes())?;
    }
    Ok(bytes)
}

// Adds what stands behind a backslash.
fn put_piece(alloc: Global, bytes: &mut Vec<u8>, piece: &[u8]) -> io::Result<()> {
    if let [b'x', high, low, rest @ ..] = piece {
        let byte = bytes_of(alloc, &[*high, *low])?;
        bytes.extend_from_slice(byte.as_slice())?;
        bytes.extend_from_slice(rest)?;
        return Ok(());
    }
    let [letter, rest @ ..] = piece else {
        return Err(unknown_line());
    };
    bytes.push(escape(*letter)?)?;
    bytes.extend_from_slice(rest)?;
    Ok(())
}

// The byte that a letter behind a backslash stands for.
fn escape(letter: u8) -> io::Result<u8> {
    match letter {
        b'n' => Ok(b'\n'),
        b'r' => Ok(b'\r'),
        b't' => Ok(b'\t'),
        _ => Err(unknown_line()),
    }
}

/// Writes bytes as a text with escapes, which `unescaped` reads as these bytes: printable ASCII but the backslash stands as it is.
pub fn put_escaped<W: Write>(out: &mut W, bytes: &[u8]) -> io::Result<()> {
    for byte in bytes {
        put_byte(out, *byte)?;
    }
    Ok(())
}

// Writes a byte, with an escape where it needs one.
fn put_byte<W: Write>(out: &mut W, byte: u8) -> io::Result<()> {
    match byte {
        b'\n' => out.write_all(b"\\n"),
        b'\r' => out.write_all(b"\\r"),
        b'\t' => out.write_all(b"\\t"),
        b'\\' => out.write_all(b"\\x5c"),
        b' '..=b'~' => out.write_all(&[byte]),
        _ => write!(out, "\\x{byte:02x}"),
    }
}
