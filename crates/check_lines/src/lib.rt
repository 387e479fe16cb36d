//! The lines of a check program: a program that answers each line of its standard input by calls of the libraries that it checks.
//!
//! The cases of a layer stand in the file `stdin` of its check program, and what must be printed for them in `stdout` beside it. A
//! program gives an `Answerer`; where its calls take the runtime, it goes over the lines itself, by `next_case`. It is no part of the product.
#![tactic(auto)]

mod escapes;
mod lines;
mod words;

ghost use Rattle.std.specs.Prelude.{◌≡◌, ◌<◌, IfOk, Some};

pub use escapes::{put_escaped, unescaped};
pub use lines::{Answerer, answer_lines, next_case};
use std::alloc::Global;
use std::io;
use std::io::{ErrorKind, Write};
use std::str::FromStr;
pub use words::Words;

/// The error of a line that a check program doesn't know.
pub fn unknown_line() -> io::Error {
    io::Error::from(ErrorKind::InvalidData)
}

/// The error of a call that found no memory.
pub fn out_of_memory() -> io::Error {
    io::Error::from(ErrorKind::OutOfMemory)
}

/// What a line names; the error of a line that isn't known where it names nothing.
pub fn known<T>(named: Option<T>) -> io::Result<T>
    ensures { IfOk result (λ value. named ≡ Some value) }
{
    match named {
        Some(value) => Ok(value),
        None => Err(unknown_line()),
    }
}

/// The value that a word writes, as a number; an error where it writes none.
pub fn parsed<T: FromStr<Err: Drop>>(word: &str) -> io::Result<T> {
    match word.parse::<T>() {
        Ok(value) => Ok(value),
        Err(_) => Err(unknown_line()),
    }
}

/// The bytes that pairs of hexadecimal digits (0 to 9, a to f) stand for; an error where they are none.
pub fn bytes_of(alloc: Global, digits: &[u8]) -> io::Result<Vec<u8>> {
    let mut bytes = Vec::new(alloc);
    for pair in digits.chunks(2) {
        let [high, low] = pair else {
            return Err(unknown_line());
        };
        bytes.push(digit(*high)? * 16 + digit(*low)?)?;
    }
    Ok(bytes)
}

// The value of a hexadecimal digit.
fn digit(byte: u8) -> io::Result<u8>
    ensures { IfOk result (λ value. value < 16) }
{
    match byte {
        b'0'..=b'9' => Ok(byte - b'0'),
        b'a'..=b'f' => Ok(byte - b'a' + 10),
        _ => Err(unknown_line()),
    }
}

/// Writes bytes as pairs of hexadecimal digits, which `bytes_of` reads as these bytes.
pub fn put_digits<W: Write>(out: &mut W, bytes: &[u8]) -> io::Result<()> {
    for byte in bytes {
        write!(out, "{byte:02x}")?;
    }
    Ok(())
}
