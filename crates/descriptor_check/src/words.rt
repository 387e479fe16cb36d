// The words of a line.

use check_lines::unknown_line;
use std::io;

/// The first word, and what stands behind the space after it.
pub fn parted(text: &str) -> io::Result<(&str, &str)> {
    match text.split_once(' ') {
        Some((word, rest)) => Ok((word, rest)),
        None => Err(unknown_line()),
    }
}

/// The number that the word is.
pub fn number(word: &str) -> io::Result<u32> {
    match word.parse::<u32>() {
        Ok(number) => Ok(number),
        Err(_) => Err(unknown_line()),
    }
}
