// The words of a line.

use crate::{unescaped, unknown_line};
use std::alloc::Global;
use std::io;

/// The words of a line, taken one after the other. One space parts two words.
#[derive(Clone, Copy)]
pub struct Words<'a> {
    rest: Option<&'a str>,
}

impl<'a> Words<'a> {
    /// The words of a line that is UTF-8.
    pub fn new(line: &'a [u8]) -> io::Result<Words<'a>> {
        match str::from_utf8(line) {
            Ok(text) => Ok(Words { rest: Some(text) }),
            Err(_) => Err(unknown_line()),
        }
    }

    /// The next word; an error where there is none.
    pub fn next(&mut self) -> io::Result<&'a str> {
        let Some(rest) = self.rest else {
            return Err(unknown_line());
        };
        match rest.split_once(' ') {
            Some((word, rest)) => {
                self.rest = Some(rest);
                Ok(word)
            }
            None => {
                self.rest = None;
                Ok(rest)
            }
        }
    }

    /// The number that the next word is; an error where it is none of 32 bits.
    pub fn number(&mut self) -> io::Result<u32> {
        match self.next()?.parse::<u32>() {
            Ok(number) => Ok(number),
            Err(_) => Err(unknown_line()),
        }
    }

    /// Whether no word is left.
    pub fn is_empty(&self) -> bool {
        self.rest.is_none()
    }

    /// What stands behind the words that were taken.
    pub fn rest(&self) -> &'a str {
        self.rest.unwrap_or("")
    }
    /// The words that are left, each with its escapes read; `''` is the empty word. An error where one is no text.
    pub fn strings(&self, alloc: Global) -> io::Result<Vec<String>> {
        let mut list = Vec::new(alloc);
        let Some(rest) = self.rest else {
            return Ok(list);
        };
        for word in rest.split(' ') {
            list.push(string_of(alloc, word)?)?;
        }
        Ok(list)
    }
}

// The text that a word stands for.
fn string_of(alloc: Global, word: &str) -> io::Result<String> {
    if word == "''" {
        return Ok(String::new(alloc));
    }
    let bytes = unescaped(alloc, word)?;
    match str::from_utf8(bytes.as_slice()) {
        Ok(text) => Ok(String::from_str(alloc, text)?),
        Err(_) => Err(unknown_line()),
    }
}
