// Lists of numbers of two bytes.

ghost use Rattle.std.specs.Prelude.{nat_lt};
ghost use Rattle.std.specs.Int.{w16};
ghost use Rattle.byte_frame.specs.Reading.{number_at};

use byte_frame::{
    Below, FieldReader, ReadError, Reads, read_counted, read_each, read_items, read_list, rise,
};
use std::alloc::{AllocError, Global};

// Numbers of two bytes.
#[derive(Clone, Copy)]
struct Numbers;

impl Reads<u16> for Numbers {
    ghost at = { λ _. number_at w16 };

    fn read(&self, alloc: Global, r: &mut FieldReader) -> Result<u16, ReadError> {
        let _alloc = alloc;
        match r.take_u16() {
            Some(n) => Ok(n),
            None => Err(ReadError::Malformed),
        }
    }
}

// Numbers of two bytes, in their order.
#[derive(Clone, Copy)]
struct Number(u16);

impl Below for Number {
    ghost below = { λ a b. nat_lt a.0 b.0 };

    fn below(&self, other: &Number) -> bool {
        self.0 < other.0
    }
}

// The contexts of at most three numbers.
const CONTEXTS: [Numbers; 3] = [Numbers; 3];

fn contexts(count: u8) -> &'static [Numbers] {
    CONTEXTS.get(..usize::from(count)).unwrap_or(&[])
}

// The numbers, and how many bytes are left.
fn text_of(alloc: Global, numbers: &[u16], left: usize) -> Result<String, AllocError> {
    let mut text = String::new(alloc);
    for number in numbers {
        let digits = format!(in alloc; "{number} ")?;
        text.push_str(digits.as_str())?;
    }
    let end = format!(in alloc; "left {left}")?;
    text.push_str(end.as_str())?;
    Ok(text)
}

/// Numbers behind their count, which is at most the limit.
pub(crate) fn list_text(alloc: Global, limit: u8, bytes: &[u8]) -> Result<String, ReadError> {
    let mut r = FieldReader::new(bytes);
    let numbers = read_list(alloc, &Numbers, u32::from(limit), &mut r)?;
    Ok(text_of(alloc, numbers.as_slice(), r.left())?)
}

/// So many numbers.
pub(crate) fn items_text(alloc: Global, count: u8, bytes: &[u8]) -> Result<String, ReadError> {
    let mut r = FieldReader::new(bytes);
    let numbers = read_items(alloc, &Numbers, u32::from(count), &mut r)?;
    Ok(text_of(alloc, numbers.as_slice(), r.left())?)
}

/// A number for each of so many contexts.
pub(crate) fn each_text(alloc: Global, count: u8, bytes: &[u8]) -> Result<String, ReadError> {
    let mut r = FieldReader::new(bytes);
    let numbers = read_each(alloc, contexts(count), &mut r)?;
    Ok(text_of(alloc, numbers.as_slice(), r.left())?)
}

/// The same behind their count.
pub(crate) fn counted_text(alloc: Global, count: u8, bytes: &[u8]) -> Result<String, ReadError> {
    let mut r = FieldReader::new(bytes);
    let numbers = read_counted(alloc, contexts(count), &mut r)?;
    Ok(text_of(alloc, numbers.as_slice(), r.left())?)
}

fn are_rising(alloc: Global, numbers: &[u16]) -> Result<bool, AllocError> {
    let mut ordered = Vec::new(alloc);
    for number in numbers {
        ordered.push(Number(*number))?;
    }
    Ok(rise(ordered.as_slice()))
}

/// Whether so many numbers rise.
pub(crate) fn rising_text(alloc: Global, count: u8, bytes: &[u8]) -> Result<String, ReadError> {
    let mut r = FieldReader::new(bytes);
    let numbers = read_items(alloc, &Numbers, u32::from(count), &mut r)?;
    let rising = are_rising(alloc, numbers.as_slice())?;
    Ok(format!(in alloc; "{rising}")?)
}
