// The lines of sets of dimensions.

use crate::groups::{are_below, dims};
use crate::words::{number, parted};
use agg_group::{DimList, Mask};
use check_lines::unknown_line;
use std::alloc::Global;
use std::io;
use std::io::Write;

fn mask_of(dims: &DimList) -> io::Result<Mask> {
    let list = dims.as_slice();
    if !are_below(list, 64) {
        return Err(unknown_line());
    }
    Ok(Mask::of(list))
}

fn read_mask(alloc: Global, text: &str) -> io::Result<Mask> {
    let list = dims(alloc, text)?;
    mask_of(&list)
}

pub fn answer_set<W: Write>(alloc: Global, text: &str, out: &mut W) -> io::Result<()> {
    let mask = read_mask(alloc, text)?;
    let (number, count) = (mask.0, mask.count());
    writeln!(out, "set {number}:{count}")
}

pub fn answer_has<W: Write>(alloc: Global, rest: &str, out: &mut W) -> io::Result<()> {
    let (word, text) = parted(rest)?;
    let dimension = number(word)?;
    let mask = read_mask(alloc, text)?;
    let has = mask.has(dimension);
    writeln!(out, "has {has}")
}

/// The mask whose number the word is.
pub fn mask_word(word: &str) -> io::Result<Mask> {
    match word.parse::<u64>() {
        Ok(number) => Ok(Mask(number)),
        Err(_) => Err(unknown_line()),
    }
}

pub fn answer_within<W: Write>(rest: &str, out: &mut W) -> io::Result<()> {
    let (inner, outer) = parted(rest)?;
    let within = mask_word(inner)?.within(mask_word(outer)?);
    writeln!(out, "within {within}")
}
