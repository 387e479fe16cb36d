//! Says of each line of standard input what the libraries of days, values, tables and lookups make of it.
//!
//! A line is a word for the call and then what it is called with. Bytes stand percent-encoded, so that `%0A` is a line feed; they are
//! printed so too.
//!
//! - `day`, `later`, `range`, `overlap` and `ranges` are answered by the module `days`: days, ranges of them and lists of ranges.
//! - `value`, `units`, `order`, `row`, `rows`, `name`, `columns` and `places` by `values`: values, rows, tables and forms.
//! - `table` and `long` by `tables`: the rows of a table file, or its first fault.
//! - `lookup`, `find` and `same` by `lookups`: the rows of a lookup by their keys.
//!
//! Where a line is none of these, or memory runs out, the program ends with status 1. It is no part of the product.
#![tactic(auto)]

mod days;
mod lookups;
mod tables;
mod values;
mod words;

use check_lines::{Answerer, Words, answer_lines, unknown_line};
use std::alloc::Global;
use std::io;
use std::io::Write;

/// What answers the lines. It keeps nothing from one line to the next.
#[derive(Drop)]
struct ValueCheck;

// Answers a line about values.
fn answer_of_values<W: Write>(
    alloc: Global,
    call: &str,
    words: &mut Words<'_>,
    out: &mut W,
) -> io::Result<()> {
    match call {
        "value" => values::answer_value(alloc, words, out),
        "units" => values::answer_units(alloc, words.rest(), out),
        "order" => values::answer_order(alloc, words, out),
        "row" => values::answer_row(alloc, words.rest(), out),
        "rows" => values::answer_rows(alloc, words.rest(), out),
        "name" => values::answer_name(alloc, words.rest(), out),
        "columns" => values::answer_columns(alloc, words.rest(), out),
        "places" => values::answer_places(alloc, words.rest(), out),
        _ => Err(unknown_line()),
    }
}

// Answers a line about days, tables and lookups, or one about values.
fn answer_call<W: Write>(
    alloc: Global,
    call: &str,
    words: &mut Words<'_>,
    out: &mut W,
) -> io::Result<()> {
    match call {
        "day" => days::answer_day(words.rest(), out),
        "later" => days::answer_later(words, out),
        "range" => days::answer_range(words, out),
        "overlap" => days::answer_overlap(words, out),
        "ranges" => days::answer_ranges(alloc, words.rest(), out),
        "table" => tables::answer_table(alloc, words, out),
        "long" => tables::answer_long(alloc, words, out),
        "lookup" => lookups::answer_lookup(alloc, words.rest(), out),
        "find" => lookups::answer_find(alloc, words, out),
        "same" => lookups::answer_same(alloc, words, out),
        _ => answer_of_values(alloc, call, words, out),
    }
}

impl Answerer for ValueCheck {
    fn answer<W: Write>(&mut self, alloc: Global, line: &[u8], out: &mut W) -> io::Result<()> {
        let mut words = Words::new(line)?;
        let call = words.next()?;
        answer_call(alloc, call, &mut words, out)?;
        out.write_all(b"\n")
    }
}

fn main(rt: HostRuntime) -> io::Result<()> {
    answer_lines(&rt, rt.alloc(), &mut ValueCheck)
}
