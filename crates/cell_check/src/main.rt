//! Checks measures, dictionaries, cell tables and cuboids, as lines of standard input say it (`check_lines`).
//!
//! The lines:
//!
//! - `min WORD ..` and `max WORD ..` begin with the extreme of no item, and write its value (`none` for none) and that after each word:
//!   `add:ITEM`, or `merge:ITEMS:VALUE`, which merges the extreme VALUE of so many items.
//! - `ids ID ..` adds the ids to an empty set, and merges it into the set of 2, 4 and 4000000000 of 5 items; it writes how many items
//!   there are then, and the ids.
//! - `row NUMBER` writes the key of a row of a table of two rows, and how many items each of its cells is of.
//! - `dictionary TEXT .. ? TEXT ..` makes the dictionary of the texts before the question mark, where `\N` is null. It writes how many values
//!   there are, and of each text behind the mark its number (`-` for none) and how many values are less.
//! - `merge TEXT .. | TEXT ..` merges the dictionaries of the texts before and behind the bar. It writes how many values there are, and
//!   of each part the new numbers of its values.
//! - `select ROWS TEST ..` picks rows of a table of so many, whose keys are the number of the row and what is left of it by 7 and by 3. A
//!   TEST is `COLUMN:FROM-TO,FROM-TO,..`, with spans of numbers of at least FROM and below TO. It writes how many rows are picked, their
//!   places as runs, each from its first place to that behind its last, and whether a look at each row finds the same keys and cells.
//! - `sales PIECES` makes the base cuboid of three sales in so many pieces, and from it that by regions. It writes the keys and cells of
//!   both, row by row, in numbers; of a COUNT_DISTINCT how many ids there are.
//! - `plain ROWS` makes so many seeded rows of four dimensions and aggregates them by the definition on each set of the dimensions. It writes
//!   how many numbers the keys and values have. `holes ROWS` does so with rows of which a third of the prices and of the sellers are null.
//!   `cuboids PIECES` says whether the cuboids of these rows on the same sets have the same
//!   numbers: as a layer of the base cuboid, regrouped from it one by one, and made of the rows at once.
#![tactic(auto)]

mod cuboids;
mod dictionaries;
mod measures;
mod numbers;
mod plain;
mod sales;
mod selects;
mod table;

use crate::cuboids::answer_cuboids;
use crate::dictionaries::{answer_dictionary, answer_merge};
use crate::measures::{answer_ids, answer_max, answer_min};
use crate::plain::PlainCuboids;
use crate::sales::answer_sales;
use crate::selects::answer_select;
use crate::table::answer_row;
use check_lines::{Words, next_case, unknown_line};
use std::alloc::Global;
use std::io;
use std::io::{BufRead, BufReader, BufWriter, Write};
use std::marker::Brand;
use std::sync::ledger::Blank;
use std::thread::Threads;

// Answers a line about cuboids by its first word.
fn answer_layers<R: Threads + Sync, W: Write>(
    rt: &R,
    alloc: Global,
    plain: &mut PlainCuboids,
    words: Words<'_>,
    out: &mut W,
) -> io::Result<()> {
    let mut words = words;
    match words.next()? {
        "select" => answer_select(rt, alloc, words, out),
        "sales" => answer_sales(rt, alloc, words, out),
        "plain" => plain.answer(alloc, words, false, out),
        "holes" => plain.answer(alloc, words, true, out),
        "cuboids" => answer_cuboids(rt, alloc, plain, words, out),
        _ => Err(unknown_line()),
    }
}

// Answers a line about parts of cuboids, or about cuboids.
fn answer_word<R: Threads + Sync, W: Write>(
    rt: &R,
    alloc: Global,
    plain: &mut PlainCuboids,
    line: Words<'_>,
    out: &mut W,
) -> io::Result<()> {
    let mut words = line;
    match words.next()? {
        "min" => answer_min(alloc, words, out),
        "max" => answer_max(alloc, words, out),
        "ids" => answer_ids(alloc, words, out),
        "row" => answer_row::<Brand, W>(alloc, words, Blank::new(1), out),
        "dictionary" => answer_dictionary(alloc, words.rest(), out),
        "merge" => answer_merge(alloc, words.rest(), out),
        _ => answer_layers(rt, alloc, plain, line, out),
    }
}

// Answers each line.
fn answer_each<R: Threads + Sync, L: BufRead, W: Write>(
    rt: &R,
    alloc: Global,
    plain: &mut PlainCuboids,
    lines: &mut L,
    out: &mut W,
) -> io::Result<()> {
    for _ in 0..u64::MAX {
        let Some(line) = next_case(alloc, lines, out)? else {
            break;
        };
        answer_word(rt, alloc, plain, Words::new(line.as_slice())?, out)?;
    }
    out.flush()
}

fn main(rt: HostRuntime) -> io::Result<()> {
    let alloc = rt.alloc();
    let mut lines = BufReader::new(alloc, rt.reader())?;
    let mut out = BufWriter::new(alloc, io::writer(&rt))?;
    answer_each(
        &rt,
        alloc,
        &mut PlainCuboids::new(alloc),
        &mut lines,
        &mut out,
    )
}
