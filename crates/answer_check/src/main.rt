//! Answers asks of rows by the definition, each as a line of standard input says it (`check_lines`).
//!
//! The rows have four columns: REGION (texts), SELLER (whole numbers), PRICE (decimals, in units of 1/10000) and DAY (dates). The
//! lines:
//!
//! - `row REGION|SELLER|PRICE|DAY` adds a row, where `null` is no value, and says how many rows there are.
//! - `ask PART; PART; ..` asks the rows, and writes the rows of the answer between bars, with a comma between two values. The parts,
//!   of which any may be left out: `where CONDITION`, `group COLUMN ..`, `aggregates AGGREGATE ..`, `show TERM ..`,
//!   `having CONDITION`, `order KEY ..` and `limit NUMBER`.
//! - `project MASK AGGREGATE ..` aggregates the rows by the columns whose numbers are the bits of the mask, and writes of each group
//!   how many values its key has, and its aggregates.
//!
//! A term is the name of a column, or `#` and the number of an aggregate from 0; a key of the order is a term behind `rising:` or
//! `falling:`. An aggregate is `count`, or `known:`, `sum:`, `min:`, `max:`, `distinct:` or `average:` and a column. A condition is in postfix
//! form: a test, or one or two conditions and then `not`, `and` or `or`. A test is `null:TERM`, `any:TERM:LITERAL:LITERAL:..`, or
//! `eq`, `ne`, `lt`, `le`, `gt` or `ge` in `eq:TERM:LITERAL`. A literal is a number in units of 1/10000, or else a text.
#![tactic(auto)]

mod asks;
mod conditions;
mod shown;
mod terms;

use crate::asks::{ask_of, forms_of};
use crate::shown::{put_groups, put_table};
use crate::terms::{mask_of, number_of};
use agg_group::Mask;
use check_lines::{Answerer, Words, answer_lines, unknown_line};
use cube_val::{Row, TextVal, Val};
use plain_answer::{Agg, Ask, FlatRows, aggregate, plain};
use std::alloc::Global;
use std::io;
use std::io::Write;

// The most rows that are asked.
const MOST_ROWS: usize = 10_000;

// The rows that are asked.
#[derive(Drop)]
struct AskedRows {
    rows: FlatRows,
}

// A text, and a null for `null`.
fn text_or_null(alloc: Global, field: &str) -> io::Result<Val> {
    if field == "null" {
        return Ok(Val::Null);
    }
    match TextVal::new(alloc, field.as_bytes()) {
        Ok(text) => Ok(Val::Text(text)),
        Err(_) => Err(unknown_line()),
    }
}

// A number, and a null for `null`.
fn number_or_null(field: &str) -> io::Result<Val> {
    if field == "null" {
        return Ok(Val::Null);
    }
    match i64::try_from(number_of(field)?) {
        Ok(number) => Ok(Val::Int(number)),
        Err(_) => Err(unknown_line()),
    }
}

// The value of a field in the column at a place.
fn value_of(alloc: Global, place: usize, field: &str) -> io::Result<Val> {
    if place == 1 || place == 2 {
        number_or_null(field)
    } else {
        text_or_null(alloc, field)
    }
}

// The row of fields with a bar between two.
fn row_of(alloc: Global, fields: &str) -> io::Result<Row> {
    let mut row = Row::new(alloc);
    for field in fields.split('|') {
        let v = value_of(alloc, row.len(), field)?;
        row.push(v)?;
    }
    Ok(row)
}

// Writes the answer of an ask.
fn put_answer<W: Write>(alloc: Global, ask: &Ask, rows: &[Row], out: &mut W) -> io::Result<()> {
    if rows.len() > MOST_ROWS {
        return Err(unknown_line());
    }
    let table = plain(alloc, ask, rows)?;
    put_table(alloc, &table, out)
}

// Writes the groups of rows.
fn put_projection<W: Write>(
    alloc: Global,
    mask: Mask,
    forms: &[Agg],
    rows: &[Row],
    out: &mut W,
) -> io::Result<()> {
    if rows.len() > MOST_ROWS {
        return Err(unknown_line());
    }
    let groups = aggregate(alloc, mask, forms, rows)?;
    put_groups(alloc, &groups, out)
}

impl AskedRows {
    // Adds a row.
    fn add<W: Write>(&mut self, alloc: Global, fields: &str, out: &mut W) -> io::Result<()> {
        let row = row_of(alloc, fields)?;
        self.rows.push(row)?;
        writeln!(out, "{}", self.rows.len())
    }

    // Answers an ask.
    fn ask<W: Write>(&self, alloc: Global, parts: &str, out: &mut W) -> io::Result<()> {
        let ask = ask_of(alloc, parts)?;
        put_answer(alloc, &ask, self.rows.rows(), out)
    }

    // Aggregates the rows.
    fn project<W: Write>(&self, alloc: Global, words: &str, out: &mut W) -> io::Result<()> {
        let Some((mask, words)) = words.split_once(' ') else {
            return Err(unknown_line());
        };
        let mask = mask_of(mask)?;
        let forms = forms_of(alloc, words)?;
        put_projection(alloc, mask, forms.as_slice(), self.rows.rows(), out)
    }
}

impl Answerer for AskedRows {
    fn answer<W: Write>(&mut self, alloc: Global, line: &[u8], out: &mut W) -> io::Result<()> {
        let mut words = Words::new(line)?;
        match words.next()? {
            "row" => self.add(alloc, words.rest(), out),
            "ask" => self.ask(alloc, words.rest(), out),
            "project" => self.project(alloc, words.rest(), out),
            _ => Err(unknown_line()),
        }
    }
}

fn main(rt: HostRuntime) -> io::Result<()> {
    let alloc = rt.alloc();
    let mut asked = AskedRows {
        rows: FlatRows::new(alloc),
    };
    answer_lines(&rt, alloc, &mut asked)
}
