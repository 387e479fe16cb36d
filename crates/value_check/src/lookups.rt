// The rows of a lookup by their keys.

ghost use Rattle.std.specs.Prelude.{◌≡◌, All, IfOk, length};

use crate::values::{put_value, read_in};
use crate::words::sides;
use check_lines::Words;
use cube_val::{ColType, Row, Table, Val};
use lookup_snap::LookupSnap;
use std::alloc::{AllocError, Global};
use std::io;
use std::io::Write;

// A row of two values.
fn pair(alloc: Global, first: Val, second: Val) -> Result<Row, AllocError>
    ensures { IfOk result (λ row. length row ≡ 2) }
{
    let mut row = Row::new(alloc);
    row.push(first)?;
    row.push(second)?;
    Ok(row)
}

// The row of a number and a text, which stand on both sides of an equals sign.
fn row_in(alloc: Global, word: &str) -> io::Result<Row>
    ensures { IfOk result (λ row. length row ≡ 2) }
{
    let (number, text) = sides(word, '=')?;
    let number = read_in(alloc, ColType::Int, number)?;
    let text = read_in(alloc, ColType::Text, text)?;
    let row = pair(alloc, number, text)?;
    Ok(row)
}

// The rows that a word writes, with commas between them.
fn rows_in(alloc: Global, word: &str) -> io::Result<Vec<Row>>
    ensures { IfOk result (λ rows. All (λ row. length row ≡ 2) rows.items) }
{
    let mut rows = Vec::new(alloc);
    for row in word.split(',') {
        rows.push(row_in(alloc, row)?)?;
    }
    Ok(rows)
}

// The lookup of the rows that a word writes, by their numbers.
fn lookup_in(alloc: Global, word: &str) -> io::Result<LookupSnap> {
    let rows = rows_in(alloc, word)?;
    let snap = LookupSnap::make(alloc, &Table::of(rows), &[0], &[1])?;
    Ok(snap)
}

// Writes the values of a row, with commas between them.
fn put_row<W: Write>(alloc: Global, row: &Row, out: &mut W) -> io::Result<()> {
    let mut between: &[u8] = b"";
    for v in row.vals() {
        out.write_all(between)?;
        put_value(alloc, v, out)?;
        between = b",";
    }
    Ok(())
}

/// `lookup NUMBER=TEXT,..`: how many keys there are, whether there is none, and the keys with their values in their order.
pub fn answer_lookup<W: Write>(alloc: Global, words: &str, out: &mut W) -> io::Result<()> {
    let snap = lookup_in(alloc, words)?;
    put_entries(alloc, &snap, out)
}

// Writes how many keys there are, whether there is none, and the keys with their values.
fn put_entries<W: Write>(alloc: Global, snap: &LookupSnap, out: &mut W) -> io::Result<()> {
    write!(out, "{} {}", snap.len(), snap.is_empty())?;
    for i in 0..snap.len() {
        let (key, values) = snap.entry(i);
        out.write_all(b" ")?;
        put_row(alloc, key, out)?;
        out.write_all(b"=")?;
        put_row(alloc, values, out)?;
    }
    Ok(())
}

/// `find NUMBER=TEXT,.. NUMBER ..`: the values at each key, or `none`.
pub fn answer_find<W: Write>(alloc: Global, words: &mut Words<'_>, out: &mut W) -> io::Result<()> {
    let snap = lookup_in(alloc, words.next()?)?;
    put_all_found(alloc, &snap, words.rest(), out)
}

// Writes the values at each key that a word writes, or `none`.
fn put_all_found<W: Write>(
    alloc: Global,
    snap: &LookupSnap,
    keys: &str,
    out: &mut W,
) -> io::Result<()> {
    let mut between: &[u8] = b"";
    for key in keys.split(' ') {
        out.write_all(between)?;
        put_found(alloc, snap, key, out)?;
        between = b" ";
    }
    Ok(())
}

// The key that a word writes.
fn key_in(alloc: Global, word: &str) -> io::Result<Row> {
    let mut key = Row::new(alloc);
    key.push(read_in(alloc, ColType::Int, word)?)?;
    Ok(key)
}

// Writes the values at the key that a word writes, or `none`.
fn put_found<W: Write>(
    alloc: Global,
    snap: &LookupSnap,
    word: &str,
    out: &mut W,
) -> io::Result<()> {
    let key = key_in(alloc, word)?;
    match snap.find(&key) {
        Some(values) => put_row(alloc, values, out),
        None => out.write_all(b"none"),
    }
}

/// `same NUMBER=TEXT,.. NUMBER=TEXT,..`: whether both lookups have the same keys with the same values.
pub fn answer_same<W: Write>(alloc: Global, words: &mut Words<'_>, out: &mut W) -> io::Result<()> {
    let first = lookup_in(alloc, words.next()?)?;
    let second = lookup_in(alloc, words.next()?)?;
    write!(out, "{}", first.same(&second))
}
