// Rows that tests of their keys pick, beside a look at each row.

ghost use Rattle.std.specs.Prelude.{◌≡◌, ◌<◌, ◌≤◌, All, IfOk, length};
ghost use Rattle.agg_group.specs.Mask.{count_of};
ghost use Rattle.cell_store.specs.Selects.{row_at};

use crate::cuboids::dictionaries;
use crate::numbers::{passing_numbers, put_cells};
use crate::plain::MOST_ROWS;
use cell_store::{CellTable, IdSpan, IdTest, Picked, Steps};
use check_lines::{Words, known, parsed, unknown_line};
use cube_val::{ColType, Row, Val};
use dim_dictionary::DictSet;
use layer_builder::base;
use plain_answer::{Agg, AggKind, FlatRows};
use std::alloc::{AllocError, Global};
use std::io;
use std::io::Write;
use std::marker::Brand;
use std::sync::ledger::{Blank, Ledger};
use std::thread::Threads;

// COUNT alone.
const COUNTED: [Agg; 1] = [Agg {
    kind: AggKind::Count,
    column: None,
    ty: ColType::Int,
}];

// A row of three dimensions: its number, and what is left of it by 7 and by 3.
fn numbered_row(alloc: Global, number: u32) -> Result<Row, AllocError> {
    let mut row = Row::new(alloc);
    for id in [number, number % 7, number % 3] {
        row.push(Val::Int(i64::from(id)))?;
    }
    Ok(row)
}

// So many rows.
fn numbered_rows(alloc: Global, count: u32) -> Result<FlatRows, AllocError> {
    let mut flat = FlatRows::new(alloc);
    for number in 0..count {
        flat.push(numbered_row(alloc, number)?)?;
    }
    Ok(flat)
}

// The base cuboid of the rows.
fn base_of<R: Threads + Sync>(
    rt: &R,
    alloc: Global,
    flat: &FlatRows,
    dicts: &DictSet,
) -> io::Result<CellTable> {
    if dicts.len() != 3 || flat.len() > MOST_ROWS {
        return Err(unknown_line());
    }
    Ok(base(rt, alloc, flat, dicts, &COUNTED, 1)?)
}

// The table of so many rows. Each number of a key is the value itself.
fn numbered_table<R: Threads + Sync>(rt: &R, alloc: Global, count: u32) -> io::Result<CellTable> {
    let flat = numbered_rows(alloc, count)?;
    let dicts = dictionaries(alloc, &flat, &[0, 1, 2])?;
    base_of(rt, alloc, &flat, &dicts)
}

// A span.
fn span_of(word: &str) -> io::Result<IdSpan> {
    let (from, to) = known(word.split_once('-'))?;
    let from = parsed(from)?;
    let to = parsed(to)?;
    Ok(IdSpan { from, to })
}

// The spans between commas.
fn spans_of(alloc: Global, words: &str) -> io::Result<Vec<IdSpan>> {
    let mut spans = Vec::new(alloc);
    if words.is_empty() {
        return Ok(spans);
    }
    for word in words.split(',') {
        spans.push(span_of(word)?)?;
    }
    Ok(spans)
}

// A test of one of so many columns.
fn test_of(alloc: Global, word: &str, columns: usize) -> io::Result<IdTest>
    ensures { IfOk result (λ test. test.column < columns) }
{
    let (column, spans) = known(word.split_once(':'))?;
    let column = parsed::<usize>(column)?;
    if column >= columns {
        return Err(unknown_line());
    }
    let spans = spans_of(alloc, spans)?;
    Ok(IdTest { column, spans })
}

// The tests between spaces.
fn tests_of(alloc: Global, words: &str, columns: usize) -> io::Result<Vec<IdTest>>
    ensures { IfOk result (λ tests. All (λ test. test.column < columns) tests.items) }
{
    let mut tests = Vec::new(alloc);
    if words.is_empty() {
        return Ok(tests);
    }
    for word in words.split(' ') {
        let test = test_of(alloc, word, columns)?;
        tests.push(test)?;
    }
    Ok(tests)
}

// Whether the row picked before a picked row stands elsewhere than just before it.
fn begins(picked: &Picked<'_>, k: usize) -> bool
    requires { k < length picked.now.places }
{
    k == 0 || picked.place(k - 1).wrapping_add(1) != picked.place(k)
}

// Whether the row picked next stands elsewhere than just behind a picked row.
fn ends(picked: &Picked<'_>, k: usize) -> bool
    requires { k < length picked.now.places }
{
    let last = picked.len() - 1;
    k >= last || picked.place(k).wrapping_add(1) != picked.place(k + 1)
}

// Writes the first place of a run of picked rows, or the place behind its last, where the row is that.
fn put_place<W: Write>(picked: &Picked<'_>, k: usize, out: &mut W) -> io::Result<()>
    requires { k < length picked.now.places }
{
    if begins(picked, k) {
        write!(out, " {}", picked.place(k))?;
    }
    if ends(picked, k) {
        write!(out, "-{}", picked.place(k).wrapping_add(1))?;
    }
    Ok(())
}

// Writes how many rows are picked, and their places as runs.
fn put_places<W: Write>(picked: &Picked<'_>, out: &mut W) -> io::Result<()> {
    write!(out, "{}", picked.len())?;
    for k in 0..picked.len() {
        put_place(picked, k, out)?;
    }
    Ok(())
}

// Adds the numbers of the key and the cells of a picked row.
fn put_picked(
    numbers: &mut Vec<i128>,
    picked: &Picked<'_>,
    k: usize,
    columns: usize,
) -> Result<(), AllocError>
    requires place { k < length picked.now.rows }
    requires columns { columns ≤ length (row_at picked.now.rows k).0 }
{
    for column in 0..columns {
        numbers.push(i128::from(picked.id(k, column)))?;
    }
    put_cells(numbers, picked.cells(k))
}

// The numbers of the keys and cells of the picked rows, as they show them.
fn picked_numbers(
    alloc: Global,
    picked: &Picked<'_>,
    columns: usize,
) -> Result<Vec<i128>, AllocError>
    requires { All (λ row. length row.0 ≡ columns) picked.now.rows }
{
    let mut numbers = Vec::new(alloc);
    for k in 0..picked.len() {
        put_picked(&mut numbers, picked, k, columns)?;
    }
    Ok(numbers)
}

// Whether the picked rows are those that a look at each row finds, with their keys and cells.
fn are_passing(
    alloc: Global,
    picked: &Picked<'_>,
    table: &CellTable,
    tests: &[IdTest],
) -> Result<bool, AllocError>
    requires { All (λ row. length row.0 ≡ count_of table.now.mask) picked.now.rows }
{
    let shown = picked_numbers(alloc, picked, table.mask().count() as usize)?;
    let passing = passing_numbers(alloc, table, tests)?;
    Ok(shown.as_slice() == passing.as_slice())
}

// Writes which rows of a table the tests pick.
fn put_selected<L: Ledger, W: Write>(
    alloc: Global,
    table: &CellTable,
    tests: &[IdTest],
    blank: Blank,
    out: &mut W,
) -> io::Result<()>
    requires tests { All (λ test. test.column < count_of table.now.mask) tests.now }
    requires blank { (blank.name ≡ L.name) × (blank.parts ≡ L.parts) × (0 < L.parts) }
{
    let mut steps = Steps::<L>::new(blank);
    let picked = table.select(tests, &mut steps)?;
    put_places(&picked, out)?;
    let word = if are_passing(alloc, &picked, table, tests)? {
        "same"
    } else {
        "others"
    };
    writeln!(out, "; {word}")
}

/// Writes which rows of a table of numbered rows the tests pick, and whether a look at each row finds the same.
pub(crate) fn answer_select<R: Threads + Sync, W: Write>(
    rt: &R,
    alloc: Global,
    words: Words<'_>,
    out: &mut W,
) -> io::Result<()> {
    let mut words = words;
    let table = numbered_table(rt, alloc, words.number()?)?;
    let columns = table.mask().count() as usize;
    let tests = tests_of(alloc, words.rest(), columns)?;
    put_selected::<Brand, W>(alloc, &table, tests.as_slice(), Blank::new(1), out)
}
