// Tables and aggregates in numbers, so that they can be compared.

ghost use Rattle.std.specs.Prelude.{◌≡◌, ◌<◌, length};
ghost use Rattle.agg_group.specs.Mask.{count_of};

use cell_store::{Cell, CellTable, IdTest, Steps};
use cube_val::Val;
use measure_laws::Sum;
use plain_answer::{OutVal, PlainRow};
use std::alloc::{AllocError, Global};
use std::marker::Brand;
use std::sync::ledger::{Blank, Ledger};

// What stands for a value that isn't there.
const NONE: i128 = -1;

// The number of a sum.
fn sum_number(sum: &Sum) -> i128 {
    if sum.items() == 0 { NONE } else { sum.value() }
}

// The number of an extreme.
fn extreme_number(extreme: Option<i64>) -> i128 {
    match extreme {
        Some(number) => i128::from(number),
        None => NONE,
    }
}

// The number of a cell; of a set of ids how many they are.
fn cell_number(cell: &Cell) -> i128 {
    match cell {
        Cell::Count(count) | Cell::Known(count) => i128::from(count.value()),
        Cell::Sum(sum) => sum_number(sum),
        Cell::Min(least) => extreme_number(least.value()),
        Cell::Max(greatest) => extreme_number(greatest.value()),
        Cell::Distinct(set) => set.ids().len() as i128,
    }
}

/// Adds the numbers of cells.
pub(crate) fn put_cells(numbers: &mut Vec<i128>, cells: &[Cell]) -> Result<(), AllocError> {
    for cell in cells {
        numbers.push(cell_number(cell))?;
    }
    Ok(())
}

// Adds the numbers of a key and of cells.
fn put_row(numbers: &mut Vec<i128>, key: &[u32], cells: &[Cell]) -> Result<(), AllocError> {
    for id in key {
        numbers.push(i128::from(*id))?;
    }
    put_cells(numbers, cells)
}

// Whether a key passes a test.
fn passes(test: &IdTest, key: &[u32]) -> bool {
    match key.get(test.column) {
        Some(id) => test
            .spans
            .iter()
            .any(|span| span.from <= *id && *id < span.to),
        None => false,
    }
}

// Whether a key passes each of the tests.
fn pass(tests: &[IdTest], key: &[u32]) -> bool {
    tests.iter().all(|test| passes(test, key))
}

// Adds the numbers of the keys and cells of the rows of a table whose keys pass the tests, by a look at each row.
fn put_each<L: Ledger>(
    numbers: &mut Vec<i128>,
    table: &CellTable,
    tests: &[IdTest],
    key: &mut [u32],
    steps: &mut Steps<L>,
) -> Result<(), AllocError>
    requires { length key.old ≡ count_of table.now.mask }
{
    for i in 0..table.len() {
        let cells = table.row(i, key, steps);
        if pass(tests, key) {
            put_row(numbers, key, cells)?;
        }
    }
    Ok(())
}

// Adds the numbers of these rows, with a counter of its own.
fn put_rows<L: Ledger>(
    numbers: &mut Vec<i128>,
    table: &CellTable,
    tests: &[IdTest],
    blank: Blank,
) -> Result<(), AllocError>
    requires { (blank.name ≡ L.name) × (blank.parts ≡ L.parts) × (0 < L.parts) }
{
    let mut steps = Steps::<L>::new(blank);
    let mut key = vec![in *numbers.allocator(); 0; table.mask().count() as usize]?;
    put_each(numbers, table, tests, key.as_mut_slice(), &mut steps)
}

// Adds the numbers of the rows whose keys pass the tests.
fn put_passing(
    numbers: &mut Vec<i128>,
    table: &CellTable,
    tests: &[IdTest],
) -> Result<(), AllocError> {
    put_rows::<Brand>(numbers, table, tests, Blank::new(1))
}

/// Adds the numbers of the keys and cells of a table, row by row.
pub(crate) fn put_table(numbers: &mut Vec<i128>, table: &CellTable) -> Result<(), AllocError> {
    put_passing(numbers, table, &[])
}

/// The numbers of a table.
pub(crate) fn table_numbers(alloc: Global, table: &CellTable) -> Result<Vec<i128>, AllocError> {
    passing_numbers(alloc, table, &[])
}

/// The numbers of the rows of a table whose keys pass the tests.
pub(crate) fn passing_numbers(
    alloc: Global,
    table: &CellTable,
    tests: &[IdTest],
) -> Result<Vec<i128>, AllocError> {
    let mut numbers = Vec::new(alloc);
    put_passing(&mut numbers, table, tests)?;
    Ok(numbers)
}

// The number of a key's value.
fn key_number(v: &Val) -> i128 {
    match v {
        Val::Null => NONE,
        Val::Int(n) => i128::from(*n),
        Val::Text(_) => -2,
    }
}

// The number of an aggregate.
fn value_number(v: &OutVal) -> i128 {
    match v {
        OutVal::Null => NONE,
        OutVal::Whole(n) => *n,
        OutVal::Units(n) => *n,
        OutVal::Text(_) => -2,
    }
}

// Adds the numbers of a group.
fn put_group(numbers: &mut Vec<i128>, group: &PlainRow) -> Result<(), AllocError> {
    for v in group.key.vals() {
        numbers.push(key_number(v))?;
    }
    for v in group.values.as_slice() {
        numbers.push(value_number(v))?;
    }
    Ok(())
}

/// Adds the numbers of the keys and values of groups.
pub(crate) fn put_groups(numbers: &mut Vec<i128>, groups: &[PlainRow]) -> Result<(), AllocError> {
    for group in groups {
        put_group(numbers, group)?;
    }
    Ok(())
}
