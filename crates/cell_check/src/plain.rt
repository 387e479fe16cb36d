// Seeded rows, and their aggregates by the definition.

ghost use Rattle.std.specs.Prelude.{◌<◌};

use crate::numbers::put_groups;
use agg_group::Mask;
use check_lines::{Words, unknown_line};
use cube_val::{ColType, Row, Val};
use plain_answer::{Agg, AggKind, FlatRows, aggregate};
use std::alloc::{AllocError, Global};
use std::io;
use std::io::Write;

/// COUNT_DISTINCT of the sellers, the known prices, MAX, MIN and SUM of them, the known sellers, and COUNT, where the prices are
/// column 4 and the sellers column 5.
pub(crate) const SEEDED: [Agg; 7] = [
    Agg {
        kind: AggKind::Distinct,
        column: Some(5),
        ty: ColType::Int,
    },
    Agg {
        kind: AggKind::Known,
        column: Some(4),
        ty: ColType::Int,
    },
    Agg {
        kind: AggKind::Max,
        column: Some(4),
        ty: ColType::Int,
    },
    Agg {
        kind: AggKind::Min,
        column: Some(4),
        ty: ColType::Int,
    },
    Agg {
        kind: AggKind::Sum,
        column: Some(4),
        ty: ColType::Int,
    },
    Agg {
        kind: AggKind::Known,
        column: Some(5),
        ty: ColType::Int,
    },
    Agg {
        kind: AggKind::Count,
        column: None,
        ty: ColType::Int,
    },
];

/// The number after that of the set of all four dimensions.
pub(crate) const SETS: u64 = 16;

/// The most rows that are made.
pub(crate) const MOST_ROWS: usize = 10_000;

// How many different values each of four dimensions has. A value's number in its dictionary is the value.
const VALUES: [u32; 4] = [5, 3, 7, 4];

/// Seeded rows, and the numbers of their aggregates on each set of the four dimensions, one set after another.
#[derive(Drop)]
pub(crate) struct PlainCuboids {
    rows: FlatRows,
    numbers: Vec<i128>,
}

// The next number of a generator, below a bound.
fn next(state: &mut u64, bound: u32) -> i64
    requires { 0 < bound }
{
    *state = state
        .wrapping_mul(6364136223846793005)
        .wrapping_add(1442695040888963407);
    ((*state >> 33) % u64::from(bound)) as i64
}

// A number, or a hole in place of every third one.
fn with_holes(state: &mut u64, holes: bool, number: i64) -> Val {
    if holes && next(state, 3) == 0 {
        Val::Null
    } else {
        Val::Int(number)
    }
}

// A row of four dimensions, a price and a seller.
fn seeded_row(alloc: Global, state: &mut u64, holes: bool) -> Result<Row, AllocError> {
    let mut row = Row::new(alloc);
    for values in VALUES {
        row.push(Val::Int(next(state, values.max(1))))?;
    }
    let price = next(state, 2000).wrapping_sub(1000);
    row.push(with_holes(state, holes, price))?;
    let seller = next(state, 50);
    row.push(with_holes(state, holes, seller))?;
    Ok(row)
}

// So many rows.
fn seeded(alloc: Global, count: u32, holes: bool) -> Result<FlatRows, AllocError> {
    let mut flat = FlatRows::new(alloc);
    let mut state = 7;
    for _ in 0..count {
        let row = seeded_row(alloc, &mut state, holes)?;
        flat.push(row)?;
    }
    Ok(flat)
}

// Adds the numbers of the aggregates on a set of dimensions.
fn put_numbers(
    alloc: Global,
    numbers: &mut Vec<i128>,
    flat: &FlatRows,
    dims: Mask,
) -> io::Result<()> {
    let rows = flat.rows();
    if rows.len() > MOST_ROWS {
        return Err(unknown_line());
    }
    let groups = aggregate(alloc, dims, &SEEDED, rows)?;
    put_groups(numbers, &groups)?;
    Ok(())
}

// The numbers of the aggregates on each set of the four dimensions.
fn numbers_of(alloc: Global, flat: &FlatRows) -> io::Result<Vec<i128>> {
    let mut numbers = Vec::new(alloc);
    for set in 1..SETS {
        put_numbers(alloc, &mut numbers, flat, Mask(set))?;
    }
    Ok(numbers)
}

impl PlainCuboids {
    /// Of no row.
    pub(crate) fn new(alloc: Global) -> PlainCuboids {
        PlainCuboids {
            rows: FlatRows::new(alloc),
            numbers: Vec::new(alloc),
        }
    }

    /// The rows.
    pub(crate) fn rows(&self) -> &FlatRows {
        &self.rows
    }

    /// Makes so many rows, where holes are asked for with a third of the prices and of the sellers null, and writes how many
    /// numbers their aggregates have.
    pub(crate) fn answer<W: Write>(
        &mut self,
        alloc: Global,
        words: Words<'_>,
        holes: bool,
        out: &mut W,
    ) -> io::Result<()> {
        let mut words = words;
        self.rows = seeded(alloc, words.number()?, holes)?;
        self.numbers = numbers_of(alloc, &self.rows)?;
        writeln!(out, "{}", self.numbers.len())
    }

    /// Whether these are the numbers of the aggregates.
    pub(crate) fn has(&self, numbers: &[i128]) -> bool {
        self.numbers.as_slice() == numbers
    }
}
