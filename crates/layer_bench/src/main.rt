//! What `bench/layers.sh` times: makes seeded rows of eight dimensions, a price and a seller, then their base cuboid and the
//! cuboids of seven, six and five dimensions, layer by layer. On standard output it tells how many rows the cuboids have,
//! on standard error how long the base and the layers took. It is no part of the product.
#![tactic(auto)]

ghost use Rattle.std.specs.Prelude.{◌≤◌, ◌<◌, All, IfOk, IfSome, length};
ghost use Rattle.layer_builder.specs.Layers.{HasParent};

use agg_group::Mask;
use cell_store::CellTable;
use cube_val::{ColType, Row, TextVal, Val};
use dim_dictionary::{Dict, DictSet};
use layer_builder::{Want, base, layer};
use plain_answer::{Agg, AggKind, FlatRows};
use std::alloc::{AllocError, Global};
use std::thread::Threads;
use std::time::Instant;
use std::{env, io};

// How many different values each dimension has.
const VALUES: [u64; 8] = [12, 5, 6, 4, 3, 8, 2, 5];

// How many sellers there are.
const SELLERS: u64 = 2000;

// COUNT, the known prices and sellers, SUM, MIN and MAX of the prices, and the different sellers: what a cube keeps that is asked for these.
const AGGS: [Agg; 7] = [
    Agg {
        kind: AggKind::Count,
        column: None,
        ty: ColType::Int,
    },
    Agg {
        kind: AggKind::Known,
        column: Some(8),
        ty: ColType::Int,
    },
    Agg {
        kind: AggKind::Known,
        column: Some(9),
        ty: ColType::Int,
    },
    Agg {
        kind: AggKind::Sum,
        column: Some(8),
        ty: ColType::Int,
    },
    Agg {
        kind: AggKind::Min,
        column: Some(8),
        ty: ColType::Int,
    },
    Agg {
        kind: AggKind::Max,
        column: Some(8),
        ty: ColType::Int,
    },
    Agg {
        kind: AggKind::Distinct,
        column: Some(9),
        ty: ColType::Int,
    },
];

// The next number of the generator, below a bound.
fn next(state: &mut u64, bound: u64) -> u64
    requires { 0 < bound }
    ensures { result < bound }
{
    *state = state
        .wrapping_mul(6364136223846793005)
        .wrapping_add(1442695040888963407);
    (*state >> 33) % bound
}

// The text of a dimension's value: a letter.
fn text(alloc: Global, number: u64) -> Result<Val, AllocError>
    requires { number < 26 }
{
    match TextVal::new(alloc, &[b'a' + number as u8]) {
        Ok(text) => Ok(Val::Text(text)),
        Err(_) => Err(AllocError),
    }
}

// A row: eight dimensions, a price and a seller.
fn row(alloc: Global, state: &mut u64) -> Result<Row, AllocError> {
    let mut row = Row::new(alloc);
    for values in VALUES {
        row.push(text(alloc, next(state, values.clamp(1, 26)))?)?;
    }
    row.push(Val::Int(next(state, 100_000) as i64))?;
    row.push(Val::Int(next(state, SELLERS) as i64))?;
    Ok(row)
}

fn rows(alloc: Global, count: u64) -> Result<FlatRows, AllocError> {
    let mut flat = FlatRows::new(alloc);
    let mut state = 1;
    for _ in 0..count {
        flat.push(row(alloc, &mut state)?)?;
    }
    Ok(flat)
}

// The dictionary of a column.
fn dictionary(alloc: Global, flat: &FlatRows, column: usize) -> Result<Dict, AllocError> {
    let mut values = Vec::new(alloc);
    for row in flat.rows() {
        if let Some(v) = row.vals().get(column) {
            values.push(v.copy()?)?;
        }
    }
    if values.len() > 1_000_000_000 {
        return Err(AllocError);
    }
    Dict::from_values(alloc, &values)
}

// The dictionaries of the dimensions, and that of the sellers.
fn dictionaries(alloc: Global, flat: &FlatRows) -> Result<DictSet, AllocError> {
    let mut dicts = Vec::new(alloc);
    for column in [0, 1, 2, 3, 4, 5, 6, 7, 9] {
        dicts.push(dictionary(alloc, flat, column)?)?;
    }
    Ok(DictSet::new(dicts))
}

// The base cuboid, alone.
fn first<R: Threads + Sync>(
    rt: &R,
    alloc: Global,
    flat: &FlatRows,
    dicts: &DictSet,
    pieces: u32,
) -> Result<Vec<CellTable>, AllocError>
    requires { 0 < pieces }
{
    if dicts.len() != 9 || flat.len() > 1_000_000_000 {
        return Err(AllocError);
    }
    let mut tables = Vec::new(alloc);
    tables.push(base(rt, alloc, flat, dicts, &AGGS, pieces)?)?;
    Ok(tables)
}

// The place of the table with the fewest rows that has these dimensions.
fn parent_of(parents: &[CellTable], mask: Mask) -> Option<usize>
    ensures { IfSome result (λ place. HasParent parents.now (record { mask = mask; parent = place })) }
{
    let mut best = None;
    let mut least = usize::MAX;
    for (place, table) in parents.iter().enumerate() {
        let len = table.len();
        if mask.within(table.mask()) && len < least {
            best = Some(place);
            least = len;
        }
    }
    best
}

// The cuboids of so many dimensions, each from the smallest parent.
fn wants(alloc: Global, parents: &[CellTable], dimensions: u32) -> Result<Vec<Want>, AllocError>
    ensures { IfOk result (λ wants. All (HasParent parents.now) wants.items) }
{
    let mut wants = Vec::new(alloc);
    for number in 1..255 {
        let mask = Mask(number);
        if mask.count() == dimensions {
            if let Some(parent) = parent_of(parents, mask) {
                wants.push(Want { mask, parent })?;
            }
        }
    }
    Ok(wants)
}

// How many rows tables have.
fn rows_of(tables: &[CellTable]) -> u64 {
    let mut rows = 0u64;
    for table in tables {
        rows = rows.saturating_add(table.len() as u64);
    }
    rows
}

fn main(rt: HostRuntime) -> io::Result<()> {
    let alloc = rt.alloc();
    let mut words = env::args(&rt)?.skip(1);
    let (Some(count), Some(pieces)) = (words.next(), words.next()) else {
        return println!(rt; "usage: layer_bench ROWS PIECES");
    };
    let pieces = pieces.parse::<u32>().unwrap_or(1).max(1);
    let flat = rows(alloc, count.parse::<u64>().unwrap_or(1))?;
    let dicts = dictionaries(alloc, &flat)?;
    let mut begun = Instant::now(&rt)?;
    let mut tables = first(&rt, alloc, &flat, &dicts, pieces)?;
    for dimensions in [7u32, 6, 5, 4] {
        let took = begun.elapsed(&rt)?.as_millis();
        eprintln!(rt; "{took} ms")?;
        println!(rt; "{} cuboids, {} rows", tables.len(), rows_of(&tables))?;
        if dimensions > 4 {
            begun = Instant::now(&rt)?;
            let wants = wants(alloc, &tables, dimensions)?;
            tables = layer(&rt, alloc, &tables, &wants, pieces)?;
        }
    }
    Ok(())
}
