// Three sales of January, and their cuboids.

ghost use Rattle.std.specs.Prelude.{◌≡◌, ◌<◌, ◌≤◌, length};
ghost use Rattle.layer_builder.specs.Base.{IsBase};

use crate::cuboids::{count_of_pieces, cuboid_of_rows, dictionaries, regrouped};
use crate::numbers::table_numbers;
use agg_group::Mask;
use cell_store::CellTable;
use check_lines::{Words, unknown_line};
use cube_val::{ColType, Row, TextVal, Val};
use dim_dictionary::DictSet;
use layer_builder::base;
use plain_answer::{Agg, AggKind, FlatRows};
use std::alloc::Global;
use std::io;
use std::io::Write;
use std::thread::Threads;

// COUNT, SUM, MIN and MAX of the prices and the different sellers, where the prices are column 3 and the sellers column 4.
const SALES: [Agg; 5] = [
    Agg {
        kind: AggKind::Count,
        column: None,
        ty: ColType::Int,
    },
    Agg {
        kind: AggKind::Sum,
        column: Some(3),
        ty: ColType::Int,
    },
    Agg {
        kind: AggKind::Min,
        column: Some(3),
        ty: ColType::Int,
    },
    Agg {
        kind: AggKind::Max,
        column: Some(3),
        ty: ColType::Int,
    },
    Agg {
        kind: AggKind::Distinct,
        column: Some(4),
        ty: ColType::Int,
    },
];

// The regions alone.
const REGIONS: Mask = Mask(2);

// A text.
fn text(alloc: Global, text: &str) -> io::Result<Val> {
    match TextVal::new(alloc, text.as_bytes()) {
        Ok(text) => Ok(Val::Text(text)),
        Err(_) => Err(unknown_line()),
    }
}

// Adds a text to a row.
fn push_text(alloc: Global, row: &mut Row, t: &str) -> io::Result<()> {
    let v = text(alloc, t)?;
    row.push(v)?;
    Ok(())
}

// A sale: day, region, category, price and seller.
fn sale(alloc: Global, day: &str, region: &str, price: i64, seller: i64) -> io::Result<Row> {
    let mut row = Row::new(alloc);
    for t in [day, region, "toys"] {
        push_text(alloc, &mut row, t)?;
    }
    for number in [price, seller] {
        row.push(Val::Int(number))?;
    }
    Ok(row)
}

// The sales.
fn sales(alloc: Global) -> io::Result<FlatRows> {
    let mut flat = FlatRows::new(alloc);
    for (day, region, price, seller) in [
        ("2012-01-01", "EU", 100_000, 7),
        ("2012-01-01", "EU", 55_000, 8),
        ("2012-01-15", "US", 10_000, 7),
    ] {
        flat.push(sale(alloc, day, region, price, seller)?)?;
    }
    Ok(flat)
}

// Writes the numbers of a table.
fn put_numbers<W: Write>(alloc: Global, table: &CellTable, out: &mut W) -> io::Result<()> {
    for number in &table_numbers(alloc, table)? {
        write!(out, " {number}")?;
    }
    Ok(())
}

// Writes the cuboid by regions, regrouped from the base cuboid and made of the rows.
fn put_regions<R: Threads + Sync, W: Write>(
    rt: &R,
    alloc: Global,
    flat: &FlatRows,
    dicts: &DictSet,
    base: &CellTable,
    pieces: u32,
    out: &mut W,
) -> io::Result<()>
    requires pieces { 0 < pieces }
    requires dims { length dicts.now ≡ 4 }
    requires few { length flat.now ≤ 1000 }
    requires base { IsBase SALES dicts.now flat.now base.now }
{
    out.write_all(b"; regrouped")?;
    put_numbers(alloc, &regrouped(alloc, base, REGIONS)?, out)?;
    out.write_all(b"; of rows")?;
    let regions = cuboid_of_rows(rt, alloc, flat, dicts, &SALES, base, pieces, REGIONS)?;
    put_numbers(alloc, &regions, out)
}

// Writes the base cuboid, and that by regions.
fn put_cuboids<R: Threads + Sync, W: Write>(
    rt: &R,
    alloc: Global,
    flat: &FlatRows,
    dicts: &DictSet,
    pieces: u32,
    out: &mut W,
) -> io::Result<()>
    requires { 0 < pieces }
{
    if dicts.len() != 4 || flat.len() > 1000 {
        return Err(unknown_line());
    }
    let base = base(rt, alloc, flat, dicts, &SALES, pieces)?;
    out.write_all(b"base")?;
    put_numbers(alloc, &base, out)?;
    put_regions(rt, alloc, flat, dicts, &base, pieces, out)
}

/// Writes the base cuboid of the sales, that by regions from it, and that by regions from the rows.
pub(crate) fn answer_sales<R: Threads + Sync, W: Write>(
    rt: &R,
    alloc: Global,
    words: Words<'_>,
    out: &mut W,
) -> io::Result<()> {
    let pieces = count_of_pieces(words)?;
    let flat = sales(alloc)?;
    let dicts = dictionaries(alloc, &flat, &[0, 1, 2, 4])?;
    put_cuboids(rt, alloc, &flat, &dicts, pieces, out)?;
    out.write_all(b"\n")
}
