// Cuboids in three ways.

ghost use Rattle.std.specs.Prelude.{◌≡◌, ◌<◌, ◌≤◌, ◌+◌, All, IfOk, IfSome, length};
ghost use Rattle.measure_laws.specs.Measures.{most_items};
ghost use Rattle.layer_builder.specs.Base.{IsBase, count_of_distincts};
ghost use Rattle.layer_builder.specs.Layers.{HasParent};

use crate::numbers::put_table;
use crate::plain::{MOST_ROWS, PlainCuboids, SEEDED, SETS};
use agg_group::Mask;
use cell_store::{CellTable, Steps};
use check_lines::{Words, unknown_line};
use cube_val::Val;
use dim_dictionary::{Dict, DictSet};
use layer_builder::{Want, base, cuboid, layer, regroup};
use plain_answer::{Agg, FlatRows};
use std::alloc::{AllocError, Global};
use std::io;
use std::io::Write;
use std::marker::Brand;
use std::sync::ledger::{Blank, Ledger};
use std::thread::Threads;

/// The number of pieces that the next word is.
pub(crate) fn count_of_pieces(words: Words<'_>) -> io::Result<u32>
    ensures { IfOk result (λ pieces. 0 < pieces) }
{
    let mut words = words;
    let pieces = words.number()?;
    if pieces == 0 {
        return Err(unknown_line());
    }
    Ok(pieces)
}

// The values of a column.
fn column(alloc: Global, flat: &FlatRows, place: usize) -> Result<Vec<Val>, AllocError> {
    let mut values = Vec::new(alloc);
    for row in flat.rows() {
        if let Some(v) = row.vals().get(place) {
            values.push(v.copy()?)?;
        }
    }
    Ok(values)
}

// The dictionary of a column.
fn dictionary(alloc: Global, flat: &FlatRows, place: usize) -> io::Result<Dict> {
    let values = column(alloc, flat, place)?;
    if values.len() > MOST_ROWS {
        return Err(unknown_line());
    }
    Ok(Dict::from_values(alloc, &values)?)
}

/// The dictionaries of these columns.
pub(crate) fn dictionaries(
    alloc: Global,
    flat: &FlatRows,
    columns: &[usize],
) -> io::Result<DictSet> {
    let mut dicts = Vec::new(alloc);
    for column in columns {
        let dict = dictionary(alloc, flat, *column)?;
        dicts.push(dict)?;
    }
    Ok(DictSet::new(dicts))
}

// A smaller cuboid of a table.
fn regrouped_by<L: Ledger>(
    alloc: Global,
    base: &CellTable,
    mask: Mask,
    blank: Blank,
) -> io::Result<CellTable>
    requires { (blank.name ≡ L.name) × (blank.parts ≡ L.parts) × (0 < L.parts) }
{
    let mut steps = Steps::<L>::new(blank);
    if !mask.within(base.mask()) {
        return Err(unknown_line());
    }
    Ok(regroup(alloc, base, mask, &mut steps)?)
}

/// A smaller cuboid of a table.
pub(crate) fn regrouped(alloc: Global, base: &CellTable, mask: Mask) -> io::Result<CellTable> {
    regrouped_by::<Brand>(alloc, base, mask, Blank::new(1))
}

/// The cuboid of a set of dimensions of the base cuboid, made of the rows at once.
pub(crate) fn cuboid_of_rows<R: Threads + Sync>(
    rt: &R,
    alloc: Global,
    flat: &FlatRows,
    dicts: &DictSet,
    forms: &[Agg],
    base: &CellTable,
    pieces: u32,
    mask: Mask,
) -> io::Result<CellTable>
    requires pieces { 0 < pieces }
    requires dims { count_of_distincts forms.now < length dicts.now }
    requires few_dims { length dicts.now ≤ count_of_distincts forms.now + 64 }
    requires few { length flat.now ≤ most_items }
    requires base { IsBase forms.now dicts.now flat.now base.now }
{
    if !mask.within(base.mask()) {
        return Err(unknown_line());
    }
    Ok(cuboid(rt, alloc, flat, dicts, forms, pieces, mask)?)
}

// The want of a set of dimensions from the first table, where that has them.
fn want_of(parents: &[CellTable], mask: Mask) -> Option<Want>
    ensures { IfSome result (HasParent parents.now) }
{
    if parents.is_empty() {
        return None;
    }
    if !mask.within(parents[0].mask()) {
        return None;
    }
    Some(Want { mask, parent: 0 })
}

// A want of each set of the four dimensions, from the first table.
fn wants(alloc: Global, parents: &[CellTable]) -> Result<Vec<Want>, AllocError>
    ensures { IfOk result (λ wants. All (HasParent parents.now) wants.items) }
{
    let mut wants = Vec::new(alloc);
    for number in 1..SETS {
        if let Some(want) = want_of(parents, Mask(number)) {
            wants.push(want)?;
        }
    }
    Ok(wants)
}

// The numbers of tables, one after another.
fn numbers_of(alloc: Global, tables: &[CellTable]) -> Result<Vec<i128>, AllocError> {
    let mut numbers = Vec::new(alloc);
    for table in tables {
        put_table(&mut numbers, table)?;
    }
    Ok(numbers)
}

// The cuboids on all sets as one layer, from the first table.
fn layer_of<R: Threads + Sync>(
    rt: &R,
    alloc: Global,
    parents: &[CellTable],
    pieces: u32,
) -> Result<Vec<CellTable>, AllocError>
    requires { 0 < pieces }
{
    let wants = wants(alloc, parents)?;
    layer(rt, alloc, parents, &wants, pieces)
}

// Adds the numbers of a smaller cuboid.
fn put_regrouped(
    alloc: Global,
    numbers: &mut Vec<i128>,
    base: &CellTable,
    mask: Mask,
) -> io::Result<()> {
    let table = regrouped(alloc, base, mask)?;
    put_table(numbers, &table)?;
    Ok(())
}

// The numbers of the cuboids on all sets, each regrouped alone.
fn numbers_regrouped(alloc: Global, base: &CellTable) -> io::Result<Vec<i128>> {
    let mut numbers = Vec::new(alloc);
    for set in 1..SETS {
        put_regrouped(alloc, &mut numbers, base, Mask(set))?;
    }
    Ok(numbers)
}

// Adds the numbers of a cuboid made of the rows at once.
fn put_of_rows<R: Threads + Sync>(
    rt: &R,
    alloc: Global,
    numbers: &mut Vec<i128>,
    flat: &FlatRows,
    dicts: &DictSet,
    base: &CellTable,
    pieces: u32,
    mask: Mask,
) -> io::Result<()>
    requires pieces { 0 < pieces }
    requires dims { length dicts.now ≡ 5 }
    requires few { length flat.now ≤ 10000 }
    requires base { IsBase SEEDED dicts.now flat.now base.now }
{
    let table = cuboid_of_rows(rt, alloc, flat, dicts, &SEEDED, base, pieces, mask)?;
    put_table(numbers, &table)?;
    Ok(())
}

// The numbers of the cuboids on all sets, each made of the rows at once.
fn numbers_of_rows<R: Threads + Sync>(
    rt: &R,
    alloc: Global,
    flat: &FlatRows,
    dicts: &DictSet,
    base: &CellTable,
    pieces: u32,
) -> io::Result<Vec<i128>>
    requires pieces { 0 < pieces }
    requires dims { length dicts.now ≡ 5 }
    requires few { length flat.now ≤ 10000 }
    requires base { IsBase SEEDED dicts.now flat.now base.now }
{
    let mut numbers = Vec::new(alloc);
    for set in 1..SETS {
        put_of_rows(
            rt,
            alloc,
            &mut numbers,
            flat,
            dicts,
            base,
            pieces,
            Mask(set),
        )?;
    }
    Ok(numbers)
}

// Writes whether numbers are those of the aggregates.
fn put_way<W: Write>(
    plain: &PlainCuboids,
    way: &str,
    numbers: &[i128],
    out: &mut W,
) -> io::Result<()> {
    let word = if plain.has(numbers) { "same" } else { "others" };
    write!(out, " {way} {word}")
}

// Says it of the cuboids on all sets as one layer.
fn put_layer<R: Threads + Sync, W: Write>(
    rt: &R,
    alloc: Global,
    plain: &PlainCuboids,
    bases: &[CellTable],
    pieces: u32,
    out: &mut W,
) -> io::Result<()>
    requires { 0 < pieces }
{
    let tables = layer_of(rt, alloc, bases, pieces)?;
    let numbers = numbers_of(alloc, tables.as_slice())?;
    put_way(plain, "layer", numbers.as_slice(), out)
}

// Says it of the cuboids that are regrouped one by one.
fn put_regroupings<W: Write>(
    alloc: Global,
    plain: &PlainCuboids,
    bases: &[CellTable],
    out: &mut W,
) -> io::Result<()> {
    for base in bases {
        let numbers = numbers_regrouped(alloc, base)?;
        put_way(plain, "regrouped", numbers.as_slice(), out)?;
    }
    Ok(())
}

// The base cuboid of the rows.
fn base_of<R: Threads + Sync>(
    rt: &R,
    alloc: Global,
    flat: &FlatRows,
    dicts: &DictSet,
    pieces: u32,
) -> Result<CellTable, AllocError>
    requires pieces { 0 < pieces }
    requires dims { length dicts.now ≡ 5 }
    requires few { length flat.now ≤ 10000 }
    ensures { IfOk result (IsBase SEEDED dicts.now flat.now) }
{
    base(rt, alloc, flat, dicts, &SEEDED, pieces)
}

// Says it of the cuboids that are made of the rows at once.
fn put_from_rows<R: Threads + Sync, W: Write>(
    rt: &R,
    alloc: Global,
    plain: &PlainCuboids,
    flat: &FlatRows,
    dicts: &DictSet,
    base: &CellTable,
    pieces: u32,
    out: &mut W,
) -> io::Result<()>
    requires pieces { 0 < pieces }
    requires dims { length dicts.now ≡ 5 }
    requires few { length flat.now ≤ 10000 }
    requires base { IsBase SEEDED dicts.now flat.now base.now }
{
    let numbers = numbers_of_rows(rt, alloc, flat, dicts, base, pieces)?;
    put_way(plain, "rows", numbers.as_slice(), out)
}

// A list of one item.
fn alone<T: Drop>(alloc: Global, item: T) -> Result<Vec<T>, AllocError> {
    let mut items = Vec::new(alloc);
    items.push(item)?;
    Ok(items)
}

// Says it of the cuboids in all three ways.
fn put_ways<R: Threads + Sync, W: Write>(
    rt: &R,
    alloc: Global,
    plain: &PlainCuboids,
    dicts: &DictSet,
    pieces: u32,
    out: &mut W,
) -> io::Result<()>
    requires { 0 < pieces }
{
    let flat = plain.rows();
    if dicts.len() != 5 || flat.len() > MOST_ROWS {
        return Err(unknown_line());
    }
    let base = base_of(rt, alloc, flat, dicts, pieces)?;
    put_from_rows(rt, alloc, plain, flat, dicts, &base, pieces, out)?;
    let bases = alone(alloc, base)?;
    put_layer(rt, alloc, plain, bases.as_slice(), pieces, out)?;
    put_regroupings(alloc, plain, bases.as_slice(), out)
}

/// Says whether the cuboids of the seeded rows have the numbers of the aggregates.
pub(crate) fn answer_cuboids<R: Threads + Sync, W: Write>(
    rt: &R,
    alloc: Global,
    plain: &PlainCuboids,
    words: Words<'_>,
    out: &mut W,
) -> io::Result<()> {
    let pieces = count_of_pieces(words)?;
    let dicts = dictionaries(alloc, plain.rows(), &[0, 1, 2, 3, 5])?;
    write!(out, "{pieces}:")?;
    put_ways(rt, alloc, plain, &dicts, pieces, out)?;
    out.write_all(b"\n")
}
