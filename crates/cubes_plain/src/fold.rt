// The text of `fold`: the count and the sum of `M` by `D1`, from cuboids.

ghost use Rattle.std.specs.Prelude.{◌≡◌, ◌<◌, ◌^◌, ◌∷◌, [], ◌++◌, IfOk, length, map, All, slice_index_or};
ghost use Rattle.std.specs.List.{flat_map};
ghost use Rattle.agg_group.specs.Mask.{count_of};
ghost use Rattle.cell_store.specs.Cells.{form_of};
ghost use Rattle.cell_store.specs.Selects.{row_at};
ghost use Rattle.cell_store.specs.declared.cell.Cell.TheVariants as cell;
ghost use Rattle.cube_val.specs.Values.{FitsType};
ghost use Rattle.cube_val.specs.declared.val.ColType.TheVariants as ty;
ghost use Rattle.cubes_plain.specs.Cuboids.{IsSumRow, d1_alone, dicts_of, row_line, sum_in, sum_of_m};
ghost use Rattle.cubes_plain.specs.Folds.{csv_line, fold_text, group_line, header_line};
ghost use Rattle.cubes_plain.specs.Rows.{IsFactRow};
ghost use Rattle.layer_builder.specs.Cuboids.{IsCuboid};
ghost use Rattle.measure_laws.specs.declared.measure.MeasureForm.TheVariants as form;

use crate::dictionaries::dictionaries;
use agg_group::Mask;
use cell_store::{Cell, CellTable, Steps};
use csv::WriterBuilder;
use cube_val::{ColType, Row, Val, val_text};
use dim_dictionary::{Dict, DictSet};
use layer_builder::cuboid;
use measure_laws::Sum;
use plain_answer::{Agg, AggKind, FlatRows};
use std::alloc::{AllocError, Global};
use std::marker::Brand;
use std::sync::ledger::{Blank, Ledger};
use std::thread::Threads;

// The dimension D1 alone.
const D1: Mask = Mask(1);

// The sum of M, which knows of how many rows it is.
const SUM_OF_M: Agg = Agg {
    kind: AggKind::Sum,
    column: Some(2),
    ty: ColType::Int,
};

// Into how many pieces the rows are cut, which are worked on side by side.
const PIECES: u32 = 4;

// The line of a record, as `csv` writes it.
fn line_of(alloc: Global, fields: &[&[u8]]) -> Result<Vec<u8>, AllocError>
    ensures { IfOk result (λ line. line.items ≡ csv_line (map (λ f. f.now) fields.now)) }
{
    let mut writer = WriterBuilder::new().from_writer(Vec::new(alloc));
    if writer.write_fields(fields).is_err() {
        return Err(AllocError);
    }
    match writer.into_inner() {
        Ok(line) => Ok(line),
        Err(_) => Err(AllocError),
    }
}

// The line of a group.
fn group_line(alloc: Global, key: &Val, cell: &Sum) -> Result<Vec<u8>, AllocError>
    requires { FitsType ty.Text key.now }
    ensures { IfOk result (λ line. line.items ≡ group_line (key.now, cell.now)) }
{
    let name = val_text(alloc, ColType::Text, key)?;
    let count = cell.items().to_string(alloc)?;
    let sum = cell.value().to_string(alloc)?;
    line_of(alloc, &[name.as_slice(), count.as_bytes(), sum.as_bytes()])
}

// The sum in a cell.
fn sum_in(cell: &Cell) -> &Sum
    requires { form_of cell.now ≡ form.Sum }
    ensures { result.now ≡ sum_in cell.now }
{
    match cell {
        Cell::Sum(sum) => sum,
        _ => unreachable!(),
    }
}

// The line of a row of the cuboid of D1.
fn row_line(alloc: Global, dict: &Dict, key: &[u32], cells: &[Cell]) -> Result<Vec<u8>, AllocError>
    requires row { IsSumRow dict.now (key.now, cells.now) }
    requires texts { All (FitsType ty.Text) dict.now }
    ensures { IfOk result (λ line. line.items ≡ row_line dict.now (key.now, cells.now)) }
{
    let value = dict.value(key[0]);
    let sum = sum_in(&cells[0]);
    group_line(alloc, value, sum)
}

// The line of the row at a place of the cuboid of D1, whose key is written into `key`.
fn line_at<L: Ledger>(
    alloc: Global,
    dict: &Dict,
    cuboid: &CellTable,
    i: usize,
    key: &mut [u32],
    steps: &mut Steps<L>,
) -> Result<Vec<u8>, AllocError>
    requires in_range { i < length cuboid.now.rows }
    requires width { length key.old ≡ count_of cuboid.now.mask }
    requires rows { All (IsSumRow dict.now) cuboid.now.rows }
    requires texts { All (FitsType ty.Text) dict.now }
    ensures { IfOk result (λ line. line.items ≡ row_line dict.now (row_at cuboid.now.rows i)) }
{
    let cells = cuboid.row(i, key, steps);
    row_line(alloc, dict, key, cells)
}

// The header, and the lines of the cuboid of D1. Nobody counts the steps.
fn text_of_cuboid<L: Ledger>(
    alloc: Global,
    dict: &Dict,
    cuboid: &CellTable,
    blank: Blank,
) -> Result<Vec<u8>, AllocError>
    requires blank { (blank.name ≡ L.name) × (blank.parts ≡ L.parts) × (0 < L.parts) }
    requires rows { All (IsSumRow dict.now) cuboid.now.rows }
    requires texts { All (FitsType ty.Text) dict.now }
    ensures { IfOk result (λ text. text.items ≡ header_line ++ flat_map (row_line dict.now) cuboid.now.rows) }
{
    let mut steps = Steps::<L>::new(blank);
    let mut text = line_of(
        alloc,
        &[
            b"D1".as_slice(),
            b"COUNT(*)".as_slice(),
            b"SUM(M)".as_slice(),
        ],
    )?;
    let mut buffer = vec![in alloc; 0; cuboid.mask().count() as usize]?;
    let key = buffer.as_mut_slice();
    for i in 0..cuboid.len() {
        let line = line_at(alloc, dict, cuboid, i, key, &mut steps)?;
        text.extend_from_slice(line.as_slice())?;
    }
    Ok(text)
}

// The cuboid of D1, by way of the base cuboids of D1 and D2 of the pieces. The rows are not kept.
fn cuboid_of<R: Threads + Sync>(
    rt: &R,
    alloc: Global,
    flat: FlatRows,
    dicts: &DictSet,
) -> Result<CellTable, AllocError>
    requires few { length flat < 2 ^ 32 }
    requires dicts { dicts.now ≡ dicts_of flat }
    ensures { IfOk result (IsCuboid (sum_of_m ∷ []) (dicts_of flat) flat d1_alone) }
{
    cuboid(rt, alloc, &flat, dicts, &[SUM_OF_M], PIECES, D1)
}

/// The text of `fold` over the rows: the values of D1 and D2 are numbered, the rows aggregated by both, and the cells of each
/// D1 merged.
pub fn fold_text<R: Threads + Sync>(
    rt: &R,
    alloc: Global,
    rows: Vec<Row>,
) -> Result<Vec<u8>, AllocError>
    requires few { length rows.items < 2 ^ 32 }
    requires rows { All IsFactRow rows.items }
    ensures { IfOk result (λ text. text.items ≡ fold_text rows.items) }
{
    let flat = FlatRows::of(rows);
    let dicts = dictionaries(rt, alloc, flat.rows())?;
    let table = cuboid_of(rt, alloc, flat, &dicts)?;
    text_of_cuboid::<Brand>(alloc, dicts.get(0), &table, Blank::new(1))
}
