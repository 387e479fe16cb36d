// The base cuboid.

ghost use Rattle.std.specs.Prelude.{◌≡◌, ◌≤◌, ◌<◌, ◌+◌, ◌^◌, ◌∷◌, [], All, IfOk, List, length, map};
ghost use Rattle.std.specs.List.{AllZip, flat_map};
ghost use Rattle.std.specs.List.Sorted.{IsSortedBy};
ghost use Rattle.std.specs.Ordering.{is_lt};
ghost use Rattle.measure_laws.specs.Measures.{most_items};
ghost use Rattle.cell_gather.specs.Gathers.{gathered};
ghost use Rattle.cell_gather.specs.Keys.{part_of};
ghost use Rattle.cell_store.specs.Cells.{ItemsAreFew, key_cmp};
ghost use Rattle.cube_val.specs.declared.val.Val.{Val};
ghost use Rattle.layer_builder.specs.Base.{IsBase, base_mask, count_of_distincts, measures_from};
ghost use Rattle.plain_answer.specs.Kinds.{form_of_kind};
ghost use Rattle.layer_builder.specs.Pieces.{AreBases, ArePieces};
ghost use Rattle.layer_builder.specs.Runs.{cells_by_key};

use crate::cells::{distincts, forms_of, run_cells};
use crate::keys::keyed_rows;
use crate::runs::{KeyedRow, run_len, sorted_rows};
use crate::table_results::all_made;
use agg_group::Mask;
use cell_gather::{add_rows, gather, kept_dims};
use cell_store::{CellTable, Steps};
use cube_val::Row;
use dim_dictionary::DictSet;
use measure_laws::MeasureForm;
use plain_answer::{Agg, FlatRows};
use rayon::prelude::*;
use std::alloc::{AllocError, Global};
use std::marker::Brand;
use std::sync::ledger::{Blank, Ledger};
use std::thread::Threads;

// The mask of the first dimensions.
fn base_mask(width: usize) -> Mask
    requires { width ≤ 64 }
    ensures { result ≡ base_mask width }
{
    if width < 64 {
        Mask((1 << width) - 1)
    } else {
        Mask(u64::MAX)
    }
}

// The table of rows in the order of their keys: for each key the cells of its run.
fn table_of(
    alloc: Global,
    dicts: &DictSet,
    width: usize,
    aggs: &[Agg],
    forms: &[MeasureForm],
    rows: &[KeyedRow],
) -> Result<CellTable, AllocError>
    requires places { width + count_of_distincts aggs.now ≤ length dicts.now }
    requires fits { length dicts.now < 2 ^ 64 }
    requires dims { width ≤ 64 }
    requires forms { forms.now ≡ map (λ agg. form_of_kind agg.kind) aggs.now }
    requires sorted { IsSortedBy (λ a b. is_lt (key_cmp a.0 b.0)) rows.now }
    requires widths { All (λ row. length row.0 ≡ width) rows.now }
    requires few { length rows.now ≤ most_items }
    ensures mask { IfOk result (λ t. t.mask ≡ base_mask width) }
    ensures forms { IfOk result (λ t. t.forms ≡ forms.now) }
    ensures rows { IfOk result (λ t. t.rows ≡ cells_by_key (measures_from dicts.now width aggs.now) rows.now) }
{
    let mut table = CellTable::new(alloc, base_mask(width), forms)?;
    let mut start = 0;
    while start < rows.len() {
        let first = &rows[start];
        let key = first.key.as_slice();
        let rest = &rows[start..];
        let n = run_len(rest, key);
        let cells = run_cells(alloc, dicts, width, aggs, &rest[..n])?;
        table.push(key, cells)?;
        start += n;
    }
    Ok(table)
}

/// The base cuboid of some rows.
pub(crate) fn piece(
    alloc: Global,
    dicts: &DictSet,
    aggs: &[Agg],
    forms: &[MeasureForm],
    rows: &[Row],
) -> Result<CellTable, AllocError>
    requires dicts { count_of_distincts aggs.now < length dicts.now }
    requires few_dims { length dicts.now ≤ count_of_distincts aggs.now + 64 }
    requires forms { forms.now ≡ map (λ agg. form_of_kind agg.kind) aggs.now }
    requires few { length rows.now ≤ most_items }
    ensures { IfOk result (IsBase aggs.now dicts.now rows.now) }
{
    let width = dicts.len() - distincts(aggs);
    let keyed = keyed_rows(alloc, dicts, width, rows)?;
    let sorted = sorted_rows(keyed)?;
    table_of(alloc, dicts, width, aggs, forms, &sorted)
}

/// Rows cut into pieces of so many rows, and a shorter last one.
pub(crate) fn cut<'a>(
    alloc: Global,
    rows: &'a [Row],
    size: usize,
) -> Result<Vec<&'a [Row]>, AllocError>
    requires { 0 < size }
    ensures { IfOk result (λ pieces. flat_map (λ p. p.now) pieces.items ≡ rows.now) }
{
    let mut pieces = Vec::new(alloc);
    let mut start = 0;
    while start < rows.len() {
        let end = start + size.min(rows.len() - start);
        pieces.push(&rows[start..end])?;
        start = end;
    }
    Ok(pieces)
}

// The base cuboid of each piece.
fn tables_of<R: Threads + Sync>(
    rt: &R,
    alloc: Global,
    dicts: &DictSet,
    aggs: &[Agg],
    forms: &[MeasureForm],
    pieces: &[&[Row]],
) -> Result<Vec<CellTable>, AllocError>
    requires dicts { count_of_distincts aggs.now < length dicts.now }
    requires few_dims { length dicts.now ≤ count_of_distincts aggs.now + 64 }
    requires forms { forms.now ≡ map (λ agg. form_of_kind agg.kind) aggs.now }
    requires few { length (flat_map (λ p. p.now) pieces.now) ≤ most_items }
    ensures { IfOk result (λ tables. AllZip (λ p t. IsBase aggs.now dicts.now p.now t) pieces.now tables.items) }
{
    let made = pieces
        .par_iter()
        .with_min_len(1)
        .map(
            move |rows: &&[Row]| -> Result<CellTable, AllocError>
                requires dicts { count_of_distincts aggs.now < length dicts.now }
                requires few_dims { length dicts.now ≤ count_of_distincts aggs.now + 64 }
                requires forms { forms.now ≡ map (λ agg. form_of_kind agg.kind) aggs.now }
                requires few { length rows.now.now ≤ most_items }
                ensures { IfOk result (IsBase aggs.entry.now dicts.entry.now rows.now.now) }
            { piece(alloc, dicts, aggs, forms, rows) },
        )
        .collect::<Vec<_>>(rt, alloc)?;
    all_made(alloc, made)
}

/// The rows of tables, gathered by their whole keys.
pub(crate) fn joined<L: Ledger>(
    alloc: Global,
    mask: Mask,
    forms: &[MeasureForm],
    tables: &[CellTable],
    blank: Blank,
) -> Result<CellTable, AllocError>
    requires blank { (blank.name ≡ L.name) × (blank.parts ≡ L.parts) × (0 < L.parts) }
    requires tables { All (λ t. (t.mask ≡ mask) × (t.forms ≡ forms.now)) tables.now }
    requires few { ItemsAreFew forms.now (flat_map (λ t. t.rows) tables.now) }
    ensures mask { IfOk result (λ t. t.mask ≡ mask) }
    ensures forms { IfOk result (λ t. t.forms ≡ forms.now) }
    ensures rows { IfOk result (λ t. t.rows ≡ gathered forms.now (part_of mask mask) (flat_map (λ t. t.rows) tables.now)) }
{
    let keeps = kept_dims(alloc, mask, mask)?;
    let mut steps = Steps::<L>::new(blank);
    let mut rows = Vec::new(alloc);
    for table in tables {
        rows.reserve(table.len())?;
        add_rows(&mut rows, alloc, table, &keeps, &mut steps)?;
    }
    gather(alloc, mask, forms, rows)
}

/// The base cuboids of rows that are cut into at most so many pieces.
pub fn base_pieces<R: Threads + Sync>(
    rt: &R,
    alloc: Global,
    rows: &[Row],
    dicts: &DictSet,
    forms: &[Agg],
    pieces: u32,
) -> Result<Vec<CellTable>, AllocError>
    requires pieces { 0 < pieces }
    requires dims { count_of_distincts forms.now < length dicts.now }
    requires few_dims { length dicts.now ≤ count_of_distincts forms.now + 64 }
    requires few { length rows.now ≤ most_items }
    ensures { IfOk result (λ tables. AreBases forms.now dicts.now rows.now tables.items) }
{
    let kinds = forms_of(alloc, forms)?;
    let size = rows.len().saturating_sub(1) / pieces as usize + 1;
    let parts = cut(alloc, rows, size)?;
    tables_of(rt, alloc, dicts, forms, &kinds, &parts)
}

/// The base cuboid of rows, from those of the pieces that they were cut into.
pub fn base_of_pieces(
    alloc: Global,
    dicts: &DictSet,
    forms: &[Agg],
    tables: &[CellTable],
) -> Result<CellTable, AllocError>
    requires dims { count_of_distincts forms.now < length dicts.now }
    requires few_dims { length dicts.now ≤ count_of_distincts forms.now + 64 }
    requires pieces { ArePieces forms.now dicts.now tables.now }
    ensures { IfOk result (λ table. (rows : List (List Val)) → AreBases forms.now dicts.now rows tables.now → IsBase forms.now dicts.now rows table) }
{
    let kinds = forms_of(alloc, forms)?;
    let mask = base_mask(dicts.len() - distincts(forms));
    joined::<Brand>(alloc, mask, &kinds, tables, Blank::new(1))
}

/// The base cuboid: the aggregate of rows by all rowkey columns, in dictionary numbers. There is a dictionary for each rowkey
/// column and then one for each COUNT_DISTINCT, in order. The rows are cut into at most so many pieces, and the answer is
/// the same for every number of them. A measure of a column passes over the rows that have null there, and a SUM, MIN or
/// MAX over those that have no number.
pub fn base<R: Threads + Sync>(
    rt: &R,
    alloc: Global,
    flat: &FlatRows,
    dicts: &DictSet,
    forms: &[Agg],
    pieces: u32,
) -> Result<CellTable, AllocError>
    requires pieces { 0 < pieces }
    requires dims { count_of_distincts forms.now < length dicts.now }
    requires few_dims { length dicts.now ≤ count_of_distincts forms.now + 64 }
    requires few { length flat.now ≤ most_items }
    ensures { IfOk result (IsBase forms.now dicts.now flat.now) }
{
    if pieces == 1 {
        let kinds = forms_of(alloc, forms)?;
        return piece(alloc, dicts, forms, &kinds, flat.rows());
    }
    let tables = base_pieces(rt, alloc, flat.rows(), dicts, forms, pieces)?;
    base_of_pieces(alloc, dicts, forms, &tables)
}
