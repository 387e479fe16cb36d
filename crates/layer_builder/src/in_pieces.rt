// A cuboid of rows, made in pieces side by side.

ghost use Rattle.std.specs.Prelude.{◌≡◌, ◌≤◌, ◌<◌, ◌+◌, IfOk, length, map};
ghost use Rattle.std.specs.List.{AllZip, flat_map};
ghost use Rattle.agg_group.specs.Mask.{IsWithin};
ghost use Rattle.measure_laws.specs.Measures.{most_items};
ghost use Rattle.plain_answer.specs.Kinds.{form_of_kind};
ghost use Rattle.layer_builder.specs.Base.{base_mask, count_of_distincts, key_width};
ghost use Rattle.layer_builder.specs.Cuboids.{IsCuboid};

use crate::base_cuboid::{cut, joined, piece};
use crate::cells::forms_of;
use crate::layers::regroup_uncounted;
use crate::table_results::all_made;
use agg_group::Mask;
use cell_store::CellTable;
use cube_val::Row;
use dim_dictionary::DictSet;
use measure_laws::MeasureForm;
use plain_answer::{Agg, FlatRows};
use rayon::prelude::*;
use std::alloc::{AllocError, Global};
use std::marker::Brand;
use std::sync::ledger::Blank;
use std::thread::Threads;

// The cuboid of the rows of a piece, from their base cuboid, which is dropped.
fn piece_cuboid(
    alloc: Global,
    dicts: &DictSet,
    aggs: &[Agg],
    forms: &[MeasureForm],
    rows: &[Row],
    mask: Mask,
) -> Result<CellTable, AllocError>
    requires dicts { count_of_distincts aggs.now < length dicts.now }
    requires few_dims { length dicts.now ≤ count_of_distincts aggs.now + 64 }
    requires forms { forms.now ≡ map (λ agg. form_of_kind agg.kind) aggs.now }
    requires few { length rows.now ≤ most_items }
    requires within { IsWithin mask (base_mask (key_width aggs.now dicts.now)) }
    ensures { IfOk result (IsCuboid aggs.now dicts.now rows.now mask) }
{
    let base = piece(alloc, dicts, aggs, forms, rows)?;
    regroup_uncounted::<Brand>(alloc, &base, mask, Blank::new(1))
}

// The cuboid of each piece.
fn piece_cuboids<R: Threads + Sync>(
    rt: &R,
    alloc: Global,
    dicts: &DictSet,
    aggs: &[Agg],
    forms: &[MeasureForm],
    pieces: &[&[Row]],
    mask: Mask,
) -> Result<Vec<CellTable>, AllocError>
    requires dicts { count_of_distincts aggs.now < length dicts.now }
    requires few_dims { length dicts.now ≤ count_of_distincts aggs.now + 64 }
    requires forms { forms.now ≡ map (λ agg. form_of_kind agg.kind) aggs.now }
    requires few { length (flat_map (λ p. p.now) pieces.now) ≤ most_items }
    requires within { IsWithin mask (base_mask (key_width aggs.now dicts.now)) }
    ensures { IfOk result (λ tables. AllZip (λ p t. IsCuboid aggs.now dicts.now p.now mask t) pieces.now tables.items) }
{
    let made = pieces
        .par_iter()
        .with_min_len(1)
        .map(
            move |rows: &&[Row]| -> Result<CellTable, AllocError>
                requires dicts { count_of_distincts aggs.now < length dicts.now }
                requires few_dims { length dicts.now ≤ count_of_distincts aggs.now + 64 }
                requires forms { forms.now ≡ map (λ agg. form_of_kind agg.kind) aggs.now }
                requires few { length rows.now.now ≤ most_items }
                requires within { IsWithin mask (base_mask (key_width aggs.now dicts.now)) }
                ensures { IfOk result (IsCuboid aggs.entry.now dicts.entry.now rows.now.now mask) }
            { piece_cuboid(alloc, dicts, aggs, forms, rows, mask) },
        )
        .collect::<Vec<_>>(rt, alloc)?;
    all_made(alloc, made)
}

/// The cuboid of rows by some of the rowkey columns: the aggregate of the rows by the dictionary numbers of these columns. There
/// is a dictionary for each rowkey column and then one for each COUNT_DISTINCT, in order. The rows are cut into at most so many
/// pieces, and the answer is the same for every number of them: each piece has a base cuboid of its own, which is regrouped at
/// once, so that only the few rows of the smaller cuboids are left to be merged. A row that has no number in the column of a
/// SUM, MIN or MAX counts as 0 there.
pub fn cuboid<R: Threads + Sync>(
    rt: &R,
    alloc: Global,
    flat: &FlatRows,
    dicts: &DictSet,
    forms: &[Agg],
    pieces: u32,
    mask: Mask,
) -> Result<CellTable, AllocError>
    requires pieces { 0 < pieces }
    requires dims { count_of_distincts forms.now < length dicts.now }
    requires few_dims { length dicts.now ≤ count_of_distincts forms.now + 64 }
    requires few { length flat.now ≤ most_items }
    requires within { IsWithin mask (base_mask (key_width forms.now dicts.now)) }
    ensures { IfOk result (IsCuboid forms.now dicts.now flat.now mask) }
{
    let rows = flat.rows();
    let kinds = forms_of(alloc, forms)?;
    let size = rows.len().saturating_sub(1) / pieces as usize + 1;
    let parts = cut(alloc, rows, size)?;
    let tables = piece_cuboids(rt, alloc, dicts, forms, &kinds, &parts, mask)?;
    joined::<Brand>(alloc, mask, &kinds, &tables, Blank::new(1))
}
