// The cells of rows of one key.

ghost use Rattle.std.specs.Prelude.{◌≡◌, ◌+◌, ◌^◌, ◌<◌, ◌≤◌, IfOk, IsTrue, length, map};
ghost use Rattle.std.specs.List.{filter_map};
ghost use Rattle.measure_laws.specs.Kinds.{are_ids, has_dictionary};
ghost use Rattle.measure_laws.specs.Measures.{most_items};
ghost use Rattle.cell_gather.specs.Gathers.{cell_of, cells_of};
ghost use Rattle.plain_answer.specs.Kinds.{form_of_kind};
ghost use Rattle.layer_builder.specs.Base.{count_of_distincts, dict_at, item_of, measure_of, measures_from, next_after, value_at};

use crate::keys::item_at;
use crate::runs::KeyedRow;
use cell_store::{Cell, RowItem};
use dim_dictionary::DictSet;
use measure_laws::{ItemKind, MeasureForm};
use plain_answer::{Agg, AggKind};
use std::alloc::{AllocError, Global};

/// The forms in which aggregates are kept.
pub(crate) fn forms_of(alloc: Global, aggs: &[Agg]) -> Result<Vec<MeasureForm>, AllocError>
    ensures { IfOk result (λ forms. forms.items ≡ map (λ agg. form_of_kind agg.kind) aggs.now) }
{
    let mut forms = Vec::with_capacity(alloc, aggs.len())?;
    for agg in aggs {
        forms.push(agg.kind.form())?;
    }
    Ok(forms)
}

// The place of the dictionary after an aggregate.
fn next_after(kind: AggKind, place: usize) -> usize
    requires { IsTrue (has_dictionary (form_of_kind kind)) → place + 1 < 2 ^ 64 }
    ensures { result ≡ next_after kind place }
{
    kind.form().dict_after(place)
}

/// How many of the aggregates are COUNT_DISTINCTs.
pub(crate) fn distincts(aggs: &[Agg]) -> usize
    ensures { result ≡ count_of_distincts aggs.now }
{
    let mut n = 0;
    for agg in aggs {
        n = next_after(agg.kind, n);
    }
    n
}

// What a measure of items of the kind takes of rows, those passed over that have nothing for it. The place is that of the
// dictionary of a measure of ids.
fn items_of(
    alloc: Global,
    kind: ItemKind,
    dicts: &DictSet,
    place: usize,
    column: Option<usize>,
    rows: &[KeyedRow],
) -> Result<Vec<RowItem>, AllocError>
    requires { IsTrue (are_ids kind) → place < length dicts.now }
    ensures { IfOk result (λ items. items.items ≡ filter_map (λ row. item_of kind (dict_at dicts.now place) (value_at column row)) (map (λ row. row.1) rows.now)) }
{
    let mut items = Vec::with_capacity(alloc, rows.len())?;
    for row in rows {
        if let Some(item) = item_at(kind, dicts, place, row.vals, column) {
            items.push(item)?;
        }
    }
    Ok(items)
}

// The cell of rows. The place is that of the dictionary of a COUNT_DISTINCT.
fn run_cell(
    alloc: Global,
    dicts: &DictSet,
    place: usize,
    agg: Agg,
    rows: &[KeyedRow],
) -> Result<Cell, AllocError>
    requires place { IsTrue (has_dictionary (form_of_kind agg.kind)) → place < length dicts.now }
    requires few { length rows.now ≤ most_items }
    ensures { IfOk result (λ cell. cell ≡ cell_of (measure_of agg (dict_at dicts.now place)) (map (λ row. row.1) rows.now)) }
{
    let form = agg.kind.form();
    let items = items_of(alloc, form.item_kind(), dicts, place, agg.column, rows)?;
    Cell::of_items(alloc, form, &items)
}

/// The cells of rows. The dictionaries of the COUNT_DISTINCTs begin at the place.
pub(crate) fn run_cells(
    alloc: Global,
    dicts: &DictSet,
    place: usize,
    aggs: &[Agg],
    rows: &[KeyedRow],
) -> Result<Vec<Cell>, AllocError>
    requires places { place + count_of_distincts aggs.now ≤ length dicts.now }
    requires fits { length dicts.now < 2 ^ 64 }
    requires few { length rows.now ≤ most_items }
    ensures { IfOk result (λ cells. cells.items ≡ cells_of (measures_from dicts.now place aggs.now) (map (λ row. row.1) rows.now)) }
{
    let mut cells = Vec::with_capacity(alloc, aggs.len())?;
    let mut next = place;
    for agg in aggs {
        cells.push(run_cell(alloc, dicts, next, *agg, rows)?)?;
        next = next_after(agg.kind, next);
    }
    Ok(cells)
}
