// Keys of rows, in dictionary numbers.

ghost use Rattle.std.specs.Prelude.{◌≡◌, ◌≤◌, ◌<◌, IfOk, IsTrue, length, map};
ghost use Rattle.measure_laws.specs.Kinds.{are_ids};
ghost use Rattle.plain_answer.specs.Aggregates.{cell};
ghost use Rattle.layer_builder.specs.Base.{dict_at, item_of, key_in, number_in, value_at};

use crate::place_cache::PlaceCache;
use crate::runs::{INLINE, KeyedRow};
use cell_store::RowItem;
use cube_val::{Row, Val};
use dim_dictionary::{Dict, DictSet};
use measure_laws::ItemKind;
use smallvec::SmallVec;
use std::alloc::{AllocError, Global};

// What a measure of these items takes of a value. The place is that of the dictionary of a measure of ids.
fn item_of(kind: ItemKind, dicts: &DictSet, place: usize, v: &Val) -> Option<RowItem>
    requires { IsTrue (are_ids kind) → place < length dicts.now }
    ensures { result ≡ item_of kind (dict_at dicts.now place) v.now }
{
    match kind {
        ItemKind::Rows => Some(RowItem { number: 0, id: 0 }),
        ItemKind::Values => match v {
            Val::Null => None,
            Val::Int(_) | Val::Text(_) => Some(RowItem { number: 0, id: 0 }),
        },
        ItemKind::Numbers => match v {
            Val::Int(n) => Some(RowItem { number: *n, id: 0 }),
            Val::Null | Val::Text(_) => None,
        },
        ItemKind::Ids => match v {
            Val::Null => None,
            Val::Int(_) | Val::Text(_) => {
                let id = dicts.get(place).lower_bound(v);
                Some(RowItem { number: 0, id })
            }
        },
    }
}

/// What a measure of these items takes of a row's value in a column. A column that isn't there reads as null.
pub(crate) fn item_at(
    kind: ItemKind,
    dicts: &DictSet,
    place: usize,
    vals: &[Val],
    column: Option<usize>,
) -> Option<RowItem>
    requires { IsTrue (are_ids kind) → place < length dicts.now }
    ensures { result ≡ item_of kind (dict_at dicts.now place) (value_at column vals.now) }
{
    match column {
        None => item_of(kind, dicts, place, &Val::Null),
        Some(column) => match vals.get(column) {
            None => item_of(kind, dicts, place, &Val::Null),
            Some(v) => item_of(kind, dicts, place, v),
        },
    }
}

// The number of a column's value in the column's dictionary.
fn number_of_value(dict: &Dict, cache: &mut PlaceCache, column: usize, v: &Val) -> u32
    ensures { result ≡ number_in dict.now v.now }
{
    if let Some(id) = cache.find(column, v, dict.values()) {
        return id;
    }
    let id = dict.lower_bound(v);
    cache.keep(column, v, id);
    id
}

// The number of a row's value in a column that has a dictionary. A column that isn't there reads as null.
fn number_in_column(dicts: &DictSet, cache: &mut PlaceCache, column: usize, row: &Row) -> u32
    requires { column < length dicts.now }
    ensures { result ≡ number_in (dict_at dicts.now column) (cell row.now column) }
{
    let dict = dicts.get(column);
    match row.vals().get(column) {
        None => dict.lower_bound(&Val::Null),
        Some(v) => number_of_value(dict, cache, column, v),
    }
}

/// The key of a row: the number of its value in each of the first columns.
pub(crate) fn key_of(
    alloc: Global,
    dicts: &DictSet,
    width: usize,
    cache: &mut PlaceCache,
    row: &Row,
) -> Result<SmallVec<u32, INLINE>, AllocError>
    requires { width ≤ length dicts.now }
    ensures { IfOk result (λ key. key.items ≡ key_in dicts.now width row.now) }
{
    let mut key = SmallVec::new(alloc);
    for column in 0..width {
        key.push(number_in_column(dicts, cache, column, row))?;
    }
    Ok(key)
}

/// Rows with their keys.
pub(crate) fn keyed_rows<'a>(
    alloc: Global,
    dicts: &DictSet,
    width: usize,
    rows: &'a [Row],
) -> Result<Vec<KeyedRow<'a>>, AllocError>
    requires { width ≤ length dicts.now }
    ensures { IfOk result (λ keyed. keyed.items ≡ map (λ row. (key_in dicts.now width row, row)) rows.now) }
{
    let mut cache = PlaceCache::new(alloc, rows.len())?;
    let mut keyed = Vec::with_capacity(alloc, rows.len())?;
    for row in rows {
        let key = key_of(alloc, dicts, width, &mut cache, row)?;
        let vals = row.vals();
        keyed.push(KeyedRow::new(key, vals))?;
    }
    Ok(keyed)
}
