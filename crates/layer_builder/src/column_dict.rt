// The dictionary of a column of rows.

ghost use Rattle.std.specs.Prelude.{◌≡◌, ◌⊎◌, ◌≤◌, ◌<◌, ◌^◌, ◌++◌, ◌∷◌, [], Contains, IfOk, OnOk, length, map};
ghost use Rattle.dim_dictionary.specs.Dictionaries.{dictionary_of};
ghost use Rattle.plain_answer.specs.Aggregates.{cell};

use crate::place_cache::PlaceCache;
use cube_val::{Row, Val};
use dim_dictionary::Dict;
use std::alloc::{AllocError, Global};

// Adds a value, unless it is found among those before it.
fn add_value(
    values: &mut Vec<Val>,
    cache: &mut PlaceCache,
    column: usize,
    v: &Val,
) -> Result<(), AllocError>
    ensures { OnOk result ((values.new.items ≡ values.old.items ++ v.now ∷ []) ⊎ ((values.new.items ≡ values.old.items) × Contains values.old.items v.now)) }
{
    if let Some(_place) = cache.find(column, v, values) {
        return Ok(());
    }
    if let Ok(place) = u32::try_from(values.len()) {
        cache.keep(column, v, place);
    }
    values.push(v.copy()?)?;
    Ok(())
}

// Adds a row's value in the column; one that isn't there reads as null.
fn add_cell(
    values: &mut Vec<Val>,
    cache: &mut PlaceCache,
    column: usize,
    row: &Row,
) -> Result<(), AllocError>
    ensures { OnOk result ((values.new.items ≡ values.old.items ++ cell row.now column ∷ []) ⊎ ((values.new.items ≡ values.old.items) × Contains values.old.items (cell row.now column))) }
{
    match row.vals().get(column) {
        Some(v) => add_value(values, cache, column, v),
        None => add_value(values, cache, column, &Val::Null),
    }
}

// The values of the column, most of them once.
fn values_of(alloc: Global, rows: &[Row], column: usize) -> Result<Vec<Val>, AllocError>
    ensures dictionary { IfOk result (λ values. dictionary_of values.items ≡ dictionary_of (map (λ row. cell row column) rows.now)) }
    ensures few { IfOk result (λ values. length values.items ≤ length rows.now) }
{
    let mut cache = PlaceCache::new(alloc, rows.len())?;
    let mut values = Vec::new(alloc);
    for row in rows {
        add_cell(&mut values, &mut cache, column, row)?;
    }
    Ok(values)
}

/// The dictionary of a column of the rows. A column that isn't there reads as null.
pub fn dict_of_column(alloc: Global, rows: &[Row], column: usize) -> Result<Dict, AllocError>
    requires { length rows.now < 2 ^ 32 }
    ensures { IfOk result (λ dict. dict ≡ dictionary_of (map (λ row. cell row column) rows.now)) }
{
    let values = values_of(alloc, rows, column)?;
    Dict::from_values(alloc, &values)
}
