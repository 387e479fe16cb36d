// Rows in groups.

ghost use Rattle.std.specs.Prelude.{◌≡◌, ◌≤◌, filter, length, map, IfOk};
ghost use Rattle.std.specs.Ordering.{eq_by_cmp};
ghost use Rattle.aggregation.specs.Groups.{distinct};
ghost use Rattle.cube_val.specs.Order.{row_cmp, val_cmp};
ghost use Rattle.measure_laws.specs.Measures.{most_items};
ghost use Rattle.plain_answer.specs.Aggregates.{cell};
ghost use Rattle.plain_answer.specs.Answers.{aggregates_of, group_at, group_keys, groups_of, key_of, passes, rows_at};

use crate::aggregates::{aggregate_rows, distinct};
use crate::answer::{AnswerRow, PlainRow};
use crate::ask::Agg;
use crate::cond::Cond;
use crate::eval::evaluate;
use crate::truth::Truth;
use cube_val::{Row, Val};
use sqlite_items::at;
use std::alloc::{AllocError, Global};

// Whether the condition is true of a row.
fn passes(condition: &Cond, row: &Row) -> bool
    ensures { result ≡ passes condition.now row.now }
{
    match evaluate(row, condition) {
        Truth::True => true,
        Truth::False => false,
        Truth::Unknown => false,
    }
}

/// The rows of which the condition is true.
pub(crate) fn passing<'a>(
    alloc: Global,
    condition: &Cond,
    rows: &'a [Row],
) -> Result<Vec<&'a Row>, AllocError>
    ensures { IfOk result (λ passing. map (λ row. row.now) passing.items ≡ filter (passes condition.now) rows.now) }
{
    rows.iter()
        .filter(|row| passes(condition, row))
        .collect(alloc)
}

// A copy of a row's value in a column.
fn copy_cell(row: &Row, column: usize) -> Result<Val, AllocError>
    ensures { IfOk result (λ v. v ≡ cell row.now column) }
{
    match at(row.vals(), column) {
        Some(v) => v.copy(),
        None => Ok(Val::Null),
    }
}

// A row's values of the group columns.
fn key_of(alloc: Global, columns: &[usize], row: &Row) -> Result<Row, AllocError>
    ensures { IfOk result (λ key. key ≡ key_of columns.now row.now) }
{
    let mut key = Row::new(alloc);
    for column in columns {
        let v = copy_cell(row, *column)?;
        key.push(v)?;
    }
    Ok(key)
}

// Whether a row's value in a column is this one.
fn is_cell(row: &Row, column: usize, v: &Val) -> bool
    ensures { result ≡ eq_by_cmp val_cmp v.now (cell row.now column) }
{
    match at(row.vals(), column) {
        Some(x) => v == x,
        None => *v == Val::Null,
    }
}

// Whether a row's values of the group columns are this key.
#[tactic(auto, using(crate::proofs::GroupLemmas::is_eq_then, crate::proofs::GroupLemmas::key_too_long, crate::proofs::GroupLemmas::key_too_short))]
fn has_key(columns: &[usize], row: &Row, key: &[Val]) -> bool
    ensures { result ≡ eq_by_cmp row_cmp key.now (key_of columns.now row.now) }
{
    match (columns, key) {
        ([], []) => true,
        ([], [_, ..]) => false,
        ([_, ..], []) => false,
        ([column, columns @ ..], [v, key @ ..]) => {
            is_cell(row, *column, v) && has_key(columns, row, key)
        }
    }
}

// The rows of a key.
fn rows_at<'a>(
    alloc: Global,
    columns: &[usize],
    rows: &[&'a Row],
    key: &[Val],
) -> Result<Vec<&'a Row>, AllocError>
    ensures { IfOk result (λ found. map (λ row. row.now) found.items ≡ rows_at columns.now (map (λ row. row.now) rows.now) key.now) }
{
    let mut found = Vec::new(alloc);
    for row in rows {
        if has_key(columns, row, key) {
            found.push(*row)?;
        }
    }
    Ok(found)
}

// The key of each row.
fn keys_of(alloc: Global, columns: &[usize], rows: &[&Row]) -> Result<Vec<Row>, AllocError>
    ensures { IfOk result (λ keys. keys.items ≡ map (key_of columns.now) (map (λ row. row.now) rows.now)) }
{
    let mut keys = Vec::new(alloc);
    for row in rows {
        let key = key_of(alloc, columns, row)?;
        keys.push(key)?;
    }
    Ok(keys)
}

/// The keys of rows, in order, each once.
pub(crate) fn distinct_keys(
    alloc: Global,
    columns: &[usize],
    rows: &[&Row],
) -> Result<Vec<Row>, AllocError>
    ensures { IfOk result (λ keys. keys.items ≡ distinct row_cmp (map (key_of columns.now) (map (λ row. row.now) rows.now))) }
{
    let keys = keys_of(alloc, columns, rows)?;
    distinct(alloc, keys)?.into_iter().collect(alloc)
}

// The keys of the groups of rows, in order.
fn group_keys(alloc: Global, columns: &[usize], rows: &[&Row]) -> Result<Vec<Row>, AllocError>
    ensures { IfOk result (λ keys. keys.items ≡ group_keys columns.now (map (λ row. row.now) rows.now)) }
{
    match columns {
        [] => {
            let mut keys = Vec::new(alloc);
            keys.push(Row::new(alloc))?;
            Ok(keys)
        }
        [_, ..] => distinct_keys(alloc, columns, rows),
    }
}

// The aggregates of rows.
fn aggregates(alloc: Global, aggs: &[Agg], rows: &[&Row]) -> Result<AnswerRow, AllocError>
    requires { length rows.now ≤ most_items }
    ensures { IfOk result (λ values. values ≡ aggregates_of aggs.now (map (λ row. row.now) rows.now)) }
{
    let mut values = AnswerRow::new(alloc);
    for agg in aggs {
        let v = aggregate_rows(alloc, *agg, rows)?;
        values.push(v)?;
    }
    Ok(values)
}

/// The groups of rows at these keys, with their aggregates.
pub(crate) fn groups_at(
    alloc: Global,
    columns: &[usize],
    aggs: &[Agg],
    rows: &[&Row],
    keys: Vec<Row>,
) -> Result<Vec<PlainRow>, AllocError>
    requires { length rows.now ≤ most_items }
    ensures { IfOk result (λ groups. groups.items ≡ map (group_at columns.now aggs.now (map (λ row. row.now) rows.now)) keys.items) }
{
    let mut groups = Vec::new(alloc);
    for key in keys {
        let found = rows_at(alloc, columns, rows, key.vals())?;
        let values = aggregates(alloc, aggs, &found)?;
        groups.push(PlainRow { key, values })?;
    }
    Ok(groups)
}

/// The groups of rows, with their aggregates.
pub(crate) fn groups(
    alloc: Global,
    columns: &[usize],
    aggs: &[Agg],
    rows: &[&Row],
) -> Result<Vec<PlainRow>, AllocError>
    requires { length rows.now ≤ most_items }
    ensures { IfOk result (λ groups. groups.items ≡ groups_of columns.now aggs.now (map (λ row. row.now) rows.now)) }
{
    let keys = group_keys(alloc, columns, rows)?;
    groups_at(alloc, columns, aggs, rows, keys)
}
