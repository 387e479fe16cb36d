// What the rows of a group come to.

ghost use Rattle.std.specs.Prelude.{◌≡◌, ◌<◌, ◌≤◌, ◌≤ℤ◌, ◌^◌, int_div, length, map, neg_ℤ, pos, IfOk};
ghost use Rattle.std.specs.Int.{int_max, int_min};
ghost use Rattle.std.specs.List.{reduce};
ghost use Rattle.std.specs.Option.{option_copied};
ghost use Rattle.aggregation.specs.Groups.{distinct};
ghost use Rattle.cube_val.specs.Order.{val_cmp};
ghost use Rattle.plain_answer.specs.declared.answer.OutVal.TheVariants as out;
ghost use Rattle.measure_laws.specs.Measures.{most_items, summed};
ghost use Rattle.plain_answer.specs.Aggregates.{aggregate_of, average_shown, cell, column_units, known, known_values, number_in, number_or_null, numbers_of, sum_shown};
ghost use Rattle.plain_answer.specs.OutVals.{shown_number};

use crate::answer::OutVal;
use crate::ask::{Agg, AggKind};
use crate::out_ref::UNITS;
use cube_val::{ColType, Row, Val};
use measure_laws::{Measure, Sum};
use sqlite_items::at;
use std::alloc::{AllocError, Global};
use std::collections::BTreeSet;

// A row's value in a column, where it isn't null.
fn known_at(row: &Row, column: usize) -> Option<&Val>
    ensures { option_copied result ≡ known (cell row.now column) }
{
    match at(row.vals(), column) {
        None => None,
        Some(v) => match v {
            Val::Null => None,
            Val::Int(_) => Some(v),
            Val::Text(_) => Some(v),
        },
    }
}

// The values of a column in rows that an aggregate takes: those that aren't null.
fn known_values<'a>(
    alloc: Global,
    column: Option<usize>,
    rows: &[&'a Row],
) -> Result<Vec<&'a Val>, AllocError>
    ensures { IfOk result (λ vs. map (λ v. v.now) vs.items ≡ known_values column (map (λ row. row.now) rows.now)) }
{
    let mut values = Vec::new(alloc);
    if let Some(column) = column {
        for row in rows {
            if let Some(v) = known_at(row, column) {
                values.push(v)?;
            }
        }
    }
    Ok(values)
}

// The number of a value, where it is one.
fn number_in(v: &Val) -> Option<i64>
    ensures { result ≡ number_in v.now }
{
    match v {
        Val::Null => None,
        Val::Int(n) => Some(*n),
        Val::Text(_) => None,
    }
}

// The numbers among values.
fn numbers(alloc: Global, values: &[&Val]) -> Result<Vec<i64>, AllocError>
    ensures { IfOk result (λ ns. ns.items ≡ numbers_of (map (λ v. v.now) values.now)) }
{
    let mut numbers = Vec::new(alloc);
    for v in values {
        if let Some(n) = number_in(v) {
            numbers.push(n)?;
        }
    }
    Ok(numbers)
}

// The sum of numbers.
fn sum_of(alloc: Global, numbers: &[i64]) -> Result<Sum, AllocError>
    requires { length numbers.now ≤ most_items }
    ensures { IfOk result (λ sum. sum ≡ summed numbers.now) }
{
    let mut sum = Sum::zero(alloc);
    for n in numbers {
        sum.add(*n)?;
    }
    Ok(sum)
}

// A number of a column of the type, as it is shown.
fn show_number(ty: ColType, number: i128) -> OutVal
    ensures { result ≡ shown_number ty number }
{
    match ty {
        ColType::Decimal => OutVal::Units(number),
        ColType::Int | ColType::Text | ColType::Date => OutVal::Whole(number),
    }
}

// The sum of numbers, as it is shown.
fn show_sum(alloc: Global, ty: ColType, numbers: &[i64]) -> Result<OutVal, AllocError>
    requires { length numbers.now ≤ most_items }
    ensures { IfOk result (λ v. v ≡ sum_shown ty numbers.now) }
{
    let sum = sum_of(alloc, numbers)?;
    match numbers {
        [] => Ok(OutVal::Null),
        [_, ..] => Ok(show_number(ty, sum.value())),
    }
}

// A number of a column of the type, in units of 1/10000.
fn column_units(ty: ColType, number: i128) -> i128
    requires low { neg_ℤ (pos (2 ^ 110)) ≤ℤ number }
    requires high { number ≤ℤ pos (2 ^ 110) }
    ensures { result ≡ column_units ty number }
{
    match ty {
        ColType::Decimal => number,
        ColType::Int | ColType::Text | ColType::Date => number * UNITS,
    }
}

// A total by a count, cut toward zero.
fn cut_quotient(total: i128, count: usize) -> i128
    requires { 0 < count }
    ensures { result ≡ int_div total (pos count) }
{
    total / count as i128
}

// The sum of numbers by their count, cut toward zero to four decimals, as it is shown.
fn show_average(alloc: Global, ty: ColType, numbers: &[i64]) -> Result<OutVal, AllocError>
    requires { length numbers.now ≤ most_items }
    ensures { IfOk result (λ v. v ≡ average_shown ty numbers.now) }
{
    let sum = sum_of(alloc, numbers)?;
    match numbers {
        [] => Ok(OutVal::Null),
        [_, ..] => {
            let total = column_units(ty, sum.value());
            Ok(OutVal::Units(cut_quotient(total, numbers.len())))
        }
    }
}

// A number of a column of the type, as it is shown; where there is none, it is null.
fn show_or_null(ty: ColType, number: Option<i64>) -> OutVal
    ensures { result ≡ number_or_null ty number }
{
    match number {
        Some(n) => show_number(ty, i128::from(n)),
        None => OutVal::Null,
    }
}

// The least of numbers.
fn least(numbers: &[i64]) -> Option<i64>
    ensures { result ≡ reduce int_min numbers.now }
{
    numbers.iter().copied().reduce(|least, n| least.min(n))
}

// The greatest of numbers.
fn greatest(numbers: &[i64]) -> Option<i64>
    ensures { result ≡ reduce int_max numbers.now }
{
    numbers
        .iter()
        .copied()
        .reduce(|greatest, n| greatest.max(n))
}

/// The distinct keys, in order.
pub(crate) fn distinct<K: Ord + Drop>(
    alloc: Global,
    keys: Vec<K>,
) -> Result<BTreeSet<K>, AllocError>
    ensures { IfOk result (λ set. set.keys ≡ distinct K.cmp keys.items) }
{
    let mut keys = keys;
    let mut set = BTreeSet::new(alloc);
    while let Some(key) = keys.pop() {
        set.insert(key)?;
    }
    Ok(set)
}

// How many different values there are.
fn count_distinct(alloc: Global, values: &[&Val]) -> Result<OutVal, AllocError>
    ensures { IfOk result (λ v. v ≡ out.Whole (pos (length (distinct val_cmp (map (λ v. v.now) values.now))))) }
{
    let mut copies = Vec::new(alloc);
    for v in values {
        copies.push(v.copy()?)?;
    }
    let set = distinct(alloc, copies)?;
    Ok(OutVal::Whole(set.len() as i128))
}

/// What an aggregate makes of rows.
pub(crate) fn aggregate_rows(alloc: Global, agg: Agg, rows: &[&Row]) -> Result<OutVal, AllocError>
    requires { length rows.now ≤ most_items }
    ensures { IfOk result (λ v. v ≡ aggregate_of agg (map (λ row. row.now) rows.now)) }
{
    let values = known_values(alloc, agg.column, rows)?;
    let numbers = numbers(alloc, &values)?;
    match agg.kind {
        AggKind::Count => Ok(OutVal::Whole(rows.len() as i128)),
        AggKind::Known => Ok(OutVal::Whole(values.len() as i128)),
        AggKind::Distinct => count_distinct(alloc, &values),
        AggKind::Sum => show_sum(alloc, agg.ty, &numbers),
        AggKind::Min => Ok(show_or_null(agg.ty, least(&numbers))),
        AggKind::Max => Ok(show_or_null(agg.ty, greatest(&numbers))),
        AggKind::Avg => show_average(alloc, agg.ty, &numbers),
    }
}
