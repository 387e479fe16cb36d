// The values of a joined row.

ghost use Rattle.std.specs.Prelude.{◌≡◌, ◌++◌, ◌∷◌, [], IfOk, OnOk, List, Option, Some, option_copied, slice_get};
ghost use Rattle.cube_val.specs.declared.val.Val.{Val};
ghost use Rattle.flat_join.specs.Joins.{part_value, wide_row, wide_value};

use crate::partner::{Partner, value_at};
use cube_val::{Row, Val, WideCol};
use std::alloc::{AllocError, Global};

// The value at a column of the row that a lookup gives; null where it gives none.
fn partner_value(found: &[Partner<'_>], lookup: usize, column: usize) -> Result<Val, AllocError>
    ensures { IfOk result (λ v. v ≡ part_value (slice_get found.now lookup) column) }
{
    if lookup >= found.len() {
        return Ok(Val::Null);
    }
    match found[lookup].row() {
        Some(row) => value_at(row, column),
        None => Ok(Val::Null),
    }
}

// The value of a column of the joined row.
fn wide_value(fact: &Row, found: &[Partner<'_>], column: WideCol) -> Result<Val, AllocError>
    ensures { IfOk result (λ v. v ≡ wide_value fact.now found.now column) }
{
    if column.table == 0 {
        value_at(fact, column.column)
    } else {
        partner_value(found, column.table - 1, column.column)
    }
}

// Adds the value of a column of the joined row.
fn add_wide(
    vals: &mut Vec<Val>,
    fact: &Row,
    found: &[Partner<'_>],
    column: WideCol,
) -> Result<(), AllocError>
    ensures { OnOk result (vals.new.items ≡ vals.old.items ++ wide_value fact.now found.now column ∷ []) }
{
    let value = wide_value(fact, found, column)?;
    vals.push(value)?;
    Ok(())
}

/// The columns of the joined row of a fact row and what it matches.
pub(crate) fn wide_row(
    alloc: Global,
    columns: &[WideCol],
    fact: &Row,
    found: &[Partner<'_>],
) -> Result<Row, AllocError>
    ensures { IfOk result (λ row. row ≡ wide_row columns.now fact.now found.now) }
{
    let mut vals = Vec::with_capacity(alloc, columns.len())?;
    for column in columns {
        add_wide(&mut vals, fact, found, *column)?;
    }
    Ok(Row::of(vals))
}
