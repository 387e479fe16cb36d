// The values of a row at places.

ghost use Rattle.std.specs.Prelude.{◌≡◌, ◌++◌, ◌∷◌, [], IfOk, OnOk};
ghost use Rattle.table_reader.specs.Keys.{AreWithin, has_null, is_null, key_of};

use cube_val::{Row, Val};
use std::alloc::{AllocError, Global};

// Adds a copy of a value at the end.
fn add(vals: &mut Vec<Val>, value: &Val) -> Result<(), AllocError>
    ensures { OnOk result (vals.new.items ≡ vals.old.items ++ value.now ∷ []) }
{
    let copy = value.copy()?;
    vals.push(copy)?;
    Ok(())
}

/// The values of the row at the places, in their order.
pub fn part_of(alloc: Global, places: &[usize], row: &Row) -> Result<Row, AllocError>
    requires { AreWithin places.now row.now }
    ensures { IfOk result (λ part. part ≡ key_of places.now row.now) }
{
    let mut vals = Vec::with_capacity(alloc, places.len())?;
    for i in 0..places.len() {
        add(&mut vals, row.get(places[i]))?;
    }
    Ok(Row::of(vals))
}

// Whether a value is the null.
fn is_null(value: &Val) -> bool
    ensures { result ≡ is_null value.now }
{
    match value {
        Val::Null => true,
        Val::Int(_) => false,
        Val::Text(_) => false,
    }
}

/// Whether a null stands in the row.
pub fn has_null(row: &Row) -> bool
    ensures { result ≡ has_null row.now }
{
    for i in 0..row.len() {
        if is_null(row.get(i)) {
            return true;
        }
    }
    false
}
