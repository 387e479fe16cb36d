// Dictionaries of flat rows.

ghost use Rattle.std.specs.Prelude.{◌≡◌, IfOk, map};
ghost use Rattle.std.specs.List.{list_all};
ghost use Rattle.byte_frame.specs.Outcomes.{Gives};
ghost use Rattle.table_reader.specs.Keys.{val_at};
ghost use Rattle.step_codec.specs.Bodies.{hold_all, holds, is_in};
ghost use Rattle.step_codec.specs.Layouts.{dict_form, dict_forms};
ghost use Rattle.step_codec.specs.Reading.{holding_at};

use crate::layout::{DictColumn, Layout};
use byte_frame::{FieldReader, ReadError};
use cube_fields::{DictForm, read_dicts};
use cube_val::{Row, Val};
use dim_dictionary::{Dict, DictSet};
use std::alloc::{AllocError, Global};

// Whether the value is in the dictionary.
fn is_in(dict: &Dict, v: &Val) -> bool
    ensures { result ≡ is_in dict.now v.now }
{
    dict.id_of(v).is_some()
}

// Whether the row's value at the place is in the dictionary.
fn holds_value(dict: &Dict, row: &[Val], place: usize) -> bool
    ensures { result ≡ is_in dict.now (val_at row.now place) }
{
    match row.get(place) {
        Some(v) => is_in(dict, v),
        None => is_in(dict, &Val::Null),
    }
}

// Whether the row's value at each column's place is in the column's dictionary.
fn holds(columns: &[DictColumn], dicts: &DictSet, row: &Row) -> bool
    ensures { result ≡ holds columns.now dicts.now row.now }
{
    for i in 0..columns.len().min(dicts.len()) {
        let column = columns[i];
        if !holds_value(dicts.get(i), row.vals(), column.place) {
            return false;
        }
    }
    true
}

// Whether the dictionaries hold all values of the rows.
fn hold_all(layout: &Layout, rows: &[Row], dicts: &DictSet) -> bool
    ensures { result ≡ hold_all layout.now rows.now dicts.now }
{
    rows.iter()
        .all(|row| holds(layout.dicts.as_slice(), dicts, row))
}

// The forms of the dictionaries.
fn dict_forms(
    alloc: Global,
    columns: &[DictColumn],
    limit: u32,
) -> Result<Vec<DictForm>, AllocError>
    ensures { IfOk result (λ forms. forms.items ≡ map (dict_form limit) columns.now) }
{
    let mut forms = Vec::new(alloc);
    for column in columns {
        forms.push(DictForm {
            column: column.column,
            limit,
        })?;
    }
    Ok(forms)
}

/// Dictionaries of at most so many values each that hold all values of the rows.
pub fn read_holding(
    alloc: Global,
    layout: &Layout,
    limit: u32,
    rows: &[Row],
    r: &mut FieldReader,
) -> Result<DictSet, ReadError>
    ensures { Gives (λ dicts. (dicts, r.new)) result (holding_at layout.now limit rows.now r.old) }
{
    let forms = dict_forms(alloc, layout.dicts.as_slice(), limit)?;
    let dicts = match read_dicts(alloc, forms.as_slice(), r) {
        Ok(dicts) => dicts,
        Err(e) => return Err(e),
    };
    if !hold_all(layout, rows, &dicts) {
        return Err(ReadError::Malformed);
    }
    Ok(dicts)
}
