// The row that a record writes.

ghost use Rattle.std.specs.Prelude.{◌≡◌, ◌++◌, ◌∷◌, [], Err, IfOk, OnOk};
ghost use Rattle.csv.specs.Records.{fields_of};
ghost use Rattle.table_reader.specs.declared.fault.TableFault.{TableFault};
ghost use Rattle.table_reader.specs.Rows.{IsFaultOfCell, IsFirstCellFault, IsRecordFault, IsRowOf, WritesCell, WritesRow, field_of};

use crate::fault::{TableFault, TableKind, TableRefusal};
use crate::header::Column;
use crate::key::is_null;
use crate::records::field_at;
use csv::ByteRecord;
use cube_val::{ReadVal, Row, Val, read_val};
use std::alloc::{AllocError, Global};

// The value that the field of a record writes in the column, which is the one at this place of the form.
fn read_cell(
    alloc: Global,
    column: &Column,
    place: usize,
    number: u32,
    found: &ByteRecord,
) -> Result<Val, TableRefusal>
    ensures ok { IfOk result (λ v. WritesCell column.now (field_of (fields_of found.now) column.now) v) }
    ensures fault { (f : TableFault) → result ≡ Err (TableRefusal.Fault f)
        → IsFaultOfCell column.now place number (field_of (fields_of found.now) column.now) f }
{
    let fault_of = |kind: TableKind| {
        TableRefusal::Fault(TableFault {
            row: number,
            column: Some(place),
            kind,
        })
    };
    let value = match read_val(alloc, column.ty, field_at(found, column.place)) {
        Ok(value) => value,
        Err(ReadVal::BadValue) => return Err(fault_of(TableKind::BadValue)),
        Err(ReadVal::Memory) => return Err(TableRefusal::Memory),
    };
    if column.no_null && is_null(&value) {
        return Err(fault_of(TableKind::NullMeasure));
    }
    Ok(value)
}

// Adds a value at the end.
fn add(vals: &mut Vec<Val>, value: Val) -> Result<(), AllocError>
    ensures { OnOk result (vals.new.items ≡ vals.old.items ++ value ∷ []) }
{
    vals.push(value)?;
    Ok(())
}

// The values that the fields of a record write, one for each column.
fn read_cells(
    alloc: Global,
    columns: &[Column],
    number: u32,
    found: &ByteRecord,
) -> Result<Row, TableRefusal>
    ensures ok { IfOk result (λ row. WritesRow columns.now (fields_of found.now) row) }
    ensures fault { (f : TableFault) → result ≡ Err (TableRefusal.Fault f) → IsFirstCellFault columns.now number (fields_of found.now) f }
{
    let Ok(mut vals) = Vec::with_capacity(alloc, columns.len()) else {
        return Err(TableRefusal::Memory);
    };
    for i in 0..columns.len() {
        let value = match read_cell(alloc, &columns[i], i, number, found) {
            Ok(value) => value,
            Err(refusal) => return Err(refusal),
        };
        let Ok(()) = add(&mut vals, value) else {
            return Err(TableRefusal::Memory);
        };
    }
    Ok(Row::of(vals))
}

/// The row that a record writes, the record being the one of this number. The header has `width` fields.
pub fn read_row(
    alloc: Global,
    columns: &[Column],
    width: usize,
    number: u32,
    found: &ByteRecord,
) -> Result<Row, TableRefusal>
    ensures ok { IfOk result (λ row. IsRowOf columns.now width (fields_of found.now) row) }
    ensures fault { (f : TableFault) → result ≡ Err (TableRefusal.Fault f) → IsRecordFault columns.now width number (fields_of found.now) f }
{
    if found.len() != width {
        return Err(TableRefusal::Fault(TableFault::in_row(number, TableKind::FieldCount)));
    }
    read_cells(alloc, columns, number, found)
}
