// The rows of a table file, or its first fault.

ghost use Rattle.std.specs.Prelude.{None, ◌≡◌, ◌<◌, ◌≤◌, ◌∷◌, [], ℕ, List, All, Err, IfOk, OnOk, length};
ghost use Rattle.csv.specs.Records.{fields_of};
ghost use Rattle.cube_val.specs.Limits.{row_limit};
ghost use Rattle.table_reader.specs.Bodies.{IsBodyOf};
ghost use Rattle.table_reader.specs.Columns.{columns_of, header_fault};
ghost use Rattle.table_reader.specs.Digests.{digests_of};
ghost use Rattle.table_reader.specs.Keys.{AreWithin};
ghost use Rattle.table_reader.specs.Reads.{HasRead};
ghost use Rattle.table_reader.specs.Tables.{IsFaultOf, IsTableOf};
ghost use Rattle.table_reader.specs.declared.fault.TableFault.{TableFault};

use crate::body::{Body, read_body};
use crate::fault::{TableFault, TableKind, TableRefusal};
use crate::header::{columns_of, header_fault};
use crate::key::repeated_key;
use crate::records::{read_next, reader_of};
use csv::{ByteRecord, Reader};
use cube_val::{ROW_LIMIT, Row, Table, TableForm};
use std::alloc::Global;

// The fewest bytes that most fields take, with the comma or the line's end after them.
const FIELD_SIZE: usize = 4;

// For how many rows memory is reserved at first, in a file of this size with so many fields a record. Pages that no row is
// written to cost none, and where there are more rows, more is reserved.
fn room_for(size: usize, width: usize) -> usize
    ensures { result ≤ row_limit }
{
    (size / FIELD_SIZE / width.max(1)).min(ROW_LIMIT as usize)
}

// Reads the header, in which each column of the form must stand once.
fn read_header(
    form: &TableForm,
    reader: &mut Reader<&[u8]>,
    found: &mut ByteRecord,
) -> Result<(), TableRefusal>
    ensures ok { OnOk result ((bytes : List ℕ) → HasRead bytes [] reader.old → HasRead bytes (fields_of found.new ∷ []) reader.new) }
    ensures named { OnOk result (header_fault form.now.cols (fields_of found.new) ≡ None) }
    ensures fault { (f : TableFault) → result ≡ Err (TableRefusal.Fault f) → (bytes : List ℕ) → HasRead bytes [] reader.old → IsFaultOf form.now bytes f }
{
    match read_next(reader, found) {
        Ok(true) => {}
        Ok(false) => {
            return Err(TableRefusal::Fault(TableFault::in_row(0, TableKind::NoHeader)));
        }
        Err(_) => return Err(TableRefusal::Memory),
    }
    match header_fault(found, form.cols.as_slice()) {
        None => Ok(()),
        Some(fault) => Err(TableRefusal::Fault(fault)),
    }
}

// The rows, or the first fault: that of a repeated key comes before the one at which reading ended.
fn judge(alloc: Global, form: &TableForm, body: Body) -> Result<Vec<Row>, TableRefusal>
    requires within { All (AreWithin form.now.key) body.rows.items }
    requires few { length body.rows.items ≤ row_limit }
    requires digests { body.digests.items ≡ digests_of form.now.key body.rows.items }
    ensures ok { IfOk result (λ rows. (bytes : List ℕ) (header : List (List ℕ)) → header_fault form.now.cols header ≡ None
        → IsBodyOf (columns_of form.now header) (length header) bytes header body.rows.items body.fault → IsTableOf form.now bytes rows.items) }
    ensures fault { (f : TableFault) → result ≡ Err (TableRefusal.Fault f) → (bytes : List ℕ) (header : List (List ℕ)) → header_fault form.now.cols header ≡ None
        → IsBodyOf (columns_of form.now header) (length header) bytes header body.rows.items body.fault → IsFaultOf form.now bytes f }
{
    let Body {
        rows,
        digests,
        fault,
    } = body;
    match repeated_key(alloc, form.key.as_slice(), rows.as_slice(), digests) {
        Ok(None) => {}
        Ok(Some(place)) => {
            return Err(TableRefusal::Fault(TableFault::in_row(
                place as u32 + 1,
                TableKind::DuplicateKey,
            )));
        }
        Err(_) => return Err(TableRefusal::Memory),
    }
    match fault {
        None => Ok(rows),
        Some(fault) => Err(TableRefusal::Fault(fault)),
    }
}

/// The rows of the table that the bytes of a file are.
pub fn read_rows(alloc: Global, form: &TableForm, bytes: &[u8]) -> Result<Vec<Row>, TableRefusal>
    requires no_null { length form.now.no_null ≡ length form.now.cols }
    requires key { All (λ place. place < length form.now.cols) form.now.key }
    ensures ok { IfOk result (λ rows. IsTableOf form.now bytes.now rows.items) }
    ensures fault { (f : TableFault) → result ≡ Err (TableRefusal.Fault f) → IsFaultOf form.now bytes.now f }
{
    let mut reader = reader_of(alloc, bytes);
    let mut found = ByteRecord::new(alloc);
    match read_header(form, &mut reader, &mut found) {
        Ok(()) => {}
        Err(refusal) => return Err(refusal),
    }
    let Ok(columns) = columns_of(alloc, form, &found) else {
        return Err(TableRefusal::Memory);
    };
    let width = found.len();
    let room = room_for(bytes.len(), width);
    let Ok(body) = read_body(
        alloc,
        columns.as_slice(),
        width,
        form.key.as_slice(),
        room,
        &mut reader,
        &mut found,
    ) else {
        return Err(TableRefusal::Memory);
    };
    judge(alloc, form, body)
}

/// The table that the bytes of a file are.
pub fn read_table(alloc: Global, form: &TableForm, bytes: &[u8]) -> Result<Table, TableRefusal>
    requires no_null { length form.now.no_null ≡ length form.now.cols }
    requires key { All (λ place. place < length form.now.cols) form.now.key }
    ensures ok { IfOk result (λ rows. IsTableOf form.now bytes.now rows) }
    ensures fault { (f : TableFault) → result ≡ Err (TableRefusal.Fault f) → IsFaultOf form.now bytes.now f }
{
    match read_rows(alloc, form, bytes) {
        Ok(rows) => Ok(Table::of(rows)),
        Err(refusal) => Err(refusal),
    }
}
