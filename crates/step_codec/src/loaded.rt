// The tables of a snapshot.

ghost use Rattle.std.specs.Prelude.{◌≡◌, ◌++◌, ◌<◌, ◌^◌, All, IfOk, OnOk, length, map};
ghost use Rattle.std.specs.Arc.{arc_value};
ghost use Rattle.std.specs.List.{flat_map};
ghost use Rattle.byte_frame.specs.Outcomes.{Gives};
ghost use Rattle.table_reader.specs.Keys.{AreWithin};
ghost use Rattle.step_codec.specs.Bodies.{loaded_text};
ghost use Rattle.step_codec.specs.Reading.{all_loaded_at, has_repeat};

use crate::layout::{Layout, TableColumns};
use byte_frame::{FieldReader, ReadError, Reads, read_each};
pub use cube_val::ROW_LIMIT;
use cube_val::{Row, Table, TableSet};
use std::alloc::{AllocError, Global};
use std::sync::Arc;
use step_fields::{put_rows, read_rows};
use table_reader::first_repeated;

// Whether a row repeats the key of an earlier one.
fn has_repeat(alloc: Global, key: &[usize], rows: &[Row]) -> Result<bool, AllocError>
    requires { All (AreWithin key.now) rows.now }
    ensures { IfOk result (λ repeats. repeats ≡ has_repeat key.now rows.now) }
{
    let first = first_repeated(alloc, key, rows)?;
    Ok(first.is_some())
}

impl Reads<Table> for TableColumns {
    ghost use Rattle.step_codec.specs.Reading.{loaded_at};

    ghost at = { loaded_at };

    fn read(&self, alloc: Global, r: &mut FieldReader) -> Result<Table, ReadError> {
        let columns = self.columns();
        let table = match read_rows(alloc, columns, ROW_LIMIT, r) {
            Ok(table) => table,
            Err(e) => return Err(e),
        };
        let repeats = has_repeat(alloc, self.key(), table.rows())?;
        if repeats {
            return Err(ReadError::Malformed);
        }
        Ok(table)
    }
}

// A table, to be shared.
fn shared_table(alloc: Global, table: Table) -> Result<Arc<Table>, AllocError>
    ensures { IfOk result (λ arc. arc_value arc ≡ table) }
{
    let arc = Arc::new(alloc, table)?;
    Ok(arc)
}

// The tables, to be shared.
fn shared(alloc: Global, tables: Vec<Table>) -> Result<Vec<Arc<Table>>, AllocError>
    ensures { IfOk result (λ arcs. map arc_value arcs.items ≡ tables.items) }
{
    let mut arcs = Vec::new(alloc);
    for table in tables {
        arcs.push(shared_table(alloc, table)?)?;
    }
    Ok(arcs)
}

/// The tables of a snapshot. They are malformed where a row repeats the primary key of an earlier one.
pub fn read_loaded(
    alloc: Global,
    layout: &Layout,
    r: &mut FieldReader,
) -> Result<TableSet, ReadError>
    ensures { Gives (λ tables. (tables, r.new)) result (all_loaded_at layout.now r.old) }
{
    let tables = match read_each(alloc, layout.tables.as_slice(), r) {
        Ok(tables) => tables,
        Err(e) => return Err(e),
    };
    let arcs = shared(alloc, tables)?;
    Ok(TableSet::new(arcs))
}

/// Puts the tables of a snapshot.
pub fn put_loaded(out: &mut Vec<u8>, tables: &TableSet) -> Result<(), AllocError>
    requires { All (λ rows. length rows < 2 ^ 32) tables.now }
    ensures { OnOk result (out.new.items ≡ out.old.items ++ loaded_text tables.now) }
{
    for t in 0..tables.len() {
        let table = tables.table(t);
        put_rows(out, table.rows())?;
    }
    Ok(())
}
