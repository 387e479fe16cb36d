// What is written.

ghost use Rattle.std.specs.Prelude.{◌≡◌, ◌<◌, ◌^◌, ◌++◌, length, All, OnOk};
ghost use Rattle.agg_group.specs.Mask.{count_of};
ghost use Rattle.cell_store.specs.Selects.{row_at};
ghost use Rattle.cube_fields.specs.Cells.{IsShortCell, IsShortTable, cell_text, id_text, row_text, table_text, tables_text, value_text};
ghost use Rattle.cube_fields.specs.Dicts.{dict_text, dicts_text};
ghost use Rattle.std.specs.List.{flat_map};
ghost use Rattle.byte_frame.specs.Spelling.{list_text};

use byte_frame::{put_i64, put_i128, put_u32, put_u64};
use cell_store::{Cell, CellTable, Steps};
use dim_dictionary::{Dict, DictSet};
use std::alloc::AllocError;
use std::sync::ledger::Ledger;
use step_fields::put_val;

/// Puts a dictionary.
pub fn put_dict(out: &mut Vec<u8>, dict: &Dict) -> Result<(), AllocError>
    ensures { OnOk result (out.new.items ≡ out.old.items ++ dict_text dict.now) }
{
    put_u32(out, dict.len())?;
    for v in dict.values() {
        put_val(out, v)?;
    }
    Ok(())
}

// Puts dictionaries.
fn put_each_dict(out: &mut Vec<u8>, dicts: &DictSet) -> Result<(), AllocError>
    ensures { OnOk result (out.new.items ≡ out.old.items ++ flat_map dict_text dicts.now) }
{
    for i in 0..dicts.len() {
        put_dict(out, dicts.get(i))?;
    }
    Ok(())
}

/// Puts the dictionaries behind their number.
pub fn put_dicts(out: &mut Vec<u8>, dicts: &DictSet) -> Result<(), AllocError>
    requires { length dicts.now < 2 ^ 32 }
    ensures { OnOk result (out.new.items ≡ out.old.items ++ dicts_text dicts.now) }
{
    put_u32(out, dicts.len() as u32)?;
    put_each_dict(out, dicts)
}

// Puts numbers.
fn put_ids(out: &mut Vec<u8>, ids: &[u32]) -> Result<(), AllocError>
    ensures { OnOk result (out.new.items ≡ out.old.items ++ flat_map id_text ids.now) }
{
    for id in ids {
        put_u32(out, *id)?;
    }
    Ok(())
}

// Puts a value, if there is one.
fn put_value(out: &mut Vec<u8>, value: Option<i64>) -> Result<(), AllocError>
    ensures { OnOk result (out.new.items ≡ out.old.items ++ value_text value) }
{
    match value {
        Some(v) => put_i64(out, v),
        None => Ok(()),
    }
}

// Puts a list of numbers.
fn put_id_list(out: &mut Vec<u8>, ids: &[u32]) -> Result<(), AllocError>
    requires { length ids.now < 2 ^ 32 }
    ensures { OnOk result (out.new.items ≡ out.old.items ++ list_text id_text ids.now) }
{
    put_u32(out, ids.len() as u32)?;
    put_ids(out, ids)
}

// Puts a cell.
fn put_cell(out: &mut Vec<u8>, cell: &Cell) -> Result<(), AllocError>
    requires { IsShortCell cell.now }
    ensures { OnOk result (out.new.items ≡ out.old.items ++ cell_text cell.now) }
{
    match cell {
        Cell::Count(count) => put_u64(out, count.value()),
        Cell::Known(_) => Ok(()),
        Cell::Sum(sum) => put_i128(out, sum.value()),
        Cell::Min(least) => put_value(out, least.value()),
        Cell::Max(greatest) => put_value(out, greatest.value()),
        Cell::Distinct(set) => put_id_list(out, set.ids()),
    }
}

// Puts cells.
fn put_cells(out: &mut Vec<u8>, cells: &[Cell]) -> Result<(), AllocError>
    requires { All IsShortCell cells.now }
    ensures { OnOk result (out.new.items ≡ out.old.items ++ flat_map cell_text cells.now) }
{
    for cell in cells {
        put_cell(out, cell)?;
    }
    Ok(())
}

// Puts a row.
fn put_row(out: &mut Vec<u8>, key: &[u32], cells: &[Cell]) -> Result<(), AllocError>
    requires { All IsShortCell cells.now }
    ensures { OnOk result (out.new.items ≡ out.old.items ++ row_text (key.now, cells.now)) }
{
    put_ids(out, key)?;
    put_cells(out, cells)
}

// Puts a row of a table, whose key is written into `key`. It is one step.
fn put_row_at<L: Ledger>(
    out: &mut Vec<u8>,
    table: &CellTable,
    i: usize,
    key: &mut [u32],
    steps: &mut Steps<L>,
) -> Result<(), AllocError>
    requires in_range { i < length table.now.rows }
    requires width { length key.old ≡ count_of table.now.mask }
    requires short { All (λ row. All IsShortCell row.1) table.now.rows }
    ensures { OnOk result (out.new.items ≡ out.old.items ++ row_text (row_at table.now.rows i)) }
{
    let cells = table.row(i, key, steps);
    put_row(out, key, cells)
}

// Puts the rows of a table, each of which is one step.
fn put_rows<L: Ledger>(
    out: &mut Vec<u8>,
    table: &CellTable,
    steps: &mut Steps<L>,
) -> Result<(), AllocError>
    requires { All (λ row. All IsShortCell row.1) table.now.rows }
    ensures { OnOk result (out.new.items ≡ out.old.items ++ flat_map row_text table.now.rows) }
{
    let mut buffer = vec![in *out.allocator(); 0; table.mask().count() as usize]?;
    let key = buffer.as_mut_slice();
    for i in 0..table.len() {
        put_row_at(out, table, i, key, steps)?;
    }
    Ok(())
}

// Puts the rows of a table behind their number.
fn put_row_list<L: Ledger>(
    out: &mut Vec<u8>,
    table: &CellTable,
    steps: &mut Steps<L>,
) -> Result<(), AllocError>
    requires { IsShortTable table.now }
    ensures { OnOk result (out.new.items ≡ out.old.items ++ list_text row_text table.now.rows) }
{
    put_u32(out, table.len() as u32)?;
    put_rows(out, table, steps)
}

/// Puts a cell table. Each of its rows is one step.
pub fn put_table<L: Ledger>(
    out: &mut Vec<u8>,
    table: &CellTable,
    steps: &mut Steps<L>,
) -> Result<(), AllocError>
    requires { IsShortTable table.now }
    ensures { OnOk result (out.new.items ≡ out.old.items ++ table_text table.now) }
{
    let mask = table.mask();
    put_u64(out, mask.0)?;
    put_row_list(out, table, steps)
}

// Puts cell tables.
fn put_each_table<L: Ledger>(
    out: &mut Vec<u8>,
    tables: &[CellTable],
    steps: &mut Steps<L>,
) -> Result<(), AllocError>
    requires { All IsShortTable tables.now }
    ensures { OnOk result (out.new.items ≡ out.old.items ++ flat_map table_text tables.now) }
{
    for table in tables {
        put_table(out, table, steps)?;
    }
    Ok(())
}

/// Puts cell tables behind their number. Each of their rows is one step.
pub fn put_tables<L: Ledger>(
    out: &mut Vec<u8>,
    tables: &[CellTable],
    steps: &mut Steps<L>,
) -> Result<(), AllocError>
    requires few { length tables.now < 2 ^ 32 }
    requires tables { All IsShortTable tables.now }
    ensures { OnOk result (out.new.items ≡ out.old.items ++ tables_text tables.now) }
{
    put_u32(out, tables.len() as u32)?;
    put_each_table(out, tables, steps)
}
