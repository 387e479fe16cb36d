// The names of the columns of a cuboid.

ghost use Rattle.std.specs.Prelude.{◌≡◌, ◌<◌, ◌++◌, ℕ, IfOk, OnOk, drop};
ghost use Rattle.cuboid_lines.specs.Lines.{column_name, columns_text, full_name, spaced_if_in, spaced_name, table_name};

use agg_group::Mask;
use cube_desc::{CubeParts, TableDesc};
use cube_val::WideCol;
use std::alloc::{AllocError, Global};

// The name of a column's table.
fn table_name(tables: &[TableDesc], place: WideCol) -> &[u8]
    ensures { result.now ≡ table_name tables.now place }
{
    match tables.get(place.table) {
        Some(table) => table.name.bytes(),
        None => b"".as_slice(),
    }
}

// The name of a column in its table.
fn column_name(tables: &[TableDesc], place: WideCol) -> &[u8]
    ensures { result.now ≡ column_name tables.now place }
{
    let Some(table) = tables.get(place.table) else {
        return b"".as_slice();
    };
    match table.cols.as_slice().get(place.column) {
        Some(column) => column.name.bytes(),
        None => b"".as_slice(),
    }
}

// Adds `TABLE.COLUMN`.
fn add_full_name(text: &mut Vec<u8>, tables: &[TableDesc], place: WideCol) -> Result<(), AllocError>
    ensures { OnOk result (text.new.items ≡ text.old.items ++ full_name tables.now place) }
{
    text.extend_from_slice(table_name(tables, place))?;
    text.push(b'.')?;
    text.extend_from_slice(column_name(tables, place))?;
    Ok(())
}

// Adds the name of a dimension's column, after a space.
fn add_spaced(text: &mut Vec<u8>, cube: &CubeParts, d: u32) -> Result<(), AllocError>
    ensures { OnOk result (text.new.items ≡ text.old.items ++ spaced_name cube.now d) }
{
    text.push(b' ')?;
    match cube.rowkey.as_slice().get(d as usize) {
        Some(place) => add_full_name(text, cube.tables.as_slice(), *place),
        None => Ok(()),
    }
}

// .. where the mask has the dimension.
fn add_if_in(text: &mut Vec<u8>, cube: &CubeParts, mask: Mask, d: u32) -> Result<(), AllocError>
    ensures { OnOk result (text.new.items ≡ text.old.items ++ spaced_if_in cube.now mask d) }
{
    if mask.has(d) {
        add_spaced(text, cube, d)
    } else {
        Ok(())
    }
}

// The text without its first byte.
fn without_first(text: &[u8]) -> &[u8]
    ensures { result.now ≡ drop 1 text.now }
{
    match text {
        [] => text,
        [_, rest @ ..] => rest,
    }
}

/// Adds the names of the columns of the mask's dimensions, parted by a space.
pub fn add_columns(
    alloc: Global,
    text: &mut Vec<u8>,
    cube: &CubeParts,
    mask: Mask,
) -> Result<(), AllocError>
    ensures { OnOk result (text.new.items ≡ text.old.items ++ columns_text cube.now mask) }
{
    let mut names = Vec::new(alloc);
    for d in 0..64 {
        add_if_in(&mut names, cube, mask, d)?;
    }
    text.extend_from_slice(without_first(names.as_slice()))
}
