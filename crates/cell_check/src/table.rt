// A table of two rows.

ghost use Rattle.std.specs.Prelude.{◌≡◌, ◌<◌, ◌∷◌, [], IfOk, length};
ghost use Rattle.cell_store.specs.declared.cell.Cell.{Cell};

use agg_group::Mask;
use cell_store::{Cell, CellTable, Steps};
use check_lines::{Words, unknown_line};
use measure_laws::{Count, MeasureForm};
use std::alloc::{AllocError, Global};
use std::io;
use std::io::Write;
use std::sync::ledger::{Blank, Ledger};

// A count alone.
fn counted(alloc: Global, items: u64) -> Result<Vec<Cell>, AllocError>
    requires { items < 1000 }
    ensures { IfOk result (λ cells. cells.items ≡ Cell.Count items ∷ []) }
{
    let mut cells = Vec::new(alloc);
    cells.push(Cell::Count(Count::of(items)))?;
    Ok(cells)
}

// Two rows of the first and the third dimension.
fn two_rows(alloc: Global) -> Result<CellTable, AllocError>
    ensures { IfOk result (λ t. length t.rows ≡ 2) }
{
    let mut table = CellTable::new(alloc, Mask(5), &[MeasureForm::Count])?;
    table.push(&[1, 4], counted(alloc, 7)?)?;
    table.push(&[2, 0], counted(alloc, 1)?)?;
    Ok(table)
}

// Writes a row: its key, and how many items each cell is of.
fn put_row<W: Write>(key: &[u32], cells: &[Cell], out: &mut W) -> io::Result<()> {
    for id in key {
        write!(out, "{id} ")?;
    }
    out.write_all(b"of")?;
    for cell in cells {
        write!(out, " {}", cell.items())?;
    }
    out.write_all(b"\n")
}

/// Writes a row of the table.
pub(crate) fn answer_row<L: Ledger, W: Write>(
    alloc: Global,
    words: Words<'_>,
    blank: Blank,
    out: &mut W,
) -> io::Result<()>
    requires { (blank.name ≡ L.name) × (blank.parts ≡ L.parts) × (0 < L.parts) }
{
    let mut words = words;
    let number = words.number()?;
    if number >= 2 {
        return Err(unknown_line());
    }
    let table = two_rows(alloc)?;
    let mut steps = Steps::<L>::new(blank);
    let mut buffer = vec![in alloc; 0; table.mask().count() as usize]?;
    let key = buffer.as_mut_slice();
    let cells = table.row(number as usize, key, &mut steps);
    put_row(key, cells, out)
}
