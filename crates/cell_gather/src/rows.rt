// Rows to gather.

ghost use Rattle.std.specs.Prelude.{◌≡◌, ◌<◌, ◌+◌, ◌≤◌, ◌++◌, ◌∷◌, [], OnOk, length, map};
ghost use Rattle.agg_group.specs.Mask.{count_of};
ghost use Rattle.cell_gather.specs.Keys.{kept_numbers};
ghost use Rattle.cell_store.specs.Selects.{row_at};

use crate::keys::kept_numbers;
use cell_store::{Cell, CellTable, Steps};
use std::alloc::{AllocError, Global};
use std::marker::Model;
use std::sync::ledger::Ledger;

/// A row to gather: its key, and its cells, which stay where they are.
#[derive(Drop)]
pub struct KeyedCells<'a> {
    pub(crate) key: Vec<u32>,
    pub(crate) cells: &'a [Cell],
}

impl<'a> Model for KeyedCells<'a> {
    ghost use Rattle.std.specs.Prelude.{List, ℕ};
    ghost use Rattle.cell_store.specs.declared.cell.Cell.{Cell};
    ghost use Rattle.std.specs.Coded.{coded×, coded_list, coded_ℕ};
    ghost use Rattle.cell_store.specs.contracts.cell.Cell as cell;

    ghost Value = { List ℕ × List Cell };

    ghost coded = { coded× (coded_list coded_ℕ) (coded_list cell.the_row.coded) };

    ghost view = { λ row. (row.key.items, row.cells.now) };
}

impl<'a> KeyedCells<'a> {
    /// A row of this key and these cells. It takes no memory.
    pub fn new(key: Vec<u32>, cells: &'a [Cell]) -> KeyedCells<'a>
        ensures { result ≡ (key.items, cells.now) }
    {
        KeyedCells { key, cells }
    }
}

// Adds a row of a table by the kept numbers of its key, which is written into `key`.
fn add_row<'a, L: Ledger>(
    rows: &mut Vec<KeyedCells<'a>>,
    alloc: Global,
    table: &'a CellTable,
    i: usize,
    keeps: &[bool],
    key: &mut [u32],
    steps: &mut Steps<L>,
) -> Result<(), AllocError>
    requires in_range { i < length table.now.rows }
    requires width { length key.old ≡ count_of table.now.mask }
    ensures row { OnOk result (rows.new.items ≡ rows.old.items ++ (kept_numbers keeps.now (row_at table.now.rows i).0, (row_at table.now.rows i).1) ∷ []) }
    ensures step { steps.new ≡ steps.old + 1 }
{
    let cells = table.row(i, key, steps);
    rows.push(KeyedCells::new(kept_numbers(alloc, keeps, key)?, cells))?;
    Ok(())
}

/// Adds the rows of a table, each by the kept numbers of its key. Each row is read once, which is one step. After want of
/// memory some of the rows stand there.
pub fn add_rows<'a, L: Ledger>(
    rows: &mut Vec<KeyedCells<'a>>,
    alloc: Global,
    table: &'a CellTable,
    keeps: &[bool],
    steps: &mut Steps<L>,
) -> Result<(), AllocError>
    ensures rows { OnOk result (rows.new.items ≡ rows.old.items ++ map (λ row. (kept_numbers keeps.now row.0, row.1)) table.now.rows) }
    ensures steps { OnOk result (steps.new ≡ steps.old + length table.now.rows) }
    ensures at_most { steps.new ≤ steps.old + length table.now.rows }
{
    let mut buffer = vec![in alloc; 0; table.mask().count() as usize]?;
    let key = buffer.as_mut_slice();
    for i in 0..table.len() {
        add_row(rows, alloc, table, i, keeps, key, steps)?;
    }
    Ok(())
}
