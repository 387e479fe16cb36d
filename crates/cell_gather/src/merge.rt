// Cells merged one by one.

ghost use Rattle.std.specs.Prelude.{◌≡◌, ◌≤◌, ◌+◌, ◌<◌, IfOk, OnOk, ℕ, All, length, map};
ghost use Rattle.aggregation.specs.Groups.{merged_all};
ghost use Rattle.cell_store.specs.Cells.{ItemsAreFew, form_of, items_at};
ghost use Rattle.measure_laws.specs.Measures.{most_items};
ghost use Rattle.cell_gather.specs.Merges.{merged_cells, no_cells};

use crate::rows::KeyedCells;
use cell_store::Cell;
use measure_laws::MeasureForm;
use std::alloc::{AllocError, Global};

// The cells of no row.
fn no_cells(alloc: Global, forms: &[MeasureForm]) -> Result<Vec<Cell>, AllocError>
    ensures { IfOk result (λ cells. cells.items ≡ no_cells forms.now) }
{
    let mut cells = Vec::new(alloc);
    for form in forms {
        cells.push(Cell::of_items(alloc, *form, &[])?)?;
    }
    Ok(cells)
}

// Merges the cells of another row into the cells of a row.
fn merge_cells(cells: &mut [Cell], others: &[Cell]) -> Result<(), AllocError>
    requires width { length cells.old ≡ length others.now }
    requires few { (k : ℕ) → k < length cells.old → items_at k cells.old + items_at k others.now ≤ most_items }
    ensures { OnOk result (cells.new ≡ merged_cells cells.old others.now) }
{
    for (k, cell) in cells.iter_mut().enumerate() {
        cell.merge(&others[k])?;
    }
    Ok(())
}

/// The merge of the cells of rows, one row after another. For many rows with sets of ids `merged_rows` is faster.
pub(crate) fn merged_in_turn(
    alloc: Global,
    forms: &[MeasureForm],
    rows: &[KeyedCells],
) -> Result<Vec<Cell>, AllocError>
    requires forms { All (λ row. map form_of row.1 ≡ forms.now) rows.now }
    requires few { ItemsAreFew forms.now rows.now }
    ensures { IfOk result (λ cells. cells.items ≡ merged_all (no_cells forms.now) merged_cells (map (λ row. row.1) rows.now)) }
{
    let mut cells = no_cells(alloc, forms)?;
    for row in rows {
        merge_cells(&mut cells, row.cells)?;
    }
    Ok(cells)
}
