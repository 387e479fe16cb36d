// Cells of many rows merged, their sets of ids by one sort.

ghost use Rattle.std.specs.Prelude.{◌≡◌, ◌≤◌, ◌+◌, ◌<◌, IfOk, OnOk, ℕ, All, length, map};
ghost use Rattle.aggregation.specs.Groups.{merged_all};
ghost use Rattle.cell_store.specs.Cells.{ItemsAreFew, form_of, items_at, items_of, merged_cell, no_cell};
ghost use Rattle.measure_laws.specs.Measures.{most_items};
ghost use Rattle.cell_gather.specs.Merges.{merged_cells, merged_so_far, no_cells};

use crate::merge::merged_in_turn;
use crate::rows::KeyedCells;
use cell_store::Cell;
use measure_laws::{IdUnion, MeasureForm};
use std::alloc::{AllocError, Global};

/// What cells of one form are merged into.
#[derive(Drop)]
pub(crate) enum Merging {
    /// The cell that they come to so far.
    Merged(Cell),
    /// The sets of ids so far.
    Union(IdUnion),
}

// The merge of no cell.
fn merge_of_none(alloc: Global, form: MeasureForm) -> Result<Merging, AllocError>
    ensures { IfOk result (λ merge. merged_so_far merge ≡ no_cell form) }
{
    match form {
        MeasureForm::Distinct => Ok(Merging::Union(IdUnion::new(alloc))),
        _ => Ok(Merging::Merged(Cell::of_items(alloc, form, &[])?)),
    }
}

// The merges of no row.
fn merges_of_none(alloc: Global, forms: &[MeasureForm]) -> Result<Vec<Merging>, AllocError>
    ensures { IfOk result (λ merges. map merged_so_far merges.items ≡ no_cells forms.now) }
{
    let mut merges = Vec::new(alloc);
    for form in forms {
        merges.push(merge_of_none(alloc, *form)?)?;
    }
    Ok(merges)
}

// Merges another cell of the same form.
fn take_in(merge: &mut Merging, other: &Cell) -> Result<(), AllocError>
    requires { items_of (merged_so_far merge.old) + items_of other.now ≤ most_items }
    ensures { OnOk result (merged_so_far merge.new ≡ merged_cell (merged_so_far merge.old) other.now) }
{
    match merge {
        Merging::Merged(cell) => cell.merge(other),
        Merging::Union(union) => match other {
            Cell::Distinct(set) => union.merge(set),
            _ => Ok(()),
        },
    }
}

// Merges the cells of another row.
fn take_in_row(merges: &mut [Merging], others: &[Cell]) -> Result<(), AllocError>
    requires width { length merges.old ≡ length others.now }
    requires few { (k : ℕ) → k < length merges.old → items_at k (map merged_so_far merges.old) + items_at k others.now ≤ most_items }
    ensures { OnOk result (map merged_so_far merges.new ≡ merged_cells (map merged_so_far merges.old) others.now) }
{
    for (k, merge) in merges.iter_mut().enumerate() {
        take_in(merge, &others[k])?;
    }
    Ok(())
}

// The cell that was merged.
fn cell_of(merge: Merging) -> Result<Cell, AllocError>
    ensures { IfOk result (λ cell. cell ≡ merged_so_far merge) }
{
    match merge {
        Merging::Merged(cell) => Ok(cell),
        Merging::Union(union) => Ok(Cell::Distinct(union.into_set()?)),
    }
}

// The cells that were merged.
fn cells_of(alloc: Global, merges: Vec<Merging>) -> Result<Vec<Cell>, AllocError>
    ensures { IfOk result (λ cells. cells.items ≡ map merged_so_far merges.items) }
{
    let mut cells = Vec::with_capacity(alloc, merges.len())?;
    for merge in merges {
        cells.push(cell_of(merge)?)?;
    }
    Ok(cells)
}

// The merge of the cells of rows, the sets of ids by one sort.
fn merged_at_once(
    alloc: Global,
    forms: &[MeasureForm],
    rows: &[KeyedCells],
) -> Result<Vec<Cell>, AllocError>
    requires forms { All (λ row. map form_of row.1 ≡ forms.now) rows.now }
    requires few { ItemsAreFew forms.now rows.now }
    ensures { IfOk result (λ cells. cells.items ≡ merged_all (no_cells forms.now) merged_cells (map (λ row. row.1) rows.now)) }
{
    let mut merges = merges_of_none(alloc, forms)?;
    for row in rows {
        take_in_row(&mut merges, row.cells)?;
    }
    cells_of(alloc, merges)
}

/// The merge of the cells of rows.
pub(crate) fn merged_rows(
    alloc: Global,
    forms: &[MeasureForm],
    rows: &[KeyedCells],
) -> Result<Vec<Cell>, AllocError>
    requires forms { All (λ row. map form_of row.1 ≡ forms.now) rows.now }
    requires few { ItemsAreFew forms.now rows.now }
    ensures { IfOk result (λ cells. cells.items ≡ merged_all (no_cells forms.now) merged_cells (map (λ row. row.1) rows.now)) }
{
    if rows.len() < 3 {
        return merged_in_turn(alloc, forms, rows);
    }
    merged_at_once(alloc, forms, rows)
}
