// The table of rows gathered by their keys.

ghost use Rattle.std.specs.Prelude.{◌≡◌, All, IfOk, length, map};
ghost use Rattle.std.specs.List.Sorted.{IsSortedBy};
ghost use Rattle.std.specs.Ordering.{is_lt};
ghost use Rattle.agg_group.specs.Mask.{count_of};
ghost use Rattle.cell_store.specs.Cells.{ItemsAreFew, form_of, key_cmp};
ghost use Rattle.cell_gather.specs.Gathers.{gathered};

use crate::rows::KeyedCells;
use crate::runs::run_len;
use crate::union::merged_rows;
use agg_group::Mask;
use cell_store::CellTable;
use measure_laws::MeasureForm;
use std::alloc::{AllocError, Global};
use std::cmp::Ordering;

// The table of rows in the order of their keys.
fn gather_sorted(
    alloc: Global,
    mask: Mask,
    forms: &[MeasureForm],
    rows: &[KeyedCells],
) -> Result<CellTable, AllocError>
    requires sorted { IsSortedBy (λ a b. is_lt (key_cmp a.0 b.0)) rows.now }
    requires widths { All (λ row. length row.0 ≡ count_of mask) rows.now }
    requires forms { All (λ row. map form_of row.1 ≡ forms.now) rows.now }
    requires few { ItemsAreFew forms.now rows.now }
    ensures mask { IfOk result (λ t. t.mask ≡ mask) }
    ensures forms { IfOk result (λ t. t.forms ≡ forms.now) }
    ensures rows { IfOk result (λ t. t.rows ≡ gathered forms.now (λ key. key) rows.now) }
{
    let mut table = CellTable::new(alloc, mask, forms)?;
    let mut start = 0;
    while start < rows.len() {
        let first = &rows[start];
        let rest = &rows[start..];
        let n = run_len(rest, &first.key);
        let cells = merged_rows(alloc, forms, &rest[..n])?;
        table.push(&first.key, cells)?;
        start += n;
    }
    Ok(table)
}

/// The table of rows gathered by their keys: for each distinct key, in order, the merge of the cells that have it.
pub fn gather(
    alloc: Global,
    mask: Mask,
    forms: &[MeasureForm],
    rows: Vec<KeyedCells>,
) -> Result<CellTable, AllocError>
    requires widths { All (λ row. length row.0 ≡ count_of mask) rows.items }
    requires forms { All (λ row. map form_of row.1 ≡ forms.now) rows.items }
    requires few { ItemsAreFew forms.now rows.items }
    ensures mask { IfOk result (λ t. t.mask ≡ mask) }
    ensures forms { IfOk result (λ t. t.forms ≡ forms.now) }
    ensures rows { IfOk result (λ t. t.rows ≡ gathered forms.now (λ key. key) rows.entry.items) }
{
    let mut rows = rows;
    rows.sort_by(
        |a: &KeyedCells, b: &KeyedCells| -> Ordering
            ensures { result ≡ key_cmp a.now.0 b.now.0 }
        { a.key.cmp(&b.key) },
    )?;
    gather_sorted(alloc, mask, forms, &rows)
}
