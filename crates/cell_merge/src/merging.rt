// The merged table.

ghost use Rattle.std.specs.Prelude.{◌≡◌, ◌≤◌, ◌<◌, ◌++◌, All, IfOk, OnOk, length, map};
ghost use Rattle.std.specs.List.{AllZip, flat_map};
ghost use Rattle.agg_group.specs.Mask.{count_of};
ghost use Rattle.cell_store.specs.Cells.{IsCellTable};
ghost use Rattle.cell_merge.specs.Merges.{AreFew, AreOfOneKind, IsMerge, renumbered_parts};
ghost use Rattle.cell_merge.specs.Renumbered.{IsNumberedPart, renumbered};

use crate::remaps::RemapSet;
use crate::renumbering::add_renumbered;
use cell_gather::{KeyedCells, gather};
use cell_store::{CellRow, CellTable, Steps};
use std::alloc::{AllocError, Global};
use std::marker::Brand;
use std::sync::ledger::{Blank, Ledger};

// The rows of all parts under their new numbers, part by part.
fn renumbered_parts<L: Ledger>(
    alloc: Global,
    parts: &[CellTable],
    remaps: &[RemapSet],
    blank: Blank,
) -> Result<Vec<CellRow>, AllocError>
    requires blank { (blank.name ≡ L.name) × (blank.parts ≡ L.parts) × (0 < L.parts) }
    requires numbers { AllZip IsNumberedPart remaps.now parts.now }
    ensures rows { IfOk result (λ rows. rows.items ≡ renumbered_parts remaps.now parts.now) }
    ensures tables { IfOk result (λ _. All (λ part. IsCellTable part.mask part.forms part.rows) parts.now) }
{
    let mut steps = Steps::<L>::new(blank);
    let mut rows = Vec::new(alloc);
    for i in 0..parts.len() {
        let part = &parts[i];
        rows.reserve(part.len())?;
        add_renumbered(&mut rows, alloc, part, &remaps[i], &mut steps)?;
    }
    Ok(rows)
}

// Rows to gather by their whole keys.
fn keyed_rows<'a>(alloc: Global, rows: &'a [CellRow]) -> Result<Vec<KeyedCells<'a>>, AllocError>
    ensures { IfOk result (λ keyed. keyed.items ≡ rows.now) }
{
    let mut keyed = Vec::with_capacity(alloc, rows.len())?;
    for row in rows {
        let key = Vec::from_slice(alloc, row.key())?;
        keyed.push(KeyedCells::new(key, row.cells()))?;
    }
    Ok(keyed)
}

/// The merge of the tables of parts: for each distinct key under the new numbers, in order, the merge of the cells that have it. All
/// parts have the same dimensions and forms of cells, and each its own new numbers; a number that no dictionary of a part has
/// must not stand in its table.
pub fn merge_tables(
    alloc: Global,
    parts: &[CellTable],
    remaps: &[RemapSet],
) -> Result<CellTable, AllocError>
    requires some { 0 < length parts.now }
    requires alike { AreOfOneKind parts.now }
    requires numbers { AllZip IsNumberedPart remaps.now parts.now }
    requires few { AreFew parts.now }
    ensures { IfOk result (IsMerge remaps.now parts.now) }
{
    let first = &parts[0];
    let rows = renumbered_parts::<Brand>(alloc, parts, remaps, Blank::new(1))?;
    let keyed = keyed_rows(alloc, &rows)?;
    gather(alloc, first.mask(), first.forms(), keyed)
}
