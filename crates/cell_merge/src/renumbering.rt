// Rows under new numbers.

ghost use Rattle.std.specs.Prelude.{◌≡◌, ◌≤◌, ◌<◌, ◌+◌, ◌^◌, ◌++◌, ◌∷◌, [], All, IfOk, OnOk, length, map};
ghost use Rattle.std.specs.List.{AllZip};
ghost use Rattle.std.specs.List.Sorted.{IsStrictlySortedBy};
ghost use Rattle.std.specs.Ordering.{nat_cmp};
ghost use Rattle.agg_group.specs.Mask.{count_of};
ghost use Rattle.cell_gather.specs.Keys.{dims_of};
ghost use Rattle.cell_store.specs.Cells.{items_of};
ghost use Rattle.cell_store.specs.Selects.{row_at};
ghost use Rattle.measure_laws.specs.Kinds.{dict_after, dict_count};
ghost use Rattle.measure_laws.specs.Measures.{most_items};
ghost use Rattle.cell_merge.specs.Renumbered.{HasNumbers, HaveNumbers, IsNumberedPart, first_set, new_number, remap_at, renumbered, renumbered_cell, renumbered_cells, renumbered_ids, renumbered_key, renumbered_row};

use crate::remaps::RemapSet;
use agg_group::Mask;
use cell_store::{Cell, CellRow, CellTable, Steps};
use measure_laws::{IdSet, MeasureForm};
use std::alloc::{AllocError, Global};
use std::sync::ledger::Ledger;

// The dimensions of a mask, rising.
fn dims_of(alloc: Global, mask: Mask) -> Result<Vec<usize>, AllocError>
    ensures { IfOk result (λ dims. dims.items ≡ dims_of mask) }
{
    let mut dims = Vec::new(alloc);
    for d in 0..64 {
        if mask.has(d) {
            dims.push(d as usize)?;
        }
    }
    Ok(dims)
}

// The place of the first dictionary of a COUNT_DISTINCT.
fn first_set(remaps: &RemapSet, forms: &[MeasureForm]) -> usize
    ensures place { result ≡ first_set remaps.now forms.now }
    ensures small { result < 2 ^ 63 }
{
    let mut count = 0;
    for form in forms {
        count = form.dict_after(count);
    }
    remaps.len().saturating_sub(count)
}

// The new numbers of the dictionary at a place; none where there is no such dictionary.
fn remap_at(remaps: &RemapSet, place: usize) -> &[u32]
    ensures numbers { result.now ≡ remap_at remaps.now place }
    ensures rising { IsStrictlySortedBy nat_cmp result.now }
{
    if place < remaps.len() {
        remaps.get(place).ids()
    } else {
        &[]
    }
}

// The key under new numbers.
fn renumbered_key(
    alloc: Global,
    remaps: &RemapSet,
    dims: &[usize],
    key: &[u32],
) -> Result<Vec<u32>, AllocError>
    requires { AllZip (λ d id. id < length (remap_at remaps.now d)) dims.now key.now }
    ensures { IfOk result (λ new. new.items ≡ renumbered_key remaps.now dims.now key.now) }
{
    let mut new = Vec::with_capacity(alloc, key.len())?;
    for (d, id) in dims.iter().zip(key) {
        let numbers = remap_at(remaps, *d);
        new.push(numbers[*id as usize])?;
    }
    Ok(new)
}

// The numbers of a set under new numbers.
fn renumbered_numbers(alloc: Global, numbers: &[u32], ids: &[u32]) -> Result<Vec<u32>, AllocError>
    requires { All (λ id. id < length numbers.now) ids.now }
    ensures { IfOk result (λ new. new.items ≡ map (new_number numbers.now) ids.now) }
{
    let mut new = Vec::with_capacity(alloc, ids.len())?;
    for id in ids {
        new.push(numbers[*id as usize])?;
    }
    Ok(new)
}

// A set under new numbers.
fn renumbered_set(alloc: Global, numbers: &[u32], set: &IdSet) -> Result<IdSet, AllocError>
    requires rising { IsStrictlySortedBy nat_cmp numbers.now }
    requires there { All (λ id. id < length numbers.now) set.now.ids }
    ensures { IfOk result (λ new. new ≡ renumbered_ids numbers.now set.now) }
{
    let new = renumbered_numbers(alloc, numbers, set.ids())?;
    let set = IdSet::of(alloc, set.items(), &new)?;
    Ok(set)
}

// An equal cell.
fn copied(alloc: Global, cell: &Cell) -> Result<Cell, AllocError>
    requires { items_of cell.now ≤ most_items }
    ensures { IfOk result (λ copy. copy ≡ cell.now) }
{
    let mut copy = Cell::of_items(alloc, cell.form(), &[])?;
    copy.merge(cell)?;
    Ok(copy)
}

// A cell under new numbers.
fn renumbered_cell(alloc: Global, numbers: &[u32], cell: &Cell) -> Result<Cell, AllocError>
    requires rising { IsStrictlySortedBy nat_cmp numbers.now }
    requires there { HasNumbers numbers.now cell.now }
    requires few { items_of cell.now ≤ most_items }
    ensures { IfOk result (λ new. new ≡ renumbered_cell numbers.now cell.now) }
{
    match cell {
        Cell::Distinct(set) => Ok(Cell::Distinct(renumbered_set(alloc, numbers, set)?)),
        _ => copied(alloc, cell),
    }
}

// The cells of a row under new numbers, where the dictionaries of the COUNT_DISTINCTs begin at a place.
fn renumbered_cells(
    alloc: Global,
    remaps: &RemapSet,
    place: usize,
    cells: &[Cell],
) -> Result<Vec<Cell>, AllocError>
    requires there { HaveNumbers remaps.now place cells.now }
    requires few { All (λ cell. items_of cell ≤ most_items) cells.now }
    requires place { place < 2 ^ 63 }
    ensures { IfOk result (λ new. new.items ≡ renumbered_cells remaps.now place cells.now) }
{
    let mut new = Vec::with_capacity(alloc, cells.len())?;
    let mut next = place;
    for cell in cells {
        new.push(renumbered_cell(alloc, remap_at(remaps, next), cell)?)?;
        next = cell.form().dict_after(next);
    }
    Ok(new)
}

// A row under new numbers.
fn renumbered_row(
    alloc: Global,
    remaps: &RemapSet,
    dims: &[usize],
    place: usize,
    key: &[u32],
    cells: &[Cell],
) -> Result<CellRow, AllocError>
    requires key { AllZip (λ d id. id < length (remap_at remaps.now d)) dims.now key.now }
    requires sets { HaveNumbers remaps.now place cells.now }
    requires few { All (λ cell. items_of cell ≤ most_items) cells.now }
    requires place { place < 2 ^ 63 }
    ensures { IfOk result (λ row. row ≡ (renumbered_key remaps.now dims.now key.now, renumbered_cells remaps.now place cells.now)) }
{
    let key = renumbered_key(alloc, remaps, dims, key)?;
    let cells = renumbered_cells(alloc, remaps, place, cells)?;
    Ok(CellRow::new(key, cells))
}

/// Adds the rows of a part's table under their new numbers. Each row is read once, which is one step. After want of memory some
/// of the rows stand there.
pub(crate) fn add_renumbered<L: Ledger>(
    rows: &mut Vec<CellRow>,
    alloc: Global,
    table: &CellTable,
    remaps: &RemapSet,
    steps: &mut Steps<L>,
) -> Result<(), AllocError>
    requires numbers { IsNumberedPart remaps.now table.now }
    ensures { OnOk result (rows.new.items ≡ rows.old.items ++ renumbered remaps.now table.now) }
{
    let dims = dims_of(alloc, table.mask())?;
    let place = first_set(remaps, table.forms());
    let mut buffer = vec![in alloc; 0; table.mask().count() as usize]?;
    let key = buffer.as_mut_slice();
    for i in 0..table.len() {
        let cells = table.row(i, key, steps);
        rows.push(renumbered_row(alloc, remaps, &dims, place, key, cells)?)?;
    }
    Ok(())
}
