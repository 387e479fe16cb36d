// A cell: one measure of the rows of a group.

ghost use Rattle.std.specs.Prelude.{◌≡◌, ◌≤◌, ◌+◌, IfOk, OnErr, OnOk, length};
ghost use Rattle.measure_laws.specs.Measures.{most_items};
ghost use Rattle.cell_store.specs.Cells.{cell_of_items, form_of, ids_of_items, items_of, merged_cell, numbers_of_items};

use measure_laws::{Count, IdSet, Max, Measure, MeasureForm, Min, Sum};
use std::alloc::{AllocError, Global};

/// What a measure takes of a row that has something for it.
#[derive(Clone, Copy, Debug, PartialEq, Eq)]
pub struct RowItem {
    /// The row's number in the measure's column; 0 for a measure that isn't of numbers.
    pub number: i64,
    /// The number that the row's value has in the measure's dictionary; 0 for a measure without one.
    pub id: u32,
}

/// One measure of the rows of a group, by its form.
#[derive(Drop)]
pub enum Cell {
    /// How many rows there are.
    Count(Count),
    /// How many values of a column aren't null.
    Known(Count),
    /// The sum of a column.
    Sum(Sum),
    /// The least number of a column.
    Min(Min),
    /// The greatest number of a column.
    Max(Max),
    /// The dictionary numbers of a column's different values.
    Distinct(IdSet),
}

// The dictionary numbers of items.
fn ids_of(alloc: Global, items: &[RowItem]) -> Result<Vec<u32>, AllocError>
    ensures { IfOk result (λ ids. ids.items ≡ ids_of_items items.now) }
{
    let mut ids = Vec::with_capacity(alloc, items.len())?;
    for item in items {
        ids.push(item.id)?;
    }
    Ok(ids)
}

// The measure of the numbers of items.
fn of_numbers<M: Measure<Item = i64> + Drop>(
    alloc: Global,
    items: &[RowItem],
) -> Result<M, AllocError>
    requires { length items.now ≤ most_items }
    ensures { IfOk result (λ m. m ≡ M.of_items (numbers_of_items items.now)) }
{
    let mut measure = M::zero(alloc);
    for item in items {
        measure.add(item.number)?;
    }
    Ok(measure)
}

impl Cell {
    /// The cell that these items of rows come to.
    pub fn of_items(alloc: Global, form: MeasureForm, items: &[RowItem]) -> Result<Cell, AllocError>
        requires { length items.now ≤ most_items }
        ensures { IfOk result (λ cell. cell ≡ cell_of_items form items.now) }
    {
        match form {
            MeasureForm::Count => Ok(Cell::Count(Count::of(items.len() as u64))),
            MeasureForm::Known => Ok(Cell::Known(Count::of(items.len() as u64))),
            MeasureForm::Sum => Ok(Cell::Sum(of_numbers(alloc, items)?)),
            MeasureForm::Min => Ok(Cell::Min(of_numbers(alloc, items)?)),
            MeasureForm::Max => Ok(Cell::Max(of_numbers(alloc, items)?)),
            MeasureForm::Distinct => {
                let ids = ids_of(alloc, items)?;
                Ok(Cell::Distinct(IdSet::from_items(ids)?))
            }
        }
    }

    /// The form of the measure.
    pub fn form(&self) -> MeasureForm
        ensures { result ≡ form_of self.now }
    {
        match self {
            Cell::Count(_) => MeasureForm::Count,
            Cell::Known(_) => MeasureForm::Known,
            Cell::Sum(_) => MeasureForm::Sum,
            Cell::Min(_) => MeasureForm::Min,
            Cell::Max(_) => MeasureForm::Max,
            Cell::Distinct(_) => MeasureForm::Distinct,
        }
    }

    /// How many items the cell is of.
    pub fn items(&self) -> u64
        ensures { result ≡ items_of self.now }
    {
        match self {
            Cell::Count(count) | Cell::Known(count) => count.value(),
            Cell::Sum(sum) => sum.items(),
            Cell::Min(least) => least.items(),
            Cell::Max(greatest) => greatest.items(),
            Cell::Distinct(set) => set.items(),
        }
    }

    /// Merges another cell of the same form into this one; one of another form leaves it as it is. After want of memory the
    /// cell is as before.
    pub fn merge(&mut self, other: &Cell) -> Result<(), AllocError>
        requires { items_of self.old + items_of other.now ≤ most_items }
        ensures ok { OnOk result (self.new ≡ merged_cell self.old other.now) }
        ensures err { OnErr result (self.new ≡ self.old) }
    {
        match (self, other) {
            (Cell::Count(count), Cell::Count(more)) => count.merge(more),
            (Cell::Known(count), Cell::Known(more)) => count.merge(more),
            (Cell::Sum(sum), Cell::Sum(more)) => sum.merge(more),
            (Cell::Min(least), Cell::Min(more)) => least.merge(more),
            (Cell::Max(greatest), Cell::Max(more)) => greatest.merge(more),
            (Cell::Distinct(set), Cell::Distinct(more)) => set.merge(more),
            _ => Ok(()),
        }
    }
}
