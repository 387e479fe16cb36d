// The cells of a row.

ghost use Rattle.std.specs.Prelude.{◌≡◌, ◌≤◌, ◌<◌, ◌*◌, IfOk, Some, None, length, nat_abs, nat_le, slice_get, if◌then◌else◌};
ghost use Rattle.std.specs.Int.{w64};
ghost use Rattle.std.specs.List.{list_all};
ghost use Rattle.std.specs.List.Sorted.{IsStrictlySortedBy};
ghost use Rattle.std.specs.Ordering.{nat_cmp};
ghost use Rattle.byte_frame.specs.Outcomes.{Gives};
ghost use Rattle.byte_frame.specs.Reading.{as_at, signed_at};
ghost use Rattle.measure_laws.specs.Measures.{most_of_item};
ghost use Rattle.cube_fields.specs.Cells.{are_ordered, value_in};
ghost use Rattle.cube_fields.specs.Reading.{cell_at, cells_at, count_at, counted_cells_at, distinct_of, greatest_of, id_at, ids_at, least_of, row_at, sum_at, sum_of};

use crate::each::{ReadsIn, read_behind};
use crate::forms::{CellField, CellTableForm, Extremes};
use crate::order::rise;
use byte_frame::{FieldReader, ReadError, Reads, read_list};
use cell_store::{Cell, CellRow};
use measure_laws::{Count, IdSet, Max, MeasureForm, Min, Sum};
use std::alloc::{AllocError, Global};

// The most that an item brings a sum away from zero.
const MOST_OF_ITEM: u128 = 9_223_372_036_854_775_808;

// How many items the cells of a row are of: at least one.
#[derive(Clone, Copy)]
struct ItemCount {
    items: u32,
    ghost some: { 1 ≤ items },
}

// The size of a dictionary.
#[derive(Clone, Copy)]
struct DictSize {
    size: u32,
}

fn take_id(size: u32, r: &mut FieldReader) -> Result<u32, ReadError>
    ensures { Gives (λ id. (id, r.new)) result (id_at size r.old) }
{
    let Some(id) = r.take_u32() else {
        return Err(ReadError::Malformed);
    };
    if id >= size {
        return Err(ReadError::Malformed);
    }
    Ok(id)
}

impl Reads<u32> for DictSize {
    ghost use Rattle.cube_fields.specs.Reading.{id_at};

    ghost at = { λ c. id_at c.size };

    fn read(&self, _alloc: Global, r: &mut FieldReader) -> Result<u32, ReadError> {
        take_id(self.size, r)
    }
}

impl ReadsIn<(), u32> for u32 {
    ghost use Rattle.cube_fields.specs.Reading.{id_at};

    ghost at = { λ _ size. id_at size };

    fn read_in(&self, _alloc: Global, _env: &(), r: &mut FieldReader) -> Result<u32, ReadError> {
        take_id(*self, r)
    }
}

// A cell of a sum, where so many items can have it.
fn sum_cell(count: ItemCount, total: i128) -> Option<Cell>
    ensures { result ≡ (if nat_le (nat_abs total) (count.items * most_of_item) then Some (sum_of count.items total) else None) }
{
    if total.unsigned_abs() > u128::from(count.items) * MOST_OF_ITEM {
        return None;
    }
    Some(Cell::Sum(Sum::of(u64::from(count.items), total)))
}

// A cell of a least value.
fn least_cell(count: ItemCount, v: i64) -> Cell
    ensures { result ≡ least_of count.items v }
{
    Cell::Min(Min::of(u64::from(count.items), v))
}

// A cell of a greatest value.
fn greatest_cell(count: ItemCount, v: i64) -> Cell
    ensures { result ≡ greatest_of count.items v }
{
    Cell::Max(Max::of(u64::from(count.items), v))
}

// A cell of different values.
fn distinct_cell(alloc: Global, count: ItemCount, ids: &[u32]) -> Result<Cell, AllocError>
    requires some { 0 < length ids.now }
    requires few { length ids.now ≤ count.items }
    requires rising { IsStrictlySortedBy nat_cmp ids.now }
    ensures { IfOk result (λ c. c ≡ distinct_of count.items ids.now) }
{
    let set = IdSet::of(alloc, u64::from(count.items), ids)?;
    Ok(Cell::Distinct(set))
}

// The sum of a cell.
fn read_sum(count: ItemCount, r: &mut FieldReader) -> Result<Cell, ReadError>
    ensures { Gives (λ c. (c, r.new)) result (as_at (sum_of count.items) (sum_at count.items) r.old) }
{
    let Some(total) = r.take_i128() else {
        return Err(ReadError::Malformed);
    };
    match sum_cell(count, total) {
        Some(cell) => Ok(cell),
        None => Err(ReadError::Malformed),
    }
}

// The least value of a cell.
fn read_least(count: ItemCount, r: &mut FieldReader) -> Result<Cell, ReadError>
    ensures { Gives (λ c. (c, r.new)) result (as_at (least_of count.items) (signed_at w64) r.old) }
{
    let Some(v) = r.take_i64() else {
        return Err(ReadError::Malformed);
    };
    Ok(least_cell(count, v))
}

// The greatest value of a cell.
fn read_greatest(count: ItemCount, r: &mut FieldReader) -> Result<Cell, ReadError>
    ensures { Gives (λ c. (c, r.new)) result (as_at (greatest_of count.items) (signed_at w64) r.old) }
{
    let Some(v) = r.take_i64() else {
        return Err(ReadError::Malformed);
    };
    Ok(greatest_cell(count, v))
}

// The numbers of a cell's different values.
fn read_ids(
    alloc: Global,
    count: ItemCount,
    size: u32,
    r: &mut FieldReader,
) -> Result<Vec<u32>, ReadError>
    ensures ids { Gives (λ ids. (ids.items, r.new)) result (ids_at count.items size r.old) }
    ensures some { IfOk result (λ ids. 0 < length ids.items) }
    ensures few { IfOk result (λ ids. length ids.items ≤ count.items) }
    ensures rising { IfOk result (λ ids. IsStrictlySortedBy nat_cmp ids.items) }
{
    let ids: Vec<u32> = match read_list(alloc, &DictSize { size }, count.items, r) {
        Ok(ids) => ids,
        Err(e) => return Err(e),
    };
    if !rise(ids.as_slice()) {
        return Err(ReadError::Malformed);
    }
    if ids.is_empty() {
        return Err(ReadError::Malformed);
    }
    Ok(ids)
}

// The different values of a cell.
fn read_distinct(
    alloc: Global,
    count: ItemCount,
    size: u32,
    r: &mut FieldReader,
) -> Result<Cell, ReadError>
    ensures { Gives (λ c. (c, r.new)) result (as_at (distinct_of count.items) (ids_at count.items size) r.old) }
{
    let ids = match read_ids(alloc, count, size, r) {
        Ok(ids) => ids,
        Err(e) => return Err(e),
    };
    let cell = distinct_cell(alloc, count, ids.as_slice())?;
    Ok(cell)
}

// A count of known values: no byte is written of it.
fn known_cell(count: ItemCount) -> Cell
    ensures { result ≡ Cell.Known count.items }
{
    Cell::Known(Count::of(u64::from(count.items)))
}

impl ReadsIn<ItemCount, Cell> for CellField {
    ghost use Rattle.cube_fields.specs.Reading.{cell_at};

    ghost at = { λ count field. cell_at count.items field };

    #[tactic(auto, unfolding(crate::specs::Reading::cell_at))]
    fn read_in(
        &self,
        alloc: Global,
        env: &ItemCount,
        r: &mut FieldReader,
    ) -> Result<Cell, ReadError> {
        match self.form {
            MeasureForm::Count => Err(ReadError::Malformed),
            MeasureForm::Known => Ok(known_cell(*env)),
            MeasureForm::Sum => read_sum(*env, r),
            MeasureForm::Min => read_least(*env, r),
            MeasureForm::Max => read_greatest(*env, r),
            MeasureForm::Distinct => read_distinct(alloc, *env, self.size, r),
        }
    }
}

// The count of a row.
fn take_count(most: u32, r: &mut FieldReader) -> Result<ItemCount, ReadError>
    ensures { Gives (λ n. (n.items, r.new)) result (count_at most r.old) }
{
    let Some(count) = r.take_u64() else {
        return Err(ReadError::Malformed);
    };
    if count < 1 || count > u64::from(most) {
        return Err(ReadError::Malformed);
    }
    Ok(ItemCount {
        items: count as u32,
    })
}

// The cells behind a count, with it.
#[tactic(auto, unfolding(crate::specs::Reading::counted_cells_at))]
fn read_counted_cells(
    alloc: Global,
    count: ItemCount,
    fields: &[CellField],
    r: &mut FieldReader,
) -> Result<Vec<Cell>, ReadError>
    ensures { Gives (λ cells. (cells.items, r.new)) result (counted_cells_at count.items fields.now r.old) }
{
    let mut front = Vec::new(alloc);
    front.push(Cell::Count(Count::of(u64::from(count.items))))?;
    read_behind(front, alloc, &count, fields, r)
}

// A count, and the cells behind it.
fn read_cells(
    alloc: Global,
    most: u32,
    fields: &[CellField],
    r: &mut FieldReader,
) -> Result<Vec<Cell>, ReadError>
    ensures { Gives (λ cells. (cells.items, r.new)) result (cells_at most fields.now r.old) }
{
    let count = match take_count(most, r) {
        Ok(count) => count,
        Err(e) => return Err(e),
    };
    read_counted_cells(alloc, count, fields, r)
}

// The value of the least or the greatest cell at a place.
fn value_at(cells: &[Cell], place: usize) -> i64
    ensures { result ≡ value_in (slice_get cells.now place) }
{
    match cells.get(place) {
        Some(Cell::Min(least)) => least.value().unwrap_or(0),
        Some(Cell::Max(greatest)) => greatest.value().unwrap_or(0),
        _ => 0,
    }
}

// Whether the least value is at most the greatest one.
fn are_ordered(cells: &[Cell], e: Extremes) -> bool
    ensures { result ≡ are_ordered cells.now e }
{
    value_at(cells, e.least) <= value_at(cells, e.greatest)
}

// Whether each least value is at most its greatest one.
fn all_ordered(cells: &[Cell], extremes: &[Extremes]) -> bool
    ensures { result ≡ list_all (are_ordered cells.now) extremes.now }
{
    extremes.iter().all(|e| are_ordered(cells, *e))
}

/// What a row of a cell table is read by: the sizes of its dimensions' dictionaries, and the form of its table.
#[derive(Clone, Copy)]
pub(crate) struct RowOf<'a> {
    /// The size of the dictionary of each dimension of the table's mask.
    pub(crate) sizes: &'a [u32],
    /// The form of the table.
    pub(crate) form: &'a CellTableForm,
}

#[tactic(auto, unfolding(crate::specs::Reading::row_at))]
fn read_row(
    alloc: Global,
    sizes: &[u32],
    form: &CellTableForm,
    r: &mut FieldReader,
) -> Result<CellRow, ReadError>
    ensures { Gives (λ row. (row, r.new)) result (row_at sizes.now form.now r.old) }
{
    let key = match read_behind(Vec::new(alloc), alloc, &(), sizes, r) {
        Ok(key) => key,
        Err(e) => return Err(e),
    };
    let cells = match read_cells(alloc, form.most, form.cells.as_slice(), r) {
        Ok(cells) => cells,
        Err(e) => return Err(e),
    };
    if !all_ordered(cells.as_slice(), form.extremes.as_slice()) {
        return Err(ReadError::Malformed);
    }
    Ok(CellRow::new(key, cells))
}

impl<'a> Reads<CellRow> for RowOf<'a> {
    ghost use Rattle.cube_fields.specs.Reading.{row_at};

    ghost at = { λ c. row_at c.sizes.now c.form.now };

    fn read(&self, alloc: Global, r: &mut FieldReader) -> Result<CellRow, ReadError> {
        read_row(alloc, self.sizes, self.form, r)
    }
}
