// Tasks and products from their bytes.

ghost use Rattle.std.specs.Prelude.{◌≡◌, IfOk, MatchResult, None, Some};
ghost use Rattle.byte_frame.specs.Outcomes.{Gives};
ghost use Rattle.byte_frame.specs.Reading.{all_of};
ghost use Rattle.step_fields.specs.Reading.{rows_at};
ghost use Rattle.fixed_cube.specs.Columns.{joined_columns, row_limit};
ghost use Rattle.fixed_cube.specs.declared.products.FixedProduct.TheVariants.{Cells};
ghost use Rattle.fixed_cube.specs.Products.{IfDamaged};
ghost use Rattle.std.specs.Option.{option_map};
ghost use Rattle.fixed_cube.specs.Reading.{cells_at};
ghost use Rattle.fixed_cube.specs.Tasks.{FitsTask, product_in, task_at, task_of, task_text, work_at};

use crate::cells::{FixedCells, read_cells};
use crate::columns::{FACT_COLUMNS, JOINED_COLUMNS, ROW_LIMIT};
use crate::products::{FixedProduct, ProductFault};
use crate::task::{FixedTask, FlatWork};
use byte_frame::{FieldReader, ReadError};
use cube_val::Table;
use std::alloc::Global;
use step_fields::{read_rows, take_range};

// What stands behind the number of a step.
fn read_work(alloc: Global, step: u8, r: &mut FieldReader) -> Result<FixedTask, ReadError>
    ensures { Gives (λ task. (task, r.new)) result (work_at step r.old) }
{
    if step == 1 {
        let Some(range) = take_range(r) else {
            return Err(ReadError::Malformed);
        };
        return match read_rows(alloc, &FACT_COLUMNS, ROW_LIMIT, r) {
            Ok(rows) => Ok(FixedTask::Flat(FlatWork::of(range, rows))),
            Err(e) => Err(e),
        };
    }
    if step == 2 {
        return match read_rows(alloc, &JOINED_COLUMNS, ROW_LIMIT, r) {
            Ok(rows) => Ok(FixedTask::Base(rows)),
            Err(e) => Err(e),
        };
    }
    if step == 3 {
        return match read_cells(alloc, r) {
            Ok(cells) => Ok(FixedTask::Seal(cells)),
            Err(e) => Err(e),
        };
    }
    Err(ReadError::Malformed)
}

// The task in front of the bytes.
#[tactic(auto, unfolding(crate::specs::Tasks::task_at))]
fn read_front(alloc: Global, r: &mut FieldReader) -> Result<FixedTask, ReadError>
    ensures { Gives (λ task. (task, r.new)) result (task_at r.old) }
{
    let Some(step) = r.take_u8() else {
        return Err(ReadError::Malformed);
    };
    read_work(alloc, step, r)
}

// The task that all of the bytes are.
fn whole_task(alloc: Global, bytes: &[u8]) -> Result<FixedTask, ReadError>
    ensures { Gives (λ task. task) result (task_of bytes.now) }
{
    let mut reader = FieldReader::new(bytes);
    let task = match read_front(alloc, &mut reader) {
        Ok(task) => task,
        Err(e) => return Err(e),
    };
    if reader.left() != 0 {
        return Err(ReadError::Malformed);
    }
    Ok(task)
}

/// The task that all of the bytes are; Malformed exactly where they are none.
pub fn read_task(alloc: Global, bytes: &[u8]) -> Result<FixedTask, ReadError>
    ensures task { Gives (λ task. task) result (task_of bytes.now) }
    ensures found { IfOk result (λ task. FitsTask task × (bytes.now ≡ task_text task)) }
{
    match whole_task(alloc, bytes) {
        Ok(task) => Ok(task),
        Err(e) => Err(e),
    }
}

// The joined rows that all of the bytes are.
fn all_rows(alloc: Global, bytes: &[u8]) -> Result<Table, ReadError>
    ensures { Gives (λ rows. rows) result (all_of (rows_at joined_columns row_limit) bytes.now) }
{
    let mut r = FieldReader::new(bytes);
    let rows = match read_rows(alloc, &JOINED_COLUMNS, ROW_LIMIT, &mut r) {
        Ok(rows) => rows,
        Err(e) => return Err(e),
    };
    if r.left() != 0 {
        return Err(ReadError::Malformed);
    }
    Ok(rows)
}

// The cells that all of the bytes are.
fn all_cells(alloc: Global, bytes: &[u8]) -> Result<FixedCells, ReadError>
    ensures { Gives (λ cells. cells) result (all_of cells_at bytes.now) }
{
    let mut r = FieldReader::new(bytes);
    let cells = match read_cells(alloc, &mut r) {
        Ok(cells) => cells,
        Err(e) => return Err(e),
    };
    if r.left() != 0 {
        return Err(ReadError::Malformed);
    }
    Ok(cells)
}

// The cells that all of the bytes are, as a product.
fn cells_product(alloc: Global, bytes: &[u8]) -> Result<FixedProduct, ReadError>
    ensures { Gives (λ product. product) result (option_map Cells (all_of cells_at bytes.now)) }
{
    match all_cells(alloc, bytes) {
        Ok(cells) => Ok(FixedProduct::Cells(cells)),
        Err(e) => Err(e),
    }
}

// The product of a task that all of the bytes are.
fn product(alloc: Global, task: &[u8], bytes: &[u8]) -> Result<FixedProduct, ReadError>
    ensures { Gives (λ product. product) result (product_in task.now bytes.now) }
{
    match task {
        [] => Err(ReadError::Malformed),
        [1, ..] => match all_rows(alloc, bytes) {
            Ok(rows) => Ok(FixedProduct::Rows(rows)),
            Err(e) => Err(e),
        },
        [2, ..] => cells_product(alloc, bytes),
        [3, work @ ..] => {
            if bytes != work {
                return Err(ReadError::Malformed);
            }
            cells_product(alloc, bytes)
        }
        [_, ..] => Err(ReadError::Malformed),
    }
}

/// The product of a task that all of the bytes are; Damaged exactly where they are none. For the flat and the base step
/// any list of the step's form is a product, for the seal step the task's own list alone.
pub fn read_product(alloc: Global, task: &[u8], bytes: &[u8]) -> Result<FixedProduct, ProductFault>
    ensures { MatchResult result (λ product. product_in task.now bytes.now ≡ Some product) (λ fault. IfDamaged fault (product_in task.now bytes.now ≡ None)) }
{
    match product(alloc, task, bytes) {
        Ok(product) => Ok(product),
        Err(ReadError::Malformed) => Err(ProductFault::Damaged),
        Err(ReadError::Memory) => Err(ProductFault::Memory),
    }
}
