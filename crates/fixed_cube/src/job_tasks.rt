// The tasks of a job's steps.

ghost use Rattle.std.specs.Prelude.{◌≡◌, ◌≤◌, ◌<◌, [], ◌∷◌, IfOk, length};
ghost use Rattle.fixed_cube.specs.Columns.{row_limit};
ghost use Rattle.fixed_cube.specs.Cube.{job_task, task_after};

use byte_frame::{put_bytes, put_u8};
use cube_val::Table;
use range_list::Range;
use std::alloc::{AllocError, Global};
use step_fields::{put_range, put_rows};

/// The task of a job's first step, over the rows of F.
#[tactic(auto, unfolding(crate::specs::Cube::job_task))]
pub fn first_task(alloc: Global, range: &Range, rows: &Table) -> Result<Vec<u8>, AllocError>
    requires { length rows.now ≤ row_limit }
    ensures { IfOk result (λ task. task.items ≡ job_task (record { tables = rows.now ∷ []; range = range.now }) 0) }
{
    let mut task = Vec::new(alloc);
    put_u8(&mut task, 1)?;
    put_range(&mut task, range)?;
    put_rows(&mut task, rows.rows())?;
    Ok(task)
}

/// The task of a job's next step, of which so many are done, from the product of the last of them.
pub fn next_task(alloc: Global, done: u8, product: &[u8]) -> Result<Vec<u8>, AllocError>
    requires { done < 255 }
    ensures { IfOk result (λ task. task.items ≡ task_after done product.now) }
{
    let mut task = Vec::new(alloc);
    put_u8(&mut task, done + 1)?;
    put_bytes(&mut task, product)?;
    Ok(task)
}
