// The tasks of steps, from what is kept.

ghost use Rattle.std.specs.Prelude.{◌≡◌, ◌≤◌, ◌<◌, IfOk, IsSome, length};
ghost use Rattle.std.specs.Option.{ForSome};
ghost use Rattle.fixed_cube.specs.Columns.{row_limit};
ghost use Rattle.fixed_cube.specs.Cube.{fact_rows, job_task};
ghost use Rattle.run_state.specs.States.{entry_at, rows_in_force};
ghost use Rattle.fixed_state.specs.Tasks.{snapshot_at, task_kept};
ghost use Rattle.fixed_state.specs.States.{rows_seen};

use crate::FixedState;
use crate::product::KeptProduct;
use crate::table::SharedTable;
use cube_val::Table;
use fixed_cube::{first_task, next_task};
use range_list::Range;
use run_state::JobEntry;
use std::alloc::{AllocError, Global};

// The first task over the first of these tables; one that was not loaded has no row.
#[tactic(auto, unfolding(fixed_cube::specs::Cube::job_task))]
fn task_over(
    alloc: Global,
    range: &Range,
    tables: &[Option<SharedTable>],
) -> Result<Vec<u8>, AllocError>
    requires { length (fact_rows (record { tables = rows_in_force rows_seen tables.now; range = range.now })) ≤ row_limit }
    ensures { IfOk result (λ task. task.items ≡ job_task (record { tables = rows_in_force rows_seen tables.now; range = range.now }) 0) }
{
    match tables {
        [Some(table), ..] => first_task(alloc, range, table.table()),
        [None, ..] => first_task(alloc, range, &Table::new(alloc)),
        [] => first_task(alloc, range, &Table::new(alloc)),
    }
}

// The first task of a job.
fn flat_task(
    alloc: Global,
    entry: &JobEntry<SharedTable, KeptProduct>,
    loaded: &[Option<SharedTable>],
) -> Result<Vec<u8>, AllocError>
    requires { length (fact_rows (snapshot_at entry.now loaded.now)) ≤ row_limit }
    ensures { IfOk result (λ task. task.items ≡ job_task (snapshot_at entry.now loaded.now) 0) }
{
    match &entry.tables {
        Some(tables) => task_over(alloc, &entry.range, tables),
        None => task_over(alloc, &entry.range, loaded),
    }
}

// The task of a job's next step.
fn task_of_entry(
    alloc: Global,
    entry: &JobEntry<SharedTable, KeptProduct>,
    loaded: &[Option<SharedTable>],
) -> Result<Vec<u8>, AllocError>
    requires rows { length (fact_rows (snapshot_at entry.now loaded.now)) ≤ row_limit }
    requires steps { length entry.now.products.items < 255 }
    ensures { IfOk result (λ task. task.items ≡ task_kept (snapshot_at entry.now loaded.now) entry.now.products.items) }
{
    let done = entry.products.len();
    if done == 0 {
        return flat_task(alloc, entry, loaded);
    }
    let product = &entry.products[done - 1];
    next_task(alloc, done as u8, product.bytes())
}

/// The task of the next step of a job, made of its snapshot, or of the tables in force before its first claim, and of the products kept
/// of its steps done.
pub fn task_of_job(alloc: Global, state: &FixedState, job: u32) -> Result<Vec<u8>, AllocError>
    requires there { IsSome (entry_at state.now.jobs.items job) }
    requires rows { ForSome (entry_at state.now.jobs.items job) (λ entry. length (fact_rows (snapshot_at entry state.now.loaded.items)) ≤ row_limit) }
    requires steps { ForSome (entry_at state.now.jobs.items job) (λ entry. length entry.products.items < 255) }
    ensures { IfOk result (λ task. ForSome (entry_at state.now.jobs.items job) (λ entry. task.items ≡ task_kept (snapshot_at entry state.now.loaded.items) entry.products.items)) }
{
    let place = job as usize - 1;
    let entry = &state.jobs[place];
    task_of_entry(alloc, entry, &state.loaded)
}
