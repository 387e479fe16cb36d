// Where the files of attempts stand.

ghost use Rattle.std.specs.Prelude.{◌≡◌, IfOk, codes, string_bytes};
ghost use Rattle.os_objects.specs.Paths.{attempt_path};

use std::alloc::{AllocError, Global};

/// The folder in which the files of all attempts stand. It is looked for where the program runs.
pub const WORK_FOLDER: &str = "cubes.work";

fn path_of(alloc: Global, job: u32, attempt: u32, kind: &str) -> Result<String, AllocError>
    ensures { IfOk result (λ path. string_bytes path ≡ attempt_path job attempt kind.now) }
{
    format!(in alloc; "cubes.work/job-{job}-{attempt}.{kind}")
}

/// The path of the task of this attempt of this job.
pub fn task_path(alloc: Global, job: u32, attempt: u32) -> Result<String, AllocError>
    ensures { IfOk result (λ path. string_bytes path ≡ attempt_path job attempt (codes "task")) }
{
    path_of(alloc, job, attempt, "task")
}

/// The path at which this attempt of this job leaves its product.
pub fn product_path(alloc: Global, job: u32, attempt: u32) -> Result<String, AllocError>
    ensures { IfOk result (λ path. string_bytes path ≡ attempt_path job attempt (codes "product")) }
{
    path_of(alloc, job, attempt, "product")
}

/// The path of the file that asks this attempt of this job to stop: it is to stop where something stands there.
pub fn stop_path(alloc: Global, job: u32, attempt: u32) -> Result<String, AllocError>
    ensures { IfOk result (λ path. string_bytes path ≡ attempt_path job attempt (codes "stop")) }
{
    path_of(alloc, job, attempt, "stop")
}
