// The work of a child.

ghost use Rattle.std.specs.Prelude.{◌≡◌, ◌≤◌, ◌<◌, ◌^◌, IfOk, IsErrOf, OnOk, length};
ghost use Rattle.outside.specs.Counts.{Rose};
ghost use Rattle.outside.specs.Watches.{HoldsIfTold, KeepsHeld};
ghost use Rattle.step_task.specs.Steps.{IsTask, made_of};

use crate::making::product_of;
use outside::{StepWork, Watch, WorkFault};
use sha2::{Digest, Sha256};
use std::alloc::Global;
use std::thread::Threads;
use step_compute::StepFault;
use step_files::{TaskRefusal, product_file, read_task};

// No slice is longer.
fn short(bytes: &[u8]) -> usize
    ensures { length bytes.now < 2 ^ 64 }
{
    bytes.len()
}

/// The file of what the step of a task makes. It looks at its watch before it begins, and then before each thousand rows that
/// the step goes through and before each batch of cuboids; want of memory may stand in place of every answer.
pub fn run_step<R: Threads + Sync, W: Watch>(
    rt: &R,
    alloc: Global,
    task: &[u8],
    watch: &mut W,
) -> Result<Vec<u8>, WorkFault>
    ensures product { IfOk result (λ product. product.items ≡ made_of task.now) }

    // BadTask comes exactly where the bytes are no task.
    ensures bad_task { IsErrOf result WorkFault.BadTask → ¬ (IsTask task.now) }
    ensures ok_task { OnOk result (IsTask task.now) }
    ensures stopped_task { IsErrOf result WorkFault.Stopped → IsTask task.now }

    ensures stopped { IsErrOf result WorkFault.Stopped → Rose (W.seen watch.old) (W.seen watch.new) }
    ensures stopped_there { IsErrOf result WorkFault.Stopped → HoldsIfTold (W.there watch.old) }

    ensures seen { W.seen watch.old ≤ W.seen watch.new }
    ensures there { W.there watch.new ≡ W.there watch.old }
    ensures held { KeepsHeld (W.held watch.old) (W.held watch.new) }
    ensures place { W.place watch.new ≡ W.place watch.old }
{
    short(task);
    let found = match read_task(alloc, task) {
        Ok(found) => found,
        Err(TaskRefusal::BadTask) => return Err(WorkFault::BadTask),
        Err(TaskRefusal::Memory) => return Err(WorkFault::Memory),
    };
    let digest: [u8; 32] = Sha256::digest(task);
    let product = match product_of(rt, alloc, found, watch) {
        Ok(product) => product,
        Err(StepFault::Stopped) => return Err(WorkFault::Stopped),
        Err(StepFault::Memory) => return Err(WorkFault::Memory),
    };
    match product_file(alloc, &digest, &product) {
        Ok(file) => Ok(file),
        Err(_) => Err(WorkFault::Memory),
    }
}

/// The work of the steps of all cubes.
pub struct CubeWork;

impl StepWork for CubeWork {
    ghost is_task = { IsTask };

    ghost text = { made_of };

    fn work<R: Threads + Sync, W: Watch>(
        rt: &R,
        alloc: Global,
        task: &[u8],
        watch: &mut W,
    ) -> Result<Vec<u8>, WorkFault> {
        run_step(rt, alloc, task, watch)
    }
}
