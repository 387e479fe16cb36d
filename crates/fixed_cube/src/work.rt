// The work of the steps, as a child does it.

ghost use Rattle.fixed_cube.specs.Tasks.{IsTask, product_of};

use crate::reading::read_task;
use crate::steps::product;
use byte_frame::ReadError;
use outside::{StepWork, Watch, WorkFault};
use std::alloc::Global;
use std::thread::Threads;

/// The work of the steps of the fixed cube. It asks its watch once, after the task is read and before the work is done.
pub struct SmallWork;

impl StepWork for SmallWork {
    ghost is_task = { IsTask };

    ghost text = { product_of };

    fn work<R: Threads + Sync, W: Watch>(
        rt: &R,
        alloc: Global,
        task: &[u8],
        watch: &mut W,
    ) -> Result<Vec<u8>, WorkFault> {
        let _ = rt;
        let found = match read_task(alloc, task) {
            Ok(found) => found,
            Err(ReadError::Malformed) => return Err(WorkFault::BadTask),
            Err(ReadError::Memory) => return Err(WorkFault::Memory),
        };
        if watch.asked() {
            return Err(WorkFault::Stopped);
        }
        match product(alloc, &found) {
            Ok(product) => Ok(product),
            Err(_) => Err(WorkFault::Memory),
        }
    }
}
