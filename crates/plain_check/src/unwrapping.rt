// A small work of steps.

ghost use Rattle.std.specs.Prelude.{◌<◌, drop, length};

use outside::{StepWork, Watch, WorkFault};
use std::alloc::Global;
use std::thread::Threads;

/// A work whose tasks are the products behind one byte more.
pub(crate) struct Unwrapping;

impl StepWork for Unwrapping {
    ghost is_task = { λ task. 0 < length task };

    ghost text = { λ task. drop 1 task };

    fn work<R: Threads + Sync, W: Watch>(
        rt: &R,
        alloc: Global,
        task: &[u8],
        watch: &mut W,
    ) -> Result<Vec<u8>, WorkFault> {
        let _ = rt;
        if task.is_empty() {
            return Err(WorkFault::BadTask);
        }
        if watch.asked() {
            return Err(WorkFault::Stopped);
        }
        match Vec::from_slice(alloc, &task[1..]) {
            Ok(product) => Ok(product),
            Err(_) => Err(WorkFault::Memory),
        }
    }
}
