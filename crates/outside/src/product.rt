// The answer of a hand that does the work itself.

ghost use Rattle.std.specs.Prelude.{◌≡◌, ◌⊎◌, IfErr, IfOk, OnOk};
ghost use Rattle.outside.specs.Counts.{raised};
ghost use Rattle.outside.specs.MemoryHand.{faults_after};

use crate::hand::HandFault;
use crate::watch::NoWatch;
use crate::work::{StepWork, WorkFault};
use std::alloc::Global;
use std::thread::Threads;

/// The status of a child whose bytes are no task.
const NO_TASK: u8 = 9;

/// The product of the task, which nobody stops.
pub fn product_of<K: StepWork, R: Threads + Sync>(
    rt: &R,
    alloc: Global,
    task: &[u8],
) -> Result<Vec<u8>, HandFault>
    ensures product { IfOk result (λ product. product.items ≡ K.text task.now) }
    ensures ok_task { OnOk result (K.is_task task.now) }
    ensures no_task { IfErr result (λ fault. (fault ≡ HandFault.Memory) ⊎ ((fault ≡ HandFault.Ended 9) × ¬ K.is_task task.now)) }
{
    let mut watch = NoWatch;
    match K::work(rt, alloc, task, &mut watch) {
        Ok(product) => Ok(product),
        Err(WorkFault::Memory) => Err(HandFault::Memory),
        Err(WorkFault::BadTask) => Err(HandFault::Ended(NO_TASK)),
        Err(WorkFault::Stopped) => unreachable!(),
    }
}

/// A count of faults after this answer.
pub fn count_after(faults: u64, answer: &Result<Vec<u8>, HandFault>) -> u64
    ensures { result ≡ faults_after answer.now faults }
{
    match answer {
        Ok(_) => faults,
        Err(HandFault::Memory) => faults,
        Err(HandFault::NotStarted) => faults.saturating_add(1),
        Err(HandFault::Ended(_)) => faults.saturating_add(1),
        Err(HandFault::Killed) => faults.saturating_add(1),
        Err(HandFault::NoFile) => faults.saturating_add(1),
    }
}
