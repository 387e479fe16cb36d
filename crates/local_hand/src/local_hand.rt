// A hand that does the work in this process.

ghost use denote.Param.Send.{IsSync};
ghost use Rattle.std.specs.Prelude.{◌≡◌, ◌≢◌, ◌≤◌, ◌<◌, ◌^◌, ◌⊎◌, [], ⊤, Some, None, Err, IfErr, IfOk, IsErrOf, OnErr, OnOk};
ghost use Rattle.outside.specs.Counts.{Rose, raised};
ghost use Rattle.outside.specs.Hands.{AnswersFails};
ghost use Rattle.outside.specs.MemoryHand.{faults_after};

use outside::{Hand, HandFault, Honest, NoWatch, StepWork, WorkFault};
use std::alloc::Global;
use std::marker::{Model, PhantomData};
use std::sync::Wait;
use std::thread::Threads;

/// The status of a child whose bytes are no task.
const NO_TASK: u8 = 9;

/// A hand that does the work itself, in this process, and keeps no task and no product.
#[derive(Drop)]
pub struct LocalHand<K> {
    runs: u64,
    faults: u64,
    of: PhantomData<K>,
}

impl<K> Model for LocalHand<K> {
    ghost use Rattle.std.specs.Prelude.{◌<◌, ◌^◌};
    ghost use Rattle.local_hand.specs.LocalHand.{Counts};

    ghost Value = { Counts };

    ghost view = { λ h. record { runs = h.runs; faults = h.faults } };

    ghost invariant = { λ h. (h.runs < 2 ^ 64) × (h.faults < 2 ^ 64) };
}

impl<K> LocalHand<K> {
    /// A hand without a run.
    pub fn new() -> LocalHand<K>
        ensures { result ≡ record { runs = 0; faults = 0 } }
    {
        LocalHand {
            runs: 0,
            faults: 0,
            of: PhantomData,
        }
    }
}

// The product of the task, which nobody stops.
fn product_of<K: StepWork, R: Threads + Sync>(
    rt: &R,
    alloc: Global,
    task: &[u8],
) -> Result<Vec<u8>, HandFault>
    requires { IsSync R.row }
    ensures product { IfOk result (λ product. product.items ≡ K.text task.now) }
    ensures ok_task { OnOk result (K.is_task task.now) }
    ensures no_task { IfErr result (λ fault. (fault ≡ HandFault.Memory) ⊎ ((fault ≡ HandFault.Ended 9) × ¬ K.is_task task.now)) }
{
    let mut watch = NoWatch;
    match K::work(rt, alloc, task, &mut watch) {
        Ok(product) => Ok(product),
        Err(WorkFault::Memory) => Err(HandFault::Memory),
        Err(WorkFault::BadTask) => Err(HandFault::Ended(NO_TASK)),
        Err(WorkFault::Stopped) => unreachable!(),
    }
}

// A count of faults after this answer.
fn count_after(faults: u64, answer: &Result<Vec<u8>, HandFault>) -> u64
    ensures { result ≡ faults_after answer.now faults }
{
    match answer {
        Ok(_) => faults,
        Err(HandFault::Memory) => faults,
        Err(HandFault::NotStarted) => faults.saturating_add(1),
        Err(HandFault::Ended(_)) => faults.saturating_add(1),
        Err(HandFault::Killed) => faults.saturating_add(1),
        Err(HandFault::NoFile) => faults.saturating_add(1),
    }
}

impl<K> Honest for LocalHand<K> {
    ghost honest = { ⊤ };
}

impl<K: StepWork> Hand<K> for LocalHand<K> {
    ghost runs = { λ h. h.runs };

    ghost faults = { λ h. h.faults };

    ghost fails = { λ _. Some [] };

    ghost calls = { λ _. None };

    fn run<R: Threads + Wait + Sync>(
        &mut self,
        rt: &R,
        alloc: Global,
        _job: u32,
        _attempt: u32,
        task: &[u8],
    ) -> Result<Vec<u8>, HandFault>
        requires { IsSync R.row }
        ensures product { IfOk result (λ product. product.items ≡ K.text task.now) }
        ensures task { K.is_task task.now → IfErr result (λ fault. fault ≡ HandFault.Memory) }
        ensures no_task { ¬ K.is_task task.now → IsErrOf result (HandFault.Ended 9) ⊎ IsErrOf result HandFault.Memory }

        ensures counted { self.new.runs ≡ raised self.old.runs }
        ensures ran { Rose self.old.runs self.new.runs }
        ensures failed { IfErr result (λ fault. fault ≢ HandFault.Memory → Rose self.old.faults self.new.faults) }
        ensures steady { self.new.faults ≡ faults_after result self.old.faults }
        ensures faults { self.old.faults ≤ self.new.faults }
        ensures answers_fails { K.is_task task.now → AnswersFails (Some []) _job _attempt result }
        ensures bounded { (self.new.runs < 2 ^ 64) × (self.new.faults < 2 ^ 64) }
    {
        self.runs = self.runs.saturating_add(1);
        let answer = product_of::<K, R>(rt, alloc, task);
        self.faults = count_after(self.faults, &answer);
        answer
    }
}
