// Who runs the steps of jobs.

ghost use denote.Param.Send.{IsSync};
ghost use Rattle.std.specs.Prelude.{◌≡◌, ◌≢◌, ◌≤◌, ◌<◌, ◌^◌, ◌⊎◌, ℕ, List, Option, Err, IfErr, IfOk, IsErrOf};
ghost use Rattle.outside.specs.Counts.{Rose};
ghost use Rattle.outside.specs.Hands.{AnswersFails, Call, Fail, call_of, with_call};

use crate::work::StepWork;
use std::alloc::Global;
use std::sync::Wait;
use std::thread::Threads;
use thiserror::Error;

/// Why a run of a step has no product.
#[derive(Clone, Copy, Debug, PartialEq, Eq, Error)]
pub enum HandFault {
    /// No memory was found for the run.
    #[error("out of memory")]
    Memory,
    /// The child could not be started.
    #[error("not started")]
    NotStarted,
    /// The child ended with this status, which isn't 0.
    #[error("ended with status {0}")]
    Ended(u8),
    /// The child was killed.
    #[error("killed")]
    Killed,
    /// The child left no product that can be read.
    #[error("no file")]
    NoFile,
}

/// One fact of a type of hands.
pub trait Honest {
    // Each product that a run answers with is its task's.
    ghost honest: { Type 0 };
}

/// Runs the steps of jobs, each attempt of a step in one call.
pub trait Hand<K: StepWork>: Honest {
    // How many runs there were.
    ghost runs: { Self → ℕ };

    // How many runs failed.
    ghost faults: { Self → ℕ };

    // The faults that attempts meet, where they are told. No call changes them.
    ghost fails: { Self → Option (List Fail) };

    // The calls so far, where they are told.
    ghost calls: { Self → Option (List Call) };

    /// The product of the task, run as this attempt of this job. Want of memory may stand in place of every answer.
    fn run<R: Threads + Wait + Sync>(
        &mut self,
        rt: &R,
        alloc: Global,
        job: u32,
        attempt: u32,
        task: &[u8],
    ) -> Result<Vec<u8>, HandFault>
        // The work may share the runtime among threads.
        requires { IsSync R.row }
        ensures product { Self.honest → K.is_task task.now → IfOk result (λ product. product.items ≡ K.text task.now) }

        ensures ran { Rose (runs self.old) (runs self.new) }
        ensures failed { IfErr result (λ fault. fault ≢ HandFault.Memory → Rose (faults self.old) (faults self.new)) }
        ensures faults { faults self.old ≤ faults self.new }
        ensures bounded { (runs self.new < 2 ^ 64) × (faults self.new < 2 ^ 64) }

        // A task is answered by the first fault that stands there for the attempt, or by its product.
        ensures answers_fails { K.is_task task.now → AnswersFails (fails self.old) job attempt result }
        ensures fails { fails self.new ≡ fails self.old }

        // Each call appends its own entry; one that answers Memory appends its entry or nothing.
        ensures called { result ≢ Err HandFault.Memory → calls self.new ≡ with_call (calls self.old) (call_of job attempt task.now) }
        ensures called_memory { IsErrOf result HandFault.Memory → (calls self.new ≡ with_call (calls self.old) (call_of job attempt task.now)) ⊎ (calls self.new ≡ calls self.old) };
}
