// The work that a child does on a task.

ghost use denote.Param.Send.{IsSync};
ghost use Rattle.std.specs.Prelude.{◌≡◌, ◌≤◌, ◌<◌, ◌^◌, ℕ, List, IfOk, IsErrOf, OnOk};
ghost use Rattle.outside.specs.Counts.{Rose};
ghost use Rattle.outside.specs.Watches.{HoldsIfTold, KeepsHeld};

use crate::watch::Watch;
use std::alloc::Global;
use std::thread::Threads;
use thiserror::Error;

/// Why a piece of work has no product.
#[derive(Clone, Copy, Debug, PartialEq, Eq, Error)]
pub enum WorkFault {
    /// No memory was found for the work.
    #[error("out of memory")]
    Memory,
    /// The bytes are no task.
    #[error("no task")]
    BadTask,
    /// A stop was asked for.
    #[error("stopped")]
    Stopped,
}

/// A kind of work: which bytes are its tasks, and the product of each.
pub trait StepWork {
    // The bytes are a task.
    ghost is_task: { List ℕ → Type 0 };

    // The product of a task, as bytes.
    ghost text: { List ℕ → List ℕ };

    /// The product of the task. Want of memory may stand in place of every answer.
    fn work<R: Threads + Sync, W: Watch>(
        rt: &R,
        alloc: Global,
        task: &[u8],
        watch: &mut W,
    ) -> Result<Vec<u8>, WorkFault>
        // The work may share the runtime among threads.
        requires { IsSync R.row }
        ensures product { IfOk result (λ product. product.items ≡ text task.now) }

        // BadTask comes exactly where the bytes are no task.
        ensures bad_task { IsErrOf result WorkFault.BadTask → ¬ is_task task.now }
        ensures ok_task { OnOk result (is_task task.now) }
        ensures stopped_task { IsErrOf result WorkFault.Stopped → is_task task.now }

        ensures stopped { IsErrOf result WorkFault.Stopped → Rose (W.seen watch.old) (W.seen watch.new) }
        ensures stopped_there { IsErrOf result WorkFault.Stopped → HoldsIfTold (W.there watch.old) }

        ensures seen { W.seen watch.old ≤ W.seen watch.new }
        ensures there { W.there watch.new ≡ W.there watch.old }
        ensures held { KeepsHeld (W.held watch.old) (W.held watch.new) }
        ensures place { W.place watch.new ≡ W.place watch.old };
}
