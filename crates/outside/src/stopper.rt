// Who asks a running attempt to stop.

ghost use Rattle.std.specs.Prelude.{◌≡◌, ◌≢◌, ◌≤◌, ◌<◌, ◌^◌, ◌⊎◌, ℕ, List, Option, Err, IsErrOf};
ghost use Rattle.outside.specs.Counts.{Rose};
ghost use Rattle.outside.specs.Stoppers.{request_of, with_request};
ghost use Rattle.outside.specs.declared.stopper.Request.{Request};

use std::alloc::Global;
use thiserror::Error;

/// Why a stop was not asked for.
#[derive(Clone, Copy, Debug, PartialEq, Eq, Error)]
pub enum StopFault {
    /// No memory was found for the request.
    #[error("out of memory")]
    Memory,
    /// The request could not be made.
    #[error("failed")]
    Failed,
}

/// The attempt of a job that is asked to stop.
#[derive(Clone, Copy, Debug, PartialEq, Eq)]
pub struct Request {
    pub job: u32,
    pub attempt: u32,
}

/// Asks running attempts to stop. That a request arrives or is heeded is not claimed.
pub trait Stopper {
    // How often a stop was asked for.
    ghost asks: { Self → ℕ };

    // How often that failed.
    ghost faults: { Self → ℕ };

    // The requests so far, where they are told.
    ghost requests: { Self → Option (List Request) };

    /// Asks this attempt of this job to stop.
    fn stop(&mut self, alloc: Global, job: u32, attempt: u32) -> Result<(), StopFault>
        ensures asked { Rose (asks self.old) (asks self.new) }
        ensures failed { IsErrOf result StopFault.Failed → Rose (faults self.old) (faults self.new) }
        ensures faults { faults self.old ≤ faults self.new }
        ensures bounded { (asks self.new < 2 ^ 64) × (faults self.new < 2 ^ 64) }

        // Each call appends its own entry; one that answers Memory appends its entry or nothing.
        ensures requested { result ≢ Err StopFault.Memory → requests self.new ≡ with_request (requests self.old) (request_of job attempt) }
        ensures requested_memory { IsErrOf result StopFault.Memory → (requests self.new ≡ with_request (requests self.old) (request_of job attempt)) ⊎ (requests self.new ≡ requests self.old) };
}
