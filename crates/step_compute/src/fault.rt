// Why a step made nothing.

ghost use Rattle.step_compute.specs.declared.fault.StepFault.TheVariants as fault;
ghost use Rattle.std.specs.Prelude.{◌≡◌};

use std::alloc::{AllocError, AllocFailed};

/// Why a step made nothing.
#[derive(Clone, Copy)]
pub enum StepFault {
    /// No memory was found.
    Memory,
    /// A stop was asked for.
    Stopped,
}

impl From<AllocError> for StepFault {
    ghost from_gives = { λ _ f. f ≡ fault.Memory };

    fn from(_e: AllocError) -> StepFault {
        StepFault::Memory
    }
}

impl<T: Drop> From<AllocFailed<T>> for StepFault {
    ghost from_gives = { λ _ f. f ≡ fault.Memory };

    fn from(_e: AllocFailed<T>) -> StepFault {
        StepFault::Memory
    }
}
