// Why a run ends early.

use std::alloc::AllocError;

/// Why a run ended before its script did.
#[derive(Clone, Copy)]
pub enum RunFault {
    /// No memory was found.
    Memory,
    /// The transcript could not be written.
    Write,
}

impl From<AllocError> for RunFault {
    ghost use Rattle.std.specs.Prelude.{◌≡◌};
    ghost use Rattle.coordinator.specs.declared.fault.RunFault.TheVariants.{Memory};

    ghost from_gives = { λ _ fault. fault ≡ Memory };

    fn from(_error: AllocError) -> RunFault {
        RunFault::Memory
    }
}
