//! Why a log gave no answer.

ghost use Rattle.std.specs.Prelude.{◌≡◌};
ghost use Rattle.entry_log.specs.Faults.{log_fault_of};
ghost use Rattle.entry_log.specs.declared.fault.LogFault.TheVariants.{Memory};

use disk_image::DiskFault;
use std::alloc::{AllocError, AllocFailed};
use thiserror::Error;

/// Why a log gave no answer.
#[derive(Clone, Copy, Debug, PartialEq, Eq, Error)]
pub enum LogFault {
    /// No memory was found for the call.
    #[error("out of memory")]
    Memory,
    /// The disk has failed.
    #[error("the disk failed")]
    Disk,
    /// The bytes on the disk are no log.
    #[error("no log")]
    NotLog,
}

impl From<DiskFault> for LogFault {
    ghost from_gives = { λ fault log_fault. log_fault ≡ log_fault_of fault };

    fn from(fault: DiskFault) -> LogFault {
        match fault {
            DiskFault::Memory => LogFault::Memory,
            DiskFault::Failed => LogFault::Disk,
        }
    }
}

impl From<AllocError> for LogFault {
    ghost from_gives = { λ _ fault. fault ≡ Memory };

    fn from(_e: AllocError) -> LogFault {
        LogFault::Memory
    }
}

impl<T: Drop> From<AllocFailed<T>> for LogFault {
    ghost from_gives = { λ _ fault. fault ≡ Memory };

    fn from(_e: AllocFailed<T>) -> LogFault {
        LogFault::Memory
    }
}
