//! Why bytes gave no value.

ghost use Rattle.std.specs.Prelude.{◌≡◌};
ghost use Rattle.byte_frame.specs.declared.fault.ReadError.TheVariants.{Memory};

use std::alloc::{AllocError, AllocFailed};

/// Why bytes gave no value.
#[derive(Debug, Drop)]
pub enum ReadError {
    /// They are not in the format.
    Malformed,
    /// Memory was refused. Nothing is said of the bytes.
    Memory,
}

impl From<AllocError> for ReadError {
    ghost from_gives = { λ _ e. e ≡ Memory };

    fn from(_e: AllocError) -> ReadError {
        ReadError::Memory
    }
}

impl<T: Drop> From<AllocFailed<T>> for ReadError {
    ghost from_gives = { λ _ e. e ≡ Memory };

    fn from(_e: AllocFailed<T>) -> ReadError {
        ReadError::Memory
    }
}
