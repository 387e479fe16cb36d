// Why the tokens are no query.

ghost use Rattle.std.specs.Prelude.{◌≡◌};
ghost use Rattle.sql_reader.specs.declared.stop.ReadError.TheVariants.{Memory};

use std::alloc::{AllocError, AllocFailed};

/// Why a token is refused with which a query would go on but for its limits.
#[derive(Clone, Copy)]
pub enum Bar {
    /// It is one `(` or NOT too many.
    TooDeep,
    /// It is no number of rows.
    BadNumber,
}

/// Where no query goes on, as the number of tokens left, the one that stopped the reader among them.
#[derive(Clone, Copy)]
pub enum Stop {
    /// With this token no query goes on; with none left, the tokens are no query.
    Unexpected(usize),
    /// A query goes on with this token, but not within the limits.
    Barred(Bar, usize),
}

/// Why tokens were not read.
#[derive(Drop)]
pub enum ReadError {
    Memory,
    Stop(Stop),
}

impl From<AllocError> for ReadError {
    ghost from_gives = { λ _ e. e ≡ Memory };

    fn from(_e: AllocError) -> ReadError {
        ReadError::Memory
    }
}

impl<T: Drop> From<AllocFailed<T>> for ReadError {
    ghost from_gives = { λ _ e. e ≡ Memory };

    fn from(_e: AllocFailed<T>) -> ReadError {
        ReadError::Memory
    }
}
