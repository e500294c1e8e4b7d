//! Why a clause has no row.
ghost use Rattle.std.specs.Prelude.{◌≡◌};
ghost use Rattle.clauses.specs.declared.error.ClauseError.TheVariants.{Memory, OutOfRange};

use std::alloc::{AllocError, AllocFailed};
use std::num::TryFromIntError;

/// Why a clause has no row.
#[derive(Clone, Copy, PartialEq, Eq, Debug)]
pub enum ClauseError {
    /// There was no memory for it.
    Memory,
    /// It has a term that is beyond 16 bits for the number of the column or 32 for the coefficient.
    OutOfRange,
}

impl From<AllocError> for ClauseError {
    ghost from_gives = { λ _ r. r ≡ Memory };

    fn from(_e: AllocError) -> ClauseError {
        ClauseError::Memory
    }
}

impl<T: Drop> From<AllocFailed<T>> for ClauseError {
    ghost from_gives = { λ _ r. r ≡ Memory };

    fn from(_e: AllocFailed<T>) -> ClauseError {
        ClauseError::Memory
    }
}

impl From<TryFromIntError> for ClauseError {
    ghost from_gives = { λ _ r. r ≡ OutOfRange };

    fn from(_e: TryFromIntError) -> ClauseError {
        ClauseError::OutOfRange
    }
}
