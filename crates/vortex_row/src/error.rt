//! Why a call was refused.

ghost use Rattle.std.specs.Prelude.{◌≡◌};
ghost use Rattle.vortex_row.specs.declared.error.RowError.TheVariants.{OutOfMemory};

use std::alloc::{AllocError, AllocFailed};
use thiserror::Error;

/// Why a call was refused. Texts are for people and are not promised.
#[derive(Clone, Copy, Debug, PartialEq, Eq, Error)]
pub enum RowError {
    /// An allocation was refused.
    #[error("out of memory")]
    OutOfMemory,
    /// A variant stands in the type, so its values have no order and no key.
    #[error("a variant stands in the type")]
    HasVariant,
    /// The bytes begin with no key of the type: the offset of the first byte that none has there,
    /// or of the end if they end too early.
    #[error("no key of the type: byte {offset}")]
    BadKey { offset: usize },
    /// The row has another number of values than there are columns.
    #[error("a row of {found} values for {expected} columns")]
    WrongLength { expected: usize, found: usize },
}

/// Out of memory, whatever was asked for.
impl From<AllocError> for RowError {
    ghost from_gives = { λ _ e. e ≡ OutOfMemory };

    fn from(_error: AllocError) -> RowError {
        RowError::OutOfMemory
    }
}

/// Out of memory; what was to be kept is dropped.
impl<T: Drop> From<AllocFailed<T>> for RowError {
    ghost from_gives = { λ _ e. e ≡ OutOfMemory };

    fn from(_error: AllocFailed<T>) -> RowError {
        RowError::OutOfMemory
    }
}
