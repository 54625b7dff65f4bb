//! Why a filter was not written or not read.

ghost use Rattle.std.specs.Prelude.{◌≡◌};
ghost use Rattle.filter_encoding.specs.declared.error.FilterEncodingError.TheVariants.{OutOfMemory};

use std::alloc::{AllocError, AllocFailed};
use thiserror::Error;

/// Why a filter was not written or not read. What `Display` writes is for people and is not
/// promised.
#[derive(Clone, Copy, Debug, PartialEq, Eq, Error)]
pub enum FilterEncodingError {
    /// An allocation was refused.
    #[error("out of memory")]
    OutOfMemory,
    /// A column or a literal is of a type that has no bytes, such as a list, a literal is no value of
    /// its logical type, or has a variant in it, or the filter nests too deep.
    #[error("no encoding")]
    NoEncoding,
    /// The bytes are no encoding: the offset of the first byte that no encoding has there, or of
    /// the end if they end too early.
    #[error("no encoding of a filter: byte {offset}")]
    BadBytes { offset: usize },
    /// A literal is no value of its logical type, as a day past the year 9999: the offset of the
    /// first such value.
    #[error("no value of its type: byte {offset}")]
    NotAValue { offset: usize },
}

/// Out of memory, whatever was asked for.
impl From<AllocError> for FilterEncodingError {
    ghost from_gives = { λ _ e. e ≡ OutOfMemory };

    fn from(_error: AllocError) -> FilterEncodingError {
        FilterEncodingError::OutOfMemory
    }
}

/// Out of memory; what was to be kept is dropped.
impl<T: Drop> From<AllocFailed<T>> for FilterEncodingError {
    ghost from_gives = { λ _ e. e ≡ OutOfMemory };

    fn from(_error: AllocFailed<T>) -> FilterEncodingError {
        FilterEncodingError::OutOfMemory
    }
}
