//! Why a filter was refused.

ghost use Rattle.std.specs.Prelude.{◌≡◌};
ghost use Rattle.vortex_filter.specs.declared.error.FilterError.TheVariants.{OutOfMemory};

use std::alloc::{AllocError, AllocFailed};
use thiserror::Error;

/// Why a filter was refused. What `Display` writes is for people and is not promised.
///
/// `test` says which test of a column it is: all but `Constant`, `And`, `Or` and `Not` are such
/// tests. They are counted from 0 in reading order, as far as a `usize` counts.
#[derive(Clone, Copy, Debug, PartialEq, Eq, Error)]
pub enum FilterError {
    /// An allocation was refused.
    #[error("out of memory")]
    OutOfMemory,
    /// The test reads a column that is not there.
    #[error("no column {column}")]
    NoColumn { test: usize, column: usize },
    /// A variant stands in the type of the column, so its values have no order.
    #[error("a variant stands in the type of column {column}")]
    HasVariant { test: usize, column: usize },
    /// The column and a literal are of types that are not the same up to nullability, or a prefix is
    /// sought in a column that holds neither strings nor bytes, or a pattern in one that holds no
    /// strings.
    #[error("a literal of another type than column {column}")]
    TypesDiffer { test: usize, column: usize },
}

/// Out of memory, whatever was asked for.
impl From<AllocError> for FilterError {
    ghost from_gives = { λ _ e. e ≡ OutOfMemory };

    fn from(_error: AllocError) -> FilterError {
        FilterError::OutOfMemory
    }
}

/// Out of memory; what was to be kept is dropped.
impl<T: Drop> From<AllocFailed<T>> for FilterError {
    ghost from_gives = { λ _ e. e ≡ OutOfMemory };

    fn from(_error: AllocFailed<T>) -> FilterError {
        FilterError::OutOfMemory
    }
}
