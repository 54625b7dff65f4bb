//! Why a filter was not asked.

ghost use Rattle.std.specs.Prelude.{◌≡◌};

use arrow_columns::ColumnError;
use std::alloc::{AllocError, AllocFailed};

/// Why there is no mask of rows. Of several columns it is the first with an error.
#[derive(Clone, Copy, Debug, PartialEq, Eq)]
pub enum MaskError {
    /// An allocation was refused.
    OutOfMemory,
    /// There are not as many columns as types.
    WrongCount,
    /// The column cannot be read.
    Unreadable { column: usize, fault: ColumnError },
    /// The cells of the column are of another type, not only by nullability.
    TypesDiffer { column: usize },
    /// The column has another number of rows than was asked for.
    WrongLength { column: usize },
    /// The mask is too short for the rows.
    BufferTooSmall,
}

/// Why there are no outcomes of zones. A piece is what is said of one column in one zone. Pieces
/// count from 0, zone by zone. Of several it is the first with an error.
#[derive(Clone, Copy, Debug, PartialEq, Eq)]
pub enum ZoneError {
    /// An allocation was refused.
    OutOfMemory,
    /// There are not as many offsets as pieces, and one more.
    WrongLength,
    /// The offsets of the piece go down, or past the end of the statistics.
    BadOffsets { piece: usize },
    /// The piece is no encoding of statistics of its column's type, and says no bound of one with a
    /// variant: the offset in it of the first byte that none has there.
    BadBytes { piece: usize, offset: usize },
    /// The piece says a bound of a column in whose type a variant stands.
    HasVariant { piece: usize },
}

/// Out of memory, whatever was asked for.
impl From<AllocError> for MaskError {
    ghost use Rattle.column_filters.specs.declared.errors.MaskError.TheVariants.{OutOfMemory};

    ghost from_gives = { λ _ e. e ≡ OutOfMemory };

    fn from(_error: AllocError) -> MaskError {
        MaskError::OutOfMemory
    }
}

/// Out of memory; what was to be kept is dropped.
impl<T: Drop> From<AllocFailed<T>> for MaskError {
    ghost use Rattle.column_filters.specs.declared.errors.MaskError.TheVariants.{OutOfMemory};

    ghost from_gives = { λ _ e. e ≡ OutOfMemory };

    fn from(_error: AllocFailed<T>) -> MaskError {
        MaskError::OutOfMemory
    }
}

/// Out of memory, whatever was asked for.
impl From<AllocError> for ZoneError {
    ghost use Rattle.column_filters.specs.declared.errors.ZoneError.TheVariants.{OutOfMemory};

    ghost from_gives = { λ _ e. e ≡ OutOfMemory };

    fn from(_error: AllocError) -> ZoneError {
        ZoneError::OutOfMemory
    }
}

/// Out of memory; what was to be kept is dropped.
impl<T: Drop> From<AllocFailed<T>> for ZoneError {
    ghost use Rattle.column_filters.specs.declared.errors.ZoneError.TheVariants.{OutOfMemory};

    ghost from_gives = { λ _ e. e ≡ OutOfMemory };

    fn from(_error: AllocFailed<T>) -> ZoneError {
        ZoneError::OutOfMemory
    }
}
