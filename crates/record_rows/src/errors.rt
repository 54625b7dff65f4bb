//! Why a record has no row, and why its row is not observed.

ghost use Rattle.std.specs.Prelude.{◌≡◌};
ghost use Rattle.record_rows.specs.declared.errors.RowReadError.TheVariants.{Memory};
ghost use Rattle.record_rows.specs.declared.errors.ObserveError.TheVariants.{Row};

use std::alloc::{AllocError, AllocFailed};

/// Why a record has no row under the columns.
#[derive(Debug, Drop)]
pub enum RowReadError {
    /// No memory was left.
    Memory,
    /// A column does not take the word.
    Word { column: usize, word: Vec<u8> },
    /// The record has fewer fields than there are columns, or more.
    FieldCount,
    /// Another row follows the first one, as behind a carriage return inside of a record.
    LoneReturn,
}

impl From<AllocError> for RowReadError {
    ghost from_gives = { λ _ fault. fault ≡ Memory };

    fn from(_error: AllocError) -> RowReadError {
        RowReadError::Memory
    }
}

impl<T: Drop> From<AllocFailed<T>> for RowReadError {
    ghost from_gives = { λ _ fault. fault ≡ Memory };

    fn from(_error: AllocFailed<T>) -> RowReadError {
        RowReadError::Memory
    }
}

/// Why the row of a record is not observed.
#[derive(Debug, Drop)]
pub enum ObserveError {
    /// The record has no row under the columns.
    Row(RowReadError),
    /// The statistics of a column count as many rows as 64 bits can.
    TooManyRows,
}

impl From<RowReadError> for ObserveError {
    ghost from_gives = { λ error observed. observed ≡ Row error };

    fn from(error: RowReadError) -> ObserveError {
        ObserveError::Row(error)
    }
}
