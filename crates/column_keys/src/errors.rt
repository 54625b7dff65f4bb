//! Why a table has no keys, and why keys give no columns.

ghost use Rattle.std.specs.Prelude.{◌≡◌};

use arrow_columns::ColumnError;
use std::alloc::{AllocError, AllocFailed};

/// Why a table has no keys. Of several columns it is the first with an error.
#[derive(Clone, Copy, Debug, PartialEq, Eq)]
pub enum TableError {
    /// An allocation was refused.
    OutOfMemory,
    /// There are not as many options as columns.
    WrongCount,
    /// The column cannot be read.
    Unreadable { column: usize, fault: ColumnError },
    /// The byte of the column stands for no options.
    BadOptions { column: usize },
    /// The column has another number of rows than the first.
    WrongLength { column: usize },
}

/// Out of memory, whatever was asked for.
impl From<AllocError> for TableError {
    ghost use Rattle.column_keys.specs.declared.errors.TableError.TheVariants.{OutOfMemory};

    ghost from_gives = { λ _ e. e ≡ OutOfMemory };

    fn from(_error: AllocError) -> TableError {
        TableError::OutOfMemory
    }
}

/// Why keys of rows give no columns. Of several kinds, options or keys it is the first with an
/// error.
#[derive(Clone, Copy, Debug, PartialEq, Eq)]
pub enum KeysError {
    /// An allocation was refused.
    OutOfMemory,
    /// There are not as many options as kinds, or not as many buffers.
    WrongLength,
    /// The code of the column is of no kind.
    UnknownKind { column: usize },
    /// The byte of the column stands for no options.
    BadOptions { column: usize },
    /// The offsets of the key go down, or past the end of the bytes.
    BadOffsets { row: usize },
    /// The offset among all bytes of the first that no key of a row has there, or of the end of a
    /// key that ends too early.
    BadBytes { offset: usize },
    /// What the key of the row has in the column is no value of the column's logical type.
    NotAValue { column: usize, row: usize },
    /// A buffer is too short for its column.
    BufferTooSmall,
}

/// Out of memory, whatever was asked for.
impl From<AllocError> for KeysError {
    ghost use Rattle.column_keys.specs.declared.errors.KeysError.TheVariants.{OutOfMemory};

    ghost from_gives = { λ _ e. e ≡ OutOfMemory };

    fn from(_error: AllocError) -> KeysError {
        KeysError::OutOfMemory
    }
}

/// Out of memory; what was to be kept is dropped.
impl<T: Drop> From<AllocFailed<T>> for KeysError {
    ghost use Rattle.column_keys.specs.declared.errors.KeysError.TheVariants.{OutOfMemory};

    ghost from_gives = { λ _ e. e ≡ OutOfMemory };

    fn from(_error: AllocFailed<T>) -> KeysError {
        KeysError::OutOfMemory
    }
}
