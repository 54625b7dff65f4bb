//! Why a column has no statistics, and why bytes are none.

use arrow_columns::ColumnError;

/// Why a column has no statistics.
#[derive(Clone, Copy, Debug, PartialEq, Eq)]
pub enum ColumnStatisticsError {
    /// An allocation was refused.
    OutOfMemory,
    /// The column cannot be read.
    Unreadable(ColumnError),
}

/// Why bytes are read as no statistics.
#[derive(Clone, Copy, Debug, PartialEq, Eq)]
pub enum ReadError {
    /// An allocation was refused.
    OutOfMemory,
    /// They are no encoding of statistics of the type: the offset of the first byte that none has
    /// there, or of the end if they end too early.
    BadBytes { offset: usize },
    /// A bound is no value of the logical type.
    NotAValue,
}

/// Why the statistics of two pieces are not merged.
#[derive(Clone, Copy, Debug, PartialEq, Eq)]
pub enum MergeError {
    /// An allocation was refused.
    OutOfMemory,
    /// There are more rows than 64 bits can count.
    TooManyRows,
    /// The bytes of piece 0 or 1 are no encoding of statistics of the type: the first such piece,
    /// and the offset in it.
    BadBytes { piece: usize, offset: usize },
    /// A bound of piece 0 or 1 is no value of the logical type: the first such piece.
    NotAValue { piece: usize },
}
