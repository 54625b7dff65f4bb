//! Why a column cannot be read.

/// A buffer of a column.
#[derive(Clone, Copy, Debug, PartialEq, Eq)]
pub enum Buffer {
    Validity,
    Values,
    Offsets,
}

/// Why a column cannot be read. Rows count from its first.
#[derive(Clone, Copy, Debug, PartialEq, Eq)]
pub enum ColumnError {
    /// The code is of no kind.
    UnknownKind,
    /// Offset and length together are above 2^64 - 1.
    TooManyRows,
    /// This buffer is too short for offset and length.
    TooShort(Buffer),
    /// The offsets of this row, the first such one, go down or past the end of the bytes.
    BadOffsets(usize),
    /// This row, the first such one, is no UTF-8.
    NotUtf8(usize),
    /// The number of this row, the first such one, is of no value of the column's logical type.
    NotAValue(usize),
}
