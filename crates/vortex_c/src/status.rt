//! The statuses that a call answers.

/// What was asked for is written.
pub const GIVEN: u32 = 0;

/// There is no such value, or the cast is refused.
pub const NONE: u32 = 1;

/// An allocation was refused.
pub const NO_MEMORY: u32 = 2;

/// A buffer is too small: the lengths that are needed are written, and nothing else.
pub const BUFFER_TOO_SMALL: u32 = 3;

/// Bytes that are to be a string are not UTF-8.
pub const NOT_UTF8: u32 = 4;

/// A code names no integer type, or the bits stand for no number of the type.
pub const NOT_A_NUMBER: u32 = 5;

/// Offsets go down, or past the end of the bytes.
pub const BAD_OFFSETS: u32 = 6;

/// A code is of no kind of columns.
pub const UNKNOWN_KIND: u32 = 7;

/// Offset and length of a column, or the rows of two pieces, are together above 2^64 - 1.
pub const TOO_MANY_ROWS: u32 = 8;

/// A buffer of a column is too short for its rows.
pub const TOO_SHORT: u32 = 9;

/// Bytes are not of the encoding that is read.
pub const BAD_BYTES: u32 = 10;

/// Words are no filter.
pub const BAD_FILTER: u32 = 11;

/// Numbers of columns, of rows or of options differ that are to be equal.
pub const WRONG_LENGTH: u32 = 12;

/// A byte stands for no options.
pub const BAD_OPTIONS: u32 = 13;

/// A number is of no value of the column's logical type.
pub const NOT_A_VALUE: u32 = 14;

/// A record is no row of the columns.
pub const REFUSED: u32 = 15;
