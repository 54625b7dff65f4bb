//! Where a mistake is.

ghost use Rattle.std.specs.Prelude.{◌≡◌, ◌≢◌};
ghost use Rattle.vortex_c.specs.Words.{place_in_column, status_of_column};

use crate::status::{
    BAD_OFFSETS, GIVEN, NOT_A_VALUE, NOT_UTF8, TOO_MANY_ROWS, TOO_SHORT, UNKNOWN_KIND,
};
use arrow_columns::{Buffer, ColumnError};

/// Where a mistake is: which column, and which row, byte or buffer of it.
#[derive(Clone, Copy)]
#[repr(C)]
pub struct Fault {
    /// Which column.
    pub column: usize,
    /// Which row of it, or which buffer: 0 validity, 1 values, 2 offsets.
    pub place: usize,
}

/// The status of a column that cannot be read.
pub(crate) fn status_of_column(fault: ColumnError) -> u32
    ensures status { result ≡ status_of_column fault }
    ensures refused { result ≢ GIVEN }
{
    match fault {
        ColumnError::UnknownKind => UNKNOWN_KIND,
        ColumnError::TooManyRows => TOO_MANY_ROWS,
        ColumnError::TooShort(_) => TOO_SHORT,
        ColumnError::BadOffsets(_) => BAD_OFFSETS,
        ColumnError::NotUtf8(_) => NOT_UTF8,
        ColumnError::NotAValue(_) => NOT_A_VALUE,
    }
}

/// Where in a column the error is: its row, or its buffer, and else 0.
pub(crate) fn place_in_column(fault: ColumnError) -> usize
    ensures { result ≡ place_in_column fault }
{
    match fault {
        ColumnError::UnknownKind | ColumnError::TooManyRows => 0,
        ColumnError::TooShort(Buffer::Validity) => 0,
        ColumnError::TooShort(Buffer::Values) => 1,
        ColumnError::TooShort(Buffer::Offsets) => 2,
        ColumnError::BadOffsets(row) | ColumnError::NotUtf8(row) | ColumnError::NotAValue(row) =>
            row,
    }
}

/// Tells the place, and gives the status back.
pub(crate) fn at(column: usize, place: usize, fault: &mut Fault, status: u32) -> u32
    ensures status { result ≡ status }
    ensures fault { fault.new ≡ record { column = column; place = place } }
{
    *fault = Fault { column, place };
    status
}
