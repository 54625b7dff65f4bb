//! Why records give no columns.

ghost use Rattle.std.specs.Prelude.{◌≡◌};

use zone_index::RecordError;

/// Why records give no columns.
#[derive(Debug, Drop)]
pub enum ColumnsError {
    /// There are not as many buffers as columns that are wanted.
    WrongLength,
    /// What is wanted at this place of the list is no column of the records.
    UnknownColumn { which: usize },
    /// No memory was left, or a record has fields that are no row.
    Record(RecordError),
    /// A buffer is too short for its column of so many rows.
    BufferTooSmall { rows: usize },
}

impl From<RecordError> for ColumnsError {
    ghost use Rattle.record_columns.specs.declared.errors.ColumnsError.TheVariants.{Record};

    ghost from_gives = { λ fault error. error ≡ Record fault };

    fn from(fault: RecordError) -> ColumnsError {
        ColumnsError::Record(fault)
    }
}
