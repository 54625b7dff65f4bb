//! Why an index or a search stops.

ghost use Rattle.std.specs.Prelude.{◌≡◌, ◌≢◌};
ghost use Rattle.zone_index.specs.declared.errors.SearchError.TheVariants.{Memory};
ghost use Rattle.zone_index.specs.declared.errors.RecordError.TheVariants.{Memory as NoMemory};

use std::alloc::{AllocError, AllocFailed};
use std::io::{self, ErrorKind};

/// Why a record has no row under the columns.
#[derive(Debug, Drop)]
pub struct Refusal {
    /// Where the record begins, in the bytes that were given.
    pub place: u64,
    /// Why it has none.
    pub cause: Cause,
}

/// Why the columns do not take a record.
#[derive(Debug, Drop)]
pub enum Cause {
    /// This column, counted from 0, does not take the word.
    Word { column: u64, word: Vec<u8> },
    /// The record has fewer fields than there are columns, or more.
    FieldCount,
    /// A carriage return ends a row inside of the record.
    LoneReturn,
}

/// Why a record was not judged.
#[derive(Debug, Drop)]
pub enum RecordError {
    /// No memory was left.
    Memory,
    /// The record has no row.
    Refused(Refusal),
}

/// Why an index or a search stopped.
#[derive(Debug, Drop)]
pub enum SearchError {
    /// A read failed.
    Read,
    /// The file ends before a zone that the index has.
    CutShort,
    /// An offset or a number is past all that 64 bits can tell.
    TooFar,
    /// A write failed.
    Write,
    /// No memory was left.
    Memory,
    /// A record has no row. Its offset counts from the beginning of the file.
    Refused(Refusal),
}

/// Out of memory.
impl From<AllocError> for RecordError {
    ghost from_gives = { λ _ fault. fault ≡ NoMemory };

    fn from(_error: AllocError) -> RecordError {
        RecordError::Memory
    }
}

/// The same, of a value that found no memory.
impl<T: Drop> From<AllocFailed<T>> for RecordError {
    ghost from_gives = { λ _ fault. fault ≡ NoMemory };

    fn from(_error: AllocFailed<T>) -> RecordError {
        RecordError::Memory
    }
}

/// Out of memory.
impl From<AllocError> for SearchError {
    ghost from_gives = { λ _ fault. fault ≡ Memory };

    fn from(_error: AllocError) -> SearchError {
        SearchError::Memory
    }
}

/// The same, of a value that found no memory.
impl<T: Drop> From<AllocFailed<T>> for SearchError {
    ghost from_gives = { λ _ fault. fault ≡ Memory };

    fn from(_error: AllocFailed<T>) -> SearchError {
        SearchError::Memory
    }
}

impl SearchError {
    ghost use Rattle.std.specs.IoError.{error_kind};
    ghost use Rattle.std.specs.declared.io.ErrorKind.TheVariants.{OutOfMemory};
    ghost use Rattle.zone_index.specs.Errors.{IsOfStream};
    ghost use Rattle.zone_index.specs.declared.errors.SearchError.TheVariants.{Read};

    /// Why nothing more was read: a read failed, or no memory was left for it.
    pub(crate) fn of_read(error: io::Error) -> SearchError
        ensures memory { error_kind error ≡ OutOfMemory → result ≡ Memory }
        ensures read { error_kind error ≢ OutOfMemory → result ≡ Read }
        ensures stream { IsOfStream result }
    {
        match error.kind() {
            ErrorKind::OutOfMemory => SearchError::Memory,
            _ => SearchError::Read,
        }
    }
}

impl RecordError {
    ghost use Rattle.zone_index.specs.Errors.{fault_at};

    /// The same, where the bytes that were given stand here in the file.
    pub(crate) fn at(self, first: u64) -> SearchError
        ensures { result ≡ fault_at first self }
    {
        match self {
            RecordError::Memory => SearchError::Memory,
            RecordError::Refused(refusal) => {
                let Refusal { place, cause } = refusal;
                SearchError::Refused(Refusal {
                    place: place.saturating_add(first),
                    cause,
                })
            }
        }
    }
}
