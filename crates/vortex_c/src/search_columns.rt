//! The columns of the rows that match, in the bytes of a file.

ghost use Rattle.std.specs.Prelude.{◌≡◌, ◌≢◌, ◌⊎◌};
ghost use Rattle.vortex_c.specs.SearchColumns.{AreColumnsBy, AreCountsBy, AreCountsIn, AreFoundIn, IsRefusedBy};
ghost use Rattle.vortex_c.specs.SearchColumns.{SaysWhyNoRows, fault_of_columns, formula, rows_told};
ghost use Rattle.vortex_c.specs.SearchColumns.{status_of_columns};
ghost use Rattle.vortex_c.specs.SearchWords.{HasAnswer};

use crate::search_faults::{SearchFault, tell, tell_search, tell_sought};
use crate::status::{BUFFER_TOO_SMALL, GIVEN, NO_MEMORY, UNKNOWN_KIND, WRONG_LENGTH};
use column_keys::ColumnBuffers;
use file_search::Sought;
use record_columns::{ColumnsError, columns_of_records};
use std::alloc::Global;
use zone_index::{RecordError, SearchError};

/// The columns that are wanted, of the rows of the records of a text that match: of each a bit for each row, 0 for a
/// null, and the values, 0 or an empty string for a null. A column of strings or bytes has offsets, of 64 bits
/// each. `doqallin_column_kinds` says what each column of a setup is written as. Each record is read once. The text
/// begins at `place` in the file and ends with a record, as a zone does. `wanted` has the places of columns among
/// those of the setup, in any order, and `rows` is how many rows match.
///
/// - `BUFFER_TOO_SMALL`: a buffer is too short for its column. Each `count` says how many bytes the values have,
///   or that it is the greatest `usize` or more; `rows` is written too.
/// - `BAD_BYTES`: the setup is none. `NOT_UTF8`, `BAD_FILTER`: of the words. `fault` says where.
/// - `WRONG_LENGTH`: there are not as many columns as are wanted; `fault.place` is how many are.
/// - `UNKNOWN_KIND`: what stands at `fault.column` of `wanted` is no column of the setup.
/// - `REFUSED`: a record has fields that are no row, and `fault` says which.
/// - `NO_MEMORY`: memory is asked for the filter, and for the rows that match. `fault` is not written.
///
/// Under each status but `GIVEN` the buffers stay as they were, and the counts and `rows` too, but for
/// `BUFFER_TOO_SMALL`.
#[unsafe(no_mangle)]
pub extern "C" fn doqallin_search_columns(
    alloc: Global,
    setup: &[u8],
    words: &[u8],
    depth: usize,
    place: u64,
    text: &[u8],
    wanted: &[usize],
    columns: &mut [ColumnBuffers],
    rows: &mut usize,
    fault: &mut SearchFault,
) -> u32
    ensures given { result ≡ GIVEN → AreColumnsBy depth setup.now words.now text.now wanted.now
        columns.old columns.new rows.new }
    ensures counted { result ≡ BUFFER_TOO_SMALL → AreCountsBy depth setup.now words.now text.now wanted.now
        columns.old columns.new rows.new }
    ensures refused { result ≢ GIVEN → SaysWhyNoRows depth setup.now words.now place text.now wanted.now
        columns.new fault.old fault.new result }

    // What is not said to be written stays.
    ensures kept { (HasAnswer result) ⊎ ((columns.new ≡ columns.old) × (rows.new ≡ rows.old)) }
    ensures kept_fault { HasAnswer result → fault.new ≡ fault.old }
{
    match Sought::from_bytes(alloc, setup, words, depth) {
        Ok(sought) => columns_into(alloc, &sought, place, text, wanted, columns, rows, fault),
        Err(cause) => tell_sought(cause, fault),
    }
}

/// The same, of what is sought.
fn columns_into(
    alloc: Global,
    sought: &Sought,
    place: u64,
    text: &[u8],
    wanted: &[usize],
    columns: &mut [ColumnBuffers],
    rows: &mut usize,
    fault: &mut SearchFault,
) -> u32
    ensures given { result ≡ GIVEN → AreFoundIn sought.now.schema (formula sought.now.filter) text.now wanted.now
        columns.old columns.new rows.new }
    ensures counted { result ≡ BUFFER_TOO_SMALL → AreCountsIn sought.now.schema (formula sought.now.filter) text.now
        wanted.now columns.old columns.new rows.new }
    ensures refused { result ≢ GIVEN → IsRefusedBy sought.now.schema (formula sought.now.filter) place text.now
        wanted.now columns.new fault.old fault.new result }
    ensures kept { (HasAnswer result) ⊎ ((columns.new ≡ columns.old) × (rows.new ≡ rows.old)) }
    ensures kept_fault { HasAnswer result → fault.new ≡ fault.old }
{
    match columns_of_records(alloc, &sought.matcher(), place, text, wanted, columns) {
        Ok(count) => {
            *rows = count;
            GIVEN
        }
        Err(error) => tell_columns(error, wanted.len(), rows, fault),
    }
}

/// Tells why so many columns were not written, or how many rows match if a buffer is too short, and gives the
/// status.
fn tell_columns(
    error: ColumnsError,
    wanted: usize,
    rows: &mut usize,
    fault: &mut SearchFault,
) -> u32
    ensures status { result ≡ status_of_columns error }
    ensures rows { rows.new ≡ rows_told error rows.old }
    ensures fault { fault.new ≡ fault_of_columns wanted error fault.old }
{
    match error {
        ColumnsError::WrongLength => tell(wanted as u64, 0, 0, fault, WRONG_LENGTH),
        ColumnsError::UnknownColumn { which } => tell(0, which as u64, 0, fault, UNKNOWN_KIND),
        ColumnsError::Record(RecordError::Refused(refusal)) => {
            tell_search(SearchError::Refused(refusal), fault)
        }
        ColumnsError::Record(RecordError::Memory) => NO_MEMORY,
        ColumnsError::BufferTooSmall { rows: count } => {
            *rows = count;
            BUFFER_TOO_SMALL
        }
    }
}
