//! The columns of the keys of rows.

ghost use Rattle.std.specs.Prelude.{◌≡◌, ◌≢◌, map};
ghost use Rattle.vortex_c.specs.Words.{kind_at, kind_of_code};
ghost use Rattle.vortex_c.specs.KeyWords.{AreColumnsOfKeys, AreCountsOfKeys, SaysWhyNoColumns};
ghost use Rattle.vortex_c.specs.KeyWords.{fault_of_keys, status_of_keys};

use crate::fault::{Fault, at};
use crate::status::{
    BAD_BYTES, BAD_OFFSETS, BAD_OPTIONS, BUFFER_TOO_SMALL, GIVEN, NO_MEMORY, NOT_A_VALUE,
    UNKNOWN_KIND, WRONG_LENGTH,
};
use column_items::KindCode;
use column_keys::{ColumnBuffers, KeysError, columns_of_keys, columns_of_typed_keys};
use std::alloc::Global;

/// The columns of the rows whose keys these are: of each a bit for each row, 0 for a null, and the
/// values, 0, false or an empty string for a null. A column of strings or bytes has offsets, of 64
/// bits each. Each key is read once. Memory is asked for the columns, and for the values of all rows.
///
/// The keys are those of `doqallin_row_keys` for columns of these kinds and options. The key of row
/// k goes from offset k to the next. Each is tested, so that they may come from anywhere.
///
/// - `BUFFER_TOO_SMALL`: a buffer is too short for its column. Each `count` says how many bytes the
///   values have, or that it is the greatest `usize` or more.
/// - `WRONG_LENGTH`: the options are not as many as the kinds, or the columns are not. `fault` has
///   the number of kinds.
/// - `BAD_OPTIONS`: a byte of options is above 3.
/// - `UNKNOWN_KIND`: a code is of no kind.
/// - `BAD_OFFSETS`: the offsets of the key `fault.place` go down, or past the end.
/// - `BAD_BYTES`: `fault.place` is the first of all bytes that no key of a row has there.
/// - `NOT_A_VALUE`: the key `fault.place` has no value of the logical type of the column
///   `fault.column`.
/// - `NO_MEMORY`: only if each kind and its options are right. `fault` is not written.
///
/// Under each status but `GIVEN` the buffers stay as they were, and the counts too, but for
/// `BUFFER_TOO_SMALL`.
#[unsafe(no_mangle)]
pub extern "C" fn doqallin_columns_of_row_keys(
    alloc: Global,
    kinds: &[u8],
    options: &[u8],
    offsets: &[u64],
    bytes: &[u8],
    columns: &mut [ColumnBuffers],
    fault: &mut Fault,
) -> u32
    ensures columns { result ≡ GIVEN
        → AreColumnsOfKeys (map kind_at kinds.now) options.now bytes.now offsets.now columns.old columns.new }
    ensures counted { result ≡ BUFFER_TOO_SMALL
        → AreCountsOfKeys (map kind_at kinds.now) options.now bytes.now offsets.now columns.old columns.new }
    ensures refused { result ≢ GIVEN → SaysWhyNoColumns (map kind_at kinds.now) options.now bytes.now
        offsets.now columns.old fault.old fault.new result }

    // What is not said to be written stays.
    ensures kept { result ≢ GIVEN → result ≢ BUFFER_TOO_SMALL → columns.new ≡ columns.old }
    ensures kept_fault { result ≡ GIVEN → fault.new ≡ fault.old }
{
    match columns_of_keys(alloc, kinds, options, offsets, bytes, columns) {
        Ok(()) => GIVEN,
        Err(refusal) => tell(refusal, kinds.len(), fault),
    }
}

/// The same of any kinds, decimals too.
#[unsafe(no_mangle)]
pub extern "C" fn doqallin_columns_of_typed_keys(
    alloc: Global,
    kinds: &[KindCode],
    options: &[u8],
    offsets: &[u64],
    bytes: &[u8],
    columns: &mut [ColumnBuffers],
    fault: &mut Fault,
) -> u32
    ensures columns { result ≡ GIVEN
        → AreColumnsOfKeys (map kind_of_code kinds.now) options.now bytes.now offsets.now columns.old columns.new }
    ensures counted { result ≡ BUFFER_TOO_SMALL
        → AreCountsOfKeys (map kind_of_code kinds.now) options.now bytes.now offsets.now columns.old columns.new }
    ensures refused { result ≢ GIVEN → SaysWhyNoColumns (map kind_of_code kinds.now) options.now bytes.now
        offsets.now columns.old fault.old fault.new result }

    // What is not said to be written stays.
    ensures kept { result ≢ GIVEN → result ≢ BUFFER_TOO_SMALL → columns.new ≡ columns.old }
    ensures kept_fault { result ≡ GIVEN → fault.new ≡ fault.old }
{
    match columns_of_typed_keys(alloc, kinds, options, offsets, bytes, columns) {
        Ok(()) => GIVEN,
        Err(refusal) => tell(refusal, kinds.len(), fault),
    }
}

/// Tells why keys give no columns, of so many kinds, and gives the status.
fn tell(refusal: KeysError, kinds: usize, fault: &mut Fault) -> u32
    ensures status { result ≡ status_of_keys refusal }
    ensures fault { fault.new ≡ fault_of_keys kinds refusal fault.old }
    ensures refused { result ≢ GIVEN }
{
    match refusal {
        KeysError::OutOfMemory => NO_MEMORY,
        KeysError::BufferTooSmall => BUFFER_TOO_SMALL,
        KeysError::WrongLength => at(kinds, 0, fault, WRONG_LENGTH),
        KeysError::BadOptions { column } => at(column, 0, fault, BAD_OPTIONS),
        KeysError::UnknownKind { column } => at(column, 0, fault, UNKNOWN_KIND),
        KeysError::BadOffsets { row } => at(0, row, fault, BAD_OFFSETS),
        KeysError::BadBytes { offset } => at(0, offset, fault, BAD_BYTES),
        KeysError::NotAValue { column, row } => at(column, row, fault, NOT_A_VALUE),
    }
}
