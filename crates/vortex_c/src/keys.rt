//! The keys of the rows of columns.

ghost use Rattle.std.specs.Prelude.{◌≡◌, ◌≢◌, ◌+◌, ◌<◌, ◌≤◌, ◌⊎◌, drop, length};
ghost use Rattle.vortex_c.specs.Words.{AreAllKeys, AreSoundBefore, HasAnswer, IsTableError, TableError};
ghost use Rattle.vortex_c.specs.Words.{all_keys_length, fault_of_table, rows_in, status_of_table};

use crate::fault::{Fault, at, place_in_column, status_of_column};
use crate::status::{BAD_OPTIONS, BUFFER_TOO_SMALL, GIVEN, NO_MEMORY, WRONG_LENGTH};
use arrow_columns::{Column, row_count_of};
use column_keys::{TableError, read_columns, row_keys_length, write_row_keys};
use std::alloc::Global;

/// The keys of the rows of some columns, one after the other, and their offsets: that of row k goes
/// from offset k to the next. They sort as the rows do, column by column.
///
/// A column has a byte of options: 1 for greater values first, 2 for nulls first, or the sum.
/// Memory is asked for the columns, and none for each row.
///
/// - `BUFFER_TOO_SMALL`: `count` says how many bytes the keys have, or that it is the greatest
///   `usize` or more. The buffer has fewer bytes, or there is not an offset for each row and one
///   more.
/// - `WRONG_LENGTH`: the options are not as many as the columns, and `fault` has the number of
///   columns; or a column has another number of rows than the first.
/// - `BAD_OPTIONS`: a byte of options is above 3.
/// - `UNKNOWN_KIND`, `TOO_MANY_ROWS`, `TOO_SHORT`, `BAD_OFFSETS`, `NOT_UTF8`, `NOT_A_VALUE`: a column
///   cannot be read.
/// - `NO_MEMORY`: only if each column and its options are right. `fault` is not written.
#[unsafe(no_mangle)]
#[tactic(auto, using(crate::proofs::KeySteps::shown))]
pub extern "C" fn doqallin_row_keys(
    alloc: Global,
    columns: &[Column],
    options: &[u8],
    offsets: &mut [u64],
    buffer: &mut [u8],
    count: &mut usize,
    fault: &mut Fault,
) -> u32
    ensures keys { result ≡ GIVEN
        → AreAllKeys options.now columns.now offsets.new buffer.new count.new }
    ensures counted { HasAnswer result → count.new ≡ all_keys_length options.now columns.now }
    ensures small { result ≡ BUFFER_TOO_SMALL → (length buffer.old < count.new)
        ⊎ ((count.new ≡ usize.MAX) ⊎ (length offsets.old ≤ rows_in columns.now)) }
    ensures large { result ≡ GIVEN → (count.new ≤ length buffer.old)
        × (rows_in columns.now < length offsets.old) }

    // What has keys: as many options as columns, and each column sound.
    ensures options { HasAnswer result → length options.now ≡ length columns.now }
    ensures sound { HasAnswer result
        → AreSoundBefore columns.now options.now (length columns.now) }
    ensures refused { (HasAnswer result) ⊎ ((refusal : TableError)
        × IsTableError columns.now options.now refusal
        × (result ≡ status_of_table refusal)
        × (fault.new ≡ fault_of_table (length columns.now) refusal fault.old)) }

    // What is not said to be written stays.
    ensures rest { result ≡ GIVEN → drop count.new buffer.new ≡ drop count.new buffer.old }
    ensures rest_offsets { result ≡ GIVEN → drop (rows_in columns.now + 1) offsets.new
        ≡ drop (rows_in columns.now + 1) offsets.old }
    ensures kept { result ≢ GIVEN → (buffer.new ≡ buffer.old) × (offsets.new ≡ offsets.old) }
    ensures kept_count { (HasAnswer result) ⊎ (count.new ≡ count.old) }
    ensures kept_fault { HasAnswer result → fault.new ≡ fault.old }
{
    let table = match read_columns(alloc, columns, options) {
        Ok(table) => table,
        Err(refusal) => return tell(refusal, columns.len(), fault),
    };
    let rows = row_count_of(columns);
    let length = row_keys_length(&table, rows);
    *count = length;
    if offsets.len() <= rows || buffer.len() < length || length == usize::MAX {
        return BUFFER_TOO_SMALL;
    }
    write_row_keys(&table, rows, offsets, &mut buffer[..length]);
    GIVEN
}

/// Tells why a table has no keys, and gives the status.
fn tell(refusal: TableError, columns: usize, fault: &mut Fault) -> u32
    ensures status { result ≡ status_of_table refusal }
    ensures fault { fault.new ≡ fault_of_table columns refusal fault.old }
{
    match refusal {
        TableError::OutOfMemory => NO_MEMORY,
        TableError::WrongCount => at(columns, 0, fault, WRONG_LENGTH),
        TableError::Unreadable {
            column,
            fault: reason,
        } => at(
            column,
            place_in_column(reason),
            fault,
            status_of_column(reason),
        ),
        TableError::BadOptions { column } => at(column, 0, fault, BAD_OPTIONS),
        TableError::WrongLength { column } => at(column, 0, fault, WRONG_LENGTH),
    }
}
