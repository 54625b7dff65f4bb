//! The statistics of columns, in their stable encoding.

ghost use Rattle.std.specs.Prelude.{◌≡◌, ◌≢◌, ◌+◌, ◌≤◌, ◌⊎◌, length};
ghost use Rattle.vortex_c.specs.Words.{AnswersEncoding, HasAnswer, IsColumnEncoding, IsMergedAt, SaysWhyNoEncoding};
ghost use Rattle.vortex_c.specs.Words.{SaysWhyNotMerged, fault_of_encoding, fault_of_merge, kind_at, kind_of_code};
ghost use Rattle.vortex_c.specs.Words.{status_of_encoding, status_of_merge};

use crate::fault::{Fault, at, place_in_column, status_of_column};
use crate::giving::give;
use crate::status::{
    BAD_BYTES, BUFFER_TOO_SMALL, GIVEN, NO_MEMORY, NOT_A_VALUE, TOO_MANY_ROWS, UNKNOWN_KIND,
};
use arrow_columns::{Column, Kind};
use column_items::KindCode;
use column_statistics::{ColumnStatisticsError, MergeError, column_encoding, merged_encoding};
use std::alloc::Global;

/// The statistics of a column in their stable encoding, which names a logical type. Bounds that are
/// strings or bytes are cut to `max_length` bytes.
///
/// - `BUFFER_TOO_SMALL`: `count` says how many bytes the encoding has.
/// - `UNKNOWN_KIND`, `TOO_MANY_ROWS`, `TOO_SHORT`, `BAD_OFFSETS`, `NOT_UTF8`, `NOT_A_VALUE`: the column
///   cannot be read. `fault` says where.
/// - `NO_MEMORY`: `fault` is not written.
#[unsafe(no_mangle)]
pub extern "C" fn doqallin_column_statistics(
    alloc: Global,
    column: &Column,
    max_length: usize,
    buffer: &mut [u8],
    count: &mut usize,
    fault: &mut Fault,
) -> u32
    ensures answer { AnswersEncoding (IsColumnEncoding column.now max_length)
        buffer.old buffer.new count.old count.new result }
    ensures refused { (HasAnswer result)
        ⊎ SaysWhyNoEncoding column.now fault.old fault.new result }
    ensures kept_fault { HasAnswer result → fault.new ≡ fault.old }
{
    match column_encoding(alloc, *column, max_length) {
        Ok(bytes) => give(bytes.as_slice(), buffer, count),
        Err(refusal) => tell_encoding(refusal, fault),
    }
}

/// Tells why a column has no encoding, and gives the status.
fn tell_encoding(refusal: ColumnStatisticsError, fault: &mut Fault) -> u32
    ensures status { result ≡ status_of_encoding refusal }
    ensures fault { fault.new ≡ fault_of_encoding fault.old refusal }
    ensures refused { ¬ (HasAnswer result) }
{
    match refusal {
        ColumnStatisticsError::OutOfMemory => NO_MEMORY,
        ColumnStatisticsError::Unreadable(cause) => {
            at(0, place_in_column(cause), fault, status_of_column(cause))
        }
    }
}

/// The statistics of a piece of a column of this kind and then of another, in their stable
/// encoding, of the encodings of both. A buffer of the lengths of both suffices. Of decimals it is
/// `doqallin_merge_typed`.
///
/// - `BUFFER_TOO_SMALL`: `count` says how many bytes the encoding has.
/// - `UNKNOWN_KIND`: the code is of no kind.
/// - `BAD_BYTES`: a piece is no encoding of statistics of the kind. `fault` says which, 0 or 1, and
///   the first byte that none has there.
/// - `NOT_A_VALUE`: a bound of a piece is no value of the logical type. `fault.column` says which piece.
/// - `TOO_MANY_ROWS`: 64 bits do not count the rows of both.
/// - `NO_MEMORY`: only if the kind is of a logical type, if a piece says a bound, the second one after
///   a first that is an encoding, or if both can be merged. `fault` is not written.
#[unsafe(no_mangle)]
pub extern "C" fn doqallin_merge_statistics(
    alloc: Global,
    kind: u8,
    one: &[u8],
    other: &[u8],
    buffer: &mut [u8],
    count: &mut usize,
    fault: &mut Fault,
) -> u32
    ensures answer { AnswersEncoding (IsMergedAt (kind_at kind) one.now other.now)
        buffer.old buffer.new count.old count.new result }
    ensures enough { length one.now + length other.now ≤ length buffer.old
        → result ≢ BUFFER_TOO_SMALL }
    ensures refused { (HasAnswer result)
        ⊎ SaysWhyNotMerged (kind_at kind) one.now other.now fault.old fault.new result }
    ensures kept_fault { HasAnswer result → fault.new ≡ fault.old }
{
    merge(
        alloc,
        Kind::from_code(kind),
        one,
        other,
        buffer,
        count,
        fault,
    )
}

/// The same of any kind, decimals too.
#[unsafe(no_mangle)]
pub extern "C" fn doqallin_merge_typed(
    alloc: Global,
    kind: &KindCode,
    one: &[u8],
    other: &[u8],
    buffer: &mut [u8],
    count: &mut usize,
    fault: &mut Fault,
) -> u32
    ensures answer { AnswersEncoding (IsMergedAt (kind_of_code kind.now) one.now other.now)
        buffer.old buffer.new count.old count.new result }
    ensures enough { length one.now + length other.now ≤ length buffer.old
        → result ≢ BUFFER_TOO_SMALL }
    ensures refused { (HasAnswer result)
        ⊎ SaysWhyNotMerged (kind_of_code kind.now) one.now other.now fault.old fault.new result }
    ensures kept_fault { HasAnswer result → fault.new ≡ fault.old }
{
    merge(alloc, kind.kind(), one, other, buffer, count, fault)
}

/// The same of a kind that may be none.
fn merge(
    alloc: Global,
    kind: Option<Kind>,
    one: &[u8],
    other: &[u8],
    buffer: &mut [u8],
    count: &mut usize,
    fault: &mut Fault,
) -> u32
    ensures answer { AnswersEncoding (IsMergedAt kind one.now other.now)
        buffer.old buffer.new count.old count.new result }
    ensures enough { length one.now + length other.now ≤ length buffer.old
        → result ≢ BUFFER_TOO_SMALL }
    ensures refused { (HasAnswer result)
        ⊎ SaysWhyNotMerged kind one.now other.now fault.old fault.new result }
    ensures kept_fault { HasAnswer result → fault.new ≡ fault.old }
{
    let Some(kind) = kind else {
        return at(0, 0, fault, UNKNOWN_KIND);
    };
    match merged_encoding(alloc, kind, one, other) {
        Ok(bytes) => give(bytes.as_slice(), buffer, count),
        Err(refusal) => tell_merge(refusal, fault),
    }
}

/// Tells why two pieces were not merged, and gives the status.
fn tell_merge(refusal: MergeError, fault: &mut Fault) -> u32
    ensures status { result ≡ status_of_merge refusal }
    ensures fault { fault.new ≡ fault_of_merge fault.old refusal }
    ensures refused { ¬ (HasAnswer result) }
{
    match refusal {
        MergeError::OutOfMemory => NO_MEMORY,
        MergeError::TooManyRows => at(0, 0, fault, TOO_MANY_ROWS),
        MergeError::BadBytes { piece, offset } => at(piece, offset, fault, BAD_BYTES),
        MergeError::NotAValue { piece } => at(piece, 0, fault, NOT_A_VALUE),
    }
}
