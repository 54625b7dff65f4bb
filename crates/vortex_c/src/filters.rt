//! Prepared filters, asked of the rows of columns and of zones.

ghost use Rattle.std.specs.Prelude.{◌≡◌, ◌≢◌, ◌≤◌, ℕ, IfErr, List, OnOk, drop, length};
ghost use Rattle.vortex_c.specs.FilterWords.{AreFilterOutcomes, IsEncodingOf, IsFilterMask, IsRowsError, IsZonesError};
ghost use Rattle.vortex_c.specs.FilterWords.{SaysWhyNoMask, SaysWhyNoOutcomes, fault_of_encoding_fault, fault_of_mask};
ghost use Rattle.vortex_c.specs.FilterWords.{fault_of_pieces, fault_of_rows, fault_of_zones, bitmap_length};
ghost use Rattle.vortex_c.specs.FilterWords.{encoding_depth, prepared, status_of_encoding_fault, status_of_mask};
ghost use Rattle.vortex_c.specs.FilterWords.{status_of_piece, status_of_rows, status_of_zones};

use crate::depth::encoding_depth;
use crate::fault::{Fault, at, place_in_column, status_of_column};
use crate::status::{
    BAD_BYTES, BAD_OFFSETS, BUFFER_TOO_SMALL, GIVEN, NO_MEMORY, UNKNOWN_KIND, WRONG_LENGTH,
};
use arrow_columns::Column;
use column_filters::{MaskError, ZoneError, mask_of_columns, outcomes_of_zones};
use filter_encoding::{FilterEncodingError, PreparedFilter, read_filter};
use std::alloc::Global;

/// Why a filter was not asked of rows.
#[derive(Clone, Copy)]
pub(crate) enum RowsError {
    /// The filter was not read.
    Unread(FilterEncodingError),
    /// There is no mask.
    NoMask(MaskError),
}

/// Why a filter was not asked of zones.
#[derive(Clone, Copy)]
pub(crate) enum ZonesError {
    /// The filter was not read.
    Unread(FilterEncodingError),
    /// There are no outcomes.
    NoOutcomes(ZoneError),
}

/// Which of so many rows of columns match a prepared filter: a bit for each, from the least
/// significant one on. The columns are those that it was prepared for, in their order. If it was
/// prepared for none, each row has the same bit. A column that the filter does not name is not looked
/// at, whatever its kind and its buffers are. Memory is asked for the filter and for the columns, before
/// any bit is written: after another status than `GIVEN` the buffer is as it was.
///
/// `depth` is how deep the words might nest that the filter was prepared from: `2 * depth + 5`
/// connectives may nest in the encoding.
///
/// - `BAD_BYTES`: the filter is no encoding that nests so deep at most, or a literal in it is no
///   value of its logical type. `fault` has the number of columns, and the first byte that no such
///   encoding has there, or where the key of that literal begins.
/// - `BUFFER_TOO_SMALL`: the buffer has not a bit for each row. `fault` is not written.
/// - `WRONG_LENGTH`: there are not as many columns as the filter has, and `fault` has their number;
///   or a column has another number of rows.
/// - `UNKNOWN_KIND`: the kind of a column is none, or with place 1 is not the filter's.
/// - `TOO_MANY_ROWS`, `TOO_SHORT`, `BAD_OFFSETS`, `NOT_UTF8`, `NOT_A_VALUE`: a column cannot be read.
/// - `NO_MEMORY`: only if the first byte of the filter is a version, 1 or 2. `fault` is not written.
#[unsafe(no_mangle)]
pub extern "C" fn doqallin_filter_mask(
    alloc: Global,
    filter: &[u8],
    columns: &[Column],
    count: usize,
    depth: usize,
    buffer: &mut [u8],
    fault: &mut Fault,
) -> u32
    ensures given { result ≡ GIVEN
        → IsFilterMask (encoding_depth depth) filter.now columns.now count buffer.new }
    ensures within { result ≡ GIVEN → bitmap_length count ≤ length buffer.old }
    ensures refused { result ≢ GIVEN → SaysWhyNoMask (encoding_depth depth) filter.now columns.now
        count (length buffer.old) fault.old fault.new result }

    // What is not said to be written stays.
    ensures rest { drop (bitmap_length count) buffer.new ≡ drop (bitmap_length count) buffer.old }
    ensures kept { result ≢ GIVEN → buffer.new ≡ buffer.old }
    ensures kept_fault { result ≡ GIVEN → fault.new ≡ fault.old }
{
    match write_rows(alloc, filter, columns, count, encoding_depth(depth), buffer) {
        Ok(()) => GIVEN,
        Err(refusal) => tell_rows(refusal, columns.len(), fault),
    }
}

/// Writes which rows match the filter that has this encoding.
fn write_rows(
    alloc: Global,
    filter: &[u8],
    columns: &[Column],
    count: usize,
    depth: usize,
    buffer: &mut [u8],
) -> Result<(), RowsError>
    ensures mask { OnOk result (IsFilterMask depth filter.now columns.now count buffer.new) }
    ensures within { OnOk result (bitmap_length count ≤ length buffer.old) }
    ensures refused { IfErr result
        (IsRowsError depth filter.now columns.now count (length buffer.old)) }
    ensures rest { drop (bitmap_length count) buffer.new ≡ drop (bitmap_length count) buffer.old }
    ensures kept { IfErr result (λ _. buffer.new ≡ buffer.old) }
{
    match read_filter(alloc, depth, filter) {
        Ok(prepared) => mask_by(alloc, &prepared, columns, count, buffer),
        Err(cause) => Err(RowsError::Unread(cause)),
    }
}

/// Writes which rows match a prepared filter, whatever bytes have its encoding.
fn mask_by(
    alloc: Global,
    filter: &PreparedFilter,
    columns: &[Column],
    count: usize,
    buffer: &mut [u8],
) -> Result<(), RowsError>
    ensures mask { (n : ℕ) (bytes : List ℕ) → IsEncodingOf n bytes (prepared filter.now)
        → OnOk result (IsFilterMask n bytes columns.now count buffer.new) }
    ensures within { OnOk result (bitmap_length count ≤ length buffer.old) }
    ensures refused { (n : ℕ) (bytes : List ℕ) → IsEncodingOf n bytes (prepared filter.now)
        → IfErr result (IsRowsError n bytes columns.now count (length buffer.old)) }
    ensures rest { drop (bitmap_length count) buffer.new ≡ drop (bitmap_length count) buffer.old }
    ensures kept { IfErr result (λ _. buffer.new ≡ buffer.old) }
{
    match mask_of_columns(
        alloc,
        &filter.filter,
        &filter.columns,
        columns,
        count,
        buffer,
    ) {
        Ok(()) => Ok(()),
        Err(cause) => Err(RowsError::NoMask(cause)),
    }
}

/// What a prepared filter can be on the rows of zones: a byte for each, 1 if it can be False, 2 if
/// it can be Unknown and 4 if it can be True, added up.
///
/// A piece is the stable encoding of the statistics of one column in one zone, from its offset to
/// the next one. Pieces stand zone by zone, one for each column that the filter was prepared for.
/// An empty piece leaves all cells open. The piece of a column that the filter does not name is not
/// looked at, whatever its offsets and its bytes are. Memory is asked for the filter and its columns,
/// and for the bounds of a zone.
///
/// `depth` is how deep the words might nest that the filter was prepared from: `2 * depth + 5`
/// connectives may nest in the encoding. After another status than `GIVEN` the outcomes may be any bytes.
///
/// - `BAD_BYTES`: a piece is no encoding of statistics of its column's kind. `fault.column` is the
///   piece, and `fault.place` its first byte that none has there. If the filter is no encoding
///   that nests so deep at most, or a literal in it is no value of its logical type, `fault.column`
///   is the number of offsets.
/// - `WRONG_LENGTH`: there are not as many offsets as pieces, and one more. `fault.column` is their
///   number.
/// - `BAD_OFFSETS`: the offsets of the piece `fault.column` go down, or past the end.
/// - `NO_MEMORY`: only if the first byte of the filter is a version, 1 or 2. `fault` is not written.
#[unsafe(no_mangle)]
pub extern "C" fn doqallin_filter_outcomes(
    alloc: Global,
    filter: &[u8],
    statistics: &[u8],
    offsets: &[u64],
    depth: usize,
    outcomes: &mut [u8],
    fault: &mut Fault,
) -> u32
    ensures given { result ≡ GIVEN → AreFilterOutcomes (encoding_depth depth) filter.now
        statistics.now offsets.now outcomes.new }
    ensures refused { result ≢ GIVEN → SaysWhyNoOutcomes (encoding_depth depth) filter.now
        statistics.now offsets.now (length outcomes.old) fault.old fault.new result }
    ensures kept_fault { result ≡ GIVEN → fault.new ≡ fault.old }
{
    match write_zones(
        alloc,
        filter,
        statistics,
        offsets,
        encoding_depth(depth),
        outcomes,
    ) {
        Ok(()) => GIVEN,
        Err(refusal) => tell_zones(refusal, offsets.len(), fault),
    }
}

/// Writes what the filter that has this encoding can be on the rows of zones.
fn write_zones(
    alloc: Global,
    filter: &[u8],
    statistics: &[u8],
    offsets: &[u64],
    depth: usize,
    outcomes: &mut [u8],
) -> Result<(), ZonesError>
    ensures outcomes { OnOk result
        (AreFilterOutcomes depth filter.now statistics.now offsets.now outcomes.new) }
    ensures refused { IfErr result
        (IsZonesError depth filter.now statistics.now offsets.now (length outcomes.old)) }
{
    match read_filter(alloc, depth, filter) {
        Ok(prepared) => outcomes_by(alloc, &prepared, statistics, offsets, outcomes),
        Err(cause) => Err(ZonesError::Unread(cause)),
    }
}

/// Writes what a prepared filter can be on the rows of zones, whatever bytes have its encoding.
fn outcomes_by(
    alloc: Global,
    filter: &PreparedFilter,
    statistics: &[u8],
    offsets: &[u64],
    outcomes: &mut [u8],
) -> Result<(), ZonesError>
    ensures outcomes { (n : ℕ) (bytes : List ℕ) → IsEncodingOf n bytes (prepared filter.now)
        → OnOk result (AreFilterOutcomes n bytes statistics.now offsets.now outcomes.new) }
    ensures refused { (n : ℕ) (bytes : List ℕ) → IsEncodingOf n bytes (prepared filter.now)
        → IfErr result
        (IsZonesError n bytes statistics.now offsets.now (length outcomes.old)) }
{
    match outcomes_of_zones(
        alloc,
        &filter.filter,
        &filter.columns,
        statistics,
        offsets,
        outcomes,
    ) {
        Ok(()) => Ok(()),
        Err(cause) => Err(ZonesError::NoOutcomes(cause)),
    }
}

/// Tells where the mistake is, among so many columns, and gives the status.
fn tell_rows(refusal: RowsError, columns: usize, fault: &mut Fault) -> u32
    ensures status { result ≡ status_of_rows refusal }
    ensures fault { fault.new ≡ fault_of_rows columns refusal fault.old }
    ensures refused { result ≢ GIVEN }
{
    match refusal {
        RowsError::Unread(cause) => tell_unread(cause, columns, fault),
        RowsError::NoMask(cause) => tell_mask(cause, columns, fault),
    }
}

/// Tells where an encoding ends to be one, and gives the status.
fn tell_unread(cause: FilterEncodingError, column: usize, fault: &mut Fault) -> u32
    ensures status { result ≡ status_of_encoding_fault cause }
    ensures fault { fault.new ≡ fault_of_encoding_fault column cause fault.old }
    ensures refused { result ≢ GIVEN }
{
    match cause {
        FilterEncodingError::OutOfMemory => NO_MEMORY,
        FilterEncodingError::NoEncoding => at(column, 0, fault, BAD_BYTES),
        FilterEncodingError::BadBytes { offset } => at(column, offset, fault, BAD_BYTES),
        FilterEncodingError::NotAValue { offset } => at(column, offset, fault, BAD_BYTES),
    }
}

/// Tells why there is no mask, and gives the status.
fn tell_mask(cause: MaskError, columns: usize, fault: &mut Fault) -> u32
    ensures status { result ≡ status_of_mask cause }
    ensures fault { fault.new ≡ fault_of_mask columns cause fault.old }
    ensures refused { result ≢ GIVEN }
{
    match cause {
        MaskError::OutOfMemory => NO_MEMORY,
        MaskError::BufferTooSmall => BUFFER_TOO_SMALL,
        MaskError::WrongCount => at(columns, 0, fault, WRONG_LENGTH),
        MaskError::Unreadable {
            column,
            fault: reason,
        } => at(
            column,
            place_in_column(reason),
            fault,
            status_of_column(reason),
        ),
        MaskError::TypesDiffer { column } => at(column, 1, fault, UNKNOWN_KIND),
        MaskError::WrongLength { column } => at(column, 0, fault, WRONG_LENGTH),
    }
}

/// Tells where the mistake is, among so many offsets, and gives the status.
fn tell_zones(refusal: ZonesError, offsets: usize, fault: &mut Fault) -> u32
    ensures status { result ≡ status_of_zones refusal }
    ensures fault { fault.new ≡ fault_of_zones offsets refusal fault.old }
    ensures refused { result ≢ GIVEN }
{
    match refusal {
        ZonesError::Unread(cause) => tell_unread(cause, offsets, fault),
        ZonesError::NoOutcomes(cause) => tell_piece(cause, offsets, fault),
    }
}

/// Tells which piece says nothing, and gives the status.
fn tell_piece(cause: ZoneError, offsets: usize, fault: &mut Fault) -> u32
    ensures status { result ≡ status_of_piece cause }
    ensures fault { fault.new ≡ fault_of_pieces offsets cause fault.old }
    ensures refused { result ≢ GIVEN }
{
    match cause {
        ZoneError::OutOfMemory => NO_MEMORY,
        ZoneError::WrongLength => at(offsets, 0, fault, WRONG_LENGTH),
        ZoneError::BadOffsets { piece } => at(piece, 0, fault, BAD_OFFSETS),
        ZoneError::BadBytes { piece, offset } => at(piece, offset, fault, BAD_BYTES),
        ZoneError::HasVariant { piece } => at(piece, 0, fault, BAD_BYTES),
    }
}
