//! Statistics of columns are read back.

ghost use Rattle.std.specs.Prelude.{◌≡◌, ℕ, List, IfErr, IfOk, None, Some, if◌then◌else◌, length, map, option_map};
ghost use Rattle.record_search.specs.Words.{columns_in, known, piece_in, statistics_in};
ghost use Rattle.zone_index.specs.Encoding.{ArePieces};

use crate::describing::empty_statistics;
use record_rows::{ColumnType, dtype_of};
use statistics_bytes::decode_piece_into;
use std::alloc::{AllocError, Global};
use vortex_statistics::{ColumnStatistics, StatisticsError};
use zone_index::are_pieces;

/// The statistics of each column, where the bytes are their pieces, each after its length. An empty
/// piece leaves all open.
///
/// Whether they are so many pieces is tested before memory is asked for.
pub fn read_statistics(
    alloc: Global,
    columns: &[ColumnType],
    bytes: &[u8],
) -> Result<Option<Vec<ColumnStatistics>>, AllocError>
    ensures read { IfOk result (λ read. option_map (λ v. map known v.items) read ≡
        columns_in columns.now bytes.now) }
    ensures refused { IfErr result (λ _. (pieces : List (List ℕ))
        × ArePieces (length columns.now) bytes.now pieces) }
{
    if !are_pieces(columns.len(), bytes) {
        return Ok(None);
    }
    let mut all = empty_statistics(alloc, columns.len())?;
    if read_all(alloc, columns, bytes, &mut all)? {
        Ok(Some(all))
    } else {
        Ok(None)
    }
}

/// Puts the statistics of each column in the place of these. Whether the bytes are their pieces; if
/// not, these may say anything.
fn read_all(
    alloc: Global,
    columns: &[ColumnType],
    bytes: &[u8],
    all: &mut [ColumnStatistics],
) -> Result<bool, AllocError>
    requires { length all.old ≡ length columns.now }
    ensures { IfOk result (λ is. (if is then Some (map known all.new) else None) ≡
        columns_in columns.now bytes.now) }
{
    let mut rest = bytes;
    for place in 0..columns.len() {
        let Some((piece, after)) = cut_piece(rest) else {
            return Ok(false);
        };
        let is_encoding = read_column(alloc, columns[place], piece, &mut all[place])?;
        if !is_encoding {
            return Ok(false);
        }
        rest = after;
    }
    Ok(rest.is_empty())
}

/// The bytes after their length, and what follows them.
fn cut_piece(bytes: &[u8]) -> Option<(&[u8], &[u8])>
    ensures { option_map (λ cut. (cut.0.now, cut.1.now)) result ≡ piece_in bytes.now }
{
    if bytes.len() < 8 {
        return None;
    }
    let (front, rest) = bytes.split_at(8);
    let length = u64::from_le_bytes([
        front[0], front[1], front[2], front[3], front[4], front[5], front[6], front[7],
    ]) as usize;
    if rest.len() < length {
        return None;
    }
    Some(rest.split_at(length))
}

/// Puts what a piece says of a column in the place of these, which spares the moves of a result.
/// Whether it says anything; if not, these may.
fn read_column(
    alloc: Global,
    column: ColumnType,
    bytes: &[u8],
    statistics: &mut ColumnStatistics,
) -> Result<bool, AllocError>
    ensures { IfOk result (λ is. (if is then Some (known statistics.new) else None) ≡
        statistics_in column bytes.now) }
{
    let dtype = dtype_of(alloc, column)?;
    match decode_piece_into(alloc, &dtype, bytes, statistics) {
        Ok(()) => Ok(true),
        Err(error) => match error {
            StatisticsError::OutOfMemory => Err(AllocError),
            _ => Ok(false),
        },
    }
}
