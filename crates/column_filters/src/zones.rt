//! What a filter can be on the rows of zones.

ghost use Rattle.std.specs.Prelude.{◌≡◌, ◌+◌, ◌*◌, ◌<◌, ◌≤◌, ◌↔◌, IfErr, IfOk, IsTrue, MatchResult, None, OnOk};
ghost use Rattle.std.specs.Prelude.{Some, length, map, option_map, replicate, if◌then◌else◌};
ghost use Rattle.column_filters.specs.declared.errors.ZoneError.TheVariants.{OutOfMemory};
ghost use Rattle.column_filters.specs.Words.{AreEnough, AreHeads, AreOthersOpen, AreOutcomes, BadOffsets, IsBadAt};
ghost use Rattle.column_filters.specs.Words.{IsOutcome, IsPiece, IsSaid, RefusesZone, RefusesZones, fault_of_piece};
ghost use Rattle.column_filters.specs.Words.{formula, head_of, known, nothing_known, outcomes_byte, piece_at};
ghost use Rattle.column_filters.specs.Words.{type_of};

use crate::errors::ZoneError;
use crate::naming::{is_set, named_columns};
use arrayvec::ArrayVec;
use filter_pruning::{Outcomes, outcomes_of};
use named_statistics::{decode_piece_by_head_into, head_of};
use statistics_bytes::nothing_known;
use std::alloc::Global;
use vortex_dtype::DType;
use vortex_filter::Filter;
use vortex_statistics::{ColumnStatistics, StatisticsError};

/// What the filter can be on the rows of each zone: a byte for each, 1 if it can be False, 2 if it
/// can be Unknown and 4 if it can be True, added up.
///
/// A piece is the encoding in bytes of the statistics of one column in one zone, from its offset to
/// the next one. Pieces stand zone by zone, one for each type, and an empty piece leaves all cells
/// open. The piece of a column that the filter does not name is not looked at: whatever its offsets
/// and its bytes are, it changes and refuses nothing.
///
/// - `WrongLength` exactly if there are not as many offsets as pieces, and one more.
/// - `BadOffsets`: the offsets of a piece go down, or past the end.
/// - `HasVariant`: a piece says a bound of a column with variants.
/// - `BadBytes`: another piece is no encoding of statistics of its column's type. Of these three
///   the first piece of a named column decides.
/// - `OutOfMemory`: for the columns, or for the bounds of a zone. It never comes in place of
///   `WrongLength`.
///
/// After a refusal the outcomes may be any bytes.
#[tactic(auto, using(crate::proofs::ZoneSteps::shown))]
pub fn outcomes_of_zones(
    alloc: Global,
    filter: &Filter,
    types: &[DType],
    statistics: &[u8],
    offsets: &[u64],
    outcomes: &mut [u8],
) -> Result<(), ZoneError>
    ensures outcomes { OnOk result (AreOutcomes (formula filter.now) (map type_of types.now)
        statistics.now offsets.now outcomes.new) }
    ensures refused { IfErr result (RefusesZones (formula filter.now) (map type_of types.now)
        statistics.now offsets.now (length outcomes.old)) }
{
    if !are_enough(outcomes.len(), types.len(), offsets.len()) {
        return Err(ZoneError::WrongLength);
    }
    write_outcomes(alloc, filter, types, statistics, offsets, outcomes)
}

/// Writes what the filter can be on the rows of each zone. The statistics of all zones are read
/// into the same places, one for each column.
fn write_outcomes(
    alloc: Global,
    filter: &Filter,
    types: &[DType],
    statistics: &[u8],
    offsets: &[u64],
    outcomes: &mut [u8],
) -> Result<(), ZoneError>
    requires { AreEnough (length outcomes.old) (length types.now) (length offsets.now) }
    ensures outcomes { OnOk result (AreOutcomes (formula filter.now) (map type_of types.now)
        statistics.now offsets.now outcomes.new) }
    ensures refused { IfErr result (RefusesZones (formula filter.now) (map type_of types.now)
        statistics.now offsets.now (length outcomes.old)) }
{
    let heads = heads_of_named(alloc, filter, types)?;
    let mut read = open_statistics(alloc, types.len())?;
    let mut piece = 0;
    for zone in 0..outcomes.len() {
        outcomes[zone] = outcome_of_zone(
            alloc,
            filter,
            types,
            &heads,
            statistics,
            offsets,
            piece,
            read.as_mut_slice(),
        )?;
        piece += types.len();
    }
    Ok(())
}

/// What stands before the statistics of each column that the filter names, and `None` for the others.
fn heads_of_named(
    alloc: Global,
    filter: &Filter,
    types: &[DType],
) -> Result<Vec<Option<ArrayVec<u8, 4>>>, ZoneError>
    ensures made { IfOk result
        (λ heads. AreHeads (formula filter.now) (map type_of types.now) heads.items) }
    ensures refused { IfErr result (λ e. e ≡ OutOfMemory) }
{
    let named = named_columns(alloc, filter, types.len())?;
    let mut heads = Vec::with_capacity(alloc, types.len())?;
    for column in 0..types.len() {
        heads.push(head_if_named(is_set(&named, column), &types[column]))?;
    }
    Ok(heads)
}

/// What stands before the statistics of a column of the type, if the column is named.
fn head_if_named(is_named: bool, dtype: &DType) -> Option<ArrayVec<u8, 4>>
    ensures { option_map (λ head. head.items) result
        ≡ (if is_named then Some (head_of (type_of dtype.now)) else None) }
{
    if is_named { Some(head_of(dtype)) } else { None }
}

/// Statistics of so many columns of which nothing is known.
fn open_statistics(alloc: Global, count: usize) -> Result<Vec<ColumnStatistics>, ZoneError>
    ensures made { IfOk result (λ read. map known read.items ≡ replicate count nothing_known) }
    ensures refused { IfErr result (λ e. e ≡ OutOfMemory) }
{
    let mut columns = Vec::with_capacity(alloc, count)?;
    for column in 0..count {
        columns.push(nothing_known())?;
    }
    Ok(columns)
}

/// Whether there are as many offsets as pieces, and one more.
fn are_enough(zones: usize, columns: usize, offsets: usize) -> bool
    ensures { IsTrue result ↔ AreEnough zones columns offsets }
{
    match zones.checked_mul(columns) {
        Some(pieces) => offsets > 0 && offsets - 1 == pieces,
        None => false,
    }
}

/// Three bits: whether False, Unknown and True are possible.
fn byte_of(outcomes: Outcomes) -> u8
    ensures { result ≡ outcomes_byte outcomes }
{
    value_if(outcomes.may_be_false, 1)
        + value_if(outcomes.may_be_unknown, 2)
        + value_if(outcomes.may_be_true, 4)
}

/// The value if that holds, else 0.
fn value_if(holds: bool, value: u8) -> u8
    ensures value { result ≡ (if holds then value else 0) }
    ensures small { result ≤ value }
{
    if holds { value } else { 0 }
}

/// What the filter can be on the rows of a zone, as a byte, by its pieces from a first one on. What
/// they say of the columns that the filter names is put in place of what was there.
#[tactic(auto, using(crate::proofs::ZoneSteps::shown))]
fn outcome_of_zone(
    alloc: Global,
    filter: &Filter,
    types: &[DType],
    heads: &[Option<ArrayVec<u8, 4>>],
    statistics: &[u8],
    offsets: &[u64],
    first: usize,
    read: &mut [ColumnStatistics],
) -> Result<u8, ZoneError>
    requires there { first + length types.now < length offsets.now }
    requires columns { length read.old ≡ length types.now }
    requires heads { AreHeads (formula filter.now) (map type_of types.now) heads.now }
    requires others { AreOthersOpen (formula filter.now) (map known read.old) }
    ensures outcome { IfOk result (λ byte. IsOutcome (formula filter.now) (map type_of types.now)
        statistics.now offsets.now first byte) }
    ensures others { IfOk result (λ _. AreOthersOpen (formula filter.now) (map known read.new)) }
    ensures refused { IfErr result (RefusesZone (formula filter.now) (map type_of types.now)
        statistics.now offsets.now first) }
{
    for column in 0..types.len() {
        if let Some(head) = &heads[column] {
            let place = &mut read[column];
            read_piece(
                alloc,
                &types[column],
                head.as_slice(),
                statistics,
                offsets,
                first + column,
                place,
            )?;
        }
    }
    Ok(byte_of(outcomes_of(filter, read)))
}

/// Puts what a piece says of a column of the type in place of what was there. The head is that of the
/// type.
fn read_piece(
    alloc: Global,
    dtype: &DType,
    head: &[u8],
    statistics: &[u8],
    offsets: &[u64],
    piece: usize,
    read: &mut ColumnStatistics,
) -> Result<(), ZoneError>
    requires there { piece + 1 < length offsets.now }
    requires head { head.now ≡ head_of (type_of dtype.now) }
    ensures said { OnOk result
        (IsSaid (type_of dtype.now) statistics.now offsets.now piece (known read.new)) }
    ensures refused { IfErr result
        (IsBadAt (type_of dtype.now) statistics.now offsets.now piece) }
{
    let bytes = bytes_of_piece(statistics, offsets, piece)?;
    match decode_piece_by_head_into(alloc, dtype, head, bytes, read) {
        Ok(()) => Ok(()),
        Err(refusal) => Err(fault_of_piece(piece, refusal)),
    }
}

/// The error of a piece that was not read.
fn fault_of_piece(piece: usize, refusal: StatisticsError) -> ZoneError
    ensures { result ≡ fault_of_piece piece refusal }
{
    match refusal {
        StatisticsError::BadBytes { offset } => ZoneError::BadBytes { piece, offset },
        StatisticsError::HasVariant => ZoneError::HasVariant { piece },
        StatisticsError::OutOfMemory | StatisticsError::TooManyRows => ZoneError::OutOfMemory,
    }
}

/// The bytes of a piece.
fn bytes_of_piece<'a>(
    statistics: &'a [u8],
    offsets: &[u64],
    piece: usize,
) -> Result<&'a [u8], ZoneError>
    requires { piece + 1 < length offsets.now }
    ensures { MatchResult result
        (λ bytes. IsPiece statistics.now offsets.now piece
        × (bytes.now ≡ piece_at statistics.now offsets.now piece))
        (λ e. (e ≡ BadOffsets piece) × ¬ (IsPiece statistics.now offsets.now piece)) }
{
    let start = offsets[piece];
    let end = offsets[piece + 1];
    if start > end || end > statistics.len() as u64 {
        return Err(ZoneError::BadOffsets { piece });
    }
    Ok(&statistics[start as usize..end as usize])
}
