// SPDX-License-Identifier: Apache-2.0
//! Statistics from bytes that name a logical type.

ghost use Rattle.std.specs.Prelude.{◌≡◌, ◌++◌, ◌≤◌, ◌↔◌, ℕ, Err, IfErr, IfOk, OnOk, drop, length};
ghost use Rattle.vortex_statistics.specs.Statistics.{Known};
ghost use Rattle.named_statistics.specs.Words.{AreOf, BadBytes, HasValidBounds, HasVariant, IsBadNamedEncoding};
ghost use Rattle.named_statistics.specs.Words.{IsBadNamedPiece, IsNamedEncodingAs, IsOffsetWithin, IsWrongHead};
ghost use Rattle.named_statistics.specs.Words.{ReadsAs, ReadsInto, ReadsNamed, SaysNamed, SaysNamedVariant, head_of};
ghost use Rattle.named_statistics.specs.Words.{known, named_encoding, refusal_from, type_of};

use crate::heads::head_of;
use statistics_bytes::{decode_statistics_into, nothing_known};
use std::alloc::Global;
use vortex_dtype::DType;
use vortex_statistics::{ColumnStatistics, StatisticsError};

/// The statistics of a column of the type that `append_named_statistics` wrote in these bytes.
///
/// `BadBytes` also if they name another logical type than this one, or if only one of the two is there:
/// its offset is that of the first byte that no such bytes have there, or of the end if they end too
/// early. Every other refusal comes as from `decode_statistics`, of what stands behind the name.
pub fn decode_named_statistics(
    alloc: Global,
    dtype: &DType,
    bytes: &[u8],
) -> Result<ColumnStatistics, StatisticsError>
    ensures read { IfOk result (λ s. IsNamedEncodingAs (type_of dtype.now) bytes.now (known s)) }
    ensures valid { IfOk result HasValidBounds }
    ensures whole { (s : Known) → AreOf (type_of dtype.now) s
        → bytes.now ≡ named_encoding (type_of dtype.now) s → ReadsAs s result }
    ensures right { IfOk result (λ s. ReadsNamed (type_of dtype.now) bytes.now (known s)) }
    ensures variant { (result ≡ Err HasVariant) ↔ SaysNamedVariant (type_of dtype.now) bytes.now }
    ensures refused { IfErr result (IsBadNamedEncoding (type_of dtype.now) bytes.now) }
{
    let mut statistics = ColumnStatistics::empty();
    decode_by_head_into(
        alloc,
        dtype,
        head_of(dtype).as_slice(),
        bytes,
        &mut statistics,
    )?;
    Ok(statistics)
}

/// Puts what a piece says of a column of the type in the place of statistics. A piece has the bytes of
/// `append_named_statistics` of one column in one zone. Of an empty one nothing is known: the statistics
/// then leave all cells open.
///
/// Each refusal comes as from `decode_named_statistics`, of which an empty piece has none. After one the
/// statistics may say anything.
pub fn decode_named_piece_into(
    alloc: Global,
    dtype: &DType,
    piece: &[u8],
    statistics: &mut ColumnStatistics,
) -> Result<(), StatisticsError>
    ensures said { OnOk result (SaysNamed (type_of dtype.now) piece.now (known statistics.new)) }
    ensures valid { OnOk result (HasValidBounds statistics.new) }
    ensures whole { (s : Known) → SaysNamed (type_of dtype.now) piece.now s
        → ReadsInto s (known statistics.new) result }
    ensures right { OnOk result
        (ReadsNamed (type_of dtype.now) piece.now (known statistics.new)) }
    ensures variant { (result ≡ Err HasVariant) ↔ SaysNamedVariant (type_of dtype.now) piece.now }
    ensures refused { IfErr result (IsBadNamedPiece (type_of dtype.now) piece.now) }
{
    decode_piece_by_head_into(alloc, dtype, head_of(dtype).as_slice(), piece, statistics)
}

/// Puts what `decode_named_piece_into` puts there. The head is what `head_of` gives for the type, made
/// once for the pieces of many zones.
pub fn decode_piece_by_head_into(
    alloc: Global,
    dtype: &DType,
    head: &[u8],
    piece: &[u8],
    statistics: &mut ColumnStatistics,
) -> Result<(), StatisticsError>
    requires { head.now ≡ head_of (type_of dtype.now) }
    ensures said { OnOk result (SaysNamed (type_of dtype.now) piece.now (known statistics.new)) }
    ensures valid { OnOk result (HasValidBounds statistics.new) }
    ensures whole { (s : Known) → SaysNamed (type_of dtype.now) piece.now s
        → ReadsInto s (known statistics.new) result }
    ensures right { OnOk result
        (ReadsNamed (type_of dtype.now) piece.now (known statistics.new)) }
    ensures variant { (result ≡ Err HasVariant) ↔ SaysNamedVariant (type_of dtype.now) piece.now }
    ensures refused { IfErr result (IsBadNamedPiece (type_of dtype.now) piece.now) }
{
    if piece.is_empty() {
        *statistics = nothing_known();
        return Ok(());
    }
    decode_by_head_into(alloc, dtype, head, piece, statistics)
}

/// Puts what `decode_named_statistics` gives in the place of statistics, by the head of the type.
fn decode_by_head_into(
    alloc: Global,
    dtype: &DType,
    head: &[u8],
    bytes: &[u8],
    statistics: &mut ColumnStatistics,
) -> Result<(), StatisticsError>
    requires { head.now ≡ head_of (type_of dtype.now) }
    ensures read { OnOk result
        (IsNamedEncodingAs (type_of dtype.now) bytes.now (known statistics.new)) }
    ensures valid { OnOk result (HasValidBounds statistics.new) }
    ensures whole { (s : Known) → AreOf (type_of dtype.now) s
        → bytes.now ≡ named_encoding (type_of dtype.now) s → ReadsInto s (known statistics.new) result }
    ensures right { OnOk result
        (ReadsNamed (type_of dtype.now) bytes.now (known statistics.new)) }
    ensures variant { (result ≡ Err HasVariant) ↔ SaysNamedVariant (type_of dtype.now) bytes.now }
    ensures refused { IfErr result (IsBadNamedEncoding (type_of dtype.now) bytes.now) }
{
    let start = read_head(head, bytes)?;
    match decode_statistics_into(alloc, dtype, &bytes[start..], statistics) {
        Ok(()) => Ok(()),
        Err(refusal) => Err(refusal_from(start, refusal)),
    }
}

/// The length of a head, if the bytes begin with it.
fn read_head(head: &[u8], bytes: &[u8]) -> Result<usize, StatisticsError>
    ensures read { IfOk result (λ start. (start ≤ length bytes.now) × (start ≡ length head.now)
        × (bytes.now ≡ head.now ++ drop start bytes.now)) }
    ensures refused { IfErr result
        (λ e. (place : ℕ) × (e ≡ BadBytes place) × IsWrongHead head.now bytes.now place) }
{
    for offset in 0..head.len() {
        if offset >= bytes.len() || bytes[offset] != head[offset] {
            return Err(StatisticsError::BadBytes { offset });
        }
    }
    Ok(head.len())
}

/// The refusal of bytes that begin at this offset, as one of the whole.
fn refusal_from(start: usize, refusal: StatisticsError) -> StatisticsError
    requires { IsOffsetWithin start refusal }
    ensures { result ≡ refusal_from start refusal }
{
    match refusal {
        StatisticsError::BadBytes { offset } => StatisticsError::BadBytes {
            offset: start + offset,
        },
        refusal => refusal,
    }
}
