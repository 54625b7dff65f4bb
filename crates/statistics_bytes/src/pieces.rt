//! Pieces: what is known of one column in one zone, in bytes.

ghost use Rattle.std.specs.Prelude.{◌≡◌, ◌↔◌, Err, IfErr, OnOk};
ghost use Rattle.vortex_statistics.specs.Statistics.{Known};
ghost use Rattle.statistics_bytes.specs.Words.{HasValidBounds, HasVariant, IsBadPiece, ReadsInto, ReadsRight};
ghost use Rattle.statistics_bytes.specs.Words.{SayVariant, Says, known, nothing_known, type_of};

use crate::reading::decode_statistics_into;
use std::alloc::Global;
use vortex_dtype::DType;
use vortex_statistics::{ColumnStatistics, StatisticsError};

/// Puts what a piece says of a column of the type in the place of statistics. A piece has the
/// encoding of the statistics of one column in one zone. Of an empty one nothing is known: the
/// statistics then leave all cells open.
///
/// Each refusal comes as from `decode_statistics`, of which an empty piece has none. After one the
/// statistics may say anything.
pub fn decode_piece_into(
    alloc: Global,
    dtype: &DType,
    piece: &[u8],
    statistics: &mut ColumnStatistics,
) -> Result<(), StatisticsError>
    ensures said { OnOk result (Says (type_of dtype.now) piece.now (known statistics.new)) }
    ensures valid { OnOk result (HasValidBounds statistics.new) }
    ensures whole { (s : Known) → Says (type_of dtype.now) piece.now s
        → ReadsInto s (known statistics.new) result }
    ensures right { OnOk result
        (ReadsRight (type_of dtype.now) piece.now (known statistics.new)) }
    ensures variant { (result ≡ Err HasVariant) ↔ SayVariant (type_of dtype.now) piece.now }
    ensures refused { IfErr result (IsBadPiece (type_of dtype.now) piece.now) }
{
    if piece.is_empty() {
        *statistics = nothing_known();
        return Ok(());
    }
    decode_statistics_into(alloc, dtype, piece, statistics)
}

/// The statistics of a column of which nothing is known: they leave all cells open.
pub fn nothing_known() -> ColumnStatistics
    ensures known { known result ≡ nothing_known }
    ensures valid { HasValidBounds result }
{
    ColumnStatistics {
        row_count: u64::MAX,
        null_count: None,
        lower: None,
        upper: None,
    }
}
