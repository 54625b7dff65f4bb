//! What callers derive of statistics from the contracts and the laws alone: pieces that are reduced
//! in two groupings, and statistics that are written, read back and merged.

ghost use Rattle.std.specs.Prelude.{◌≡◌, ◌++◌, List, IfErr, IfOk, map, true};
ghost use Rattle.vortex_dtype.specs.TypeOf.{type_of};
ghost use Rattle.vortex_cells.specs.Cells.{Cell};
ghost use Rattle.statistics_bytes.specs.Encoding.{AreOf, IsHeldKnown, IsUntypedBound, SaySame, encoding};
ghost use Rattle.statistics_bytes.specs.EncodingAnswers.{retyped};
ghost use Rattle.vortex_statistics.specs.Statistics.{AreRight, Known, known};
ghost use Rattle.vortex_statistics.specs.declared.error.StatisticsError.TheVariants.{OutOfMemory};
ghost use Rattle.law_callers.specs.Pieces.{AreRightForThree};

use statistics_bytes::laws::encodings_are_apart;
use statistics_bytes::{append_statistics, decode_statistics};
use std::alloc::Global;
use vortex_dtype::DType;
use vortex_statistics::laws::{any_grouping_is_right, looser_bounds_are_right};
use vortex_statistics::{ColumnStatistics, StatisticsError};

/// The statistics of three pieces, reduced from the first.
pub fn from_the_first(
    first: ColumnStatistics,
    second: ColumnStatistics,
    third: ColumnStatistics,
) -> Result<ColumnStatistics, StatisticsError>
    ensures { IfOk result (AreRightForThree first second third) }
{
    any_grouping_is_right();
    match first.merge(second) {
        Ok(front) => front.merge(third),
        Err(cause) => {
            drop(third);
            Err(cause)
        }
    }
}

/// The statistics of three pieces, reduced from the last. They are right for the same columns.
pub fn from_the_last(
    first: ColumnStatistics,
    second: ColumnStatistics,
    third: ColumnStatistics,
) -> Result<ColumnStatistics, StatisticsError>
    ensures { IfOk result (AreRightForThree first second third) }
{
    any_grouping_is_right();
    match second.merge(third) {
        Ok(back) => first.merge(back),
        Err(cause) => {
            drop(first);
            Err(cause)
        }
    }
}

/// The counts alone, which stay right.
pub fn counts_alone(statistics: ColumnStatistics) -> ColumnStatistics
    ensures { (cells : List Cell) → AreRight (known statistics) cells
        → AreRight (known result) cells }
{
    looser_bounds_are_right();
    let ColumnStatistics {
        row_count,
        null_count,
        lower,
        upper,
    } = statistics;
    drop((lower, upper));
    ColumnStatistics {
        row_count,
        null_count,
        lower: None,
        upper: None,
    }
}

/// The statistics of a column of the type that are written and read back: they say the same, and
/// want of memory alone is in the way.
pub fn there_and_back(
    alloc: Global,
    dtype: &DType,
    statistics: &ColumnStatistics,
) -> Result<ColumnStatistics, StatisticsError>
    requires { AreOf (type_of dtype.now) (known statistics.now) }
    ensures back { IfOk result (λ back. known back ≡ known statistics.now) }
    ensures refused { IfErr result (λ e. e ≡ OutOfMemory) }
{
    let mut bytes = Vec::new(alloc);
    append_statistics(statistics, &mut bytes)?;
    decode_statistics(alloc, dtype, bytes.as_slice())
}

/// The statistics of two pieces, read back as those of a column of the type. They are right for the
/// contents of both pieces, whatever types they were written in.
pub fn merge_written(
    alloc: Global,
    dtype: &DType,
    first: &[u8],
    second: &[u8],
) -> Result<ColumnStatistics, StatisticsError>
    ensures { IfOk result (λ both. (s t : Known) (cells others : List Cell)
        → IsHeldKnown s → IsHeldKnown t → first.now ≡ encoding s → second.now ≡ encoding t
        → AreRight s cells → AreRight t others
        → AreRight (known both) (map (retyped (type_of dtype.now)) (cells ++ others))) }
{
    let first = decode_statistics(alloc, dtype, first)?;
    match decode_statistics(alloc, dtype, second) {
        Ok(second) => first.merge(second),
        Err(cause) => {
            drop(first);
            Err(cause)
        }
    }
}

/// Whether the bytes are the same: then, if they are the encodings of statistics, these say the
/// same.
pub fn say_the_same(first: &[u8], second: &[u8]) -> bool
    ensures { result ≡ true → (s t : Known) → IsHeldKnown s → IsHeldKnown t
        → IsUntypedBound s.lower → IsUntypedBound s.upper
        → first.now ≡ encoding s → second.now ≡ encoding t → SaySame s t }
{
    encodings_are_apart();
    first == second
}
