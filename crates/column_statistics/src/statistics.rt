//! The statistics of a column.

ghost use Rattle.std.specs.Prelude.{◌≡◌, IfErr, IfOk, List, length, true};
ghost use Rattle.vortex_dtype.specs.TypeTree.{TypeTree};
ghost use Rattle.vortex_value.specs.Values.Content.{Content};
ghost use Rattle.column_statistics.specs.Words.{AreCutStatistics, AreRight, AreSummaryOf, AreWholeOf, HasBoundsIn};
ghost use Rattle.column_statistics.specs.Words.{HasShortBounds, IsReadable, IsColumnStatisticsError, cells_of_column};
ghost use Rattle.column_statistics.specs.Words.{known, type_of_column};

use crate::errors::ColumnStatisticsError;
use crate::extremes::{Summary, summary_of};
use arrow_columns::Column;
use column_cells::{row_count, rows_of};
use std::alloc::Global;
use vortex_statistics::{Bound, ColumnStatistics};
use vortex_value::Scalar;

/// The statistics of a column, whose bounds are cut to `limit` bytes if they are strings or bytes.
///
/// The buffers are tested once, and a column that cannot be read is refused with its error. The
/// least and the greatest value are found in one pass. `OutOfMemory` only for a string, or bytes,
/// of more than 22 bytes, or for values of a logical type.
pub fn statistics_of(
    alloc: Global,
    column: Column,
    limit: usize,
) -> Result<ColumnStatistics, ColumnStatisticsError>
    ensures statistics { IfOk result (AreCutStatistics limit (cells_of_column column.entry)) }
    ensures right { IfOk result (λ s. AreRight (known s) (cells_of_column column.entry)) }
    ensures short { IfOk result (HasShortBounds limit) }
    ensures typed { IfOk result (HasBoundsIn (type_of_column column.entry)) }
    ensures readable { IfOk result (λ _. IsReadable column.entry) }
    ensures refused { IfErr result (IsColumnStatisticsError column.entry) }
{
    let rows = match rows_of(column) {
        Ok(rows) => rows,
        Err(fault) => return Err(ColumnStatisticsError::Unreadable(fault)),
    };
    let summary = match summary_of(alloc, &rows) {
        Ok(summary) => summary,
        Err(cause) => {
            drop(cause);
            return Err(ColumnStatisticsError::OutOfMemory);
        }
    };
    match statistics_from(row_count(&rows), summary).truncate(alloc, limit) {
        Ok(statistics) => Ok(statistics),
        Err(_) => Err(ColumnStatisticsError::OutOfMemory),
    }
}

/// The statistics of so many rows with this summary.
fn statistics_from(row_count: usize, summary: Summary) -> ColumnStatistics
    ensures { (t : TypeTree) → (contents : List Content) → row_count ≡ length contents
        → AreSummaryOf t contents summary → AreWholeOf t contents result }
{
    let Summary {
        null_count,
        extremes,
    } = summary;
    match extremes {
        Some(extremes) => ColumnStatistics {
            row_count: row_count as u64,
            null_count: Some(null_count as u64),
            lower: Some(exact_bound(extremes.least)),
            upper: Some(exact_bound(extremes.greatest)),
        },
        None => ColumnStatistics {
            row_count: row_count as u64,
            null_count: Some(null_count as u64),
            lower: None,
            upper: None,
        },
    }
}

/// The bound that is this value.
fn exact_bound(value: Scalar) -> Bound
    ensures { result ≡ record { value = value; is_exact = true } }
{
    Bound {
        value,
        is_exact: true,
    }
}
