//! The loop that gathers the statistics of strings and bytes.

ghost use Rattle.std.specs.Prelude.{[], ◌≡◌, ℕ, ◌<◌, ◌≤◌, ◌-◌, length, slice_index_or};
ghost use Rattle.arrow_columns.specs.Words.{AreByteStatisticsOf, AreRows, HasBits, bytes_between, cells_from};
ghost use Rattle.arrow_columns.specs.Words.{offset_of};

use crate::bitmaps::{first_valid, is_row_valid};
use crate::byte_items::{read_offset, row};
use crate::byte_spans::ByteSpan;
use crate::offsets::Offset;
use crate::statistics::{ByteExtremes, ByteStatistics};

/// The statistics of some rows; those of the extremes count from the first.
pub fn statistics_of_byte_rows<const N: usize, T: Offset<N>>(
    validity: &[u8],
    bytes: &[u8],
    offsets: &[[u8; N]],
    from: usize,
    end: usize,
) -> ByteStatistics
    requires narrow { N ≤ 8 }
    requires range { from ≤ end }
    requires bits { HasBits validity.now end }
    requires offsets { end < length offsets.now }
    requires rows { AreRows T.width bytes.now (λ i. offset_of T.width (slice_index_or offsets.now i [])) from end }
    ensures { let value = bytes_between bytes.now (λ i. offset_of T.width (slice_index_or offsets.now i [])) in
        AreByteStatisticsOf (cells_from validity.now value from (end - from)) result }
{
    if validity.is_empty() {
        return gather::<N, T>(&[], bytes, offsets, from, end);
    }
    gather::<N, T>(validity, bytes, offsets, from, end)
}

/// The same in one pass. Where it is called without a bitmap, no row is tested for a null.
#[inline(always)]
fn gather<const N: usize, T: Offset<N>>(
    validity: &[u8],
    bytes: &[u8],
    offsets: &[[u8; N]],
    from: usize,
    end: usize,
) -> ByteStatistics
    requires narrow { N ≤ 8 }
    requires range { from ≤ end }
    requires bits { HasBits validity.now end }
    requires offsets { end < length offsets.now }
    requires rows { AreRows T.width bytes.now (λ i. offset_of T.width (slice_index_or offsets.now i [])) from end }
    ensures { let value = bytes_between bytes.now (λ i. offset_of T.width (slice_index_or offsets.now i [])) in
        AreByteStatisticsOf (cells_from validity.now value from (end - from)) result }
{
    let start = first_valid(validity, from, end);
    if start == end {
        return ByteStatistics {
            null_count: end - from,
            extremes: None,
        };
    }
    let mut null_count = start - from;
    let mut span = ByteSpan::of(start, row::<N, T>(bytes, offsets, start));
    for i in start + 1..end {
        let begin = read_offset::<N, T>(offsets, i);
        let stop = read_offset::<N, T>(offsets, i + 1);
        if validity.is_empty() {
            span.widen(i, bytes, begin, stop);
            continue;
        }
        let is_valid = is_row_valid(validity, i, end);
        span.widen_if(is_valid, i, bytes, begin, stop);
        if !is_valid {
            null_count += 1;
        }
    }
    ByteStatistics {
        null_count,
        extremes: Some(ByteExtremes {
            least: span.least - from,
            greatest: span.greatest - from,
        }),
    }
}
