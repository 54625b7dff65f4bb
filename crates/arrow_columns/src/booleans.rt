//! The loop that counts booleans.

ghost use Rattle.std.specs.Prelude.{◌-◌, ◌≤◌, ◌*◌, length};
ghost use Rattle.arrow_columns.specs.Words.{AreBooleanStatisticsOf, HasBits, bit_of, cells_from};

use crate::bitmaps::{is_row_valid, is_set};
use crate::statistics::BooleanStatistics;

/// The statistics of some rows.
pub fn statistics_of_bits(
    validity: &[u8],
    values: &[u8],
    from: usize,
    end: usize,
) -> BooleanStatistics
    requires range { from ≤ end }
    requires bits { HasBits validity.now end }
    requires values { end ≤ 8 * length values.now }
    ensures { AreBooleanStatisticsOf (cells_from validity.now (bit_of values.now) from (end - from)) result }
{
    let mut null_count = 0;
    let mut false_count = 0;
    let mut true_count = 0;
    for i in from..end {
        if is_row_valid(validity, i, end) {
            if is_set(values, i) {
                true_count += 1;
            } else {
                false_count += 1;
            }
        } else {
            null_count += 1;
        }
    }
    BooleanStatistics {
        null_count,
        false_count,
        true_count,
    }
}
