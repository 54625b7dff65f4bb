//! The keys of all rows.

ghost use Rattle.std.specs.Prelude.{◌≡◌, ◌+◌, ◌<◌, drop, length};
ghost use Rattle.column_keys.specs.Words.{AreRowKeys, HaveRows, capped, keys_length, options_of, table_of};

use crate::key_columns::KeyColumn;
use crate::lengths::column_keys_length;
use crate::rows::write_row;

/// How many bytes the keys of the first rows have together. It is the greatest `usize` if they have
/// more.
#[tactic(auto, using(crate::proofs::TableSteps::shown))]
pub fn row_keys_length(columns: &[KeyColumn], row_count: usize) -> usize
    requires { HaveRows columns.now row_count }
    ensures { result ≡ capped (keys_length (options_of columns.now) (table_of columns.now) row_count) }
{
    let mut total = 0usize;
    for column in columns {
        total = total.saturating_add(column_keys_length(&column.rows, row_count));
    }
    total
}

/// Writes the keys of the first rows, one after the other, and where each begins and ends.
#[tactic(auto, using(crate::proofs::TableSteps::shown))]
pub fn write_row_keys(
    columns: &[KeyColumn],
    row_count: usize,
    offsets: &mut [u64],
    buffer: &mut [u8],
)
    requires rows { HaveRows columns.now row_count }
    requires offsets { row_count < length offsets.old }
    requires buffer { length buffer.old ≡ keys_length (options_of columns.now) (table_of columns.now) row_count }
    ensures keys { AreRowKeys (options_of columns.now) (table_of columns.now) row_count offsets.new buffer.new }
    ensures rest { drop (row_count + 1) offsets.new ≡ drop (row_count + 1) offsets.old }
{
    offsets[0] = 0;
    let mut place = 0;
    for row in 0..row_count {
        place = write_row(columns, row, place, buffer);
        offsets[row + 1] = place as u64;
    }
}
