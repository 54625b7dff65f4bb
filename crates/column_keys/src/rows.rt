//! The key of one row.

ghost use Rattle.column_keys.specs.Words.{HasRow, HasSlot, Writes, key_of_row, options_of, table_of};

use crate::key_columns::KeyColumn;
use crate::values::value_at;
use vortex_row::write_plain_key;

/// Writes the key of a row from this offset on, and answers the offset after it.
pub(crate) fn write_row(columns: &[KeyColumn], row: usize, start: usize, buffer: &mut [u8]) -> usize
    requires row { HasRow columns.now row }
    requires buffer { HasSlot buffer.old start (key_of_row (options_of columns.now) (table_of columns.now) row) }
    ensures { Writes (key_of_row (options_of columns.now)
        (table_of columns.now) row) start result buffer.old buffer.new }
{
    let mut place = start;
    for column in columns {
        let value = value_at(&column.rows, row);
        place = write_plain_key(value.plain(), column.options, place, buffer);
    }
    place
}
