//! The columns that are wanted, one after the other.

ghost use Rattle.std.specs.Prelude.{◌≡◌, ◌<◌, MatchBool, length, map};
ghost use Rattle.record_columns.specs.Words.{AreColumns, AreColumnsOf, AreCountsOf, AreReady, HaveValues};
ghost use Rattle.record_columns.specs.Words.{IsColumnOf, IsCountOf, IsOneShort, IsReadyFor, IsShortFor, row_cells};

use crate::kinds::kind_of_column;
use column_keys::{ColumnBuffers, count_column, write_column};
use record_rows::Schema;
use vortex_value::Scalar;

/// Says of each column that is wanted how many bytes its values have. Answers whether all buffers suffice.
pub(crate) fn count_wanted(
    schema: &Schema,
    rows: &[Vec<Scalar>],
    wanted: &[usize],
    columns: &mut [ColumnBuffers],
) -> bool
    requires count { length columns.old ≡ length wanted.now }
    requires known { AreColumns schema.now wanted.now (length wanted.now) }
    requires values { HaveValues schema.now.columns.items rows.now }
    ensures counted { AreCountsOf schema.now (map row_cells rows.now) wanted.now columns.old columns.new }
    ensures ready { MatchBool result
        (AreReady schema.now (map row_cells rows.now) wanted.now (length wanted.now) columns.new)
        (IsOneShort schema.now (map row_cells rows.now) wanted.now (length wanted.now) columns.new) }
{
    let mut suffices = true;
    for which in 0..wanted.len() {
        let column = &mut columns[which];
        suffices &= count_one(schema, rows, wanted[which], column);
    }
    suffices
}

/// Says how many bytes the values of a column have. Answers whether its buffers suffice.
fn count_one(
    schema: &Schema,
    rows: &[Vec<Scalar>],
    place: usize,
    column: &mut ColumnBuffers,
) -> bool
    requires known { place < length schema.now.columns.items }
    requires values { HaveValues schema.now.columns.items rows.now }
    ensures counted { IsCountOf schema.now (map row_cells rows.now) place column.old column.new }
    ensures ready { MatchBool result (IsReadyFor schema.now (map row_cells rows.now) place column.new)
        (IsShortFor schema.now (map row_cells rows.now) place column.new) }
{
    let kind = kind_of_column(schema.columns[place]);
    count_column(rows, place, kind, column)
}

/// Writes the columns that are wanted, of rows.
pub(crate) fn write_wanted(
    schema: &Schema,
    rows: &[Vec<Scalar>],
    wanted: &[usize],
    columns: &mut [ColumnBuffers],
)
    requires count { length columns.old ≡ length wanted.now }
    requires known { AreColumns schema.now wanted.now (length wanted.now) }
    requires values { HaveValues schema.now.columns.items rows.now }
    requires ready { AreReady schema.now (map row_cells rows.now) wanted.now (length wanted.now) columns.old }
    ensures { AreColumnsOf schema.now (map row_cells rows.now) wanted.now columns.old columns.new }
{
    for which in 0..wanted.len() {
        let column = &mut columns[which];
        write_one(schema, rows, wanted[which], column);
    }
}

/// Writes one column.
fn write_one(schema: &Schema, rows: &[Vec<Scalar>], place: usize, column: &mut ColumnBuffers)
    requires known { place < length schema.now.columns.items }
    requires values { HaveValues schema.now.columns.items rows.now }
    requires ready { IsReadyFor schema.now (map row_cells rows.now) place column.old }
    ensures { IsColumnOf schema.now (map row_cells rows.now) place column.old column.new }
{
    let kind = kind_of_column(schema.columns[place]);
    write_column(rows, place, kind, column);
}
