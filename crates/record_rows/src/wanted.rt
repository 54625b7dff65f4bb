//! The cells of a record that are wanted, where it is known to have a row.

ghost use Rattle.std.specs.Prelude.{◌≡◌, ◌<◌, ◌≤◌, ◌+◌, ℕ, length, take, true};
ghost use Rattle.csv_records.specs.Rows.{field_rows};
ghost use Rattle.record_rows.specs.Rows.{ReachesPast, is_wanted};
ghost use Rattle.record_rows.specs.Walks.{field_of};
ghost use Rattle.record_rows.specs.Wanted.{AreWanted, HasWanted, PutsCell};

use crate::fields::{ColumnField, FieldWalk};
use crate::rows::{fill_at, is_wanted};
use crate::schema::{FieldReading, Schema};
use crate::taking::take_field;
use csv_records::row_start;
use std::alloc::Global;
use vortex_value::Scalar;

/// Reads the cells that are wanted of a record which is known to have a row: those of the columns at
/// whose place the list has no `false`. No other field is tested, and none behind the last of these is
/// looked at. Whether they were read: where a field is missing or is refused, or where no memory is
/// left, `read_cells` says more.
pub fn read_wanted(
    alloc: Global,
    schema: &Schema,
    wanted: &[bool],
    line: &[u8],
    row: &mut Vec<Scalar>,
) -> bool
    // If the record has a row, these are its cells.
    ensures { result ≡ true → HasWanted wanted.now schema.now.delimiter.byte schema.now.reading
        schema.now.columns.items line.now row.new.items }
{
    let start = row_start(line);
    if start.is_empty() {
        return false;
    }
    row.truncate(schema.columns.len());
    put_wanted(alloc, schema, wanted, start, row)
}

/// Puts the cells that are wanted at their places, and says whether it did. The text begins where a field does.
fn put_wanted(
    alloc: Global,
    schema: &Schema,
    wanted: &[bool],
    text: &[u8],
    row: &mut Vec<Scalar>,
) -> bool
    requires { length row.old.items ≤ length schema.now.columns.items }
    ensures { result ≡ true → AreWanted wanted.now schema.now.reading schema.now.columns.items
        (field_rows schema.now.delimiter.byte text.now) row.new.items }
{
    let count = through_wanted(schema.columns.len(), wanted);
    let mut buffer = Vec::new(alloc);
    let mut walk = FieldWalk::of(schema, text);
    while walk.place < count {
        let Ok(Some(field)) = walk.next_field(&mut buffer) else {
            return false;
        };
        let keeps = is_wanted(wanted, field.place);
        if !put_where(alloc, &schema.reading, &field, keeps, row) {
            return false;
        }
    }
    true
}

/// How many of so many columns there are up to the last one that is wanted.
fn through_wanted(columns: usize, wanted: &[bool]) -> usize
    ensures few { result ≤ columns }
    ensures past { (k : ℕ) → is_wanted wanted.now k ≡ true → k < columns → k < result }
{
    let mut count = columns;
    while 0 < count {
        if is_wanted(wanted, count - 1) {
            return count;
        }
        count -= 1;
    }
    count
}

/// Puts the cell of a field at its place if it is wanted, and says whether it did. Else any scalar stands there.
#[inline(always)]
fn put_where(
    alloc: Global,
    reading: &FieldReading,
    field: &ColumnField<'_>,
    keeps: bool,
    row: &mut Vec<Scalar>,
) -> bool
    requires { field.now.place ≤ length row.old.items }
    ensures cell { result ≡ true → PutsCell keeps reading.now field.now.column (field_of field.now)
        (take field.now.place row.old.items) (take (field.now.place + 1) row.new.items) }
    ensures reaches { result ≡ true → ReachesPast field.now.place row.old.items row.new.items }
{
    let Ok(()) = fill_at(row, field.place) else {
        return false;
    };
    if !keeps {
        return true;
    }
    take_field(alloc, reading, field, &mut row[field.place]).is_ok()
}
