//! The row of a record.

ghost use Rattle.std.specs.Prelude.{◌≡◌, ◌∷◌, ◌++◌, ◌+◌, ◌≤◌, [], IfErr, IfOk, MatchOption, None, OnOk, length};
ghost use Rattle.std.specs.Prelude.{take, true};
ghost use Rattle.vortex_dtype.specs.declared.types.DType.TheVariants.{Null};
ghost use Rattle.csv_records.specs.Rows.{rows_of};
ghost use Rattle.record_rows.specs.Rows.{HasFields, IsRow, IsRowIn, PushesCell, ReachesPast, Refuses, RefusesFields};
ghost use Rattle.record_rows.specs.Rows.{RefusesWord, is_wanted};
ghost use Rattle.record_rows.specs.Walks.{field_of};

use crate::errors::RowReadError;
use crate::fields::{ColumnField, FieldWalk};
use crate::schema::{FieldReading, Schema};
use crate::taking::{no_cell, one_more, take_field, test_field};
use csv_records::row_start;
use std::alloc::{AllocError, Global};
use vortex_value::Scalar;

/// Reads the row of a record; `None` if it has no row, as an empty line.
///
/// If the reading is lenient, a field that its column does not take is a null if the column takes
/// nulls, and so is one that is missing; fields behind those of the last column are passed over. The
/// answer is how many are not taken.
pub fn read_row(
    alloc: Global,
    schema: &Schema,
    line: &[u8],
    row: &mut Vec<Scalar>,
) -> Result<Option<usize>, RowReadError>
    ensures row { IfOk result (λ refused. MatchOption refused
        (rows_of schema.now.delimiter.byte line.now ≡ [])
        (IsRow schema.now.delimiter.byte schema.now.reading schema.now.columns.items line.now row.new.items)) }
    ensures refused { IfErr result
        (Refuses schema.now.delimiter.byte schema.now.reading schema.now.columns.items line.now) }
{
    row.clear();
    read_cells(alloc, schema, &[], line, row)
}

/// Reads those cells of the row of a record that are wanted: those of the columns at whose place
/// the list has no `false`. `None` if it has no row. The fields of the other columns are tested and
/// refused alike, and scalars without meaning stand in place of their cells, so these take no
/// memory. The row of another record may be given: its scalars then stand there, and cost nothing.
pub fn read_cells(
    alloc: Global,
    schema: &Schema,
    wanted: &[bool],
    line: &[u8],
    row: &mut Vec<Scalar>,
) -> Result<Option<usize>, RowReadError>
    ensures row { IfOk result (λ refused. MatchOption refused
        (rows_of schema.now.delimiter.byte line.now ≡ [])
        (IsRowIn wanted.now schema.now.delimiter.byte schema.now.reading schema.now.columns.items
        line.now row.new.items)) }
    ensures refused { IfErr result
        (Refuses schema.now.delimiter.byte schema.now.reading schema.now.columns.items line.now) }
{
    let start = row_start(line);
    if start.is_empty() {
        return Ok(None);
    }
    row.truncate(schema.columns.len());
    let refused = read_fields(alloc, schema, wanted, start, row)?;
    Ok(Some(refused))
}

/// Reads the fields of a text that begins where a field does.
fn read_fields(
    alloc: Global,
    schema: &Schema,
    wanted: &[bool],
    text: &[u8],
    row: &mut Vec<Scalar>,
) -> Result<usize, RowReadError>
    requires { length row.old.items ≤ length schema.now.columns.items }
    ensures fields { IfOk result (HasFields wanted.now schema.now.delimiter.byte schema.now.reading
        schema.now.columns.items text.now row.new.items) }
    ensures refused { IfErr result (RefusesFields schema.now.delimiter.byte schema.now.reading
        schema.now.columns.items text.now) }
{
    let mut refused = 0;
    let mut buffer = Vec::new(alloc);
    let mut walk = FieldWalk::of(schema, text);
    while let Some(field) = walk.next_field(&mut buffer)? {
        let keeps = is_wanted(wanted, field.place);
        let flag = put_at(alloc, &schema.reading, &field, keeps, row)?;
        refused = one_more(refused, flag);
    }
    Ok(refused)
}

/// Whether the cell of a column is wanted.
pub(crate) fn is_wanted(wanted: &[bool], place: usize) -> bool
    ensures { result ≡ is_wanted wanted.now place }
{
    if place < wanted.len() {
        wanted[place]
    } else {
        true
    }
}

/// Puts the cell of a field at its place if it is wanted, and says whether a null stands there
/// instead. Else any scalar stands there, as one of an earlier record.
#[inline(always)]
fn put_at(
    alloc: Global,
    reading: &FieldReading,
    field: &ColumnField<'_>,
    keeps: bool,
    row: &mut Vec<Scalar>,
) -> Result<bool, RowReadError>
    requires { field.now.place ≤ length row.old.items }
    ensures cell { IfOk result (PushesCell keeps reading.now field.now.column (field_of field.now)
        (take field.now.place row.old.items) (take (field.now.place + 1) row.new.items)) }
    ensures reaches { OnOk result (ReachesPast field.now.place row.old.items row.new.items) }
    ensures refused { IfErr result (RefusesWord reading.now field.now.column field.now.place (field_of field.now)) }
{
    fill_at(row, field.place)?;
    if keeps {
        let flag = take_field(alloc, reading, field, &mut row[field.place])?;
        Ok(flag)
    } else {
        let flag = test_field(alloc, reading, field)?;
        Ok(flag)
    }
}

/// Sees that some scalar stands at a place.
#[inline(always)]
pub(crate) fn fill_at(row: &mut Vec<Scalar>, place: usize) -> Result<(), AllocError>
    requires { place ≤ length row.old.items }
    ensures put { OnOk result ((cell : Scalar) × (take (place + 1) row.new.items ≡
        take place row.old.items ++ cell ∷ [])) }
    ensures kept { OnOk result (take place row.new.items ≡ take place row.old.items) }
    ensures reaches { OnOk result (ReachesPast place row.old.items row.new.items) }
{
    if place < row.len() {
        Ok(())
    } else {
        push_any(row)
    }
}

/// Puts some scalar behind the last.
#[inline(never)]
fn push_any(row: &mut Vec<Scalar>) -> Result<(), AllocError>
    ensures { OnOk result (row.new.items ≡ row.old.items ++ record { dtype = Null; value = None } ∷ []) }
{
    row.push(no_cell())?;
    Ok(())
}
