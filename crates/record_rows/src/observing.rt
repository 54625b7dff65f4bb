//! The fields of a record are observed, each by the statistics of its column.

ghost use Rattle.std.specs.Prelude.{◌≡◌, [], IfErr, IfOk, MatchOption, OnOk, false, length, true};
ghost use Rattle.csv_records.specs.Rows.{rows_of};
ghost use Rattle.record_rows.specs.Cells.{column_type};
ghost use Rattle.record_rows.specs.Observed.{AreObserved, HasBoundsOf, HaveTypes, IsFull, IsNotObserved, IsObserved};
ghost use Rattle.record_rows.specs.Observed.{KeepsValid, ObservesField, SomeIsFull};
ghost use Rattle.record_rows.specs.Rows.{Refuses, RefusesFields, RefusesWord};
ghost use Rattle.record_rows.specs.Walks.{field_of};
ghost use Rattle.record_rows.specs.declared.errors.ObserveError.TheVariants.{TooManyRows};
ghost use Rattle.vortex_statistics.specs.Statistics.{known};

use crate::errors::{ObserveError, RowReadError};
use crate::fields::{ColumnField, FieldWalk};
use crate::in_place::observe_in_place;
use crate::schema::{FieldReading, Schema};
use crate::taking::{no_cell, one_more, take_field};
use csv_records::row_start;
use std::alloc::Global;
use vortex_statistics::ColumnStatistics;
use vortex_value::ScalarRef;

/// What is noted of a row.
#[derive(Clone, Copy, Debug)]
pub struct RowNotes {
    /// How many nulls stand in place of fields that their columns do not take.
    pub refused: usize,
    /// Whether the record has more fields than columns.
    pub is_longer: bool,
}

/// Observes the row of a record, each cell by the statistics of its column; `None` if it has no
/// row. What they say then, they say of the record too: they are right if they were, and their bounds
/// are valid scalars if they were. The bounds are of the types of their columns, as those of no rows
/// are, and stay so. So a value that becomes no bound is mostly observed without a scalar of it, which
/// takes a third of the instructions.
///
/// `TooManyRows` of a record with a row exactly if the statistics of a column count as many rows as
/// 64 bits can, which is tested before its fields are. After another refusal some cells may have been
/// observed.
///
/// If the reading is lenient, a field that its column does not take is a null if the column takes
/// nulls, and so is one that is missing; fields behind those of the last column are passed over. That is
/// noted. The buffer is used again.
pub fn observe_record(
    alloc: Global,
    schema: &Schema,
    line: &[u8],
    buffer: &mut Vec<u8>,
    statistics: &mut [ColumnStatistics],
) -> Result<Option<RowNotes>, ObserveError>
    requires long { length statistics.old ≡ length schema.now.columns.items }
    requires typed { HaveTypes schema.now.columns.items statistics.old }
    ensures observed { IfOk result (λ notes. MatchOption notes
        ((rows_of schema.now.delimiter.byte line.now ≡ []) × (statistics.new ≡ statistics.old))
        (IsObserved schema.now.delimiter.byte schema.now.reading schema.now.columns.items line.now
        statistics.old statistics.new)) }
    ensures typed { OnOk result (HaveTypes schema.now.columns.items statistics.new) }
    ensures length { length statistics.new ≡ length statistics.old }
    ensures refused { IfErr result (IsNotObserved (Refuses schema.now.delimiter.byte
        schema.now.reading schema.now.columns.items line.now) (SomeIsFull statistics.old)) }
    ensures full { SomeIsFull statistics.old → IfErr result (λ fault. fault ≡ TooManyRows) }
{
    let start = row_start(line);
    if start.is_empty() {
        return Ok(None);
    }
    if is_some_full(statistics) {
        return Err(ObserveError::TooManyRows);
    }
    let notes = observe_fields(alloc, schema, start, buffer, statistics)?;
    Ok(Some(notes))
}

/// Whether the statistics of some column count as many rows as 64 bits can.
fn is_some_full(statistics: &[ColumnStatistics]) -> bool
    ensures full { result ≡ true → SomeIsFull statistics.now }
    ensures none { result ≡ false → ¬ (SomeIsFull statistics.now) }
{
    for column in statistics {
        if column.row_count == u64::MAX {
            return true;
        }
    }
    false
}

/// Observes the fields of a text that begins where a field does.
fn observe_fields(
    alloc: Global,
    schema: &Schema,
    text: &[u8],
    buffer: &mut Vec<u8>,
    statistics: &mut [ColumnStatistics],
) -> Result<RowNotes, RowReadError>
    requires many { length statistics.old ≡ length schema.now.columns.items }
    requires few { ¬ (SomeIsFull statistics.old) }
    requires typed { HaveTypes schema.now.columns.items statistics.old }
    ensures fields { IfOk result (AreObserved schema.now.delimiter.byte schema.now.reading
        schema.now.columns.items text.now statistics.old statistics.new) }
    ensures typed { OnOk result (HaveTypes schema.now.columns.items statistics.new) }
    ensures length { length statistics.new ≡ length statistics.old }
    ensures refused { IfErr result (RefusesFields schema.now.delimiter.byte schema.now.reading
        schema.now.columns.items text.now) }
{
    let mut refused = 0;
    let mut walk = FieldWalk::of(schema, text);
    while let Some(field) = walk.next_field(buffer)? {
        let flag = observe_field(alloc, &schema.reading, &field, &mut statistics[field.place])?;
        refused = one_more(refused, flag);
    }
    Ok(RowNotes {
        refused,
        is_longer: walk.is_longer,
    })
}

/// Observes the cell of a field, and says whether a null stands in its place.
#[inline(always)]
fn observe_field(
    alloc: Global,
    reading: &FieldReading,
    field: &ColumnField<'_>,
    statistics: &mut ColumnStatistics,
) -> Result<bool, RowReadError>
    requires few { ¬ (IsFull statistics.old) }
    requires typed { HasBoundsOf (column_type field.now.column) (known statistics.old) }
    ensures observed { IfOk result (ObservesField reading.now field.now.column (field_of field.now)
        (known statistics.old) (known statistics.new)) }
    ensures valid { OnOk result (KeepsValid statistics.old statistics.new) }
    ensures refused { IfErr result (RefusesWord reading.now field.now.column field.now.place (field_of field.now)) }
{
    if observe_in_place(reading, field.column, field.word, statistics) {
        return Ok(false);
    }
    observe_taken(alloc, reading, field, statistics)
}

/// Observes the cell of a field by a scalar of it, and says whether a null stands in its place.
#[inline(never)]
fn observe_taken(
    alloc: Global,
    reading: &FieldReading,
    field: &ColumnField<'_>,
    statistics: &mut ColumnStatistics,
) -> Result<bool, RowReadError>
    requires { ¬ (IsFull statistics.old) }
    ensures observed { IfOk result (ObservesField reading.now field.now.column (field_of field.now)
        (known statistics.old) (known statistics.new)) }
    ensures valid { OnOk result (KeepsValid statistics.old statistics.new) }
    ensures refused { IfErr result (RefusesWord reading.now field.now.column field.now.place (field_of field.now)) }
{
    let mut cell = no_cell();
    let flag = take_field(alloc, reading, field, &mut cell)?;
    match statistics.observe(alloc, ScalarRef::of(&cell)) {
        Ok(()) => Ok(flag),
        Err(_) => Err(RowReadError::Memory),
    }
}
