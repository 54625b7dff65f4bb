//! The rows of the records that match.

ghost use Rattle.std.specs.Prelude.{◌≡◌, ◌++◌, ◌∷◌, [], IfErr, IfOk, IfSome, OnOk, false, map, option_map, true};
ghost use Rattle.record_columns.specs.Words.{AreValuesIn, ArePassed, HaveValues, IfRecordRefused, IsRecordFault};
ghost use Rattle.record_columns.specs.Words.{RefusesRecord, TellsRecord, fault_at_place, formula, is_refused};
ghost use Rattle.record_columns.specs.Words.{matching_in, matching_rows, row_cells, row_under};

use csv_records::cut_record;
use logical_types::laws::shapes_say_words;
use record_rows::{RowReadError, Schema, read_row};
use record_search::RowFilter;
use std::alloc::Global;
use vortex_value::Scalar;
use zone_index::{Cause, RecordError, Refusal};

/// The rows of the records of a text that match, in their order. The text stands at this place.
pub(crate) fn matching_rows(
    alloc: Global,
    matcher: &RowFilter<'_>,
    place: u64,
    text: &[u8],
) -> Result<Vec<Vec<Scalar>>, RecordError>
    ensures rows { IfOk result (λ rows. map row_cells rows.items
        ≡ matching_in matcher.now.schema.now (formula matcher.now.filter.now) text.now) }
    ensures values { IfOk result (λ rows. HaveValues matcher.now.schema.now.columns.items rows.items) }
    ensures passed { OnOk result (ArePassed matcher.now.schema.now text.now) }
    ensures fault { IfErr result (IsRecordFault matcher.now.schema.now place text.now) }
{
    let mut rows = Vec::new(alloc);
    let mut here = place;
    let mut rest = text;
    while !rest.is_empty() {
        let (line, after) = cut_record(matcher.schema.delimiter, rest);
        push_matching(alloc, matcher, here, line, &mut rows)?;
        here = here.saturating_add(line.len() as u64);
        rest = after;
    }
    Ok(rows)
}

/// Puts the row of a record behind those that match, if it does too. The record stands at this place.
fn push_matching(
    alloc: Global,
    matcher: &RowFilter<'_>,
    place: u64,
    line: &[u8],
    rows: &mut Vec<Vec<Scalar>>,
) -> Result<(), RecordError>
    requires { HaveValues matcher.now.schema.now.columns.items rows.old.items }
    ensures pushed { OnOk result (map row_cells rows.new.items ≡ map row_cells rows.old.items
        ++ matching_rows matcher.now.schema.now (formula matcher.now.filter.now) (line.now ∷ [])) }
    ensures values { OnOk result (HaveValues matcher.now.schema.now.columns.items rows.new.items) }
    ensures passed { OnOk result (is_refused matcher.now.schema.now line.now ≡ false) }
    ensures refused { IfErr result
        (IfRecordRefused (TellsRecord (RefusesRecord matcher.now.schema.now) place line.now)) }
    ensures right { IfErr result (IfRecordRefused (λ _. is_refused matcher.now.schema.now line.now ≡ true)) }
{
    let Some(row) = row_of_line(alloc, matcher.schema, place, line)? else {
        return Ok(());
    };
    if matcher.filter.matches(row.as_slice()) {
        rows.push(row)?;
    }
    Ok(())
}

/// The row of a record, which stands at this place; `None` only if it has no fields, as an empty line.
fn row_of_line(
    alloc: Global,
    schema: &Schema,
    place: u64,
    line: &[u8],
) -> Result<Option<Vec<Scalar>>, RecordError>
    ensures row { IfOk result (λ row. option_map row_cells row ≡ row_under schema.now line.now) }
    ensures values { IfOk result (λ row. IfSome row (λ row. AreValuesIn schema.now.columns.items row.items)) }
    ensures passed { OnOk result (is_refused schema.now line.now ≡ false) }
    ensures refused { IfErr result (IfRecordRefused (TellsRecord (RefusesRecord schema.now) place line.now)) }
    ensures right { IfErr result (IfRecordRefused (λ _. is_refused schema.now line.now ≡ true)) }
{
    shapes_say_words();
    let mut row = Vec::with_capacity(alloc, schema.columns.len())?;
    match read_row(alloc, schema, line, &mut row) {
        Ok(Some(_)) => Ok(Some(row)),
        Ok(None) => Ok(None),
        Err(fault) => Err(record_fault(place, fault)),
    }
}

/// The error of a record that stands at this place.
fn record_fault(place: u64, fault: RowReadError) -> RecordError
    ensures { result ≡ fault_at_place place fault }
{
    let cause = match fault {
        RowReadError::Memory => return RecordError::Memory,
        RowReadError::Word { column, word } => Cause::Word {
            column: column as u64,
            word,
        },
        RowReadError::FieldCount => Cause::FieldCount,
        RowReadError::LoneReturn => Cause::LoneReturn,
    };
    RecordError::Refused(Refusal { place, cause })
}
