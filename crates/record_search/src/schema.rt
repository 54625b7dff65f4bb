//! Records are read as rows under a schema.

ghost use Rattle.std.specs.Prelude.{◌≡◌, None, Some, IfErr, IfOk, OnOk, false, if◌then◌else◌, map, option_map, true};
ghost use Rattle.record_search.specs.Words.{AgreeAsRows, IfRecordRefused, RefusesRecord, TellsRecord, cell_of};
ghost use Rattle.record_search.specs.Words.{fault_at_place, has_row, is_refused, row_cells, row_under};

use logical_types::laws::shapes_say_words;
pub use record_rows::Schema;
use record_rows::{RowReadError, read_cells, read_row, read_wanted};
use std::alloc::Global;
use vortex_value::Scalar;
use zone_index::{Cause, RecordError, Refusal};

/// The row of a record, which stands at this offset; `None` only if it has no fields, as an empty line.
/// `Refused`, with the first error from left to right, if they are no row.
pub fn row_of_record(
    alloc: Global,
    schema: &Schema,
    place: u64,
    line: &[u8],
) -> Result<Option<Vec<Scalar>>, RecordError>
    ensures row { IfOk result (λ row. option_map row_cells row ≡ row_under schema.now line.now) }
    ensures passed { OnOk result (is_refused schema.now line.now ≡ false) }
    ensures refused { IfErr result (IfRecordRefused (TellsRecord (RefusesRecord schema.now) place line.now)) }
    ensures right { IfErr result (IfRecordRefused (λ _. is_refused schema.now line.now ≡ true)) }
{
    shapes_say_words();
    let mut row = Vec::with_capacity(alloc, schema.columns.len())?;
    match read_row(alloc, schema, line, &mut row) {
        Ok(Some(_)) => Ok(Some(row)),
        Ok(None) => Ok(None),
        Err(fault) => Err(record_fault(place, fault)),
    }
}

/// Reads the row of a record into a vector that is used again, and says whether there is one. Only
/// some cells are wanted: those of the columns at whose place the list has no `false`.
pub(crate) fn cells_of_record(
    alloc: Global,
    schema: &Schema,
    place: u64,
    wanted: &[bool],
    line: &[u8],
    row: &mut Vec<Scalar>,
) -> Result<bool, RecordError>
    ensures row { IfOk result (λ has. AgreeAsRows wanted.now
        (if has then Some (map cell_of row.new.items) else None) (row_under schema.now line.now)) }
    ensures passed { OnOk result (is_refused schema.now line.now ≡ false) }
    ensures refused { IfErr result (IfRecordRefused (TellsRecord (RefusesRecord schema.now) place line.now)) }
    ensures right { IfErr result (IfRecordRefused (λ _. is_refused schema.now line.now ≡ true)) }
{
    shapes_say_words();
    match read_cells(alloc, schema, wanted, line, row) {
        Ok(Some(_)) => Ok(true),
        Ok(None) => Ok(false),
        Err(fault) => Err(record_fault(place, fault)),
    }
}

/// Reads some cells of a record that is known to have a row into a vector that is used again, and says whether it
/// did: those of the columns at whose place the list has no `false`. The other fields are not tested.
pub(crate) fn cells_of_row(
    alloc: Global,
    schema: &Schema,
    wanted: &[bool],
    line: &[u8],
    row: &mut Vec<Scalar>,
) -> bool
    ensures { result ≡ true → has_row schema.now line.now ≡ true
        → AgreeAsRows wanted.now (Some (map cell_of row.new.items)) (row_under schema.now line.now) }
{
    shapes_say_words();
    read_wanted(alloc, schema, wanted, line, row)
}

/// The error of a record that stands at this offset.
pub(crate) fn record_fault(place: u64, fault: RowReadError) -> RecordError
    ensures { result ≡ fault_at_place place fault }
{
    let cause = match fault {
        RowReadError::Memory => return RecordError::Memory,
        RowReadError::Word { column, word } => Cause::Word {
            column: column as u64,
            word,
        },
        RowReadError::FieldCount => Cause::FieldCount,
        RowReadError::LoneReturn => Cause::LoneReturn,
    };
    RecordError::Refused(Refusal { place, cause })
}
