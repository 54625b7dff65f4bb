//! The columns of the rows of records that match.

ghost use Rattle.std.specs.Prelude.{◌≡◌, ◌<◌, IfErr, IfOk, OnOk, length};
ghost use Rattle.record_columns.specs.Words.{AreColumnsOf, AreCountsIfSmall, ArePassed, AreWanted, IsRefusal};
ghost use Rattle.record_columns.specs.Words.{IsWantedFault, StayIfOther, formula, matching_in};

use crate::buffers::{count_wanted, write_wanted};
use crate::errors::ColumnsError;
use crate::rows::matching_rows;
use column_keys::ColumnBuffers;
use record_rows::Schema;
use record_search::RowFilter;
use std::alloc::Global;

/// Writes the columns that are wanted of the rows of the records of a text that match, in Arrow's layout: a bit for
/// each row, 0 for a null, and the values, 0 or an empty string for a null. Only a column of strings or bytes has
/// offsets, of 64 bits each. Answers how many rows match. Each record is read once.
///
/// `wanted` has the places of the columns among those of the schema, in any order. The text stands at this place in
/// its file; its last record may lack its line end. The first of these that comes is told:
///
/// - `WrongLength` exactly if there are not as many buffers as columns that are wanted.
/// - `UnknownColumn` for the first that is no column of the schema.
/// - `Record` for the first record that has fields that are no row, or for want of memory: it is asked for the rows
///   that match.
/// - `BufferTooSmall` if a buffer is too short: the counts say what is wanted, and nothing else is written.
pub fn columns_of_records(
    alloc: Global,
    matcher: &RowFilter<'_>,
    place: u64,
    text: &[u8],
    wanted: &[usize],
    columns: &mut [ColumnBuffers],
) -> Result<usize, ColumnsError>
    ensures columns { OnOk result (AreColumnsOf matcher.now.schema.now
        (matching_in matcher.now.schema.now (formula matcher.now.filter.now) text.now)
        wanted.now columns.old columns.new) }
    ensures rows { IfOk result (λ rows. rows
        ≡ length (matching_in matcher.now.schema.now (formula matcher.now.filter.now) text.now)) }
    ensures wanted { OnOk result (AreWanted matcher.now.schema.now wanted.now (length columns.old)) }
    ensures passed { OnOk result (ArePassed matcher.now.schema.now text.now) }
    ensures refused { IfErr result (IsRefusal matcher.now.schema.now (formula matcher.now.filter.now) place text.now
        wanted.now columns.new) }
    ensures counted { IfErr result (AreCountsIfSmall matcher.now.schema.now
        (matching_in matcher.now.schema.now (formula matcher.now.filter.now) text.now)
        wanted.now columns.old columns.new) }
    ensures kept { IfErr result (StayIfOther columns.old columns.new) }
{
    expect_columns(matcher.schema, wanted, columns.len())?;
    let rows = matching_rows(alloc, matcher, place, text)?;
    let rows = rows.as_slice();
    if !count_wanted(matcher.schema, rows, wanted, columns) {
        return Err(ColumnsError::BufferTooSmall { rows: rows.len() });
    }
    write_wanted(matcher.schema, rows, wanted, columns);
    Ok(rows.len())
}

/// Whether what is wanted are columns of a schema, with buffers for as many.
fn expect_columns(schema: &Schema, wanted: &[usize], columns: usize) -> Result<(), ColumnsError>
    ensures wanted { OnOk result (AreWanted schema.now wanted.now columns) }
    ensures fault { IfErr result (IsWantedFault schema.now wanted.now columns) }
{
    if columns != wanted.len() {
        return Err(ColumnsError::WrongLength);
    }
    for which in 0..wanted.len() {
        if wanted[which] >= schema.columns.len() {
            return Err(ColumnsError::UnknownColumn { which });
        }
    }
    Ok(())
}
