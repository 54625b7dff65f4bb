//! Texts of many records: their records and rows, and where one may be cut.

ghost use Rattle.std.specs.Prelude.{◌≡◌, ◌<◌, ◌≤◌, ◌⊎◌, ◌↔◌, ◌++◌, IfErr, IfOk, MatchBool, drop};
ghost use Rattle.std.specs.Prelude.{length, map, take, true};
ghost use Rattle.std.specs.List.{concat};
ghost use Rattle.csv.specs.Reading.{is_io, strip_bom};
ghost use Rattle.csv.specs.Records.{fields_of};
ghost use Rattle.csv.specs.declared.error.ErrorKind.TheVariants.{OutOfMemory};
ghost use Rattle.csv.specs.declared.parser.State.TheVariants.{StartRecord};
ghost use Rattle.csv_records.specs.Laws.{texts_of};
ghost use Rattle.csv_records.specs.Records.{records_of};
ghost use Rattle.csv_records.specs.Rows.{field_rows, rows_of, state_after};

use csv::{ByteRecord, ErrorKind, ReaderBuilder};
use csv_records::laws::{records_are_parts, rows_are_cut, rows_are_read};
use csv_records::{
    Delimiter, Follows, RecordState, cut_field, cut_record, row_start, state_after_line,
};
use std::alloc::{AllocError, Global};

/// The rows of a text, as `csv` reads them: after a byte order mark, if it begins with one. A text is
/// refused only for want of memory, whatever its rows are; `csv` has another error for readers that fail.
pub fn csv_rows(
    alloc: Global,
    delimiter: Delimiter,
    text: &[u8],
) -> Result<Vec<ByteRecord>, ErrorKind>
    ensures rows { IfOk result (λ rows. map fields_of rows.items ≡
        map texts_of (rows_of delimiter.byte (strip_bom text.now))) }
    ensures refused { IfErr result (λ error. (error ≡ OutOfMemory) ⊎ (is_io error ≡ true)) }
{
    rows_are_read();
    let reader = ReaderBuilder::new()
        .delimiter(delimiter.byte)
        .has_headers(false)
        .flexible(true)
        .from_reader(alloc, text);
    let mut rows = Vec::new(alloc);
    for row in reader.into_byte_records() {
        match row {
            Ok(row) => {
                if rows.push(row).is_err() {
                    return Err(ErrorKind::OutOfMemory);
                }
            }
            Err(error) => return Err(error.into_kind()),
        }
    }
    Ok(rows)
}

/// The records of a text, in order, which together are the text.
pub fn split_records<'a>(
    alloc: Global,
    delimiter: Delimiter,
    text: &'a [u8],
) -> Result<Vec<&'a [u8]>, AllocError>
    ensures records { IfOk result (λ records.
        map (λ line. line.now) records.items ≡ records_of delimiter.byte text.now) }
    ensures parts { IfOk result (λ records.
        concat (map (λ line. line.now) records.items) ≡ text.now) }
{
    records_are_parts();
    let mut records = Vec::new(alloc);
    let mut rest = text;
    while !rest.is_empty() {
        let (line, after) = cut_record(delimiter, rest);
        records.push(line)?;
        rest = after;
    }
    Ok(records)
}

/// Whether a record may start at this offset. Then the rows of the text are those of what is before
/// and of what follows.
pub fn may_cut(delimiter: Delimiter, text: &[u8], place: usize) -> bool
    requires { place ≤ length text.now }
    ensures start { (result ≡ true)
        ↔ (state_after delimiter.byte StartRecord (take place text.now) ≡ StartRecord) }
    ensures rows { result ≡ true → rows_of delimiter.byte text.now ≡
        rows_of delimiter.byte (take place text.now) ++ rows_of delimiter.byte (drop place text.now) }
{
    rows_are_cut();
    match state_after_line(delimiter, RecordState::StartRecord, &text[..place]) {
        RecordState::StartRecord => true,
        _ => false,
    }
}

/// Whether a record has one row at most. A carriage return alone ends a row, but no record, so that
/// one may have more.
pub fn is_whole_record(alloc: Global, delimiter: Delimiter, line: &[u8]) -> Result<bool, AllocError>
    ensures { IfOk result (λ whole. MatchBool whole
        (length (rows_of delimiter.byte line.now) ≤ 1) (1 < length (rows_of delimiter.byte line.now))) }
{
    let start = row_start(line);
    if start.is_empty() {
        return Ok(true);
    }
    is_only_row(delimiter, start, &mut Vec::new(alloc))
}

/// Whether a text has one row. It begins where a field does. The buffer takes the bytes of fields in
/// quotes.
#[inline(never)]
pub(crate) fn is_only_row(
    delimiter: Delimiter,
    text: &[u8],
    buffer: &mut Vec<u8>,
) -> Result<bool, AllocError>
    ensures { IfOk result (λ only. MatchBool only
        (length (field_rows delimiter.byte text.now) ≡ 1) (1 < length (field_rows delimiter.byte text.now))) }
{
    let mut rest = text;
    while !rest.is_empty() {
        let cut = cut_field(delimiter, rest, buffer)?;
        match cut.follows {
            Follows::Another(next) => rest = next,
            Follows::Nothing => return Ok(true),
            Follows::Row => return Ok(false),
        }
    }
    Ok(true)
}
