//! The rows of a zone are described.

ghost use Rattle.std.specs.Prelude.{◌≡◌, ◌++◌, ◌<◌, ◌^◌, List, [], IfErr, IfOk, None, OnOk, false, length, sum_by};
ghost use Rattle.std.specs.Prelude.{true};
ghost use Rattle.std.specs.Int.{to_le_bytes, w64};
ghost use Rattle.csv_records.specs.Records.{records_of};
ghost use Rattle.record_search.specs.Words.{AreAllComplete, AreDescribed, AreDescribedFully, AreRowsOf, Cell};
ghost use Rattle.record_search.specs.Words.{DescribeRows, DescribeRowsFully, HaveTypes, IfRecordRefused, IsHeldKnown};
ghost use Rattle.record_search.specs.Words.{AreAllValid, ObservesRow, PushesCut, RefusesRecord};
ghost use Rattle.record_search.specs.Words.{SomeIsFull, TellsOffset, TellsOneOf, TellsRecord};
ghost use Rattle.record_search.specs.Words.{before_refused, bytes_encoding, encoding, has_row, is_refused, known};
ghost use Rattle.record_search.specs.Words.{longer_under, nulls_under, row_under, rows_under, told};

use crate::schema::{Schema, record_fault};
use csv_records::{Delimiter, cut_record};
use logical_types::laws::shapes_say_words;
use record_rows::{ObserveError, observe_record};
use statistics_bytes::append_statistics;
use std::alloc::{AllocError, Global};
use vortex_statistics::ColumnStatistics;
use zone_index::{Described, Describer, RecordError, Records};

/// Describes the records of a file by their rows.
#[derive(Clone, Copy, Debug)]
pub struct RowDescriber<'a> {
    /// How its records are read.
    pub schema: &'a Schema,
    /// How many bytes a bound has at most that is a string or bytes.
    pub bound_length: usize,
}

impl Records for RowDescriber<'_> {
    ghost delimiter = { λ d. d.schema.now.delimiter.byte };

    ghost has_row = { λ d. has_row d.schema.now };

    ghost Describes = { λ d. DescribeRows d.schema.now };

    ghost is_refused = { λ d. is_refused d.schema.now };

    ghost Refuses = { λ d. RefusesRecord d.schema.now };

    fn delimiter_byte(&self) -> Delimiter {
        self.schema.delimiter
    }
}

impl Describer for RowDescriber<'_> {
    ghost DescribesFully = { λ d. DescribeRowsFully d.bound_length d.schema.now };

    ghost nulls_of = { λ d. nulls_under d.schema.now };

    ghost longer_of = { λ d. longer_under d.schema.now };

    fn describe(&self, alloc: Global, text: &[u8]) -> Result<Described, RecordError> {
        let mut columns = empty_statistics(alloc, self.schema.columns.len())?;
        let (records, rows, nulls, longer) = observe_text(alloc, self.schema, text, &mut columns)?;
        let statistics = encodings_of(alloc, self, columns)?;
        Ok(Described {
            records,
            rows,
            statistics,
            nulls,
            longer,
        })
    }
}

/// The statistics of no rows, for so many columns.
pub(crate) fn empty_statistics(
    alloc: Global,
    count: usize,
) -> Result<Vec<ColumnStatistics>, AllocError>
    ensures { IfOk result (λ all. (length all.items ≡ count) × AreAllComplete 0 [] all.items) }
{
    let mut all = Vec::with_capacity(alloc, count)?;
    for _ in 0..count {
        all.push(ColumnStatistics::empty())?;
    }
    Ok(all)
}

/// Observes the rows of a text, and says how many records it has, how many of them a row, how many
/// nulls stand in place of fields, and how many records have more fields than columns.
fn observe_text(
    alloc: Global,
    schema: &Schema,
    text: &[u8],
    statistics: &mut [ColumnStatistics],
) -> Result<(u64, u64, u64, u64), RecordError>
    requires many { length statistics.old ≡ length schema.now.columns.items }
    requires fresh { AreAllComplete 0 [] statistics.old }
    ensures records { IfOk result (λ read. read.0 ≡
        length (records_of schema.now.delimiter.byte text.now)) }
    ensures rows { IfOk result (λ read. read.1 ≡
        length (rows_under schema.now (records_of schema.now.delimiter.byte text.now))) }
    ensures complete { OnOk result (AreAllComplete 0
        (rows_under schema.now (records_of schema.now.delimiter.byte text.now)) statistics.new) }
    ensures typed { OnOk result (HaveTypes schema.now.columns.items statistics.new) }
    ensures valid { OnOk result (AreAllValid statistics.new) }
    ensures nulls { IfOk result (λ read. read.2 ≡
        told (sum_by (nulls_under schema.now) (records_of schema.now.delimiter.byte text.now))) }
    ensures longer { IfOk result (λ read. read.3 ≡
        told (sum_by (longer_under schema.now) (records_of schema.now.delimiter.byte text.now))) }
    ensures length { length statistics.new ≡ length statistics.old }
    ensures passed { OnOk result (before_refused (is_refused schema.now)
        (records_of schema.now.delimiter.byte text.now) ≡ None) }
    ensures refused { IfErr result (IfRecordRefused (TellsOneOf (RefusesRecord schema.now) 0
        (records_of schema.now.delimiter.byte text.now))) }
    ensures first { IfErr result (IfRecordRefused (TellsOffset 0 (before_refused (is_refused schema.now)
        (records_of schema.now.delimiter.byte text.now)))) }
{
    let mut records = 0u64;
    let mut rows = 0u64;
    let mut nulls = 0u64;
    let mut longer = 0u64;
    let mut buffer = Vec::new(alloc);
    let mut rest = text;
    while !rest.is_empty() {
        let place = (text.len() - rest.len()) as u64;
        let (line, after) = cut_record(schema.delimiter, rest);
        let (has_row, more_nulls, more_longer) = observe_line(
            alloc,
            schema,
            place,
            line,
            &mut buffer,
            statistics,
        )?;
        records += 1;
        rows += u64::from(has_row);
        nulls = nulls.saturating_add(more_nulls);
        longer = longer.saturating_add(more_longer);
        rest = after;
    }
    Ok((records, rows, nulls, longer))
}

/// Observes the row of a record, which begins at this offset, and says whether it has one, how many
/// nulls stand in place of fields, and with 1 that it has more fields than columns.
fn observe_line(
    alloc: Global,
    schema: &Schema,
    place: u64,
    line: &[u8],
    buffer: &mut Vec<u8>,
    statistics: &mut [ColumnStatistics],
) -> Result<(bool, u64, u64), RecordError>
    requires many { length statistics.old ≡ length schema.now.columns.items }
    requires few { ¬ (SomeIsFull statistics.old) }
    requires typed { HaveTypes schema.now.columns.items statistics.old }
    ensures observed { IfOk result (λ seen. ObservesRow seen.0 (row_under schema.now line.now)
        statistics.old statistics.new) }
    ensures nulls { IfOk result (λ seen. seen.1 ≡ nulls_under schema.now line.now) }
    ensures longer { IfOk result (λ seen. seen.2 ≡ longer_under schema.now line.now) }
    ensures typed { OnOk result (HaveTypes schema.now.columns.items statistics.new) }
    ensures valid { OnOk result (AreAllValid statistics.old → AreAllValid statistics.new) }
    ensures length { length statistics.new ≡ length statistics.old }
    ensures passed { OnOk result (is_refused schema.now line.now ≡ false) }
    ensures refused { IfErr result (IfRecordRefused (TellsRecord (RefusesRecord schema.now) place line.now)) }
    ensures right { IfErr result (IfRecordRefused (λ _. is_refused schema.now line.now ≡ true)) }
{
    shapes_say_words();
    match observe_record(alloc, schema, line, buffer, statistics) {
        Ok(Some(notes)) => Ok((true, notes.refused as u64, u64::from(notes.is_longer))),
        Ok(None) => Ok((false, 0, 0)),
        Err(ObserveError::Row(error)) => Err(record_fault(place, error)),
        Err(ObserveError::TooManyRows) => unreachable!(),
    }
}

/// The encodings of the statistics of each column, their bounds cut, each after its length.
fn encodings_of(
    alloc: Global,
    describer: &RowDescriber<'_>,
    statistics: Vec<ColumnStatistics>,
) -> Result<Vec<u8>, AllocError>
    requires { length statistics.items ≡ length describer.now.schema.now.columns.items }
    ensures right { IfOk result (λ bytes. (rows : List (List Cell))
        → AreRowsOf describer.now.schema.now.columns.items rows → AreAllComplete 0 rows statistics.items
        → AreDescribed describer.now.schema.now.columns.items rows bytes.items) }
    ensures full { IfOk result (λ bytes. (rows : List (List Cell))
        → AreRowsOf describer.now.schema.now.columns.items rows → AreAllComplete 0 rows statistics.items
        → HaveTypes describer.now.schema.now.columns.items statistics.items → AreAllValid statistics.items
        → AreDescribedFully describer.now.bound_length describer.now.schema.now.columns.items rows bytes.items) }
{
    let mut output = Vec::new(alloc);
    for column in statistics {
        push_cut(alloc, column, describer.bound_length, &mut output)?;
    }
    Ok(output)
}

/// Appends the encoding of statistics after its length, their bounds cut to so many bytes.
fn push_cut(
    alloc: Global,
    statistics: ColumnStatistics,
    length: usize,
    output: &mut Vec<u8>,
) -> Result<(), AllocError>
    ensures { OnOk result (PushesCut length statistics output.old.items output.new.items) }
{
    match statistics.truncate(alloc, length) {
        Ok(cut) => push_encoding(alloc, &cut, output),
        Err(_) => Err(AllocError),
    }
}

/// Appends the encoding of statistics, after its length.
fn push_encoding(
    alloc: Global,
    statistics: &ColumnStatistics,
    output: &mut Vec<u8>,
) -> Result<(), AllocError>
    ensures appended { OnOk result (output.new.items ≡
        output.old.items ++ bytes_encoding (encoding (known statistics.now))) }
    ensures held { OnOk result (IsHeldKnown (known statistics.now)) }
    ensures fits { OnOk result (length (encoding (known statistics.now)) < 2 ^ 64) }
{
    let mut bytes = Vec::new(alloc);
    match append_statistics(statistics, &mut bytes) {
        Ok(()) => {}
        Err(_) => return Err(AllocError),
    }
    push_number(output, bytes.len() as u64)?;
    output.extend_from_slice(&bytes)
}

/// Appends the eight bytes of a number.
fn push_number(output: &mut Vec<u8>, number: u64) -> Result<(), AllocError>
    ensures { OnOk result (output.new.items ≡ output.old.items ++ to_le_bytes w64 number) }
{
    output.extend_from_slice(&number.to_le_bytes())
}
