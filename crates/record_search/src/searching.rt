//! Rows are indexed, found and counted.

ghost use Rattle.std.specs.Prelude.{◌≡◌, ◌≢◌, ◌<◌, ◌++◌, [], ℕ, List, None, Some, IfErr, IfOk, OnOk, length, sum_by};
ghost use Rattle.record_search.specs.Words.{AnswersCountRows, AnswersFindRows, Asks, CutShort, EndsFar, HaveSizes};
ghost use Rattle.record_search.specs.Words.{IfRefused, IsFullRowIndex, IsOfZone, IsPartOfZone, IsRowIndex};
ghost use Rattle.record_search.specs.Words.{RefusesRecord, TellsOffset, TellsOneOf, TooFar, FailedWrite};
ghost use Rattle.record_search.specs.Words.{before_refused, columns_of, decision_of, formula, is_refused, longer_under};
ghost use Rattle.record_search.specs.Words.{nulls_under};
ghost use Rattle.record_search.specs.Words.{records_under, told};

use crate::describing::RowDescriber;
use crate::filtering::RowFilter;
use crate::schema::Schema;
use std::alloc::Global;
use std::io::BufRead;
use vortex_filter::Filter;
use zone_index::{Indexed, ReadAt, SearchError, Sink, Tally, Zone, count, find, index_records};

/// The zones of all records that a reader has left, so many records in each, the last one fewer.
/// The first byte that is left stands at `start` in the file.
///
/// `Refused` with the first record that has fields that are no row, exactly if one has.
pub fn index_rows<B: BufRead>(
    alloc: Global,
    describer: &RowDescriber<'_>,
    size: u64,
    start: u64,
    reader: &mut B,
) -> Result<Indexed, SearchError>
    requires { 0 < size }
    ensures right { IfOk result (λ indexed. (before bytes : List ℕ) → length before ≡ start
        → B.remaining reader.old ≡ Some bytes
        → IsRowIndex describer.now.schema.now start indexed.zones.items (before ++ bytes)) }
    // The statistics of each zone say all that is to be known of its rows.
    ensures full { IfOk result (λ indexed. (before bytes : List ℕ) → length before ≡ start
        → B.remaining reader.old ≡ Some bytes
        → IsFullRowIndex describer.now.bound_length describer.now.schema.now start indexed.zones.items
        (before ++ bytes)) }
    ensures sizes { IfOk result (λ indexed. (bytes : List ℕ) → B.remaining reader.old ≡ Some bytes
        → HaveSizes size indexed.zones.items) }
    ensures nulls { IfOk result (λ indexed. (bytes : List ℕ) → B.remaining reader.old ≡ Some bytes
        → indexed.nulls ≡ told (sum_by (nulls_under describer.now.schema.now)
        (records_under describer.now.schema.now bytes))) }
    ensures longer { IfOk result (λ indexed. (bytes : List ℕ) → B.remaining reader.old ≡ Some bytes
        → indexed.longer ≡ told (sum_by (longer_under describer.now.schema.now)
        (records_under describer.now.schema.now bytes))) }
    ensures reading { IfErr result (λ fault. fault ≢ FailedWrite) }
    ensures uncut { IfErr result (λ fault. fault ≢ CutShort) }
    ensures far { IfErr result (λ fault. fault ≡ TooFar → EndsFar start (B.remaining reader.old)) }
    // The record that is told is one of those, and begins there.
    ensures refused { IfErr result (IfRefused (λ refusal. (bytes : List ℕ) → B.remaining reader.old ≡ Some bytes
        → TellsOneOf (RefusesRecord describer.now.schema.now) start
        (records_under describer.now.schema.now bytes) refusal)) }
    ensures passed { OnOk result ((bytes : List ℕ) → B.remaining reader.old ≡ Some bytes
        → before_refused (is_refused describer.now.schema.now)
        (records_under describer.now.schema.now bytes) ≡ None) }
    ensures ended { OnOk result ((bytes : List ℕ) → B.remaining reader.old ≡ Some bytes
        → B.remaining reader.new ≡ Some []) }
    ensures first { IfErr result (IfRefused (λ refusal. (bytes : List ℕ) → B.remaining reader.old ≡ Some bytes
        → TellsOffset start (before_refused (is_refused describer.now.schema.now)
        (records_under describer.now.schema.now bytes)) refusal)) }
{
    index_records(alloc, size, start, describer, reader)
}

/// Gives a sink the records of a file on whose row the filter is True, in order, and writes them.
/// The first record has the number `first`. Only the zones are read that may have one by their
/// statistics.
pub fn find_rows<R: ReadAt, S: Sink>(
    alloc: Global,
    schema: &Schema,
    filter: &Filter,
    zones: &[Zone],
    first: u64,
    reader: &mut R,
    sink: &mut S,
) -> Result<Tally, SearchError>
    ensures answer { AnswersFindRows schema.now (formula filter.now) S.written_as first zones.now
        (R.bytes reader.old) (S.contents sink.old) (S.contents sink.new) result }
    ensures kept { R.bytes reader.new ≡ R.bytes reader.old }
    // All that the reader was asked for stands in zones that are not skipped.
    ensures asks { Asks (IsOfZone (decision_of (columns_of schema.now) (formula filter.now)) zones.now)
        (R.asked reader.old) (R.asked reader.new) }
{
    find(
        alloc,
        zones,
        first,
        &RowFilter { schema, filter },
        reader,
        sink,
    )
}

/// How many records of a file have a row on which the filter is True. A zone is counted unread
/// where its statistics decide of each row.
pub fn count_rows<R: ReadAt>(
    alloc: Global,
    schema: &Schema,
    filter: &Filter,
    zones: &[Zone],
    reader: &mut R,
) -> Result<u64, SearchError>
    ensures answer { AnswersCountRows schema.now (formula filter.now) zones.now (R.bytes reader.old) result }
    ensures kept { R.bytes reader.new ≡ R.bytes reader.old }
    // All that the reader was asked for stands in zones whose statistics decide nothing.
    ensures asks { Asks (IsPartOfZone (decision_of (columns_of schema.now) (formula filter.now)) zones.now)
        (R.asked reader.old) (R.asked reader.new) }
{
    count(alloc, zones, &RowFilter { schema, filter }, reader)
}
