//! An index that is made in two pieces, and what the statistics of records say of a filter.

ghost use Rattle.std.specs.Prelude.{◌≡◌, ◌++◌, ◌<◌, ℕ, List, Some, IfOk, length, map};
ghost use Rattle.filter_pruning.specs.Outcomes.{outcomes};
ghost use Rattle.record_search.specs.Laws.{AreAllCut};
ghost use Rattle.record_search.specs.Searched.{IsFullRowIndex, IsRowIndex, decision_by, records_under, rows_under};
ghost use Rattle.vortex_filter.specs.Formula.{formula};
ghost use Rattle.vortex_statistics.specs.Statistics.{known};
ghost use Rattle.vortex_statistics.specs.declared.column_statistics.ColumnStatistics.{ColumnStatistics};

use record_search::laws::described_is_read;
use record_search::{RowDescriber, RowFilter, index_rows};
use std::alloc::Global;
use std::io::BufRead;
use vortex_filter::Filter;
use zone_index::laws::{full_indexes_are_joined, indexes_are_joined};
use zone_index::{Decision, Describer, Matcher, RecordError, SearchError, Zone, take_records};

/// How many records a zone has.
const ZONE_RECORDS: u64 = 1000;

/// Makes an index of the records of a stream in two pieces: the first `count` records, and all others. The
/// zones of both, one behind the other, are an index of all.
pub fn index_in_two<B: BufRead>(
    alloc: Global,
    describer: &RowDescriber<'_>,
    count: u64,
    start: u64,
    stream: &mut B,
) -> Result<Vec<Zone>, SearchError>
    requires { 0 < count }
    ensures right { IfOk result (λ zones. (header bytes : List ℕ) → length header ≡ start
        → B.remaining stream.old ≡ Some bytes
        → IsRowIndex describer.now.schema.now start zones.items (header ++ bytes)) }
    ensures full { IfOk result (λ zones. (header bytes : List ℕ) → length header ≡ start
        → B.remaining stream.old ≡ Some bytes
        → IsFullRowIndex describer.now.bound_length describer.now.schema.now start zones.items
        (header ++ bytes)) }
{
    indexes_are_joined(describer);
    full_indexes_are_joined(describer);
    let mut text = Vec::new(alloc);
    take_records(describer.schema.delimiter, count, &mut text, stream)?;
    let mut front = text.as_slice();
    let first = index_rows(alloc, describer, ZONE_RECORDS, start, &mut front)?;
    let Some(next) = start.checked_add(text.len() as u64) else {
        return Err(SearchError::TooFar);
    };
    let others = index_rows(alloc, describer, ZONE_RECORDS, next, stream)?;
    let mut zones = first.zones;
    let mut more = others.zones;
    zones.append(&mut more)?;
    Ok(zones)
}

/// Describes the records of a text, and says what their statistics decide of a filter: what its outcomes on
/// statistics decide that are right for the rows, and say of them all that is to be known.
pub fn describe_and_decide(
    alloc: Global,
    describer: &RowDescriber<'_>,
    filter: &Filter,
    text: &[u8],
) -> Result<Decision, RecordError>
    ensures { IfOk result (λ decision. (statistics : List ColumnStatistics)
        × (decision ≡ decision_by (outcomes (formula filter.now) (map known statistics)))
        × AreAllCut describer.now.bound_length 0
        (rows_under describer.now.schema.now (records_under describer.now.schema.now text.now)) statistics) }
{
    described_is_read();
    let described = describer.describe(alloc, text)?;
    let sought = RowFilter {
        schema: describer.schema,
        filter,
    };
    let decision = sought.decide(alloc, &described.statistics)?;
    Ok(decision)
}
