//! An index is made of a stream.

ghost use Rattle.std.specs.Prelude.{◌≡◌, ◌≢◌, ◌<◌, ◌++◌, [], ℕ, List, None, Some, IfErr, IfOk, OnOk, length, sum_by};
ghost use Rattle.csv_records.specs.Records.{records_of};
ghost use Rattle.zone_index.specs.Errors.{EndsFar, IfRefused, IsOfRecord, TellsOffset, TellsOneOf, before_refused};
ghost use Rattle.zone_index.specs.Sinks.{told};
ghost use Rattle.zone_index.specs.Zones.{HaveSizes, IsIndexOf, IsZoneOfText};
ghost use Rattle.zone_index.specs.declared.errors.SearchError.TheVariants.{CutShort, TooFar, Write as FailedWrite};

use crate::errors::SearchError;
use crate::records::{Described, Describer};
use crate::taking::take_records;
use crate::zones::Zone;
use std::alloc::Global;
use std::io::BufRead;

/// Zones that were made of a stream.
#[derive(Debug, Drop)]
pub struct Indexed {
    /// The zones.
    pub zones: Vec<Zone>,
    /// How many fields stand as a null since their columns do not take them, as far as 64 bits
    /// count.
    pub nulls: u64,
    /// How many records have more fields than columns, as far as 64 bits count.
    pub longer: u64,
}

/// The zones of all records that a reader has left, so many records in each, the last one fewer.
/// The first byte that is left stands at `start` in the file.
///
/// `Refused` with the first record that is refused, exactly if one is.
pub fn index_records<B: BufRead, D: Describer>(
    alloc: Global,
    size: u64,
    start: u64,
    describer: &D,
    reader: &mut B,
) -> Result<Indexed, SearchError>
    requires { 0 < size }
    ensures right { IfOk result (λ indexed. (before bytes : List ℕ) → length before ≡ start
        → B.remaining reader.old ≡ Some bytes
        → IsIndexOf (D.delimiter describer.now) (D.has_row describer.now) (D.Describes describer.now)
        start indexed.zones.items (before ++ bytes)) }
    // The statistics of each zone are those that the describer gives of its records.
    ensures full { IfOk result (λ indexed. (before bytes : List ℕ) → length before ≡ start
        → B.remaining reader.old ≡ Some bytes
        → IsIndexOf (D.delimiter describer.now) (D.has_row describer.now) (D.DescribesFully describer.now)
        start indexed.zones.items (before ++ bytes)) }
    ensures sizes { IfOk result (λ indexed. (bytes : List ℕ) → B.remaining reader.old ≡ Some bytes
        → HaveSizes size indexed.zones.items) }
    ensures nulls { IfOk result (λ indexed. (bytes : List ℕ) → B.remaining reader.old ≡ Some bytes
        → indexed.nulls ≡ told (sum_by (D.nulls_of describer.now)
        (records_of (D.delimiter describer.now) bytes))) }
    ensures longer { IfOk result (λ indexed. (bytes : List ℕ) → B.remaining reader.old ≡ Some bytes
        → indexed.longer ≡ told (sum_by (D.longer_of describer.now)
        (records_of (D.delimiter describer.now) bytes))) }
    ensures reading { IfErr result (λ fault. fault ≢ FailedWrite) }
    ensures uncut { IfErr result (λ fault. fault ≢ CutShort) }
    ensures far { IfErr result (λ fault. fault ≡ TooFar → EndsFar start (B.remaining reader.old)) }
    // The record that is told is one of those, and begins there.
    ensures refused { IfErr result (IfRefused (λ refusal. (bytes : List ℕ) → B.remaining reader.old ≡ Some bytes
        → TellsOneOf (D.Refuses describer.now) start (records_of (D.delimiter describer.now) bytes) refusal)) }
    ensures passed { OnOk result ((bytes : List ℕ) → B.remaining reader.old ≡ Some bytes
        → before_refused (D.is_refused describer.now) (records_of (D.delimiter describer.now) bytes) ≡ None) }
    ensures ended { OnOk result ((bytes : List ℕ) → B.remaining reader.old ≡ Some bytes
        → B.remaining reader.new ≡ Some []) }
    ensures first { IfErr result (IfRefused (λ refusal. (bytes : List ℕ) → B.remaining reader.old ≡ Some bytes
        → TellsOffset start (before_refused (D.is_refused describer.now)
        (records_of (D.delimiter describer.now) bytes)) refusal)) }
{
    let delimiter = describer.delimiter_byte();
    let mut zones = Vec::new(alloc);
    let mut text = Vec::new(alloc);
    let mut first = start;
    let mut nulls = 0u64;
    let mut longer = 0u64;
    loop {
        text.clear();
        take_records(delimiter, size, &mut text, reader)?;
        if text.is_empty() {
            return Ok(Indexed {
                zones,
                nulls,
                longer,
            });
        }
        let (zone, more_nulls, more_longer) = zone_of(alloc, first, &text, describer)?;
        match first.checked_add(zone.length) {
            Some(next) => first = next,
            None => return Err(SearchError::TooFar),
        }
        nulls = nulls.saturating_add(more_nulls);
        longer = longer.saturating_add(more_longer);
        zones.push(zone)?;
    }
}

/// The zone of a text that begins here, how many of its fields stand as a null since their columns do
/// not take them, and how many of its records have more fields than columns.
fn zone_of<D: Describer>(
    alloc: Global,
    first: u64,
    text: &[u8],
    describer: &D,
) -> Result<(Zone, u64, u64), SearchError>
    ensures zone { IfOk result (λ made. IsZoneOfText (D.delimiter describer.now) (D.has_row describer.now)
        (D.Describes describer.now) first text.now made.0) }
    ensures full { IfOk result (λ made. IsZoneOfText (D.delimiter describer.now) (D.has_row describer.now)
        (D.DescribesFully describer.now) first text.now made.0) }
    ensures nulls { IfOk result (λ made. made.1 ≡ told (sum_by (D.nulls_of describer.now)
        (records_of (D.delimiter describer.now) text.now))) }
    ensures longer { IfOk result (λ made. made.2 ≡ told (sum_by (D.longer_of describer.now)
        (records_of (D.delimiter describer.now) text.now))) }
    ensures why { IfErr result IsOfRecord }
    ensures refused { IfErr result (IfRefused (TellsOneOf (D.Refuses describer.now) first
        (records_of (D.delimiter describer.now) text.now))) }
    ensures passed { OnOk result (before_refused (D.is_refused describer.now)
        (records_of (D.delimiter describer.now) text.now) ≡ None) }
    ensures first { IfErr result (IfRefused (TellsOffset first (before_refused (D.is_refused describer.now)
        (records_of (D.delimiter describer.now) text.now)))) }
{
    match describer.describe(alloc, text) {
        Ok(described) => {
            let Described {
                records,
                rows,
                statistics,
                nulls,
                longer,
            } = described;
            let zone = Zone {
                first,
                length: text.len() as u64,
                records,
                rows,
                statistics,
            };
            Ok((zone, nulls, longer))
        }
        Err(fault) => Err(fault.at(first)),
    }
}
