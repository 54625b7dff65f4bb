//! Files that grew since they were indexed.

ghost use Rattle.std.specs.Prelude.{◌≡◌, ◌≢◌, ◌<◌, ◌≤◌, ◌+◌, ◌^◌, ℕ, List, IfErr, IfNone, IfOk, IfSome};
ghost use Rattle.std.specs.Prelude.{MatchBool, OnOk, Some, drop, length, take};
ghost use Rattle.record_search.specs.Words.{CutShort, TooFar};
ghost use Rattle.zone_index.specs.Asking.{AsksWithin};
ghost use Rattle.zone_index.specs.Errors.{IsOfReading};
ghost use Rattle.zone_index.specs.Sinks.{told};
ghost use Rattle.zone_index.specs.Zones.{Follow};
ghost use Rattle.zone_map.specs.Grown.{HasChanged, HasGrown, IsOtherZone, IsZoneAgain, ends_record, last_zone};
ghost use Rattle.zone_map.specs.Grown.{part_end, part_length, part_of, part_start};
ghost use Rattle.zone_map.specs.Zones.{IsOnly};

use csv_records::{Delimiter, RecordState, state_after_line};
use record_search::{RowDescriber, index_rows};
use std::alloc::Global;
use zone_index::{Index, ReadAt, SearchError, Zone, fill_from};

/// Where the last of these zones ends, the first of which begins at `start`.
pub fn end_of(start: u64, zones: &[Zone]) -> u64
    ensures follow { (end : ℕ) → Follow start zones.now end → result ≡ told end }
    ensures last { result ≡ told (part_end start (last_zone zones.now)) }
{
    match zones.last() {
        Some(zone) => zone.first.saturating_add(zone.length),
        None => start,
    }
}

/// Where a file was indexed to that only grew, and that has so many bytes now.
///
/// `None` if it is shorter now, if its last zone is another, or if the index ends inside of a record.
/// `CutShort` where it has fewer bytes than is said, and `TooFar` where the last zone ends at 2^64 or behind it.
pub fn grown_end<R: ReadAt>(
    alloc: Global,
    file_length: u64,
    index: &Index,
    describer: &RowDescriber<'_>,
    reader: &mut R,
) -> Result<Option<u64>, SearchError>
    ensures end { IfOk result (λ found. IfSome found (λ end.
        end ≡ part_end index.now.start (last_zone index.now.zones.items))) }
    ensures long { IfOk result (λ found. IfSome found (λ end. end ≤ file_length)) }
    ensures grown { IfOk result (λ found. IfSome found (λ end. (bytes : List ℕ) → R.bytes reader.old ≡ Some bytes
        → file_length ≤ length bytes → HasGrown describer.now.bound_length describer.now.schema.now file_length
        index.now.start (last_zone index.now.zones.items) bytes)) }
    ensures changed { IfOk result (λ found. IfNone found ((bytes : List ℕ) → R.bytes reader.old ≡ Some bytes
        → file_length ≤ length bytes → HasChanged describer.now.bound_length describer.now.schema.now file_length
        index.now.start (last_zone index.now.zones.items) bytes)) }
    ensures cut { IfErr result (λ fault. fault ≡ CutShort → IfSome (R.bytes reader.old)
        (λ bytes. length bytes < part_end index.now.start (last_zone index.now.zones.items))) }
    ensures far { IfErr result (λ fault. fault ≡ TooFar
        → 2 ^ 64 ≤ part_end index.now.start (last_zone index.now.zones.items)) }
    ensures reading { IfErr result IsOfReading }
    ensures kept { R.bytes reader.new ≡ R.bytes reader.old }
    // Nothing but the last zone was read.
    ensures asks { AsksWithin (R.asked reader.old) (R.asked reader.new)
        (part_start (last_zone index.now.zones.items)) (part_end index.now.start (last_zone index.now.zones.items)) }
{
    let end = end_of(index.start, &index.zones);
    if file_length < end {
        return Ok(None);
    }
    let text = last_part(alloc, index, reader)?;
    let is_same = match index.zones.last() {
        Some(zone) => is_same_zone(alloc, describer, zone, &text)?,
        None => true,
    };
    if is_same && (file_length == end || ends_record(describer.schema.delimiter, &text)) {
        Ok(Some(end))
    } else {
        Ok(None)
    }
}

/// The bytes of the last zone, or of the header where there is no zone.
fn last_part<R: ReadAt>(
    alloc: Global,
    index: &Index,
    reader: &mut R,
) -> Result<Vec<u8>, SearchError>
    ensures text { IfOk result (λ text. (bytes : List ℕ) → R.bytes reader.old ≡ Some bytes
        → text.items ≡ part_of index.now.start (last_zone index.now.zones.items) bytes) }
    ensures long { IfOk result (λ text.
        length text.items ≡ part_length index.now.start (last_zone index.now.zones.items)) }
    ensures within { OnOk result (part_end index.now.start (last_zone index.now.zones.items) < 2 ^ 64) }
    ensures cut { IfErr result (λ fault. fault ≡ CutShort → IfSome (R.bytes reader.old)
        (λ bytes. length bytes < part_end index.now.start (last_zone index.now.zones.items))) }
    ensures far { IfErr result (λ fault. fault ≡ TooFar
        → 2 ^ 64 ≤ part_end index.now.start (last_zone index.now.zones.items)) }
    ensures reading { IfErr result IsOfReading }
    ensures kept { R.bytes reader.new ≡ R.bytes reader.old }
    ensures asks { AsksWithin (R.asked reader.old) (R.asked reader.new)
        (part_start (last_zone index.now.zones.items)) (part_end index.now.start (last_zone index.now.zones.items)) }
{
    let (first, count) = match index.zones.last() {
        Some(zone) => (zone.first, zone.length),
        None => (0, index.start),
    };
    bytes_at(alloc, reader, first, count)
}

/// The bytes of a file from this place on, so many.
fn bytes_at<R: ReadAt>(
    alloc: Global,
    reader: &mut R,
    first: u64,
    count: u64,
) -> Result<Vec<u8>, SearchError>
    ensures text { IfOk result (λ text. (bytes : List ℕ) → R.bytes reader.old ≡ Some bytes
        → text.items ≡ take count (drop first bytes)) }
    ensures long { IfOk result (λ text. length text.items ≡ count) }
    ensures within { OnOk result (first + count < 2 ^ 64) }
    ensures cut { IfErr result (λ fault. fault ≡ CutShort → IfSome (R.bytes reader.old)
        (λ bytes. length bytes < first + count)) }
    ensures far { IfErr result (λ fault. fault ≡ TooFar → 2 ^ 64 ≤ first + count) }
    ensures reading { IfErr result IsOfReading }
    ensures kept { R.bytes reader.new ≡ R.bytes reader.old }
    ensures asks { AsksWithin (R.asked reader.old) (R.asked reader.new) first (first + count) }
{
    if first > u64::MAX - count {
        return Err(SearchError::TooFar);
    }
    let mut text = vec![in alloc; 0u8; count as usize]?;
    fill_from(reader, first, &mut text)?;
    Ok(text)
}

/// Whether a zone of this text has the records, rows and statistics that the index has of it.
fn is_same_zone(
    alloc: Global,
    describer: &RowDescriber<'_>,
    zone: &Zone,
    mut text: &[u8],
) -> Result<bool, SearchError>
    ensures same { IfOk result (λ is_same. (before : List ℕ) → length before ≡ zone.now.first → MatchBool is_same
        (IsZoneAgain describer.now.bound_length describer.now.schema.now zone.now before text.now)
        (IsOtherZone describer.now.bound_length describer.now.schema.now zone.now before text.now)) }
    ensures uncut { IfErr result (λ fault. fault ≢ CutShort) }
    ensures far { IfErr result (λ fault. fault ≡ TooFar → 2 ^ 64 ≤ zone.now.first + length text.now) }
    ensures reading { IfErr result IsOfReading }
{
    let size = zone.records.max(1);
    match index_rows(alloc, describer, size, zone.first, &mut text) {
        Ok(indexed) => Ok(is_only_zone(&indexed.zones, zone)),
        Err(SearchError::Refused(_)) => Ok(false),
        Err(fault) => Err(fault),
    }
}

/// Whether there is this zone alone.
fn is_only_zone(zones: &[Zone], zone: &Zone) -> bool
    ensures { MatchBool result (IsOnly zones.now zone.now) (¬ (IsOnly zones.now zone.now)) }
{
    match zones {
        [only] => {
            only.length == zone.length
                && only.records == zone.records
                && only.rows == zone.rows
                && only.statistics.as_slice() == zone.statistics.as_slice()
        }
        _ => false,
    }
}

/// Whether a record may start behind a text that begins where one does.
fn ends_record(delimiter: Delimiter, text: &[u8]) -> bool
    ensures { result ≡ ends_record delimiter.byte text.now }
{
    match state_after_line(delimiter, RecordState::StartRecord, text) {
        RecordState::StartRecord => true,
        RecordState::AfterCr
        | RecordState::StartField
        | RecordState::InField
        | RecordState::InQuoted
        | RecordState::AfterQuote => false,
    }
}
