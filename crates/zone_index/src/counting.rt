//! Records are counted.

ghost use Rattle.std.specs.Prelude.{◌≡◌, ◌≢◌, ◌<◌, ◌≤◌, ◌+◌, ◌-◌, ◌^◌, ℕ, List, IfErr, IfOk, IfSome, None, OnOk};
ghost use Rattle.std.specs.Prelude.{length, count_by, if◌then◌else◌, true};
ghost use Rattle.csv_records.specs.Records.{records_of};
ghost use Rattle.zone_index.specs.Answers.{AnswersCount};
ghost use Rattle.zone_index.specs.Asking.{Asks};
ghost use Rattle.zone_index.specs.Errors.{IfRefused, IsOfRecord, TellsOneOf, TellsOffset, before_refused};
ghost use Rattle.zone_index.specs.Records.{HaveRowsIf};
ghost use Rattle.zone_index.specs.Zones.{AsksInPart, IsHeld, IsIndexOf, IsPartOfZone, IsZoneOf, is_undecided};
ghost use Rattle.zone_index.specs.Zones.{zone_records};
ghost use Rattle.zone_index.specs.declared.errors.SearchError.TheVariants.{CutShort, TooFar, Write as FailedWrite};

use crate::errors::SearchError;
use crate::read_at::ReadAt;
use crate::records::{Decision, Matcher};
use crate::search::{is_hit, read_zone};
use crate::zones::Zone;
use csv_records::cut_record;
use std::alloc::Global;

/// How many records of a file match. A zone of which each row matches is counted unread.
pub fn count<R: ReadAt, M: Matcher>(
    alloc: Global,
    zones: &[Zone],
    matcher: &M,
    reader: &mut R,
) -> Result<u64, SearchError>
    ensures answer { AnswersCount
        (IsIndexOf (M.delimiter matcher.now) (M.has_row matcher.now) (M.Describes matcher.now))
        (M.Refuses matcher.now) (M.is_refused matcher.now) (M.delimiter matcher.now) (M.matches matcher.now)
        (M.decides matcher.now) zones.now (R.bytes reader.old) result }
    ensures kept { R.bytes reader.new ≡ R.bytes reader.old }
    // All that the reader was asked for stands in zones whose statistics decide nothing.
    ensures asks { Asks (IsPartOfZone (M.decides matcher.now) zones.now) (R.asked reader.old) (R.asked reader.new) }
{
    let mut total = 0u64;
    for zone in zones {
        let hits = count_zone(alloc, zone, matcher, reader)?;
        match total.checked_add(hits) {
            Some(sum) => total = sum,
            None => return Err(SearchError::TooFar),
        }
    }
    Ok(total)
}

/// How many records of a zone match.
fn count_zone<R: ReadAt, M: Matcher>(
    alloc: Global,
    zone: &Zone,
    matcher: &M,
    reader: &mut R,
) -> Result<u64, SearchError>
    ensures counted { IfOk result (λ n. (was : List ℕ) → IsHeld (R.bytes reader.old) was
        → IsZoneOf (M.delimiter matcher.now) (M.has_row matcher.now) (M.Describes matcher.now) was zone.now
        → n ≡ count_by (M.matches matcher.now) (zone_records (M.delimiter matcher.now) was zone.now)) }
    ensures kept { R.bytes reader.new ≡ R.bytes reader.old }
    ensures asks { Asks (AsksInPart (M.decides matcher.now) zone.now) (R.asked reader.old) (R.asked reader.new) }
    ensures few { IfOk result (λ n. (was : List ℕ)
        → IsZoneOf (M.delimiter matcher.now) (M.has_row matcher.now) (M.Describes matcher.now) was zone.now
        → n ≤ zone.now.length) }
    ensures cut { IfErr result (λ fault. fault ≡ CutShort → IfSome (R.bytes reader.old)
        (λ bytes. length bytes < zone.now.first + zone.now.length)) }
    ensures far { IfErr result (λ fault. fault ≡ TooFar → 2 ^ 64 ≤ zone.now.first + zone.now.length) }
    ensures reading { IfErr result (λ fault. fault ≢ FailedWrite) }
    ensures refused { IfErr result (IfRefused (λ refusal. (was : List ℕ) → IsHeld (R.bytes reader.old) was
        → zone.now.first + zone.now.length ≤ length was
        → TellsOneOf (M.Refuses matcher.now) zone.now.first
        (zone_records (M.delimiter matcher.now) was zone.now) refusal)) }
    ensures passed { OnOk result ((was : List ℕ) → IsHeld (R.bytes reader.old) was
        → IsZoneOf (M.delimiter matcher.now) (M.has_row matcher.now) (M.Describes matcher.now) was zone.now
        → is_undecided (M.decides matcher.now) zone.now ≡ true
        → before_refused (M.is_refused matcher.now) (zone_records (M.delimiter matcher.now) was zone.now) ≡ None) }
    // The one that is told is the first.
    ensures first { IfErr result (IfRefused (λ refusal. (was : List ℕ) → IsHeld (R.bytes reader.old) was
        → IsZoneOf (M.delimiter matcher.now) (M.has_row matcher.now) (M.Describes matcher.now) was zone.now
        → (is_undecided (M.decides matcher.now) zone.now ≡ true)
        × TellsOffset zone.now.first (before_refused (M.is_refused matcher.now)
        (zone_records (M.delimiter matcher.now) was zone.now)) refusal)) }
{
    let decision = matcher.decide(alloc, &zone.statistics)?;
    match decision {
        Decision::NoneMatch => Ok(0),
        Decision::AllMatch => Ok(zone.rows),
        Decision::Unknown => {
            let piece = read_zone(alloc, zone, reader)?;
            count_in(alloc, zone.first, &piece, zone.has_only_rows(), matcher)
        }
    }
}

/// How many records of a text match. It stands at `first` in the file. It may be known that each has a row.
pub(crate) fn count_in<M: Matcher>(
    alloc: Global,
    first: u64,
    text: &[u8],
    are_rows: bool,
    matcher: &M,
) -> Result<u64, SearchError>
    ensures counted { IfOk result (λ n. HaveRowsIf are_rows (M.has_row matcher.now)
        (records_of (M.delimiter matcher.now) text.now)
        → n ≡ count_by (M.matches matcher.now) (records_of (M.delimiter matcher.now) text.now)) }
    ensures few { IfOk result (λ n. n ≤ length text.now) }
    ensures why { IfErr result IsOfRecord }
    ensures refused { IfErr result (IfRefused (TellsOneOf (M.Refuses matcher.now) first
        (records_of (M.delimiter matcher.now) text.now))) }
    ensures passed { OnOk result (HaveRowsIf are_rows (M.has_row matcher.now)
        (records_of (M.delimiter matcher.now) text.now)
        → before_refused (M.is_refused matcher.now) (records_of (M.delimiter matcher.now) text.now) ≡ None) }
    ensures first { IfErr result (IfRefused (λ refusal. HaveRowsIf are_rows (M.has_row matcher.now)
        (records_of (M.delimiter matcher.now) text.now)
        → TellsOffset first (before_refused (M.is_refused matcher.now)
        (records_of (M.delimiter matcher.now) text.now)) refusal)) }
{
    let mut hits = 0u64;
    let mut scratch = matcher.scratch(alloc);
    let mut rest = text;
    while !rest.is_empty() {
        let place = first.saturating_add((text.len() - rest.len()) as u64);
        let (line, after) = cut_record(matcher.delimiter_byte(), rest);
        let hit = is_hit(alloc, place, line, are_rows, matcher, &mut scratch)?;
        hits = one_more(hits, hit);
        rest = after;
    }
    Ok(hits)
}

/// One more, if that is so.
pub(crate) fn one_more(hits: u64, hit: bool) -> u64
    requires { hits < 2 ^ 64 - 1 }
    ensures { result ≡ hits + (if hit then 1 else 0) }
{
    if hit { hits + 1 } else { hits }
}
