//! The search.

ghost use Rattle.std.specs.Prelude.{◌≡◌, ◌≢◌, ◌<◌, ◌≤◌, ◌+◌, ◌++◌, ◌-◌, ◌^◌, ℕ, List, [], IfErr, IfOk, IfSome, None};
ghost use Rattle.std.specs.Prelude.{OnErr, OnOk, count_by, false, if◌then◌else◌, length, min, true};
ghost use Rattle.std.specs.Io.KnownBytes.{Appends};
ghost use Rattle.csv_records.specs.Records.{records_of};
ghost use Rattle.zone_index.specs.Answers.{AnswersFind};
ghost use Rattle.zone_index.specs.Asking.{Asks, AsksWithin};
ghost use Rattle.zone_index.specs.Errors.{IfRecordRefused, IfRefused, IsOfReading, IsOfRecord, TellsOneOf, TellsOffset};
ghost use Rattle.zone_index.specs.Errors.{TellsRecord, before_refused};
ghost use Rattle.zone_index.specs.Records.{HasRowIf, HaveRowsIf};
ghost use Rattle.zone_index.specs.Sinks.{WritesFirst, told, written_of};
ghost use Rattle.zone_index.specs.Zones.{AsksOfZone, IsHeld, IsIndexOf, IsOfZone, IsWayOf, IsZoneOf, is_copy};
ghost use Rattle.zone_index.specs.Zones.{is_search, is_searched, is_skip, way_of, zone_bytes, zone_records};
ghost use Rattle.zone_index.specs.declared.errors.SearchError.TheVariants.{CutShort, TooFar, Write as FailedWrite};

use crate::counting::one_more;
use crate::errors::{RecordError, SearchError};
use crate::read_at::{ReadAt, fill_from};
use crate::records::{Decision, Matcher};
use crate::sinks::Sink;
use crate::zones::{Position, Way, Zone};
use csv_records::{Delimiter, cut_record};
use std::alloc::{AllocError, Global};

/// What became of the zones.
#[derive(Clone, Copy, Debug, PartialEq, Eq)]
pub struct Tally {
    /// How many were not read.
    pub skipped: usize,
    /// How many were written whole.
    pub copied: usize,
    /// How many were searched.
    pub searched: usize,
    /// How many records were written, as far as 64 bits count.
    pub found: u64,
}

impl Tally {
    /// Counts one more zone, and so many records.
    fn add(&mut self, way: Way, found: u64)
        requires { self.old.skipped + self.old.copied + self.old.searched < 2 ^ 64 - 1 }
        ensures found { self.new.found ≡ min (self.old.found + found) (2 ^ 64 - 1) }
        ensures skipped { self.new.skipped ≡ self.old.skipped + (if is_skip way then 1 else 0) }
        ensures copied { self.new.copied ≡ self.old.copied + (if is_copy way then 1 else 0) }
        ensures searched { self.new.searched ≡ self.old.searched + (if is_search way then 1 else 0) }
        ensures sum { self.new.skipped + self.new.copied + self.new.searched ≡
            self.old.skipped + self.old.copied + self.old.searched + 1 }
    {
        self.found = self.found.saturating_add(found);
        match way {
            Way::Skip => self.skipped += 1,
            Way::Copy => self.copied += 1,
            Way::Search => self.searched += 1,
        }
    }
}

/// Gives a sink the records of a file that match, in order, and writes them. The first record has
/// the number `first`. Only the zones that may have one that matches are read.
pub fn find<R: ReadAt, M: Matcher, S: Sink>(
    alloc: Global,
    zones: &[Zone],
    first: u64,
    matcher: &M,
    reader: &mut R,
    sink: &mut S,
) -> Result<Tally, SearchError>
    ensures answer { AnswersFind
        (IsIndexOf (M.delimiter matcher.now) (M.has_row matcher.now) (M.Describes matcher.now))
        (M.Refuses matcher.now) (M.is_refused matcher.now) (M.delimiter matcher.now) (M.matches matcher.now)
        (M.decides matcher.now) S.written_as first zones.now (R.bytes reader.old)
        (S.contents sink.old) (S.contents sink.new) result }
    ensures kept { R.bytes reader.new ≡ R.bytes reader.old }
    // All that the reader was asked for stands in zones that are not skipped.
    ensures asks { Asks (IsOfZone (M.decides matcher.now) zones.now) (R.asked reader.old) (R.asked reader.new) }
{
    let mut tally = Tally {
        skipped: 0,
        copied: 0,
        searched: 0,
        found: 0,
    };
    let mut number = first;
    for zone in zones {
        let (way, found) = answer_zone(alloc, zone, number, matcher, reader, sink)?;
        tally.add(way, found);
        number = number.saturating_add(zone.records);
    }
    sink.flush()?;
    Ok(tally)
}

/// Gives a sink the records of a zone that match, has them written, and says what became of the
/// zone and how many they are. The first record of the zone has this number.
fn answer_zone<R: ReadAt, M: Matcher, S: Sink>(
    alloc: Global,
    zone: &Zone,
    number: u64,
    matcher: &M,
    reader: &mut R,
    sink: &mut S,
) -> Result<(Way, u64), SearchError>
    ensures written { OnOk result ((was : List ℕ) → IsHeld (R.bytes reader.old) was
        → IsZoneOf (M.delimiter matcher.now) (M.has_row matcher.now) (M.Describes matcher.now) was zone.now
        → Appends (S.contents sink.old) (S.contents sink.new) (written_of S.written_as (M.matches matcher.now)
        number (zone_records (M.delimiter matcher.now) was zone.now))) }
    ensures way { IfOk result (λ answer. answer.0 ≡ way_of (M.decides matcher.now) zone.now) }
    ensures found { IfOk result (λ answer. (was : List ℕ) → IsHeld (R.bytes reader.old) was
        → IsZoneOf (M.delimiter matcher.now) (M.has_row matcher.now) (M.Describes matcher.now) was zone.now
        → answer.1 ≡ count_by (M.matches matcher.now) (zone_records (M.delimiter matcher.now) was zone.now)) }
    ensures kept { R.bytes reader.new ≡ R.bytes reader.old }
    ensures asks { Asks (AsksOfZone (M.decides matcher.now) zone.now) (R.asked reader.old) (R.asked reader.new) }
    ensures untouched { IfErr result (λ fault. fault ≢ FailedWrite → S.contents sink.new ≡ S.contents sink.old) }
    ensures begun { OnErr result ((was : List ℕ) → IsHeld (R.bytes reader.old) was
        → IsZoneOf (M.delimiter matcher.now) (M.has_row matcher.now) (M.Describes matcher.now) was zone.now
        → WritesFirst (S.contents sink.old) (S.contents sink.new) (written_of S.written_as (M.matches matcher.now)
        number (zone_records (M.delimiter matcher.now) was zone.now))) }
    ensures cut { IfErr result (λ fault. fault ≡ CutShort → IfSome (R.bytes reader.old)
        (λ bytes. length bytes < zone.now.first + zone.now.length)) }
    ensures far { IfErr result (λ fault. fault ≡ TooFar → 2 ^ 64 ≤ zone.now.first + zone.now.length) }
    ensures refused { IfErr result (IfRefused (λ refusal. (was : List ℕ) → IsHeld (R.bytes reader.old) was
        → zone.now.first + zone.now.length ≤ length was
        → TellsOneOf (M.Refuses matcher.now) zone.now.first
        (zone_records (M.delimiter matcher.now) was zone.now) refusal)) }
    ensures passed { OnOk result ((was : List ℕ) → IsHeld (R.bytes reader.old) was
        → IsZoneOf (M.delimiter matcher.now) (M.has_row matcher.now) (M.Describes matcher.now) was zone.now
        → is_searched (M.decides matcher.now) zone.now ≡ true
        → before_refused (M.is_refused matcher.now) (zone_records (M.delimiter matcher.now) was zone.now) ≡ None) }
    // The one that is told is the first.
    ensures first { IfErr result (IfRefused (λ refusal. (was : List ℕ) → IsHeld (R.bytes reader.old) was
        → IsZoneOf (M.delimiter matcher.now) (M.has_row matcher.now) (M.Describes matcher.now) was zone.now
        → (is_searched (M.decides matcher.now) zone.now ≡ true)
        × TellsOffset zone.now.first (before_refused (M.is_refused matcher.now)
        (zone_records (M.delimiter matcher.now) was zone.now)) refusal)) }
{
    let way = way_of_zone(alloc, zone, matcher)?;
    match way {
        Way::Skip => Ok((way, 0)),
        Way::Copy => {
            let whole = read_zone(alloc, zone, reader)?;
            give_whole(matcher.delimiter_byte(), number, whole, sink)?;
            sink.finish()?;
            Ok((way, zone.records))
        }
        Way::Search => {
            let piece = read_zone(alloc, zone, reader)?;
            let start = Position {
                place: zone.first,
                number,
            };
            let (hits, _) = give_hits(alloc, start, &piece, zone.has_only_rows(), matcher, sink)?;
            sink.finish()?;
            Ok((way, hits))
        }
    }
}

/// What is to be done with a zone.
fn way_of_zone<M: Matcher>(alloc: Global, zone: &Zone, matcher: &M) -> Result<Way, AllocError>
    ensures way { IfOk result (λ way. way ≡ way_of (M.decides matcher.now) zone.now) }
    ensures right { IfOk result (IsWayOf (M.delimiter matcher.now) (M.has_row matcher.now)
        (M.Describes matcher.now) (M.matches matcher.now) zone.now) }
{
    let decision = matcher.decide(alloc, &zone.statistics)?;
    match decision {
        Decision::NoneMatch => Ok(Way::Skip),
        Decision::AllMatch => {
            if zone.has_only_rows() {
                Ok(Way::Copy)
            } else {
                Ok(Way::Search)
            }
        }
        Decision::Unknown => Ok(Way::Search),
    }
}

/// The bytes of a zone.
pub(crate) fn read_zone<R: ReadAt>(
    alloc: Global,
    zone: &Zone,
    reader: &mut R,
) -> Result<Vec<u8>, SearchError>
    ensures read { IfOk result (λ piece. (was : List ℕ) → IsHeld (R.bytes reader.old) was
        → zone.now.first + zone.now.length ≤ length was → piece.items ≡ zone_bytes was zone.now) }
    ensures long { IfOk result (λ piece. length piece.items ≡ zone.now.length) }
    ensures kept { R.bytes reader.new ≡ R.bytes reader.old }
    ensures asks { AsksWithin (R.asked reader.old) (R.asked reader.new)
        zone.now.first (zone.now.first + zone.now.length) }
    ensures reading { IfErr result (λ fault. fault ≢ FailedWrite) }
    ensures why { IfErr result IsOfReading }
    ensures cut { IfErr result (λ fault. fault ≡ CutShort → IfSome (R.bytes reader.old)
        (λ bytes. length bytes < zone.now.first + zone.now.length)) }
    ensures far { IfErr result (λ fault. fault ≡ TooFar → 2 ^ 64 ≤ zone.now.first + zone.now.length) }
{
    let first = zone.first;
    let length = zone.length;
    if first > u64::MAX - length {
        return Err(SearchError::TooFar);
    }
    let mut piece = vec![in alloc; 0u8; length as usize]?;
    fill_from(reader, first, &mut piece)?;
    Ok(piece)
}

/// Gives a sink the records of a text, each of which matches. The first one has this number.
fn give_whole<S: Sink>(
    delimiter: Delimiter,
    number: u64,
    text: Vec<u8>,
    sink: &mut S,
) -> Result<(), AllocError>
    ensures taken { OnOk result (S.taken sink.new ≡
        written_of S.written_as (λ _. true) number (records_of delimiter.byte text.items)) }
    ensures kept { S.contents sink.new ≡ S.contents sink.old }
{
    sink.begin();
    sink.all_matched(delimiter, number, text)
}

/// Gives a sink the records of a text that match. Says how many they are, and the number of the
/// record after the text, the first of which stands at `start`. It may be known that each has a row.
pub(crate) fn give_hits<M: Matcher, S: Sink>(
    alloc: Global,
    start: Position,
    text: &[u8],
    are_rows: bool,
    matcher: &M,
    sink: &mut S,
) -> Result<(u64, u64), SearchError>
    ensures taken { OnOk result (HaveRowsIf are_rows (M.has_row matcher.now)
        (records_of (M.delimiter matcher.now) text.now)
        → S.taken sink.new ≡ written_of S.written_as (M.matches matcher.now)
        start.number (records_of (M.delimiter matcher.now) text.now)) }
    ensures kept { S.contents sink.new ≡ S.contents sink.old }
    ensures counted { IfOk result (λ given. HaveRowsIf are_rows (M.has_row matcher.now)
        (records_of (M.delimiter matcher.now) text.now)
        → given.0 ≡ count_by (M.matches matcher.now) (records_of (M.delimiter matcher.now) text.now)) }
    ensures next { IfOk result (λ given. given.1 ≡
        told (start.number + length (records_of (M.delimiter matcher.now) text.now))) }
    ensures few { IfOk result (λ given. given.0 ≤ length text.now) }
    ensures why { IfErr result IsOfRecord }
    ensures refused { IfErr result (IfRefused (TellsOneOf (M.Refuses matcher.now) start.place
        (records_of (M.delimiter matcher.now) text.now))) }
    ensures passed { OnOk result (HaveRowsIf are_rows (M.has_row matcher.now)
        (records_of (M.delimiter matcher.now) text.now)
        → before_refused (M.is_refused matcher.now) (records_of (M.delimiter matcher.now) text.now) ≡ None) }
    ensures first { IfErr result (IfRefused (λ refusal. HaveRowsIf are_rows (M.has_row matcher.now)
        (records_of (M.delimiter matcher.now) text.now)
        → TellsOffset start.place (before_refused (M.is_refused matcher.now)
        (records_of (M.delimiter matcher.now) text.now)) refusal)) }
{
    sink.begin();
    let mut number = start.number;
    let mut hits = 0u64;
    let mut scratch = matcher.scratch(alloc);
    let mut rest = text;
    while !rest.is_empty() {
        let place = start.place.saturating_add((text.len() - rest.len()) as u64);
        let (line, after) = cut_record(matcher.delimiter_byte(), rest);
        let hit = is_hit(alloc, place, line, are_rows, matcher, &mut scratch)?;
        give_record(hit, number, line, sink)?;
        hits = one_more(hits, hit);
        number = number.saturating_add(1);
        rest = after;
    }
    Ok((hits, number))
}

/// Gives a sink a record with its number, if the record matches.
fn give_record<S: Sink>(
    is_hit: bool,
    number: u64,
    line: &[u8],
    sink: &mut S,
) -> Result<(), AllocError>
    ensures taken { OnOk result (S.taken sink.new ≡
        S.taken sink.old ++ (if is_hit then S.written_as number line.now else [])) }
    ensures kept { S.contents sink.new ≡ S.contents sink.old }
{
    if is_hit {
        sink.matched(number, line)
    } else {
        Ok(())
    }
}

/// Whether a record matches, which begins at this offset. It may be known that it has a row.
pub(crate) fn is_hit<M: Matcher>(
    alloc: Global,
    place: u64,
    line: &[u8],
    is_row: bool,
    matcher: &M,
    scratch: &mut M::Scratch,
) -> Result<bool, SearchError>
    ensures hit { IfOk result (λ hit. HasRowIf is_row (M.has_row matcher.now line.now)
        → hit ≡ M.matches matcher.now line.now) }
    ensures why { IfErr result IsOfRecord }
    ensures passed { OnOk result (HasRowIf is_row (M.has_row matcher.now line.now)
        → M.is_refused matcher.now line.now ≡ false) }
    ensures refused { IfErr result (IfRefused (TellsRecord (M.Refuses matcher.now) place line.now)) }
    ensures right { IfErr result (IfRefused (λ _. M.is_refused matcher.now line.now ≡ true)) }
{
    match is_match(alloc, line, is_row, matcher, scratch) {
        Ok(hit) => Ok(hit),
        Err(fault) => Err(fault.at(place)),
    }
}

/// Whether a record matches, of which it may be known that it has a row.
fn is_match<M: Matcher>(
    alloc: Global,
    line: &[u8],
    is_row: bool,
    matcher: &M,
    scratch: &mut M::Scratch,
) -> Result<bool, RecordError>
    ensures hit { IfOk result (λ hit. HasRowIf is_row (M.has_row matcher.now line.now)
        → hit ≡ M.matches matcher.now line.now) }
    ensures passed { OnOk result (HasRowIf is_row (M.has_row matcher.now line.now)
        → M.is_refused matcher.now line.now ≡ false) }
    ensures refused { IfErr result (IfRecordRefused (TellsRecord (M.Refuses matcher.now) 0 line.now)) }
    ensures right { IfErr result (IfRecordRefused (λ _. M.is_refused matcher.now line.now ≡ true)) }
{
    if is_row {
        matcher.is_match_of_row(alloc, scratch, line)
    } else {
        matcher.is_match(alloc, scratch, line)
    }
}
