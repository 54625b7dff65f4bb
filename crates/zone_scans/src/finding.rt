//! The records of a text that match, with where they stand.

ghost use Rattle.std.specs.Prelude.{◌≡◌, ◌≢◌, ◌<◌, ◌≤◌, ◌+◌, ◌++◌, ◌∷◌, [], IfErr, IfNone, IfOk, IfSome, OnOk};
ghost use Rattle.std.specs.Prelude.{drop, false, if◌then◌else◌, length, min, take, true};
ghost use Rattle.csv_records.specs.Records.{records_of};
ghost use Rattle.zone_index.specs.Errors.{IfRefused, IsOfRecord, TellsOffset, TellsOneOf, TellsRecord};
ghost use Rattle.zone_index.specs.Errors.{before_refused, fault_at};
ghost use Rattle.zone_index.specs.Sinks.{told};
ghost use Rattle.zone_scans.specs.Found.{IsFoundBefore, IsSearched, found_at, position_after};

use csv_records::cut_record;
use std::alloc::Global;
use zone_index::{Matcher, Position, RecordError, Refusal, SearchError};

/// A record that matches.
#[derive(Clone, Copy, Debug, PartialEq, Eq)]
#[repr(C)]
pub struct FoundRecord {
    /// The offset of its first byte in the file, as far as 64 bits tell.
    pub place: u64,
    /// How many bytes it has, with its line end.
    pub length: u64,
    /// Its number, as far as 64 bits tell.
    pub number: u64,
}

/// How far a text was searched.
#[derive(Clone, Copy, Debug, PartialEq, Eq)]
pub struct Searched {
    /// How many records were found.
    pub count: usize,
    /// Where the first record stands that was not judged.
    pub next: Position,
}

/// How far a text was searched, and the fault that ended it, if there was one.
#[derive(Debug, Drop)]
pub struct SearchedUntilFault {
    /// How far. A record that is refused is the first one that was not judged.
    pub searched: Searched,
    /// The fault.
    pub fault: Option<SearchError>,
}

/// Writes where the records of a text stand that match, as many as there is room for. The text stands at
/// `start` in the file, and its first record has the number there.
///
/// It stops at a record that matches and for which there is no room, and else at the end of the text. Where
/// the file goes on behind the text, `is_end` is `false`: then the last record of the text is left, since it
/// may be cut. `Refused` with the first record that is refused, if that is met. What was found before it is
/// written all the same: `find_records_until_fault` says how many these are.
pub fn find_records<M: Matcher>(
    alloc: Global,
    matcher: &M,
    start: Position,
    text: &[u8],
    is_end: bool,
    found: &mut [FoundRecord],
) -> Result<Searched, SearchError>
    ensures searched { IfOk result (IsSearched (M.delimiter matcher.now) (M.matches matcher.now)
        (M.is_refused matcher.now) start text.now is_end found.new) }
    ensures within { IfOk result (λ searched. searched.count ≤ length found.new) }
    ensures why { IfErr result IsOfRecord }
    ensures refused { IfErr result (IfRefused (TellsOneOf (M.Refuses matcher.now) start.place
        (records_of (M.delimiter matcher.now) text.now))) }
    ensures first { IfErr result (IfRefused (TellsOffset start.place (before_refused (M.is_refused matcher.now)
        (records_of (M.delimiter matcher.now) text.now)))) }

    // Of those before a fault that match, each is written, in order.
    ensures part { IfErr result (λ fault. (searched : Searched) × IsFoundBefore (M.delimiter matcher.now)
        (M.matches matcher.now) (M.is_refused matcher.now) start text.now is_end found.old found.new searched fault) }

    // What is not said to be written stays.
    ensures rest { IfOk result (λ searched. drop searched.count found.new ≡ drop searched.count found.old) }
    ensures long { length found.new ≡ length found.old }
{
    let SearchedUntilFault { searched, fault } = find_records_until_fault(
        alloc, matcher, start, text, is_end, found,
    );
    match fault {
        None => Ok(searched),
        Some(fault) => Err(fault),
    }
}

/// The same, which also says after a fault how far the text was searched.
pub fn find_records_until_fault<M: Matcher>(
    alloc: Global,
    matcher: &M,
    start: Position,
    text: &[u8],
    is_end: bool,
    found: &mut [FoundRecord],
) -> SearchedUntilFault
    ensures searched { IfNone result.fault (IsSearched (M.delimiter matcher.now) (M.matches matcher.now)
        (M.is_refused matcher.now) start text.now is_end found.new result.searched) }
    ensures within { result.searched.count ≤ length found.new }
    ensures why { IfSome result.fault IsOfRecord }
    ensures refused { IfSome result.fault (IfRefused (TellsOneOf (M.Refuses matcher.now) start.place
        (records_of (M.delimiter matcher.now) text.now))) }
    ensures first { IfSome result.fault (IfRefused (TellsOffset start.place
        (before_refused (M.is_refused matcher.now) (records_of (M.delimiter matcher.now) text.now)))) }

    // Of those before a fault that match, each is written, in order.
    ensures part { IfSome result.fault (IsFoundBefore (M.delimiter matcher.now) (M.matches matcher.now)
        (M.is_refused matcher.now) start text.now is_end found.old found.new result.searched) }

    // What is not said to be written stays.
    ensures rest { drop result.searched.count found.new ≡ drop result.searched.count found.old }
    ensures long { length found.new ≡ length found.old }
{
    let mut scratch = matcher.scratch(alloc);
    let mut count = 0;
    let mut next = start;
    let mut rest = text;
    while !rest.is_empty() {
        let (line, after) = cut_record(matcher.delimiter_byte(), rest);
        if is_cut(is_end, after) {
            return ended(count, next);
        }
        match is_match_at(alloc, matcher, next.place, line, &mut scratch) {
            Ok(is_hit) => {
                if lacks_room(is_hit, count, found) {
                    return ended(count, next);
                }
                count = put_record(is_hit, next, line, count, found);
                next = position_after(next, line);
                rest = after;
            }
            Err(fault) => {
                return SearchedUntilFault {
                    searched: Searched { count, next },
                    fault: Some(fault),
                };
            }
        }
    }
    ended(count, next)
}

/// So many records were found, and here the first one stands that was not judged, with no fault.
fn ended(count: usize, next: Position) -> SearchedUntilFault
    ensures { result ≡ record { searched = record { count = count; next = next }; fault = None } }
{
    SearchedUntilFault {
        searched: Searched { count, next },
        fault: None,
    }
}

/// Whether a record may be cut behind which this follows.
fn is_cut(is_end: bool, after: &[u8]) -> bool
    ensures yes { result ≡ true → (is_end ≡ false) × (after.now ≡ []) }
    ensures no { result ≡ false → is_end ≡ false → after.now ≢ [] }
{
    !is_end && after.is_empty()
}

/// Whether a record matches for which there is no room behind so many.
fn lacks_room(is_hit: bool, count: usize, found: &[FoundRecord]) -> bool
    ensures yes { result ≡ true → (is_hit ≡ true) × (count ≡ length found.now) }
    ensures no { result ≡ false → is_hit ≡ true → count ≢ length found.now }
{
    is_hit && count == found.len()
}

/// Writes behind so many records where one stands, if it matches. Says how many there are then.
fn put_record(
    is_hit: bool,
    position: Position,
    line: &[u8],
    count: usize,
    found: &mut [FoundRecord],
) -> usize
    requires within { count ≤ length found.old }
    requires room { is_hit ≡ true → count < length found.old }
    ensures count { result ≡ count + (if is_hit then 1 else 0) }
    ensures put { take result found.new ≡ take count found.old
        ++ (if is_hit then found_at position.place position.number line.now ∷ [] else []) }
    ensures rest { drop result found.new ≡ drop result found.old }
    ensures long { length found.new ≡ length found.old }
    ensures fits { result ≤ length found.new }
    ensures grows { count ≤ result }
{
    if !is_hit {
        return count;
    }
    found[count] = FoundRecord {
        place: position.place,
        length: line.len() as u64,
        number: position.number,
    };
    count + 1
}

/// Where the record behind this one stands.
fn position_after(position: Position, line: &[u8]) -> Position
    ensures { result ≡ position_after position line.now }
{
    Position {
        place: position.place.saturating_add(line.len() as u64),
        number: position.number.saturating_add(1),
    }
}

/// Whether a record matches, which begins at this offset.
fn is_match_at<M: Matcher>(
    alloc: Global,
    matcher: &M,
    place: u64,
    line: &[u8],
    scratch: &mut M::Scratch,
) -> Result<bool, SearchError>
    ensures hit { IfOk result (λ hit. hit ≡ M.matches matcher.now line.now) }
    ensures why { IfErr result IsOfRecord }
    ensures passed { OnOk result (M.is_refused matcher.now line.now ≡ false) }
    ensures refused { IfErr result (IfRefused (TellsRecord (M.Refuses matcher.now) place line.now)) }
    ensures right { IfErr result (IfRefused (λ _. M.is_refused matcher.now line.now ≡ true)) }
{
    match matcher.is_match(alloc, scratch, line) {
        Ok(is_hit) => Ok(is_hit),
        Err(fault) => Err(fault_at(place, fault)),
    }
}

/// The error of a record, where the bytes that it was given in stand at this offset.
fn fault_at(place: u64, fault: RecordError) -> SearchError
    ensures { result ≡ fault_at place fault }
{
    match fault {
        RecordError::Memory => SearchError::Memory,
        RecordError::Refused(refusal) => {
            let Refusal {
                place: offset,
                cause,
            } = refusal;
            SearchError::Refused(Refusal {
                place: offset.saturating_add(place),
                cause,
            })
        }
    }
}
