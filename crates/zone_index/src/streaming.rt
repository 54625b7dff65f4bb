//! The records of a stream are searched.

ghost use Rattle.std.specs.Prelude.{◌≡◌, ◌≢◌, ◌<◌, ◌++◌, [], ℕ, List, None, Some, IfErr, IfOk, OnErr, OnOk, count_by};
ghost use Rattle.std.specs.Io.KnownBytes.{Appends};
ghost use Rattle.csv_records.specs.Records.{records_of};
ghost use Rattle.zone_index.specs.Errors.{EndsFar, IfRefused, TellsOneOf, TellsOffset, before_refused};
ghost use Rattle.zone_index.specs.Records.{kept_of};
ghost use Rattle.zone_index.specs.Sinks.{IsPlain, WritesFirst, written_of};
ghost use Rattle.zone_index.specs.Taking.{StandsBehind};
ghost use Rattle.zone_index.specs.declared.errors.SearchError.TheVariants.{CutShort, TooFar, Write as FailedWrite};

use crate::counting::count_in;
use crate::errors::SearchError;
use crate::records::Matcher;
use crate::search::give_hits;
use crate::sinks::Sink;
use crate::taking::take_records;
use crate::zones::Position;
use std::alloc::Global;
use std::io::BufRead;

/// Gives a sink the records that a reader has left and that match, in order, and writes them. Says
/// how many they are. Takes `size` records at a time, so that a search that stops at a record has read
/// no further than that. The first one that is left stands at `start`.
pub fn find_rest<B: BufRead, M: Matcher, S: Sink>(
    alloc: Global,
    size: u64,
    start: Position,
    matcher: &M,
    reader: &mut B,
    sink: &mut S,
) -> Result<u64, SearchError>
    requires { 0 < size }
    ensures written { OnOk result ((bytes : List ℕ) → B.remaining reader.old ≡ Some bytes
        → Appends (S.contents sink.old) (S.contents sink.new) (written_of S.written_as (M.matches matcher.now)
        start.number (records_of (M.delimiter matcher.now) bytes))) }
    ensures plain { OnOk result (IsPlain S.written_as → (bytes : List ℕ) → B.remaining reader.old ≡ Some bytes
        → Appends (S.contents sink.old) (S.contents sink.new)
        (kept_of (M.delimiter matcher.now) (M.matches matcher.now) bytes)) }
    ensures found { IfOk result (λ found. (bytes : List ℕ) → B.remaining reader.old ≡ Some bytes
        → found ≡ count_by (M.matches matcher.now) (records_of (M.delimiter matcher.now) bytes)) }
    // After an error other than one of the writer, those of the first records that match were
    // written.
    ensures partial { IfErr result (λ fault. fault ≢ FailedWrite → (bytes : List ℕ)
        → B.remaining reader.old ≡ Some bytes
        → (first others : List (List ℕ)) × (records_of (M.delimiter matcher.now) bytes ≡ first ++ others)
        × Appends (S.contents sink.old) (S.contents sink.new)
        (written_of S.written_as (M.matches matcher.now) start.number first)) }
    // After any error a beginning of the right output was written.
    ensures begun { OnErr result ((bytes : List ℕ) → B.remaining reader.old ≡ Some bytes
        → WritesFirst (S.contents sink.old) (S.contents sink.new) (written_of S.written_as (M.matches matcher.now)
        start.number (records_of (M.delimiter matcher.now) bytes))) }
    ensures uncut { IfErr result (λ fault. fault ≢ CutShort) }
    ensures far { IfErr result (λ fault. fault ≡ TooFar → EndsFar 0 (B.remaining reader.old)) }
    // The record that is told is one of those, and begins there.
    ensures refused { IfErr result (IfRefused (λ refusal. (bytes : List ℕ) → B.remaining reader.old ≡ Some bytes
        → TellsOneOf (M.Refuses matcher.now) start.place (records_of (M.delimiter matcher.now) bytes) refusal)) }
    ensures passed { OnOk result ((bytes : List ℕ) → B.remaining reader.old ≡ Some bytes
        → before_refused (M.is_refused matcher.now) (records_of (M.delimiter matcher.now) bytes) ≡ None) }
    ensures ended { OnOk result ((bytes : List ℕ) → B.remaining reader.old ≡ Some bytes
        → B.remaining reader.new ≡ Some []) }
    ensures first { IfErr result (IfRefused (λ refusal. (bytes : List ℕ) → B.remaining reader.old ≡ Some bytes
        → TellsOffset start.place (before_refused (M.is_refused matcher.now)
        (records_of (M.delimiter matcher.now) bytes)) refusal)) }
    // It is one of the `size` records before what the reader has left.
    ensures near { IfErr result (IfRefused (λ refusal. (bytes : List ℕ) → B.remaining reader.old ≡ Some bytes
        → StandsBehind (M.delimiter matcher.now) size (M.is_refused matcher.now) bytes (B.remaining reader.new))) }
{
    let delimiter = matcher.delimiter_byte();
    let mut text = Vec::new(alloc);
    let mut number = start.number;
    let mut passed = 0u64;
    let mut found = 0u64;
    loop {
        text.clear();
        take_records(delimiter, size, &mut text, reader)?;
        if text.is_empty() {
            sink.flush()?;
            return Ok(found);
        }
        let position = Position {
            place: start.place.saturating_add(passed),
            number,
        };
        let (hits, next) = give_hits(alloc, position, &text, false, matcher, sink)?;
        match passed.checked_add(text.len() as u64) {
            Some(sum) => passed = sum,
            None => return Err(SearchError::TooFar),
        }
        found += hits;
        number = next;
        sink.finish()?;
    }
}

/// How many of the records that a reader has left match. Takes `size` records at a time.
/// The first byte that is left stands at `start`.
pub fn count_rest<B: BufRead, M: Matcher>(
    alloc: Global,
    size: u64,
    start: u64,
    matcher: &M,
    reader: &mut B,
) -> Result<u64, SearchError>
    requires { 0 < size }
    ensures counted { IfOk result (λ n. (bytes : List ℕ) → B.remaining reader.old ≡ Some bytes
        → n ≡ count_by (M.matches matcher.now) (records_of (M.delimiter matcher.now) bytes)) }
    ensures reading { IfErr result (λ fault. fault ≢ FailedWrite) }
    ensures uncut { IfErr result (λ fault. fault ≢ CutShort) }
    ensures far { IfErr result (λ fault. fault ≡ TooFar → EndsFar 0 (B.remaining reader.old)) }
    // The record that is told is one of those, and begins there.
    ensures refused { IfErr result (IfRefused (λ refusal. (bytes : List ℕ) → B.remaining reader.old ≡ Some bytes
        → TellsOneOf (M.Refuses matcher.now) start (records_of (M.delimiter matcher.now) bytes) refusal)) }
    ensures passed { OnOk result ((bytes : List ℕ) → B.remaining reader.old ≡ Some bytes
        → before_refused (M.is_refused matcher.now) (records_of (M.delimiter matcher.now) bytes) ≡ None) }
    ensures ended { OnOk result ((bytes : List ℕ) → B.remaining reader.old ≡ Some bytes
        → B.remaining reader.new ≡ Some []) }
    ensures first { IfErr result (IfRefused (λ refusal. (bytes : List ℕ) → B.remaining reader.old ≡ Some bytes
        → TellsOffset start (before_refused (M.is_refused matcher.now)
        (records_of (M.delimiter matcher.now) bytes)) refusal)) }
    // It is one of the `size` records before what the reader has left.
    ensures near { IfErr result (IfRefused (λ refusal. (bytes : List ℕ) → B.remaining reader.old ≡ Some bytes
        → StandsBehind (M.delimiter matcher.now) size (M.is_refused matcher.now) bytes (B.remaining reader.new))) }
{
    let delimiter = matcher.delimiter_byte();
    let mut text = Vec::new(alloc);
    let mut passed = 0u64;
    let mut total = 0u64;
    loop {
        text.clear();
        take_records(delimiter, size, &mut text, reader)?;
        if text.is_empty() {
            return Ok(total);
        }
        let hits = count_in(alloc, start.saturating_add(passed), &text, false, matcher)?;
        match passed.checked_add(text.len() as u64) {
            Some(sum) => passed = sum,
            None => return Err(SearchError::TooFar),
        }
        total += hits;
    }
}
