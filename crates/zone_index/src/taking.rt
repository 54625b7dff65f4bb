//! Zones of whole records are read from a stream.

ghost use Rattle.std.specs.Prelude.{◌≡◌, ◌<◌, ◌≤◌, ◌+◌, ◌-◌, ◌^◌, ℕ, List, [], Some, IfErr, IfOk, OnOk, length, min};
ghost use Rattle.std.specs.Prelude.{take, if◌then◌else◌};
ghost use Rattle.std.specs.Io.{StartsWith, appended_bytes};
ghost use Rattle.std.specs.Io.KnownBytes.{Consumes};
ghost use Rattle.csv_records.specs.Records.{is_start, records_of, state_at};
ghost use Rattle.csv_records.specs.declared.states.RecordState.TheVariants.{StartRecord};
ghost use Rattle.zone_index.specs.Errors.{IsOfStream};
ghost use Rattle.zone_index.specs.Taking.{AreWhole, IsTaken};

use crate::errors::SearchError;
use crate::lines::read_line;
use csv_records::{Delimiter, RecordState, plain_end, state_after_line};
use std::io::{self, BufRead, ErrorKind};

/// Reads so many whole records, or all that are left.
pub fn take_records<B: BufRead>(
    delimiter: Delimiter,
    size: u64,
    text: &mut Vec<u8>,
    reader: &mut B,
) -> Result<(), SearchError>
    requires fresh { text.old.items ≡ [] }
    requires some { 0 < size }
    ensures taken { OnOk result ((bytes : List ℕ) → B.remaining reader.old ≡ Some bytes
        → IsTaken delimiter.byte bytes text.new.items (B.remaining reader.new)) }
    // So many records, or all that were left.
    ensures many { OnOk result ((bytes : List ℕ) → B.remaining reader.old ≡ Some bytes
        → length (records_of delimiter.byte text.new.items) ≡
        min size (length (records_of delimiter.byte bytes))) }
    // Nothing was taken only where nothing was left.
    ensures ended { OnOk result ((bytes : List ℕ) → B.remaining reader.old ≡ Some bytes
        → text.new.items ≡ [] → bytes ≡ []) }
    ensures why { IfErr result IsOfStream }
{
    let mut state = RecordState::StartRecord;
    let mut taken = 0;
    while taken < size {
        let before = text.len();
        match read_line(reader, text) {
            Ok(0) => return Ok(()),
            Ok(_) => {}
            Err(error) => return Err(SearchError::of_read(error)),
        }
        state = state_after_line(delimiter, state, &text[before..]);
        taken = counted(taken, state);
        taken += take_plain(delimiter, state, size - taken, text, reader)?;
    }
    Ok(())
}

/// One more where a record ended.
fn counted(taken: u64, state: RecordState) -> u64
    requires { taken < 2 ^ 64 - 1 }
    ensures { result ≡ taken + (if is_start (state_at state) then 1 else 0) }
{
    match state {
        RecordState::StartRecord => taken + 1,
        _ => taken,
    }
}

/// Takes the records without a quote that the reader has at hand, up to so many, where one may
/// start here. Says how many they are.
fn take_plain<B: BufRead>(
    delimiter: Delimiter,
    state: RecordState,
    most: u64,
    text: &mut Vec<u8>,
    reader: &mut B,
) -> Result<u64, SearchError>
    ensures few { IfOk result (λ n. n ≤ most) }
    ensures fresh { IfOk result (λ n. 0 < n → state ≡ StartRecord) }
    ensures appends { OnOk result (StartsWith text.new.items text.old.items) }
    ensures bytes { OnOk result (Consumes (B.remaining reader.old) (B.remaining reader.new)
        (appended_bytes text.old.items text.new.items)) }
    ensures whole { IfOk result (λ n. AreWhole delimiter.byte (state_at state) n
        (appended_bytes text.old.items text.new.items)) }
    ensures why { IfErr result IsOfStream }
{
    match state {
        RecordState::StartRecord => match append_plain(delimiter, most, text, reader) {
            Ok(count) => Ok(count),
            Err(error) => Err(SearchError::of_read(error)),
        },
        _ => Ok(0),
    }
}

/// Appends the records without a quote that the reader has at hand, up to so many, and says how
/// many they are.
fn append_plain<B: BufRead>(
    delimiter: Delimiter,
    most: u64,
    text: &mut Vec<u8>,
    reader: &mut B,
) -> io::Result<u64>
    ensures few { IfOk result (λ n. n ≤ most) }
    ensures appends { StartsWith text.new.items text.old.items }
    ensures bytes { Consumes (B.remaining reader.old) (B.remaining reader.new)
        (appended_bytes text.old.items text.new.items) }
    ensures whole { IfOk result (λ n. AreWhole delimiter.byte (state_at StartRecord) n
        (appended_bytes text.old.items text.new.items)) }
{
    let available = match reader.fill_buf() {
        Ok(available) => available,
        Err(error) => {
            return if error.kind() == ErrorKind::Interrupted {
                Ok(0)
            } else {
                Err(error)
            };
        }
    };
    let (end, count) = plain_front(delimiter, most, available);
    text.extend_from_slice(&available[..end])?;
    reader.consume(end);
    Ok(count)
}

/// How many bytes the first records have, up to so many and to the first that has a quote or no
/// line feed, and how many these are.
fn plain_front(delimiter: Delimiter, most: u64, bytes: &[u8]) -> (usize, u64)
    ensures within { result.0 ≤ length bytes.now }
    ensures few { result.1 ≤ most }
    ensures whole { AreWhole delimiter.byte (state_at StartRecord) result.1 (take result.0 bytes.now) }
{
    let mut end = 0;
    let mut count = 0;
    while count < most {
        match plain_end(delimiter, &bytes[end..]) {
            Some(length) => {
                end += length;
                count += 1;
            }
            None => return (end, count),
        }
    }
    (end, count)
}
