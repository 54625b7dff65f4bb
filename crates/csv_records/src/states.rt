//! The states of a record, by the names that `csv` has for them.

ghost use Rattle.std.specs.Prelude.{◌≡◌, ◌≤◌, length, true};
ghost use Rattle.csv_records.specs.Words.{config_of, in_field, start_field, start_record, state_after, state_at, step};
ghost use Rattle.csv.specs.declared.parser.State.TheVariants.{StartRecord};

use crate::delimiter::Delimiter;
use memchr::memchr;

/// What has been read of a record: a state of the machine of `csv`.
#[derive(Clone, Copy, Debug, PartialEq, Eq)]
pub enum RecordState {
    /// Where a record may start.
    StartRecord,
    /// After a carriage return that ended a row.
    AfterCr,
    /// Where a field starts.
    StartField,
    /// In a field without quotes.
    InField,
    /// In a field with quotes.
    InQuoted,
    /// After a quote in it.
    AfterQuote,
}

/// The state after a line, which is `StartRecord` where the record ends with it.
pub fn state_after_line(delimiter: Delimiter, state: RecordState, line: &[u8]) -> RecordState
    ensures { state_at result ≡ state_after delimiter.byte (state_at state) line.now }
{
    if is_plain_line(delimiter, state, line) {
        RecordState::StartRecord
    } else {
        state_after_all(delimiter, state, line)
    }
}

/// Whether a line ends with its line feed, and neither begins in quotes nor has any.
fn is_plain_line(delimiter: Delimiter, state: RecordState, line: &[u8]) -> bool
    ensures { result ≡ true → state_after delimiter.byte (state_at state) line.now ≡ StartRecord }
{
    match state {
        RecordState::InQuoted => false,
        _ => match line {
            [front @ .., last] if *last == b'\n' => memchr(b'"', front).is_none(),
            _ => false,
        },
    }
}

/// The state after these bytes.
fn state_after_all(delimiter: Delimiter, state: RecordState, bytes: &[u8]) -> RecordState
    ensures { state_at result ≡ state_after delimiter.byte (state_at state) bytes.now }
{
    let mut state = state;
    let mut rest = bytes;
    while let [byte, after @ ..] = from_next_quote(delimiter, state, rest) {
        state = state_after_byte(delimiter, state, *byte);
        rest = after;
    }
    state
}

/// The bytes from the next quote on, inside of quotes; elsewhere all of them.
fn from_next_quote(delimiter: Delimiter, state: RecordState, bytes: &[u8]) -> &[u8]
    ensures state { state_after delimiter.byte (state_at state) bytes.now ≡
        state_after delimiter.byte (state_at state) result.now }
    ensures shorter { length result.now ≤ length bytes.now }
{
    match state {
        RecordState::InQuoted => match memchr(b'"', bytes) {
            Some(quote) => &bytes[quote..],
            None => &[],
        },
        _ => bytes,
    }
}

/// The state after a byte.
fn state_after_byte(delimiter: Delimiter, state: RecordState, byte: u8) -> RecordState
    ensures { state_at result ≡ (step (config_of delimiter.byte) (state_at state) byte).0 }
{
    match state {
        RecordState::StartRecord => after_start_record(delimiter, byte),
        RecordState::AfterCr => {
            if byte == b'\n' {
                RecordState::StartRecord
            } else {
                after_start_record(delimiter, byte)
            }
        }
        RecordState::StartField => after_start_field(delimiter, byte),
        RecordState::InField => after_in_field(delimiter, byte),
        RecordState::InQuoted => {
            if byte == b'"' {
                RecordState::AfterQuote
            } else {
                RecordState::InQuoted
            }
        }
        RecordState::AfterQuote => {
            if byte == b'"' {
                RecordState::InQuoted
            } else {
                after_in_field(delimiter, byte)
            }
        }
    }
}

fn after_start_record(delimiter: Delimiter, byte: u8) -> RecordState
    ensures { state_at result ≡ (start_record (config_of delimiter.byte) byte).0 }
{
    if byte == b'\r' || byte == b'\n' {
        RecordState::StartRecord
    } else {
        after_start_field(delimiter, byte)
    }
}

fn after_start_field(delimiter: Delimiter, byte: u8) -> RecordState
    ensures { state_at result ≡ (start_field (config_of delimiter.byte) byte).0 }
{
    if byte == b'"' {
        RecordState::InQuoted
    } else {
        after_in_field(delimiter, byte)
    }
}

fn after_in_field(delimiter: Delimiter, byte: u8) -> RecordState
    ensures { state_at result ≡ (in_field (config_of delimiter.byte) byte).0 }
{
    if byte == delimiter.byte {
        RecordState::StartField
    } else if byte == b'\r' {
        RecordState::AfterCr
    } else if byte == b'\n' {
        RecordState::StartRecord
    } else {
        RecordState::InField
    }
}
