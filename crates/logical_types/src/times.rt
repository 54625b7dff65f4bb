// SPDX-License-Identifier: Apache-2.0
//! Timestamps as numbers of a unit since 1970-01-01T00:00:00, from and to words.

ghost use Rattle.std.specs.Prelude.{◌≡◌, ◌↔◌, ◌*ℤ◌, ℤ, Some, IfNone, IfSome, IsSome, pos, slice_index};
ghost use Rattle.jiff_core.specs.DateTime.{civil_nanos};
ghost use Rattle.logical_types.specs.Printed.{IsTimestampText, civil_text};
ghost use Rattle.logical_types.specs.Times.{IsTimestamp, IsTimestampWord};
ghost use Rattle.logical_types.specs.Times.{has_separators, midnight_written, moment_written, nanoseconds_of};
ghost use Rattle.logical_types.specs.Times.{timestamp_written};

use crate::dates::day_of_word;
use arrayvec::ArrayString;
use jiff_core::civil::DateTime;
use jiff_fmt::temporal::{DateTimePrinter, parse_pieces};

/// The unit of a timestamp or of a time of day.
#[derive(Clone, Copy, Debug, PartialEq, Eq)]
pub enum TimeUnit {
    Seconds,
    Milliseconds,
    Microseconds,
    Nanoseconds,
}

impl TimeUnit {
    ghost use Rattle.std.specs.Prelude.{◌≡◌};
    ghost use Rattle.jiff_core.specs.DateTime.{civil_nanos};
    ghost use Rattle.logical_types.specs.Times.{nanoseconds_of};

    /// How many nanoseconds the unit has.
    pub fn nanoseconds(self) -> u32
        ensures { result ≡ nanoseconds_of self }
    {
        match self {
            TimeUnit::Seconds => 1_000_000_000,
            TimeUnit::Milliseconds => 1_000_000,
            TimeUnit::Microseconds => 1_000,
            TimeUnit::Nanoseconds => 1,
        }
    }
}

/// How many nanoseconds a day has.
pub(crate) const DAY: i128 = 86_400_000_000_000;

/// The timestamp that a word writes, as `2026-03-01T14:05:57.25` or with a space for the `T`, and with
/// `Z` or an offset as `+01:00` exactly if the type has a zone: then it counts in UTC. Without seconds it
/// is the full minute, and a date alone is its midnight, if the type has no zone. None of any other word,
/// and of one with digits that the unit has no place for.
pub fn timestamp_of_word(unit: TimeUnit, is_zoned: bool, word: &[u8]) -> Option<i64>
    ensures some { IfSome result (IsTimestampWord unit is_zoned word.now) }
    ensures none { IfNone result ((z : ℤ) → ¬ (IsTimestampWord unit is_zoned word.now z)) }
{
    let moment = moment_of_timestamp(is_zoned, word)?;
    timestamp_of_moment(unit, moment)
}

/// The moment that the word of a timestamp writes, in nanoseconds since 1970-01-01T00:00:00.
fn moment_of_timestamp(is_zoned: bool, word: &[u8]) -> Option<i128>
    ensures { result ≡ timestamp_written is_zoned word.now }
{
    match moment_of_word(is_zoned, word) {
        Some(moment) => Some(moment),
        None if is_zoned => None,
        None => midnight_of_word(word),
    }
}

/// The moment at which the day of a word begins.
fn midnight_of_word(word: &[u8]) -> Option<i128>
    ensures { result ≡ midnight_written word.now }
{
    match day_of_word(word) {
        Some(day) => Some(day as i128 * DAY),
        None => None,
    }
}

/// The word of a timestamp, as `2026-03-01T14:05:57.25`, if the calendar has it: the years are -9999 to
/// 9999. With a zone it ends in `Z`, and is the time in UTC. A fraction of a second ends in its last digit
/// that is not 0.
pub fn word_of_timestamp(unit: TimeUnit, is_zoned: bool, timestamp: i64) -> Option<ArrayString<33>>
    ensures some { IsSome result ↔ IsTimestamp unit timestamp }
    ensures word { IfSome result (λ word. IsTimestampWord unit is_zoned word.bytes timestamp) }
    ensures text { IfSome result (λ word. IsTimestampText unit is_zoned word.bytes timestamp) }
{
    let moment = timestamp as i128 * unit.nanoseconds() as i128;
    match DateTime::from_nanosecond(moment) {
        Ok(civil) => Some(word_of_civil(is_zoned, civil)),
        Err(_) => None,
    }
}

/// The word of a date and a time, with `Z` behind it if the type has a zone.
fn word_of_civil(is_zoned: bool, civil: DateTime) -> ArrayString<33>
    ensures { result.bytes ≡ civil_text is_zoned civil }
{
    let mut word = ArrayString::new();
    word.push_str(DateTimePrinter::new().datetime_text(civil).as_str());
    if !is_zoned {
        return word;
    }
    word.push('Z');
    word
}

/// The moment that a date and a time write, in nanoseconds since 1970-01-01T00:00:00.
pub(crate) fn moment_of_word(is_zoned: bool, word: &[u8]) -> Option<i128>
    ensures { result ≡ moment_written is_zoned word.now }
{
    if !has_separators(word) {
        return None;
    }
    let Ok(pieces) = parse_pieces(word) else {
        return None;
    };
    let (Some(time), None) = (pieces.time, pieces.time_zone_annotation) else {
        return None;
    };
    let civil = DateTime {
        date: pieces.date,
        time,
    }
    .to_nanosecond();
    match (pieces.offset, is_zoned) {
        (None, false) => Some(civil),
        (Some(offset), true) => {
            let seconds = offset.to_numeric_offset().seconds;
            Some(civil - seconds as i128 * 1_000_000_000)
        }
        _ => None,
    }
}

/// Whether the word has dashes in its date and colons in its time, and a second below 60.
fn has_separators(word: &[u8]) -> bool
    ensures { result ≡ has_separators word.now }
{
    let shift = match word {
        [b'+' | b'-', ..] => 3,
        _ => 0,
    };
    byte_at(word, 4 + shift) == b'-'
        && byte_at(word, 13 + shift) == b':'
        && byte_at(word, 17 + shift) != b'6'
}

/// A byte of a word, or 0 past its end.
fn byte_at(word: &[u8], index: usize) -> u8
    ensures { result ≡ slice_index word.now index }
{
    word.get(index).copied().unwrap_or(0)
}

/// A moment as a number of units, if it is one.
fn timestamp_of_moment(unit: TimeUnit, moment: i128) -> Option<i64>
    ensures some { IfSome result (λ z. IsTimestamp unit z × (moment ≡ z *ℤ pos (nanoseconds_of unit))) }
    ensures none { IfNone result ((z : ℤ) → IsTimestamp unit z → ¬ (moment ≡ z *ℤ pos (nanoseconds_of unit))) }
{
    let nanoseconds = unit.nanoseconds() as i128;
    if DateTime::from_nanosecond(moment).is_err() || moment % nanoseconds != 0 {
        return None;
    }
    i64::try_from(moment / nanoseconds).ok()
}
