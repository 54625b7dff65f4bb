// SPDX-License-Identifier: Apache-2.0
//! Days since 1970-01-01, from and to words as `2026-03-01`.

ghost use Rattle.std.specs.Prelude.{◌≡◌, ℤ, IfNone, IfSome, IsSome, ◌↔◌};
ghost use Rattle.logical_types.specs.Days.{IsDayWord};
ghost use Rattle.jiff_core.specs.Calendar.{IsEpochDay};

use arrayvec::ArrayString;
use jiff_core::civil::Date;
use jiff_fmt::temporal::{DateTimePrinter, parse_date};

/// The day that a word writes, as `2026-03-01`. None of any other word, also of a date with a time.
pub fn day_of_word(word: &[u8]) -> Option<i32>
    ensures some { IfSome result (IsDayWord word.now) }
    ensures none { IfNone result ((day : ℤ) → ¬ (IsDayWord word.now day)) }
    ensures valid { IfSome result IsEpochDay }
{
    match parse_date(word) {
        Ok(date) => {
            let text = DateTimePrinter::new().date_text(date);
            if text.as_bytes() == word {
                Some(date.to_unix_epoch_day())
            } else {
                None
            }
        }
        Err(_) => None,
    }
}

/// The word of a day, if the calendar has the day: from -9999-01-01 to 9999-12-31.
pub fn word_of_day(day: i32) -> Option<ArrayString<13>>
    ensures some { IsSome result ↔ IsEpochDay day }
    ensures word { IfSome result (λ word. IsDayWord word.bytes day) }
{
    match Date::from_unix_epoch_day(day as i64) {
        Ok(date) => Some(DateTimePrinter::new().date_text(date)),
        Err(_) => None,
    }
}
