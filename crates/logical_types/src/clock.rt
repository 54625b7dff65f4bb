// SPDX-License-Identifier: Apache-2.0
//! Times of day as numbers of a unit since midnight, from and to words.

ghost use Rattle.std.specs.Prelude.{◌≡◌, ◌<◌, ◌↔◌, ◌*ℤ◌, ℤ, IfNone, IfSome, IsSome, pos};
ghost use Rattle.logical_types.specs.Clock.{IsTimeOfDay, IsTimeWord, time_written};
ghost use Rattle.logical_types.specs.Printed.{IsTimeText};
ghost use Rattle.logical_types.specs.Times.{nanoseconds_of};

use crate::times::{DAY, TimeUnit, moment_of_word};
use arrayvec::{ArrayString, ArrayVec};
use jiff_core::civil::Time;
use jiff_fmt::temporal::DateTimePrinter;

/// The time that a word writes, as `14:05:57.25`. None of any other word, and of one with digits that the
/// unit has no place for.
pub fn time_of_word(unit: TimeUnit, word: &[u8]) -> Option<i64>
    ensures some { IfSome result (IsTimeWord unit word.now) }
    ensures none { IfNone result ((z : ℤ) → ¬ (IsTimeWord unit word.now z)) }
{
    let moment = moment_of_time(word)?;
    time_of_moment(unit, moment)
}

/// The nanoseconds since midnight that a word writes.
fn moment_of_time(word: &[u8]) -> Option<i128>
    ensures { result ≡ time_written word.now }
{
    if word.len() > 18 {
        return None;
    }
    let mut text = ArrayVec::<u8, 29>::new();
    let _ = text.try_extend_from_slice(b"1970-01-01T");
    let _ = text.try_extend_from_slice(word);
    moment_of_word(false, text.as_slice())
}

/// Nanoseconds since midnight as a number of units, if they are one.
fn time_of_moment(unit: TimeUnit, moment: i128) -> Option<i64>
    ensures some { IfSome result (λ z. IsTimeOfDay unit z × (moment ≡ z *ℤ pos (nanoseconds_of unit))) }
    ensures none { IfNone result ((z : ℤ) → IsTimeOfDay unit z → ¬ (moment ≡ z *ℤ pos (nanoseconds_of unit))) }
{
    let nanoseconds = unit.nanoseconds() as i128;
    if moment < 0 || moment >= DAY || moment % nanoseconds != 0 {
        return None;
    }
    i64::try_from(moment / nanoseconds).ok()
}

/// The word of a time of day, as `14:05:57.25`, if a day has it. A fraction of a second ends in its last
/// digit that is not 0.
pub fn word_of_time(unit: TimeUnit, time: i64) -> Option<ArrayString<18>>
    ensures some { IsSome result ↔ IsTimeOfDay unit time }
    ensures word { IfSome result (λ word. IsTimeWord unit word.bytes time) }
    ensures text { IfSome result (λ word. IsTimeText unit word.bytes time) }
{
    match nanoseconds_after_midnight(unit, time) {
        Some(nanoseconds) => {
            let time = Time::from_nanosecond(nanoseconds);
            Some(DateTimePrinter::new().time_text(time))
        }
        None => None,
    }
}

/// A time of day in nanoseconds since midnight.
fn nanoseconds_after_midnight(unit: TimeUnit, time: i64) -> Option<u64>
    ensures some { IfSome result (λ n. IsTimeOfDay unit time × (pos n ≡ time *ℤ pos (nanoseconds_of unit))) }
    ensures below { IfSome result (λ n. n < 86_400_000_000_000) }
    ensures none { IfNone result (¬ (IsTimeOfDay unit time)) }
{
    let moment = time as i128 * unit.nanoseconds() as i128;
    if moment < 0 || moment >= DAY {
        return None;
    }
    Some(moment as u64)
}
