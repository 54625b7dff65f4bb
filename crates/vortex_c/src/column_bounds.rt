//! Bounds of a column: of its least and of its greatest value.

ghost use Rattle.std.specs.Prelude.{◌≡◌, ◌≢◌, ◌+◌, ◌≤◌, ◌<◌, ◌⊎◌, [], IfErr, IfOk, IsTrue, IsUtf8, MatchBool};
ghost use Rattle.std.specs.Prelude.{MatchOption, drop, is_some, length, take, unwrap_or};
ghost use Rattle.vortex_c.specs.Words.{AnswersColumn, AreEndsText, HasEndNoText, HasNoTextUpper, HasNoUpper};
ghost use Rattle.vortex_c.specs.Words.{HasValue, IsColumn, IsGreatestAt, IsLeastAt, IsLower, IsTextLower};
ghost use Rattle.vortex_c.specs.Words.{IsTextUpper, IsUpper, KeepsTheRest, option_copied, some_where, value_at};

use crate::bounds::{
    lower_length_of_bytes, lower_length_of_text, slice_of, upper_of_bytes, upper_of_text,
};
use crate::status::{BAD_OFFSETS, BUFFER_TOO_SMALL, GIVEN, NO_MEMORY, NONE, NOT_UTF8};
use arrow_columns::ByteSpan;
use std::alloc::Global;
use std::str;

/// The lengths of the two bounds of a column, in bytes, and whether there is an upper one.
#[derive(Drop)]
#[repr(C)]
pub struct BoundLengths {
    /// How many bytes the lower bound has.
    pub lower: usize,
    /// How many bytes the upper bound has: 0 if there is none.
    pub upper: usize,
    /// Whether there is an upper bound.
    pub has_upper: bool,
}

/// The bounds of a column's least and of its greatest value, each at `max_length` bytes, written
/// to the two buffers.
///
/// Value k is the bytes from offset k to offset k + 1, so that m values have m + 1 offsets.
///
/// - `NONE`: there are fewer than two offsets, and so no value.
/// - `BAD_OFFSETS`: an offset is below the one before it or past the end of the bytes.
/// - `BUFFER_TOO_SMALL`: a buffer is too small. `lengths` says how many bytes each bound has.
/// - `NO_MEMORY`: only if `max_length` is above 22 and there are more bytes than that.
#[unsafe(no_mangle)]
pub extern "C" fn doqallin_column_bounds_bytes(
    alloc: Global,
    bytes: &[u8],
    offsets: &[u64],
    max_length: usize,
    lower_buffer: &mut [u8],
    upper_buffer: &mut [u8],
    lengths: &mut BoundLengths,
) -> u32
    ensures answer { AnswersColumn IsLower IsUpper HasNoUpper
        bytes.now offsets.now max_length lower_buffer.new upper_buffer.new lengths.new result }
    ensures no_strings { result ≢ NOT_UTF8 }
    ensures rest { KeepsTheRest lower_buffer.old lower_buffer.new upper_buffer.old upper_buffer.new
        lengths.old lengths.new result }
{
    let places = match extremes_or_status(bytes, offsets) {
        Ok(places) => places,
        Err(status) => return status,
    };
    let least = value_of(bytes, offsets, places.least);
    let greatest = value_of(bytes, offsets, places.greatest);
    let lower = &least[..lower_length_of_bytes(least, max_length)];
    match upper_of_bytes(alloc, greatest, max_length) {
        Ok(upper) => give_both(lower, slice_of(&upper), lower_buffer, upper_buffer, lengths),
        Err(_) => NO_MEMORY,
    }
}

/// The bounds of a column of strings, by whole characters: of its least and of its greatest value,
/// each at `max_length` bytes, written to the two buffers.
///
/// The statuses come as from `doqallin_column_bounds_bytes`, and `NOT_UTF8` if the least or the
/// greatest value is not UTF-8. The other values are not tested.
#[unsafe(no_mangle)]
pub extern "C" fn doqallin_column_bounds_text(
    alloc: Global,
    bytes: &[u8],
    offsets: &[u64],
    max_length: usize,
    lower_buffer: &mut [u8],
    upper_buffer: &mut [u8],
    lengths: &mut BoundLengths,
) -> u32
    ensures answer { AnswersColumn IsTextLower IsTextUpper HasNoTextUpper
        bytes.now offsets.now max_length lower_buffer.new upper_buffer.new lengths.new result }
    ensures rest { KeepsTheRest lower_buffer.old lower_buffer.new upper_buffer.old upper_buffer.new
        lengths.old lengths.new result }

    // The least and the greatest value are tested, whole, and the bounds of strings are strings.
    ensures no_text { result ≡ NOT_UTF8 → HasEndNoText bytes.now offsets.now }
    ensures text { (result ≢ NOT_UTF8) × (result ≢ BAD_OFFSETS)
        → AreEndsText bytes.now offsets.now }
    ensures text_lower { result ≡ GIVEN → IsUtf8 (take lengths.new.lower lower_buffer.new) }
    ensures text_upper { result ≡ GIVEN → IsTrue lengths.new.has_upper
        → IsUtf8 (take lengths.new.upper upper_buffer.new) }
{
    let places = match extremes_or_status(bytes, offsets) {
        Ok(places) => places,
        Err(status) => return status,
    };
    let Some(least) = string_of(bytes, offsets, places.least) else {
        return NOT_UTF8;
    };
    let Some(greatest) = string_of(bytes, offsets, places.greatest) else {
        return NOT_UTF8;
    };
    let lower = least[..lower_length_of_text(least, max_length)].as_bytes();
    match upper_of_text(alloc, greatest, max_length) {
        Ok(upper) => give_both(lower, slice_of(&upper), lower_buffer, upper_buffer, lengths),
        Err(_) => NO_MEMORY,
    }
}

/// The places of a column's least and of its greatest value.
#[derive(Drop)]
struct Extremes {
    least: usize,
    greatest: usize,
}

/// The places of the extremes, or the status that says why there are none.
fn extremes_or_status(bytes: &[u8], offsets: &[u64]) -> Result<Extremes, u32>
    ensures column { IfOk result (λ _. IsColumn bytes.now offsets.now) }
    ensures least { IfOk result (λ places. IsLeastAt bytes.now offsets.now places.least) }
    ensures greatest { IfOk result (λ places. IsGreatestAt bytes.now offsets.now places.greatest) }
    ensures statuses { IfErr result (λ status. (status ≡ NONE) ⊎ (status ≡ BAD_OFFSETS)) }
    ensures none { IfErr result (λ status. status ≡ NONE
        → IsColumn bytes.now offsets.now × ¬ (HasValue offsets.now 0)) }
    ensures refused { IfErr result (λ status. status ≡ BAD_OFFSETS
        → HasValue offsets.now 0 × ¬ (IsColumn bytes.now offsets.now)) }
{
    if offsets.len() < 2 {
        return Err(NONE);
    }
    if !are_of_column(bytes, offsets) {
        return Err(BAD_OFFSETS);
    }
    Ok(find_extremes(bytes, offsets))
}

/// Whether the offsets are those of values in the bytes.
fn are_of_column(bytes: &[u8], offsets: &[u64]) -> bool
    requires value { HasValue offsets.now 0 }
    ensures { MatchBool result (IsColumn bytes.now offsets.now)
        (¬ (IsColumn bytes.now offsets.now)) }
{
    offsets.is_sorted() && offsets[offsets.len() - 1] <= bytes.len() as u64
}

/// The value at this place of the column.
fn value_of<'a>(bytes: &'a [u8], offsets: &[u64], k: usize) -> &'a [u8]
    requires column { IsColumn bytes.now offsets.now }
    requires value { HasValue offsets.now k }
    ensures { result.now ≡ value_at bytes.now offsets.now k }
{
    &bytes[offsets[k] as usize..offsets[k + 1] as usize]
}

/// The value at this place of the column, if it is UTF-8.
fn string_of<'a>(bytes: &'a [u8], offsets: &[u64], k: usize) -> Option<&'a str>
    requires column { IsColumn bytes.now offsets.now }
    requires value { HasValue offsets.now k }
    ensures { MatchOption result
        (¬ (IsUtf8 (value_at bytes.now offsets.now k)))
        (λ s. (s.now ≡ value_at bytes.now offsets.now k)
        × IsUtf8 (value_at bytes.now offsets.now k)) }
{
    str::from_utf8(value_of(bytes, offsets, k)).ok()
}

/// The places of the least and of the greatest value.
fn find_extremes(bytes: &[u8], offsets: &[u64]) -> Extremes
    requires column { IsColumn bytes.now offsets.now }
    requires value { HasValue offsets.now 0 }
    ensures least { IsLeastAt bytes.now offsets.now result.least }
    ensures greatest { IsGreatestAt bytes.now offsets.now result.greatest }
{
    let mut span = ByteSpan::of(0, value_of(bytes, offsets, 0));
    for k in 1..offsets.len() - 1 {
        span.widen(k, bytes, offsets[k] as usize, offsets[k + 1] as usize);
    }
    Extremes {
        least: span.least,
        greatest: span.greatest,
    }
}

/// Writes both bounds to their buffers, and their lengths; only the lengths if a buffer is too
/// small.
fn give_both(
    lower: &[u8],
    upper: Option<&[u8]>,
    lower_buffer: &mut [u8],
    upper_buffer: &mut [u8],
    lengths: &mut BoundLengths,
) -> u32
    ensures statuses { (result ≡ GIVEN) ⊎ (result ≡ BUFFER_TOO_SMALL) }
    ensures lower { lengths.new.lower ≡ length lower.now }
    ensures upper { lengths.new.upper ≡ length (unwrap_or (option_copied upper.entry) []) }
    ensures has_upper { lengths.new.has_upper ≡ is_some upper.entry }

    // Both are written, each to its buffer.
    ensures lower_given { result ≡ GIVEN
        → take lengths.new.lower lower_buffer.new ≡ lower.now }
    ensures upper_given { result ≡ GIVEN
        → some_where lengths.new.has_upper (take lengths.new.upper upper_buffer.new)
        ≡ option_copied upper.entry }
    ensures within { result ≡ GIVEN → (lengths.new.lower ≤ length lower_buffer.new)
        × (lengths.new.upper ≤ length upper_buffer.new) }

    // Neither is.
    ensures small { result ≡ BUFFER_TOO_SMALL → (length lower_buffer.new < lengths.new.lower)
        ⊎ (length upper_buffer.new < lengths.new.upper) }

    // What stays.
    ensures rest { KeepsTheRest lower_buffer.old lower_buffer.new upper_buffer.old upper_buffer.new
        lengths.old lengths.new result }
{
    let upper_bytes = upper.unwrap_or(&[]);
    *lengths = BoundLengths {
        lower: lower.len(),
        upper: upper_bytes.len(),
        has_upper: upper.is_some(),
    };
    write_both(lower, upper_bytes, lower_buffer, upper_buffer)
}

/// Writes the bytes of both bounds, each to its buffer, or neither if a buffer is too small.
pub(crate) fn write_both(
    lower: &[u8],
    upper: &[u8],
    lower_buffer: &mut [u8],
    upper_buffer: &mut [u8],
) -> u32
    ensures statuses { (result ≡ GIVEN) ⊎ (result ≡ BUFFER_TOO_SMALL) }
    ensures lower_given { result ≡ GIVEN → take (length lower.now) lower_buffer.new ≡ lower.now }
    ensures upper_given { result ≡ GIVEN → take (length upper.now) upper_buffer.new ≡ upper.now }
    ensures within_lower { result ≡ GIVEN → length lower.now ≤ length lower_buffer.old }
    ensures within_upper { result ≡ GIVEN → length upper.now ≤ length upper_buffer.old }
    ensures small { result ≡ BUFFER_TOO_SMALL → (length lower_buffer.old < length lower.now)
        ⊎ (length upper_buffer.old < length upper.now) }

    // What stays.
    ensures lengths { (length lower_buffer.new ≡ length lower_buffer.old)
        × (length upper_buffer.new ≡ length upper_buffer.old) }
    ensures rest_lower { result ≡ GIVEN → drop (length lower.now) lower_buffer.new
        ≡ drop (length lower.now) lower_buffer.old }
    ensures rest_upper { result ≡ GIVEN → drop (length upper.now) upper_buffer.new
        ≡ drop (length upper.now) upper_buffer.old }
    ensures kept_lower { result ≢ GIVEN → lower_buffer.new ≡ lower_buffer.old }
    ensures kept_upper { result ≢ GIVEN → upper_buffer.new ≡ upper_buffer.old }
{
    if lower_buffer.len() < lower.len() || upper_buffer.len() < upper.len() {
        return BUFFER_TOO_SMALL;
    }
    lower_buffer[..lower.len()].copy_from_slice(lower);
    upper_buffer[..upper.len()].copy_from_slice(upper);
    GIVEN
}
