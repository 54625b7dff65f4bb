//! Bounds of bytes and of strings.

ghost use Rattle.std.specs.Prelude.{◌≡◌, ◌≢◌, ◌≤◌, ◌<◌, ◌⊎◌, IfOk, IfSome, IsCharBoundary, IsOk, IsUtf8};
ghost use Rattle.std.specs.Prelude.{MatchOption, MatchResult, drop, length, take};
ghost use Rattle.vortex_c.specs.Words.{AnswersUpper, HasNoTextUpper, HasNoUpper, HasNone, IsLower, IsTextLower};
ghost use Rattle.vortex_c.specs.Words.{IsTextUpper, IsUpper, IsWholeOrBest, OutOfMemory, bytes_of, option_copied};
ghost use Rattle.vortex_c.specs.Words.{option_map};

use crate::giving::give;
use crate::status::{BUFFER_TOO_SMALL, GIVEN, NO_MEMORY, NONE, NOT_UTF8};
use std::alloc::Global;
use std::str;
use vortex_bounds::ScalarTruncation;
use vortex_bounds::laws::{bounds_are_computed, items_are_bytes};
use vortex_dtype::{BufferString, ByteBuffer, INLINE_BYTES, VortexError};

/// The lower bound of bytes at `max_length` bytes, as how many of the first bytes it has. Takes no
/// memory.
#[unsafe(no_mangle)]
pub extern "C" fn doqallin_lower_bound_bytes(value: &[u8], max_length: usize) -> usize
    ensures within { result ≤ length value.now }
    ensures fits { result ≤ max_length }
    ensures bound { IsWholeOrBest IsLower value.now max_length (take result value.now) }
{
    lower_length_of_bytes(value, max_length)
}

/// The lower bound of a string at `max_length` bytes, as how many of the first bytes it has: the
/// longest beginning of whole characters. Takes no memory.
///
/// - `NOT_UTF8`: the value is not UTF-8.
#[unsafe(no_mangle)]
pub extern "C" fn doqallin_lower_bound_text(
    value: &[u8],
    max_length: usize,
    count: &mut usize,
) -> u32
    ensures statuses { (result ≡ GIVEN) ⊎ (result ≡ NOT_UTF8) }
    ensures within { result ≡ GIVEN → count.new ≤ length value.now }
    ensures fits { result ≡ GIVEN → count.new ≤ max_length }
    ensures given { result ≡ GIVEN
        → IsWholeOrBest IsTextLower value.now max_length (take count.new value.now) }
    ensures text { result ≡ GIVEN → IsUtf8 value.now }
    ensures refused { result ≡ NOT_UTF8 → ¬ (IsUtf8 value.now) }
    ensures kept { result ≢ GIVEN → count.new ≡ count.old }
{
    let Ok(text) = str::from_utf8(value) else {
        return NOT_UTF8;
    };
    *count = lower_length_of_text(text, max_length);
    GIVEN
}

/// The upper bound of bytes at `max_length` bytes, written to the buffer.
///
/// - `NONE`: the value has more than `max_length` bytes, and no bytes of that length are above it.
/// - `BUFFER_TOO_SMALL`: the buffer is too small. `count` says how many bytes the bound has.
/// - `NO_MEMORY`: only if `max_length` is above 22 and the value longer than that.
#[unsafe(no_mangle)]
pub extern "C" fn doqallin_upper_bound_bytes(
    alloc: Global,
    value: &[u8],
    max_length: usize,
    buffer: &mut [u8],
    count: &mut usize,
) -> u32
    ensures statuses { (result ≡ GIVEN)
        ⊎ ((result ≡ NONE) ⊎ ((result ≡ NO_MEMORY) ⊎ (result ≡ BUFFER_TOO_SMALL))) }
    ensures answer { AnswersUpper IsUpper HasNoUpper
        value.now max_length buffer.old buffer.new count.old count.new result }
{
    match upper_of_bytes(alloc, value, max_length) {
        Ok(Some(bound)) => give(bound.as_slice(), buffer, count),
        Ok(None) => NONE,
        Err(_) => NO_MEMORY,
    }
}

/// The upper bound of a string at `max_length` bytes, by whole characters, written to the buffer.
///
/// The statuses come as from `doqallin_upper_bound_bytes`, and `NOT_UTF8` if the value is not
/// UTF-8.
#[unsafe(no_mangle)]
pub extern "C" fn doqallin_upper_bound_text(
    alloc: Global,
    value: &[u8],
    max_length: usize,
    buffer: &mut [u8],
    count: &mut usize,
) -> u32
    ensures statuses { (result ≡ GIVEN) ⊎ ((result ≡ NONE)
        ⊎ ((result ≡ NO_MEMORY) ⊎ ((result ≡ BUFFER_TOO_SMALL) ⊎ (result ≡ NOT_UTF8)))) }
    ensures answer { AnswersUpper IsTextUpper HasNoTextUpper
        value.now max_length buffer.old buffer.new count.old count.new result }
    ensures text { result ≢ NOT_UTF8 → IsUtf8 value.now }
    ensures refused { result ≡ NOT_UTF8 → ¬ (IsUtf8 value.now) }
{
    let Ok(text) = str::from_utf8(value) else {
        return NOT_UTF8;
    };
    match upper_of_text(alloc, text, max_length) {
        Ok(Some(bound)) => give(bound.as_slice(), buffer, count),
        Ok(None) => NONE,
        Err(_) => NO_MEMORY,
    }
}

/// An upper bound: the value itself, or what was made of its beginning.
#[derive(Drop)]
pub(crate) enum Upper<'a> {
    Whole(&'a [u8]),
    Cut(ByteBuffer),
}

impl Upper<'_> {
    /// The bound's bytes.
    pub(crate) fn as_slice(&self) -> &[u8]
        ensures { result.now ≡ bytes_of self.now }
    {
        match self {
            Upper::Whole(value) => value,
            Upper::Cut(bound) => bound.as_slice(),
        }
    }
}

/// The slice of an upper bound, if there is one.
pub(crate) fn slice_of<'a>(upper: &'a Option<Upper<'_>>) -> Option<&'a [u8]>
    ensures { option_copied result ≡ option_map bytes_of upper.now }
{
    upper.as_ref().map(|bound| bound.as_slice())
}

/// How many of the first bytes are the lower bound.
pub(crate) fn lower_length_of_bytes(value: &[u8], max_length: usize) -> usize
    ensures within { result ≤ length value.now }
    ensures fits { result ≤ max_length }
    ensures bound { IsWholeOrBest IsLower value.now max_length (take result value.now) }
{
    bounds_are_computed();
    items_are_bytes(value);
    max_length.min(value.len())
}

/// How many of the first bytes of the string are its lower bound.
pub(crate) fn lower_length_of_text(text: &str, max_length: usize) -> usize
    ensures boundary { IsCharBoundary text.now result }
    ensures fits { result ≤ max_length }
    ensures bound { IsWholeOrBest IsTextLower text.now max_length (take result text.now) }
{
    text.floor_char_boundary(max_length)
}

/// The upper bound of the bytes: themselves, if they are no more than `max_length`.
pub(crate) fn upper_of_bytes<'a>(
    alloc: Global,
    value: &'a [u8],
    max_length: usize,
) -> Result<Option<Upper<'a>>, VortexError>
    ensures given { MatchResult result
        (λ o. MatchOption o (HasNone HasNoUpper value.now max_length)
        (λ r. IsWholeOrBest IsUpper value.now max_length (bytes_of r)))
        (λ e. e ≡ OutOfMemory) }
    ensures fits { IfOk result (λ o. IfSome o (λ r. length (bytes_of r) ≤ max_length)) }
    ensures within { IfOk result (λ o. IfSome o (λ r. length (bytes_of r) ≤ length value.now)) }
    ensures inline { max_length ≤ INLINE_BYTES → IsOk result }
    ensures whole { length value.now ≤ max_length → IsOk result }
{
    if value.len() <= max_length {
        return Ok(Some(Upper::Whole(value)));
    }
    let beginning = ByteBuffer::from_slice(alloc, &value[..max_length])?;
    match beginning.upper_bound(alloc, max_length)? {
        Some(bound) => Ok(Some(Upper::Cut(bound))),
        None => Ok(None),
    }
}

/// The upper bound of the string: itself, if it has no more than `max_length` bytes.
pub(crate) fn upper_of_text<'a>(
    alloc: Global,
    text: &'a str,
    max_length: usize,
) -> Result<Option<Upper<'a>>, VortexError>
    ensures given { MatchResult result
        (λ o. MatchOption o (HasNone HasNoTextUpper text.now max_length)
        (λ r. IsWholeOrBest IsTextUpper text.now max_length (bytes_of r)))
        (λ e. e ≡ OutOfMemory) }
    ensures fits { IfOk result (λ o. IfSome o (λ r. length (bytes_of r) ≤ max_length)) }
    ensures within { IfOk result (λ o. IfSome o (λ r. length (bytes_of r) ≤ length text.now)) }
    ensures text { IfOk result (λ o. IfSome o (λ r. IsUtf8 (bytes_of r))) }
    ensures inline { max_length ≤ INLINE_BYTES → IsOk result }
    ensures whole { length text.now ≤ max_length → IsOk result }
{
    if text.len() <= max_length {
        return Ok(Some(Upper::Whole(text.as_bytes())));
    }
    let end = text.floor_char_boundary(max_length);
    let beginning = BufferString::from_str(alloc, &text[..end])?;
    match beginning.upper_bound(alloc, end)? {
        Some(bound) => Ok(Some(Upper::Cut(bound.into_inner()))),
        None => Ok(None),
    }
}
