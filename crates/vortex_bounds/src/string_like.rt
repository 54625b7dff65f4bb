//! Strings that can be incremented.

ghost use Rattle.std.specs.Prelude.{◌≡◌, ◌+◌, ◌≤◌, ◌++◌, List, ℕ, length, encode_utf8, IfErr, IfOk, IsOk, MatchOption};
ghost use Rattle.std.specs.Prelude.{MatchResult, string_bytes};
ghost use Rattle.vortex_bounds.specs.Words.{EndsWith, HandsBack, HasNoNext, HasNoNextOfWidth, IsLast, IsOfNoNext};
ghost use Rattle.vortex_bounds.specs.Words.{IsScalar, IsStuck, IsSuccessor, IsSuccessorOfLength, len_utf8};

use arrayvec::ArrayString;
use std::alloc::Global;
use vortex_dtype::{BufferString, INLINE_BYTES, VortexError};

/// Why a string was not incremented. Hands the string back as it was.
#[derive(Debug, Drop)]
pub enum IncrementError<S> {
    /// The string is empty, or no character follows its last one. Of a `BufferString` also if the
    /// next character has more bytes.
    Last(S),
    /// No memory was left.
    Memory(S),
}

mod sealed {
    pub trait Sealed {}

    impl Sealed for String {}

    impl Sealed for vortex_dtype::BufferString {}
}

/// A string whose last character can be replaced by the next one: `String` and `BufferString`.
///
/// Ports `StringLike`.
pub trait StringLike: sealed::Sealed {
    /// The bytes of the string.
    ghost bytes: { Self → List ℕ };

    /// The first bytes are incremented to the second.
    ghost follows: { List ℕ → List ℕ → Type 0 };

    /// These bytes have no increment.
    ghost stops: { List ℕ → Type 0 };

    /// The string with its last character replaced by the next code point.
    ///
    /// `Last` if there is no such string, even if no memory is left. Else `Memory` if no memory is
    /// left.
    fn increment(self) -> Result<Self, IncrementError<Self>>
        ensures { MatchResult result
            (λ next. follows (bytes self) (bytes next) × ¬ (stops (bytes self)))
            (λ e. HandsBack bytes stops (bytes self) e) };
}

/// `Last` at the last character before the surrogates, U+D7FF, and at the last of all, U+10FFFF.
impl StringLike for String {
    ghost bytes = { string_bytes };

    ghost follows = { IsSuccessor };

    ghost stops = { IsLast };

    fn increment(mut self) -> Result<String, IncrementError<String>> {
        let Some((front, last)) = split_last(self.as_str()) else {
            return Err(IncrementError::Last(self));
        };
        let kept = front.len();
        let Some(next) = next_char(last) else {
            return Err(IncrementError::Last(self));
        };
        // Capacity is reserved first, so that the string can still be handed back.
        if self
            .reserve(next.len_utf8().saturating_sub(last.len_utf8()))
            .is_err()
        {
            return Err(IncrementError::Memory(self));
        }
        self.truncate(kept);
        match self.push(next) {
            Ok(()) => Ok(self),
            Err(_) => unreachable!(),
        }
    }
}

/// `Last` also if the next character has more bytes: the length in bytes never changes. A string of
/// at most 22 bytes takes no memory.
impl StringLike for BufferString {
    ghost bytes = { λ text. text };

    ghost follows = { IsSuccessorOfLength };

    ghost stops = { IsStuck };

    fn increment(self) -> Result<BufferString, IncrementError<BufferString>>
        ensures given { MatchResult result
            (λ next. IsSuccessorOfLength self next × ¬ (IsStuck self))
            (λ e. HandsBack (λ text. text) IsStuck self e) }
        ensures inline { length self ≤ INLINE_BYTES → IfErr result IsOfNoNext }
    {
        let Some((front, last)) = next_of_length(self.as_str()) else {
            return Err(IncrementError::Last(self));
        };
        match with_last(self.inner().allocator(), front, last) {
            Ok(next) => Ok(next),
            Err(_) => Err(IncrementError::Memory(self)),
        }
    }
}

/// The string without its last character, and that character; `None` if it is empty.
fn split_last(text: &str) -> Option<(&str, char)>
    ensures { MatchOption result (length text.now ≡ 0) (λ x. EndsWith text.now x.0.now x.1) }
{
    let mut chars = text.chars();
    let last = chars.next_back()?;
    Some((chars.as_str(), last))
}

/// The next code point, if it is a character.
fn next_char(c: char) -> Option<char>
    ensures { MatchOption result (HasNoNext c) (λ d. (d ≡ c + 1) × IsScalar d) }
{
    match c {
        '\u{D7FF}' | '\u{10FFFF}' => None,
        _ => char::from_u32(c as u32 + 1),
    }
}

/// The next code point, if it is a character of as many bytes.
fn next_char_of_width(c: char) -> Option<char>
    ensures { MatchOption result (HasNoNextOfWidth c)
        (λ d. (d ≡ c + 1) × IsScalar d × (len_utf8 d ≡ len_utf8 c)) }
{
    match c {
        '\u{7F}' | '\u{7FF}' | '\u{FFFF}' => None,
        _ => next_char(c),
    }
}

/// The increment of the same length, in two parts: all but its last character, and that character.
fn next_of_length(text: &str) -> Option<(&str, char)>
    ensures { MatchOption result (IsStuck text.now) (λ x. ¬ (IsStuck text.now)
        × IsSuccessorOfLength text.now (x.0.now ++ encode_utf8 x.1)) }
{
    let (front, last) = split_last(text)?;
    let next = next_char_of_width(last)?;
    Some((front, next))
}

/// The string `front` with one more character. At most 22 bytes take no memory.
fn with_last(alloc: Global, front: &str, last: char) -> Result<BufferString, VortexError>
    ensures given { IfOk result (λ text. text ≡ front.now ++ encode_utf8 last) }
    ensures inline { length (front.now ++ encode_utf8 last) ≤ INLINE_BYTES → IsOk result }
{
    let mut short = ArrayString::<INLINE_BYTES>::new();
    if short.try_push_str(front).is_ok() && short.try_push(last).is_ok() {
        return BufferString::from_str(alloc, short.as_str());
    }
    let length = front.len().saturating_add(last.len_utf8());
    let mut text = String::with_capacity(alloc, length)?;
    text.push_str(front)?;
    text.push(last)?;
    BufferString::from_string(text)
}
