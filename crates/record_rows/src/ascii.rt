//! Whether a word is text, sixteen bytes at a time.

ghost use Rattle.std.specs.Prelude.{◌≡◌, ◌+◌, ◌<◌, ◌≤◌, ℕ, length, slice_index, true, IsAscii, IsUtf8, MatchBool};

use std::simd::prelude::*;
use std::str;

/// How many bytes are looked at together.
const TOGETHER: usize = 16;

/// Whether a word is in UTF-8. Most words are in ASCII: three of them in 46 bytes are tested in 80
/// instructions, and by `from_utf8` alone in 230.
#[inline(always)]
pub(crate) fn is_text(word: &[u8]) -> bool
    ensures { MatchBool result (IsUtf8 word.now) (¬ (IsUtf8 word.now)) }
{
    if is_ascii(word) {
        return true;
    }
    match str::from_utf8(word) {
        Ok(_) => true,
        Err(_) => false,
    }
}

/// Whether each byte of a word is of ASCII.
fn is_ascii(word: &[u8]) -> bool
    ensures { result ≡ true → IsAscii word.now }
{
    if word.len() < TOGETHER {
        return is_short_ascii(word);
    }
    let last = word.len() - TOGETHER;
    let mut place = 0;
    while place < last {
        if !are_ascii(word, place) {
            return false;
        }
        place += TOGETHER;
    }
    // The last sixteen bytes, of which some were looked at already.
    are_ascii(word, last)
}

/// Whether each byte of a short word is of ASCII.
fn is_short_ascii(word: &[u8]) -> bool
    ensures { result ≡ true → IsAscii word.now }
{
    for byte in word {
        if 127 < *byte {
            return false;
        }
    }
    true
}

/// Whether each of the sixteen bytes at this offset is of ASCII.
#[inline(always)]
fn are_ascii(word: &[u8], place: usize) -> bool
    requires { place + 16 ≤ length word.now }
    ensures { result ≡ true → (k : ℕ) → place ≤ k → k < place + 16 → slice_index word.now k < 128 }
{
    let bytes = u8x16::from_slice(&word[place..]);
    bytes.simd_ge(u8x16::splat(128)).to_bitmask() == 0
}
