//! Reads numbers.

ghost use Rattle.std.specs.Prelude.{◌≤◌};

use crate::read::types::ptype_named;
use crate::tokens::{Tokens, split_front};
use std::str;
use vortex_pvalue::PValue;

/// The number that a word stands for, if it has digits alone and is below 2^64.
pub fn natural(word: &[u8]) -> Option<u64> {
    str::from_utf8(word).ok()?.parse().ok()
}

/// Reads a number that is at most `most`. Any other word makes the line bad.
pub fn read_natural(tokens: &mut Tokens<'_>, most: u64) -> u64
    ensures { result ≤ most }
{
    match natural(tokens.word()) {
        Some(number) if number <= most => number,
        _ => {
            tokens.bad_line();
            0
        }
    }
}

/// The integer that a word stands for: digits and a `PType`, after a minus sign that is read already.
pub fn integer(word: &[u8], is_negative: bool) -> Option<PValue> {
    let (digits, ptype) = split_front(word, |byte| byte.is_ascii_digit());
    let size = i128::from(natural(digits)?);
    PValue::from_whole(if is_negative { -size } else { size }, ptype_named(ptype)?)
}

/// Reads an integer with a minus sign; no space may follow the sign.
pub fn read_negative(tokens: &mut Tokens<'_>) -> Option<PValue> {
    tokens.expect(b'-');
    match tokens.rest().first() {
        Some(b' ') => None,
        _ => integer(tokens.word(), true),
    }
}

/// Reads an integer and its `PType`.
pub fn read_integer(tokens: &mut Tokens<'_>) -> PValue {
    let number = match tokens.peek() {
        Some(b'-') => read_negative(tokens),
        _ => integer(tokens.word(), false),
    };
    tokens.or_bad(number, PValue::U8(0))
}
