//! Words are read.

ghost use Rattle.std.specs.Prelude.{◌≡◌, ◌≤◌, ℕ, ℤ, pos, IfSome, IsUtf8, MatchBool, MatchOption};
ghost use Rattle.std.specs.Str.Parse.{IsNumeral, signed_digits_value, without_leading_sign};
ghost use Rattle.vortex_pvalue.specs.Numbers.{InRange};
ghost use Rattle.record_rows.specs.Words.{IsIntegerWord, IsNumberOf};

use std::str;
use vortex_dtype::PType;
use vortex_pvalue::PValue;

/// So many digits fit in 64 bits, whatever they are.
const MOST_DIGITS: usize = 19;

/// Whether a word is a number of this type.
#[inline(always)]
pub(crate) fn is_integer(word: &[u8], ptype: PType) -> bool
    ensures { MatchBool result ((z : ℤ) × IsIntegerWord ptype word.now z)
        ((z : ℤ) → ¬ (IsIntegerWord ptype word.now z)) }
{
    match short_number(word) {
        Some(number) if number <= greatest(ptype) => true,
        _ => match integer_of(word, ptype) {
            Some(_) => true,
            None => false,
        },
    }
}

/// The greatest number of a type.
fn greatest(ptype: PType) -> u64
    ensures { (n : ℕ) → n ≤ result → InRange ptype (pos n) }
{
    match ptype {
        PType::U8 => 0xff,
        PType::U16 => 0xffff,
        PType::U32 => 0xffff_ffff,
        PType::U64 => u64::MAX,
        PType::I8 => 0x7f,
        PType::I16 => 0x7fff,
        PType::I32 => 0x7fff_ffff,
        PType::I64 => 0x7fff_ffff_ffff_ffff,
    }
}

/// The number of this type that a word is: an optional sign and decimal digits.
pub(crate) fn integer_of(word: &[u8], ptype: PType) -> Option<PValue>
    ensures { MatchOption result
        ((z : ℤ) → ¬ (IsIntegerWord ptype word.now z)) (IsNumberOf ptype word.now) }
{
    if let Some(number) = short_number(word) {
        return PValue::from_whole(i128::from(number), ptype);
    }
    let Ok(text) = str::from_utf8(word) else {
        return None;
    };
    let Ok(number) = text.parse::<i128>() else {
        return None;
    };
    PValue::from_whole(number, ptype)
}

/// The number that a word of decimal digits alone is, if it is short. It takes a third of the
/// instructions that `parse` to an i128 takes.
fn short_number(word: &[u8]) -> Option<u64>
    ensures text { IfSome result (λ _. IsUtf8 word.now) }
    ensures digits { IfSome result (λ _. IsNumeral 10 (without_leading_sign word.now)) }
    ensures value { IfSome result (λ number. signed_digits_value 10 word.now ≡ pos number) }
{
    if word.is_empty() || MOST_DIGITS < word.len() {
        return None;
    }
    let mut number = 0u64;
    for byte in word {
        if *byte < b'0' || b'9' < *byte {
            return None;
        }
        number = number * 10 + u64::from(*byte - b'0');
    }
    Some(number)
}
