//! The words of a command: a `PType` or a number.
#![tactic(auto, using(crate::proofs::Names::ends, crate::proofs::Names::cuts, crate::proofs::Numerals::numbers))]

ghost use Rattle.std.specs.Prelude.{◌≡◌, IfNone, IfSome, ◌<◌, ◌^◌};
ghost use Rattle.rows.specs.Words.{FirstSays, FirstSaysNone, IsNameEnd, LeadingDigits, natural_named, number_named};
ghost use Rattle.rows.specs.Words.{ptype_named, size_named};

use vortex_dtype::PType;

/// How many digits always fit 64 bits. A number has at most one more.
const SURE_DIGITS: usize = 19;

/// The most digits of a length.
const SIZE_DIGITS: usize = 18;

/// The `PType` with this name, such as `i32`.
#[inline(always)]
#[tactic(auto, unfolding(crate::specs::Grammar::ptype_named))]
pub fn ptype_named(word: &[u8]) -> Option<PType>
    ensures { result ≡ ptype_named word.now }
{
    match word {
        b"u8" => Some(PType::U8),
        b"u16" => Some(PType::U16),
        b"u32" => Some(PType::U32),
        b"u64" => Some(PType::U64),
        b"i8" => Some(PType::I8),
        b"i16" => Some(PType::I16),
        b"i32" => Some(PType::I32),
        b"i64" => Some(PType::I64),
        _ => None,
    }
}

/// The `PType` before the first space, and what follows the space.
pub fn cut_ptype(text: &[u8]) -> Option<(PType, &[u8])>
    ensures some { IfSome result (λ cut. FirstSays ptype_named text.now cut.0 cut.1.now) }
    ensures none { IfNone result (FirstSaysNone ptype_named text.now) }
{
    let end = name_end(text);
    let Some(b' ') = text.get(end) else {
        return None;
    };
    let ptype = ptype_named(&text[..end])?;
    Some((ptype, &text[end + 1..]))
}

/// Where the name of a `PType` in front ends: it has two bytes, or three.
fn name_end(text: &[u8]) -> usize
    ensures { IsNameEnd text.now result }
{
    if text.len() > 2 && text[2] == b' ' {
        2
    } else {
        3
    }
}

/// The number that the digits in front represent, and how many digits: 19 at most.
fn leading_digits(text: &[u8]) -> (u64, usize)
    ensures { LeadingDigits 19 text.now result.0 result.1 }
{
    let front = &text[..text.len().min(SURE_DIGITS)];
    let mut number = 0u64;
    for (count, digit) in front.iter().enumerate() {
        if !digit.is_ascii_digit() {
            return (number, count);
        }
        number = number * 10 + u64::from(*digit - b'0');
    }
    (number, front.len())
}

/// The number that 1 to 18 digits represent.
pub fn size_named(word: &[u8]) -> Option<u64>
    ensures { result ≡ size_named word.now }
{
    let (size, count) = leading_digits(word);
    if count == 0 || count < word.len() || count > SIZE_DIGITS {
        return None;
    }
    Some(size)
}

/// The number before the first space, and what follows the space. It may have a minus sign.
pub fn cut_number(text: &[u8]) -> Option<(i128, &[u8])>
    ensures some { IfSome result (λ cut. FirstSays number_named text.now cut.0 cut.1.now) }
    ensures none { IfNone result (FirstSaysNone number_named text.now) }
{
    if !text.is_empty() && text[0] == b'-' {
        let (size, rest) = cut_natural(&text[1..])?;
        return Some((-(size as i128), rest));
    }
    let (size, rest) = cut_natural(text)?;
    Some((size as i128, rest))
}

/// The number that the 1 to 20 digits before the first space represent, and what follows the space.
fn cut_natural(text: &[u8]) -> Option<(u128, &[u8])>
    ensures small { IfSome result (λ cut. cut.0 < 10 ^ 20) }
    ensures some { IfSome result (λ cut. FirstSays natural_named text.now cut.0 cut.1.now) }
    ensures none { IfNone result (FirstSaysNone natural_named text.now) }
{
    let (number, end) = number_digits(text);
    if end == 0 {
        return None;
    }
    let Some(b' ') = text.get(end) else {
        return None;
    };
    Some((number, &text[end + 1..]))
}

/// The number that the digits in front represent, and how many digits: 20 at most; 64 bits may not
/// do.
fn number_digits(text: &[u8]) -> (u128, usize)
    ensures read { LeadingDigits 20 text.now result.0 result.1 }
    ensures small { result.0 < 10 ^ 20 }
{
    let (number, count) = leading_digits(text);
    let number = u128::from(number);
    if count < text.len() && text[count].is_ascii_digit() {
        return (number * 10 + u128::from(text[count] - b'0'), count + 1);
    }
    (number, count)
}
