//! How many bytes keys have, so that memory for them is taken once.

ghost use Rattle.std.specs.Prelude.{[], ◌++◌, ◌+◌, ◌≡◌, ◌≤◌, ◌∷◌, drop, length, pos, true, unsigned_abs};
ghost use Rattle.vortex_row.specs.Words.{big_endian, capped, content, contents, escaped, key, keys, lent_raw};
ghost use Rattle.vortex_row.specs.Words.{number_bytes, union_tree, value_tree, value_trees, whole_key, whole_of};

use crate::tags::PLAIN;
use vortex_dtype::ByteBuffer;
use vortex_pvalue::PValue;
use vortex_value::{ScalarValue, UnionValue};

/// How far a number is from zero.
#[inline(always)]
fn distance(number: &PValue) -> u64
    ensures { result ≡ unsigned_abs (whole_of number.now) }
{
    match *number {
        PValue::U8(n) => u64::from(n),
        PValue::U16(n) => u64::from(n),
        PValue::U32(n) => u64::from(n),
        PValue::U64(n) => n,
        PValue::I8(n) => i64::from(n).unsigned_abs(),
        PValue::I16(n) => i64::from(n).unsigned_abs(),
        PValue::I32(n) => i64::from(n).unsigned_abs(),
        PValue::I64(n) => n.unsigned_abs(),
    }
}

/// How many of the eight bytes of a number are zeros at its front, which no key has.
#[inline(always)]
pub(crate) fn leading_zero_bytes(number: u64) -> usize
    ensures count { length (number_bytes number) + result ≡ 8 }
    ensures bytes { number_bytes number ≡ drop result (big_endian 8 number) }
{
    number.leading_zeros() as usize / 8
}

/// How many bytes the key of a number has.
#[inline(always)]
#[tactic(auto, using(crate::proofs::LengthSteps::numbers))]
fn number_length(number: &PValue) -> usize
    ensures { result ≡ length (whole_key (whole_of number.now)) }
{
    9 - leading_zero_bytes(distance(number))
}

/// How many bytes the key of a number has that is not below zero.
#[inline(always)]
#[tactic(auto, using(crate::proofs::LengthSteps::numbers))]
pub(crate) fn upward_length(number: u64) -> usize
    ensures { result ≡ length (whole_key (pos number)) }
{
    9 - leading_zero_bytes(number)
}

/// How many bytes the key of a number has that may be below zero.
#[inline(always)]
#[tactic(auto, using(crate::proofs::LengthSteps::numbers))]
pub(crate) fn integer_length(number: i64) -> usize
    ensures { result ≡ length (whole_key number) }
{
    9 - leading_zero_bytes(number.unsigned_abs())
}

/// Whether no byte of a string is written as two. It looks at all bytes, so that several are tested
/// at once.
#[tactic(auto, using(crate::proofs::LengthSteps::strings))]
pub(crate) fn is_plain(bytes: &[u8]) -> bool
    ensures { result ≡ true → escaped bytes.now ≡ bytes.now ++ 0 ∷ [] }
{
    let mut least = 255u8;
    for byte in bytes {
        least = least.min(*byte);
    }
    least >= PLAIN
}

/// How many bytes of a string are written as two.
#[tactic(auto, using(crate::proofs::LengthSteps::strings))]
fn doubled_bytes(bytes: &[u8]) -> usize
    ensures { length (escaped bytes.now) ≡ length bytes.now + result + 1 }
{
    let mut doubled = 0usize;
    for byte in bytes {
        if *byte < PLAIN {
            doubled += 1;
        }
    }
    doubled
}

/// How many of at most 255 bytes of a string are written as two. So few are counted in a byte, and
/// 16 bytes are then tested at once.
#[tactic(auto, using(crate::proofs::LengthSteps::strings))]
fn doubled_of_few(bytes: &[u8]) -> u8
    requires { length bytes.now ≤ 255 }
    ensures { length (escaped bytes.now) ≡ length bytes.now + result + 1 }
{
    let mut doubled = 0u8;
    for byte in bytes {
        if *byte < PLAIN {
            doubled += 1;
        }
    }
    doubled
}

/// How many bytes the key of a string has.
#[tactic(auto, using(crate::proofs::LengthSteps::strings))]
pub(crate) fn string_length(bytes: &[u8]) -> usize
    ensures { result ≡ capped (1 + length (escaped bytes.now)) }
{
    let doubled = if bytes.len() <= 255 {
        usize::from(doubled_of_few(bytes))
    } else if is_plain(bytes) {
        0
    } else {
        doubled_bytes(bytes)
    };
    bytes.len().saturating_add(doubled).saturating_add(2)
}

/// No fewer bytes than the key of any number has.
#[inline(always)]
#[tactic(auto, using(crate::proofs::LengthSteps::bounds))]
fn number_bound(number: &PValue) -> usize
    ensures { length (whole_key (whole_of number.now)) ≤ result }
{
    let _ = number;
    9
}

/// No fewer bytes than the key of a string has, by how long the string is.
#[inline(always)]
#[tactic(auto, using(crate::proofs::LengthSteps::bounds))]
fn string_bound(bytes: &ByteBuffer) -> usize
    ensures { capped (1 + length (escaped bytes.now)) ≤ result }
{
    let count = bytes.len();
    count.saturating_add(count).saturating_add(2)
}

/// No fewer bytes than the key of an optional raw value has. No byte of a string is looked at.
#[inline(always)]
#[tactic(auto, using(crate::proofs::LengthSteps::bounds))]
pub(crate) fn length_bound(value: Option<&ScalarValue>) -> usize
    ensures { capped (length (key (content (lent_raw value.entry)))) ≤ result }
{
    match value {
        Some(ScalarValue::Primitive(number)) => number_bound(number),
        Some(ScalarValue::Utf8(text)) => string_bound(text.inner()),
        Some(ScalarValue::Binary(bytes)) => string_bound(bytes),
        _ => length(value),
    }
}

/// How many bytes the key of an optional raw value has, or the greatest number.
#[cycle(length)]
#[tactic(auto, using(crate::proofs::LengthSteps::shown))]
#[inline(always)]
pub(crate) fn length(value: Option<&ScalarValue>) -> usize
    ensures { result ≡ capped (length (key (content (lent_raw value.entry)))) }
{
    match value {
        Some(value) => value_length(value),
        None => 1,
    }
}

/// How many bytes the key of a raw value has.
#[cycle(length)]
#[tactic(auto, using(crate::proofs::LengthSteps::shown))]
#[inline(always)]
fn value_length(value: &ScalarValue) -> usize
    ensures { result ≡ capped (length (key (content (value_tree value.now)))) }
{
    match value {
        ScalarValue::Bool(_) | ScalarValue::Variant(_) => 1,
        ScalarValue::Primitive(number) => number_length(number),
        ScalarValue::Utf8(text) => string_length(text.inner().as_slice()),
        ScalarValue::Binary(bytes) => string_length(bytes.as_slice()),
        ScalarValue::Tuple(parts) => parts_length(parts).saturating_add(1),
        ScalarValue::Union(union) => union_length(union),
    }
}

/// How many bytes the keys of the parts and their end have.
#[cycle(length)]
#[tactic(auto, using(crate::proofs::LengthSteps::shown))]
fn parts_length(parts: &[Option<ScalarValue>]) -> usize
    ensures { result ≡ capped (length (keys (contents (value_trees parts.now)))) }
{
    let mut total = 0usize;
    for part in parts {
        total = total.saturating_add(length(part.as_ref()));
    }
    total.saturating_add(1)
}

/// How many bytes the key of a union has: its first byte and its id, and the key of its child.
#[cycle(length)]
#[tactic(auto, using(crate::proofs::LengthSteps::shown))]
fn union_length(union: &UnionValue) -> usize
    ensures { result ≡ capped (length (key (content (union_tree union.now)))) }
{
    length(union.child.as_deref()).saturating_add(2)
}
