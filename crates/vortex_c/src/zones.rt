//! Whether a zone may hold a value.

ghost use Rattle.std.specs.Prelude.{◌≡◌, ◌≢◌, ◌⊎◌, IsTrue, IsUtf8, MatchBool};
ghost use Rattle.vortex_c.specs.Words.{IsAnswerOfZones, NonNullable, binary_type, may_hold_bytes, raw_bytes};
ghost use Rattle.vortex_c.specs.Words.{raw_text, some_where, utf8_type};

use crate::status::{GIVEN, NOT_UTF8};
use std::str;

/// Whether a zone with these bounds may hold the bytes: `false` exactly if they are below the lower
/// bound or above the upper one. Without `has_upper` the upper bound is not read. Takes no memory.
#[unsafe(no_mangle)]
pub extern "C" fn doqallin_may_contain_bytes(
    lower: &[u8],
    upper: &[u8],
    has_upper: bool,
    value: &[u8],
) -> bool
    ensures order { result
        ≡ may_hold_bytes lower.now (some_where has_upper upper.now) value.now }
    ensures zones { IsAnswerOfZones (binary_type NonNullable) raw_bytes
        lower.now (some_where has_upper upper.now) value.now result }
{
    may_contain(lower, upper, has_upper, value)
}

/// Whether a zone with these bounds may hold the string: `false` exactly if it is below the lower
/// bound or above the upper one. Without `has_upper` the upper bound is not read. Takes no memory.
///
/// - `NOT_UTF8`: the value, the lower bound or, with `has_upper`, the upper bound is not UTF-8.
#[unsafe(no_mangle)]
pub extern "C" fn doqallin_may_contain_text(
    lower: &[u8],
    upper: &[u8],
    has_upper: bool,
    value: &[u8],
    answer: &mut bool,
) -> u32
    ensures statuses { (result ≡ GIVEN) ⊎ (result ≡ NOT_UTF8) }
    ensures order { result ≡ GIVEN → answer.new
        ≡ may_hold_bytes lower.now (some_where has_upper upper.now) value.now }
    ensures zones { result ≡ GIVEN → IsAnswerOfZones (utf8_type NonNullable) raw_text
        lower.now (some_where has_upper upper.now) value.now answer.new }
    ensures texts { result ≡ GIVEN
        → IsUtf8 lower.now × (IsTrue has_upper → IsUtf8 upper.now) × IsUtf8 value.now }
    ensures refused { result ≡ NOT_UTF8
        → ¬ (IsUtf8 lower.now × (IsTrue has_upper → IsUtf8 upper.now) × IsUtf8 value.now) }
    ensures kept { result ≢ GIVEN → answer.new ≡ answer.old }
{
    if !is_text(lower) || !is_text(value) || (has_upper && !is_text(upper)) {
        return NOT_UTF8;
    }
    *answer = may_contain(lower, upper, has_upper, value);
    GIVEN
}

/// Whether the bytes are UTF-8.
fn is_text(bytes: &[u8]) -> bool
    ensures { MatchBool result (IsUtf8 bytes.now) (¬ (IsUtf8 bytes.now)) }
{
    str::from_utf8(bytes).is_ok()
}

/// Whether the bytes are neither below the lower bound nor above the upper one, if there is one.
fn may_contain(lower: &[u8], upper: &[u8], has_upper: bool, value: &[u8]) -> bool
    ensures { result ≡ may_hold_bytes lower.now (some_where has_upper upper.now) value.now }
{
    value.cmp(lower).is_ge() && (!has_upper || value.cmp(upper).is_le())
}
