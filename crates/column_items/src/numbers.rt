// SPDX-License-Identifier: Apache-2.0
//! The numbers that raw values store.

ghost use mir.Syntax.{w64};
ghost use Rattle.std.specs.Prelude.{◌≡◌, ℤ, FitsSigned, MatchBool, MatchOption, false, if◌then◌else◌};
ghost use Rattle.column_items.specs.Words.{HasContentOf, IsValueOf, StoresNumber, content, decimal_bytes};
ghost use Rattle.column_items.specs.Words.{option_copied, raw_of, stored_content, string, value_tree, whole};

use arrow_columns::{Format, Kind};
use logical_types::laws::decimal_bytes_sort_as_numbers;
use logical_types::{decimal_of_bytes, is_value_of};
use vortex_value::ScalarValue;

/// The number that a raw value stores, if that is of a value of the format.
pub fn stored_number(format: Format, value: &ScalarValue) -> Option<i128>
    ensures { MatchOption result
        ((z : ℤ) → ¬ (StoresNumber format (content (value_tree value.now)) z))
        (StoresNumber format (content (value_tree value.now))) }
{
    decimal_bytes_sort_as_numbers();
    let number = match value {
        ScalarValue::Primitive(number) if !is_wide(format) => number.whole(),
        ScalarValue::Binary(bytes) if is_wide(format) => decimal_of_bytes(bytes.as_slice())?,
        _ => return None,
    };
    let logical = format.logical_type()?;
    if is_value_of(logical, number) {
        Some(number)
    } else {
        None
    }
}

/// Whether a raw value is null, or stores the number of a value of the kind. Any value does of a kind
/// of no logical type.
pub fn has_value(kind: Kind, value: Option<&ScalarValue>) -> bool
    ensures { MatchBool result (HasContentOf kind (content (raw_of (option_copied value.entry))))
        (¬ (HasContentOf kind (content (raw_of (option_copied value.entry))))) }
{
    match (kind, value) {
        (Kind::Logical(format), Some(value)) => stored_number(format, value).is_some(),
        _ => true,
    }
}

/// Whether 16 bytes store the values of the format, and else integers of 64 bits.
#[inline]
pub fn is_wide(format: Format) -> bool
    ensures stored { (z : ℤ) → stored_content format z
        ≡ (if result then string (decimal_bytes z) else whole z) }
    ensures narrow { (z : ℤ) → result ≡ false → IsValueOf format z → FitsSigned w64 z }
{
    match format {
        Format::Decimal { precision, .. } => precision > 18,
        _ => false,
    }
}
