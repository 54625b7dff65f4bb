//! What a literal has in it.

ghost use Rattle.std.specs.Prelude.{◌≡◌};
ghost use Rattle.column_kernels.specs.Words.{bool_in, bytes_in, number_in, option_copied, scalar_content, text_in};

use vortex_value::{Scalar, ScalarValue};

/// The integer of a literal, if it has one.
pub(crate) fn number_in(literal: &Scalar) -> Option<i128>
    ensures { result ≡ number_in (scalar_content literal.now) }
{
    match literal.value() {
        Some(ScalarValue::Primitive(number)) => Some(number.whole()),
        _ => None,
    }
}

/// The boolean of a literal, if it has one.
pub(crate) fn bool_in(literal: &Scalar) -> Option<bool>
    ensures { result ≡ bool_in (scalar_content literal.now) }
{
    match literal.value() {
        Some(ScalarValue::Bool(value)) => Some(*value),
        _ => None,
    }
}

/// The bytes of a literal's string, if it has one.
pub(crate) fn text_in(literal: &Scalar) -> Option<&[u8]>
    ensures { option_copied result ≡ text_in (scalar_content literal.now) }
{
    match literal.value() {
        Some(ScalarValue::Utf8(text)) => Some(text.inner().as_slice()),
        _ => None,
    }
}

/// The bytes of a literal, if it has some.
pub(crate) fn bytes_in(literal: &Scalar) -> Option<&[u8]>
    ensures { option_copied result ≡ bytes_in (scalar_content literal.now) }
{
    match literal.value() {
        Some(ScalarValue::Binary(bytes)) => Some(bytes.as_slice()),
        _ => None,
    }
}
