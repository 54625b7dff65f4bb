//! Plain values, of scalars without parts.

use vortex_pvalue::PValue;
use vortex_row::PlainValue;
use vortex_value::{Scalar, ScalarValue};

/// The plain value with the content of a scalar that has no parts.
pub fn plain_of(scalar: &Scalar) -> Option<PlainValue<'_>> {
    match &scalar.value {
        None => Some(PlainValue::Null),
        Some(ScalarValue::Bool(truth)) => Some(PlainValue::Bool(*truth)),
        Some(ScalarValue::Primitive(number)) => Some(plain_number(*number)),
        Some(ScalarValue::Utf8(text)) => Some(PlainValue::Utf8(text.as_str())),
        Some(ScalarValue::Binary(bytes)) => Some(PlainValue::Binary(bytes.as_slice())),
        Some(ScalarValue::Tuple(_) | ScalarValue::Union(_) | ScalarValue::Variant(_)) => None,
    }
}

fn plain_number(number: PValue) -> PlainValue<'static> {
    match number {
        PValue::U8(n) => PlainValue::Unsigned(u64::from(n)),
        PValue::U16(n) => PlainValue::Unsigned(u64::from(n)),
        PValue::U32(n) => PlainValue::Unsigned(u64::from(n)),
        PValue::U64(n) => PlainValue::Unsigned(n),
        PValue::I8(n) => PlainValue::Signed(i64::from(n)),
        PValue::I16(n) => PlainValue::Signed(i64::from(n)),
        PValue::I32(n) => PlainValue::Signed(i64::from(n)),
        PValue::I64(n) => PlainValue::Signed(n),
    }
}
