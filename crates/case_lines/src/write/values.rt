//! Writes raw values and scalars.

use crate::write::output::Output;
use crate::write::texts::write_text;
use crate::write::types::write_type;
use crate::write::words::truth_word;
use vortex_pvalue::PValue;
use vortex_value::{Scalar, ScalarValue, UnionValue};

/// Writes an integer without its `PType`.
pub fn write_number(out: &mut Output, number: PValue) {
    out.number(number.whole());
}

/// Writes an integer and its `PType`.
fn write_integer(out: &mut Output, number: PValue) {
    write_number(out, number);
    out.word(number.ptype().name());
}

/// Writes bytes in hexadecimal, after an `x`.
pub fn write_bytes(out: &mut Output, bytes: &[u8]) {
    out.char('x');
    out.hex(bytes);
}

#[cycle(values)]
pub fn write_value(out: &mut Output, value: &ScalarValue) {
    match value {
        ScalarValue::Bool(truth) => out.word(truth_word(*truth)),
        ScalarValue::Primitive(number) => write_integer(out, *number),
        ScalarValue::Utf8(text) => write_text(out, text.as_str()),
        ScalarValue::Binary(bytes) => write_bytes(out, bytes.as_slice()),
        ScalarValue::Tuple(parts) => write_tuple(out, parts),
        ScalarValue::Union(union) => write_union(out, union),
        ScalarValue::Variant(scalar) => write_variant(out, scalar),
    }
}

/// Writes a raw value, or `null` if it is absent.
#[cycle(values)]
pub fn write_raw(out: &mut Output, value: Option<&ScalarValue>) {
    match value {
        Some(value) => write_value(out, value),
        None => out.word("null"),
    }
}

#[cycle(values)]
fn write_tuple(out: &mut Output, parts: &[Option<ScalarValue>]) {
    out.char('[');
    for (place, part) in parts.iter().enumerate() {
        out.comma(place);
        write_raw(out, part.as_ref());
    }
    out.char(']');
}

#[cycle(values)]
fn write_union(out: &mut Output, union: &UnionValue) {
    out.number(union.type_id);
    out.char('(');
    write_raw(out, union.child.as_deref());
    out.char(')');
}

#[cycle(values)]
fn write_variant(out: &mut Output, scalar: &Scalar) {
    out.char('<');
    write_scalar(out, scalar);
    out.char('>');
}

/// Writes a scalar: its type, a colon and its raw value.
#[cycle(values)]
pub fn write_scalar(out: &mut Output, scalar: &Scalar) {
    write_type(out, &scalar.dtype);
    out.char(':');
    write_raw(out, scalar.value.as_ref());
}

/// Writes scalars in brackets.
pub fn write_scalars(out: &mut Output, scalars: &[Scalar]) {
    out.char('[');
    for (place, scalar) in scalars.iter().enumerate() {
        out.comma(place);
        write_scalar(out, scalar);
    }
    out.char(']');
}

/// Writes places in brackets: of elements, rows or zones.
pub fn write_places(out: &mut Output, places: &[usize]) {
    out.char('[');
    for (index, place) in places.iter().enumerate() {
        out.comma(index);
        out.number(*place);
    }
    out.char(']');
}
