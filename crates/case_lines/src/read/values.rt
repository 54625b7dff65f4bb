//! Reads raw values and scalars.

use crate::read::numbers::{integer, natural, read_negative};
use crate::read::texts::{bytes_of_hex, read_text};
use crate::read::types::{type_within, within};
use crate::tokens::Tokens;
use std::alloc::Global;
use vortex_dtype::{DType, VortexError};
use vortex_pvalue::PValue;
use vortex_value::{Scalar, ScalarValue, UnionValue};

/// The beginning of a raw value, or the whole of one that has no parts.
#[derive(Drop)]
enum Head {
    Whole(Option<ScalarValue>),
    Tuple,
    Union(u8),
    Variant,
}

/// Reads the beginning of a raw value, with the bracket that opens its parts.
fn read_head(tokens: &mut Tokens<'_>) -> Head {
    match tokens.peek() {
        Some(b'"') => Head::Whole(Some(ScalarValue::Utf8(read_text(tokens)))),
        Some(b'-') => {
            let number = read_negative(tokens);
            integer_head(tokens, number)
        }
        Some(b'[') => {
            tokens.expect(b'[');
            Head::Tuple
        }
        Some(b'<') => {
            tokens.expect(b'<');
            Head::Variant
        }
        _ => read_word(tokens),
    }
}

/// Reads `null`, a boolean, bytes, an integer, or a union's id.
fn read_word(tokens: &mut Tokens<'_>) -> Head {
    match tokens.word() {
        b"null" => Head::Whole(None),
        b"true" => Head::Whole(Some(ScalarValue::Bool(true))),
        b"false" => Head::Whole(Some(ScalarValue::Bool(false))),
        [b'x', digits @ ..] => {
            Head::Whole(Some(ScalarValue::Binary(bytes_of_hex(tokens, digits))))
        }
        word => match natural(word) {
            Some(id) => read_union_head(tokens, id),
            None => integer_head(tokens, integer(word, false)),
        },
    }
}

/// An integer. If there is none, the line is bad.
fn integer_head(tokens: &mut Tokens<'_>, number: Option<PValue>) -> Head {
    if number.is_none() {
        tokens.bad_line();
    }
    Head::Whole(number.map(ScalarValue::Primitive))
}

/// Reads the bracket after a union's id.
fn read_union_head(tokens: &mut Tokens<'_>, id: u64) -> Head {
    tokens.expect(b'(');
    if id < 256 {
        return Head::Union(id as u8);
    }
    tokens.bad_line();
    Head::Whole(None)
}

/// Reads a raw value; `None` is a null.
pub fn read_value(tokens: &mut Tokens<'_>) -> Option<ScalarValue> {
    let room = tokens.room;
    value_within(tokens, room)
}

/// Reads a scalar. It need not be valid.
pub fn read_scalar(tokens: &mut Tokens<'_>) -> Scalar {
    let room = tokens.room;
    scalar_within(tokens, room)
}

/// Reads a raw value with at most `room` brackets open at a time; `None` is a null.
#[cycle(values)]
fn value_within(tokens: &mut Tokens<'_>, room: usize) -> Option<ScalarValue> {
    match read_head(tokens) {
        Head::Whole(value) => value,
        head => {
            let room = within(tokens, room)?;
            read_parts(tokens, head, room)
        }
    }
}

/// Reads the parts of a raw value, and what closes them.
#[cycle(values)]
fn read_parts(tokens: &mut Tokens<'_>, head: Head, room: usize) -> Option<ScalarValue> {
    match head {
        Head::Whole(value) => value,
        Head::Tuple => Some(ScalarValue::Tuple(read_tuple(tokens, room))),
        Head::Union(id) => {
            let child = value_within(tokens, room);
            tokens.expect(b')');
            let made = union_of(tokens.alloc, id, child);
            tokens.made(made)
        }
        Head::Variant => {
            let scalar = scalar_within(tokens, room);
            tokens.expect(b'>');
            let made = variant_of(tokens.alloc, scalar);
            tokens.made(made)
        }
    }
}

#[cycle(values)]
fn read_tuple(tokens: &mut Tokens<'_>, room: usize) -> Vec<Option<ScalarValue>> {
    let mut parts = Vec::new(tokens.alloc);
    for before in 0..=tokens.left() {
        if !tokens.has_item(before, b']') {
            break;
        }
        let part = value_within(tokens, room);
        tokens.push(&mut parts, part);
    }
    parts
}

fn union_of(alloc: Global, id: u8, child: Option<ScalarValue>) -> Result<ScalarValue, VortexError> {
    Ok(ScalarValue::Union(UnionValue::new(alloc, id, child)?))
}

fn variant_of(alloc: Global, scalar: Scalar) -> Result<ScalarValue, VortexError> {
    Ok(ScalarValue::Variant(Box::new(alloc, scalar)?))
}

/// Reads a scalar with at most `room` brackets open at a time.
#[cycle(values)]
fn scalar_within(tokens: &mut Tokens<'_>, room: usize) -> Scalar {
    let dtype = type_within(tokens, room);
    tokens.expect(b':');
    let value = value_within(tokens, room);
    Scalar { dtype, value }
}
