//! Reads lists in brackets.

use crate::read::texts::read_name;
use crate::read::types::{read_id, read_type};
use crate::read::values::read_scalar;
use crate::tokens::Tokens;
use vortex_dtype::{DType, FieldName};
use vortex_value::Scalar;

/// What may stand in a list.
pub trait Item: Drop {
    /// Reads the next item.
    fn read_item(tokens: &mut Tokens<'_>) -> Self;
}

/// Reads a list.
pub fn read_list<T: Item>(tokens: &mut Tokens<'_>) -> Vec<T> {
    let mut items = Vec::new(tokens.alloc);
    tokens.expect(b'[');
    for before in 0..=tokens.left() {
        if !tokens.has_item(before, b']') {
            break;
        }
        let item = T::read_item(tokens);
        tokens.push(&mut items, item);
    }
    items
}

impl Item for Scalar {
    fn read_item(tokens: &mut Tokens<'_>) -> Scalar {
        read_scalar(tokens)
    }
}

/// A key and its value.
impl Item for (Scalar, Scalar) {
    fn read_item(tokens: &mut Tokens<'_>) -> (Scalar, Scalar) {
        tokens.expect(b'(');
        let key = read_scalar(tokens);
        tokens.expect(b',');
        let value = read_scalar(tokens);
        tokens.expect(b')');
        (key, value)
    }
}

impl Item for DType {
    fn read_item(tokens: &mut Tokens<'_>) -> DType {
        read_type(tokens)
    }
}

/// A byte in decimal.
impl Item for u8 {
    fn read_item(tokens: &mut Tokens<'_>) -> u8 {
        read_id(tokens)
    }
}

impl Item for FieldName {
    fn read_item(tokens: &mut Tokens<'_>) -> FieldName {
        FieldName::new(read_name(tokens))
    }
}
