//! What lines give to calls of filters of membership.

use case_lines::{Inputs, Tokens, no_bytes, put, read_bytes, read_list, read_name, read_natural};
use std::alloc::Global;
use vortex_dtype::{BufferString, ByteBuffer, FieldName};

/// What a call of filters of membership may ask of a line.
#[derive(Clone, Copy)]
pub enum Input {
    /// A value, as a text in quotes.
    Value,
    /// Values, in brackets.
    Values,
    /// A natural number.
    Count,
    /// A rate in millionths.
    Rate,
    /// A hash in hexadecimal, after an `x`.
    Hash,
    /// The bytes of a filter in hexadecimal.
    Filter,
    /// Those of another.
    Other,
}

/// What a line gives to a call of filters of membership.
#[derive(Drop)]
pub struct MembershipInputs {
    pub value: BufferString,
    pub values: Vec<FieldName>,
    pub count: u64,
    pub rate: u32,
    pub hash: u64,
    pub filter: ByteBuffer,
    pub other: ByteBuffer,
}

impl Inputs for MembershipInputs {
    type Input = Input;

    fn empty(alloc: Global) -> MembershipInputs {
        MembershipInputs {
            value: no_value(alloc),
            values: Vec::new(alloc),
            count: 0,
            rate: 0,
            hash: 0,
            filter: no_bytes(alloc),
            other: no_bytes(alloc),
        }
    }

    fn read(&mut self, input: Input, tokens: &mut Tokens<'_>) {
        tokens.spaces();
        match input {
            Input::Value => put(&mut self.value, read_name(tokens)),
            Input::Values => put(&mut self.values, read_list(tokens)),
            Input::Count => self.count = read_natural(tokens, u64::MAX),
            Input::Rate => self.rate = read_natural(tokens, 1_000_000) as u32,
            Input::Hash => self.hash = read_hash(tokens),
            Input::Filter => put(&mut self.filter, read_bytes(tokens)),
            Input::Other => put(&mut self.other, read_bytes(tokens)),
        }
    }

    fn is_same(&self, copy: &MembershipInputs) -> bool {
        self.value == copy.value
            && self.values == copy.values
            && self.filter == copy.filter
            && self.other == copy.other
    }
}

/// No value, which stands for one that is not read.
fn no_value(alloc: Global) -> BufferString {
    match BufferString::empty(alloc) {
        Ok(value) => value,
        Err(_) => unreachable!(),
    }
}

/// Reads a hash: sixteen hexadecimal digits after an `x`.
fn read_hash(tokens: &mut Tokens<'_>) -> u64 {
    let bytes = read_bytes(tokens);
    let hash = bytes.as_slice().try_into().ok().map(u64::from_be_bytes);
    tokens.or_bad(hash, 0)
}
