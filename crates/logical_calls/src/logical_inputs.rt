//! What lines give to calls of logical types.

use case_lines::{Inputs, Tokens, no_bytes, put, read_bytes, read_name};
use logical_types::{LogicalType, StorageType, logical_type_named};
use std::alloc::Global;
use std::str;
use vortex_dtype::{BufferString, ByteBuffer};

/// What a call of logical types may ask of a line.
#[derive(Clone, Copy)]
pub enum Input {
    /// The name of a type, in quotes if it is no plain word.
    Type,
    /// A word, in quotes.
    Word,
    /// An integer.
    Number,
    /// A power of ten.
    Exponent,
    /// Bytes in hexadecimal.
    Bytes,
    /// What stores values.
    Storage,
}

/// What a line gives to a call of logical types.
#[derive(Drop)]
pub struct LogicalInputs {
    pub logical: LogicalType,
    pub word: BufferString,
    pub number: i128,
    pub exponent: i128,
    pub bytes: ByteBuffer,
    pub storage: StorageType,
}

impl Inputs for LogicalInputs {
    type Input = Input;

    fn empty(alloc: Global) -> LogicalInputs {
        LogicalInputs {
            logical: LogicalType::Float64,
            word: no_word(alloc),
            number: 0,
            exponent: 0,
            bytes: no_bytes(alloc),
            storage: StorageType::I64,
        }
    }

    fn read(&mut self, input: Input, tokens: &mut Tokens<'_>) {
        tokens.spaces();
        match input {
            Input::Type => self.logical = read_logical_type(tokens),
            Input::Word => put(&mut self.word, read_name(tokens)),
            Input::Number => self.number = read_number(tokens),
            Input::Exponent => self.exponent = read_number(tokens),
            Input::Bytes => put(&mut self.bytes, read_bytes(tokens)),
            Input::Storage => self.storage = read_storage(tokens),
        }
    }

    fn is_same(&self, copy: &LogicalInputs) -> bool {
        self.word == copy.word && self.bytes == copy.bytes
    }
}

/// No word, which stands for one that is not read.
fn no_word(alloc: Global) -> BufferString {
    match BufferString::empty(alloc) {
        Ok(word) => word,
        Err(_) => unreachable!(),
    }
}

/// Reads the name of a logical type.
fn read_logical_type(tokens: &mut Tokens<'_>) -> LogicalType {
    let name = read_name(tokens);
    let named = logical_type_named(name.as_str().as_bytes());
    tokens.or_bad(named, LogicalType::Float64)
}

/// Reads an integer, perhaps with a minus sign.
fn read_number(tokens: &mut Tokens<'_>) -> i128 {
    let is_negative = tokens.takes(b'-');
    let size = size_of_word(tokens.word());
    let number = if is_negative {
        size.and_then(i128::checked_neg)
    } else {
        size
    };
    tokens.or_bad(number, 0)
}

/// The number that digits stand for, if 128 bits hold it.
fn size_of_word(word: &[u8]) -> Option<i128> {
    str::from_utf8(word).ok()?.parse().ok()
}

/// Reads what stores values: `i32`, `i64` or `bytes`.
fn read_storage(tokens: &mut Tokens<'_>) -> StorageType {
    let storage = match tokens.word() {
        b"i32" => Some(StorageType::I32),
        b"i64" => Some(StorageType::I64),
        b"bytes" => Some(StorageType::Bytes),
        _ => None,
    };
    tokens.or_bad(storage, StorageType::I64)
}
