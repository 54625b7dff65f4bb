//! What lines give to calls of patterns.

use case_lines::{Inputs, Tokens, no_bytes, put, read_bytes, read_name};
use std::alloc::Global;
use vortex_dtype::{BufferString, ByteBuffer};

/// What a call of patterns may ask of a line.
#[derive(Clone, Copy)]
pub enum Input {
    /// A string, in quotes.
    Text,
    /// The bytes of a string, in hexadecimal.
    Bytes,
    /// The text of a pattern and its escape, in quotes; an underscore stands for no escape.
    Pattern,
}

/// What a line gives to a call of patterns.
#[derive(Drop)]
pub struct PatternInputs {
    pub text: BufferString,
    pub bytes: ByteBuffer,
    pub spelling: BufferString,
    pub escape: Option<char>,
}

impl Inputs for PatternInputs {
    type Input = Input;

    fn empty(alloc: Global) -> PatternInputs {
        PatternInputs {
            text: no_text(alloc),
            bytes: no_bytes(alloc),
            spelling: no_text(alloc),
            escape: None,
        }
    }

    fn read(&mut self, input: Input, tokens: &mut Tokens<'_>) {
        tokens.spaces();
        match input {
            Input::Text => put(&mut self.text, read_name(tokens)),
            Input::Bytes => put(&mut self.bytes, read_bytes(tokens)),
            Input::Pattern => {
                put(&mut self.spelling, read_name(tokens));
                tokens.spaces();
                self.escape = read_escape(tokens);
            }
        }
    }

    fn is_same(&self, copy: &PatternInputs) -> bool {
        self.text == copy.text && self.bytes == copy.bytes && self.spelling == copy.spelling
    }
}

/// No string, which stands for one that is not read.
fn no_text(alloc: Global) -> BufferString {
    match BufferString::empty(alloc) {
        Ok(text) => text,
        Err(_) => unreachable!(),
    }
}

/// Reads the escape, a character in quotes, or an underscore if there is none.
fn read_escape(tokens: &mut Tokens<'_>) -> Option<char> {
    if tokens.takes_word(b"_") {
        return None;
    }
    let text = read_name(tokens);
    let mut characters = text.as_str().chars();
    let first = characters.next();
    if first.is_none() || characters.next().is_some() {
        tokens.bad_line();
    }
    first
}
