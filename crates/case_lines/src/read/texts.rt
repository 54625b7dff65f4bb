//! Reads strings in quotes, names, and bytes in hexadecimal.

use crate::tokens::Tokens;
use hex::{FromHexError, decode};
use std::alloc::Global;
use vortex_dtype::{BufferString, ByteBuffer, FieldName, VortexError};

/// The most digits in a character's escape.
const DIGITS: u32 = 6;

/// Reads a string in quotes.
pub fn read_text(tokens: &mut Tokens<'_>) -> BufferString {
    let mut text = Vec::new(tokens.alloc);
    tokens.expect(b'"');
    for _ in 0..tokens.left() {
        match tokens.byte() {
            Some(b'"') => return made_text(tokens, ByteBuffer::from_vec(text)),
            Some(b'\\') => read_escape(tokens, &mut text),
            Some(byte) => tokens.push(&mut text, byte),
            None => break,
        }
    }
    tokens.bad_line();
    no_text(tokens.alloc)
}

fn text_of(bytes: Result<ByteBuffer, VortexError>) -> Result<BufferString, VortexError> {
    BufferString::try_from(bytes?)
}

/// The string of these bytes, or an empty one if there was no memory for them.
fn made_text(tokens: &mut Tokens<'_>, bytes: Result<ByteBuffer, VortexError>) -> BufferString {
    match tokens.made(text_of(bytes)) {
        Some(text) => text,
        None => no_text(tokens.alloc),
    }
}

/// The empty string, which stands for one that could not be read.
pub fn no_text(alloc: Global) -> BufferString {
    match BufferString::empty(alloc) {
        Ok(text) => text,
        Err(_) => unreachable!(),
    }
}

/// No bytes, which stand for bytes that could not be read.
pub fn no_bytes(alloc: Global) -> ByteBuffer {
    no_text(alloc).into_inner()
}

/// Reads a string in quotes, into memory of its own.
pub fn read_string(tokens: &mut Tokens<'_>) -> String {
    let text = read_text(tokens);
    let copy = String::from_str(tokens.alloc, text.as_str());
    let made = tokens.made(copy.map_err(VortexError::from));
    made.unwrap_or(String::new(tokens.alloc))
}

/// Reads what follows a backslash, and adds the escaped character.
fn read_escape(tokens: &mut Tokens<'_>, text: &mut Vec<u8>) {
    match tokens.byte() {
        Some(b'\\') => tokens.push(text, b'\\'),
        Some(b'"') => tokens.push(text, b'"'),
        Some(b'n') => tokens.push(text, b'\n'),
        Some(b'r') => tokens.push(text, b'\r'),
        Some(b't') => tokens.push(text, b'\t'),
        Some(b'u') => match read_character(tokens) {
            Some(character) => push_character(tokens, text, character),
            None => tokens.bad_line(),
        },
        _ => tokens.bad_line(),
    }
}

/// Reads a character's number: 1 to 6 hexadecimal digits in braces.
fn read_character(tokens: &mut Tokens<'_>) -> Option<char> {
    if tokens.byte()? != b'{' {
        return None;
    }
    let mut number = char::from(tokens.byte()?).to_digit(16)?;
    for _ in 0..DIGITS {
        let byte = tokens.byte()?;
        if byte == b'}' {
            return char::from_u32(number);
        }
        number = number.wrapping_mul(16) | char::from(byte).to_digit(16)?;
    }
    None
}

/// Adds the UTF-8 bytes of a character.
fn push_character(tokens: &mut Tokens<'_>, text: &mut Vec<u8>, character: char) {
    let mut bytes = [0; 4];
    for byte in character.encode_utf8(&mut bytes).as_bytes() {
        tokens.push(text, *byte);
    }
}

/// Reads a name: a word that begins with no digit, or a string in quotes.
pub fn read_name(tokens: &mut Tokens<'_>) -> BufferString {
    if tokens.peek() == Some(b'"') {
        return read_text(tokens);
    }
    let word = tokens.word();
    match word.first() {
        Some(first) if !first.is_ascii_digit() => {
            let bytes = ByteBuffer::from_slice(tokens.alloc, word);
            made_text(tokens, bytes)
        }
        _ => {
            tokens.bad_line();
            no_text(tokens.alloc)
        }
    }
}

/// Reads a name, and adds it to `names`.
pub fn push_name(tokens: &mut Tokens<'_>, names: &mut Vec<FieldName>) {
    let name = FieldName::new(read_name(tokens));
    tokens.push(names, name);
}

/// The bytes that these hexadecimal digits stand for, two digits each; there may be none.
pub fn bytes_of_hex(tokens: &mut Tokens<'_>, digits: &[u8]) -> ByteBuffer {
    let made = match decode(tokens.alloc, digits) {
        Ok(bytes) => ByteBuffer::from_vec(bytes),
        Err(FromHexError::OutOfMemory) => Err(VortexError::OutOfMemory),
        Err(_) => {
            tokens.bad_line();
            ByteBuffer::empty(tokens.alloc)
        }
    };
    match tokens.made(made) {
        Some(bytes) => bytes,
        None => no_bytes(tokens.alloc),
    }
}

/// Reads bytes in hexadecimal, after an `x`.
pub fn read_bytes(tokens: &mut Tokens<'_>) -> ByteBuffer {
    match tokens.word() {
        [b'x', digits @ ..] => bytes_of_hex(tokens, digits),
        _ => {
            tokens.bad_line();
            no_bytes(tokens.alloc)
        }
    }
}
