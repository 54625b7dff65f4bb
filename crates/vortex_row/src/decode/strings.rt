//! Strings from their keys.

ghost use Rattle.std.specs.Prelude.{◌≡◌, ◌+◌, ◌++◌, ◌∷◌, ◌<◌, IfSome, MatchOption, MatchResult, IsAscii, IsUtf8, drop};
ghost use Rattle.std.specs.Prelude.{length};
ghost use Rattle.vortex_row.specs.Reading.{BeginsWithOne, IsStuck, left};
ghost use Rattle.vortex_row.specs.Strings.{AreCharacters, HasString, IsAny, IsEscaped, IsHalfEscaped};
ghost use Rattle.vortex_row.specs.Words.{escape};
ghost use Rattle.vortex_row.specs.declared.reader.KeyDecodeError.TheVariants.{Bad, NoMemory};

use super::texts::first_bad;
use crate::reader::{KeyDecodeError, Reader, bytes_to, inverted_if};
use crate::tags::{END, ESCAPE, PLAIN};
use memchr::{memchr, memchr2};
use std::alloc::Global;
use std::str;
use vortex_dtype::{BufferString, ByteBuffer};

/// In fewer bytes than this the end of a text is looked for byte by byte.
const SHORT: usize = 32;

/// The string whose escaped encoding the bytes begin with, if no byte of it is written as two.
/// `None` says nothing.
fn plain_string(bytes: &[u8]) -> Option<&[u8]>
    ensures { IfSome result (λ string. HasString IsAny string.now bytes.now
        (drop (length string.now + 1) bytes.now)) }
{
    let end = memchr2(END, ESCAPE, bytes)?;
    if bytes[end] == END {
        Some(bytes_to(bytes, end))
    } else {
        None
    }
}

/// The offset of the first byte that is no character of ASCII above 1.
#[inline(always)]
fn ascii_end(bytes: &[u8]) -> Option<usize>
    ensures within { IfSome result (λ end. end < length bytes.now) }
    ensures plain { IfSome result (λ end. AreCharacters bytes.now end) }
{
    for place in 0..bytes.len() {
        if bytes[place] < PLAIN || bytes[place] > 127 {
            return Some(place);
        }
    }
    None
}

/// The text of these bytes.
#[inline(always)]
fn ascii(bytes: &[u8]) -> &str
    requires { IsAscii bytes.now }
    ensures { result.now ≡ bytes.now }
{
    // Bytes of ASCII are UTF-8.
    unsafe { str::from_utf8_unchecked(bytes) }
}

/// The text whose escaped encoding the bytes begin with, if it has characters of ASCII above 1
/// alone. `None` says nothing.
#[inline(always)]
fn ascii_text(bytes: &[u8]) -> Option<&str>
    ensures { IfSome result (λ text. HasString IsUtf8 text.now bytes.now
        (drop (length text.now + 1) bytes.now)) }
{
    let end = ascii_end(bytes)?;
    if bytes[end] == END {
        Some(ascii(bytes_to(bytes, end)))
    } else {
        None
    }
}

/// The text whose escaped encoding the bytes begin with, if no byte of it is written as two. `None`
/// says nothing.
#[tactic(auto, using(crate::proofs::StringSteps::texts))]
#[inline(always)]
fn plain_text(bytes: &[u8]) -> Option<&str>
    ensures { IfSome result (λ text. HasString IsUtf8 text.now bytes.now
        (drop (length text.now + 1) bytes.now)) }
{
    if bytes.len() < SHORT {
        if let Some(text) = ascii_text(bytes) {
            return Some(text);
        }
    }
    match str::from_utf8(plain_string(bytes)?) {
        Ok(text) => Some(text),
        Err(_) => None,
    }
}

/// A buffer of this text.
fn text_of(alloc: Global, text: &str) -> Result<BufferString, KeyDecodeError>
    ensures { MatchResult result (λ buffer. buffer ≡ text.now) (λ e. e ≡ NoMemory) }
{
    BufferString::from_str(alloc, text).map_err(|_| KeyDecodeError::NoMemory)
}

/// A buffer of these bytes.
fn buffer_of(alloc: Global, bytes: &[u8]) -> Result<ByteBuffer, KeyDecodeError>
    ensures { MatchResult result (λ buffer. buffer ≡ bytes.now) (λ e. e ≡ NoMemory) }
{
    ByteBuffer::from_slice(alloc, bytes).map_err(|_| KeyDecodeError::NoMemory)
}

/// A buffer with these bytes.
fn buffer_with(bytes: Vec<u8>) -> Result<ByteBuffer, KeyDecodeError>
    ensures { MatchResult result (λ buffer. buffer ≡ bytes.items) (λ e. e ≡ NoMemory) }
{
    ByteBuffer::from_vec(bytes).map_err(|_| KeyDecodeError::NoMemory)
}

/// The second byte of the two that a byte 0 or 1 is written as, after the first of them.
#[tactic(auto, using(crate::proofs::StringSteps::bytes))]
fn second_byte(reader: &mut Reader<'_>) -> Result<u8, KeyDecodeError>
    ensures { MatchResult result
        (λ byte. 1 ∷ left reader.old ≡ escape byte ++ left reader.new)
        (λ e. IsStuck (IsHalfEscaped IsAny) (left reader.old) (left reader.new)) }
{
    if reader.takes(END + 1) {
        Ok(END)
    } else if reader.takes(ESCAPE + 1) {
        Ok(ESCAPE)
    } else {
        Err(KeyDecodeError::Bad)
    }
}

/// The next byte of a string. `None` at its end, which is taken.
#[tactic(auto, using(crate::proofs::StringSteps::bytes))]
fn next_byte(reader: &mut Reader<'_>) -> Result<Option<u8>, KeyDecodeError>
    ensures { MatchResult result
        (λ next. MatchOption next (left reader.old ≡ 0 ∷ left reader.new)
        (λ byte. left reader.old ≡ escape byte ++ left reader.new))
        (λ e. IsStuck (IsEscaped IsAny) (left reader.old) (left reader.new)) }
{
    match reader.first() {
        Some(END) => {
            reader.advance(1);
            Ok(None)
        }
        Some(ESCAPE) => {
            reader.advance(1);
            match second_byte(reader) {
                Ok(byte) => Ok(Some(byte)),
                Err(fault) => Err(fault),
            }
        }
        Some(byte) => {
            reader.advance(1);
            Ok(Some(byte))
        }
        None => Err(KeyDecodeError::Bad),
    }
}

/// The bytes of a string, one by one.
#[tactic(auto, using(crate::proofs::StringSteps::strings))]
fn read_by_bytes(alloc: Global, reader: &mut Reader<'_>) -> Result<Vec<u8>, KeyDecodeError>
    ensures { MatchResult result
        (λ bytes. HasString IsAny bytes.items (left reader.old) (left reader.new))
        (λ e. e ≡ Bad
        → IsStuck (IsEscaped IsAny) (left reader.old) (left reader.new)) }
{
    let room = memchr(inverted_if(reader.invert, END), reader.rest).unwrap_or(0);
    let mut bytes = Vec::with_capacity(alloc, room)?;
    loop {
        match next_byte(reader)? {
            Some(byte) => bytes.push(byte)?,
            None => return Ok(bytes),
        }
    }
}

/// A string of bytes.
#[tactic(auto, using(crate::proofs::StringSteps::strings))]
pub(super) fn read_bytes(
    alloc: Global,
    reader: &mut Reader<'_>,
) -> Result<ByteBuffer, KeyDecodeError>
    ensures { MatchResult result
        (λ buffer. HasString IsAny buffer (left reader.old) (left reader.new))
        (λ e. e ≡ Bad
        → IsStuck (IsEscaped IsAny) (left reader.old) (left reader.new)) }
{
    if !reader.invert {
        if let Some(string) = plain_string(reader.rest) {
            let buffer = buffer_of(alloc, string)?;
            reader.advance(string.len() + 1);
            return Ok(buffer);
        }
    }
    buffer_with(read_by_bytes(alloc, reader)?)
}

/// A text. `Bad` exactly says that none is there, and nothing of where.
#[tactic(auto, using(crate::proofs::StringSteps::strings))]
fn read_valid(alloc: Global, reader: &mut Reader<'_>) -> Result<BufferString, KeyDecodeError>
    ensures { MatchResult result
        (λ text. HasString IsUtf8 text (left reader.old) (left reader.new))
        (λ e. e ≡ Bad → ¬ (BeginsWithOne (IsEscaped IsUtf8) (left reader.old))) }
{
    match BufferString::try_from(read_bytes(alloc, reader)?) {
        Ok(text) => Ok(text),
        Err(_) => Err(KeyDecodeError::Bad),
    }
}

/// A text, byte by byte.
#[tactic(auto, using(crate::proofs::StringSteps::strings))]
#[inline(never)]
fn text_by_bytes(alloc: Global, reader: &mut Reader<'_>) -> Result<BufferString, KeyDecodeError>
    ensures { MatchResult result
        (λ text. HasString IsUtf8 text (left reader.old) (left reader.new))
        (λ e. e ≡ Bad
        → IsStuck (IsEscaped IsUtf8) (left reader.old) (left reader.new)) }
{
    let start = *reader;
    match read_valid(alloc, reader) {
        Err(KeyDecodeError::Bad) => {
            *reader = start;
            reader.advance(first_bad(start.rest, start.invert));
            Err(KeyDecodeError::Bad)
        }
        answer => answer,
    }
}

/// A text.
#[inline(always)]
pub(super) fn read_text(
    alloc: Global,
    reader: &mut Reader<'_>,
) -> Result<BufferString, KeyDecodeError>
    ensures { MatchResult result
        (λ text. HasString IsUtf8 text (left reader.old) (left reader.new))
        (λ e. e ≡ Bad
        → IsStuck (IsEscaped IsUtf8) (left reader.old) (left reader.new)) }
{
    if !reader.invert {
        if let Some(text) = plain_text(reader.rest) {
            let buffer = text_of(alloc, text)?;
            reader.advance(text.len() + 1);
            return Ok(buffer);
        }
    }
    text_by_bytes(alloc, reader)
}
