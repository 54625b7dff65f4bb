//! Calls that make, copy or slice buffers.

use crate::recorder::fed;
use case_lines::{Answer, CallResult, Given, Input, Line, Named, buffer_bytes, buffer_text};
use std::alloc::Global;
use std::mem::replace;
use vortex_dtype::{BufferString, ByteBuffer, VortexError};

#[derive(Clone, Copy)]
enum Call {
    Bytes,
    SliceBytes,
    EqualSlice,
    HashSlice,
    CloneBytes,
    CloneBytesTwice,
    Text,
    SliceText,
    CloneText,
}

const CALLS: [Named<Call, Input>; 9] = [
    ("bytes", Call::Bytes, &[Input::Text]),
    ("slice_bytes", Call::SliceBytes, &[Input::Bytes]),
    (
        "equal_slice",
        Call::EqualSlice,
        &[Input::Bytes, Input::SecondBytes],
    ),
    (
        "hash_slice",
        Call::HashSlice,
        &[Input::Bytes, Input::SecondBytes],
    ),
    ("clone_bytes", Call::CloneBytes, &[Input::Bytes]),
    ("clone_bytes_twice", Call::CloneBytesTwice, &[Input::Bytes]),
    ("buffer_text", Call::Text, &[Input::Text]),
    ("slice_text", Call::SliceText, &[Input::Text]),
    ("clone_text", Call::CloneText, &[Input::Text]),
];

#[derive(Clone, Copy)]
enum Maker {
    EmptyBytes,
    BytesOfVec,
    EmptyText,
    TextOfString,
}

const MAKERS: [Named<Maker, Input>; 4] = [
    ("empty_bytes", Maker::EmptyBytes, &[]),
    ("bytes_of_vec", Maker::BytesOfVec, &[Input::TypeIds]),
    ("empty_text", Maker::EmptyText, &[]),
    ("text_of_string", Maker::TextOfString, &[Input::String]),
];

/// Answers the line if it names one of these calls.
pub fn answer(line: &mut Line<'_>) {
    line.lend(&CALLS, answer_of);
    line.give(&MAKERS, made_by);
}

fn answer_of(alloc: Global, call: Call, given: &Given) -> CallResult {
    let bytes = &given.bytes;
    let text = &given.text;
    match call {
        Call::Bytes => ByteBuffer::from_slice(alloc, text.as_str().as_bytes()).map(buffer_bytes),
        Call::SliceBytes => slice_bytes(bytes),
        Call::EqualSlice => equal_slice(bytes, &given.second_bytes),
        Call::HashSlice => hash_slice(bytes, &given.second_bytes),
        Call::CloneBytes => bytes.clone().map(buffer_bytes),
        Call::CloneBytesTwice => clone_bytes_twice(bytes),
        Call::Text => BufferString::from_str(alloc, text.as_str()).map(buffer_text),
        Call::SliceText => slice_text(text),
        Call::CloneText => text.clone().map(buffer_text),
    }
}

fn made_by(alloc: Global, call: Maker, given: &mut Given) -> CallResult {
    match call {
        Maker::EmptyBytes => ByteBuffer::empty(alloc).map(buffer_bytes),
        Maker::BytesOfVec => {
            let bytes = replace(&mut given.fields.type_ids, Vec::new(alloc));
            ByteBuffer::from_vec(bytes).map(buffer_bytes)
        }
        Maker::EmptyText => BufferString::empty(alloc).map(buffer_text),
        Maker::TextOfString => {
            let string = replace(&mut given.string, String::new(alloc));
            BufferString::from_string(string).map(buffer_text)
        }
    }
}

/// The slice of all bytes but the first, if there is one.
fn without_first(value: &ByteBuffer) -> Result<Option<ByteBuffer>, VortexError> {
    if value.is_empty() {
        return Ok(None);
    }
    Ok(Some(value.slice(1..value.len())?))
}

fn slice_bytes(value: &ByteBuffer) -> CallResult {
    Ok(without_first(value)?.map_or(Answer::Unmet, buffer_bytes))
}

/// Whether the slice of the first buffer without its first byte equals the second buffer. That holds
/// its bytes as `from_slice` makes them, if they are at most 22.
fn equal_slice(whole: &ByteBuffer, part: &ByteBuffer) -> CallResult {
    Ok(match without_first(whole)? {
        Some(slice) => Answer::Truth(slice == *part),
        None => Answer::Unmet,
    })
}

/// Whether that slice feeds a hasher what the second buffer feeds.
fn hash_slice(whole: &ByteBuffer, part: &ByteBuffer) -> CallResult {
    Ok(match without_first(whole)? {
        Some(slice) => Answer::SameFeed(fed(&slice) == fed(part)),
        None => Answer::Unmet,
    })
}

fn clone_bytes_twice(value: &ByteBuffer) -> CallResult {
    let copy = value.clone()?;
    let second = copy.clone();
    drop(copy);
    Ok(buffer_bytes(second?))
}

/// The slice of a string without its first byte, if that is a whole character.
fn slice_text(text: &BufferString) -> CallResult {
    if text.as_str().is_char_boundary(1) {
        Ok(buffer_text(text.slice(1..text.len())?))
    } else {
        Ok(Answer::Unmet)
    }
}
