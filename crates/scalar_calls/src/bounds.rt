//! Calls of bounds by truncation, of zones, and of increments of strings.

ghost use Rattle.scalar_calls.specs.Words.{IsValid};

use case_lines::{
    Answer, CallResult, Given, Input, Line, Named, TextType, buffer_bytes, buffer_text, or_none,
    take_scalar, validate,
};
use std::alloc::Global;
use vortex_array::{IncrementError, ScalarTruncation, StringLike, lower_bound, upper_bound};
use vortex_dtype::{BufferString, ByteBuffer, Nullability, VortexError};
use vortex_value::Scalar;
use vortex_zone::ZoneBounds;

#[derive(Clone, Copy)]
enum Call {
    TruncatedBytes,
    TruncatedText,
    MayContain,
}

const CALLS: [Named<Call, Input>; 3] = [
    ("truncated_bytes", Call::TruncatedBytes, &[Input::Scalar]),
    ("truncated_text", Call::TruncatedText, &[Input::Scalar]),
    (
        "may_contain",
        Call::MayContain,
        &[Input::Scalar, Input::Second, Input::Number, Input::Third],
    ),
];

/// Which bound, and by which call: the function, or the trait's own method.
#[derive(Clone, Copy)]
enum Side {
    Lower,
    Upper,
    OwnLower,
    OwnUpper,
}

const SIDES: [Named<Side, Input>; 4] = [
    (
        "lower",
        Side::Lower,
        &[Input::Scalar, Input::Number, Input::Nullability],
    ),
    (
        "upper",
        Side::Upper,
        &[Input::Scalar, Input::Number, Input::Nullability],
    ),
    (
        "own_lower",
        Side::OwnLower,
        &[Input::Scalar, Input::Number, Input::Nullability],
    ),
    (
        "own_upper",
        Side::OwnUpper,
        &[Input::Scalar, Input::Number, Input::Nullability],
    ),
];

const INCREMENT: [Named<(), Input>; 1] = [("increment", (), &[Input::TextType, Input::Text])];

/// Answers the line if it names one of these calls.
pub fn answer(line: &mut Line<'_>) {
    line.give(&CALLS, answer_of);
    line.give(&SIDES, bound);
    line.lend(&INCREMENT, increment);
}

fn answer_of(alloc: Global, call: Call, given: &mut Given) -> CallResult {
    match call {
        Call::TruncatedBytes => {
            let bytes = ByteBuffer::from_scalar(take_scalar(&mut given.scalar))?;
            Ok(or_none(bytes.map(buffer_bytes)))
        }
        Call::TruncatedText => {
            let text = BufferString::from_scalar(take_scalar(&mut given.scalar))?;
            Ok(or_none(text.map(buffer_text)))
        }
        Call::MayContain => may_contain(alloc, given),
    }
}

/// A bound of a scalar's bytes or string.
fn bound(alloc: Global, side: Side, given: &mut Given) -> CallResult {
    let (length, n) = (given.number, given.nullability);
    let scalar = take_scalar(&mut given.scalar);
    if scalar.dtype().is_binary() {
        bound_of(alloc, side, ByteBuffer::from_scalar(scalar)?, length, n)
    } else {
        bound_of(alloc, side, BufferString::from_scalar(scalar)?, length, n)
    }
}

/// A bound of a value, by the function or by the trait's own method.
fn bound_of<T: ScalarTruncation>(
    alloc: Global,
    side: Side,
    value: Option<T>,
    length: usize,
    nullability: Nullability,
) -> CallResult {
    match side {
        Side::Lower => {
            let bound = lower_bound(alloc, value, length, nullability)?;
            Ok(or_none(bound.map(Answer::Bound)))
        }
        Side::Upper => {
            let bound = upper_bound(alloc, value, length, nullability)?;
            Ok(or_none(bound.map(Answer::Bound)))
        }
        Side::OwnLower | Side::OwnUpper => match value {
            Some(value) => own_bound(alloc, side, value, length, nullability),
            None => Ok(Answer::Unmet),
        },
    }
}

/// A bound by the trait's own method, which requires that `length` is within the value.
fn own_bound<T: ScalarTruncation>(
    alloc: Global,
    side: Side,
    value: T,
    length: usize,
    nullability: Nullability,
) -> CallResult {
    if value.len() < length {
        drop(value);
        return Ok(Answer::Unmet);
    }
    match side {
        Side::OwnLower => Ok(scalar_of(value.lower_bound(alloc, length)?, nullability)),
        _ => match value.upper_bound(alloc, length)? {
            Some(bound) => Ok(scalar_of(bound, nullability)),
            None => Ok(Answer::None),
        },
    }
}

fn scalar_of<T: ScalarTruncation>(bound: T, nullability: Nullability) -> Answer {
    Answer::Scalar(bound.into_scalar(nullability))
}

/// The successor of a string. If there is none, the call must hand the string back as it was.
fn increment(alloc: Global, _call: (), given: &Given) -> CallResult {
    let text = &given.text;
    match given.text_type {
        TextType::String => string_incremented(String::from_str(alloc, text.as_str())?, text),
        TextType::Buffer => buffer_incremented(text.clone()?, text),
    }
}

fn string_incremented(string: String, text: &BufferString) -> CallResult {
    match string.increment() {
        Ok(next) => Ok(Answer::Text(next)),
        Err(IncrementError::Last(same)) => Ok(if_same(same.as_str() == text.as_str())),
        Err(IncrementError::Memory(same)) => no_memory(same.as_str() == text.as_str()),
    }
}

fn buffer_incremented(buffer: BufferString, text: &BufferString) -> CallResult {
    match buffer.increment() {
        Ok(next) => Ok(buffer_text(next)),
        Err(IncrementError::Last(same)) => Ok(if_same(same == *text)),
        Err(IncrementError::Memory(same)) => no_memory(same == *text),
    }
}

/// The answer if the string has no successor.
fn if_same(is_same: bool) -> Answer {
    if is_same {
        Answer::Last
    } else {
        Answer::Changed
    }
}

/// The answer if there was no memory for the successor.
fn no_memory(is_same: bool) -> CallResult {
    if is_same {
        Err(VortexError::OutOfMemory)
    } else {
        Ok(Answer::Changed)
    }
}

/// Whether a zone may contain the third scalar, by bounds of so many bytes of its least and greatest.
fn may_contain(alloc: Global, given: &mut Given) -> CallResult {
    validate(alloc, &given.scalar)?;
    validate(alloc, &given.second)?;
    validate(alloc, &given.third)?;
    let least = take_scalar(&mut given.scalar);
    let greatest = take_scalar(&mut given.second);
    let bounds = ZoneBounds::of(alloc, least, greatest, given.number)?;
    Ok(zone_answer(bounds, &given.third))
}

/// Whether a zone of these bounds may contain the value.
fn zone_answer(bounds: ZoneBounds, value: &Scalar) -> Answer
    requires { IsValid value.now }
{
    let may_contain = may_contain_typed(&bounds, value);
    drop(bounds);
    may_contain.map_or(Answer::Unmet, Answer::Truth)
}

/// Whether a zone of these bounds may contain the value, if it is of their type.
fn may_contain_typed(bounds: &ZoneBounds, value: &Scalar) -> Option<bool>
    requires { IsValid value.now }
{
    if value.dtype().eq_ignore_nullability(bounds.lower().dtype()) {
        Some(bounds.may_contain(value))
    } else {
        None
    }
}
