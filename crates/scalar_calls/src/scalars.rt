//! Calls that borrow scalars or raw values, valid or not.

use crate::recorder::fed;
use case_lines::{Answer, CallResult, Given, Input, Line, Named, same_as_lent, text_of};
use std::alloc::Global;
use std::fmt::{self, Write};
use vortex_dtype::VortexError;
use vortex_value::{Scalar, ScalarRef, ScalarValue};

#[derive(Clone, Copy)]
enum Call {
    Compatible,
    Clone,
    Equal,
    Hash,
    HashLent,
    ToScalar,
    Borrow,
    Display,
    Text,
}

const CALLS: [Named<Call, Input>; 9] = [
    ("compatible", Call::Compatible, &[Input::Scalar]),
    ("clone", Call::Clone, &[Input::Scalar]),
    ("equal", Call::Equal, &[Input::Scalar, Input::Second]),
    ("hash", Call::Hash, &[Input::Scalar, Input::Second]),
    ("hash_lent", Call::HashLent, &[Input::Scalar, Input::Second]),
    ("to_scalar", Call::ToScalar, &[Input::Scalar]),
    ("borrow", Call::Borrow, &[Input::Scalar]),
    ("display", Call::Display, &[Input::Scalar]),
    ("text", Call::Text, &[Input::Scalar]),
];

#[derive(Clone, Copy)]
enum RawCall {
    Clone,
    CloneUnion,
    Hash,
    Text,
}

const RAW_CALLS: [Named<RawCall, Input>; 4] = [
    ("clone_value", RawCall::Clone, &[Input::Value]),
    ("clone_union", RawCall::CloneUnion, &[Input::Value]),
    (
        "hash_raw",
        RawCall::Hash,
        &[Input::Value, Input::SecondValue],
    ),
    ("raw_text", RawCall::Text, &[Input::Value]),
];

/// Answers the line if it names one of these calls.
pub fn answer(line: &mut Line<'_>) {
    line.lend(&CALLS, answer_of);
    line.lend(&RAW_CALLS, raw_answer_of);
}

fn answer_of(alloc: Global, call: Call, given: &Given) -> CallResult {
    let scalar = &given.scalar;
    let second = &given.second;
    match call {
        Call::Compatible => {
            Ok(Answer::Truth(Scalar::is_compatible(scalar.dtype(), scalar.value())))
        }
        Call::Clone => scalar.clone(alloc).map(Answer::Scalar),
        Call::Equal => Ok(Answer::Truth(scalar == second)),
        Call::Hash => Ok(Answer::SameFeed(fed(scalar) == fed(second))),
        Call::HashLent => Ok(Answer::SameFeed(fed(&ScalarRef::of(scalar)) == fed(second))),
        Call::ToScalar => ScalarRef::of(scalar).to_scalar(alloc).map(Answer::Scalar),
        Call::Borrow => borrow(alloc, scalar),
        Call::Display => Ok(display(scalar)),
        Call::Text => text_of(alloc, scalar),
    }
}

fn raw_answer_of(alloc: Global, call: RawCall, given: &Given) -> CallResult {
    match (call, &given.value) {
        (RawCall::Hash, value) => { Ok(Answer::SameFeed(fed(value) == fed(&given.second_value))) }
        (RawCall::Clone, Some(value)) => value.clone(alloc).map(Answer::Raw),
        (RawCall::Clone, None) => Ok(Answer::None),
        (RawCall::CloneUnion, Some(ScalarValue::Union(union))) => {
            union.clone(alloc).map(ScalarValue::Union).map(Answer::Raw)
        }
        (RawCall::CloneUnion, _) => Err(VortexError::WrongKind),
        (RawCall::Text, Some(value)) => text_of(alloc, value),
        (RawCall::Text, None) => Ok(Answer::Text(String::from_str(alloc, "null")?)),
    }
}

/// Whether a borrowed scalar, made of a scalar's parts, is that scalar.
fn borrow(alloc: Global, scalar: &Scalar) -> CallResult {
    let lent = ScalarRef::try_new(alloc, scalar.dtype(), scalar.value())?;
    Ok(Answer::Truth(same_as_lent(scalar, lent)))
}

/// A writer that counts bytes.
#[derive(Drop)]
struct Counter {
    bytes: usize,
}

impl Write for Counter {
    fn write_str(&mut self, text: &str) -> fmt::Result {
        self.bytes = self.bytes.saturating_add(text.len());
        Ok(())
    }
}

/// How many bytes the `Display` of a scalar has.
fn display(scalar: &Scalar) -> Answer {
    let mut counter = Counter { bytes: 0 };
    match write!(counter, "{scalar}") {
        Ok(()) => Answer::Number(counter.bytes),
        // The writer never fails.
        Err(_) => Answer::None,
    }
}
