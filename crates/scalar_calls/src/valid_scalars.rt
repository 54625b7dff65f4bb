//! Calls that borrow valid scalars.

use crate::view_parts::of_kind;
use case_lines::{Answer, CallResult, Given, Input, Line, Named, or_none, validate};
use std::alloc::Global;
use vortex_views::Downcast;

#[derive(Clone, Copy)]
enum Call {
    Validate,
    Order,
    IsZero,
    Size,
    Cast,
    Reinterpret,
    Invert,
}

const CALLS: [Named<Call, Input>; 7] = [
    ("validate", Call::Validate, &[Input::Scalar]),
    ("order", Call::Order, &[Input::Scalar, Input::Second]),
    ("is_zero", Call::IsZero, &[Input::Scalar]),
    ("size", Call::Size, &[Input::Scalar]),
    ("cast", Call::Cast, &[Input::Scalar, Input::Type]),
    (
        "reinterpret",
        Call::Reinterpret,
        &[Input::Scalar, Input::PType],
    ),
    ("invert", Call::Invert, &[Input::Scalar]),
];

/// Answers the line if it names one of these calls.
pub fn answer(line: &mut Line<'_>) {
    line.lend(&CALLS, answer_of);
}

/// The answer, or the refusal of the first scalar that is not valid. A scalar that the line does not give
/// is a null, which is valid.
fn answer_of(alloc: Global, call: Call, given: &Given) -> CallResult {
    let scalar = &given.scalar;
    let second = &given.second;
    validate(alloc, scalar)?;
    validate(alloc, second)?;
    match call {
        Call::Validate => Ok(Answer::Valid),
        Call::Order => Ok(or_none(scalar.partial_cmp(second).map(Answer::Order))),
        Call::IsZero => Ok(or_none(scalar.is_zero().map(Answer::Truth))),
        Call::Size => Ok(Answer::Number(scalar.approx_nbytes())),
        Call::Cast => scalar.cast(alloc, &given.dtype).map(Answer::Scalar),
        Call::Reinterpret => {
            of_kind(scalar.as_primitive_opt())?;
            scalar
                .primitive_reinterpret_cast(given.ptype)
                .map(Answer::Scalar)
        }
        Call::Invert => {
            let view = of_kind(scalar.as_bool_opt())?;
            Ok(Answer::Scalar(view.invert().into_scalar()))
        }
    }
}
